// Why a text can't be read.
use std::alloc::AllocError;
use thiserror::Error;

/// Why a text is not in the grammar. A place is a byte's offset in the text.
#[derive(Clone, Copy, Debug, PartialEq, Eq, Error)]
pub enum TextError {
    #[error("no token begins with the byte at {place}")]
    BadByte { place: u64 },
    #[error("the number at {place} is too wide")]
    WideNumber { place: u64 },
    #[error("the token at {place} is none of the language")]
    BadToken { place: u64 },
    #[error("no task has what stands at {place}")]
    Expected { place: u64 },
    #[error("what stands at {place} nests too deep")]
    Nested { place: u64 },
    #[error("out of memory")]
    Memory,
}

impl From<AllocError> for TextError {
    ghost use Rattle.std.specs.Prelude.{◌≡◌};
    ghost use Rattle.sm_text.specs.declared.error.TextError.TheVariants.{Memory};

    ghost from_gives = { λ _ e. e ≡ Memory };

    fn from(_error: AllocError) -> TextError {
        TextError::Memory
    }
}
