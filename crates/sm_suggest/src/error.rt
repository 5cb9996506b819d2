// Why nothing is suggested.
ghost use Rattle.std.specs.Prelude.{◌≡◌};
ghost use Rattle.sm_suggest.specs.declared.error.SuggestError.TheVariants.{Memory};

use std::alloc::AllocError;
use thiserror::Error;

/// Why nothing is suggested.
#[derive(Clone, Copy, Debug, PartialEq, Eq, Error)]
pub enum SuggestError {
    #[error("{count} holes are more than 8")]
    TooManyHoles { count: u64 },
    #[error("out of memory")]
    Memory,
}

impl From<AllocError> for SuggestError {
    ghost from_gives = { λ _ e. e ≡ Memory };

    fn from(_e: AllocError) -> SuggestError {
        SuggestError::Memory
    }
}
