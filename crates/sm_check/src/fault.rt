// Why a line isn't taken, and why the lines behind it aren't.
ghost use Rattle.std.specs.Prelude.{◌≡◌};
ghost use Rattle.sm_check.specs.declared.fault.LineFault.TheVariants.{Memory};
ghost use Rattle.sm_check.specs.declared.fault.Stopped.TheVariants.{Memory as no_memory};

use sm_proof::Word;
use std::alloc::{AllocError, AllocFailed};
use thiserror::Error;

/// Why a line isn't taken.
#[derive(Clone, Copy, Debug, PartialEq, Eq, Error)]
pub enum LineFault {
    /// The line is bad.
    #[error("the line is bad")]
    Wrong { word: Word },
    #[error("out of memory")]
    Memory,
}

impl From<AllocError> for LineFault {
    ghost from_gives = { λ _ e. e ≡ Memory };

    fn from(_e: AllocError) -> LineFault {
        LineFault::Memory
    }
}

impl<T: Drop> From<AllocFailed<T>> for LineFault {
    ghost from_gives = { λ _ e. e ≡ Memory };

    fn from(_e: AllocFailed<T>) -> LineFault {
        LineFault::Memory
    }
}

/// Why lines aren't taken further.
#[derive(Clone, Copy)]
pub(crate) enum Stopped {
    /// A line is bad, the first of the file that is.
    Wrong { line: u64, word: Word },
    Memory,
}

impl From<AllocError> for Stopped {
    ghost from_gives = { λ _ e. e ≡ no_memory };

    fn from(_e: AllocError) -> Stopped {
        Stopped::Memory
    }
}
