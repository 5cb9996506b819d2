// Why bytes are read as no line.
ghost use Rattle.std.specs.Prelude.{◌≡◌};
ghost use Rattle.sm_proof.specs.Behind.{fault_error};
ghost use Rattle.sm_proof.specs.declared.error.LineError.TheVariants.{Memory};

use std::alloc::{AllocError, AllocFailed};
use thiserror::Error;

/// Why bytes are read as no line.
#[derive(Clone, Copy, Debug, PartialEq, Eq, Error)]
pub enum LineError {
    /// They are no line by their words and their count, or too long.
    #[error("this is no line of a proof file")]
    BadLine,
    /// A number is ill spelled or beyond its field.
    #[error("a number is ill spelled or too great")]
    BadNumber,
    /// There is no line feed.
    #[error("the line has no end")]
    Truncated,
    #[error("out of memory")]
    Memory,
}

/// Why words are no line.
#[derive(Clone, Copy)]
pub(crate) enum Fault {
    Line,
    Number,
}

impl From<Fault> for LineError {
    ghost from_gives = { λ fault e. e ≡ fault_error fault };

    fn from(fault: Fault) -> LineError {
        match fault {
            Fault::Line => LineError::BadLine,
            Fault::Number => LineError::BadNumber,
        }
    }
}

impl From<AllocError> for LineError {
    ghost from_gives = { λ _ e. e ≡ Memory };

    fn from(_e: AllocError) -> LineError {
        LineError::Memory
    }
}

impl<T: Drop> From<AllocFailed<T>> for LineError {
    ghost from_gives = { λ _ e. e ≡ Memory };

    fn from(_e: AllocFailed<T>) -> LineError {
        LineError::Memory
    }
}
