// Why numbers were not computed.
ghost use Rattle.std.specs.Prelude.{◌≡◌};
ghost use Rattle.sm_num.specs.declared.error.NumError.TheVariants.{Memory};

use crate::op::Op;
use std::alloc::{AllocError, AllocFailed};
use thiserror::Error;

/// Why numbers were not computed.
#[derive(Clone, Copy, Debug, PartialEq, Eq, Error)]
pub enum NumError {
    /// The operation, with its operands, whose exact result leaves the range.
    #[error("{op:?} of {a} and {b} leaves the range")]
    Beyond { op: Op, a: i128, b: i128 },
    #[error("out of memory")]
    Memory,
}

impl From<AllocError> for NumError {
    ghost from_gives = { λ _ e. e ≡ Memory };

    fn from(_e: AllocError) -> NumError {
        NumError::Memory
    }
}

impl<T: Drop> From<AllocFailed<T>> for NumError {
    ghost from_gives = { λ _ e. e ≡ Memory };

    fn from(_e: AllocFailed<T>) -> NumError {
        NumError::Memory
    }
}
