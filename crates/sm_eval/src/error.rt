// Why a program has no end store.
ghost use Rattle.std.specs.Prelude.{◌≡◌};
ghost use Rattle.sm_eval.specs.declared.error.EvalError.TheVariants.{Memory};

use sm_num::Op;
use std::alloc::{AllocError, AllocFailed};
use thiserror::Error;

/// Why a value was not computed, or a program has no end store.
#[derive(Clone, Copy, Debug, PartialEq, Eq, Error)]
pub enum EvalError {
    /// A loop's guard that holds after the greatest number of turns.
    #[error("a loop takes too many turns")]
    OutOfTurns,
    /// The operation, with its operands, whose exact result leaves 128 bits.
    #[error("{op:?} of {a} and {b} leaves 128 bits")]
    Beyond { op: Op, a: i128, b: i128 },
    #[error("out of memory")]
    Memory,
}

impl From<AllocError> for EvalError {
    ghost from_gives = { λ _ e. e ≡ Memory };

    fn from(_e: AllocError) -> EvalError {
        EvalError::Memory
    }
}

impl<T: Drop> From<AllocFailed<T>> for EvalError {
    ghost from_gives = { λ _ e. e ≡ Memory };

    fn from(_e: AllocFailed<T>) -> EvalError {
        EvalError::Memory
    }
}
