// Why a term isn't put into a table.
ghost use Rattle.std.specs.Prelude.{◌≡◌};
ghost use Rattle.sm_term.specs.declared.error.TermError.TheVariants.{Memory};

use std::alloc::{AllocError, AllocFailed};
use thiserror::Error;

/// Why a term isn't put into a table.
#[derive(Clone, Copy, Debug, PartialEq, Eq, Error)]
pub enum TermError {
    #[error("an argument has the other sort")]
    WrongSort,
    #[error("out of memory")]
    Memory,
}

impl From<AllocError> for TermError {
    ghost from_gives = { λ _ e. e ≡ Memory };

    fn from(_e: AllocError) -> TermError {
        TermError::Memory
    }
}

impl<T: Drop> From<AllocFailed<T>> for TermError {
    ghost from_gives = { λ _ e. e ≡ Memory };

    fn from(_e: AllocFailed<T>) -> TermError {
        TermError::Memory
    }
}
