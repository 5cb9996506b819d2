// Why a program isn't well formed.
ghost use Rattle.std.specs.Prelude.{◌≡◌};
ghost use Rattle.sm_syntax.specs.declared.error.SyntaxError.TheVariants.{Memory};

use crate::tree::Name;
use std::alloc::{AllocError, AllocFailed};
use thiserror::Error;

/// Why a program isn't well formed.
#[derive(Clone, Copy, Debug, PartialEq, Eq, Error)]
pub enum SyntaxError {
    #[error("the name with number {} is not declared", name.0)]
    UnknownName { name: Name },
    #[error("the name with number {} stands with the other sort", name.0)]
    WrongSort { name: Name },
    #[error("the name with number {} stands a second time", name.0)]
    DoubleName { name: Name },
    /// A depth of more than 64.
    #[error("the program is too deep")]
    TooDeep,
    /// More than 200 declared names, or more than 20,000 nodes.
    #[error("the program is too large")]
    TooMany,
    #[error("out of memory")]
    Memory,
}

impl From<AllocError> for SyntaxError {
    ghost from_gives = { λ _ e. e ≡ Memory };

    fn from(_e: AllocError) -> SyntaxError {
        SyntaxError::Memory
    }
}

impl<T: Drop> From<AllocFailed<T>> for SyntaxError {
    ghost from_gives = { λ _ e. e ≡ Memory };

    fn from(_e: AllocFailed<T>) -> SyntaxError {
        SyntaxError::Memory
    }
}
