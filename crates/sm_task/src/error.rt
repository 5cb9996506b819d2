// Why a text is no task.
ghost use Rattle.std.specs.Prelude.{◌≡◌};
ghost use Rattle.sm_task.specs.declared.error.TaskError.TheVariants.{Memory};

use sm_syntax::{Name, SyntaxError};
use sm_text::TextError;
use std::alloc::{AllocError, AllocFailed};
use thiserror::Error;

/// Why a text is no task. A place is a byte's offset in the text. A list is the number of a copy,
/// from 0 for the base to 3 for the candidate, or 4 for the shared program.
#[derive(Clone, Copy, Debug, PartialEq, Eq, Error)]
pub enum TaskError {
    #[error("no token begins with the byte at {place}")]
    BadByte { place: u64 },
    #[error("the number at {place} is too wide")]
    WideNumber { place: u64 },
    #[error("the token at {place} is none of the language")]
    BadToken { place: u64 },
    #[error("no task has what stands at {place}")]
    Expected { place: u64 },
    #[error("what stands at {place} nests too deep")]
    Nested { place: u64 },
    #[error("list {list} does not fill hole {hole}")]
    MissingFilling { list: u8, hole: u32 },
    #[error("list {list} fills hole {hole}, which the shared program does not have")]
    UnknownHole { list: u8, hole: u32 },
    #[error("list {list} has hole {hole} a second time")]
    DoubleHole { list: u8, hole: u32 },
    #[error("a filling of list {list} has hole {hole}")]
    HoleInFilling { list: u8, hole: u32 },
    #[error("the name with number {} is not declared", name.0)]
    UnknownName { name: Name },
    #[error("the name with number {} stands with the other sort", name.0)]
    WrongSort { name: Name },
    #[error("the name with number {} stands a second time", name.0)]
    DoubleName { name: Name },
    #[error("a program or the assumption is too deep")]
    TooDeep,
    #[error("a program or the assumption is too large")]
    TooMany,
    #[error("out of memory")]
    Memory,
}

impl From<TextError> for TaskError {
    ghost use Rattle.sm_task.specs.Errors.{from_text};

    ghost from_gives = { λ t e. e ≡ from_text t };

    fn from(error: TextError) -> TaskError {
        match error {
            TextError::BadByte { place } => TaskError::BadByte { place },
            TextError::WideNumber { place } => TaskError::WideNumber { place },
            TextError::BadToken { place } => TaskError::BadToken { place },
            TextError::Expected { place } => TaskError::Expected { place },
            TextError::Nested { place } => TaskError::Nested { place },
            TextError::Memory => TaskError::Memory,
        }
    }
}

impl From<AllocError> for TaskError {
    ghost from_gives = { λ _ e. e ≡ Memory };

    fn from(_e: AllocError) -> TaskError {
        TaskError::Memory
    }
}

impl<T: Drop> From<AllocFailed<T>> for TaskError {
    ghost from_gives = { λ _ e. e ≡ Memory };

    fn from(_e: AllocFailed<T>) -> TaskError {
        TaskError::Memory
    }
}

impl From<SyntaxError> for TaskError {
    ghost use Rattle.sm_task.specs.Errors.{from_syntax};

    ghost from_gives = { λ e t. t ≡ from_syntax e };

    fn from(e: SyntaxError) -> TaskError {
        match e {
            SyntaxError::UnknownName { name } => TaskError::UnknownName { name },
            SyntaxError::WrongSort { name } => TaskError::WrongSort { name },
            SyntaxError::DoubleName { name } => TaskError::DoubleName { name },
            SyntaxError::TooDeep => TaskError::TooDeep,
            SyntaxError::TooMany => TaskError::TooMany,
            SyntaxError::Memory => TaskError::Memory,
        }
    }
}
