// Why calls of shelves and sinks, and reads of whole files, fail.
ghost use Rattle.std.specs.Prelude.{◌≡◌};
ghost use Rattle.sm_io.specs.declared.error.IoError.TheVariants.{Memory as no_memory};
ghost use Rattle.sm_io.specs.declared.error.ReadError.TheVariants.{Memory as no_memory_to_read};
ghost use Rattle.sm_io.specs.Errors.{read_error_of};

use std::alloc::{AllocError, AllocFailed};
use thiserror::Error;

/// Why a call of a shelf or a sink did not do what it was asked for.
#[derive(Clone, Copy, PartialEq, Eq, Debug, Error)]
pub enum IoError {
    #[error("the file or the output can't be read or written")]
    Fault,
    #[error("out of memory")]
    Memory,
}

impl From<AllocError> for IoError {
    ghost from_gives = { λ _ e. e ≡ no_memory };

    fn from(_error: AllocError) -> IoError {
        IoError::Memory
    }
}

impl<T: Drop> From<AllocFailed<T>> for IoError {
    ghost from_gives = { λ _ e. e ≡ no_memory };

    fn from(_error: AllocFailed<T>) -> IoError {
        IoError::Memory
    }
}

/// Why a file was not read whole.
#[derive(Clone, Copy, PartialEq, Eq, Debug, Error)]
pub enum ReadError {
    #[error("the file can't be read")]
    Fault,
    /// The file has more bytes than the limit of the call.
    #[error("the file is too long")]
    TooLong,
    #[error("out of memory")]
    Memory,
}

impl From<AllocError> for ReadError {
    ghost from_gives = { λ _ e. e ≡ no_memory_to_read };

    fn from(_error: AllocError) -> ReadError {
        ReadError::Memory
    }
}

impl From<IoError> for ReadError {
    ghost from_gives = { λ error e. e ≡ read_error_of error };

    fn from(error: IoError) -> ReadError {
        match error {
            IoError::Fault => ReadError::Fault,
            IoError::Memory => ReadError::Memory,
        }
    }
}
