// Why a plan isn't drawn.
use std::alloc::{AllocError, AllocFailed};
use thiserror::Error;

/// Why a plan isn't drawn.
#[derive(Clone, Copy, Debug, PartialEq, Eq, Error)]
pub enum DrawingError {
    /// It would have too many nodes, or take too many steps.
    #[error("too many nodes or steps")]
    TooMany,
    #[error("out of memory")]
    Memory,
}

impl From<AllocError> for DrawingError {
    fn from(_e: AllocError) -> DrawingError {
        DrawingError::Memory
    }
}

impl<T: Drop> From<AllocFailed<T>> for DrawingError {
    fn from(_e: AllocFailed<T>) -> DrawingError {
        DrawingError::Memory
    }
}
