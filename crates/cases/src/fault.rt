// Why a case can't be run.
use sm_io::IoError;
use std::alloc::{AllocError, AllocFailed};

/// Why a case can't be run, or its report can't be written.
#[derive(Clone, Copy, Debug)]
pub enum Fault {
    /// Memory is wanting.
    Memory,
    /// A file of cases isn't of the form that it has to have: what is missing.
    Form(&'static str),
    /// The program's words, a file or the output fails.
    System,
}

impl From<AllocError> for Fault {
    fn from(_error: AllocError) -> Fault {
        Fault::Memory
    }
}

impl<T: Drop> From<AllocFailed<T>> for Fault {
    fn from(_error: AllocFailed<T>) -> Fault {
        Fault::Memory
    }
}

impl From<IoError> for Fault {
    fn from(_error: IoError) -> Fault {
        Fault::System
    }
}
