// Why a run or the search is left.
use sm_eval::EvalError;
use std::alloc::{AllocError, AllocFailed};

/// Why a watched run is left before its end.
#[derive(Clone, Copy)]
pub enum Leave {
    /// An operation leaves 128 bits, a loop takes too many turns, or the run too many steps.
    Event,
    Memory,
}

impl From<AllocError> for Leave {
    fn from(_e: AllocError) -> Leave {
        Leave::Memory
    }
}

impl From<EvalError> for Leave {
    fn from(e: EvalError) -> Leave {
        match e {
            EvalError::Memory => Leave::Memory,
            EvalError::OutOfTurns => Leave::Event,
            EvalError::Beyond { .. } => Leave::Event,
        }
    }
}

/// Why the search ends before all is tried.
#[derive(Clone, Copy)]
pub enum Halt {
    /// From the input at a place among all the ends break the condition. So many were made before
    /// it, beyond the stated trials.
    Broken { made: u64, input: usize },
    /// As many inputs are made, or steps taken, as there may be.
    Spent,
    Memory,
}

impl From<AllocError> for Halt {
    fn from(_e: AllocError) -> Halt {
        Halt::Memory
    }
}

impl<T: Drop> From<AllocFailed<T>> for Halt {
    fn from(_e: AllocFailed<T>) -> Halt {
        Halt::Memory
    }
}
