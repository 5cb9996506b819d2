// Why a command has no result.
use crate::printed::Printed;
use sm_num::{NumError, Op};
use sm_proof::LineError;
use sm_term::TermError;
use std::alloc::{AllocError, AllocFailed};
use std::fmt;

/// Why a command has no result.
#[derive(Clone, Copy)]
pub enum Refusal {
    /// It is no command, or what the call requires isn't so.
    Bad,
    /// An argument of a term has the other sort.
    WrongSort,
    /// A result leaves the range of linear forms.
    Beyond { op: Op, a: i128, b: i128 },
    /// A call answered an error, whose text is printed.
    Told,
    Memory,
}

/// Prints the text of an error in place of what was printed so far.
pub fn told<E: fmt::Display + Drop>(out: &mut Printed, error: E) -> Refusal {
    out.clear();
    write!(out, "{error}");
    Refusal::Told
}

impl fmt::Display for Refusal {
    fn fmt<W: fmt::Write>(&self, f: &mut fmt::Formatter<W>) -> fmt::Result {
        match self {
            Refusal::Bad => f.write_str("bad"),
            Refusal::WrongSort => f.write_str("WrongSort"),
            Refusal::Beyond { op, a, b } => write!(f, "beyond {op:?} {a} {b}"),
            Refusal::Told => Ok(()),
            Refusal::Memory => f.write_str("out of memory"),
        }
    }
}

impl From<AllocError> for Refusal {
    fn from(_e: AllocError) -> Refusal {
        Refusal::Memory
    }
}

impl<T: Drop> From<AllocFailed<T>> for Refusal {
    fn from(_e: AllocFailed<T>) -> Refusal {
        Refusal::Memory
    }
}

impl From<NumError> for Refusal {
    fn from(e: NumError) -> Refusal {
        match e {
            NumError::Beyond { op, a, b } => Refusal::Beyond { op, a, b },
            NumError::Memory => Refusal::Memory,
        }
    }
}

impl From<TermError> for Refusal {
    fn from(e: TermError) -> Refusal {
        match e {
            TermError::WrongSort => Refusal::WrongSort,
            TermError::Memory => Refusal::Memory,
        }
    }
}

impl From<LineError> for Refusal {
    fn from(e: LineError) -> Refusal {
        match e {
            LineError::Memory => Refusal::Memory,
            _ => Refusal::Bad,
        }
    }
}
