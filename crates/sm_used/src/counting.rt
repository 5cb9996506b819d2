// Lines with how many facts stand before each.
ghost use Rattle.std.specs.Prelude.{◌≡◌, ◌≤◌, Bool, Ok, IfOk, List, drop, map, length};
ghost use Rattle.sm_proof.specs.Cases.{AreRead};
ghost use Rattle.sm_proof.specs.FieldRanges.{IsWithinFields};
ghost use Rattle.sm_proof.specs.Lines.{line_of};
ghost use Rattle.sm_proof.specs.Passing.{Progress};
ghost use Rattle.sm_proof.specs.Verdicts.{Subject, Underway, Unopened, lines_in};
ghost use Rattle.sm_check.specs.Checkers.{IsAt};
ghost use Rattle.sm_used.specs.Counted.{AreCounted, Counts, Opens, line_in};

use sm_check::{Checker, LineFault};
use sm_proof::{Line, LineError, read_line};
use std::alloc::{AllocError, AllocFailed, Global};

// A line, and how many facts stand before it on the branch that is due.
#[derive(Drop)]
pub(crate) struct Counted {
    pub(crate) line: Line,
    pub(crate) facts: u64,
}

/// Why lines aren't counted.
#[derive(Clone, Copy)]
pub(crate) enum Stop {
    /// A line is refused.
    Wrong,
    Memory,
}

impl From<LineFault> for Stop {
    fn from(fault: LineFault) -> Stop {
        match fault {
            LineFault::Wrong { .. } => Stop::Wrong,
            LineFault::Memory => Stop::Memory,
        }
    }
}

impl From<LineError> for Stop {
    fn from(error: LineError) -> Stop {
        match error {
            LineError::Memory => Stop::Memory,
            _ => Stop::Wrong,
        }
    }
}

impl From<AllocError> for Stop {
    fn from(_: AllocError) -> Stop {
        Stop::Memory
    }
}

impl<T: Drop> From<AllocFailed<T>> for Stop {
    fn from(_: AllocFailed<T>) -> Stop {
        Stop::Memory
    }
}

// Takes a line.
fn next_row(checker: &mut Checker<'_>, line: Line) -> Result<Counted, Stop>
    requires { IsWithinFields (line_of line) }
    ensures same { IfOk result (λ row. line_in row ≡ line_of line) }
    ensures counts { (s : Subject) (exact : Bool) (p : Progress) →
        IsAt checker.old s (Ok (Underway exact p)) →
        IfOk result (Counts s exact p checker.new) }
{
    let facts = checker.facts();
    let _state = checker.line(&line)?;
    Ok(Counted { line, facts })
}

// The bytes behind so many.
fn behind(bytes: &[u8], size: usize) -> &[u8]
    requires { size ≤ length bytes.now }
    ensures { result.now ≡ drop size bytes.now }
{
    &bytes[size..]
}

/// Takes the first line of bytes, before which no line was taken. It gives the bytes behind it.
pub(crate) fn open<'b>(
    alloc: Global,
    checker: &mut Checker<'_>,
    bytes: &'b [u8],
) -> Result<&'b [u8], Stop>
    ensures { (s : Subject) → IsAt checker.old s (Ok Unopened) →
        IfOk result (λ left. Opens s bytes.now left.now checker.new) }
{
    let (first, size) = read_line(alloc, bytes)?;
    let _state = checker.line(&first)?;
    Ok(behind(bytes, size))
}

/// Takes all lines of bytes.
pub(crate) fn lines_counted(
    alloc: Global,
    checker: &mut Checker<'_>,
    bytes: &[u8],
) -> Result<Vec<Counted>, Stop>
    ensures read { IfOk result (λ rows.
        AreRead (lines_in bytes.now).ended (map line_in rows.items)) }
    ensures counted { (s : Subject) (exact : Bool) (p : Progress) →
        IsAt checker.old s (Ok (Underway exact p)) →
        IfOk result (λ rows. AreCounted s.sorts p rows.items) }
{
    let mut rows = Vec::new(alloc);
    let mut left = bytes;
    while !left.is_empty() {
        let (line, size) = read_line(alloc, left)?;
        let row = next_row(checker, line)?;
        rows.push(row)?;
        left = behind(left, size);
    }
    Ok(rows)
}
