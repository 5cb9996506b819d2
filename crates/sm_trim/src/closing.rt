// Numbers of facts closed up.
ghost use Rattle.std.specs.Prelude.{◌≡◌, List, length, take, IfOk, OnOk};
ghost use Rattle.sm_term.specs.Terms.{Tree};
ghost use Rattle.sm_cert.specs.Views.{lines_before, certificate_in};
ghost use Rattle.sm_trim.specs.Pruned.{Pruned, closed_up};
ghost use Rattle.sm_trim.specs.Views.{left_before, pruned_in};

use crate::left::{LeftEnd, LeftLine, LeftTree};
use crate::lines::{facts_added, more_facts, moved_line, number_on};
use sm_cert::{CertEnd, CertLines, CertTree};
use std::alloc::{AllocError, Global};

// Lines with new numbers, and how many facts stand after them.
#[derive(Drop)]
struct Closing {
    lines: CertLines,
    to: u64,
}

// Gives the facts of lines new numbers, from the first line to the last.
fn close_lines(
    alloc: Global,
    lines: &[LeftLine],
    moved: &mut Vec<u64>,
    to: u64,
) -> Result<Closing, AllocError>
    ensures closed { (trees : List Tree) (p : Pruned) → IfOk result (λ r.
        closed_up moved.old.items to (left_before trees lines.now p) ≡
        lines_before trees r.lines.list.items (closed_up moved.new.items r.to p)) }
    ensures kept { OnOk result (take (length moved.old.items) moved.new.items ≡ moved.old.items) }
{
    let mut list = Vec::with_capacity(alloc, lines.len())?;
    let mut past = to;
    let mut i = lines.len();
    while i > 0 {
        i -= 1;
        let left = &lines[i];
        list.push(moved_line(alloc, &left.line, moved)?)?;
        let count = facts_added(&left.line);
        number_on(moved, left.before, past, count)?;
        past = more_facts(past, count)?;
    }
    let lines = CertLines { list };
    Ok(Closing { lines, to: past })
}

// The certificate with new numbers of facts, before which `to` facts stand. The new numbers of
// these are told, and are left as they were.
pub(crate) fn closed_up(
    alloc: Global,
    tree: &LeftTree,
    moved: &mut Vec<u64>,
    to: u64,
) -> Result<CertTree, AllocError>
    ensures closed { (trees : List Tree) → IfOk result (λ t.
        certificate_in trees t ≡ closed_up moved.old.items to (pruned_in trees tree.now)) }
    ensures kept { OnOk result (moved.new.items ≡ moved.old.items) }
{
    let above = moved.len();
    let closing = close_lines(alloc, &tree.lines.list, moved, to)?;
    match &tree.last {
        LeftEnd::Close(left) => {
            let last = CertEnd::Close(moved_line(alloc, &left.line, moved)?);
            moved.truncate(above);
            Ok(CertTree {
                lines: closing.lines,
                last,
            })
        }
        LeftEnd::Split(left, first, second) => {
            let line = moved_line(alloc, &left.line, moved)?;
            number_on(moved, left.before, closing.to, 1)?;
            let next = more_facts(closing.to, 1)?;
            let one = Box::new(alloc, closed_up(alloc, first, moved, next)?)?;
            let two = Box::new(alloc, closed_up(alloc, second, moved, next)?)?;
            moved.truncate(above);
            let last = CertEnd::Split(line, one, two);
            Ok(CertTree {
                lines: closing.lines,
                last,
            })
        }
    }
}
