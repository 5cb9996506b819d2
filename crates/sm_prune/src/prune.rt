// Lines without terms and formulas that no line names.
ghost use Rattle.std.specs.Prelude.{◌≡◌, ◌++◌, [], List, IfOk, OnOk, map, reverse};
ghost use Rattle.std.specs.List.{list_any};
ghost use Rattle.sm_proof.specs.Lines.{line_of};
ghost use Rattle.sm_proof.specs.Versions.{is_exact};
ghost use Rattle.sm_prune.specs.Laws.{LeadAlike};
ghost use Rattle.sm_prune.specs.LeftLines.{left_lines, line_before, line_by, no_numbers, numbers_after};
ghost use Rattle.sm_prune.specs.Marks.{answers_of, lines_told};
ghost use Rattle.sm_prune.specs.Numbers.{numbering_of};
ghost use Rattle.sm_prune.specs.Texts.{AreReadable};
ghost use Rattle.sm_prune.specs.UsedLines.{AreNamed};

use crate::numbers::{Numbers, number_line};
use crate::renumber::renumbered;
use crate::told::{Told, tell_each};
use sm_proof::Line;
use std::alloc::{AllocError, Global};

/// The lines without each that makes a term or a formula which no later line names that is left. The
/// others have the numbers that terms and formulas get then.
pub fn pruned(alloc: Global, lines: Vec<Line>) -> Result<Vec<Line>, AllocError>
    ensures leads { IfOk result (λ left.
        LeadAlike (map line_of lines.items) (map line_of left.items)) }
    ensures named { IfOk result (λ left. AreNamed 0 0 (map line_of left.items)) }

    // Lines `exact` are left, and what is left can be read back where all lines can.
    ensures exact { IfOk result (λ left. list_any is_exact (map line_of left.items)
        ≡ list_any is_exact (map line_of lines.items)) }
    ensures readable { AreReadable (map line_of lines.items) →
        IfOk result (λ left. AreReadable (map line_of left.items)) }
{
    let told = tell_each(alloc, lines)?;
    numbered(alloc, told)
}

// Puts a line behind others by its new numbers, if it is left.
fn put_line(
    alloc: Global,
    left: &mut Vec<Line>,
    numbers: &Numbers,
    next: &Told,
) -> Result<(), AllocError>
    ensures { OnOk result (map line_of left.new.items ≡ map line_of left.old.items
        ++ line_before next.now.left (line_by (numbering_of numbers.now) (line_of next.now.line)) []) }
{
    if next.left {
        let line = renumbered(alloc, &next.line, &numbers.terms, &numbers.forms)?;
        left.push(line)?;
    }
    Ok(())
}

// Puts a line behind others, if it is left, and numbers what it makes.
fn put_next(
    alloc: Global,
    left: &mut Vec<Line>,
    numbers: &mut Numbers,
    next: &Told,
) -> Result<(), AllocError>
    ensures items { OnOk result (map line_of left.new.items ≡ map line_of left.old.items
        ++ line_before next.now.left (line_by (numbering_of numbers.old) (line_of next.now.line)) []) }
    ensures numbers { OnOk result (numbering_of numbers.new
        ≡ numbers_after next.now.left (line_of next.now.line) (numbering_of numbers.old)) }
{
    put_line(alloc, left, numbers, next)?;
    number_line(numbers, &next.line, next.left)
}

// The lines that are left, of which the first is told last, by their new numbers.
fn numbered(alloc: Global, told: Vec<Told>) -> Result<Vec<Line>, AllocError>
    ensures { let all = reverse told.items in IfOk result (λ left.
        map line_of left.items ≡ left_lines no_numbers (answers_of all) (lines_told all)) }
{
    let mut left = Vec::new(alloc);
    let mut numbers = Numbers {
        terms: Vec::new(alloc),
        forms: Vec::new(alloc),
        terms_left: 0,
        forms_left: 0,
    };
    let mut rest = told;
    while let Some(next) = rest.pop() {
        put_next(alloc, &mut left, &mut numbers, &next)?;
    }
    Ok(left)
}
