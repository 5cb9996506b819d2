// The lines of a certificate on their way.
ghost use Rattle.std.specs.Prelude.{◌≡◌, ◌<◌, ◌+◌, ◌^◌, List, [], ◌∷◌, ◌++◌, length, slice_get, Some, IfOk, OnOk};
ghost use Rattle.sm_term.specs.Terms.{Tree};
ghost use Rattle.sm_term.specs.Tables.{trees_in, tree_at};
ghost use Rattle.sm_theory.specs.Views.{line_in};
ghost use Rattle.sm_cc.specs.Classes.{Same};
ghost use Rattle.sm_cc.specs.Views.{setting_of};
ghost use Rattle.sm_cert.specs.Certificates.{Closed};
ghost use Rattle.sm_cert.specs.Views.{lines_before, certificate_in, lines_of};
ghost use Rattle.sm_certify.specs.Given.{IsWhole, classes_by, branch_of};
ghost use Rattle.sm_certify.specs.Refuting.{IsUsable, AddsEquation, AddsSource, mark_at};

use crate::marks::FormMarks;
use sm_cc::Classes;
use sm_cert::{CertEnd, CertLines, CertTree};
use sm_judge::Source;
use sm_term::{Formula, TermId, TermTable};
use sm_theory::CertLine;
use std::alloc::{AllocError, Global};

// Lines, and the number of the fact of each form that they made.
#[derive(Drop)]
pub(crate) struct CertBuilder {
    pub(crate) lines: Vec<CertLine>,
    pub(crate) numbers: Vec<u64>,
}

// The number of the fact that the next line adds, behind `count` facts.
pub(crate) fn next_number(count: u64, lines: &[CertLine]) -> u64
    requires { count < 2 ^ 62 }
    ensures { result ≡ count + length lines.now }
{
    count + lines.len() as u64
}

// The number of the fact that the next line adds, if lines behind it can have numbers too.
fn early_number(count: u64, lines: &[CertLine]) -> Result<u64, AllocError>
    requires { count < 2 ^ 62 }
    ensures number { IfOk result (λ n. n ≡ count + length lines.now) }
    ensures early { IfOk result (λ n. n < 2 ^ 63) }
{
    let n = next_number(count, lines);
    if n > i64::MAX as u64 {
        return Err(AllocError);
    }
    Ok(n)
}

// Adds a line that makes a form, behind `count` facts.
pub(crate) fn add_form(
    draft: &mut CertBuilder,
    line: CertLine,
    count: u64,
) -> Result<(), AllocError>
    requires { count < 2 ^ 62 }
    ensures line { OnOk result (draft.new.lines.items ≡ draft.old.lines.items ++ line ∷ []) }
    ensures number { let number = count + length draft.old.lines.items in
        OnOk result (draft.new.numbers.items ≡ draft.old.numbers.items ++ number ∷ []) }
{
    let number = next_number(count, &draft.lines);
    draft.lines.push(line)?;
    draft.numbers.push(number)?;
    Ok(())
}

// Adds lines that explain why two terms of one class are equal, behind `count` facts. It gives the
// number of their equation.
pub(crate) fn add_equation<'a>(
    alloc: Global,
    classes: &Classes<'a>,
    lines: &mut Vec<CertLine>,
    t: TermId,
    u: TermId,
    count: u64,
) -> Result<u64, AllocError>
    requires left { t.0 < length (trees_in classes.now.table) }
    requires right { u.0 < length (trees_in classes.now.table) }
    requires same { let trees = trees_in classes.now.table in
        Same (setting_of classes.now) (tree_at trees t.0) (tree_at trees u.0) }
    requires few { count < 2 ^ 62 }
    ensures { IfOk result (AddsEquation classes.now count t u lines.old.items lines.new.items) }
{
    let start = early_number(count, lines)?;
    let mut more = classes.explain(alloc, t, u, start)?;
    lines.append(&mut more)?;
    let end = next_number(count, lines);
    Ok(end.saturating_sub(1))
}

// Adds the lines of a source: what explains its equation, and the line of its form.
pub(crate) fn add_lines_of<'a>(
    alloc: Global,
    classes: &Classes<'a>,
    table: &TermTable,
    facts: &[Formula],
    source: Source,
    draft: &mut CertBuilder,
) -> Result<(), AllocError>
    requires whole { IsWhole (trees_in table.now) classes.now.terms }
    requires classes { classes.now ≡ classes_by table.now classes.now.terms facts.now }
    requires few { length facts.now < 2 ^ 62 }
    requires usable { IsUsable (branch_of table.now facts.now) source }
    ensures { OnOk result (AddsSource classes.now (length facts.now) source
        draft.old.lines.items draft.new.lines.items
        draft.old.numbers.items draft.new.numbers.items) }
{
    let _table = table;
    let count = facts.len() as u64;
    match source {
        Source::Fact(n) => {
            add_form(draft, CertLine::Lin(n), count)?;
            Ok(())
        }
        Source::Class(t, u) => {
            let n = add_equation(alloc, classes, &mut draft.lines, t, u, count)?;
            add_form(draft, CertLine::Lin(n), count)?;
            Ok(())
        }
    }
}

// Whether the next form is marked.
pub(crate) fn is_next_marked(marks: &FormMarks, draft: &CertBuilder) -> bool
    ensures { result ≡ mark_at marks.now.list.items (length draft.now.numbers.items) }
{
    is_marked(&marks.list, draft.numbers.len())
}

// Whether a place is marked.
fn is_marked(marks: &[bool], place: usize) -> bool
    ensures { result ≡ mark_at marks.now place }
{
    place < marks.len() && marks[place]
}

// Passes over a form that isn't marked.
pub(crate) fn skip(draft: &mut CertBuilder) -> Result<(), AllocError>
    ensures lines { OnOk result (draft.new.lines.items ≡ draft.old.lines.items) }
    ensures number { OnOk result
        (draft.new.numbers.items ≡ draft.old.numbers.items ++ 0 ∷ []) }
{
    draft.numbers.push(0)?;
    Ok(())
}

// The number of the form at a place.
pub(crate) fn number_at(draft: &CertBuilder, place: u64) -> u64
    requires { place < length draft.now.numbers.items }
    ensures { slice_get draft.now.numbers.items place ≡ Some result }
{
    draft.numbers[place as usize]
}

// A certificate of lines, the last of which closes the branch.
pub(crate) fn closed_tree(lines: Vec<CertLine>, last: CertLine) -> CertTree
    ensures certificate { (trees : List Tree) → certificate_in trees result
        ≡ lines_before trees lines.items (Closed (line_in trees last)) }
    ensures lines { lines_of result ≡ lines.items ++ last ∷ [] }
{
    CertTree {
        lines: CertLines { list: lines },
        last: CertEnd::Close(last),
    }
}
