// Which lines are left, from the last to the first.
ghost use Rattle.std.specs.Prelude.{◌≡◌, ℕ, ◌++◌, ◌∷◌, [], Bool, List, false, IfOk, OnOk, map, reverse};
ghost use Rattle.sm_proof.specs.Lines.{ProofLine, line_of};
ghost use Rattle.sm_prune.specs.LeftLines.{AreTold, forms_after, is_left, terms_after};
ghost use Rattle.sm_prune.specs.Marks.{AreMarked, AreMarks, answers_of, forms_past, lines_told, terms_past};

use crate::marks::{add_mark, take_mark};
use crate::naming::mark_line;
use sm_proof::Line;
use std::alloc::{AllocError, Global};

// A line, and whether it is left.
#[derive(Drop)]
pub(crate) struct Told {
    pub(crate) line: Line,
    pub(crate) left: bool,
}

// One mark more for a line that makes a term or a formula.
fn add_line(terms: &mut Vec<bool>, forms: &mut Vec<bool>, line: &Line) -> Result<(), AllocError>
    ensures terms { (at : ℕ) → AreMarks at (λ n. false) terms.old.items → OnOk result
        (AreMarks (terms_after at (line_of line.now)) (λ n. false) terms.new.items) }
    ensures forms { (at : ℕ) → AreMarks at (λ n. false) forms.old.items → OnOk result
        (AreMarks (forms_after at (line_of line.now)) (λ n. false) forms.new.items) }
{
    match line {
        Line::Header { .. } => Ok(()),
        Line::Term(_) => add_mark(terms),
        Line::Form(_) => add_mark(forms),
        Line::Node(_) => Ok(()),
        Line::Cert(_) => Ok(()),
    }
}

// A mark for each term and each formula that lines make, of which none is named.
fn no_marks(alloc: Global, lines: &[Line]) -> Result<(Vec<bool>, Vec<bool>), AllocError>
    ensures terms { IfOk result (λ m.
        AreMarks (terms_past 0 (map line_of lines.now)) (λ n. false) m.0.items) }
    ensures forms { IfOk result (λ m.
        AreMarks (forms_past 0 (map line_of lines.now)) (λ n. false) m.1.items) }
{
    let mut terms = Vec::new(alloc);
    let mut forms = Vec::new(alloc);
    for line in lines {
        add_line(&mut terms, &mut forms, line)?;
    }
    Ok((terms, forms))
}

// Takes off the mark of what a line makes, and tells whether the line is left.
fn is_left(terms: &mut Vec<bool>, forms: &mut Vec<bool>, line: &Line) -> bool
    ensures { (at at_forms : ℕ) (bs : List Bool) (lines : List ProofLine) →
        let l = line_of line.now in
        AreMarked (terms_after at l) (forms_after at_forms l) terms.old.items forms.old.items
        bs lines →
        (result ≡ is_left at at_forms l bs lines)
        × AreMarked at at_forms terms.new.items forms.new.items bs lines }
{
    match line {
        Line::Header { .. } => true,
        Line::Term(_) => take_mark(terms),
        Line::Form(_) => take_mark(forms),
        Line::Node(_) => true,
        Line::Cert(_) => true,
    }
}

// Tells whether a line is left, by the marks of what later lines name, and marks what it names then.
fn tell(terms: &mut Vec<bool>, forms: &mut Vec<bool>, line: &Line) -> bool
    ensures { (at at_forms : ℕ) (bs : List Bool) (lines : List ProofLine) →
        let l = line_of line.now in
        AreMarked (terms_after at l) (forms_after at_forms l) terms.old.items forms.old.items
        bs lines →
        (result ≡ is_left at at_forms l bs lines)
        × AreMarked at at_forms terms.new.items forms.new.items (result ∷ bs) (l ∷ lines) }
{
    if is_left(terms, forms, line) {
        mark_line(terms, forms, line);
        true
    } else {
        false
    }
}

/// Each line with whether it is left, the last first.
pub(crate) fn tell_each(alloc: Global, lines: Vec<Line>) -> Result<Vec<Told>, AllocError>
    ensures same { IfOk result (λ ts.
        lines_told (reverse ts.items) ≡ map line_of lines.items) }
    ensures told { IfOk result (λ ts. let all = reverse ts.items in
        AreTold 0 0 (answers_of all) (lines_told all)) }
{
    let (mut terms, mut forms) = no_marks(alloc, lines.as_slice())?;
    let mut told = Vec::new(alloc);
    let mut before = lines;
    while let Some(line) = before.pop() {
        let left = tell(&mut terms, &mut forms, &line);
        told.push(Told { line, left })?;
    }
    Ok(told)
}
