// Formulas by the numbers that their lines name.
ghost use Rattle.std.specs.Prelude.{◌≡◌, ◌<◌, ◌+◌, ℕ, Bool, length, List, slice_get, Some, IfOk, min, max};
ghost use Rattle.sm_term.specs.Terms.{Tree};
ghost use Rattle.sm_term.specs.Assertions.{Assertion};
ghost use Rattle.sm_term.specs.Tables.{trees_in, sorts_in, tree_at, AreBefore};
ghost use Rattle.sm_proof.specs.Passing.{form_made, form_about, form_from, have_one_sort, are_numbers};
ghost use Rattle.sm_check.specs.Tells.{Tells};
ghost use Rattle.sm_check.specs.Walks.{terms_in};
ghost use Rattle.sm_check.specs.FormRows.{RowStands, RowsStand, HaveOneSort, AreNumeric, IsRowReady, PairStands, TellsPair, TellsRows};

use crate::fault::LineFault;
use sm_proof::{FormLine, Head, Word};
use sm_syntax::Sort;
use sm_term::{TermId, TermTable};

/// A formula by the numbers that its line names, where terms are numbers of the table. How many
/// formulas it has, and how deep it is, is counted to just behind the limits of kept formulas.
#[derive(Clone, Copy)]
pub(crate) struct FormRow {
    pub(crate) made: FormLine,
    pub(crate) nodes: u64,
    pub(crate) depth: u64,
}

// The formula that a line makes.
pub(crate) fn form_row(
    table: &TermTable,
    terms: &[TermId],
    rows: &[FormRow],
    line: &FormLine,
) -> Result<FormRow, LineFault>
    requires { AreBefore (length (trees_in table.now)) terms.now }
    ensures tells { let sorts = sorts_in table.now in let trees = trees_in table.now in
        (forms : List Assertion) → RowsStand sorts trees rows.now forms →
        Tells (RowStands sorts trees forms) result
        (form_made sorts (terms_in trees terms.now) forms line.now) }
    ensures ready { IfOk result (λ r.
        IsRowReady (sorts_in table.now) (trees_in table.now) (length rows.now) r.made) }
{
    match line {
        FormLine::Yes => Ok(leaf(FormLine::Yes)),
        FormLine::No => Ok(leaf(FormLine::No)),
        FormLine::Eq(t, u) => {
            let (a, b) = terms_of_one_sort(table, terms, *t, *u)?;
            Ok(leaf(FormLine::Eq(a.0, b.0)))
        }
        FormLine::Ne(t, u) => {
            let (a, b) = terms_of_one_sort(table, terms, *t, *u)?;
            Ok(leaf(FormLine::Ne(a.0, b.0)))
        }
        FormLine::Le(t, u) => {
            let (a, b) = numbers(table, terms, *t, *u)?;
            Ok(leaf(FormLine::Le(a.0, b.0)))
        }
        FormLine::Lt(t, u) => {
            let (a, b) = numbers(table, terms, *t, *u)?;
            Ok(leaf(FormLine::Lt(a.0, b.0)))
        }
        FormLine::And(p, q) => {
            let (f, g) = two_rows(rows, *p, *q)?;
            Ok(join(FormLine::And(*p, *q), f, g))
        }
        FormLine::Or(p, q) => {
            let (f, g) = two_rows(rows, *p, *q)?;
            Ok(join(FormLine::Or(*p, *q), f, g))
        }
    }
}

// A formula without parts.
fn leaf(made: FormLine) -> FormRow
    ensures { result ≡ record { made = made; nodes = 1; depth = 1 } }
{
    FormRow {
        made,
        nodes: 1,
        depth: 1,
    }
}

// A formula with two parts.
fn join(made: FormLine, first: FormRow, second: FormRow) -> FormRow
    ensures made { result.made ≡ made }
    ensures nodes { (m n : ℕ) → first.nodes ≡ min m 200001 → second.nodes ≡ min n 200001 →
        result.nodes ≡ min (1 + m + n) 200001 }
    ensures depth { (m n : ℕ) → first.depth ≡ min m 65 → second.depth ≡ min n 65 →
        result.depth ≡ min (1 + max m n) 65 }
{
    let nodes = first.nodes.saturating_add(second.nodes).saturating_add(1);
    let depth = first.depth.max(second.depth).saturating_add(1);
    FormRow {
        made,
        nodes: nodes.min(200_001),
        depth: depth.min(65),
    }
}

// The term that a line made.
pub(crate) fn term_at(terms: &[TermId], n: u64) -> Option<TermId>
    ensures { result ≡ slice_get terms.now n }
{
    terms.get(n as usize).copied()
}

// Two terms that lines made, which must have one sort.
fn terms_of_one_sort(
    table: &TermTable,
    terms: &[TermId],
    t: u64,
    u: u64,
) -> Result<(TermId, TermId), LineFault>
    requires { AreBefore (length (trees_in table.now)) terms.now }
    ensures tells { let sorts = sorts_in table.now in let trees = trees_in table.now in
        (makes : Tree → Tree → Assertion) →
        Tells (PairStands trees makes) result
        (form_about (terms_in trees terms.now) t u (have_one_sort sorts) makes) }
    ensures ready { IfOk result (λ p.
        HaveOneSort (sorts_in table.now) (trees_in table.now) p.0.0 p.1.0) }
{
    let (a, b) = two_terms(table, terms, t, u)?;
    if table.sort(a) == table.sort(b) {
        Ok((a, b))
    } else {
        Err(LineFault::Wrong {
            word: Word::First(Head::P),
        })
    }
}

// Two terms that lines made, which must be numbers.
fn numbers(
    table: &TermTable,
    terms: &[TermId],
    t: u64,
    u: u64,
) -> Result<(TermId, TermId), LineFault>
    requires { AreBefore (length (trees_in table.now)) terms.now }
    ensures tells { let sorts = sorts_in table.now in let trees = trees_in table.now in
        (makes : Tree → Tree → Assertion) →
        Tells (PairStands trees makes) result
        (form_about (terms_in trees terms.now) t u (are_numbers sorts) makes) }
    ensures ready { IfOk result (λ p.
        AreNumeric (sorts_in table.now) (trees_in table.now) p.0.0 p.1.0) }
{
    let (a, b) = two_terms(table, terms, t, u)?;
    if table.sort(a) == Sort::Num && table.sort(b) == Sort::Num {
        Ok((a, b))
    } else {
        Err(LineFault::Wrong {
            word: Word::First(Head::P),
        })
    }
}

// Two terms that lines made.
fn two_terms(
    table: &TermTable,
    terms: &[TermId],
    t: u64,
    u: u64,
) -> Result<(TermId, TermId), LineFault>
    requires { AreBefore (length (trees_in table.now)) terms.now }
    ensures tells { let trees = trees_in table.now in
        (test : Tree → Tree → Bool) (makes : Tree → Tree → Assertion) →
        TellsPair trees test makes result (form_about (terms_in trees terms.now) t u test makes) }
    ensures within { IfOk result (λ p.
        (p.0.0 < length (trees_in table.now)) × (p.1.0 < length (trees_in table.now))) }
{
    match term_at(terms, t) {
        Some(a) => match term_at(terms, u) {
            Some(b) => Ok((a, b)),
            None => Err(LineFault::Wrong {
                word: Word::BadNumber,
            }),
        },
        None => Err(LineFault::Wrong {
            word: Word::BadNumber,
        }),
    }
}

// The row of a formula that a line made.
fn row_at(rows: &[FormRow], n: u64) -> Option<FormRow>
    ensures { result ≡ slice_get rows.now n }
{
    rows.get(n as usize).copied()
}

// Two formulas that lines made.
fn two_rows(rows: &[FormRow], p: u64, q: u64) -> Result<(FormRow, FormRow), LineFault>
    ensures tells { (forms : List Assertion) (makes : Assertion → Assertion → Assertion) →
        length rows.now ≡ length forms →
        TellsRows forms p q makes result (form_from forms p q makes) }
    ensures rows { IfOk result (λ r.
        (slice_get rows.now p ≡ Some r.0) × (slice_get rows.now q ≡ Some r.1)) }
    ensures within { IfOk result (λ r. (p < length rows.now) × (q < length rows.now)) }
{
    match row_at(rows, p) {
        Some(f) => match row_at(rows, q) {
            Some(g) => Ok((f, g)),
            None => Err(LineFault::Wrong {
                word: Word::BadNumber,
            }),
        },
        None => Err(LineFault::Wrong {
            word: Word::BadNumber,
        }),
    }
}
