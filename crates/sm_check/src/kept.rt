// The formula that a node's line keeps, made of rows.
ghost use Rattle.std.specs.Prelude.{◌≡◌, ◌<◌, List, Some, IfOk, IfSome, length, slice_get};
ghost use Rattle.sm_syntax.specs.text.Sorts.{Sorts};
ghost use Rattle.sm_term.specs.Assertions.{Assertion};
ghost use Rattle.sm_term.specs.Formulas.{numbered, assertion_in};
ghost use Rattle.sm_term.specs.TableLaws.{AreTreesSorted};
ghost use Rattle.sm_term.specs.Terms.{Tree};
ghost use Rattle.sm_plan.specs.ReadyStates.{IsFormReady, IsNodeReady};
ghost use Rattle.sm_plan.specs.Views.{node_in};
ghost use Rattle.sm_check.specs.FormRows.{RowsStand, AreRowsReady};
ghost use Rattle.sm_check.specs.Kept.{NameEarlier, keep_of, IsThere, IsKeptForm, KeepsOrFails, node_with};

use crate::forms::FormRow;
use sm_plan::NodeRow;
use sm_proof::{FormLine, NodeLine};
use sm_syntax::{CopyName, PerCopy};
use sm_term::{Formula, TermId};
use std::alloc::{AllocError, Global};

// The number of the formula that a line keeps.
pub(crate) fn kept_number(line: &NodeLine) -> Option<u64>
    ensures { result ≡ keep_of line.now }
{
    match line {
        NodeLine::Loop { keep, .. } => Some(*keep),
        NodeLine::Block { keep, .. } => Some(*keep),
        _ => None,
    }
}

// The formula that a line keeps, or Yes where it keeps none; None where it is over its limits.
pub(crate) fn kept_formula(
    alloc: Global,
    rows: &[FormRow],
    line: &NodeLine,
) -> Result<Option<Formula>, AllocError>
    requires earlier { NameEarlier rows.now }
    requires there { IsThere (length rows.now) (keep_of line.now) }
    ensures made { (sorts : Sorts) (trees : List Tree) (forms : List Assertion) (f : Assertion) →
        RowsStand sorts trees rows.now forms → IsKeptForm forms (keep_of line.now) f →
        IfOk result (KeepsOrFails sorts trees line.now f) }
    ensures ready { (sorts : Sorts) (trees : List Tree) →
        AreTreesSorted sorts trees → AreRowsReady sorts trees rows.now →
        IfOk result (λ o. IfSome o (IsFormReady sorts trees)) }
{
    match kept_number(line) {
        None => Ok(Some(Formula::Yes)),
        Some(n) => {
            let row = row_of(rows, n);
            if row.nodes <= 200_000 && row.depth <= 64 {
                Ok(Some(formula_of(alloc, rows, n)?))
            } else {
                Ok(None)
            }
        }
    }
}

// The row with a number.
fn row_of(rows: &[FormRow], n: u64) -> FormRow
    requires { n < length rows.now }
    ensures { slice_get rows.now n ≡ Some result }
{
    rows[n as usize]
}

// The formula of a row.
#[cycle(formula_of)]
fn formula_of(alloc: Global, rows: &[FormRow], n: u64) -> Result<Formula, AllocError>
    requires earlier { NameEarlier rows.now }
    requires there { n < length rows.now }
    ensures made { (sorts : Sorts) (trees : List Tree) (forms : List Assertion) (f : Assertion) →
        RowsStand sorts trees rows.now forms → slice_get forms n ≡ Some f →
        IfOk result (λ c. assertion_in sorts trees (numbered c) ≡ f) }
    ensures ready { (sorts : Sorts) (trees : List Tree) →
        AreTreesSorted sorts trees → AreRowsReady sorts trees rows.now →
        IfOk result (IsFormReady sorts trees) }
{
    match row_of(rows, n).made {
        FormLine::Yes => Ok(Formula::Yes),
        FormLine::No => Ok(Formula::No),
        FormLine::Eq(t, u) => Ok(Formula::Eq(TermId(t), TermId(u))),
        FormLine::Ne(t, u) => Ok(Formula::Ne(TermId(t), TermId(u))),
        FormLine::Le(t, u) => Ok(Formula::Le(TermId(t), TermId(u))),
        FormLine::Lt(t, u) => Ok(Formula::Lt(TermId(t), TermId(u))),
        FormLine::And(p, q) => {
            let f = boxed_formula(alloc, rows, p)?;
            Ok(Formula::And(f, boxed_formula(alloc, rows, q)?))
        }
        FormLine::Or(p, q) => {
            let f = boxed_formula(alloc, rows, p)?;
            Ok(Formula::Or(f, boxed_formula(alloc, rows, q)?))
        }
    }
}

#[cycle(formula_of)]
fn boxed_formula(alloc: Global, rows: &[FormRow], n: u64) -> Result<Box<Formula>, AllocError>
    requires earlier { NameEarlier rows.now }
    requires there { n < length rows.now }
    ensures made { (sorts : Sorts) (trees : List Tree) (forms : List Assertion) (f : Assertion) →
        RowsStand sorts trees rows.now forms → slice_get forms n ≡ Some f →
        IfOk result (λ c. assertion_in sorts trees (numbered c.value) ≡ f) }
    ensures ready { (sorts : Sorts) (trees : List Tree) →
        AreTreesSorted sorts trees → AreRowsReady sorts trees rows.now →
        IfOk result (λ c. IsFormReady sorts trees c.value) }
{
    Ok(Box::new(alloc, formula_of(alloc, rows, n)?)?)
}

// The node of a line, with the formula that it keeps.
pub(crate) fn node_row<'f>(line: &NodeLine, keep: &'f Formula) -> NodeRow<'f>
    ensures node { (sorts : Sorts) (trees : List Tree) →
        node_in sorts trees result
        ≡ node_with (assertion_in sorts trees (numbered keep.now)) line.now }
    ensures ready { (sorts : Sorts) (trees : List Tree) →
        IsFormReady sorts trees keep.now → IsNodeReady sorts trees result }
{
    match line {
        NodeLine::Step { copy } => NodeRow::Step {
            copy: CopyName::of_number(*copy),
        },
        NodeLine::Abs { copy, count } => NodeRow::Abs {
            copy: CopyName::of_number(*copy),
            count: *count,
        },
        NodeLine::Fork { copy } => NodeRow::Fork {
            copy: CopyName::of_number(*copy),
        },
        NodeLine::Loop { set, .. } => NodeRow::Loop { set: *set, keep },
        NodeLine::Block { k0, k1, k2, k3, .. } => NodeRow::Block {
            counts: PerCopy {
                base: *k0,
                variant_a: *k1,
                variant_b: *k2,
                candidate: *k3,
            },
            keep,
        },
        NodeLine::Dead => NodeRow::Dead,
        NodeLine::End => NodeRow::End,
    }
}
