// Kept formulas that compare only what can be named where their nodes stand.
ghost use Rattle.std.specs.Bool.{OnTrue};
ghost use Rattle.sm_term.specs.Formulas.{numbered};
ghost use Rattle.sm_audit.specs.Known.{AreRowsKnown, IsFormKnown, IsRowKnown};

use crate::entries::are_known;
use sm_plan::NodeRow;
use sm_term::Formula;

// Whether each term that a formula compares can be named at a node.
fn is_form_known(since: &[Option<u64>], node: u64, f: &Formula) -> bool
    ensures { OnTrue result (IsFormKnown since.now node (numbered f.now)) }
{
    match f {
        Formula::Yes => true,
        Formula::No => true,
        Formula::Eq(t, u) => are_known(since, node, *t, *u),
        Formula::Ne(t, u) => are_known(since, node, *t, *u),
        Formula::Le(t, u) => are_known(since, node, *t, *u),
        Formula::Lt(t, u) => are_known(since, node, *t, *u),
        Formula::And(p, q) => is_form_known(since, node, p) && is_form_known(since, node, q),
        Formula::Or(p, q) => is_form_known(since, node, p) && is_form_known(since, node, q),
    }
}

// Whether each term of the formula that a node keeps, if it keeps one, can be named there.
fn is_row_known(since: &[Option<u64>], node: u64, row: &NodeRow<'_>) -> bool
    ensures { OnTrue result (IsRowKnown since.now node row.now) }
{
    match row {
        NodeRow::Step { .. } => true,
        NodeRow::Abs { .. } => true,
        NodeRow::Fork { .. } => true,
        NodeRow::Loop { keep, .. } => is_form_known(since, node, keep),
        NodeRow::Block { keep, .. } => is_form_known(since, node, keep),
        NodeRow::Dead => true,
        NodeRow::End => true,
    }
}

/// Whether the nodes of a plan keep such formulas, each at its own place.
pub(crate) fn are_rows_known(since: &[Option<u64>], rows: &[NodeRow<'_>]) -> bool
    ensures { OnTrue result (AreRowsKnown since.now 0 rows.now) }
{
    for n in 0..rows.len() {
        if !is_row_known(since, n as u64, &rows[n]) {
            return false;
        }
    }
    true
}
