// Plans, node by node.
ghost use Rattle.std.specs.Prelude.{◌≡◌, ◌<◌, ◌∷◌, ◌++◌, [], length, reverse, IfOk, OnOk};
ghost use Rattle.sm_term.specs.Tables.{trees_in};
ghost use Rattle.sm_term.specs.TableLaws.{ExtendsTable};
ghost use Rattle.sm_proof.specs.Verdicts.{Subject};
ghost use Rattle.sm_write.specs.TreesWithin.{AreTreesWithin};
ghost use Rattle.sm_expand.specs.PlacedStates.{IsPlacedReady, ArePlacedReady, weight};
ghost use Rattle.sm_write.specs.Underway.{IsUnderway, IsWhole, OpeningWritten};
ghost use Rattle.sm_write.specs.Values.{value_of};

use crate::goals::write_goals;
use crate::nodes::write_head;
use crate::writer::Writer;
use sm_cert::CertTree;
use sm_expand::{Cursor, PlacedState, open_at, put_states, row_at};
use sm_plan::Opened;
use sm_term::TermTable;
use std::alloc::{AllocError, Global};

// Writes the node for a state, and gives what it opens, with a place in the plan for each state that
// follows.
fn write_opening<'a, 'p>(
    alloc: Global,
    w: &mut Writer,
    table: &mut TermTable,
    next: PlacedState<'a, 'p>,
) -> Result<(Opened<'a>, Vec<Cursor<'p>>), AllocError>
    requires { IsPlacedReady table.old next }
    ensures written { IfOk result
        (OpeningWritten table.old table.new (value_of w.old) (value_of w.new) next.entry) }
    ensures widens { ExtendsTable table.old table.new }
{
    // In a plan that is writable each node fits its state. So neither a node that has no row nor one
    // that opens nothing comes up, and what is left is want of memory.
    let row = match row_at(&next.cursor) {
        Some(row) => row,
        None => return Err(AllocError),
    };
    let number = w.nodes;
    write_head(alloc, w, table, &next.state.stores, &row)?;
    match open_at(alloc, table, number, next.state, &next.cursor) {
        Ok(opened) => Ok(opened),
        Err(_) => Err(AllocError),
    }
}

// Writes the node for a state that waited, with the certificates of its goals, and gives those that
// are left.
fn write_node<'a, 'p, 'c>(
    alloc: Global,
    w: &mut Writer,
    table: &mut TermTable,
    waiting: &mut Vec<PlacedState<'a, 'p>>,
    next: PlacedState<'a, 'p>,
    certs: &'c [CertTree],
) -> Result<&'c [CertTree], AllocError>
    requires states { ArePlacedReady table.old (next ∷ reverse waiting.old.items) }
    requires trees { AreTreesWithin (length (trees_in table.old)) certs.now }
    ensures written { IfOk result (λ left. (s : Subject) →
        IsUnderway s table.old (value_of w.old) (next.entry ∷ reverse waiting.old.items) certs.now →
        IsUnderway s table.new (value_of w.new) (reverse waiting.new.items) left.now) }
    ensures ready { OnOk result (ArePlacedReady table.new (reverse waiting.new.items)) }
    ensures within { IfOk result (λ left. AreTreesWithin (length (trees_in table.new)) left.now) }

    // A node fewer waits.
    ensures fewer { OnOk result (weight (reverse waiting.new.items)
        < weight (next.entry ∷ reverse waiting.old.items)) }
    ensures widens { ExtendsTable table.old table.new }
{
    let (opened, cursors) = write_opening(alloc, w, table, next)?;
    let goals = opened.goals.list.len();
    put_states(waiting, opened.states, cursors)?;
    let left = write_goals(alloc, w, table, goals, certs)?;
    Ok(left)
}

/// Writes the nodes of a plan, with the certificates of their goals, from the state that waits for
/// the first on.
pub(crate) fn write_nodes(
    alloc: Global,
    w: &mut Writer,
    table: &mut TermTable,
    first: PlacedState<'_, '_>,
    certs: &[CertTree],
) -> Result<(), AllocError>
    requires state { IsPlacedReady table.old first }
    requires trees { AreTreesWithin (length (trees_in table.old)) certs.now }
    ensures written { (s : Subject) →
        IsUnderway s table.old (value_of w.old) (first.entry ∷ []) certs.now →
        OnOk result (IsWhole s (value_of w.new)) }
    ensures widens { ExtendsTable table.old table.new }
{
    let mut waiting = Vec::new(alloc);
    waiting.push(first)?;
    let mut left = certs;
    while let Some(next) = waiting.pop() {
        left = write_node(alloc, w, table, &mut waiting, next, left)?;
    }
    Ok(())
}
