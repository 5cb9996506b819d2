// A walk over the nodes of a plan, which notes what stands in the stores of their states.
ghost use Rattle.std.specs.Prelude.{◌≡◌, ◌<◌, ◌++◌, [], ◌∷◌, List, length, map, reverse, IfOk, OnOk};
ghost use Rattle.sm_syntax.specs.claim.ConflictFree.{Copy};
ghost use Rattle.sm_syntax.specs.text.Sorts.{Sorts};
ghost use Rattle.sm_syntax.specs.trees.Copies.{of_copy};
ghost use Rattle.sm_term.specs.Tables.{trees_in, sorts_in};
ghost use Rattle.sm_term.specs.TableLaws.{ExtendsTable};
ghost use Rattle.sm_term.specs.Terms.{Tree};
ghost use Rattle.sm_plan.specs.Plans.{nodes_of};
ghost use Rattle.sm_plan.specs.States.{State};
ghost use Rattle.sm_plan.specs.Views.{node_in};
ghost use Rattle.sm_expand.specs.Cursors.{numbered_at};
ghost use Rattle.sm_expand.specs.NumberedPlans.{plan_over};
ghost use Rattle.sm_audit.specs.Since.{AreNamedFrom, AreSince, IsPut};
ghost use Rattle.sm_audit.specs.Walks.{IsUnderway, nodes_with};
ghost use Rattle.sm_expand.specs.PlacedStates.{ArePlacedReady, IsPlacedReady, weight};

use crate::entries::{entry, put};
use crate::refusal::Refusal;
use sm_expand::{PlacedState, open_at, put_states, row_at};
use sm_plan::NodeRow;
use sm_syntax::PerCopy;
use sm_term::{SymStore, TermId, TermTable};
use std::alloc::Global;

// Makes a node the entry of a term that has none.
fn note_term(since: &mut Vec<Option<u64>>, t: TermId, node: u64)
    ensures { IsPut since.old.items since.new.items t.0 node }
{
    match entry(since.as_slice(), t) {
        Some(_) => {}
        None => put(since, t, node),
    }
}

// Makes a node the entry of each of several terms that has none.
fn note_terms(since: &mut Vec<Option<u64>>, terms: &[TermId], node: u64)
    ensures { (sorts : Sorts) (states : List State) (trees : List Tree) →
        AreSince sorts states trees since.old.items →
        AreNamedFrom sorts states trees node terms.now →
        AreSince sorts states trees since.new.items }
{
    for t in terms {
        note_term(since, *t, node);
    }
}

// Makes a node the entry of what stands in stores and has none.
fn note_stores(since: &mut Vec<Option<u64>>, stores: &PerCopy<SymStore>, node: u64)
    ensures { (sorts : Sorts) (states : List State) (trees : List Tree) →
        AreSince sorts states trees since.old.items →
        ((c : Copy) → AreNamedFrom sorts states trees node (of_copy stores.now c).list.items) →
        AreSince sorts states trees since.new.items }
{
    note_terms(since, stores.base.list.as_slice(), node);
    note_terms(since, stores.variant_a.list.as_slice(), node);
    note_terms(since, stores.variant_b.list.as_slice(), node);
    note_terms(since, stores.candidate.list.as_slice(), node);
}

// Takes the node for a state that waited: what stands in the state's stores is noted, the node's row
// is put behind those that were met, and the states that it opens wait.
fn note_node<'a, 'p>(
    alloc: Global,
    table: &mut TermTable,
    since: &mut Vec<Option<u64>>,
    rows: &mut Vec<NodeRow<'p>>,
    waiting: &mut Vec<PlacedState<'a, 'p>>,
    next: PlacedState<'a, 'p>,
) -> Result<(), Refusal>
    requires { ArePlacedReady table.old (next ∷ reverse waiting.old.items) }
    ensures rows { (sorts : Sorts) (trees : List Tree) → OnOk result
        (nodes_with sorts trees rows.new.items (reverse waiting.new.items)
        ≡ nodes_with sorts trees rows.old.items (next.entry ∷ reverse waiting.old.items)) }
    ensures states { (states : List State) →
        IsUnderway states table.old (length rows.old.items) since.old.items
        (next.entry ∷ reverse waiting.old.items) → OnOk result
        (IsUnderway states table.new (length rows.new.items) since.new.items
        (reverse waiting.new.items)) }
    ensures ready { OnOk result (ArePlacedReady table.new (reverse waiting.new.items)) }

    // A node fewer waits.
    ensures fewer { OnOk result (weight (reverse waiting.new.items)
        < weight (next.entry ∷ reverse waiting.old.items)) }
    ensures widens { ExtendsTable table.old table.new }
{
    let row = match row_at(&next.cursor) {
        Some(row) => row,
        None => return Err(Refusal::Unfit),
    };
    // The terms of a table are sorted, as its length ensures.
    table.len();
    let node = rows.len() as u64;
    note_stores(since, &next.state.stores, node);
    rows.push(row)?;
    let (opened, cursors) = open_at(alloc, table, node, next.state, &next.cursor)?;
    put_states(waiting, opened.states, cursors)?;
    Ok(())
}

/// Walks over a plan from the state that waits for its first node on, and gives the rows of its
/// nodes. What stands in the stores of a node's state gets that node as its entry, if it has none.
pub(crate) fn note_nodes<'p>(
    alloc: Global,
    table: &mut TermTable,
    since: &mut Vec<Option<u64>>,
    first: PlacedState<'_, 'p>,
) -> Result<Vec<NodeRow<'p>>, Refusal>
    requires { IsPlacedReady table.old first }
    ensures rows { (sorts : Sorts) (trees : List Tree) → IfOk result (λ rows.
        map (node_in sorts trees) rows.items
        ≡ nodes_of (plan_over sorts trees (numbered_at first.entry.cursor))) }
    ensures states { (states : List State) →
        IsUnderway states table.old 0 since.old.items (first.entry ∷ []) → OnOk result
        (AreSince (sorts_in table.new) states (trees_in table.new) since.new.items) }
    ensures widens { ExtendsTable table.old table.new }
{
    let mut rows = Vec::new(alloc);
    let mut waiting = Vec::new(alloc);
    waiting.push(first)?;
    while let Some(next) = waiting.pop() {
        note_node(alloc, table, since, &mut rows, &mut waiting, next)?;
    }
    Ok(rows)
}
