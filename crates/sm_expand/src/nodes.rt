// One node of a plan.
ghost use Rattle.std.specs.Prelude.{◌≡◌, ◌+◌, ◌<◌, ◌∷◌, List, length, map, reverse, IfOk, OnOk, OnErr, IfErr, IfSome, ◌&&◌};
ghost use Rattle.sm_syntax.specs.text.Sorts.{Sorts};
ghost use Rattle.sm_term.specs.Assertions.{Assertion};
ghost use Rattle.sm_term.specs.Terms.{Tree};
ghost use Rattle.sm_plan.specs.Nodes.{is_end};
ghost use Rattle.sm_term.specs.Tables.{trees_in, sorts_in};
ghost use Rattle.sm_term.specs.TableLaws.{ExtendsTable};
ghost use Rattle.sm_plan.specs.Plans as plain;
ghost use Rattle.sm_plan.specs.ReadyStates.{IsStateReady};
ghost use Rattle.sm_plan.specs.Views.{state_in};
ghost use Rattle.sm_expand.specs.NumberedPlans.{node_over, plan_over, IsPlanReady, head};
ghost use Rattle.sm_expand.specs.Cursors.{numbered_at};
ghost use Rattle.sm_expand.specs.declared.fault.PlanFault.TheVariants.{Memory};
ghost use Rattle.sm_expand.specs.Views.{FaultTells};
ghost use Rattle.sm_expand.specs.Opens.{OpensAs};
ghost use Rattle.sm_expand.specs.Walks.{outcome, IsReadyWith, weight};

use crate::cursor::{Cursor, below_at, ends_at, row_at, rule_at};
use crate::due::put_due;
use crate::fault::PlanFault;
use crate::walk::{Waiting, Walk, enter, put_states};
use sm_plan::{Opened, SymState, open};
use sm_term::TermTable;
use std::alloc::Global;

/// What the node at a place opens at a state, with a place for each state that follows. Where the
/// node fails its rule the error names it by its number. After an error the table has the terms that
/// it had.
#[tactic(auto, using(sm_plan::proofs::TablesWiden::widens_cut, sm_plan::proofs::TablesWiden::cut_back))]
pub fn open_at<'a, 'p>(
    alloc: Global,
    table: &mut TermTable,
    number: u64,
    state: SymState<'a>,
    cursor: &Cursor<'p>,
) -> Result<(Opened<'a>, Vec<Cursor<'p>>), PlanFault>
    requires state { IsStateReady (sorts_in table.old) (trees_in table.old) state }
    requires plan { IsPlanReady (sorts_in table.old) (trees_in table.old) (numbered_at cursor.now) }
    ensures ok { IfOk result (OpensAs table.old table.new number state.entry cursor.now) }
    ensures err { let sorts = sorts_in table.old in let trees = trees_in table.old in
        (facts : List Assertion) → IfErr result (λ e. FaultTells e
        (plain.expand number (state_in sorts trees facts state.entry)
        (plan_over sorts trees (numbered_at cursor.now)))) }

    // Each term keeps its number.
    ensures widens { ExtendsTable table.old table.new }
    ensures unchanged { OnErr result (trees_in table.new ≡ trees_in table.old) }
{
    let len = table.len();
    match open_with(alloc, table, number, state, cursor) {
        Ok(opened) => Ok(opened),
        Err(fault) => {
            table.cut(len);
            Err(fault)
        }
    }
}

// What a node opens and the places that follow, where an error leaves the terms that were made.
fn open_with<'a, 'p>(
    alloc: Global,
    table: &mut TermTable,
    number: u64,
    state: SymState<'a>,
    cursor: &Cursor<'p>,
) -> Result<(Opened<'a>, Vec<Cursor<'p>>), PlanFault>
    requires state { IsStateReady (sorts_in table.old) (trees_in table.old) state }
    requires plan { IsPlanReady (sorts_in table.old) (trees_in table.old) (numbered_at cursor.now) }
    ensures ok { IfOk result (OpensAs table.old table.new number state.entry cursor.now) }
    ensures err { let sorts = sorts_in table.old in let trees = trees_in table.old in
        (facts : List Assertion) → IfErr result (λ e. FaultTells e
        (plain.expand number (state_in sorts trees facts state.entry)
        (plan_over sorts trees (numbered_at cursor.now)))) }
    ensures widens { ExtendsTable table.old table.new }
{
    let wrong = PlanFault::Wrong {
        node: number,
        rule: rule_at(cursor),
    };
    let node = match row_at(cursor) {
        Some(node) => node,
        None => return Err(wrong),
    };
    let opened = match open(alloc, table, number, state, &node)? {
        Some(opened) => opened,
        None => return Err(wrong),
    };
    let cursors = below_at(alloc, cursor)?;
    if cursors.len() == opened.states.len() {
        Ok((opened, cursors))
    } else {
        Err(wrong)
    }
}

// The number of the next node. There is none past the greatest `u64`, which no plan in memory
// comes to.
fn one_more(number: u64) -> Result<u64, PlanFault>
    ensures ok { IfOk result (λ n. n ≡ number + 1) }
    ensures err { IfErr result (λ e. e ≡ Memory) }
{
    match number.checked_add(1) {
        Some(next) => Ok(next),
        None => Err(PlanFault::Memory),
    }
}

// Whether the node for a state that waits asks the final target.
fn asks_final(next: &Waiting<'_, '_>) -> bool
    ensures { (sorts : Sorts) (trees : List Tree) → let node =
        node_over sorts trees (head (numbered_at next.now.cursor)) in
        result ≡ (is_end node && next.now.state.is_final) }
{
    let ends = ends_at(&next.cursor);
    ends && next.state.is_final
}

// Takes the node for a state that waited.
pub(crate) fn take_node<'a, 'p>(
    alloc: Global,
    table: &mut TermTable,
    walk: &mut Walk<'a, 'p>,
    next: Waiting<'a, 'p>,
) -> Result<(), PlanFault>
    requires { IsReadyWith table.old walk.old.path.list.items walk.old.dues.items
        (next ∷ reverse walk.old.waiting.items) }
    ensures ok { OnOk result (outcome table.old walk.old.dues.items walk.old.nodes
        walk.old.path.list.items (next.entry ∷ reverse walk.old.waiting.items)
        ≡ outcome table.new walk.new.dues.items walk.new.nodes walk.new.path.list.items
        (reverse walk.new.waiting.items)) }
    ensures err { IfErr result (λ e. FaultTells e
        (outcome table.old walk.old.dues.items walk.old.nodes walk.old.path.list.items
        (next.entry ∷ reverse walk.old.waiting.items))) }
    ensures ready { OnOk result (IsReadyWith table.new walk.new.path.list.items
        walk.new.dues.items (reverse walk.new.waiting.items)) }

    // A node fewer waits.
    ensures fewer { OnOk result (weight (reverse walk.new.waiting.items)
        < weight (next.entry ∷ reverse walk.old.waiting.items)) }
    ensures widens { ExtendsTable table.old table.new }
{
    enter(
        alloc,
        &mut walk.path,
        next.shared,
        next.kept.as_ref(),
        &next.more,
    )?;
    let last = asks_final(&next);
    let (opened, cursors) = open_at(alloc, table, walk.nodes, next.state, &next.cursor)?;
    put_due(
        alloc,
        &mut walk.dues,
        walk.nodes,
        &walk.path,
        opened.goals,
        last,
    )?;
    let shared = walk.path.list.len();
    put_states(&mut walk.waiting, opened.states, cursors, shared)?;
    walk.nodes = one_more(walk.nodes)?;
    Ok(())
}
