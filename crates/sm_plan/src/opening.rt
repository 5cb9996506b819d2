// What nodes open.
ghost use Rattle.std.specs.Prelude.{◌≡◌, ◌⊎◌, List, [], option_map, IfOk, IfSome, IfNone, OnErr};
ghost use Rattle.sm_term.specs.Tables.{trees_in, sorts_in};
ghost use Rattle.sm_term.specs.TableLaws.{ExtendsTable};
ghost use Rattle.sm_term.specs.Assertions.{Assertion};
ghost use Rattle.sm_plan.specs.Nodes as plan;
ghost use Rattle.sm_plan.specs.Views.{state_in, node_in, opened_in, stores_in};
ghost use Rattle.sm_plan.specs.ReadyStates.{IsStateReady, IsNodeReady, AreSuccessorsReady, AreFormsReady, AreStoresReady};

use crate::blocks::open_block;
use crate::ends::{open_dead, open_end};
use crate::loops::open_loop;
use crate::moves::{open_fork, open_step};
use crate::node::NodeRow;
use crate::state::{Formulas, SymState};
use crate::summaries::open_abs;
use sm_syntax::PerCopy;
use sm_term::{SymStore, TermTable};
use std::alloc::{AllocError, Global};
use std::rc::Rc;

/// A state that follows a node, with the facts that it has behind those of the state before: first
/// the ones that it shares with others, and then its own.
#[derive(Drop)]
pub struct Successor<'a> {
    pub kept: Rc<Formulas>,
    pub more: Formulas,
    pub state: SymState<'a>,
}

/// The goals that a node asks over the facts of its state, with the stores of that state, and the
/// states that follow, in order.
#[derive(Drop)]
pub struct Opened<'a> {
    pub goals: Formulas,
    pub stores: PerCopy<SymStore>,
    pub states: Vec<Successor<'a>>,
}

/// What a node with a number opens at a state, None where its condition fails. The table then has
/// the terms that it had, and so it has after want of memory.
#[tactic(auto, using(crate::proofs::TablesWiden::widens_cut, crate::proofs::TablesWiden::cut_back))]
pub fn open<'a>(
    alloc: Global,
    table: &mut TermTable,
    number: u64,
    state: SymState<'a>,
    node: &NodeRow<'_>,
) -> Result<Option<Opened<'a>>, AllocError>
    requires state { IsStateReady (sorts_in table.old) (trees_in table.old) state }
    requires node { IsNodeReady (sorts_in table.old) (trees_in table.old) node.now }
    ensures opened { let sorts = sorts_in table.old in let trees = trees_in table.old in
        (facts : List Assertion) → IfOk result (λ o.
        option_map (opened_in (sorts_in table.new) (trees_in table.new) facts) o
        ≡ plan.opened_by number (state_in sorts trees facts state.entry)
        (node_in sorts trees node.now)) }

    // The stores that stand beside goals are those of the state; where there is none, any stand.
    ensures stores { IfOk result (λ o. IfSome o (λ p. (p.goals.list.items ≡ [])
        ⊎ (stores_in (trees_in table.new) p.stores
        ≡ stores_in (trees_in table.old) state.entry.stores))) }

    // What is opened can be gone on from.
    ensures ready { IfOk result (λ o. IfSome o (λ p.
        AreSuccessorsReady (sorts_in table.new) (trees_in table.new) p.states.items)) }
    ensures goals { IfOk result (λ o. IfSome o (λ p.
        AreFormsReady (sorts_in table.new) (trees_in table.new) p.goals.list.items)) }
    ensures asking { IfOk result (λ o. IfSome o (λ p.
        AreStoresReady (sorts_in table.new) (trees_in table.new) p.stores)) }

    // Each term keeps its number.
    ensures widens { ExtendsTable table.old table.new }
    ensures refused { IfOk result (λ o. IfNone o (trees_in table.new ≡ trees_in table.old)) }
    ensures err { OnErr result (trees_in table.new ≡ trees_in table.old) }
{
    let len = table.len();
    match open_node(alloc, table, number, state, node) {
        Ok(Some(opened)) => Ok(Some(opened)),
        Ok(None) => {
            table.cut(len);
            Ok(None)
        }
        Err(refused) => {
            table.cut(len);
            Err(refused)
        }
    }
}

// What a node opens, where a refusal leaves the terms that were made.
fn open_node<'a>(
    alloc: Global,
    table: &mut TermTable,
    number: u64,
    state: SymState<'a>,
    node: &NodeRow<'_>,
) -> Result<Option<Opened<'a>>, AllocError>
    requires state { IsStateReady (sorts_in table.old) (trees_in table.old) state }
    requires node { IsNodeReady (sorts_in table.old) (trees_in table.old) node.now }
    ensures opened { let sorts = sorts_in table.old in let trees = trees_in table.old in
        (facts : List Assertion) → IfOk result (λ o.
        option_map (opened_in (sorts_in table.new) (trees_in table.new) facts) o
        ≡ plan.opened_by number (state_in sorts trees facts state.entry)
        (node_in sorts trees node.now)) }
    ensures stores { IfOk result (λ o. IfSome o (λ p. (p.goals.list.items ≡ [])
        ⊎ (stores_in (trees_in table.new) p.stores
        ≡ stores_in (trees_in table.old) state.entry.stores))) }
    ensures ready { IfOk result (λ o. IfSome o (λ p.
        AreSuccessorsReady (sorts_in table.new) (trees_in table.new) p.states.items)) }
    ensures goals { IfOk result (λ o. IfSome o (λ p.
        AreFormsReady (sorts_in table.new) (trees_in table.new) p.goals.list.items)) }
    ensures asking { IfOk result (λ o. IfSome o (λ p.
        AreStoresReady (sorts_in table.new) (trees_in table.new) p.stores)) }
    ensures widens { ExtendsTable table.old table.new }
{
    match node {
        NodeRow::Step { copy } => open_step(alloc, table, state, *copy),
        NodeRow::Abs { copy, count } => open_abs(alloc, table, state, *copy, *count),
        NodeRow::Fork { copy } => open_fork(alloc, table, state, *copy),
        NodeRow::Loop { set, keep } => open_loop(alloc, table, number, state, *set, keep),
        NodeRow::Block { counts, keep } => open_block(alloc, table, number, state, counts, keep),
        NodeRow::Dead => open_dead(alloc, table, state),
        NodeRow::End => open_end(alloc, table, state),
    }
}
