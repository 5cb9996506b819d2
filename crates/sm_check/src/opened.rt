// What a node opens waits: the branches of its goals first, then its states.
ghost use Rattle.std.specs.Prelude.{◌≡◌, ◌++◌, List, IfOk, OnOk, map, reverse};
ghost use Rattle.sm_syntax.specs.text.Sorts.{Sorts};
ghost use Rattle.sm_term.specs.Terms.{Tree};
ghost use Rattle.sm_plan.specs.ReadyStates.{AreStoresReady, AreSuccessorsReady};
ghost use Rattle.sm_check.specs.declared.pending.Waiting.{Waiting};
ghost use Rattle.sm_check.specs.Opened.{waits_at, IsDenied, AreDenied};
ghost use Rattle.sm_check.specs.Pending.{IsWaitingReady, AreWaitingReady};

use crate::pending::Waiting;
use sm_plan::{Formulas, Opened, Successor};
use sm_syntax::PerCopy;
use sm_term::{Formula, SymStore, negate};
use sm_theory::Fact;
use std::alloc::{AllocError, Global};
use std::rc::Rc;

// Puts what a node opens behind what waits, so that the branch of its first goal is the last.
pub(crate) fn put_opened<'a>(
    alloc: Global,
    waiting: &mut Vec<Waiting<'a>>,
    opened: Opened<'a>,
    shared: usize,
    above: u64,
) -> Result<(), AllocError>
    ensures put { OnOk result ((ws : List Waiting)
        × AreDenied shared opened.entry.stores opened.entry.goals.list.items ws
        × (reverse waiting.new.items
        ≡ ws ++ (map (waits_at shared above) opened.entry.states.items
        ++ reverse waiting.old.items))) }
    ensures ready { (sorts : Sorts) (trees : List Tree) →
        AreStoresReady sorts trees opened.entry.stores →
        AreSuccessorsReady sorts trees opened.entry.states.items →
        AreWaitingReady sorts trees waiting.old.items →
        AreWaitingReady sorts trees waiting.new.items }
{
    put_states(waiting, opened.states, shared, above)?;
    let stores = Rc::new(alloc, opened.stores)?;
    put_goals(alloc, waiting, opened.goals, &stores, shared)
}

// Puts states behind what waits, the first the last.
fn put_states<'a>(
    waiting: &mut Vec<Waiting<'a>>,
    states: Vec<Successor<'a>>,
    shared: usize,
    above: u64,
) -> Result<(), AllocError>
    ensures put { OnOk result (reverse waiting.new.items
        ≡ map (waits_at shared above) states.entry.items ++ reverse waiting.old.items) }
    ensures ready { (sorts : Sorts) (trees : List Tree) →
        AreSuccessorsReady sorts trees states.entry.items →
        AreWaitingReady sorts trees waiting.old.items →
        AreWaitingReady sorts trees waiting.new.items }
{
    let mut left = states;
    while let Some(next) = left.pop() {
        waiting.push(Waiting::State {
            shared,
            kept: next.kept,
            more: next.more,
            state: next.state,
            above,
        })?;
    }
    Ok(())
}

// Puts the branches of goals behind what waits, the first the last.
fn put_goals<'a>(
    alloc: Global,
    waiting: &mut Vec<Waiting<'a>>,
    goals: Formulas,
    stores: &Rc<PerCopy<SymStore>>,
    shared: usize,
) -> Result<(), AllocError>
    ensures put { OnOk result ((ws : List Waiting)
        × AreDenied shared stores.now.value goals.list.items ws
        × (reverse waiting.new.items ≡ ws ++ reverse waiting.old.items)) }
    ensures ready { (sorts : Sorts) (trees : List Tree) →
        AreStoresReady sorts trees stores.now.value →
        AreWaitingReady sorts trees waiting.old.items →
        AreWaitingReady sorts trees waiting.new.items }
{
    let mut left = goals.list;
    while let Some(goal) = left.pop() {
        waiting.push(denied(alloc, goal, stores, shared)?)?;
    }
    Ok(())
}

// The branch of a goal.
fn denied<'a>(
    alloc: Global,
    goal: Formula,
    stores: &Rc<PerCopy<SymStore>>,
    shared: usize,
) -> Result<Waiting<'a>, AllocError>
    ensures denied { IfOk result (IsDenied shared stores.now.value goal) }
    ensures ready { (sorts : Sorts) (trees : List Tree) →
        AreStoresReady sorts trees stores.now.value →
        IfOk result (IsWaitingReady sorts trees) }
{
    let contrary = negate(alloc, &goal)?;
    Ok(Waiting::Branch {
        shared,
        fact: Fact::Form(contrary),
        stores: stores.clone()?,
        splits: 0,
    })
}
