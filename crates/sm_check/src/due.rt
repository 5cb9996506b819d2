// What waits last becomes due.
ghost use Rattle.std.specs.Prelude.{◌≡◌, ◌≤◌, ◌++◌, length, reverse, List, IfOk, OnOk};
ghost use Rattle.sm_syntax.specs.text.Sorts.{Sorts};
ghost use Rattle.sm_term.specs.Tables.{trees_in, sorts_in};
ghost use Rattle.sm_term.specs.Terms.{Tree};
ghost use Rattle.sm_theory.specs.Facts.{BranchFact, as_facts};
ghost use Rattle.sm_theory.specs.SortedFacts.{AreFactsSorted};
ghost use Rattle.sm_theory.specs.Views.{AllStand};
ghost use Rattle.sm_plan.specs.Views.{forms_in};
ghost use Rattle.sm_plan.specs.ReadyStates.{AreFormsReady};
ghost use Rattle.sm_proof.specs.Passing.{Pending};
ghost use Rattle.sm_check.specs.Pending.{IsDueReady, IsReadyIfDue, IsWaitingReady, AreWaitingReady, shared_by, WaitingStands, AllWait, PendingStands, OnlyWaiting, IsMadeReady};

use crate::pending::{Due, Waiting};
use crate::walk::Walk;
use sm_plan::Formulas;
use sm_term::copy_formula;
use sm_theory::{Branch, Fact};
use std::alloc::{AllocError, Global};

// What waits last becomes due, and its facts those of the path; nothing is due where nothing waits.
// What was due is dropped.
pub(crate) fn make_due(alloc: Global, walk: &mut Walk<'_>) -> Result<(), AllocError>
    ensures pending { let sorts = sorts_in walk.old.table in let trees = trees_in walk.old.table in
        (pending : List Pending) →
        OnlyWaiting sorts trees walk.old.path walk.old.waiting pending → OnOk result
        (PendingStands sorts trees walk.new.path walk.new.due walk.new.waiting pending) }
    ensures table { walk.new.table ≡ walk.old.table }
    ensures declared { walk.new.declared ≡ walk.old.declared }
    ensures nodes { walk.new.nodes ≡ walk.old.nodes }
    ensures terms { walk.new.terms ≡ walk.old.terms }
    ensures forms { walk.new.forms ≡ walk.old.forms }
{
    let due = next_due(alloc, &mut walk.path, &mut walk.waiting)?;
    walk.due = due;
    Ok(())
}

// Takes what waits last, if anything waits, and makes the path its own.
pub(crate) fn next_due<'a>(
    alloc: Global,
    path: &mut Branch,
    waiting: &mut Vec<Waiting<'a>>,
) -> Result<Option<Due<'a>>, AllocError>
    ensures stand { (sorts : Sorts) (trees : List Tree) (facts : List BranchFact) (rest : List Pending) →
        AllStand sorts trees path.old.list.items facts → AreFactsSorted sorts facts →
        AllWait sorts trees facts (length facts) (reverse waiting.old.items) rest →
        IfOk result (λ d.
        PendingStands sorts trees path.new.list.items d waiting.new.items rest) }
    ensures ready { (sorts : Sorts) (trees : List Tree) →
        AreWaitingReady sorts trees waiting.old.items → IfOk result (IsReadyIfDue sorts trees) }
    ensures later { (sorts : Sorts) (trees : List Tree) →
        AreWaitingReady sorts trees waiting.old.items →
        AreWaitingReady sorts trees waiting.new.items }
{
    match waiting.pop() {
        Some(first) => {
            let due = made_ready(alloc, path, first)?;
            Ok(Some(due))
        }
        None => Ok(None),
    }
}

// Cuts the path to what something has of it, and puts its own facts behind.
fn made_ready<'a>(
    alloc: Global,
    path: &mut Branch,
    first: Waiting<'a>,
) -> Result<Due<'a>, AllocError>
    ensures stand { (sorts : Sorts) (trees : List Tree) (facts : List BranchFact) (p : Pending) →
        AllStand sorts trees path.old.list.items facts → AreFactsSorted sorts facts →
        shared_by first.entry ≤ length facts → WaitingStands sorts trees facts first.entry p →
        IfOk result (λ d. IsMadeReady sorts trees facts path.new.list.items
        (shared_by first.entry) d p) }
    ensures ready { (sorts : Sorts) (trees : List Tree) → IsWaitingReady sorts trees first.entry →
        IfOk result (IsDueReady sorts trees) }
{
    match first {
        Waiting::State {
            shared,
            kept,
            more,
            state,
            above,
        } => {
            path.list.truncate(shared);
            add_forms(alloc, path, kept.as_ref())?;
            add_forms(alloc, path, &more)?;
            Ok(Due::State { state, above })
        }
        Waiting::Branch {
            shared,
            fact,
            stores,
            splits,
        } => {
            path.list.truncate(shared);
            path.list.push(fact)?;
            Ok(Due::Branch { stores, splits })
        }
    }
}

// How many facts the path has.
pub(crate) fn facts_on(path: &Branch) -> usize
    ensures { result ≡ length path.now.list.items }
{
    path.list.as_slice().len()
}

// Puts formulas on the path.
pub(crate) fn add_forms(
    alloc: Global,
    path: &mut Branch,
    forms: &Formulas,
) -> Result<(), AllocError>
    ensures { (sorts : Sorts) (trees : List Tree) (facts : List BranchFact) →
        AllStand sorts trees path.old.list.items facts →
        AreFormsReady sorts trees forms.now.list.items →
        OnOk result (AllStand sorts trees path.new.list.items
        (facts ++ as_facts (forms_in sorts trees forms.now.list.items))) }
{
    for f in &forms.list {
        path.list.push(Fact::Form(copy_formula(alloc, f)?))?;
    }
    Ok(())
}
