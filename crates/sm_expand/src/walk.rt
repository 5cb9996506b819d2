// A plan that is being expanded.
ghost use Rattle.std.specs.Prelude.{◌≡◌, ◌++◌, List, length, take, reverse, IfOk, OnOk};
ghost use Rattle.sm_syntax.specs.text.Sorts.{Sorts};
ghost use Rattle.sm_term.specs.Terms.{Tree};
ghost use Rattle.sm_plan.specs.ReadyStates.{AreFormsReady};
ghost use Rattle.sm_plan.specs.Views.{forms_in};
ghost use Rattle.sm_expand.specs.Walks.{waits_with};

use crate::cursor::Cursor;
use crate::due::{Due, add_forms};
use sm_plan::{Formulas, Successor, SymState};
use std::alloc::{AllocError, Global};
use std::rc::Rc;

// A state that waits for its node. Its facts are the first `shared` ones of the path, and then its
// own.
#[derive(Drop)]
pub(crate) struct Waiting<'a, 'p> {
    pub(crate) shared: usize,
    pub(crate) kept: Rc<Formulas>,
    pub(crate) more: Formulas,
    pub(crate) state: SymState<'a>,
    pub(crate) cursor: Cursor<'p>,
}

// What is asked so far, by the first nodes, and the states that wait, the first one last. The path
// has the facts of the state that was taken last.
#[derive(Drop)]
pub(crate) struct Walk<'a, 'p> {
    pub(crate) nodes: u64,
    pub(crate) dues: Vec<Due>,
    pub(crate) path: Formulas,
    pub(crate) waiting: Vec<Waiting<'a, 'p>>,
}

// Makes the path that of a state.
pub(crate) fn enter(
    alloc: Global,
    path: &mut Formulas,
    shared: usize,
    kept: &Formulas,
    more: &Formulas,
) -> Result<(), AllocError>
    ensures path { (sorts : Sorts) (trees : List Tree) →
        let ks = forms_in sorts trees kept.now.list.items in
        let ms = forms_in sorts trees more.now.list.items in
        OnOk result (forms_in sorts trees path.new.list.items
        ≡ take shared (forms_in sorts trees path.old.list.items) ++ (ks ++ ms)) }
    ensures ready { (sorts : Sorts) (trees : List Tree) →
        AreFormsReady sorts trees path.old.list.items →
        AreFormsReady sorts trees kept.now.list.items →
        AreFormsReady sorts trees more.now.list.items →
        OnOk result (AreFormsReady sorts trees path.new.list.items) }
{
    path.list.truncate(shared);
    add_forms(alloc, path, kept)?;
    add_forms(alloc, path, more)
}

// Puts states with the plans for them behind what waits, the first the last.
pub(crate) fn put_states<'a, 'p>(
    waiting: &mut Vec<Waiting<'a, 'p>>,
    states: Vec<Successor<'a>>,
    cursors: Vec<Cursor<'p>>,
    shared: usize,
) -> Result<(), AllocError>
    requires { length states.items ≡ length cursors.items }
    ensures { OnOk result (reverse waiting.new.items
        ≡ waits_with shared states.entry.items cursors.entry.items ++ reverse waiting.old.items) }
{
    let mut left = states;
    let mut plans = cursors;
    while let Some(next) = left.pop() {
        if let Some(cursor) = plans.pop() {
            waiting.push(Waiting {
                shared,
                kept: next.kept,
                more: next.more,
                state: next.state,
                cursor,
            })?;
        }
    }
    Ok(())
}
