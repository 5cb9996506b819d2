// The walk over the states of a plan.
ghost use Rattle.std.specs.Prelude.{IfOk, OnOk};
ghost use Rattle.sm_term.specs.Tables.{TableValue, trees_in, sorts_in};
ghost use Rattle.sm_term.specs.TableLaws.{ExtendsTable};
ghost use Rattle.sm_plan.specs.ReadyStates.{IsSuccessorReady, AreSuccessorsReady, IsStateReady};
ghost use Rattle.sm_candidates.specs.Subjects.{IsSubject, IsTableOf};
ghost use Rattle.sm_candidates.specs.Waits.{IsPlaceReady, ArePlacesReady, IsWaitingReady, AreWaitingReady};

use crate::subject::Subject;
use sm_expand::{Cursor, PlanFault, open_at};
use sm_plan::{Successor, SymState, start_state};
use sm_term::TermTable;
use std::alloc::{AllocError, Global};

/// A place of a plan, with its state.
#[derive(Drop)]
pub(crate) struct Waiting<'a, 'p> {
    pub(crate) state: SymState<'a>,
    pub(crate) cursor: Cursor<'p>,
}

/// The state at the start of a task's programs, but for the facts.
pub(crate) fn start_of_programs<'t>(
    alloc: Global,
    table: &mut TermTable,
    subject: &Subject<'t>,
) -> Result<SymState<'t>, AllocError>
    requires subject { IsSubject subject.now }
    requires declared { IsTableOf subject.now.task.now table.old }
    ensures ready { IfOk result (IsStateReady (sorts_in table.new) (trees_in table.new)) }
    ensures widens { ExtendsTable table.old table.new }
{
    let shared = &subject.task.shared;
    let assumed = subject.task.assumed.as_ref();
    let (state, _facts) = start_state(
        alloc,
        table,
        &shared.decls,
        &shared.outputs,
        assumed,
        subject.programs,
    )?;
    Ok(state)
}

// A place, with the state that follows there.
fn waiting_at<'a, 'p>(next: Successor<'a>, cursor: Cursor<'p>) -> Waiting<'a, 'p>
    ensures { (v : TableValue) → IsSuccessorReady (sorts_in v) (trees_in v) next.entry →
        IsPlaceReady v cursor.entry → IsWaitingReady v result }
{
    Waiting {
        state: next.state,
        cursor,
    }
}

// Puts states with their places behind what waits, the first the last.
fn put_states<'a, 'p>(
    waiting: &mut Vec<Waiting<'a, 'p>>,
    states: Vec<Successor<'a>>,
    cursors: Vec<Cursor<'p>>,
) -> Result<(), AllocError>
    ensures { (v : TableValue) → AreWaitingReady v waiting.old.items →
        AreSuccessorsReady (sorts_in v) (trees_in v) states.entry.items →
        ArePlacesReady v cursors.entry.items →
        OnOk result (AreWaitingReady v waiting.new.items) }
{
    let mut left = states;
    let mut places = cursors;
    while let Some(next) = left.pop() {
        let Some(cursor) = places.pop() else {
            return Ok(());
        };
        let more = waiting_at(next, cursor);
        waiting.push(more)?;
    }
    Ok(())
}

/// Opens the node for a state that waited, and puts the states that follow behind what waits.
pub(crate) fn take_node<'a, 'p>(
    alloc: Global,
    table: &mut TermTable,
    number: u64,
    next: Waiting<'a, 'p>,
    waiting: &mut Vec<Waiting<'a, 'p>>,
) -> Result<(), PlanFault>
    requires next { IsWaitingReady table.old next }
    requires waiting { AreWaitingReady table.old waiting.old.items }
    ensures ready { OnOk result (AreWaitingReady table.new waiting.new.items) }
    ensures widens { ExtendsTable table.old table.new }
{
    let (opened, cursors) = open_at(alloc, table, number, next.state, &next.cursor)?;
    put_states(waiting, opened.states, cursors)?;
    Ok(())
}
