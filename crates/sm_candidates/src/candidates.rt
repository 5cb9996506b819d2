// The candidates of all sites, which are found on a walk over the states of a plan.
ghost use Rattle.std.specs.Prelude.{◌≡◌, true, IfOk, OnOk};
ghost use Rattle.sm_term.specs.Tables.{trees_in, sorts_in};
ghost use Rattle.sm_term.specs.TableLaws.{ExtendsTable};
ghost use Rattle.sm_plan.specs.ReadyStates.{IsStateReady};
ghost use Rattle.sm_observed.specs.LoopStates.{IsLoopSorted};
ghost use Rattle.sm_candidates.specs.Subjects.{IsSubject, IsTableOf};
ghost use Rattle.sm_candidates.specs.Waits.{AreWaitingReady};

use crate::loops::loop_at;
use crate::subject::Subject;
use crate::walking::{Waiting, start_of_programs, take_node};
use sm_audit::is_plan_ready;
use sm_drawing::Drawing;
use sm_expand::{Plan, PlanFault, start_of};
use sm_observed::{LoopState, Observed, Visits, Work, site_candidates};
use sm_plan::{Formulas, SymState};
use sm_term::TermTable;
use std::alloc::{AllocError, Global};

/// How many branching nodes stand above a node of a plan at most.
pub const MOST_BRANCHES: u64 = 1_000;

/// The candidates of each site that are still there.
#[derive(Drop)]
pub struct Candidates {
    pub sites: Vec<Formulas>,
}

/// A plan with what runs show at its loops, and whether candidates under guards are made.
#[derive(Drop)]
pub struct Seen<'d> {
    pub drawing: &'d Drawing,
    pub with_guards: bool,
}

// The visits of a site, where there are some.
fn visits_at<'d>(drawing: &'d Drawing, site: usize) -> Option<&'d Visits> {
    let visits = drawing.sites.get(site)?;
    if visits.list.is_empty() {
        return None;
    }
    Some(visits)
}

// The candidates of a site at a state. A site without visits has none.
fn formulas_at(
    alloc: Global,
    table: &mut TermTable,
    subject: &Subject<'_>,
    seen: &Seen<'_>,
    state: &LoopState<'_>,
    site: usize,
    work: &mut Work,
) -> Result<Formulas, AllocError>
    requires subject { IsSubject subject.now }
    requires declared { IsTableOf subject.now.task.now table.old }
    requires sorted { IsLoopSorted (sorts_in table.old) state.now }
    ensures { OnOk result (ExtendsTable table.old table.new) }
{
    let Some(visits) = visits_at(seen.drawing, site) else {
        let list = Vec::new(alloc);
        return Ok(Formulas { list });
    };
    let observed = Observed {
        decls: &subject.task.shared.decls,
        inputs: subject.inputs,
        visits,
        with_guards: seen.with_guards,
    };
    site_candidates(alloc, table, &observed, state, work)
}

// Puts the candidates of the loops that come next behind others. A site without visits has none.
fn put_site(
    alloc: Global,
    table: &mut TermTable,
    subject: &Subject<'_>,
    seen: &Seen<'_>,
    next: &Waiting<'_, '_>,
    candidates: &mut Candidates,
    work: &mut Work,
) -> Result<(), AllocError>
    requires subject { IsSubject subject.now }
    requires declared { IsTableOf subject.now.task.now table.old }
    requires state { IsStateReady (sorts_in table.old) (trees_in table.old) next.now.state }
    ensures { OnOk result (ExtendsTable table.old table.new) }
{
    let Some(state) = loop_at(alloc, &next.state, &next.cursor)? else {
        return Ok(());
    };
    let site = candidates.sites.len();
    let left = formulas_at(alloc, table, subject, seen, &state, site, work)?;
    candidates.sites.push(left)?;
    Ok(())
}

// What waits on the walk over a plan, how many of its nodes were taken, and the candidates of the
// sites so far.
#[derive(Drop)]
struct Walk<'a, 'p> {
    nodes: u64,
    waiting: Vec<Waiting<'a, 'p>>,
    candidates: Candidates,
}

// Puts the candidates of what waits first behind others, where it is at loops, and takes its node.
// Whether that could be taken.
fn take_next<'a, 'p>(
    alloc: Global,
    table: &mut TermTable,
    subject: &Subject<'_>,
    seen: &Seen<'_>,
    walk: &mut Walk<'a, 'p>,
    work: &mut Work,
) -> Result<bool, AllocError>
    requires subject { IsSubject subject.now }
    requires declared { IsTableOf subject.now.task.now table.old }
    requires waiting { AreWaitingReady table.old walk.old.waiting.items }
    ensures waiting { IfOk result (λ b. b ≡ true →
        AreWaitingReady table.new walk.new.waiting.items) }
    ensures widens { OnOk result (ExtendsTable table.old table.new) }
{
    let Some(next) = walk.waiting.pop() else {
        return Ok(false);
    };
    let candidates = &mut walk.candidates;
    put_site(alloc, table, subject, seen, &next, candidates, work)?;
    let number = walk.nodes;
    walk.nodes = number.saturating_add(1);
    match take_node(alloc, table, number, next, &mut walk.waiting) {
        Ok(()) => Ok(true),
        Err(PlanFault::Wrong { .. }) => Ok(false),
        Err(PlanFault::Deep) => Ok(false),
        Err(PlanFault::Memory) => Err(AllocError),
    }
}

// A plan's first place with its state; nothing waits where the plan isn't ready.
fn first_waiting<'a, 'p>(
    alloc: Global,
    table: &TermTable,
    state: SymState<'a>,
    plan: &'p Plan,
) -> Result<Vec<Waiting<'a, 'p>>, AllocError>
    requires { IsStateReady (sorts_in table.now) (trees_in table.now) state }
    ensures { IfOk result (λ ws. AreWaitingReady table.now ws.items) }
{
    let mut waiting = Vec::new(alloc);
    if !is_plan_ready(table, plan, MOST_BRANCHES) {
        return Ok(waiting);
    }
    let cursor = start_of(plan);
    waiting.push(Waiting { state, cursor })?;
    Ok(waiting)
}

// The start of the walk over a plan of a task.
fn start_walk<'t, 'd>(
    alloc: Global,
    table: &mut TermTable,
    subject: &Subject<'t>,
    drawing: &'d Drawing,
) -> Result<Walk<'t, 'd>, AllocError>
    requires subject { IsSubject subject.now }
    requires declared { IsTableOf subject.now.task.now table.old }
    ensures waiting { IfOk result (λ w. AreWaitingReady table.new w.waiting.items) }
    ensures widens { OnOk result (ExtendsTable table.old table.new) }
{
    let state = start_of_programs(alloc, table, subject)?;
    let waiting = first_waiting(alloc, table, state, &drawing.plan)?;
    let sites = Vec::new(alloc);
    Ok(Walk {
        nodes: 0,
        waiting,
        candidates: Candidates { sites },
    })
}

// Takes the nodes of a plan, one after the other, as far as they can be taken, and the work goes.
fn walk_on<'a, 'p>(
    alloc: Global,
    table: &mut TermTable,
    subject: &Subject<'_>,
    seen: &Seen<'_>,
    walk: &mut Walk<'a, 'p>,
    work: &mut Work,
) -> Result<(), AllocError>
    requires subject { IsSubject subject.now }
    requires declared { IsTableOf subject.now.task.now table.old }
    requires waiting { AreWaitingReady table.old walk.old.waiting.items }
    ensures { OnOk result (IsTableOf subject.now.task.now table.new) }
{
    for _ in 0..seen.drawing.nodes {
        if !take_next(alloc, table, subject, seen, walk, work)? || work.is_spent() {
            return Ok(());
        }
    }
    Ok(())
}

/// The candidates of all sites of a plan, in the order of its nodes, as far as the plan goes with
/// the task, and the work that is left goes. Nothing of them is believed. Where memory is wanting
/// the table may have more terms.
pub fn candidates_of(
    alloc: Global,
    table: &mut TermTable,
    subject: &Subject<'_>,
    seen: &Seen<'_>,
    work: &mut Work,
) -> Result<Candidates, AllocError>
    requires subject { IsSubject subject.now }
    requires declared { IsTableOf subject.now.task.now table.old }
    ensures { OnOk result (IsTableOf subject.now.task.now table.new) }
{
    let mut walk = start_walk(alloc, table, subject, seen.drawing)?;
    walk_on(alloc, table, subject, seen, &mut walk, work)?;
    Ok(walk.candidates)
}
