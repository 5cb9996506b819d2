// The deeper search.
ghost use Rattle.std.specs.Prelude.{◌<◌, ◌≤◌, IfOk, IfSome};
ghost use Rattle.sm_syntax.specs.text.Parts.{sort_of, task_of};
ghost use Rattle.sm_syntax.specs.trees.Programs.{declared_of};
ghost use Rattle.sm_text.specs.Tasks.{parts_of};
ghost use Rattle.sm_plan.specs.SortedStates.{IsTaskSorted};
ghost use Rattle.sm_plan.specs.Starts.{AreNumbered};
ghost use Rattle.sm_goals.specs.Whole.{IsWhole};
ghost use Rattle.sm_candidates.specs.Subjects.{IsSubject};

use crate::attempt::{Manner, attempt, drawing_of};
use crate::crew::Crew;
use crate::effort::Effort;
use crate::same::are_same_plans;
use sm_candidates::Subject;
use sm_drawing::Drawing;
use sm_eval::Store;
use sm_goals::Proof;
use sm_observed::Work;
use sm_par::Gate;
use sm_solve::Reach;
use sm_task::fill_all;
use sm_text::Task;
use std::alloc::{AllocError, Global};
use std::thread::Threads;

/// The most steps of a walk.
const MOST_STEPS: u64 = 10_000;

/// How much all of a search may do: facts over which goals are asked, and visits at which
/// candidates are tried.
const MOST_WORK: u64 = 10_000_000;

// Two drawings of a task; the second one only where it differs.
struct Drawings {
    first: Option<Drawing>,
    second: Option<Drawing>,
}

// One call ends a value, and not one for each field: proofs of what has it stay small.
impl Drop for Drawings {
    fn drop(self) {
        let Self {
            first: _,
            second: _,
        } = self;
    }
}

// Whether a drawing has the plan of another.
fn are_alike(one: &Option<Drawing>, other: &Option<Drawing>) -> bool {
    match (one, other) {
        (Some(one), Some(other)) => are_same_plans(&one.plan, &other.plan),
        _ => false,
    }
}

// The drawings of a task.
fn drawings_of(alloc: Global, subject: &Subject<'_>) -> Result<Drawings, AllocError> {
    let first = drawing_of(alloc, subject, false, &[])?;
    let second = drawing_of(alloc, subject, true, &[])?;
    if are_alike(&first, &second) {
        return Ok(Drawings {
            first,
            second: None,
        });
    }
    Ok(Drawings { first, second })
}

// Whether runs show something at a loop of a drawing.
fn has_visits(drawing: &Drawing) -> bool {
    for visits in &drawing.sites {
        if !visits.list.is_empty() {
            return true;
        }
    }
    false
}

// A proof by a drawing, where it is there. Candidates under guards are looked for where some loop
// is visited.
fn proved_by<R: Threads + Sync, G: Gate>(
    crew: &Crew<'_, R, G>,
    alloc: Global,
    subject: &Subject<'_>,
    drawing: &Option<Drawing>,
    manner: Manner,
    effort: &mut Effort,
) -> Result<Option<Proof>, AllocError>
    requires { IsSubject subject.now }
    ensures { IfOk result (λ o. IfSome o (IsWhole (parts_of subject.now.task.now))) }
{
    let Some(drawing) = drawing else {
        return Ok(None);
    };
    if manner.with_guards && !has_visits(drawing) {
        return Ok(None);
    }
    attempt(crew, alloc, subject, drawing, manner, effort)
}

// A proof by both drawings, with or without candidates under guards.
fn proved_by_both<R: Threads + Sync, G: Gate>(
    crew: &Crew<'_, R, G>,
    alloc: Global,
    subject: &Subject<'_>,
    drawings: &Drawings,
    with_guards: bool,
    effort: &mut Effort,
) -> Result<Option<Proof>, AllocError>
    requires { IsSubject subject.now }
    ensures { IfOk result (λ o. IfSome o (IsWhole (parts_of subject.now.task.now))) }
{
    let manner = Manner {
        is_second: false,
        with_guards,
    };
    if let Some(proof) = proved_by(crew, alloc, subject, &drawings.first, manner, effort)? {
        return Ok(Some(proof));
    }
    let manner = Manner {
        is_second: true,
        with_guards,
    };
    proved_by(crew, alloc, subject, &drawings.second, manner, effort)
}

// A proof by both drawings, first without candidates under guards, then with them.
fn proved_in_turn<R: Threads + Sync, G: Gate>(
    crew: &Crew<'_, R, G>,
    alloc: Global,
    subject: &Subject<'_>,
    drawings: &Drawings,
    effort: &mut Effort,
) -> Result<Option<Proof>, AllocError>
    requires { IsSubject subject.now }
    ensures { IfOk result (λ o. IfSome o (IsWhole (parts_of subject.now.task.now))) }
{
    if let Some(proof) = proved_by_both(crew, alloc, subject, drawings, false, effort)? {
        return Ok(Some(proof));
    }
    proved_by_both(crew, alloc, subject, drawings, true, effort)
}

// A proof by the drawings of a task.
fn found<R: Threads + Sync, G: Gate>(
    crew: &Crew<'_, R, G>,
    alloc: Global,
    subject: &Subject<'_>,
    effort: &mut Effort,
) -> Result<Option<Proof>, AllocError>
    requires { IsSubject subject.now }
    ensures { IfOk result (λ o. IfSome o (IsWhole (parts_of subject.now.task.now))) }
{
    let drawings = drawings_of(alloc, subject)?;
    proved_in_turn(crew, alloc, subject, &drawings, effort)
}

/// A proof of a task by a plan that is drawn along the runs from some inputs, where one is found:
/// it can be written, whatever the inputs are. More is found where they meet the assumption. Two
/// drawings are tried, and then both with candidates under guards. A walk takes 10,000 steps at
/// most. Where all work is done that a search may do, nothing is found. Walks are jobs for 1 to 64
/// workers, whose number changes nothing that is found.
pub fn search_deeper<R: Threads + Sync, G: Gate>(
    rt: &R,
    alloc: Global,
    gate: &G,
    task: &Task,
    inputs: &[Store],
    reach: Reach,
    workers: u32,
) -> Result<Option<Proof>, AllocError>
    requires sorted { let t = parts_of task.now in IsTaskSorted (sort_of t.declared) (task_of t) }
    requires numbered { AreNumbered (declared_of task.now.shared.decls) }
    requires some { 0 < workers }
    requires most { workers ≤ 64 }
    ensures { IfOk result (λ o. IfSome o (IsWhole (parts_of task.now))) }
{
    let crew = Crew { rt, gate, workers };
    let programs = fill_all(alloc, task)?;
    let subject = Subject {
        task,
        programs: &programs,
        inputs,
    };
    let mut effort = Effort {
        reach: Reach {
            steps: reach.steps.min(MOST_STEPS),
            exact: reach.exact,
        },
        work: Work { left: MOST_WORK },
    };
    found(&crew, alloc, &subject, &mut effort)
}
