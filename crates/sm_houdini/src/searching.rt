// The search for a proof of a task.
ghost use Rattle.std.specs.Prelude.{◌≡◌, ◌<◌, ◌≤◌, None, IfOk};
ghost use Rattle.sm_syntax.specs.text.Parts.{sort_of, task_of};
ghost use Rattle.sm_syntax.specs.trees.Copies.{of_copy};
ghost use Rattle.sm_syntax.specs.trees.Programs.{declared_of};
ghost use Rattle.sm_syntax.specs.trees.Views.{code_of};
ghost use Rattle.sm_syntax.specs.claim.ConflictFree.{Copy};
ghost use Rattle.sm_text.specs.Tasks.{parts_of};
ghost use Rattle.sm_task.specs.Filling.{AreFilled};
ghost use Rattle.sm_plan.specs.SortedStates.{IsTaskSorted};
ghost use Rattle.sm_plan.specs.Starts.{AreNumbered};
ghost use Rattle.sm_sided.specs.OneSided.{IsOneSided};
ghost use Rattle.sm_replay.specs.Sorted.{sort_fault};
ghost use Rattle.sm_solve.specs.declared.reach.Reach.{Reach};
ghost use Rattle.sm_houdini.specs.Outcomes.{IsOutcome};
ghost use Rattle.sm_houdini.specs.Searchable.{IsSearchable};
ghost use Rattle.sm_goals.specs.Whole.{IsWhole};
ghost use Rattle.sm_houdini.specs.Views.{outcome_in, IsProof};

use crate::deciding::by_plan;
use crate::goal_jobs::Crew;
use crate::outcome::Outcome;
use sm_goals::Proof;
use sm_par::Gate;
use sm_replay::first_violation;
use sm_sided::{one_sided, whole_plan};
use sm_solve::Reach;
use sm_syntax::{Block, PerCopy};
use sm_task::fill_all;
use sm_term::TermTable;
use sm_text::Task;
use std::alloc::{AllocError, Global};
use std::thread::Threads;

// The proof of a one-sided task.
fn whole_proof(alloc: Global, task: &Task, programs: &PerCopy<Block>) -> Result<Proof, AllocError>
    requires sorted { IsTaskSorted (sort_of (declared_of task.now.shared.decls))
        (task_of (parts_of task.now)) }
    requires numbered { AreNumbered (declared_of task.now.shared.decls) }
    requires filled { AreFilled (parts_of task.now) programs.now }
    requires sided { IsOneSided (λ (c : Copy). code_of (of_copy programs.now c)) }
    ensures whole { IfOk result (IsWhole (parts_of task.now)) }
{
    let mut table = TermTable::new(alloc, &task.shared.decls)?;
    let shared = &task.shared;
    let assumed = task.assumed.as_ref();
    let (plan, trees) = whole_plan(
        alloc,
        &mut table,
        &shared.decls,
        &shared.outputs,
        assumed,
        programs,
    )?;
    Ok(Proof { table, plan, trees })
}

/// What the search for a proof of a task comes to, with at most `steps` steps in each walk. Where it
/// is to be `exact`, a walk decides the forms of a branch that nothing splits exactly, too. A task in
/// which only one side was changed is accepted. Of any other one the trials are run, as jobs for 1
/// to 64 workers, in which a loop takes at most `turns` turns: the first that violates it is a
/// conflict. Otherwise its plan decides, under the templates that are kept. With more than one
/// worker shares of the templates and of the nodes are jobs too, in each round, and so are the goals
/// of each node of the plan that is kept.
pub fn search<R: Threads + Sync, G: Gate>(
    rt: &R,
    alloc: Global,
    gate: &G,
    task: &Task,
    steps: u64,
    turns: u64,
    workers: u32,
    exact: bool,
) -> Result<Outcome, AllocError>
    requires runs { sort_fault (parts_of task.now) ≡ None }
    requires searchable { IsSearchable (parts_of task.now) }
    requires sorted { let t = parts_of task.now in IsTaskSorted (sort_of t.declared) (task_of t) }
    requires numbered { AreNumbered (declared_of task.now.shared.decls) }
    requires some { 0 < workers }
    requires most { workers ≤ 64 }
    ensures outcome { let reach : Reach = record { steps = steps; exact = exact } in
        IfOk result (λ o. IsOutcome (parts_of task.now) reach turns (outcome_in o)) }

    // An outcome that accepts comes with a plan and certificates that can be written.
    ensures proof { IfOk result (IsProof (parts_of task.now)) }
{
    let programs = fill_all(alloc, task)?;
    if one_sided(&programs) {
        return Ok(Outcome::Accepted(whole_proof(alloc, task, &programs)?));
    }
    match first_violation(rt, alloc, gate, task, &programs, turns, workers)? {
        Some((trial, verdict)) => Ok(Outcome::Conflict { trial, verdict }),
        None => {
            let crew = Crew { rt, gate, workers };
            by_plan(&crew, alloc, task, programs, Reach { steps, exact })
        }
    }
}
