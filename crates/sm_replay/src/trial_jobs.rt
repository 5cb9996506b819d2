// The trials as jobs.
ghost use Rattle.std.specs.Prelude.{◌≡◌, ◌≢◌, ◌<◌, ◌≤◌, ◌↔◌, ℕ, None, Err, IsTrue, IfNone, IfSome, IfOk, length, slice_index_or};
ghost use Rattle.sm_eval.specs.StoredValues.{meaning, sorts_of};
ghost use Rattle.sm_syntax.specs.text.Parts.{sort_of, task_of};
ghost use Rattle.sm_syntax.specs.trees.Programs.{declared_of};
ghost use Rattle.sm_task.specs.Filling.{AreFilled};
ghost use Rattle.sm_task.specs.Tasks.{parts_of};
ghost use Rattle.sm_replay.specs.Runs.{AreSorted};
ghost use Rattle.sm_replay.specs.Sorted.{sort_fault};
ghost use Rattle.sm_replay.specs.Trials.{trial, trials, IsFirstViolation, SomeTrialMeets};
ghost use Rattle.sm_replay.specs.TrialJobs.{shown_of, Shows, IsFirstThere};
ghost use Rattle.sm_replay.specs.Violations.{IsMet};

use crate::error::ReplayError;
use crate::judging::{is_met, judged};
use crate::trials::trial;
use crate::verdict::Verdict;
use sm_eval::Store;
use sm_par::{Gate, Job, Phase, run_jobs};
use sm_syntax::{Block, PerCopy};
use sm_task::Task;
use std::alloc::{AllocError, Global};
use std::thread::Threads;

// How many trials there are.
const TRIALS: u64 = 256;

/// The least trial that `judge` answers Violates, with that answer, or None where no trial
/// violates. The trials are jobs of the phase Trial, for 1 to 64 workers, and all run the same four
/// programs, whose holes are filled.
pub fn first_violation<R: Threads + Sync, G: Gate>(
    rt: &R,
    alloc: Global,
    gate: &G,
    task: &Task,
    programs: &PerCopy<Block>,
    turns: u64,
    workers: u32,
) -> Result<Option<(u8, Verdict)>, AllocError>
    requires runs { sort_fault (parts_of task.now) ≡ None }
    requires filled { AreFilled (parts_of task.now) programs.now }
    requires some { 0 < workers }
    requires most { workers ≤ 64 }
    ensures { let t = parts_of task.now in
        IfOk result (IsFirstViolation (task_of t) (sort_of t.declared) turns) }
{
    let job = Trials {
        task,
        programs,
        turns,
    };
    let results = run_jobs(rt, alloc, gate, Phase::Trial, &job, TRIALS, workers)?;
    Ok(first_found(&results))
}

/// Whether some trial meets the task's assumption.
pub fn some_trial_meets(alloc: Global, task: &Task) -> Result<bool, AllocError>
    requires { sort_fault (parts_of task.now) ≡ None }
    ensures { let t = parts_of task.now in
        IfOk result (λ meets. IsTrue meets ↔ SomeTrialMeets (task_of t) (sort_of t.declared)) }
{
    for j in 0..TRIALS {
        let input = trial(alloc, task, j as u8)?;
        if meets(task, &input) {
            return Ok(true);
        }
    }
    Ok(false)
}

// Whether a store meets the task's assumption.
fn meets(task: &Task, input: &Store) -> bool
    requires runs { sort_fault (parts_of task.now) ≡ None }
    requires declared { sorts_of input.now ≡ sort_of (declared_of task.now.shared.decls) }
    ensures { IsTrue result ↔ IsMet (task_of (parts_of task.now)).assumed (meaning input.now) }
{
    match is_met(&task.assumed, input) {
        Ok(holds) => holds,
        Err(_) => false,
    }
}

// Trial by trial, whether it violates, and where.
#[derive(Drop)]
struct Trials<'a> {
    task: &'a Task,
    programs: &'a PerCopy<Block>,
    turns: u64,
    ghost runs: { sort_fault (parts_of task.now) ≡ None },
    ghost sorted: { AreSorted (declared_of task.now.shared.decls) programs.now },
}

impl Job for Trials<'_> {
    type Out = Option<Verdict>;

    ghost indices = { λ _. trials };

    ghost stands_for = { λ job index out. let t = parts_of job.task.now in
        AreFilled t job.programs.now
        → Shows (task_of t) (trial (sort_of t.declared) index) job.turns out };

    fn run(&self, alloc: Global, index: u64) -> Result<Option<Verdict>, AllocError> {
        let input = trial(alloc, self.task, index as u8)?;
        shown(judged(alloc, self.task, self.programs, &input, self.turns))
    }
}

// The verdict of an answer to a trial, where it violates.
fn shown(answer: Result<Verdict, ReplayError>) -> Result<Option<Verdict>, AllocError>
    ensures { IfOk result (λ out. (out ≡ shown_of answer) × (answer ≢ Err ReplayError.Memory)) }
{
    match answer {
        Ok(Verdict::Holds | Verdict::Unmet) => Ok(None),
        Ok(
            Verdict::Violates {
                name,
                index,
                clause,
            },
        ) => Ok(Some(Verdict::Violates {
            name,
            index,
            clause,
        })),
        Err(ReplayError::Memory) => Err(AllocError),
        Err(
            ReplayError::OutOfTurns { .. }
            | ReplayError::Beyond { .. }
            | ReplayError::BeyondAssumed { .. },
        ) => Ok(None),
    }
}

// The first of the results that is there, with its number.
fn first_found(results: &[Option<Verdict>]) -> Option<(u8, Verdict)>
    requires { length results.now ≤ 256 }
    ensures none { IfNone result ((k : ℕ) → k < length results.now
        → slice_index_or results.now k None ≡ None) }
    ensures some { IfSome result (λ f. IsFirstThere results.now f.0 f.1) }
{
    for j in 0..results.len() {
        if let Some(verdict) = results[j] {
            return Some((j as u8, verdict));
        }
    }
    None
}
