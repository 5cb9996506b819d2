// How many trials of a task end.
ghost use Rattle.std.specs.Prelude.{◌≡◌, ◌↔◌, None, if◌then◌else◌, IfOk, IsTrue};
ghost use Rattle.sm_eval.specs.StoredValues.{meaning, sorts_of};
ghost use Rattle.sm_replay.specs.Sorted.{sort_fault};
ghost use Rattle.sm_syntax.specs.text.Parts.{sort_of, task_of};
ghost use Rattle.sm_syntax.specs.trees.Programs.{declared_of};
ghost use Rattle.sm_task.specs.Filling.{AreFilled};
ghost use Rattle.sm_task.specs.Tasks.{parts_of};
ghost use Rattle.sm_why.specs.Ended.{IsEnded};
ghost use Rattle.sm_why.specs.Trials.{trials_words, EndingTrials, EndsFrom, IsTrialsLine};

use itoa::Buffer;
use sm_eval::Store;
use sm_replay::{ReplayError, Verdict, judge, trial};
use sm_syntax::{Block, PerCopy};
use sm_task::{Task, fill_all};
use std::alloc::{AllocError, Global};

// How many trials there are.
const TRIALS: u64 = 256;

/// The line that says how many of a task's trials meet the assumption and end, where each loop takes
/// at most `turns` turns each time it is met. The trials are run one after the other.
pub fn trials_line(alloc: Global, task: &Task, turns: u64) -> Result<Vec<u8>, AllocError>
    requires { sort_fault (parts_of task.now) ≡ None }
    ensures { IfOk result (λ line. IsTrialsLine (parts_of task.now) turns line.items) }
{
    let programs = fill_all(alloc, task)?;
    let count = ending(alloc, task, &programs, turns)?;
    let line = count_line(alloc, count)?;
    Ok(line)
}

// How many trials end.
fn ending(
    alloc: Global,
    task: &Task,
    programs: &PerCopy<Block>,
    turns: u64,
) -> Result<u64, AllocError>
    requires runs { sort_fault (parts_of task.now) ≡ None }
    requires filled { AreFilled (parts_of task.now) programs.now }
    ensures { IfOk result (λ count. EndingTrials (parts_of task.now) turns count) }
{
    let mut count = 0;
    for j in 0..TRIALS {
        let input = trial(alloc, task, j as u8)?;
        let ends = ends_from(alloc, task, programs, &input, turns)?;
        count += one_if(ends);
    }
    Ok(count)
}

// What a trial counts.
fn one_if(ends: bool) -> u64
    ensures { result ≡ (if ends then 1 else 0) }
{
    if ends { 1 } else { 0 }
}

// Whether a store meets the assumption and the four programs end from it.
fn ends_from(
    alloc: Global,
    task: &Task,
    programs: &PerCopy<Block>,
    input: &Store,
    turns: u64,
) -> Result<bool, AllocError>
    requires runs { sort_fault (parts_of task.now) ≡ None }
    requires filled { AreFilled (parts_of task.now) programs.now }
    requires declared { sorts_of input.now ≡ sort_of (declared_of task.now.shared.decls) }
    ensures { let t = task_of (parts_of task.now) in
        IfOk result (λ ends. IsTrue ends ↔ EndsFrom t (meaning input.now) turns) }
{
    ended(judge(alloc, task, programs, input, turns))
}

// Whether a verdict is one on four ends.
fn ended(verdict: Result<Verdict, ReplayError>) -> Result<bool, AllocError>
    ensures { IfOk result (λ ends. IsEnded verdict ends) }
{
    match verdict {
        Ok(Verdict::Holds) => Ok(true),
        Ok(Verdict::Violates { .. }) => Ok(true),
        Ok(Verdict::Unmet) => Ok(false),
        Err(ReplayError::OutOfTurns { .. }) => Ok(false),
        Err(ReplayError::Beyond { .. }) => Ok(false),
        Err(ReplayError::BeyondAssumed { .. }) => Ok(false),
        Err(ReplayError::Memory) => Err(AllocError),
    }
}

// The line for a count.
fn count_line(alloc: Global, count: u64) -> Result<Vec<u8>, AllocError>
    ensures { IfOk result (λ line. line.items ≡ trials_words count) }
{
    let mut digits = Buffer::new();
    let mut line = Vec::from_slice(alloc, digits.format(count).as_bytes())?;
    line.extend_from_slice(b" of 256 trials ended\n")?;
    Ok(line)
}
