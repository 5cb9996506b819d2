// The verdict on an input.
ghost use Rattle.std.specs.Prelude.{◌≡◌, ◌≢◌, ◌↔◌, Err, None, option_map};
ghost use Rattle.sm_eval.specs.StoredValues.{meaning, sorts_of};
ghost use Rattle.sm_syntax.specs.text.Parts.{sort_of, task_of};
ghost use Rattle.sm_syntax.specs.trees.Programs.{declared_of};
ghost use Rattle.sm_syntax.specs.trees.Views.{condition_of};
ghost use Rattle.sm_task.specs.Filling.{AreFilled};
ghost use Rattle.sm_task.specs.Tasks.{parts_of};
ghost use Rattle.sm_replay.specs.Runs.{AreSorted};
ghost use Rattle.sm_replay.specs.Judging.{IsWellSortedAssumption, Tells};
ghost use Rattle.sm_replay.specs.Sorted.{sort_fault};
ghost use Rattle.sm_replay.specs.Verdicts.{Judges, IsViolation};
ghost use Rattle.sm_replay.specs.Violations.{IsMet, Violates};

use crate::error::ReplayError;
use crate::first_break::verdict_on;
use crate::runs::ends_of;
use crate::verdict::Verdict;
use sm_eval::{EvalError, Store, truth};
use sm_syntax::{Block, Cond, PerCopy};
use sm_task::Task;
use std::alloc::Global;

/// What the four programs of a task, with their holes filled, show from a start store, where each
/// loop takes at most this many turns each time it is met. The store has the task's declarations,
/// and `valid_tasks_run` says which tasks may be run. The assumption is judged first. The first
/// copy that has no end decides before any cell is looked at; then the first output at which the
/// condition fails, the least index there, and the first clause.
pub fn judge(
    alloc: Global,
    task: &Task,
    programs: &PerCopy<Block>,
    input: &Store,
    turns: u64,
) -> Result<Verdict, ReplayError>
    requires runs { sort_fault (parts_of task.now) ≡ None }
    requires filled { AreFilled (parts_of task.now) programs.now }
    requires declared { sorts_of input.now ≡ sort_of (declared_of task.now.shared.decls) }
    ensures judges { Judges (task_of (parts_of task.now)) (meaning input.now) turns result }

    // Every other verdict, and every error but want of memory, says that nothing is violated.
    ensures violates { result ≢ Err ReplayError.Memory
        → IsViolation result ↔ Violates (task_of (parts_of task.now)) (meaning input.now) turns }
{
    judged(alloc, task, programs, input, turns)
}

// The verdict, where the programs are those of the task.
pub(crate) fn judged(
    alloc: Global,
    task: &Task,
    programs: &PerCopy<Block>,
    input: &Store,
    turns: u64,
) -> Result<Verdict, ReplayError>
    requires runs { sort_fault (parts_of task.now) ≡ None }
    requires sorted { AreSorted (declared_of task.now.shared.decls) programs.now }
    requires declared { sorts_of input.now ≡ sort_of (declared_of task.now.shared.decls) }
    ensures { AreFilled (parts_of task.now) programs.now
        → Judges (task_of (parts_of task.now)) (meaning input.now) turns result }
{
    let met = is_met(&task.assumed, input)?;
    if met {
        return judged_met(alloc, task, programs, input, turns);
    }
    Ok(Verdict::Unmet)
}

// What the programs show from a store that meets the assumption.
fn judged_met(
    alloc: Global,
    task: &Task,
    programs: &PerCopy<Block>,
    input: &Store,
    turns: u64,
) -> Result<Verdict, ReplayError>
    requires sorted { AreSorted (declared_of task.now.shared.decls) programs.now }
    requires declared { sorts_of input.now ≡ sort_of (declared_of task.now.shared.decls) }
    requires met { IsMet (task_of (parts_of task.now)).assumed (meaning input.now) }
    ensures { AreFilled (parts_of task.now) programs.now
        → Judges (task_of (parts_of task.now)) (meaning input.now) turns result }
{
    let ends = ends_of(alloc, programs, input, turns)?;
    Ok(verdict_on(&ends, &task.shared.outputs.list))
}

/// Whether the store meets the assumption, or the first operation of the assumption that leaves 128
/// bits.
pub fn is_met(assumed: &Option<Cond>, input: &Store) -> Result<bool, ReplayError>
    requires { IsWellSortedAssumption (sorts_of input.now) (option_map condition_of assumed.now) }
    ensures { Tells (option_map condition_of assumed.now) (meaning input.now) result }
{
    match assumed {
        None => Ok(true),
        Some(c) => match truth(c, input) {
            Ok(holds) => Ok(holds),
            Err(EvalError::Beyond { op, a, b }) => Err(ReplayError::BeyondAssumed { op, a, b }),
            Err(EvalError::OutOfTurns) => unreachable!(),
            Err(EvalError::Memory) => unreachable!(),
        },
    }
}
