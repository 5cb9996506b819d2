// A violation that is found.
ghost use Rattle.std.specs.Prelude.{◌≡◌, None, IfOk, IfSome};
ghost use Rattle.sm_eval.specs.StoredValues.{sorts_of};
ghost use Rattle.sm_guided.specs.Beyond.{ShowsBeyond};
ghost use Rattle.sm_replay.specs.Sorted.{sort_fault};
ghost use Rattle.sm_syntax.specs.text.Parts.{sort_of};
ghost use Rattle.sm_syntax.specs.trees.Programs.{declared_of};
ghost use Rattle.sm_task.specs.Filling.{AreFilled};
ghost use Rattle.sm_task.specs.Tasks.{parts_of};

use crate::inputs::{input_cells, store_of};
use crate::setting::Picked;
use crate::small::STATED;
use sm_eval::Store;
use sm_replay::{ReplayError, Verdict, judge};
use sm_syntax::{Block, Name, PerCopy};
use sm_task::Task;
use std::alloc::{AllocError, Global};

/// An input that shows a conflict of a task, beyond those that are tried on every task.
#[derive(Drop)]
pub struct Shown {
    /// Its place among the inputs that are made: 256 or more.
    pub number: u64,
    pub input: Store,
    /// The first output at which the condition fails, with the least index where it is an array,
    /// and the first clause there, from 1 to 3.
    pub name: Name,
    pub index: Option<i128>,
    pub clause: u8,
}

/// The input that was picked, where it is judged to violate the condition.
pub fn judged(
    alloc: Global,
    task: &Task,
    programs: &PerCopy<Block>,
    picked: &Picked,
    turns: u64,
) -> Result<Option<Shown>, AllocError>
    requires runs { sort_fault (parts_of task.now) ≡ None }
    requires filled { AreFilled (parts_of task.now) programs.now }
    ensures { IfOk result (λ found. IfSome found (ShowsBeyond (parts_of task.now) turns)) }
{
    let decls = &task.shared.decls;
    let cells = input_cells(alloc, decls)?;
    let input = store_of(alloc, decls, &cells, &picked.numbers)?;
    let number = STATED.saturating_add(picked.made);
    match judge(alloc, task, programs, &input, turns) {
        Ok(
            Verdict::Violates {
                name,
                index,
                clause,
            },
        ) => Ok(Some(Shown {
            number,
            input,
            name,
            index,
            clause,
        })),
        Ok(Verdict::Holds | Verdict::Unmet) => Ok(None),
        Err(ReplayError::Memory) => Err(AllocError),
        Err(
            ReplayError::OutOfTurns { .. }
            | ReplayError::Beyond { .. }
            | ReplayError::BeyondAssumed { .. },
        ) => Ok(None),
    }
}
