// Whether each line of a proof file is used.
ghost use Rattle.std.specs.Prelude.{◌≡◌, true, IfOk};
ghost use Rattle.sm_proof.specs.Verdicts.{subject_of};
ghost use Rattle.sm_prune.specs.UsedLines.{HasNamedLines, HasUsedLines};
ghost use Rattle.sm_task.specs.Filling.{AreFilled};
ghost use Rattle.sm_text.specs.Tasks.{parts_of};
ghost use Rattle.sm_check.specs.Checkable.{IsCheckable};
ghost use Rattle.sm_used.specs.Counted.{AreRowsOf};

use crate::counting::{Counted, Stop, lines_counted, open};
use crate::using::are_used;
use sm_check::Checker;
use sm_syntax::{Block, PerCopy};
use sm_task::{Task, fill_all};
use std::alloc::{AllocError, Global};

// The lines behind the version line of a proof file for a task with its programs.
fn rows_of(
    alloc: Global,
    task: &Task,
    programs: &PerCopy<Block>,
    bytes: &[u8],
) -> Result<Vec<Counted>, Stop>
    requires filled { AreFilled (parts_of task.now) programs.now }
    requires checkable { IsCheckable (parts_of task.now) }
    ensures { IfOk result (λ rows.
        AreRowsOf (subject_of (parts_of task.now)) bytes.now rows.items) }
{
    let mut checker = Checker::new(alloc, task, programs)?;
    let left = open(alloc, &mut checker, bytes)?;
    lines_counted(alloc, &mut checker, left)
}

/// Whether each line of the bytes of a proof file for a task is used, of which each line that makes a
/// term or a formula is named by a later one. It is false where a line is refused.
pub fn has_used_lines(alloc: Global, task: &Task, bytes: &[u8]) -> Result<bool, AllocError>
    requires { IsCheckable (parts_of task.now) }
    ensures { HasNamedLines bytes.now → IfOk result (λ used. used ≡ true →
        HasUsedLines (subject_of (parts_of task.now)) bytes.now) }
{
    let programs = fill_all(alloc, task)?;
    match rows_of(alloc, task, &programs, bytes) {
        Ok(rows) => are_used(alloc, rows),
        Err(Stop::Wrong) => Ok(false),
        Err(Stop::Memory) => Err(AllocError),
    }
}
