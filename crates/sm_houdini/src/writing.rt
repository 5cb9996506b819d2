// The proof file of a search.
ghost use Rattle.std.specs.Prelude.{◌≡◌, IfOk};
ghost use Rattle.sm_syntax.specs.text.Parts.{sort_of, task_of};
ghost use Rattle.sm_syntax.specs.trees.Programs.{declared_of};
ghost use Rattle.sm_text.specs.Tasks.{parts_of};
ghost use Rattle.sm_plan.specs.SortedStates.{IsTaskSorted};
ghost use Rattle.sm_plan.specs.Starts.{AreNumbered};
ghost use Rattle.sm_proof.specs.Verdicts.{Passes};
ghost use Rattle.sm_write.specs.Versions.{HasVersion};
ghost use Rattle.sm_goals.specs.Whole.{IsWhole};

use sm_goals::Proof;
use sm_text::Task;
use sm_write::write_proof;
use std::alloc::{AllocError, Global};

/// The text of the proof file of a task that is accepted.
pub fn proof_text(alloc: Global, task: &Task, proof: Proof) -> Result<Vec<u8>, AllocError>
    requires sorted { let t = parts_of task.now in IsTaskSorted (sort_of t.declared) (task_of t) }
    requires numbered { AreNumbered (declared_of task.now.shared.decls) }
    requires proof { IsWhole (parts_of task.now) proof }
    ensures passes { IfOk result (λ text. Passes (parts_of task.now) text.items) }
    ensures version { IfOk result (λ text. HasVersion (parts_of task.now) text.items) }
{
    let Proof { table, plan, trees } = proof;
    let mut table = table;
    write_proof(alloc, &mut table, task, &plan, &trees.list)
}
