// What a plan asks of a task.
ghost use Rattle.std.specs.Prelude.{◌≡◌, Ok, IfOk};
ghost use Rattle.sm_syntax.specs.text.Parts.{sort_of, task_of};
ghost use Rattle.sm_syntax.specs.trees.Programs.{declared_of};
ghost use Rattle.sm_term.specs.Tables.{trees_in, sorts_in};
ghost use Rattle.sm_term.specs.TableLaws.{ExtendsTable};
ghost use Rattle.sm_text.specs.Tasks.{parts_of};
ghost use Rattle.sm_task.specs.Filling.{AreFilled};
ghost use Rattle.sm_plan.specs.Plans.{obligations};
ghost use Rattle.sm_plan.specs.SortedStates.{IsTaskSorted};
ghost use Rattle.sm_plan.specs.Starts.{AreNumbered};
ghost use Rattle.sm_expand.specs.NumberedPlans.{IsPlanReady};
ghost use Rattle.sm_expand.specs.Views.{numbered_plan, plan_in, dues_in, AreDuesReady};

use crate::refusal::Refusal;
use sm_expand::{Obligations, Plan, expand};
use sm_syntax::{Block, PerCopy};
use sm_task::Task;
use sm_term::TermTable;
use std::alloc::Global;

/// The obligations of a plan for a task with these programs.
pub(crate) fn dues_of(
    alloc: Global,
    table: &mut TermTable,
    task: &Task,
    programs: &PerCopy<Block>,
    plan: &Plan,
) -> Result<Obligations, Refusal>
    requires declared { sorts_in table.old ≡ sort_of (declared_of task.now.shared.decls) }
    requires numbered { AreNumbered (declared_of task.now.shared.decls) }
    requires sorted { let t = parts_of task.now in IsTaskSorted (sort_of t.declared) (task_of t) }
    requires filled { AreFilled (parts_of task.now) programs.now }
    requires plan { IsPlanReady (sorts_in table.old) (trees_in table.old) (numbered_plan plan.now) }
    ensures asked { let p = plan_in (sorts_in table.old) (trees_in table.old) plan.now in
        IfOk result (λ o. obligations (task_of (parts_of task.now)) p
        ≡ Ok (dues_in (sorts_in table.new) (trees_in table.new) o.list.items)) }
    ensures ready { IfOk result (λ o.
        AreDuesReady (sorts_in table.new) (trees_in table.new) o.list.items) }
    ensures widens { ExtendsTable table.old table.new }
{
    let shared = &task.shared;
    let assumed = task.assumed.as_ref();
    let dues = expand(
        alloc,
        table,
        &shared.decls,
        &shared.outputs,
        assumed,
        programs,
        plan,
    )?;
    Ok(dues)
}
