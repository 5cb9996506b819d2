// The obligations of a plan, and of a choice.
ghost use Rattle.std.specs.Prelude.{◌≡◌, IfOk};
ghost use Rattle.sm_syntax.specs.text.Parts.{task_of};
ghost use Rattle.sm_term.specs.Tables.{trees_in, sorts_in};
ghost use Rattle.sm_term.specs.TableLaws.{ExtendsTable};
ghost use Rattle.sm_text.specs.Tasks.{parts_of};
ghost use Rattle.sm_plan.specs.Plans.{obligations};
ghost use Rattle.sm_expand.specs.NumberedPlans.{IsPlanReady};
ghost use Rattle.sm_expand.specs.Views.{numbered_plan, plan_in, dues_in, AreDuesReady};
ghost use Rattle.sm_sketch.specs.ChoiceViews.{choice_in};
ghost use Rattle.sm_houdini.specs.Closing.{Knows};
ghost use Rattle.sm_houdini.specs.Rounds as plain;

use crate::product::Product;
use sm_expand::{Obligations, Plan, PlanFault};
use sm_product::obligations_of;
use sm_sketch::{TemplateChoice, plan_with};
use sm_term::TermTable;
use sm_text::Task;
use std::alloc::{AllocError, Global};

// The obligations of a plan, none where it has none.
pub(crate) fn asked_by(
    alloc: Global,
    table: &mut TermTable,
    task: &Task,
    product: &Product,
    plan: &Plan,
) -> Result<Obligations, AllocError>
    requires knows { Knows table.old task.now product.now }
    requires ready { IsPlanReady (sorts_in table.old) (trees_in table.old)
        (numbered_plan plan.now) }
    ensures dues { let p = plan_in (sorts_in table.old) (trees_in table.old) plan.now in
        IfOk result (λ o. dues_in (sorts_in table.new) (trees_in table.new) o.list.items
        ≡ plain.dues_in (obligations (task_of (parts_of task.now)) p)) }
    ensures ready { IfOk result (λ o.
        AreDuesReady (sorts_in table.new) (trees_in table.new) o.list.items) }
    ensures widens { ExtendsTable table.old table.new }
{
    match obligations_of(alloc, table, task, &product.programs, plan) {
        Ok(dues) => Ok(dues),
        Err(PlanFault::Memory) => Err(AllocError),
        Err(_) => Ok(Obligations {
            list: Vec::new(alloc),
        }),
    }
}

// The obligations under a choice, none where its plan has none.
pub(crate) fn dues_of(
    alloc: Global,
    table: &mut TermTable,
    task: &Task,
    product: &Product,
    choice: &TemplateChoice,
) -> Result<Obligations, AllocError>
    requires knows { Knows table.old task.now product.now }
    ensures dues { IfOk result (λ o. dues_in (sorts_in table.new) (trees_in table.new) o.list.items
        ≡ plain.dues_of (parts_of task.now) (choice_in choice.now)) }
    ensures ready { IfOk result (λ o.
        AreDuesReady (sorts_in table.new) (trees_in table.new) o.list.items) }
    ensures widens { ExtendsTable table.old table.new }
{
    let plan = plan_with(alloc, &product.sketch, choice)?;
    asked_by(alloc, table, task, product, &plan)
}
