// Whether the plan of all templates is within the limits.
ghost use Rattle.std.specs.Prelude.{◌≡◌, ◌+◌, nat_le, List, Ok, IfOk, OnErr};
ghost use Rattle.sm_syntax.specs.text.Parts.{sort_of, task_of};
ghost use Rattle.sm_syntax.specs.text.Sorts.{Sorts};
ghost use Rattle.sm_syntax.specs.trees.Programs.{declared_of};
ghost use Rattle.sm_term.specs.Tables.{trees_in, sorts_in};
ghost use Rattle.sm_term.specs.TableLaws.{ExtendsTable};
ghost use Rattle.sm_term.specs.Terms.{Tree};
ghost use Rattle.sm_text.specs.Tasks.{parts_of};
ghost use Rattle.sm_task.specs.Filling.{AreFilled};
ghost use Rattle.sm_plan.specs.Plans.{obligations};
ghost use Rattle.sm_plan.specs.SortedStates.{IsTaskSorted};
ghost use Rattle.sm_plan.specs.Starts.{AreNumbered};
ghost use Rattle.sm_expand.specs.NumberedPlans.{IsPlanReady};
ghost use Rattle.sm_expand.specs.Views.{numbered_plan, plan_in, dues_in};
ghost use Rattle.sm_sketch.specs.ChoiceViews.{choice_in};
ghost use Rattle.sm_sketch.specs.SketchViews.{sketch_in, IsSketchReady};
ghost use Rattle.sm_product.specs.ProductPlans.{full_choice};
ghost use Rattle.sm_product.specs.Products.{sketch_of};
ghost use Rattle.sm_product.specs.Sizes as plain;
ghost use Rattle.sm_product.specs.Sizes.{goals_in, facts_in};

use crate::asking::obligations_of;
use sm_expand::{Due, Plan, PlanFault};
use sm_sketch::{Sketch, TemplateChoice, plan_with};
use sm_syntax::{Block, PerCopy};
use sm_task::fill_all;
use sm_term::TermTable;
use sm_text::Task;
use std::alloc::{AllocError, Global};

// Whether there are at most 200,000 nodes and goals.
fn are_few_goals(nodes: u64, dues: &[Due]) -> bool
    ensures { (sorts : Sorts) (trees : List Tree) →
        result ≡ nat_le (nodes + goals_in (dues_in sorts trees dues.now)) 200000 }
{
    if nodes > 200_000 {
        return false;
    }
    let mut count = nodes;
    for due in dues {
        let more = due.targets.list.as_slice().len() as u64;
        if more > 200_000 - count {
            return false;
        }
        count += more;
    }
    true
}

// Whether there are at most 10,000,000 facts.
fn are_few_facts(dues: &[Due]) -> bool
    ensures { (sorts : Sorts) (trees : List Tree) →
        result ≡ nat_le (facts_in (dues_in sorts trees dues.now)) 10000000 }
{
    let mut count = 0;
    for due in dues {
        let more = due.facts.list.as_slice().len() as u64;
        if more > 10_000_000 - count {
            return false;
        }
        count += more;
    }
    true
}

// Whether obligations are within the limits, with so many nodes.
fn are_within(nodes: u64, dues: &[Due]) -> bool
    ensures { (sorts : Sorts) (trees : List Tree) →
        result ≡ plain.is_within nodes (Ok (dues_in sorts trees dues.now)) }
{
    are_few_goals(nodes, dues) && are_few_facts(dues)
}

/// Whether the plan of a task under the choice of all templates has obligations and is within the
/// limits: at most 200,000 nodes and goals, and at most 10,000,000 facts. After an error the table
/// has the terms that it had.
pub fn is_small(
    alloc: Global,
    table: &mut TermTable,
    task: &Task,
    programs: &PerCopy<Block>,
    sketch: &Sketch,
    full: &TemplateChoice,
) -> Result<bool, AllocError>
    requires declared { sorts_in table.old ≡ sort_of (declared_of task.now.shared.decls) }
    requires numbered { AreNumbered (declared_of task.now.shared.decls) }
    requires sorted { IsTaskSorted (sort_of (declared_of task.now.shared.decls))
        (task_of (parts_of task.now)) }
    requires filled { AreFilled (parts_of task.now) programs.now }
    requires sketch { sketch_in (sorts_in table.old) (trees_in table.old) sketch.now
        ≡ sketch_of (parts_of task.now) }
    requires ready { IsSketchReady (sorts_in table.old) (trees_in table.old) sketch.now }
    requires full { choice_in full.now ≡ full_choice (parts_of task.now) }
    ensures small { IfOk result (λ b. b ≡ plain.is_small (parts_of task.now)) }

    // Each term keeps its number.
    ensures widens { ExtendsTable table.old table.new }
    ensures err { OnErr result (trees_in table.new ≡ trees_in table.old) }
{
    let len = table.len();
    match is_within_limits(alloc, table, task, programs, sketch, full) {
        Ok(answer) => Ok(answer),
        Err(refused) => {
            table.cut(len);
            Err(refused)
        }
    }
}

// Whether the plan of a task's sketch under the choice of all templates is within the limits.
pub(crate) fn is_task_small(
    alloc: Global,
    table: &mut TermTable,
    task: &Task,
    sketch: &Sketch,
    full: &TemplateChoice,
) -> Result<bool, AllocError>
    requires declared { sorts_in table.old ≡ sort_of (declared_of task.now.shared.decls) }
    requires numbered { AreNumbered (declared_of task.now.shared.decls) }
    requires sorted { IsTaskSorted (sort_of (declared_of task.now.shared.decls))
        (task_of (parts_of task.now)) }
    requires sketch { sketch_in (sorts_in table.old) (trees_in table.old) sketch.now
        ≡ sketch_of (parts_of task.now) }
    requires ready { IsSketchReady (sorts_in table.old) (trees_in table.old) sketch.now }
    requires full { choice_in full.now ≡ full_choice (parts_of task.now) }
    ensures small { IfOk result (λ b. b ≡ plain.is_small (parts_of task.now)) }
    ensures widens { ExtendsTable table.old table.new }
{
    let programs = fill_all(alloc, task)?;
    is_small(alloc, table, task, &programs, sketch, full)
}

// Whether the plan is small. An error leaves the terms that were made.
fn is_within_limits(
    alloc: Global,
    table: &mut TermTable,
    task: &Task,
    programs: &PerCopy<Block>,
    sketch: &Sketch,
    full: &TemplateChoice,
) -> Result<bool, AllocError>
    requires declared { sorts_in table.old ≡ sort_of (declared_of task.now.shared.decls) }
    requires numbered { AreNumbered (declared_of task.now.shared.decls) }
    requires sorted { IsTaskSorted (sort_of (declared_of task.now.shared.decls))
        (task_of (parts_of task.now)) }
    requires filled { AreFilled (parts_of task.now) programs.now }
    requires sketch { sketch_in (sorts_in table.old) (trees_in table.old) sketch.now
        ≡ sketch_of (parts_of task.now) }
    requires ready { IsSketchReady (sorts_in table.old) (trees_in table.old) sketch.now }
    requires full { choice_in full.now ≡ full_choice (parts_of task.now) }
    ensures small { IfOk result (λ b. b ≡ plain.is_small (parts_of task.now)) }

    // Each term keeps its number.
    ensures widens { ExtendsTable table.old table.new }
{
    let plan = plan_with(alloc, sketch, full)?;
    let nodes = sketch.extent.nodes;
    is_plan_within(alloc, table, task, programs, &plan, nodes)
}

// Whether a plan with so many nodes has obligations that are within the limits.
fn is_plan_within(
    alloc: Global,
    table: &mut TermTable,
    task: &Task,
    programs: &PerCopy<Block>,
    plan: &Plan,
    nodes: u64,
) -> Result<bool, AllocError>
    requires declared { sorts_in table.old ≡ sort_of (declared_of task.now.shared.decls) }
    requires numbered { AreNumbered (declared_of task.now.shared.decls) }
    requires sorted { IsTaskSorted (sort_of (declared_of task.now.shared.decls))
        (task_of (parts_of task.now)) }
    requires filled { AreFilled (parts_of task.now) programs.now }
    requires plan { IsPlanReady (sorts_in table.old) (trees_in table.old) (numbered_plan plan.now) }
    ensures within { let p = plan_in (sorts_in table.old) (trees_in table.old) plan.now in
        IfOk result (λ b. b ≡ plain.is_within nodes (obligations (task_of (parts_of task.now)) p)) }

    // Each term keeps its number.
    ensures widens { ExtendsTable table.old table.new }
{
    match obligations_of(alloc, table, task, programs, plan) {
        Ok(dues) => Ok(are_within(nodes, &dues.list)),
        Err(PlanFault::Wrong { .. }) => Ok(false),
        Err(PlanFault::Deep) => Ok(false),
        Err(PlanFault::Memory) => Err(AllocError),
    }
}
