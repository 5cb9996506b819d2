// The plan of a task under a choice of templates, and the templates of its sites.
ghost use Rattle.std.specs.Prelude.{◌≡◌, ◌<◌, true, IfOk, IfErr, OnOk, OnErr};
ghost use Rattle.sm_syntax.specs.claim.ConflictFree.{Copy, program_of};
ghost use Rattle.sm_syntax.specs.text.Parts.{sort_of, task_of};
ghost use Rattle.sm_syntax.specs.text.Sorts.{IsWellSorted};
ghost use Rattle.sm_syntax.specs.trees.Programs.{declared_of};
ghost use Rattle.sm_term.specs.Tables.{trees_in, sorts_in};
ghost use Rattle.sm_term.specs.TableLaws.{ExtendsTable};
ghost use Rattle.sm_text.specs.Tasks.{parts_of};
ghost use Rattle.sm_plan.specs.ReadyStates.{AreFormsReady};
ghost use Rattle.sm_plan.specs.SortedStates.{IsTaskSorted};
ghost use Rattle.sm_plan.specs.Starts.{AreNumbered};
ghost use Rattle.sm_plan.specs.Views.{forms_in};
ghost use Rattle.sm_expand.specs.NumberedPlans.{IsPlanReady};
ghost use Rattle.sm_expand.specs.Views.{numbered_plan, plan_in};
ghost use Rattle.sm_sketch.specs.ChoiceViews.{choice_in};
ghost use Rattle.sm_sketch.specs.Errors.{TellsSketch};
ghost use Rattle.sm_sketch.specs.SketchSizes.{IsFit};
ghost use Rattle.sm_product.specs.Errors.{TellsTask};
ghost use Rattle.sm_product.specs.Laws.{HaveNoHole};
ghost use Rattle.sm_product.specs.ProductPlans as plain;
ghost use Rattle.sm_product.specs.ProductPlans.{site_count};
ghost use Rattle.sm_product.specs.Products.{sketch_of};
ghost use Rattle.sm_product.specs.Sizes as sizes;

use crate::counting::sites_within;
use crate::sketching::sketch_of;
use sm_expand::Plan;
use sm_plan::Formulas;
use sm_sketch::{ProductError, TemplateChoice, plan_with, sites};
use sm_term::TermTable;
use sm_text::Task;
use std::alloc::Global;
use std::rc::Rc;

/// The plan of a task under a choice of its templates, over a table of the task's declarations. It
/// is `TooMany` where the plan under the choice of all templates has no obligations, or has more
/// nodes, goals or facts than the limits allow: that doesn't depend on `choice`. After an error the
/// table has the terms that it had.
pub fn plan_of(
    alloc: Global,
    table: &mut TermTable,
    task: &Task,
    choice: &TemplateChoice,
) -> Result<Plan, ProductError>
    requires declared { sorts_in table.old ≡ sort_of (declared_of task.now.shared.decls) }
    requires numbered { AreNumbered (declared_of task.now.shared.decls) }
    requires no_hole { HaveNoHole (parts_of task.now) }
    requires sorted { IsTaskSorted (sort_of (declared_of task.now.shared.decls))
        (task_of (parts_of task.now)) }
    ensures ok { IfOk result (λ p. plan_in (sorts_in table.new) (trees_in table.new) p
        ≡ plain.plan_of (parts_of task.now) (choice_in choice.now)) }

    // It is made exactly where the plan of all templates is within the limits.
    ensures small { OnOk result (sizes.is_small (parts_of task.now) ≡ true) }
    ensures err { IfErr result (λ e. TellsTask e (parts_of task.now)) }

    // The formulas that it keeps are those of the table.
    ensures ready { IfOk result (λ p.
        IsPlanReady (sorts_in table.new) (trees_in table.new) (numbered_plan p)) }

    // Each term keeps its number.
    ensures widens { ExtendsTable table.old table.new }
    ensures unchanged { OnErr result (trees_in table.new ≡ trees_in table.old) }
{
    let len = table.len();
    match made_plan(alloc, table, task, choice) {
        Ok(plan) => Ok(plan),
        Err(refused) => {
            table.cut(len);
            Err(refused)
        }
    }
}

// The plan of a choice. An error leaves the terms that were made.
fn made_plan(
    alloc: Global,
    table: &mut TermTable,
    task: &Task,
    choice: &TemplateChoice,
) -> Result<Plan, ProductError>
    requires declared { sorts_in table.old ≡ sort_of (declared_of task.now.shared.decls) }
    requires numbered { AreNumbered (declared_of task.now.shared.decls) }
    requires no_hole { HaveNoHole (parts_of task.now) }
    requires sorted { IsTaskSorted (sort_of (declared_of task.now.shared.decls))
        (task_of (parts_of task.now)) }
    ensures ok { IfOk result (λ p. plan_in (sorts_in table.new) (trees_in table.new) p
        ≡ plain.plan_of (parts_of task.now) (choice_in choice.now)) }

    // It is made exactly where the plan of all templates is within the limits.
    ensures small { OnOk result (sizes.is_small (parts_of task.now) ≡ true) }
    ensures err { IfErr result (λ e. TellsTask e (parts_of task.now)) }

    // The formulas that it keeps are those of the table.
    ensures ready { IfOk result (λ p.
        IsPlanReady (sorts_in table.new) (trees_in table.new) (numbered_plan p)) }

    // Each term keeps its number.
    ensures widens { ExtendsTable table.old table.new }
{
    let sketch = sketch_of(alloc, table, task)?;
    // A task that isn't small has no plan.
    sites_within(alloc, table, task, &sketch)?;
    Ok(plan_with(alloc, &sketch, choice)?)
}

/// The templates of a site of a task, over a table of the task's declarations. Sites are numbered
/// in preorder, from 0. It is `TooMany` where the task's sketch is too large. After an error the
/// table has the terms that it had.
pub fn templates(
    alloc: Global,
    table: &mut TermTable,
    task: &Task,
    site: u64,
) -> Result<Rc<Formulas>, ProductError>
    requires declared { sorts_in table.old ≡ sort_of (declared_of task.now.shared.decls) }
    requires numbered { AreNumbered (declared_of task.now.shared.decls) }
    requires no_hole { HaveNoHole (parts_of task.now) }
    requires programs { (c : Copy) →
        IsWellSorted (sorts_in table.old) (program_of (task_of (parts_of task.now)) c) }
    requires site { site < site_count (parts_of task.now) }
    ensures ok { IfOk result (λ fs.
        forms_in (sorts_in table.new) (trees_in table.new) fs.value.list.items
        ≡ plain.templates (parts_of task.now) site) }

    // It is found exactly where the task's sketch isn't too large. Where that is, so is the plan of
    // all templates.
    ensures fits { OnOk result (IsFit (sketch_of (parts_of task.now))) }
    ensures err { IfErr result (λ e. TellsSketch e (sketch_of (parts_of task.now))) }
    ensures large { IfErr result (λ e. TellsTask e (parts_of task.now)) }

    // Their terms are those of the table, each part with the sort that it is used with.
    ensures ready { IfOk result (λ fs.
        AreFormsReady (sorts_in table.new) (trees_in table.new) fs.value.list.items) }

    // Each term keeps its number.
    ensures widens { ExtendsTable table.old table.new }
    ensures unchanged { OnErr result (trees_in table.new ≡ trees_in table.old) }
{
    let len = table.len();
    match found_templates(alloc, table, task, site) {
        Ok(fs) => Ok(fs),
        Err(refused) => {
            table.cut(len);
            Err(refused)
        }
    }
}

// The templates of each site. An error leaves the terms that were made.
fn found_templates(
    alloc: Global,
    table: &mut TermTable,
    task: &Task,
    site: u64,
) -> Result<Rc<Formulas>, ProductError>
    requires declared { sorts_in table.old ≡ sort_of (declared_of task.now.shared.decls) }
    requires numbered { AreNumbered (declared_of task.now.shared.decls) }
    requires no_hole { HaveNoHole (parts_of task.now) }
    requires programs { (c : Copy) →
        IsWellSorted (sorts_in table.old) (program_of (task_of (parts_of task.now)) c) }
    requires site { site < site_count (parts_of task.now) }
    ensures ok { IfOk result (λ fs.
        forms_in (sorts_in table.new) (trees_in table.new) fs.value.list.items
        ≡ plain.templates (parts_of task.now) site) }

    // It is found exactly where the task's sketch isn't too large. Where that is, so is the plan of
    // all templates.
    ensures fits { OnOk result (IsFit (sketch_of (parts_of task.now))) }
    ensures err { IfErr result (λ e. TellsSketch e (sketch_of (parts_of task.now))) }
    ensures large { IfErr result (λ e. TellsTask e (parts_of task.now)) }

    // Their terms are those of the table, each part with the sort that it is used with.
    ensures ready { IfOk result (λ fs.
        AreFormsReady (sorts_in table.new) (trees_in table.new) fs.value.list.items) }

    // Each term keeps its number.
    ensures widens { ExtendsTable table.old table.new }
{
    let sketch = sketch_of(alloc, table, task)?;
    let mut list = sites(alloc, &sketch)?;
    Ok(list.swap_remove(site as usize))
}
