// What the plan of a task decides.
ghost use Rattle.std.specs.Prelude.{◌≡◌, true, false, IfOk, MatchOption, MatchResult};
ghost use Rattle.sm_syntax.specs.text.Parts.{sort_of, task_of};
ghost use Rattle.sm_syntax.specs.trees.Programs.{declared_of};
ghost use Rattle.sm_term.specs.Tables.{trees_in, sorts_in};
ghost use Rattle.sm_term.specs.TableLaws.{ExtendsTable};
ghost use Rattle.sm_text.specs.Tasks.{parts_of};
ghost use Rattle.sm_task.specs.Filling.{AreFilled};
ghost use Rattle.sm_plan.specs.SortedStates.{IsTaskSorted};
ghost use Rattle.sm_plan.specs.Starts.{AreNumbered};
ghost use Rattle.sm_expand.specs.NumberedPlans.{IsPlanReady};
ghost use Rattle.sm_expand.specs.Views.{numbered_plan, plan_in};
ghost use Rattle.sm_sketch.specs.ChoiceViews.{choice_in};
ghost use Rattle.sm_sketch.specs.SketchViews.{sketch_in, IsSketchReady};
ghost use Rattle.sm_product.specs.ProductPlans.{full_choice, plan_of};
ghost use Rattle.sm_product.specs.Products as products;
ghost use Rattle.sm_product.specs.Sizes as sizes;
ghost use Rattle.sm_houdini.specs.Closing.{closing, Knows};
ghost use Rattle.sm_houdini.specs.Rounds.{kept};
ghost use Rattle.sm_houdini.specs.Searchable.{IsSearchable, TellsPlan, TellsStop, Accepts};
ghost use Rattle.sm_houdini.specs.Views.{IsProof};

use crate::dues::asked_by;
use crate::ending::{Stop, end_all, stopped};
use crate::goal_jobs::Crew;
use crate::outcome::Outcome;
use crate::product::{Product, Subject};
use crate::rounds::settled;
use crate::sites::{Sites, sites_of};
use sm_expand::Plan;
use sm_goals::Proof;
use sm_par::Gate;
use sm_product::{is_small, sketch_of};
use sm_sided::CertTrees;
use sm_sketch::{ProductError, Sketch, TemplateChoice, plan_with};
use sm_solve::Reach;
use sm_syntax::{Block, PerCopy};
use sm_term::TermTable;
use sm_text::Task;
use std::alloc::{AllocError, Global};
use std::thread::Threads;

// The certificates of all goals of the plan under the templates that are kept, or why one has none.
fn certified<R: Threads + Sync, G: Gate>(
    crew: &Crew<'_, R, G>,
    alloc: Global,
    table: &mut TermTable,
    task: &Task,
    product: &Product,
    plan: &Plan,
    reach: Reach,
) -> Result<Result<CertTrees, Stop>, AllocError>
    requires knows { Knows table.old task.now product.now }
    requires searchable { IsSearchable (parts_of task.now) }
    requires small { sizes.is_small (parts_of task.now) ≡ true }
    requires made { let closes = closing (sort_of (declared_of task.now.shared.decls)) reach in
        plan_in (sorts_in table.old) (trees_in table.old) plan.now
        ≡ plan_of (parts_of task.now) (kept closes (parts_of task.now)) }
    requires ready { IsPlanReady (sorts_in table.old) (trees_in table.old)
        (numbered_plan plan.now) }
    ensures ends { IfOk result (λ r. MatchResult r
        (Accepts (parts_of task.now) reach table.new plan.now)
        (TellsStop (parts_of task.now) reach)) }
    ensures widens { ExtendsTable table.old table.new }
{
    // A small plan has obligations.
    let dues = asked_by(alloc, table, task, product, plan)?;
    let mut list = Vec::new(alloc);
    match end_all(crew, alloc, table, &dues.list, &mut list, reach)? {
        Some(stop) => Ok(Err(stop)),
        None => Ok(Ok(CertTrees { list })),
    }
}

// The plan under the templates that are kept, with its certificates, or why there is none.
fn ended<R: Threads + Sync, G: Gate>(
    crew: &Crew<'_, R, G>,
    alloc: Global,
    table: &mut TermTable,
    task: &Task,
    product: &Product,
    choice: &TemplateChoice,
    reach: Reach,
) -> Result<Result<(Plan, CertTrees), Stop>, AllocError>
    requires knows { Knows table.old task.now product.now }
    requires searchable { IsSearchable (parts_of task.now) }
    requires small { sizes.is_small (parts_of task.now) ≡ true }
    requires kept { choice_in choice.now
        ≡ kept (closing (sort_of (declared_of task.now.shared.decls)) reach) (parts_of task.now) }
    ensures ends { IfOk result (λ r. MatchResult r
        (λ p. Accepts (parts_of task.now) reach table.new p.0 p.1)
        (TellsStop (parts_of task.now) reach)) }
    ensures widens { ExtendsTable table.old table.new }
{
    let plan = plan_with(alloc, &product.sketch, choice)?;
    match certified(crew, alloc, table, task, product, &plan, reach)? {
        Ok(trees) => Ok(Ok((plan, trees))),
        Err(stop) => Ok(Err(stop)),
    }
}

// What the plan under the templates that are kept decides.
fn decided<R: Threads + Sync, G: Gate>(
    crew: &Crew<'_, R, G>,
    alloc: Global,
    table: TermTable,
    task: &Task,
    product: &Product,
    choice: &TemplateChoice,
    reach: Reach,
) -> Result<Outcome, AllocError>
    requires knows { Knows table task.now product.now }
    requires searchable { IsSearchable (parts_of task.now) }
    requires small { sizes.is_small (parts_of task.now) ≡ true }
    requires kept { choice_in choice.now
        ≡ kept (closing (sort_of (declared_of task.now.shared.decls)) reach) (parts_of task.now) }
    ensures tells { IfOk result (TellsPlan (parts_of task.now) reach) }
    ensures proof { IfOk result (IsProof (parts_of task.now)) }
{
    let mut table = table;
    match ended(crew, alloc, &mut table, task, product, choice, reach)? {
        Ok((plan, trees)) => Ok(Outcome::Accepted(Proof { table, plan, trees })),
        Err(stop) => Ok(stopped(stop)),
    }
}

// The templates that are kept, where the plan of all is small.
fn kept_if_small<R: Threads + Sync, G: Gate>(
    crew: &Crew<'_, R, G>,
    alloc: Global,
    table: &mut TermTable,
    task: &Task,
    product: &Product,
    full: TemplateChoice,
    reach: Reach,
) -> Result<Option<TemplateChoice>, AllocError>
    requires knows { Knows table.old task.now product.now }
    requires full { choice_in full ≡ full_choice (parts_of task.now) }
    ensures kept { let closes = closing (sort_of (declared_of task.now.shared.decls)) reach in
        IfOk result (λ r. MatchOption r
        (sizes.is_small (parts_of task.now) ≡ false)
        (λ c. (sizes.is_small (parts_of task.now) ≡ true)
        × (choice_in c ≡ kept closes (parts_of task.now)))) }
    ensures widens { ExtendsTable table.old table.new }
{
    if !is_small(
        alloc,
        table,
        task,
        &product.programs,
        &product.sketch,
        &full,
    )? {
        return Ok(None);
    }
    let subject = Subject { task, product };
    Ok(Some(settled(crew, alloc, table, &subject, full, reach)?))
}

// What the plan under the templates that are kept decides, where the plan of all is small.
fn decided_if_small<R: Threads + Sync, G: Gate>(
    crew: &Crew<'_, R, G>,
    alloc: Global,
    table: TermTable,
    task: &Task,
    product: &Product,
    full: TemplateChoice,
    reach: Reach,
) -> Result<Outcome, AllocError>
    requires knows { Knows table task.now product.now }
    requires searchable { IsSearchable (parts_of task.now) }
    requires full { choice_in full ≡ full_choice (parts_of task.now) }
    ensures tells { IfOk result (TellsPlan (parts_of task.now) reach) }
    ensures proof { IfOk result (IsProof (parts_of task.now)) }
{
    let mut table = table;
    match kept_if_small(crew, alloc, &mut table, task, product, full, reach)? {
        Some(kept) => decided(crew, alloc, table, task, product, &kept, reach),
        None => Ok(Outcome::TooMany),
    }
}

// What the plan of a sketch decides.
fn decided_by<R: Threads + Sync, G: Gate>(
    crew: &Crew<'_, R, G>,
    alloc: Global,
    table: TermTable,
    task: &Task,
    programs: PerCopy<Block>,
    sketch: Sketch,
    reach: Reach,
) -> Result<Outcome, AllocError>
    requires searchable { IsSearchable (parts_of task.now) }
    requires declared { sorts_in table ≡ sort_of (declared_of task.now.shared.decls) }
    requires numbered { AreNumbered (declared_of task.now.shared.decls) }
    requires sorted { IsTaskSorted (sort_of (declared_of task.now.shared.decls))
        (task_of (parts_of task.now)) }
    requires filled { AreFilled (parts_of task.now) programs }
    requires sketch { sketch_in (sorts_in table) (trees_in table) sketch
        ≡ products.sketch_of (parts_of task.now) }
    requires ready { IsSketchReady (sorts_in table) (trees_in table) sketch }
    ensures tells { IfOk result (TellsPlan (parts_of task.now) reach) }
    ensures proof { IfOk result (IsProof (parts_of task.now)) }
{
    let Sites { owners, full } = sites_of(alloc, &sketch)?;
    let product = Product {
        programs,
        sketch,
        owners,
    };
    decided_if_small(crew, alloc, table, task, &product, full, reach)
}

/// What the plan of a task decides.
pub(crate) fn by_plan<R: Threads + Sync, G: Gate>(
    crew: &Crew<'_, R, G>,
    alloc: Global,
    task: &Task,
    programs: PerCopy<Block>,
    reach: Reach,
) -> Result<Outcome, AllocError>
    requires searchable { IsSearchable (parts_of task.now) }
    requires sorted { IsTaskSorted (sort_of (declared_of task.now.shared.decls))
        (task_of (parts_of task.now)) }
    requires numbered { AreNumbered (declared_of task.now.shared.decls) }
    requires filled { AreFilled (parts_of task.now) programs }
    ensures tells { IfOk result (TellsPlan (parts_of task.now) reach) }
    ensures proof { IfOk result (IsProof (parts_of task.now)) }
{
    let mut table = TermTable::new(alloc, &task.shared.decls)?;
    match sketch_of(alloc, &mut table, task) {
        Ok(sketch) => decided_by(crew, alloc, table, task, programs, sketch, reach),
        Err(ProductError::TooMany) => Ok(Outcome::TooMany),
        Err(ProductError::Memory) => Err(AllocError),
    }
}
