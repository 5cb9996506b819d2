// How many sites a task has.
ghost use Rattle.std.specs.Prelude.{◌≡◌, true, IfOk, IfErr, OnOk};
ghost use Rattle.sm_syntax.specs.text.Parts.{sort_of, task_of};
ghost use Rattle.sm_syntax.specs.trees.Programs.{declared_of};
ghost use Rattle.sm_text.specs.Tasks.{parts_of};
ghost use Rattle.sm_plan.specs.SortedStates.{IsTaskSorted};
ghost use Rattle.sm_plan.specs.Starts.{AreNumbered};
ghost use Rattle.sm_sketch.specs.SketchViews.{sketch_in, IsSketchReady};
ghost use Rattle.sm_term.specs.Tables.{trees_in, sorts_in};
ghost use Rattle.sm_term.specs.TableLaws.{ExtendsTable};
ghost use Rattle.sm_product.specs.Errors.{TellsTask};
ghost use Rattle.sm_product.specs.Laws.{HaveNoHole};
ghost use Rattle.sm_product.specs.ProductPlans.{site_count};
ghost use Rattle.sm_product.specs.Products as products;
ghost use Rattle.sm_product.specs.Sizes as sizes;

use crate::limits::is_task_small;
use crate::sketching::sketch_of;
use sm_sketch::{ProductError, Sketch, all_templates};
use sm_term::TermTable;
use sm_text::Task;
use std::alloc::Global;

/// How many sites a task has: the loops and the blocks of its product, where what is kept is chosen
/// among templates. It is `TooMany` where the plan under the choice of all templates has no
/// obligations, or has more nodes, goals or facts than the limits allow.
pub fn sites(alloc: Global, task: &Task) -> Result<u64, ProductError>
    requires numbered { AreNumbered (declared_of task.now.shared.decls) }
    requires no_hole { HaveNoHole (parts_of task.now) }
    requires sorted { IsTaskSorted (sort_of (declared_of task.now.shared.decls))
        (task_of (parts_of task.now)) }
    ensures ok { IfOk result (λ n. n ≡ site_count (parts_of task.now)) }

    // They are counted exactly where the plan of all templates is within the limits.
    ensures small { OnOk result (sizes.is_small (parts_of task.now) ≡ true) }
    ensures err { IfErr result (λ e. TellsTask e (parts_of task.now)) }
{
    let mut table = TermTable::new(alloc, &task.shared.decls)?;
    let sketch = sketch_of(alloc, &mut table, task)?;
    sites_within(alloc, &mut table, task, &sketch)
}

/// How many sites the sketch of a task has, where the plan of all its templates is within the limits.
pub(crate) fn sites_within(
    alloc: Global,
    table: &mut TermTable,
    task: &Task,
    sketch: &Sketch,
) -> Result<u64, ProductError>
    requires declared { sorts_in table.old ≡ sort_of (declared_of task.now.shared.decls) }
    requires numbered { AreNumbered (declared_of task.now.shared.decls) }
    requires sorted { IsTaskSorted (sort_of (declared_of task.now.shared.decls))
        (task_of (parts_of task.now)) }
    requires sketch { sketch_in (sorts_in table.old) (trees_in table.old) sketch.now
        ≡ products.sketch_of (parts_of task.now) }
    requires ready { IsSketchReady (sorts_in table.old) (trees_in table.old) sketch.now }
    ensures ok { IfOk result (λ n. n ≡ site_count (parts_of task.now)) }
    ensures small { OnOk result (sizes.is_small (parts_of task.now) ≡ true) }
    ensures err { IfErr result (λ e. TellsTask e (parts_of task.now)) }
    ensures widens { ExtendsTable table.old table.new }
{
    let full = all_templates(alloc, sketch)?;
    if !is_task_small(alloc, table, task, sketch, &full)? {
        return Err(ProductError::TooMany);
    }
    Ok(full.sites.len() as u64)
}
