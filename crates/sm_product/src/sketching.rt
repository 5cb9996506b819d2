// The sketch of a task.
ghost use Rattle.std.specs.Prelude.{◌≡◌, ◌≤◌, IfOk, IfErr, OnOk, OnErr};
ghost use Rattle.sm_syntax.specs.claim.ConflictFree.{Copy, program_of};
ghost use Rattle.sm_syntax.specs.text.Parts.{sort_of, task_of};
ghost use Rattle.sm_syntax.specs.text.Sorts.{IsWellSorted};
ghost use Rattle.sm_syntax.specs.trees.Programs.{declared_of};
ghost use Rattle.sm_term.specs.Tables.{trees_in, sorts_in};
ghost use Rattle.sm_term.specs.TableLaws.{ExtendsTable};
ghost use Rattle.sm_text.specs.Tasks.{parts_of};
ghost use Rattle.sm_plan.specs.Starts.{AreNumbered};
ghost use Rattle.sm_sketch.specs.Errors.{TellsSketch};
ghost use Rattle.sm_sketch.specs.Extents.{TellsExtent};
ghost use Rattle.sm_sketch.specs.SketchSizes.{IsFit};
ghost use Rattle.sm_sketch.specs.SketchViews.{sketch_in, IsSketchReady};
ghost use Rattle.sm_product.specs.Drawn.{IsDrawn};
ghost use Rattle.sm_product.specs.Laws.{HaveNoHole};
ghost use Rattle.sm_product.specs.Products.{sketch_of};

use crate::product::ProductContext;
use sm_moves::{FilledBlock, statements};
use sm_sketch::{Extent, ProductError, Sketch, ends};
use sm_task::fill_all;
use sm_template::site_of;
use sm_term::TermTable;
use sm_text::Task;
use std::alloc::Global;

/// The sketch of a task, over a table of the task's declarations. It isn't made where it has more
/// than 200,000 nodes or more than 1,000 branching ones one under another. After an error the table
/// has the terms that it had.
pub fn sketch_of(alloc: Global, table: &mut TermTable, task: &Task) -> Result<Sketch, ProductError>
    requires declared { sorts_in table.old ≡ sort_of (declared_of task.now.shared.decls) }
    requires numbered { AreNumbered (declared_of task.now.shared.decls) }
    requires no_hole { HaveNoHole (parts_of task.now) }
    requires programs { (c : Copy) →
        IsWellSorted (sorts_in table.old) (program_of (task_of (parts_of task.now)) c) }
    ensures ok { IfOk result (λ s. sketch_in (sorts_in table.new) (trees_in table.new) s
        ≡ sketch_of (parts_of task.now)) }

    // It is made exactly where it isn't too large.
    ensures fits { OnOk result (IsFit (sketch_of (parts_of task.now))) }
    ensures err { IfErr result (λ e. TellsSketch e (sketch_of (parts_of task.now))) }

    // Its templates are those of the table.
    ensures ready { IfOk result (IsSketchReady (sorts_in table.new) (trees_in table.new)) }

    // Each term keeps its number.
    ensures widens { ExtendsTable table.old table.new }
    ensures unchanged { OnErr result (trees_in table.new ≡ trees_in table.old) }
{
    let len = table.len();
    match drawn_sketch(alloc, table, task) {
        Ok(sketch) => Ok(sketch),
        Err(refused) => {
            table.cut(len);
            Err(refused)
        }
    }
}

// The sketch of a task. An error leaves the terms that were made.
fn drawn_sketch(alloc: Global, table: &mut TermTable, task: &Task) -> Result<Sketch, ProductError>
    requires declared { sorts_in table.old ≡ sort_of (declared_of task.now.shared.decls) }
    requires numbered { AreNumbered (declared_of task.now.shared.decls) }
    requires no_hole { HaveNoHole (parts_of task.now) }
    requires programs { (c : Copy) →
        IsWellSorted (sorts_in table.old) (program_of (task_of (parts_of task.now)) c) }
    ensures ok { IfOk result (λ s. sketch_in (sorts_in table.new) (trees_in table.new) s
        ≡ sketch_of (parts_of task.now)) }

    // It is made exactly where it isn't too large.
    ensures fits { OnOk result (IsFit (sketch_of (parts_of task.now))) }
    ensures err { IfErr result (λ e. TellsSketch e (sketch_of (parts_of task.now))) }

    // Its templates are those of the table.
    ensures ready { IfOk result (IsSketchReady (sorts_in table.new) (trees_in table.new)) }

    // Each term keeps its number.
    ensures widens { ExtendsTable table.old table.new }
{
    let sketch = drawn_product(alloc, table, task)?;
    within_limits(sketch.extent)?;
    Ok(sketch)
}

// The product of all copies of a task, and then the end. An error leaves the terms that were made.
fn drawn_product(alloc: Global, table: &mut TermTable, task: &Task) -> Result<Sketch, ProductError>
    requires declared { sorts_in table.old ≡ sort_of (declared_of task.now.shared.decls) }
    requires numbered { AreNumbered (declared_of task.now.shared.decls) }
    requires no_hole { HaveNoHole (parts_of task.now) }
    requires programs { (c : Copy) →
        IsWellSorted (sorts_in table.old) (program_of (task_of (parts_of task.now)) c) }
    ensures drawn { IsDrawn table.new (sketch_of (parts_of task.now)) result }
    ensures widens { ExtendsTable table.old table.new }
{
    let site = site_of(alloc, &task.shared.decls, &task.lists)?;
    let programs = fill_all(alloc, task)?;
    let context = ProductContext { task, site };
    let shared = FilledBlock {
        shared: &task.shared.body,
        filled: statements(&programs),
    };
    context.product_block(alloc, table, &shared, 15, ends(alloc))
}

// Refuses what is too large. A node is counted before it is put, so that no sketch that is drawn is.
fn within_limits(extent: Extent) -> Result<(), ProductError>
    ensures nodes { OnOk result (extent.nodes ≤ 200000) }
    ensures branches { OnOk result (extent.branches ≤ 1000) }
    ensures err { IfErr result (λ e. TellsExtent e extent.nodes extent.branches) }
{
    if extent.nodes > 200_000 || extent.branches > 1_000 {
        return Err(ProductError::TooMany);
    }
    Ok(())
}
