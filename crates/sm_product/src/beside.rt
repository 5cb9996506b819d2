// Two programs side by side.
ghost use Rattle.std.specs.Prelude.{◌≡◌, ◌≤◌, false, IfOk, IfErr};
ghost use Rattle.sm_syntax.specs.claim.ConflictFree.{Copy};
ghost use Rattle.sm_syntax.specs.claim.Syntax.{End};
ghost use Rattle.sm_syntax.specs.text.Parts.{Parts};
ghost use Rattle.sm_syntax.specs.text.Sorts.{IsWellSorted};
ghost use Rattle.sm_term.specs.Tables.{trees_in, sorts_in};
ghost use Rattle.sm_term.specs.TableLaws.{ExtendsTable};
ghost use Rattle.sm_plan.specs.Copies.{has};
ghost use Rattle.sm_plan.specs.Masks.{set_of};
ghost use Rattle.sm_moves.specs.CodeShapes.{has_hole};
ghost use Rattle.sm_moves.specs.Rests.{codes_in};
ghost use Rattle.sm_template.specs.Sites.{IsSiteOf, IsSiteReady};
ghost use Rattle.sm_sketch.specs.Errors.{TellsSketch};
ghost use Rattle.sm_sketch.specs.SketchViews.{sketch_in, IsSketchReady};
ghost use Rattle.sm_product.specs.MiniProducts as spec;

use crate::mini::Drawing;
use crate::rooms::Room;
use sm_plan::Continuation;
use sm_sketch::{ProductError, Sketch};
use sm_syntax::PerCopy;
use sm_template::SiteContext;
use sm_term::TermTable;
use std::alloc::Global;

/// The mini-product of the code of a set's copies, and what follows.
pub(crate) fn side_by_side(
    alloc: Global,
    table: &mut TermTable,
    site: &SiteContext<'_>,
    set: u8,
    mut code: PerCopy<Continuation<'_>>,
    next: Sketch,
) -> Result<Sketch, ProductError>
    requires set { set ≤ 15 }
    requires site { IsSiteReady (sorts_in table.old) site.now }
    requires sorted { (c : Copy) → IsWellSorted (sorts_in table.old) (codes_in code c) }
    requires no_hole { (c : Copy) → has_hole (codes_in code c) ≡ false }
    requires outside { (c : Copy) → has (set_of set) c ≡ false → codes_in code c ≡ End }
    requires next { IsSketchReady (sorts_in table.old) (trees_in table.old) next }
    ensures drawn { let after = sketch_in (sorts_in table.old) (trees_in table.old) next in
        (t : Parts) → IsSiteOf t site.now → IfOk result (λ s.
        sketch_in (sorts_in table.new) (trees_in table.new) s
        ≡ spec.side_by_side t (set_of set) (codes_in code.entry) after) }
    ensures err { let after = sketch_in (sorts_in table.old) (trees_in table.old) next in
        (t : Parts) → IsSiteOf t site.now → IfErr result (λ e.
        TellsSketch e (spec.side_by_side t (set_of set) (codes_in code.entry) after)) }
    ensures ready { IfOk result (IsSketchReady (sorts_in table.new) (trees_in table.new)) }
    ensures widens { ExtendsTable table.old table.new }
{
    let drawing = Drawing { site, set };
    drawing.draw(alloc, table, &mut code, next, Room::whole())
}
