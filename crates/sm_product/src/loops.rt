// The product of a while of the shared code.
ghost use Rattle.std.specs.Prelude.{◌≡◌, ◌≤◌, ◌++◌, ◌==◌, map, if◌then◌else◌, bit_and, ℕ, List, [], ◌∷◌, IfOk, IfErr, OnOk};
ghost use Rattle.sm_syntax.specs.claim.ConflictFree.{Copy};
ghost use Rattle.sm_syntax.specs.text.Sorts.{IsWellSorted};
ghost use Rattle.sm_syntax.specs.trees.Views.{code_of};
ghost use Rattle.sm_term.specs.Assertions.{Assertion};
ghost use Rattle.sm_term.specs.Tables.{trees_in, sorts_in};
ghost use Rattle.sm_term.specs.TableLaws.{ExtendsTable};
ghost use Rattle.sm_text.specs.Tasks.{parts_of};
ghost use Rattle.sm_plan.specs.Copies.{Copies, subsets};
ghost use Rattle.sm_plan.specs.Masks.{set_of};
ghost use Rattle.sm_moves.specs.CodeShapes as shapes;
ghost use Rattle.sm_moves.specs.FilledCode.{piece_of, AreFilledAs};
ghost use Rattle.sm_sketch.specs.Errors.{TellsSketch};
ghost use Rattle.sm_sketch.specs.Sketches as sketches;
ghost use Rattle.sm_sketch.specs.SketchViews.{sketch_in, IsSketchReady, AreSketchesReady};
ghost use Rattle.sm_product.specs.Drawn.{IsDrawn};
ghost use Rattle.sm_product.specs.ProductContexts.{IsContextReady};
ghost use Rattle.sm_product.specs.Products as plain;

use crate::pieces::templates_of_loops;
use crate::product::ProductContext;
use sm_moves::{FilledBlock, has_hole};
use sm_sketch::{ProductError, Sketch, each_summary, ends, looped};
use sm_syntax::{PerCopy, Stmt};
use sm_term::TermTable;
use std::alloc::Global;

impl<'a> ProductContext<'a> {
    /// The product of a while of the shared code, and what follows.
    #[cycle(product)]
    pub(crate) fn product_while(
        &self,
        alloc: Global,
        table: &mut TermTable,
        body: &FilledBlock<'_, '_>,
        pieces: &PerCopy<&[Stmt]>,
        set: u8,
        next: Sketch,
    ) -> Result<Sketch, ProductError>
        requires set { set ≤ 15 }
        requires context { IsContextReady (sorts_in table.old) self.now }
        requires body { AreFilledAs (sorts_in table.old) (parts_of self.now.task.now)
            (code_of body.now.shared.now) body.now.filled }
        requires sorted { (c : Copy) → IsWellSorted (sorts_in table.old) (piece_of pieces.now c) }
        requires next { IsSketchReady (sorts_in table.old) (trees_in table.old) next }
        ensures drawn { let p = sketch_in (sorts_in table.old) (trees_in table.old) next in
            let t = parts_of self.now.task.now in
            let c = code_of body.now.shared.now in
            IsDrawn table.new (plain.product_while t (shapes.has_hole c) (piece_of pieces.now)
            (plain.product t c) (set_of set) p) result }
        ensures widens { ExtendsTable table.old table.new }
    {
        if !has_hole(body.shared) {
            return each_summary(next, set);
        }
        let turns = self.turns(alloc, table, body, set)?;
        let templates = templates_of_loops(alloc, table, &self.site, pieces, set)?;
        looped(alloc, set, templates, turns, next)
    }

    // A turn of loops with this body for each set of copies in a set, by ascending masks.
    #[cycle(product)]
    fn turns(
        &self,
        alloc: Global,
        table: &mut TermTable,
        body: &FilledBlock<'_, '_>,
        set: u8,
    ) -> Result<Vec<Sketch>, ProductError>
        requires set { set ≤ 15 }
        requires context { IsContextReady (sorts_in table.old) self.now }
        requires body { AreFilledAs (sorts_in table.old) (parts_of self.now.task.now)
            (code_of body.now.shared.now) body.now.filled }
        ensures made { let t = parts_of self.now.task.now in let c = code_of body.now.shared.now in
            let turn = λ (v : Copies). plain.product t c v sketches.ends in IfOk result (λ l.
            map (sketch_in (sorts_in table.new) (trees_in table.new)) l.items
            ≡ map turn (subsets (set_of set))) }
        ensures ready { IfOk result (λ l.
            AreSketchesReady (sorts_in table.new) (trees_in table.new) l.items) }
        ensures err { let t = parts_of self.now.task.now in let c = code_of body.now.shared.now in
            let turn = λ (v : Copies). plain.product t c v sketches.ends in
            (ts : List Assertion) (next : sketches.Sketch) → IfErr result (λ e.
            TellsSketch e (sketches.looped ts (set_of set) turn next)) }
        ensures widens { ExtendsTable table.old table.new }
    {
        let mut turns = Vec::new(alloc);
        for smaller in 0..15u8 {
            self.put_turn(alloc, table, body, set, smaller + 1, &mut turns)?;
        }
        Ok(turns)
    }

    // Puts a turn behind others where its copies are in a set.
    #[cycle(product)]
    fn put_turn(
        &self,
        alloc: Global,
        table: &mut TermTable,
        body: &FilledBlock<'_, '_>,
        set: u8,
        mask: u8,
        turns: &mut Vec<Sketch>,
    ) -> Result<(), ProductError>
        requires mask { mask ≤ 15 }
        requires context { IsContextReady (sorts_in table.old) self.now }
        requires body { AreFilledAs (sorts_in table.old) (parts_of self.now.task.now)
            (code_of body.now.shared.now) body.now.filled }
        requires turns { AreSketchesReady (sorts_in table.old) (trees_in table.old) turns.old.items }
        ensures made { let t = parts_of self.now.task.now in let c = code_of body.now.shared.now in
            let turn = λ (m : ℕ). plain.product t c (set_of m) sketches.ends in OnOk result (
            map (sketch_in (sorts_in table.new) (trees_in table.new)) turns.new.items
            ≡ map (sketch_in (sorts_in table.old) (trees_in table.old)) turns.old.items
            ++ map turn (if bit_and mask set == mask then mask ∷ [] else [])) }
        ensures ready { OnOk result
            (AreSketchesReady (sorts_in table.new) (trees_in table.new) turns.new.items) }
        ensures err { let t = parts_of self.now.task.now in let c = code_of body.now.shared.now in
            IfErr result (λ e. (bit_and mask set ≡ mask)
            × TellsSketch e (plain.product t c (set_of mask) sketches.ends)) }
        ensures widens { ExtendsTable table.old table.new }
    {
        if mask & set != mask {
            return Ok(());
        }
        let turn = self.product_block(alloc, table, body, mask, ends(alloc))?;
        turns.push(turn)?;
        Ok(())
    }
}
