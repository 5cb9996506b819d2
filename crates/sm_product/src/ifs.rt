// The product of an if of the shared code.
ghost use Rattle.std.specs.Prelude.{◌≡◌, ◌≤◌, ◌||◌, ◌==◌, drop, filter};
ghost use Rattle.sm_syntax.specs.claim.ConflictFree.{Copy};
ghost use Rattle.sm_syntax.specs.text.Sorts.{IsWellSorted};
ghost use Rattle.sm_syntax.specs.trees.Views.{code_of};
ghost use Rattle.sm_term.specs.Tables.{trees_in, sorts_in};
ghost use Rattle.sm_term.specs.TableLaws.{ExtendsTable};
ghost use Rattle.sm_text.specs.Tasks.{parts_of};
ghost use Rattle.sm_plan.specs.Copies as sets;
ghost use Rattle.sm_plan.specs.Masks.{set_of};
ghost use Rattle.sm_moves.specs.CodeShapes as shapes;
ghost use Rattle.sm_moves.specs.FilledCode.{piece_of, AreFilledAs};
ghost use Rattle.sm_sketch.specs.SketchViews.{sketch_in, IsSketchReady};
ghost use Rattle.sm_product.specs.Drawn.{IsDrawn};
ghost use Rattle.sm_product.specs.ProductContexts.{IsContextReady};
ghost use Rattle.sm_product.specs.Products as plain;

use crate::pieces::templates_of_ifs;
use crate::product::ProductContext;
use sm_moves::{FilledBlock, has, has_hole, is_empty, one_each, with_member, without};
use sm_sketch::{ProductError, Sketch, apart, each_summary, ends, forking};
use sm_syntax::{Block, CopyName, PerCopy, Stmt};
use sm_term::TermTable;
use std::alloc::Global;

/// The blocks of an if of the shared code.
#[derive(Drop)]
pub(crate) struct FilledIf<'s, 'a> {
    pub first: FilledBlock<'s, 'a>,
    pub second: FilledBlock<'s, 'a>,
}

// Whether one of two blocks has a hole.
fn are_open(first: &Block, second: &Block) -> bool
    ensures { result
        ≡ (shapes.has_hole (code_of first.now) || shapes.has_hole (code_of second.now)) }
{
    has_hole(first) || has_hole(second)
}

impl<'a> ProductContext<'a> {
    /// The product of an if of the shared code, and what follows.
    #[cycle(product)]
    pub(crate) fn product_if(
        &self,
        alloc: Global,
        table: &mut TermTable,
        blocks: &FilledIf<'_, '_>,
        pieces: &PerCopy<&[Stmt]>,
        set: u8,
        next: Sketch,
    ) -> Result<Sketch, ProductError>
        requires set { set ≤ 15 }
        requires context { IsContextReady (sorts_in table.old) self.now }
        requires first { AreFilledAs (sorts_in table.old) (parts_of self.now.task.now)
            (code_of blocks.now.first.shared.now) blocks.now.first.filled }
        requires second { AreFilledAs (sorts_in table.old) (parts_of self.now.task.now)
            (code_of blocks.now.second.shared.now) blocks.now.second.filled }
        requires sorted { (c : Copy) → IsWellSorted (sorts_in table.old) (piece_of pieces.now c) }
        requires next { IsSketchReady (sorts_in table.old) (trees_in table.old) next }
        ensures drawn { let p = sketch_in (sorts_in table.old) (trees_in table.old) next in
            let t = parts_of self.now.task.now in
            let c = code_of blocks.now.first.shared.now in
            let d = code_of blocks.now.second.shared.now in
            let is_open = shapes.has_hole c || shapes.has_hole d in
            IsDrawn table.new (plain.product_if t is_open (piece_of pieces.now) (plain.product t c)
            (plain.product t d) (set_of set) p) result }
        ensures widens { ExtendsTable table.old table.new }
    {
        if !are_open(blocks.first.shared, blocks.second.shared) {
            return each_summary(next, set);
        }
        let inner = self.forked(alloc, table, blocks, set, 0, 0)?;
        let templates = templates_of_ifs(alloc, table, &self.site, pieces, set)?;
        apart(alloc, one_each(set), templates, inner, next)
    }

    // The forks of the copies of a set from one on, and then what is drawn for those that took the
    // first block.
    #[cycle(product)]
    fn forked(
        &self,
        alloc: Global,
        table: &mut TermTable,
        blocks: &FilledIf<'_, '_>,
        set: u8,
        place: u8,
        taken: u8,
    ) -> Result<Sketch, ProductError>
        requires place { place ≤ 4 }
        requires taken { taken ≤ 15 }
        requires context { IsContextReady (sorts_in table.old) self.now }
        requires first { AreFilledAs (sorts_in table.old) (parts_of self.now.task.now)
            (code_of blocks.now.first.shared.now) blocks.now.first.filled }
        requires second { AreFilledAs (sorts_in table.old) (parts_of self.now.task.now)
            (code_of blocks.now.second.shared.now) blocks.now.second.filled }
        ensures drawn { let t = parts_of self.now.task.now in
            let c = code_of blocks.now.first.shared.now in
            let d = code_of blocks.now.second.shared.now in
            let inner = plain.branched (plain.product t c) (plain.product t d) (set_of set) in
            let list = filter (sets.has (set_of set)) (drop place sets.copies) in
            IsDrawn table.new (plain.forked inner list (set_of taken)) result }
        ensures widens { ExtendsTable table.old table.new }
    {
        if place == 4 {
            return self.branched(alloc, table, blocks, set, taken);
        }
        let copy = CopyName::of_number(place);
        if !has(set, copy) {
            return self.forked(alloc, table, blocks, set, place + 1, taken);
        }
        let more = with_member(taken, copy);
        let one = self.forked(alloc, table, blocks, set, place + 1, more)?;
        let other = self.forked(alloc, table, blocks, set, place + 1, taken)?;
        forking(alloc, copy, one, other)
    }

    // The first block of those that took it, the second block of the others, and then the end.
    #[cycle(product)]
    fn branched(
        &self,
        alloc: Global,
        table: &mut TermTable,
        blocks: &FilledIf<'_, '_>,
        set: u8,
        taken: u8,
    ) -> Result<Sketch, ProductError>
        requires taken { taken ≤ 15 }
        requires context { IsContextReady (sorts_in table.old) self.now }
        requires first { AreFilledAs (sorts_in table.old) (parts_of self.now.task.now)
            (code_of blocks.now.first.shared.now) blocks.now.first.filled }
        requires second { AreFilledAs (sorts_in table.old) (parts_of self.now.task.now)
            (code_of blocks.now.second.shared.now) blocks.now.second.filled }
        ensures drawn { let t = parts_of self.now.task.now in
            let c = code_of blocks.now.first.shared.now in
            let d = code_of blocks.now.second.shared.now in
            let whole = plain.branched (plain.product t c) (plain.product t d) in
            IsDrawn table.new (whole (set_of set) (set_of taken)) result }
        ensures widens { ExtendsTable table.old table.new }
    {
        let end = ends(alloc);
        let others = without(set, taken);
        let after = self.drawn_for(alloc, table, &blocks.second, others, end)?;
        self.drawn_for(alloc, table, &blocks.first, taken, after)
    }

    // The product of a set that may have no copy, and what follows.
    #[cycle(product)]
    fn drawn_for(
        &self,
        alloc: Global,
        table: &mut TermTable,
        block: &FilledBlock<'_, '_>,
        set: u8,
        next: Sketch,
    ) -> Result<Sketch, ProductError>
        requires set { set ≤ 15 }
        requires context { IsContextReady (sorts_in table.old) self.now }
        requires filled { AreFilledAs (sorts_in table.old) (parts_of self.now.task.now)
            (code_of block.now.shared.now) block.now.filled }
        requires next { IsSketchReady (sorts_in table.old) (trees_in table.old) next }
        ensures drawn { let p = sketch_in (sorts_in table.old) (trees_in table.old) next in
            let draw = plain.product (parts_of self.now.task.now) (code_of block.now.shared.now) in
            IsDrawn table.new (plain.where_any (set_of set) draw p) result }
        ensures widens { ExtendsTable table.old table.new }
    {
        if is_empty(set) {
            return Ok(next);
        }
        self.product_block(alloc, table, block, set, next)
    }
}
