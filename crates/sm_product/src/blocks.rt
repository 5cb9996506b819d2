// The blocks of a set's copies, side by side or proved apart.
ghost use Rattle.std.specs.Prelude.{◌≡◌, ◌≤◌, false, IfOk};
ghost use Rattle.sm_syntax.specs.claim.ConflictFree.{Copy};
ghost use Rattle.sm_syntax.specs.claim.Syntax.{End};
ghost use Rattle.sm_syntax.specs.trees.Copies.{of_copy};
ghost use Rattle.sm_syntax.specs.text.Sorts.{IsWellSorted};
ghost use Rattle.sm_term.specs.Tables.{trees_in, sorts_in};
ghost use Rattle.sm_term.specs.TableLaws.{ExtendsTable};
ghost use Rattle.sm_text.specs.Tasks.{parts_of};
ghost use Rattle.sm_plan.specs.Copies as sets;
ghost use Rattle.sm_plan.specs.Masks.{set_of};
ghost use Rattle.sm_plan.specs.ReadyStates.{AreFormsReady};
ghost use Rattle.sm_plan.specs.Views.{rest_code, forms_in};
ghost use Rattle.sm_moves.specs.CodeShapes as shapes;
ghost use Rattle.sm_moves.specs.FilledCode.{block_codes};
ghost use Rattle.sm_template.specs.Templates as formulas;
ghost use Rattle.sm_sketch.specs.Sketches as sketches;
ghost use Rattle.sm_sketch.specs.SketchViews.{sketch_in, IsSketchReady};
ghost use Rattle.sm_product.specs.Drawn.{IsDrawn};
ghost use Rattle.sm_product.specs.ProductContexts.{IsContextReady};
ghost use Rattle.sm_product.specs.MiniProducts as beside;

use crate::beside::side_by_side;
use crate::product::ProductContext;
use sm_plan::{Continuation, Formulas};
use sm_sketch::{ProductError, Sketch, apart, ends};
use sm_syntax::{Block, PerCopy};
use sm_template::block_templates;
use sm_term::TermTable;
use std::alloc::{AllocError, Global};

// How many statements the block of each copy has.
fn counts(blocks: &PerCopy<&Block>) -> PerCopy<u64>
    ensures { (c : Copy) → of_copy result c ≡ shapes.own_statements (block_codes blocks.now c) }
{
    PerCopy {
        base: blocks.base.list.len() as u64,
        variant_a: blocks.variant_a.list.len() as u64,
        variant_b: blocks.variant_b.list.len() as u64,
        candidate: blocks.candidate.list.len() as u64,
    }
}

// What is left of each copy before its block.
fn whole<'a>(
    alloc: Global,
    blocks: &PerCopy<&'a Block>,
) -> Result<PerCopy<Continuation<'a>>, AllocError>
    ensures { (c : Copy) →
        IfOk result (λ p. rest_code (of_copy p c) ≡ block_codes blocks.now c) }
{
    Ok(PerCopy {
        base: Continuation::of(alloc, blocks.base)?,
        variant_a: Continuation::of(alloc, blocks.variant_a)?,
        variant_b: Continuation::of(alloc, blocks.variant_b)?,
        candidate: Continuation::of(alloc, blocks.candidate)?,
    })
}

/// The blocks of a set's copies side by side, and what follows.
pub(crate) fn blocks_beside(
    alloc: Global,
    table: &mut TermTable,
    cx: &ProductContext<'_>,
    blocks: &PerCopy<&Block>,
    set: u8,
    next: Sketch,
) -> Result<Sketch, ProductError>
    requires set { set ≤ 15 }
    requires context { IsContextReady (sorts_in table.old) cx.now }
    requires sorted { (c : Copy) → IsWellSorted (sorts_in table.old) (block_codes blocks.now c) }
    requires no_hole { (c : Copy) → shapes.has_hole (block_codes blocks.now c) ≡ false }
    requires outside { (c : Copy) → sets.has (set_of set) c ≡ false →
        block_codes blocks.now c ≡ End }
    requires next { IsSketchReady (sorts_in table.old) (trees_in table.old) next }
    ensures drawn { let p = sketch_in (sorts_in table.old) (trees_in table.old) next in
        IsDrawn table.new (beside.side_by_side (parts_of cx.now.task.now) (set_of set)
        (block_codes blocks.now) p) result }
    ensures widens { ExtendsTable table.old table.new }
{
    let rests = whole(alloc, blocks)?;
    side_by_side(alloc, table, &cx.site, set, rests, next)
}

// The templates of a block that has the blocks of all copies.
fn templates_of_blocks(
    alloc: Global,
    table: &mut TermTable,
    cx: &ProductContext<'_>,
    blocks: &PerCopy<&Block>,
) -> Result<Formulas, AllocError>
    requires context { IsContextReady (sorts_in table.old) cx.now }
    ensures made { IfOk result (λ fs.
        forms_in (sorts_in table.new) (trees_in table.new) fs.list.items
        ≡ formulas.block_templates (parts_of cx.now.task.now) (block_codes blocks.now)) }
    ensures ready { IfOk result (λ fs.
        AreFormsReady (sorts_in table.new) (trees_in table.new) fs.list.items) }
    ensures widens { ExtendsTable table.old table.new }
{
    let code = whole(alloc, blocks)?;
    block_templates(alloc, table, &cx.site, &code)
}

/// The blocks of a set's copies side by side, proved apart.
pub(crate) fn apart_blocks(
    alloc: Global,
    table: &mut TermTable,
    cx: &ProductContext<'_>,
    blocks: &PerCopy<&Block>,
    set: u8,
    next: Sketch,
) -> Result<Sketch, ProductError>
    requires set { set ≤ 15 }
    requires context { IsContextReady (sorts_in table.old) cx.now }
    requires sorted { (c : Copy) → IsWellSorted (sorts_in table.old) (block_codes blocks.now c) }
    requires no_hole { (c : Copy) → shapes.has_hole (block_codes blocks.now c) ≡ false }
    requires outside { (c : Copy) → sets.has (set_of set) c ≡ false →
        block_codes blocks.now c ≡ End }
    requires next { IsSketchReady (sorts_in table.old) (trees_in table.old) next }
    ensures drawn { let t = parts_of cx.now.task.now in let code = block_codes blocks.now in
        let p = sketch_in (sorts_in table.old) (trees_in table.old) next in
        let inner = beside.side_by_side t (set_of set) code sketches.ends in
        let templates = formulas.block_templates t code in
        IsDrawn table.new (sketches.apart templates
        (λ (c : Copy). shapes.own_statements (code c)) inner p) result }
    ensures widens { ExtendsTable table.old table.new }
{
    let inner = blocks_beside(alloc, table, cx, blocks, set, ends(alloc))?;
    let templates = templates_of_blocks(alloc, table, cx, blocks)?;
    apart(alloc, counts(blocks), templates, inner, next)
}
