// The product of a hole of the shared code.
ghost use Rattle.std.specs.Prelude.{◌≡◌, ◌≤◌, ◌&&◌, ◌||◌, not, if◌then◌else◌};
ghost use Rattle.std.specs.List.{list_any};
ghost use Rattle.sm_syntax.specs.claim.ConflictFree.{Copy};
ghost use Rattle.sm_syntax.specs.claim.Fill.{filling};
ghost use Rattle.sm_syntax.specs.claim.Syntax.{End};
ghost use Rattle.sm_syntax.specs.trees.Copies.{copy_named, of_copy};
ghost use Rattle.sm_syntax.specs.trees.Programs.{fillings_of};
ghost use Rattle.sm_syntax.specs.text.Sorts.{IsWellSorted};
ghost use Rattle.sm_syntax.specs.trees.Views.{code_of, statement_of};
ghost use Rattle.sm_term.specs.SameTerms.{same_code};
ghost use Rattle.sm_term.specs.Tables.{trees_in, sorts_in};
ghost use Rattle.sm_term.specs.TableLaws.{ExtendsTable};
ghost use Rattle.sm_text.specs.Tasks.{parts_of};
ghost use Rattle.sm_plan.specs.Copies as sets;
ghost use Rattle.sm_plan.specs.Masks.{set_of};
ghost use Rattle.sm_moves.specs.CodeShapes as shapes;
ghost use Rattle.sm_moves.specs.CopySets.{members, only_in};
ghost use Rattle.sm_moves.specs.FilledCode.{block_codes};
ghost use Rattle.sm_moves.specs.Moves as moves;
ghost use Rattle.sm_sketch.specs.SketchViews.{sketch_in, IsSketchReady};
ghost use Rattle.sm_product.specs.Drawn.{IsDrawn};
ghost use Rattle.sm_product.specs.ProductContexts.{IsContextReady};
ghost use Rattle.sm_product.specs.Products as plain;

use crate::blocks::{apart_blocks, blocks_beside};
use crate::product::ProductContext;
use sm_moves::{filling_at, has, least};
use sm_sketch::{ProductError, Sketch};
use sm_syntax::{Block, CopyName, Fillings, PerCopy, Stmt, same_block};
use sm_term::TermTable;
use std::alloc::Global;

// The filling of a hole, or a block that has no statement.
fn filling_or<'a>(fillings: &'a Fillings, hole: u32, none: &'a Block) -> &'a Block
    requires { code_of none.now ≡ End }
    ensures { code_of result.now ≡ filling (fillings_of fillings.now) hole }
{
    match filling_at(fillings, hole) {
        Some(block) => block,
        None => none,
    }
}

// The filling of a hole in a copy of a set, for the others a block that has no statement.
fn filling_in<'a>(
    fillings: &'a Fillings,
    hole: u32,
    none: &'a Block,
    set: u8,
    copy: CopyName,
) -> &'a Block
    requires { code_of none.now ≡ End }
    ensures { code_of result.now ≡ (if sets.has (set_of set) (copy_named copy)
        then filling (fillings_of fillings.now) hole else End) }
{
    if has(set, copy) {
        filling_or(fillings, hole, none)
    } else {
        none
    }
}

// The filling of a hole in each copy of a set, for the others a block that has no statement.
fn fillings_in<'a>(
    lists: &'a PerCopy<Fillings>,
    hole: u32,
    none: &'a Block,
    set: u8,
) -> PerCopy<&'a Block>
    requires { code_of none.now ≡ End }
    ensures { (c : Copy) → block_codes result c ≡ (if sets.has (set_of set) c
        then filling (fillings_of (of_copy lists.now c)) hole else End) }
{
    PerCopy {
        base: filling_in(&lists.base, hole, none, set, CopyName::O),
        variant_a: filling_in(&lists.variant_a, hole, none, set, CopyName::A),
        variant_b: filling_in(&lists.variant_b, hole, none, set, CopyName::B),
        candidate: filling_in(&lists.candidate, hole, none, set, CopyName::M),
    }
}

// Whether a copy is outside of a set, or its block is this one.
fn agrees(blocks: &PerCopy<&Block>, set: u8, block: &Block, copy: CopyName) -> bool
    ensures { let c = copy_named copy in result ≡ (not (sets.has (set_of set) c)
        || same_code (code_of block.now) (block_codes blocks.now c)) }
{
    !has(set, copy) || same_block(block, *blocks.get(copy))
}

// Whether the block of each copy of a set is this one.
fn all_agree(blocks: &PerCopy<&Block>, set: u8, block: &Block) -> bool
    ensures { result ≡ sets.each (λ c. not (sets.has (set_of set) c)
        || same_code (code_of block.now) (block_codes blocks.now c)) }
{
    agrees(blocks, set, block, CopyName::O)
        && (agrees(blocks, set, block, CopyName::A)
            && (agrees(blocks, set, block, CopyName::B) && agrees(blocks, set, block, CopyName::M)))
}

// Whether the blocks of a set's copies are the same.
fn is_shared(blocks: &PerCopy<&Block>, set: u8) -> bool
    ensures { result ≡ moves.is_shared (set_of set) (block_codes blocks.now) }
{
    match least(set) {
        Some(copy) => all_agree(blocks, set, *blocks.get(copy)),
        None => true,
    }
}

// Whether a block has an if among its own statements.
fn has_fork(block: &Block) -> bool
    ensures { result ≡ shapes.has_fork (code_of block.now) }
{
    for s in &block.list {
        if is_fork(s) {
            return true;
        }
    }
    false
}

// Whether a statement is an if.
#[tactic(auto, using(sm_moves::proofs::WalksLemmas::fork_tests))]
fn is_fork(s: &Stmt) -> bool
    ensures { result ≡ shapes.has_fork (statement_of s.now End) }
{
    match s {
        Stmt::Skip => false,
        Stmt::Assign(_, _) => false,
        Stmt::Store(_, _, _) => false,
        Stmt::If(_, _, _) => true,
        Stmt::While(_, _) => false,
        Stmt::Hole(_) => false,
    }
}

// Whether a copy of a set has an if among its own statements.
fn forks(blocks: &PerCopy<&Block>, set: u8, copy: CopyName) -> bool
    ensures { let c = copy_named copy in
        result ≡ (sets.has (set_of set) c && shapes.has_fork (block_codes blocks.now c)) }
{
    has(set, copy) && has_fork(*blocks.get(copy))
}

// Whether one of them has.
fn may_fork(blocks: &PerCopy<&Block>, set: u8) -> bool
    ensures { result
        ≡ list_any (λ c. shapes.has_fork (block_codes blocks.now c)) (members (set_of set)) }
{
    forks(blocks, set, CopyName::O)
        || (forks(blocks, set, CopyName::A)
            || (forks(blocks, set, CopyName::B) || forks(blocks, set, CopyName::M)))
}

// Whether the blocks of a set's copies differ and one of them may fork.
fn is_apart(blocks: &PerCopy<&Block>, set: u8) -> bool
    ensures { let code = block_codes blocks.now in
        result ≡ (not (moves.is_shared (set_of set) code)
        && list_any (λ c. shapes.has_fork (code c)) (members (set_of set))) }
{
    !is_shared(blocks, set) && may_fork(blocks, set)
}

/// The product of a hole of the shared code, and what follows.
pub(crate) fn product_hole(
    alloc: Global,
    table: &mut TermTable,
    cx: &ProductContext<'_>,
    hole: u32,
    set: u8,
    next: Sketch,
) -> Result<Sketch, ProductError>
    requires set { set ≤ 15 }
    requires context { IsContextReady (sorts_in table.old) cx.now }
    requires sorted { (c : Copy) → IsWellSorted (sorts_in table.old)
        (filling ((parts_of cx.now.task.now).fillings c) hole) }
    requires next { IsSketchReady (sorts_in table.old) (trees_in table.old) next }
    ensures drawn { let t = parts_of cx.now.task.now in
        let p = sketch_in (sorts_in table.old) (trees_in table.old) next in
        let code = only_in (set_of set) (λ (c : Copy). filling (t.fillings c) hole) in
        IsDrawn table.new (plain.filled t (set_of set) code p) result }
    ensures widens { ExtendsTable table.old table.new }
{
    let none = Block {
        list: Vec::new(alloc),
    };
    let blocks = fillings_in(&cx.task.lists, hole, &none, set);
    if is_apart(&blocks, set) {
        return apart_blocks(alloc, table, cx, &blocks, set, next);
    }
    blocks_beside(alloc, table, cx, &blocks, set, next)
}
