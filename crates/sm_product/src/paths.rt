// Moves after each of which one state follows, one after the other.
ghost use Rattle.std.specs.Prelude.{◌≡◌, ◌≤◌, false, List, map, IfOk, IfErr, if◌then◌else◌};
ghost use Rattle.sm_syntax.specs.claim.ConflictFree.{Copy};
ghost use Rattle.sm_syntax.specs.text.Parts.{Parts};
ghost use Rattle.sm_syntax.specs.text.Sorts.{IsWellSorted, Sorts};
ghost use Rattle.sm_syntax.specs.trees.Copies.{copy_named};
ghost use Rattle.sm_term.specs.Terms.{Tree};
ghost use Rattle.sm_plan.specs.Copies as sets;
ghost use Rattle.sm_plan.specs.Masks.{set_of};
ghost use Rattle.sm_plan.specs.Statements.{rest_after};
ghost use Rattle.sm_plan.specs.Views.{rest_code};
ghost use Rattle.sm_moves.specs.Moves as spec;
ghost use Rattle.sm_moves.specs.MovesWithin.{IsMoveWithin};
ghost use Rattle.sm_moves.specs.Rests.{codes_in};
ghost use Rattle.sm_moves.specs.ProgramMoves.{move_in};
ghost use Rattle.sm_sketch.specs.Errors.{TellsSketch};
ghost use Rattle.sm_sketch.specs.Sketches as plain;
ghost use Rattle.sm_sketch.specs.SketchViews.{sketch_in, IsSketchReady};
ghost use Rattle.sm_product.specs.MiniProducts.{side_by_side, statements_left};
ghost use Rattle.sm_product.specs.Paths.{IsFilled, first_taken, is_straight, after_move, move_before, moves_before};

use sm_moves::{Move, bit, copy_rests, fork, has, move_of};
use sm_plan::Continuation;
use sm_sketch::{ProductError, Sketch, each_summary, step};
use sm_syntax::{CopyName, PerCopy};
use std::alloc::{AllocError, Global};

// Moves after each of which one state follows, in order, and the first other one.
#[derive(Drop)]
pub(crate) struct Path {
    pub moves: Vec<Move>,
    pub last: Move,
}

// Leaves what comes after the next statement, where the copy is in a set.
fn pass_one(rest: &mut Continuation<'_>, set: u8, copy: CopyName)
    ensures { let code = rest_code rest.old in rest_code rest.new
        ≡ (if sets.has (set_of set) (copy_named copy) then rest_after 1 code else code) }
{
    if has(set, copy) {
        rest.drop_front(1);
    }
}

// Leaves what comes after the next statement of each copy of a set.
pub(crate) fn pass(rests: &mut PerCopy<Continuation<'_>>, set: u8)
    ensures { (c : Copy) →
        codes_in rests.new c ≡ spec.moved_on (set_of set) (codes_in rests.old) c }
{
    pass_one(&mut rests.base, set, CopyName::O);
    pass_one(&mut rests.variant_a, set, CopyName::A);
    pass_one(&mut rests.variant_b, set, CopyName::B);
    pass_one(&mut rests.candidate, set, CopyName::M);
}

// What is left where a copy takes the first block of its fork.
pub(crate) fn first_rests<'a>(
    alloc: Global,
    rests: &PerCopy<Continuation<'a>>,
    copy: CopyName,
) -> Result<PerCopy<Continuation<'a>>, AllocError>
    ensures { (c : Copy) → IfOk result (λ p.
        codes_in p c ≡ first_taken (codes_in rests.now) (copy_named copy) c) }
{
    let mut first = copy_rests(alloc, rests)?;
    fork(&mut first, copy, true)?;
    Ok(first)
}

// Whether one state follows a move.
fn opens_one(m: Move) -> bool
    ensures { result ≡ is_straight (move_in m) }
{
    match m {
        Move::Step(_) => true,
        Move::Summaries(_) => true,
        Move::Done => false,
        Move::Fork(_) => false,
        Move::Loops(_) => false,
    }
}

// Leaves what comes after a move.
fn go_on(rests: &mut PerCopy<Continuation<'_>>, m: Move)
    ensures { (c : Copy) → codes_in rests.new c ≡ after_move (move_in m) (codes_in rests.old) c }
{
    match m {
        Move::Step(copy) => pass(rests, bit(copy)),
        Move::Summaries(left) => pass(rests, left),
        Move::Done => {}
        Move::Fork(_) => {}
        Move::Loops(_) => {}
    }
}

// Goes on by the moves of a set up to the first after which not one state follows.
pub(crate) fn follow(
    alloc: Global,
    rests: &mut PerCopy<Continuation<'_>>,
    set: u8,
) -> Result<Path, AllocError>
    requires { IsFilled (set_of set) (codes_in rests.old) }
    ensures drawn { (t : Parts) (next : plain.Sketch) → IfOk result (λ p.
        side_by_side t (set_of set) (codes_in rests.old) next ≡ moves_before
        (map move_in p.moves.items) (side_by_side t (set_of set) (codes_in rests.new) next)) }
    ensures last { IfOk result (λ p.
        move_in p.last ≡ spec.move_of (set_of set) (codes_in rests.new)) }
    ensures branches { IfOk result (λ p. is_straight (move_in p.last) ≡ false) }
    ensures within { IfOk result (λ p. IsMoveWithin p.last) }
    ensures filled { IsFilled (set_of set) (codes_in rests.new) }
    ensures fewer { statements_left (codes_in rests.new) ≤ statements_left (codes_in rests.old) }
    ensures sorted { (sorts : Sorts) →
        ((c : Copy) → IsWellSorted sorts (codes_in rests.old c)) →
        (c : Copy) → IsWellSorted sorts (codes_in rests.new c) }
{
    let mut moves = Vec::new(alloc);
    let mut last = move_of(rests, set);
    while opens_one(last) {
        moves.push(last)?;
        go_on(rests, last);
        last = move_of(rests, set);
    }
    Ok(Path { moves, last })
}

// Draws a move before a sketch.
fn put_before(m: Move, sketch: Sketch) -> Result<Sketch, ProductError>
    ensures drawn { (sorts : Sorts) (trees : List Tree) → IfOk result (λ s.
        sketch_in sorts trees s ≡ move_before (move_in m) (sketch_in sorts trees sketch)) }
    ensures ready { (sorts : Sorts) (trees : List Tree) →
        IsSketchReady sorts trees sketch → IfOk result (IsSketchReady sorts trees) }
    ensures err { (sorts : Sorts) (trees : List Tree) →
        IsSketchReady sorts trees sketch → IfErr result (λ e.
        TellsSketch e (move_before (move_in m) (sketch_in sorts trees sketch))) }
{
    match m {
        Move::Step(copy) => step(sketch, copy),
        Move::Summaries(left) => each_summary(sketch, left),
        Move::Done => Ok(sketch),
        Move::Fork(_) => Ok(sketch),
        Move::Loops(_) => Ok(sketch),
    }
}

// Draws moves, one after the other, before a sketch.
pub(crate) fn put_all_before(
    mut moves: Vec<Move>,
    mut sketch: Sketch,
) -> Result<Sketch, ProductError>
    ensures drawn { (sorts : Sorts) (trees : List Tree) → IfOk result (λ s. sketch_in sorts trees s
        ≡ moves_before (map move_in moves.items) (sketch_in sorts trees sketch)) }
    ensures ready { (sorts : Sorts) (trees : List Tree) →
        IsSketchReady sorts trees sketch → IfOk result (IsSketchReady sorts trees) }
    ensures err { (sorts : Sorts) (trees : List Tree) →
        IsSketchReady sorts trees sketch → IfErr result (λ e.
        TellsSketch e (moves_before (map move_in moves.items) (sketch_in sorts trees sketch))) }
{
    while let Some(m) = moves.pop() {
        sketch = put_before(m, sketch)?;
    }
    Ok(sketch)
}
