// The mini-product of a set of copies: their code, move by move, and then what follows.
ghost use Rattle.std.specs.Prelude.{◌≡◌, ◌≤◌, false, IfOk, IfErr};
ghost use Rattle.sm_syntax.specs.claim.ConflictFree.{Copy};
ghost use Rattle.sm_syntax.specs.text.Parts.{Parts};
ghost use Rattle.sm_syntax.specs.text.Sorts.{IsWellSorted};
ghost use Rattle.sm_syntax.specs.trees.Copies.{copy_named};
ghost use Rattle.sm_term.specs.Tables.{trees_in, sorts_in};
ghost use Rattle.sm_term.specs.TableLaws.{ExtendsTable};
ghost use Rattle.sm_plan.specs.Masks.{set_of};
ghost use Rattle.sm_moves.specs.Moves as moves;
ghost use Rattle.sm_moves.specs.MovesWithin.{IsMoveWithin};
ghost use Rattle.sm_moves.specs.Rests.{codes_in};
ghost use Rattle.sm_moves.specs.ProgramMoves.{move_in};
ghost use Rattle.sm_template.specs.Sites.{IsSiteOf, IsSiteReady};
ghost use Rattle.sm_sketch.specs.SketchViews.{sketch_in, IsSketchReady};
ghost use Rattle.sm_product.specs.MiniProducts as spec;
ghost use Rattle.sm_product.specs.Paths.{is_straight, IsFilled, first_taken};
ghost use Rattle.sm_product.specs.Rooms.{IsRoom, TellsBeyond};

use crate::paths::{first_rests, follow, put_all_before};
use crate::rooms::Room;
use sm_moves::{Move, fork};
use sm_plan::Continuation;
use sm_sketch::{ProductError, Sketch, copy_sketch, forking};
use sm_syntax::{CopyName, PerCopy};
use sm_template::SiteContext;
use sm_term::TermTable;
use std::alloc::Global;

/// The copies whose code is drawn, and what their templates are made of.
#[derive(Drop)]
pub(crate) struct Drawing<'s, 'a> {
    pub site: &'s SiteContext<'a>,
    pub set: u8,
}

impl<'s, 'a> Drawing<'s, 'a> {
    /// Draws the mini-product, within some room.
    #[cycle(mini)]
    pub(crate) fn draw(
        &self,
        alloc: Global,
        table: &mut TermTable,
        rests: &mut PerCopy<Continuation<'_>>,
        next: Sketch,
        room: Room,
    ) -> Result<Sketch, ProductError>
        requires set { self.now.set ≤ 15 }
        requires site { IsSiteReady (sorts_in table.old) self.now.site.now }
        requires sorted { (c : Copy) → IsWellSorted (sorts_in table.old) (codes_in rests.old c) }
        requires filled { IsFilled (set_of self.now.set) (codes_in rests.old) }
        requires next { IsSketchReady (sorts_in table.old) (trees_in table.old) next }
        requires room { IsRoom room }
        ensures drawn { let after = sketch_in (sorts_in table.old) (trees_in table.old) next in
            (t : Parts) → IsSiteOf t self.now.site.now → IfOk result (λ s.
            sketch_in (sorts_in table.new) (trees_in table.new) s
            ≡ spec.side_by_side t (set_of self.now.set) (codes_in rests.old) after) }
        ensures err { let after = sketch_in (sorts_in table.old) (trees_in table.old) next in
            (t : Parts) → IsSiteOf t self.now.site.now → IfErr result (λ e. TellsBeyond room e
            (spec.side_by_side t (set_of self.now.set) (codes_in rests.old) after)) }
        ensures ready { IfOk result (IsSketchReady (sorts_in table.new) (trees_in table.new)) }
        ensures widens { ExtendsTable table.old table.new }
    {
        let straight = follow(alloc, rests, self.set)?;
        let below = self.draw_last(alloc, table, rests, next, room, straight.last)?;
        put_all_before(straight.moves, below)
    }

    // A move after which not one state follows, and what comes then.
    #[cycle(mini)]
    fn draw_last(
        &self,
        alloc: Global,
        table: &mut TermTable,
        rests: &mut PerCopy<Continuation<'_>>,
        next: Sketch,
        room: Room,
        last: Move,
    ) -> Result<Sketch, ProductError>
        requires set { self.now.set ≤ 15 }
        requires site { IsSiteReady (sorts_in table.old) self.now.site.now }
        requires sorted { (c : Copy) → IsWellSorted (sorts_in table.old) (codes_in rests.old c) }
        requires filled { IsFilled (set_of self.now.set) (codes_in rests.old) }
        requires next { IsSketchReady (sorts_in table.old) (trees_in table.old) next }
        requires room { IsRoom room }
        requires branches { is_straight (move_in last) ≡ false }
        requires within { IsMoveWithin last }
        requires last { move_in last ≡ moves.move_of (set_of self.now.set) (codes_in rests.old) }
        ensures drawn { let after = sketch_in (sorts_in table.old) (trees_in table.old) next in
            (t : Parts) → IsSiteOf t self.now.site.now → IfOk result (λ s.
            sketch_in (sorts_in table.new) (trees_in table.new) s
            ≡ spec.drawn t (set_of self.now.set) (codes_in rests.old) after (spec.side_by_side t)
            (move_in last)) }
        ensures err { let after = sketch_in (sorts_in table.old) (trees_in table.old) next in
            (t : Parts) → IsSiteOf t self.now.site.now → IfErr result (λ e. TellsBeyond room e
            (spec.drawn t (set_of self.now.set) (codes_in rests.old) after (spec.side_by_side t)
            (move_in last))) }
        ensures ready { IfOk result (IsSketchReady (sorts_in table.new) (trees_in table.new)) }
        ensures widens { ExtendsTable table.old table.new }
    {
        match last {
            Move::Fork(copy) => self.draw_fork(alloc, table, rests, next, room, copy),
            Move::Loops(left) => self.draw_loops(alloc, table, rests, next, room, left),
            Move::Done => Ok(next),
            // A step and summaries, after which one state follows, were drawn before.
            Move::Step(_) => Ok(next),
            Move::Summaries(_) => Ok(next),
        }
    }

    // A fork of a copy, and what comes after either block.
    #[cycle(mini)]
    fn draw_fork(
        &self,
        alloc: Global,
        table: &mut TermTable,
        rests: &mut PerCopy<Continuation<'_>>,
        next: Sketch,
        room: Room,
        copy: CopyName,
    ) -> Result<Sketch, ProductError>
        requires set { self.now.set ≤ 15 }
        requires site { IsSiteReady (sorts_in table.old) self.now.site.now }
        requires sorted { (c : Copy) → IsWellSorted (sorts_in table.old) (codes_in rests.old c) }
        requires filled { IsFilled (set_of self.now.set) (codes_in rests.old) }
        requires next { IsSketchReady (sorts_in table.old) (trees_in table.old) next }
        requires room { IsRoom room }
        requires last { moves.Forks (copy_named copy)
            ≡ moves.move_of (set_of self.now.set) (codes_in rests.old) }
        ensures drawn { let after = sketch_in (sorts_in table.old) (trees_in table.old) next in
            (t : Parts) → IsSiteOf t self.now.site.now → IfOk result (λ s.
            sketch_in (sorts_in table.new) (trees_in table.new) s
            ≡ spec.drawn t (set_of self.now.set) (codes_in rests.old) after (spec.side_by_side t)
            (moves.Forks (copy_named copy))) }
        ensures err { let after = sketch_in (sorts_in table.old) (trees_in table.old) next in
            (t : Parts) → IsSiteOf t self.now.site.now → IfErr result (λ e. TellsBeyond room e
            (spec.drawn t (set_of self.now.set) (codes_in rests.old) after (spec.side_by_side t)
            (moves.Forks (copy_named copy)))) }
        ensures ready { IfOk result (IsSketchReady (sorts_in table.new) (trees_in table.new)) }
        ensures widens { ExtendsTable table.old table.new }
    {
        let one = self.draw_first(alloc, table, rests, &next, room, copy)?;
        let for_other = room.beside(one.extent.nodes)?;
        fork(rests, copy, false)?;
        let other = self.draw(alloc, table, rests, next, for_other)?;
        forking(alloc, copy, one, other)
    }

    // What is drawn where a copy takes the first block of its fork: the second block comes beside
    // it, and has what comes after too.
    #[cycle(mini)]
    fn draw_first(
        &self,
        alloc: Global,
        table: &mut TermTable,
        rests: &PerCopy<Continuation<'_>>,
        next: &Sketch,
        room: Room,
        copy: CopyName,
    ) -> Result<Sketch, ProductError>
        requires set { self.now.set ≤ 15 }
        requires site { IsSiteReady (sorts_in table.old) self.now.site.now }
        requires sorted { (c : Copy) → IsWellSorted (sorts_in table.old) (codes_in rests.now c) }
        requires filled { IsFilled (set_of self.now.set) (codes_in rests.now) }
        requires next { IsSketchReady (sorts_in table.old) (trees_in table.old) next.now }
        requires room { IsRoom room }
        requires last { moves.Forks (copy_named copy)
            ≡ moves.move_of (set_of self.now.set) (codes_in rests.now) }
        ensures drawn { let after = sketch_in (sorts_in table.old) (trees_in table.old) next.now in
            let code = first_taken (codes_in rests.now) (copy_named copy) in
            (t : Parts) → IsSiteOf t self.now.site.now → IfOk result (λ s.
            sketch_in (sorts_in table.new) (trees_in table.new) s
            ≡ spec.side_by_side t (set_of self.now.set) code after) }
        ensures err { let after = sketch_in (sorts_in table.old) (trees_in table.old) next.now in
            (t : Parts) → IsSiteOf t self.now.site.now → IfErr result (λ e. TellsBeyond room e
            (spec.drawn t (set_of self.now.set) (codes_in rests.now) after (spec.side_by_side t)
            (moves.Forks (copy_named copy)))) }
        ensures ready { IfOk result (IsSketchReady (sorts_in table.new) (trees_in table.new)) }
        ensures widens { ExtendsTable table.old table.new }
    {
        let for_one = room.beside(next.extent.nodes)?;
        let after = copy_sketch(alloc, next)?;
        let mut first = first_rests(alloc, rests, copy)?;
        self.draw(alloc, table, &mut first, after, for_one)
    }
}
