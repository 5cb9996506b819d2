// The loops in a mini-product, and their turns.
ghost use Rattle.std.specs.Prelude.{◌≡◌, ◌==◌, ◌≤◌, bit_and, false, [], ◌∷◌, ◌++◌, map, IfOk, IfErr, OnOk, if◌then◌else◌};
ghost use Rattle.sm_syntax.specs.claim.ConflictFree.{Copy};
ghost use Rattle.sm_syntax.specs.text.Parts.{Parts};
ghost use Rattle.sm_syntax.specs.text.Sorts.{IsWellSorted};
ghost use Rattle.sm_term.specs.Tables.{trees_in, sorts_in};
ghost use Rattle.sm_term.specs.TableLaws.{ExtendsTable};
ghost use Rattle.sm_plan.specs.Copies.{subsets};
ghost use Rattle.sm_plan.specs.Masks.{set_of};
ghost use Rattle.sm_moves.specs.CodeShapes.{has_hole};
ghost use Rattle.sm_moves.specs.Moves as moves;
ghost use Rattle.sm_moves.specs.Rests.{codes_in};
ghost use Rattle.sm_template.specs.Sites.{IsSiteOf, IsSiteReady};
ghost use Rattle.sm_sketch.specs.SketchViews.{sketch_in, IsSketchReady, AreSketchesReady};
ghost use Rattle.sm_product.specs.MiniProducts as spec;
ghost use Rattle.sm_product.specs.Paths.{IsFilled};
ghost use Rattle.sm_product.specs.LoopTurns.{turn_of, HaveLoops};
ghost use Rattle.sm_product.specs.Rooms.{IsRoom, TellsBeyond, TellAllBeyond, IsTaken};

use crate::mini::Drawing;
use crate::paths::pass;
use crate::rooms::Room;
use sm_moves::bodies;
use sm_plan::Continuation;
use sm_sketch::{ProductError, Sketch, ends, looped};
use sm_syntax::PerCopy;
use sm_template::loop_templates;
use sm_term::TermTable;
use std::alloc::Global;

impl<'s, 'a> Drawing<'s, 'a> {
    /// The loops of some copies, and what comes after them.
    #[cycle(mini)]
    pub(crate) fn draw_loops(
        &self,
        alloc: Global,
        table: &mut TermTable,
        rests: &mut PerCopy<Continuation<'_>>,
        next: Sketch,
        room: Room,
        left: u8,
    ) -> Result<Sketch, ProductError>
        requires set { self.now.set ≤ 15 }
        requires left { left ≤ 15 }
        requires site { IsSiteReady (sorts_in table.old) self.now.site.now }
        requires sorted { (c : Copy) → IsWellSorted (sorts_in table.old) (codes_in rests.old c) }
        requires filled { IsFilled (set_of self.now.set) (codes_in rests.old) }
        requires next { IsSketchReady (sorts_in table.old) (trees_in table.old) next }
        requires room { IsRoom room }
        requires last { moves.Loops (set_of left)
            ≡ moves.move_of (set_of self.now.set) (codes_in rests.old) }
        ensures drawn { let after = sketch_in (sorts_in table.old) (trees_in table.old) next in
            (t : Parts) → IsSiteOf t self.now.site.now → IfOk result (λ s.
            sketch_in (sorts_in table.new) (trees_in table.new) s
            ≡ spec.drawn t (set_of self.now.set) (codes_in rests.old) after (spec.side_by_side t)
            (moves.Loops (set_of left))) }
        ensures err { let after = sketch_in (sorts_in table.old) (trees_in table.old) next in
            (t : Parts) → IsSiteOf t self.now.site.now → IfErr result (λ e. TellsBeyond room e
            (spec.drawn t (set_of self.now.set) (codes_in rests.old) after (spec.side_by_side t)
            (moves.Loops (set_of left)))) }
        ensures ready { IfOk result (IsSketchReady (sorts_in table.new) (trees_in table.new)) }
        ensures widens { ExtendsTable table.old table.new }
    {
        let mut below = room.below_node()?;
        let templates = loop_templates(alloc, table, self.site, left, rests)?;
        let loops = Drawing {
            site: self.site,
            set: left,
        };
        let turns = loops.draw_turns(alloc, table, rests, &mut below)?;
        pass(rests, left);
        let after = self.draw(alloc, table, rests, next, below)?;
        looped(alloc, left, templates, turns, after)
    }

    // A turn of the loops of each set of copies that is in the drawing's, by ascending masks. What
    // they have is taken from the room.
    #[cycle(mini)]
    fn draw_turns(
        &self,
        alloc: Global,
        table: &mut TermTable,
        rests: &PerCopy<Continuation<'_>>,
        room: &mut Room,
    ) -> Result<Vec<Sketch>, ProductError>
        requires set { self.now.set ≤ 15 }
        requires site { IsSiteReady (sorts_in table.old) self.now.site.now }
        requires sorted { (c : Copy) → IsWellSorted (sorts_in table.old) (codes_in rests.now c) }
        requires no_hole { (c : Copy) → has_hole (codes_in rests.now c) ≡ false }
        requires loops { HaveLoops (set_of self.now.set) (codes_in rests.now) }
        requires room { IsRoom room.old }
        ensures drawn { (t : Parts) → IsSiteOf t self.now.site.now → IfOk result (λ v.
            map (sketch_in (sorts_in table.new) (trees_in table.new)) v.items
            ≡ map (turn_of t (codes_in rests.now)) (subsets (set_of self.now.set))) }
        ensures err { (t : Parts) → IsSiteOf t self.now.site.now → IfErr result (λ e.
            TellAllBeyond room.old e
            (map (turn_of t (codes_in rests.now)) (subsets (set_of self.now.set)))) }
        ensures ready { IfOk result (λ v.
            AreSketchesReady (sorts_in table.new) (trees_in table.new) v.items) }
        ensures taken { (t : Parts) → IsSiteOf t self.now.site.now → OnOk result (
            IsTaken room.old room.new
            (map (turn_of t (codes_in rests.now)) (subsets (set_of self.now.set)))) }
        ensures room { OnOk result (IsRoom room.new) }
        ensures widens { ExtendsTable table.old table.new }
    {
        let mut turns = Vec::new(alloc);
        for smaller in 0..15u8 {
            self.draw_turn(alloc, table, rests, smaller + 1, room, &mut turns)?;
        }
        Ok(turns)
    }

    // Puts a turn behind others, where its copies are in the drawing's set.
    #[cycle(mini)]
    fn draw_turn(
        &self,
        alloc: Global,
        table: &mut TermTable,
        rests: &PerCopy<Continuation<'_>>,
        turning: u8,
        room: &mut Room,
        turns: &mut Vec<Sketch>,
    ) -> Result<(), ProductError>
        requires turning { (1 ≤ turning) × (turning ≤ 15) }
        requires set { self.now.set ≤ 15 }
        requires site { IsSiteReady (sorts_in table.old) self.now.site.now }
        requires sorted { (c : Copy) → IsWellSorted (sorts_in table.old) (codes_in rests.now c) }
        requires no_hole { (c : Copy) → has_hole (codes_in rests.now c) ≡ false }
        requires loops { HaveLoops (set_of self.now.set) (codes_in rests.now) }
        requires room { IsRoom room.old }
        requires turns { AreSketchesReady (sorts_in table.old) (trees_in table.old) turns.old.items }
        ensures drawn { (t : Parts) → IsSiteOf t self.now.site.now → OnOk result (
            map (sketch_in (sorts_in table.new) (trees_in table.new)) turns.new.items
            ≡ map (sketch_in (sorts_in table.old) (trees_in table.old)) turns.old.items
            ++ map (λ m. turn_of t (codes_in rests.now) (set_of m))
            (if bit_and turning self.now.set == turning then turning ∷ [] else [])) }
        ensures err { (t : Parts) → IsSiteOf t self.now.site.now → IfErr result (λ e.
            TellAllBeyond room.old e
            (map (λ m. turn_of t (codes_in rests.now) (set_of m))
            (if bit_and turning self.now.set == turning then turning ∷ [] else []))) }
        ensures ready { OnOk result
            (AreSketchesReady (sorts_in table.new) (trees_in table.new) turns.new.items) }
        ensures taken { (t : Parts) → IsSiteOf t self.now.site.now → OnOk result (
            IsTaken room.old room.new
            (map (λ m. turn_of t (codes_in rests.now) (set_of m))
            (if bit_and turning self.now.set == turning then turning ∷ [] else []))) }
        ensures room { OnOk result (IsRoom room.new) }
        ensures widens { ExtendsTable table.old table.new }
    {
        if turning & self.set == turning {
            let loops = Drawing {
                site: self.site,
                set: turning,
            };
            let turn = loops.draw_body(alloc, table, rests, *room)?;
            *room = room.without(turn.extent.nodes)?;
            turns.push(turn)?;
        }
        Ok(())
    }

    // A turn of the loops of the drawing's copies.
    #[cycle(mini)]
    fn draw_body(
        &self,
        alloc: Global,
        table: &mut TermTable,
        rests: &PerCopy<Continuation<'_>>,
        room: Room,
    ) -> Result<Sketch, ProductError>
        requires set { (1 ≤ self.now.set) × (self.now.set ≤ 15) }
        requires site { IsSiteReady (sorts_in table.old) self.now.site.now }
        requires sorted { (c : Copy) → IsWellSorted (sorts_in table.old) (codes_in rests.now c) }
        requires no_hole { (c : Copy) → has_hole (codes_in rests.now c) ≡ false }
        requires loops { HaveLoops (set_of self.now.set) (codes_in rests.now) }
        requires room { IsRoom room }
        ensures drawn { (t : Parts) → IsSiteOf t self.now.site.now → IfOk result (λ s.
            sketch_in (sorts_in table.new) (trees_in table.new) s
            ≡ turn_of t (codes_in rests.now) (set_of self.now.set)) }
        ensures err { (t : Parts) → IsSiteOf t self.now.site.now → IfErr result (λ e.
            TellsBeyond room e (turn_of t (codes_in rests.now) (set_of self.now.set))) }
        ensures ready { IfOk result (IsSketchReady (sorts_in table.new) (trees_in table.new)) }
        ensures widens { ExtendsTable table.old table.new }
    {
        let mut code = bodies(alloc, rests, self.set)?;
        self.draw(alloc, table, &mut code, ends(alloc), room)
    }
}
