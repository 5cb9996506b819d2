// Two classes become one, with entries that say that each place of it equals its label.
ghost use Rattle.std.specs.Prelude.{◌≡◌, ◌<◌, OnOk, IfOk, IsTrue, length, slice_set};
ghost use Rattle.sm_cc.specs.Log.{AreIn};
ghost use Rattle.sm_cc.specs.Closures.{IsSound, IsNoted, Grows, are_together};
ghost use Rattle.sm_cc.specs.Merges.{AddsSome, Bridges, Orients, Crosses, MovesRoot, MovesRoots, IsCoarser};

use crate::closure::{Closure, chained, turned};
use crate::log::Equation;
use std::alloc::AllocError;

// Adds the equation of the left side's label and the right side.
fn outward(c: &mut Closure, e: Equation) -> Result<Equation, AllocError>
    requires sound { IsSound c.old }
    requires noted { IsNoted c.old e }
    requires there { AreIn c.old.rows.items e.left e.right }
    ensures { IfOk result (λ r. AddsSome c.old c.new r e) }
{
    let root = c.roots[e.left as usize];
    let back = turned(c, root)?;
    chained(c, back, e)
}

// Adds the equation of the labels of two places that are equal.
fn bridge(c: &mut Closure, e: Equation) -> Result<Equation, AllocError>
    requires sound { IsSound c.old }
    requires noted { IsNoted c.old e }
    requires there { AreIn c.old.rows.items e.left e.right }
    ensures { IfOk result (λ b. Bridges c.old c.new b e) }
{
    let root = c.roots[e.right as usize];
    let f = outward(c, e)?;
    chained(c, f, root)
}

// How many places have a label.
fn size_of(c: &Closure, label: u64) -> usize {
    c.roots.iter().filter(|r| r.right == label).count()
}

// Turns an equation of labels, if the left one has more places.
fn oriented(c: &mut Closure, b: Equation) -> Result<Equation, AllocError>
    requires sound { IsSound c.old }
    requires noted { IsNoted c.old b }
    ensures { IfOk result (λ r. Orients c.old c.new r b) }
{
    if size_of(c, b.left) <= size_of(c, b.right) {
        return Ok(b);
    }
    turned(c, b)
}

// Adds the equation of the labels of two places, from that with fewer places.
fn crossing(c: &mut Closure, e: Equation) -> Result<Equation, AllocError>
    requires sound { IsSound c.old }
    requires noted { IsNoted c.old e }
    requires there { AreIn c.old.rows.items e.left e.right }
    ensures { IfOk result (λ r. Crosses c.old c.new r e) }
{
    let b = bridge(c, e)?;
    oriented(c, b)
}

// Gives a place another root.
fn set_root(c: &mut Closure, k: usize, e: Equation)
    requires sound { IsSound c.old }
    requires there { k < length c.old.roots.items }
    requires left { e.left ≡ k }
    requires noted { IsNoted c.old e }
    ensures grows { Grows c.old c.new }
    ensures root { c.new.roots.items ≡ slice_set c.old.roots.items k e }
{
    c.roots[k] = e;
}

// Gives a place the other label, if it has the one.
fn move_root(c: &mut Closure, k: usize, b: Equation) -> Result<(), AllocError>
    requires sound { IsSound c.old }
    requires there { k < length c.old.roots.items }
    requires noted { IsNoted c.old b }
    ensures { OnOk result (MovesRoot c.old c.new b k) }
{
    let root = c.roots[k];
    if root.right != b.left {
        return Ok(());
    }
    let moved = chained(c, root, b)?;
    set_root(c, k, moved);
    Ok(())
}

// Gives all places that have the one label the other.
fn move_roots(c: &mut Closure, b: Equation) -> Result<(), AllocError>
    requires sound { IsSound c.old }
    requires noted { IsNoted c.old b }
    ensures { OnOk result (MovesRoots c.old c.new b) }
{
    for k in 0..c.roots.len() {
        move_root(c, k, b)?;
    }
    Ok(())
}

/// The classes of two places that are equal become one.
pub(crate) fn merge(c: &mut Closure, e: Equation) -> Result<(), AllocError>
    requires sound { IsSound c.old }
    requires noted { IsNoted c.old e }
    requires there { AreIn c.old.rows.items e.left e.right }
    ensures grows { OnOk result (Grows c.old c.new) }
    ensures together { OnOk result (IsTrue (are_together c.new.roots.items e.left e.right)) }
    ensures coarser { OnOk result (IsCoarser c.old.roots.items c.new.roots.items) }
{
    let b = crossing(c, e)?;
    move_roots(c, b)
}
