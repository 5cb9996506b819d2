// From why two places are equal to the entries that say so.
ghost use Rattle.std.specs.Prelude.{◌≡◌, ◌<◌, IfOk, OnOk, IsTrue, length, slice_get};
ghost use Rattle.sm_cc.specs.declared.log.Known.TheVariants.{Equal};
ghost use Rattle.sm_cc.specs.Rows.{equal_places};
ghost use Rattle.sm_cc.specs.Log.{AreIn, HasElement};
ghost use Rattle.sm_cc.specs.Closures.{IsSound, IsNoted, IsContrary, placed_of, are_together, Adds, AddsEquation, AddsContrary, AddsPremises, HaveArguments, arguments_at, argument_at};
ghost use Rattle.sm_cc.specs.Causes.{IsDifference, IsWitness, IsCauseOf};

use crate::cause::Cause;
use crate::closure::{Closure, chained, equate, part, substituted, turned, turned_contrary};
use crate::log::{Contrary, Equation, Rule, Why};
use crate::row::Element;
use crate::witness::{Difference, Witness};
use std::alloc::{AllocError, Global};

// Adds the equation of two places of a class.
fn join(c: &mut Closure, i: u64, j: u64) -> Result<Equation, AllocError>
    requires sound { IsSound c.old }
    requires together { IsTrue (are_together c.old.roots.items i j) }
    ensures { IfOk result (λ e. AddsEquation c.old c.new e i j) }
{
    let first = c.roots[i as usize];
    let second = c.roots[j as usize];
    let back = turned(c, second)?;
    chained(c, first, back)
}

// Adds the contrary that was given the other way round.
fn turned_given(c: &mut Closure, fact: u64, p: u64, q: u64) -> Result<Contrary, AllocError>
    requires sound { IsSound c.old }
    requires there { AreIn c.old.rows.items p q }
    requires differ { IsDifference (placed_of c.old) (Difference.Turned fact) p q }
    ensures { IfOk result (λ e. AddsContrary c.old c.new e p q) }
{
    let e = part(c, Why::Given(fact), q, p)?;
    turned_contrary(c, e)
}

// Adds the contrary of two places that differ.
fn differing(c: &mut Closure, p: u64, q: u64, d: Difference) -> Result<Contrary, AllocError>
    requires sound { IsSound c.old }
    requires there { AreIn c.old.rows.items p q }
    requires differ { IsDifference (placed_of c.old) d p q }
    ensures { IfOk result (λ e. AddsContrary c.old c.new e p q) }
{
    match d {
        Difference::Given(fact) => part(c, Why::Given(fact), p, q),
        Difference::Turned(fact) => turned_given(c, fact, p, q),
        Difference::Forms => part(c, Why::By(Rule::Apart), p, q),
    }
}

// Puts into a contrary a place of the class of its left side.
fn moved(c: &mut Closure, e: Contrary, i: u64) -> Result<Contrary, AllocError>
    requires sound { IsSound c.old }
    requires noted { IsContrary c.old e }
    requires together { IsTrue (are_together c.old.roots.items e.left i) }
    ensures { IfOk result (λ r. AddsContrary c.old c.new r i e.right) }
{
    let f = join(c, e.left, i)?;
    substituted(c, e, f)
}

// Puts into a contrary a place of the class of its left side, and turns it.
fn moved_over(c: &mut Closure, e: Contrary, i: u64) -> Result<Contrary, AllocError>
    requires sound { IsSound c.old }
    requires noted { IsContrary c.old e }
    requires together { IsTrue (are_together c.old.roots.items e.left i) }
    ensures { IfOk result (λ r. AddsContrary c.old c.new r e.right i) }
{
    let f = moved(c, e, i)?;
    turned_contrary(c, f)
}

// Puts into a contrary places of the classes of both sides.
fn moved_twice(c: &mut Closure, e: Contrary, i: u64, j: u64) -> Result<Contrary, AllocError>
    requires sound { IsSound c.old }
    requires noted { IsContrary c.old e }
    requires left { IsTrue (are_together c.old.roots.items e.left i) }
    requires right { IsTrue (are_together c.old.roots.items e.right j) }
    ensures { IfOk result (λ r. AddsContrary c.old c.new r i j) }
{
    let f = moved_over(c, e, i)?;
    moved_over(c, f, j)
}

// Adds the contrary of two places that equal places that differ.
fn contrary(c: &mut Closure, w: Witness, i: u64, j: u64) -> Result<Contrary, AllocError>
    requires sound { IsSound c.old }
    requires witness { IsWitness (placed_of c.old) (are_together c.old.roots.items) w i j }
    ensures { IfOk result (λ r. AddsContrary c.old c.new r i j) }
{
    let e = differing(c, w.left, w.right, w.difference)?;
    moved_twice(c, e, i, j)
}

// Adds the equation of an element that is read where one was written.
fn by_hit(c: &mut Closure, e: Element, i: u64, j: u64) -> Result<Equation, AllocError>
    requires sound { IsSound c.old }
    requires element { HasElement c.old.rows.items i e }
    requires there { j < length c.old.rows.items }
    requires together { IsTrue (are_together c.old.roots.items e.index e.other) }
    requires written { j ≡ e.written }
    ensures adds { IfOk result (λ r. AddsEquation c.old c.new r i j) }
    ensures more { OnOk result (length c.old.entries.items < length c.new.entries.items) }
{
    let f = join(c, e.index, e.other)?;
    equate(c, Why::By(Rule::Hit(f.entry)), i, j)
}

// Adds the equation of an element that is read at another place than one was written.
fn by_miss(c: &mut Closure, e: Element, w: Witness, i: u64, j: u64) -> Result<Equation, AllocError>
    requires sound { IsSound c.old }
    requires element { HasElement c.old.rows.items i e }
    requires there { j < length c.old.rows.items }
    requires witness { let equal = are_together c.old.roots.items in
        IsWitness (placed_of c.old) equal w e.index e.other }
    requires before { j ≡ e.before }
    ensures adds { IfOk result (λ r. AddsEquation c.old c.new r i j) }
    ensures more { OnOk result (length c.old.entries.items < length c.new.entries.items) }
{
    let f = contrary(c, w, e.index, e.other)?;
    equate(c, Why::By(Rule::Miss(f.entry)), i, j)
}

// Adds the equation of one argument of two places.
fn premise(c: &mut Closure, i: u64, j: u64, k: usize) -> Result<u64, AllocError>
    requires sound { IsSound c.old }
    requires there { AreIn c.old.rows.items i j }
    requires first { k < length (arguments_at c.old i) }
    requires second { k < length (arguments_at c.old j) }
    requires together { let equal = are_together c.old.roots.items in
        IsTrue (equal (argument_at c.old i k) (argument_at c.old j k)) }
    ensures { IfOk result (λ n.
        Adds c.old c.new n (Equal (argument_at c.old i k) (argument_at c.old j k))) }
{
    let left = c.rows[i as usize].arguments[k];
    let right = c.rows[j as usize].arguments[k];
    let e = join(c, left, right)?;
    Ok(e.entry)
}

// Adds the equations of the arguments of two places, one by one.
fn premises(alloc: Global, c: &mut Closure, i: u64, j: u64) -> Result<Vec<u64>, AllocError>
    requires sound { IsSound c.old }
    requires there { AreIn c.old.rows.items i j }
    requires arguments { let equal = are_together c.old.roots.items in
        IsTrue (equal_places equal (arguments_at c.old i) (arguments_at c.old j)) }
    ensures { IfOk result (λ ns.
        AddsPremises c.old c.new ns.items (arguments_at c.old i) (arguments_at c.old j)) }
{
    let mut numbers = Vec::new(alloc);
    for k in 0..c.rows[i as usize].arguments.len() {
        let n = premise(c, i, j, k)?;
        numbers.push(n)?;
    }
    Ok(numbers)
}

// Adds the equation of two places of one head whose arguments are equal.
fn by_arguments(alloc: Global, c: &mut Closure, i: u64, j: u64) -> Result<Equation, AllocError>
    requires sound { IsSound c.old }
    requires arguments { HaveArguments c.old i j }
    ensures adds { IfOk result (λ r. AddsEquation c.old c.new r i j) }
    ensures more { OnOk result (length c.old.entries.items < length c.new.entries.items) }
{
    let numbers = premises(alloc, c, i, j)?;
    equate(c, Why::By(Rule::Cong(numbers)), i, j)
}

/// Adds the equation of two places, with the entries that it follows from.
pub(crate) fn derive(
    alloc: Global,
    c: &mut Closure,
    cause: Cause,
    i: u64,
    j: u64,
) -> Result<Equation, AllocError>
    requires sound { IsSound c.old }
    requires cause { IsCauseOf (placed_of c.old) (are_together c.old.roots.items) cause i j }
    ensures adds { IfOk result (λ r. AddsEquation c.old c.new r i j) }
    ensures more { OnOk result (length c.old.entries.items < length c.new.entries.items) }
{
    match cause {
        Cause::Given(fact) => equate(c, Why::Given(fact), i, j),
        Cause::Alike => equate(c, Why::By(Rule::Alike), i, j),
        Cause::Arguments => by_arguments(alloc, c, i, j),
        Cause::Hit(e) => by_hit(c, e, i, j),
        Cause::Miss(e, w) => by_miss(c, e, w, i, j),
    }
}
