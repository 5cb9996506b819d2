// The classes of places with the log of how they were found. Here entries are added to the log.
ghost use Rattle.std.specs.Prelude.{◌≡◌, ◌<◌, [], IfOk, OnOk, length};
ghost use Rattle.sm_cc.specs.Log.{Follows};
ghost use Rattle.sm_cc.specs.Closures.{IsSound, IsNoted, IsContrary, placed_of, Noted, Adds, AddsEquation, AddsContrary};
ghost use Rattle.sm_cc.specs.Exact.{IsExact, nothing_given};

use crate::log::{Contrary, Entry, Equation, Given, Known, Rule, Why};
use crate::row::Row;
use std::alloc::{AllocError, Global};

/// The classes of places: each place equals the label of its class.
pub(crate) struct Closure {
    pub(crate) rows: Vec<Row>,
    pub(crate) equal: Vec<Given>,
    pub(crate) unequal: Vec<Given>,
    /// What is known, each fact by a rule from earlier ones.
    pub(crate) entries: Vec<Entry>,
    /// For each place the equation of it and its label.
    pub(crate) roots: Vec<Equation>,
}

// One call ends a value, and not one for each field: proofs of what has it stay small.
impl Drop for Closure {
    fn drop(self) {
        let Self {
            rows: _,
            equal: _,
            unequal: _,
            entries: _,
            roots: _,
        } = self;
    }
}

// Adds an entry, which has the next number.
fn note(c: &mut Closure, why: Why, known: Known) -> Result<u64, AllocError>
    requires sound { IsSound c.old }
    requires follows { Follows (placed_of c.old) (Noted c.old.entries.items) why known }
    ensures adds { IfOk result (λ n. Adds c.old c.new n known) }
    ensures more { OnOk result (length c.old.entries.items < length c.new.entries.items) }
{
    let number = c.entries.len() as u64;
    c.entries.push(Entry { why, known })?;
    Ok(number)
}

// Adds an equation.
pub(crate) fn equate(c: &mut Closure, why: Why, i: u64, j: u64) -> Result<Equation, AllocError>
    requires sound { IsSound c.old }
    requires follows { Follows (placed_of c.old) (Noted c.old.entries.items) why (Known.Equal i j) }
    ensures adds { IfOk result (λ e. AddsEquation c.old c.new e i j) }
    ensures more { OnOk result (length c.old.entries.items < length c.new.entries.items) }
{
    let entry = note(c, why, Known::Equal(i, j))?;
    Ok(Equation {
        left: i,
        right: j,
        entry,
    })
}

// Adds the contrary of an equation.
pub(crate) fn part(c: &mut Closure, why: Why, i: u64, j: u64) -> Result<Contrary, AllocError>
    requires sound { IsSound c.old }
    requires follows { let log = c.old.entries.items in
        Follows (placed_of c.old) (Noted log) why (Known.Unequal i j) }
    ensures { IfOk result (λ e. AddsContrary c.old c.new e i j) }
{
    let entry = note(c, why, Known::Unequal(i, j))?;
    Ok(Contrary {
        left: i,
        right: j,
        entry,
    })
}

// The other way round of an equation.
pub(crate) fn turned(c: &mut Closure, e: Equation) -> Result<Equation, AllocError>
    requires sound { IsSound c.old }
    requires noted { IsNoted c.old e }
    ensures { IfOk result (λ r. AddsEquation c.old c.new r e.right e.left) }
{
    if e.left == e.right {
        return Ok(e);
    }
    equate(c, Why::By(Rule::Sym(e.entry)), e.right, e.left)
}

// What two equations give that share a place.
pub(crate) fn chained(c: &mut Closure, e: Equation, f: Equation) -> Result<Equation, AllocError>
    requires sound { IsSound c.old }
    requires first { IsNoted c.old e }
    requires second { IsNoted c.old f }
    requires shared { e.right ≡ f.left }
    ensures { IfOk result (λ r. AddsEquation c.old c.new r e.left f.right) }
{
    if e.left == e.right {
        return Ok(f);
    }
    if f.left == f.right {
        return Ok(e);
    }
    equate(c, Why::By(Rule::Trans(e.entry, f.entry)), e.left, f.right)
}

// Adds the other way round of the contrary of an equation.
pub(crate) fn turned_contrary(c: &mut Closure, e: Contrary) -> Result<Contrary, AllocError>
    requires sound { IsSound c.old }
    requires noted { IsContrary c.old e }
    ensures { IfOk result (λ r. AddsContrary c.old c.new r e.right e.left) }
{
    part(c, Why::By(Rule::Sym(e.entry)), e.right, e.left)
}

// Puts into a contrary what its left side equals.
pub(crate) fn substituted(c: &mut Closure, e: Contrary, f: Equation) -> Result<Contrary, AllocError>
    requires sound { IsSound c.old }
    requires contrary { IsContrary c.old e }
    requires equation { IsNoted c.old f }
    requires shared { e.left ≡ f.left }
    ensures { IfOk result (λ r. AddsContrary c.old c.new r f.right e.right) }
{
    if f.left == f.right {
        return Ok(e);
    }
    part(c, Why::By(Rule::Subst(e.entry, f.entry)), f.right, e.right)
}

/// No places.
pub(crate) fn empty(alloc: Global) -> Closure
    ensures exact { IsExact result }
    ensures none { placed_of result ≡ nothing_given [] }
{
    Closure {
        rows: Vec::new(alloc),
        equal: Vec::new(alloc),
        unequal: Vec::new(alloc),
        entries: Vec::new(alloc),
        roots: Vec::new(alloc),
    }
}
