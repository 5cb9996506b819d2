// The rules are applied until they bring nothing more.
ghost use Rattle.std.specs.Prelude.{◌≡◌, ◌<◌, ℕ, ℤ, Option, List, OnOk, length};
ghost use Rattle.sm_cc.specs.Rows.{ArePlacesClosed};
ghost use Rattle.sm_cc.specs.Closures.{IsSound, Grows, board_of, placed_of, are_together};
ghost use Rattle.sm_cc.specs.Settled.{IsSettledAt, IsSettledThere, AreGivenSettled, IsReadSettled, IsElementSettled, AreElementsSettled, AreSinglesSettled, ArePairSettled, AllPairsSettled, AreSettled, Tries};
ghost use Rattle.sm_cc.specs.Firsts.{met_at, key_told, KeysBring, TriesFirst, IsPairThere, AreAlikeSettled, AreHeadedSettled};
ghost use Rattle.sm_cc.specs.Causes.{IsCauseOf};

use crate::cause::{Cause, cause_of, pair_cause};
use crate::closure::Closure;
use crate::compare::together;
use crate::derive::derive;
use crate::keys::{Key, Met, alike_key, first_place, head_key};
use crate::merge::merge;
use crate::row::Element;
use std::alloc::{AllocError, Global};
use std::collections::HashMap;

// Two places that are equal come into one class.
fn apply(alloc: Global, c: &mut Closure, cause: Cause, i: u64, j: u64) -> Result<(), AllocError>
    requires sound { IsSound c.old }
    requires cause { IsCauseOf (placed_of c.old) (are_together c.old.roots.items) cause i j }
    ensures grows { OnOk result (Grows c.old c.new) }
    ensures more { OnOk result (length c.old.entries.items < length c.new.entries.items) }
{
    let e = derive(alloc, c, cause, i, j)?;
    merge(c, e)
}

// Two places come into one class, if a rule says so.
fn relate(alloc: Global, c: &mut Closure, i: u64, j: u64) -> Result<(), AllocError>
    requires sound { IsSound c.old }
    requires left { i < length c.old.rows.items }
    requires right { j < length c.old.rows.items }
    ensures { OnOk result (Tries (IsSettledAt i j) c.old c.new) }
{
    if together(c, i, j) {
        return Ok(());
    }
    match cause_of(c, i, j) {
        Some(cause) => apply(alloc, c, cause, i, j),
        None => Ok(()),
    }
}

// Two places come into one class, if a rule says so and both are there.
fn relate_there(alloc: Global, c: &mut Closure, i: u64, j: u64) -> Result<(), AllocError>
    requires sound { IsSound c.old }
    ensures { OnOk result (Tries (IsSettledThere i j) c.old c.new) }
{
    let count = c.rows.len() as u64;
    if i < count && j < count {
        return relate(alloc, c, i, j);
    }
    Ok(())
}

// The places that were given to be equal come into one class, if a rule says so.
fn relate_given(alloc: Global, c: &mut Closure) -> Result<(), AllocError>
    requires { IsSound c.old }
    ensures { OnOk result (Tries AreGivenSettled c.old c.new) }
{
    for k in 0..c.equal.len() {
        let g = c.equal[k];
        relate_there(alloc, c, g.left, g.right)?;
    }
    Ok(())
}

// An element that is read, what was written and what stood there before come into one class, if a
// rule says so.
fn relate_element(alloc: Global, c: &mut Closure, i: u64) -> Result<(), AllocError>
    requires sound { IsSound c.old }
    requires there { i < length c.old.rows.items }
    ensures { OnOk result (Tries (IsElementSettled i) c.old c.new) }
{
    match c.rows[i as usize].element {
        Some(e) => relate_read(alloc, c, e, i),
        None => Ok(()),
    }
}

// A place, what was written and what stood there before come into one class, if a rule says so.
fn relate_read(alloc: Global, c: &mut Closure, e: Element, i: u64) -> Result<(), AllocError>
    requires sound { IsSound c.old }
    ensures { OnOk result (Tries (IsReadSettled e i) c.old c.new) }
{
    relate_there(alloc, c, i, e.written)?;
    relate_there(alloc, c, i, e.before)
}

// All elements that are read come into the classes that rules say.
fn relate_elements(alloc: Global, c: &mut Closure) -> Result<(), AllocError>
    requires { IsSound c.old }
    ensures { OnOk result (Tries AreElementsSettled c.old c.new) }
{
    for i in 0..c.rows.len() {
        relate_element(alloc, c, i as u64)?;
    }
    Ok(())
}

// Two places come into one class, if their forms or their arguments are equal.
fn relate_rows(alloc: Global, c: &mut Closure, i: u64, j: u64) -> Result<(), AllocError>
    requires sound { IsSound c.old }
    requires left { i < length c.old.rows.items }
    requires right { j < length c.old.rows.items }
    ensures { OnOk result (Tries (ArePairSettled i j) c.old c.new) }
{
    if together(c, i, j) {
        return Ok(());
    }
    match pair_cause(c, i, j) {
        Some(cause) => apply(alloc, c, cause, i, j),
        None => Ok(()),
    }
}

// Two places that are there come into one class, if their forms or their arguments are equal.
pub(crate) fn relate_rows_there(
    alloc: Global,
    c: &mut Closure,
    i: u64,
    j: u64,
) -> Result<(), AllocError>
    requires sound { IsSound c.old }
    ensures { OnOk result (Tries (IsPairThere i j) c.old c.new) }
{
    let count = c.rows.len() as u64;
    if i < count && j < count {
        return relate_rows(alloc, c, i, j);
    }
    Ok(())
}

// A place comes into one class with the first that has its key, if it has one.
fn relate_first(
    alloc: Global,
    c: &mut Closure,
    met: &mut Met,
    key: Option<Key>,
    i: u64,
) -> Result<(), AllocError>
    requires sound { IsSound c.old }
    requires there { i < length c.old.rows.items }
    ensures { (key_of : ℕ → Option (List (ℕ × ℤ))) → KeysBring key_of c.old →
        key_of i ≡ key_told key →
        OnOk result (TriesFirst key_of i c.old c.new (met_at met.old) (met_at met.new)) }
{
    match key {
        Some(key) => {
            let j = first_place(met, key, i)?;
            relate_rows_there(alloc, c, i, j)
        }
        None => Ok(()),
    }
}

// Places of one linear form come into one class.
pub(crate) fn relate_alike(alloc: Global, c: &mut Closure) -> Result<(), AllocError>
    requires { IsSound c.old }
    ensures { OnOk result (Tries AreAlikeSettled c.old c.new) }
{
    let mut met = HashMap::new(alloc);
    for i in 0..c.rows.len() {
        let key = alike_key(alloc, c, i as u64)?;
        relate_first(alloc, c, &mut met, key, i as u64)?;
    }
    Ok(())
}

// Places of one head whose arguments are equal come into one class.
pub(crate) fn relate_headed(alloc: Global, c: &mut Closure) -> Result<(), AllocError>
    requires { IsSound c.old }
    ensures { OnOk result (Tries AreHeadedSettled c.old c.new) }
{
    let mut met = HashMap::new(alloc);
    for i in 0..c.rows.len() {
        let key = head_key(alloc, c, i as u64)?;
        relate_first(alloc, c, &mut met, key, i as u64)?;
    }
    Ok(())
}

// Places whose forms or whose arguments are equal come into one class.
fn relate_pairs(alloc: Global, c: &mut Closure) -> Result<(), AllocError>
    requires { IsSound c.old }
    ensures { OnOk result (Tries AllPairsSettled c.old c.new) }
{
    relate_alike(alloc, c)?;
    relate_headed(alloc, c)
}

// Applies the rules that look at single places.
pub(crate) fn relate_single(alloc: Global, c: &mut Closure) -> Result<(), AllocError>
    requires { IsSound c.old }
    ensures { OnOk result (Tries AreSinglesSettled c.old c.new) }
{
    relate_given(alloc, c)?;
    relate_elements(alloc, c)
}

// Applies each rule once wherever it can give something.
fn round(alloc: Global, c: &mut Closure) -> Result<(), AllocError>
    requires { IsSound c.old }
    ensures { OnOk result (Tries AreSettled c.old c.new) }
{
    relate_single(alloc, c)?;
    relate_pairs(alloc, c)
}

/// Places come into one class until no rule brings more.
pub(crate) fn settle(alloc: Global, c: &mut Closure) -> Result<(), AllocError>
    requires { IsSound c.old }
    ensures grows { OnOk result (Grows c.old c.new) }
    ensures closed { let equal = are_together c.new.roots.items in
        OnOk result (ArePlacesClosed (board_of c.new) equal) }
{
    loop {
        let count = c.entries.len();
        round(alloc, c)?;
        if c.entries.len() == count {
            return Ok(());
        }
    }
}
