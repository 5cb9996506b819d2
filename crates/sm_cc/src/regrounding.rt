// The rules are applied to classes that begin with others, where these bring nothing more among
// themselves.
ghost use Rattle.std.specs.Prelude.{◌≡◌, ◌<◌, ℕ, ℤ, Bool, IsTrue, Option, Some, List, OnOk, IfOk, length, slice_get};
ghost use Rattle.sm_cc.specs.Rows.{ArePlacesClosed};
ghost use Rattle.sm_cc.specs.Closures.{IsSound, Grows, board_of, are_together};
ghost use Rattle.sm_cc.specs.Exact.{IsExact};
ghost use Rattle.sm_cc.specs.Settled.{AreSettled, Tries};
ghost use Rattle.sm_cc.specs.Firsts.{Key as Told, AreFirsts, met_at, first_met, key_told, alike_at, headed_at, label_at, KeysBring, TriesFirst, AreAlikeSettled, AreHeadedSettled};
ghost use Rattle.sm_cc.specs.BaseClasses.{AreInside, AreKeyed};
ghost use Rattle.sm_cc.specs.Growing.{AreKept};
ghost use Rattle.sm_cc.specs.Regrounding.{over_at, KeysMeet, MeetsFirst, AreLabelsKept, IsOver};

use crate::closure::Closure;
use crate::ground::BaseClasses;
use crate::keys::{Key, Met, alike_key, first_place, head_key, label_of};
use crate::rounds::{relate_alike, relate_headed, relate_rows_there, relate_single};
use std::alloc::{AllocError, Global};
use std::collections::HashMap;

// A place is met, if it has a key that wasn't met before.
fn meet(met: &mut Met, key: Option<Key>, i: u64) -> Result<(), AllocError>
    ensures { (key_of : ℕ → Option (List (ℕ × ℤ))) → (equal : ℕ → ℕ → Bool) → (bound : ℕ) →
        KeysMeet key_of equal bound → i < bound → key_of i ≡ key_told key →
        OnOk result (MeetsFirst key_of equal i (met_at met.old) (met_at met.new)) }
{
    match key {
        Some(key) => {
            first_place(met, key, i)?;
            Ok(())
        }
        None => Ok(()),
    }
}

/// The first places that have the keys of forms.
pub(crate) fn alike_places(alloc: Global, c: &Closure) -> Result<Met, AllocError>
    requires { IsExact c.now }
    ensures { IfOk result (λ met. AreFirsts (alike_at c.now) (are_together c.now.roots.items)
        (met_at met) (length c.now.rows.items)) }
{
    let mut met = HashMap::new(alloc);
    for i in 0..c.rows.len() {
        let key = alike_key(alloc, c, i as u64)?;
        meet(&mut met, key, i as u64)?;
    }
    Ok(met)
}

/// The first places that have the keys of heads with arguments.
pub(crate) fn headed_places(alloc: Global, c: &Closure) -> Result<Met, AllocError>
    requires { IsExact c.now }
    ensures { IfOk result (λ met. AreFirsts (headed_at c.now) (are_together c.now.roots.items)
        (met_at met) (length c.now.rows.items)) }
{
    let mut met = HashMap::new(alloc);
    for i in 0..c.rows.len() {
        let key = head_key(alloc, c, i as u64)?;
        meet(&mut met, key, i as u64)?;
    }
    Ok(met)
}

// Whether a place has one label in two classes.
fn is_label_kept(old: &Closure, c: &Closure, place: u64) -> bool
    ensures { IsTrue result →
        label_at (slice_get c.now.roots.items place)
        ≡ label_at (slice_get old.now.roots.items place) }
{
    match (label_of(old, place), label_of(c, place)) {
        (Some(label), Some(now)) => label == now,
        _ => false,
    }
}

// Whether the first places have the labels that they have in other classes.
fn are_labels_kept(old: &Closure, c: &Closure) -> bool
    ensures { IsTrue result →
        AreLabelsKept (length old.now.rows.items) old.now.roots.items c.now.roots.items }
{
    for k in 0..old.rows.len() {
        if !is_label_kept(old, c, k as u64) {
            return false;
        }
    }
    true
}

/// The first place that has a key, by a map of earlier ones: this one, where it wasn't met at all.
pub(crate) fn first_over(base: &Met, met: &mut Met, key: Key, place: u64) -> Result<u64, AllocError>
    ensures met { OnOk result ((v : Told) →
        over_at (met_at base.now) (met_at met.new) v.items
        ≡ first_met (over_at (met_at base.now) (met_at met.old) v.items)
        key.items v.items place) }
    ensures first { IfOk result (λ j.
        over_at (met_at base.now) (met_at met.new) key.items ≡ Some j) }
{
    match base.get(&key) {
        Some(first) => Ok(*first),
        None => {
            let first = first_place(met, key, place)?;
            Ok(first)
        }
    }
}

// A place comes into one class with the first that has its key, if it has one.
fn relate_first_over(
    alloc: Global,
    base: &Met,
    c: &mut Closure,
    met: &mut Met,
    key: Option<Key>,
    i: u64,
) -> Result<(), AllocError>
    requires sound { IsSound c.old }
    requires there { i < length c.old.rows.items }
    ensures { (key_of : ℕ → Option (List (ℕ × ℤ))) → KeysBring key_of c.old →
        key_of i ≡ key_told key →
        OnOk result (TriesFirst key_of i c.old c.new
        (over_at (met_at base.now) (met_at met.old)) (over_at (met_at base.now) (met_at met.new))) }
{
    match key {
        Some(key) => {
            let j = first_over(base, met, key, i)?;
            relate_rows_there(alloc, c, i, j)
        }
        None => Ok(()),
    }
}

// Places of one linear form come into one class, where the first places have the labels that they
// had: these are together already.
fn relate_alike_behind(
    alloc: Global,
    ground: &BaseClasses,
    c: &mut Closure,
) -> Result<(), AllocError>
    requires sound { IsSound c.old }
    requires over { IsOver ground.now c.old }
    requires labels { AreLabelsKept (length ground.now.closure.rows.items)
        ground.now.closure.roots.items c.old.roots.items }
    ensures { OnOk result (Tries AreAlikeSettled c.old c.new) }
{
    let mut met = HashMap::new(alloc);
    for i in ground.closure.rows.len()..c.rows.len() {
        let key = alike_key(alloc, c, i as u64)?;
        relate_first_over(alloc, &ground.alike, c, &mut met, key, i as u64)?;
    }
    Ok(())
}

// So do places of one head whose arguments are equal.
fn relate_headed_behind(
    alloc: Global,
    ground: &BaseClasses,
    c: &mut Closure,
) -> Result<(), AllocError>
    requires sound { IsSound c.old }
    requires over { IsOver ground.now c.old }
    requires labels { AreLabelsKept (length ground.now.closure.rows.items)
        ground.now.closure.roots.items c.old.roots.items }
    ensures { OnOk result (Tries AreHeadedSettled c.old c.new) }
{
    let mut met = HashMap::new(alloc);
    for i in ground.closure.rows.len()..c.rows.len() {
        let key = head_key(alloc, c, i as u64)?;
        relate_first_over(alloc, &ground.headed, c, &mut met, key, i as u64)?;
    }
    Ok(())
}

// Places of one linear form come into one class.
fn relate_alike_over(alloc: Global, ground: &BaseClasses, c: &mut Closure) -> Result<(), AllocError>
    requires sound { IsSound c.old }
    requires over { IsOver ground.now c.old }
    ensures { OnOk result (Tries AreAlikeSettled c.old c.new) }
{
    if are_labels_kept(&ground.closure, c) {
        return relate_alike_behind(alloc, ground, c);
    }
    relate_alike(alloc, c)
}

// Places of one head whose arguments are equal come into one class.
fn relate_headed_over(
    alloc: Global,
    ground: &BaseClasses,
    c: &mut Closure,
) -> Result<(), AllocError>
    requires sound { IsSound c.old }
    requires over { IsOver ground.now c.old }
    ensures { OnOk result (Tries AreHeadedSettled c.old c.new) }
{
    if are_labels_kept(&ground.closure, c) {
        return relate_headed_behind(alloc, ground, c);
    }
    relate_headed(alloc, c)
}

// Applies each rule once wherever it can give something new.
fn round_over(alloc: Global, ground: &BaseClasses, c: &mut Closure) -> Result<(), AllocError>
    requires sound { IsSound c.old }
    requires over { IsOver ground.now c.old }
    ensures { OnOk result (Tries AreSettled c.old c.new) }
{
    relate_single(alloc, c)?;
    relate_alike_over(alloc, ground, c)?;
    relate_headed_over(alloc, ground, c)
}

/// Places come into one class until no rule brings more. While the first places have the labels
/// that they had, only the keys of those behind them are made.
pub(crate) fn settle_over(
    alloc: Global,
    ground: &BaseClasses,
    c: &mut Closure,
) -> Result<(), AllocError>
    requires sound { IsSound c.old }
    requires kept { AreKept ground.now.closure.rows.items c.old.rows.items }
    requires keyed { AreKeyed ground.now }
    requires inside { AreInside ground.now.closure.rows.items }
    ensures grows { OnOk result (Grows c.old c.new) }
    ensures closed { let equal = are_together c.new.roots.items in
        OnOk result (ArePlacesClosed (board_of c.new) equal) }
{
    loop {
        let count = c.entries.len();
        round_over(alloc, ground, c)?;
        if c.entries.len() == count {
            return Ok(());
        }
    }
}
