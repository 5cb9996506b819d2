// Keys by which places are found that are equal by their forms or by their arguments.
ghost use Rattle.std.specs.Prelude.{◌≡◌, ◌<◌, ℕ, Some, IfOk, OnOk, length, slice_get};
ghost use Rattle.sm_cc.specs.Firsts.{Key as Told, met_at, first_met, key_told, alike_at, headed_at, shape_key, row_key, label_at, labels_of, with_labels};

use crate::closure::Closure;
use crate::log::Equation;
use crate::row::Row;
use std::alloc::{AllocError, Global};
use std::collections::HashMap;

/// What tells a linear form, or a head with the labels of its arguments.
pub(crate) type Key = Vec<(u64, i128)>;

/// The first places that have the keys that were met.
pub(crate) type Met = HashMap<Key, u64>;

/// The first place that has a key: this one, where it wasn't met before.
pub(crate) fn first_place(met: &mut Met, key: Key, place: u64) -> Result<u64, AllocError>
    ensures met { OnOk result ((v : Told) →
        met_at met.new v.items ≡ first_met (met_at met.old v.items) key.items v.items place) }
    ensures first { IfOk result (λ j. met_at met.new key.items ≡ Some j) }
{
    match met.get(&key) {
        Some(first) => Ok(*first),
        None => {
            met.insert(key, place)?;
            Ok(place)
        }
    }
}

/// The key of a row by its linear form, where it has one.
pub(crate) fn form_key(alloc: Global, row: &Row) -> Result<Option<Key>, AllocError>
    ensures { IfOk result (λ o. key_told o ≡ shape_key row.now.shape) }
{
    match row.shape {
        Some(shape) => {
            let mut key = Vec::new(alloc);
            key.push((shape.parts, shape.constant))?;
            Ok(Some(key))
        }
        None => Ok(None),
    }
}

/// The key of a row by its head and the labels of its arguments, where it has a head.
pub(crate) fn argument_key(
    alloc: Global,
    roots: &[Equation],
    row: &Row,
) -> Result<Option<Key>, AllocError>
    ensures { IfOk result (λ o. key_told o ≡ row_key roots.now row.now) }
{
    match row.head {
        Some(head) => {
            let mut key = Vec::new(alloc);
            key.push((head, 0))?;
            labelled(roots, &row.arguments, key)
        }
        None => Ok(None),
    }
}

/// The key of a place by its linear form, where it has one.
pub(crate) fn alike_key(alloc: Global, c: &Closure, i: u64) -> Result<Option<Key>, AllocError>
    requires { i < length c.now.rows.items }
    ensures { IfOk result (λ o. key_told o ≡ alike_at c.now i) }
{
    form_key(alloc, &c.rows[i as usize])
}

/// The key of a place by its head and the labels of its arguments, where it has a head.
pub(crate) fn head_key(alloc: Global, c: &Closure, i: u64) -> Result<Option<Key>, AllocError>
    requires { i < length c.now.rows.items }
    ensures { IfOk result (λ o. key_told o ≡ headed_at c.now i) }
{
    argument_key(alloc, &c.roots, &c.rows[i as usize])
}

/// A key with the labels of places behind it, where each is there.
pub(crate) fn labelled(
    roots: &[Equation],
    places: &[u64],
    mut key: Key,
) -> Result<Option<Key>, AllocError>
    ensures { IfOk result (λ o.
        key_told o ≡ with_labels key.items (labels_of roots.now places.now)) }
{
    for place in places {
        match label_in(roots, *place) {
            Some(label) => key.push((label, 0))?,
            None => return Ok(None),
        }
    }
    Ok(Some(key))
}

/// The label of a place, where it is there.
pub(crate) fn label_of(c: &Closure, place: u64) -> Option<u64>
    ensures { result ≡ label_at (slice_get c.now.roots.items place) }
{
    label_in(&c.roots, place)
}

/// The label of a place, where it is there, by the equations of places and their labels.
pub(crate) fn label_in(roots: &[Equation], place: u64) -> Option<u64>
    ensures { result ≡ label_at (slice_get roots.now place) }
{
    match roots.get(place as usize) {
        Some(root) => Some(root.right),
        None => None,
    }
}
