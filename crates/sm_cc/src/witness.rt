// Places that differ and equal two others.
ghost use Rattle.std.specs.Prelude.{◌≡◌, ◌<◌, ◌&&◌, false, length, MatchOption};
ghost use Rattle.sm_cc.specs.Rows.{places_differ, places_apart};
ghost use Rattle.sm_cc.specs.Closures.{board_of, placed_of, are_together};
ghost use Rattle.sm_cc.specs.Causes.{IsDifference, IsWitness, IsHalfWitness, differ_otherwise, differ_in_form, any_differs, is_between, are_given_apart, has_constant, is_constant_of, have_constant, may_be_apart};

use crate::closure::Closure;
use crate::compare::{given, shifted, together};
use crate::log::Given;
use crate::row::Row;

/// Why two places differ.
#[derive(Clone, Copy)]
pub(crate) enum Difference {
    /// The contrary of their equation was given under this number.
    Given(u64),
    /// It was given the other way round.
    Turned(u64),
    /// Their linear forms differ in the constant alone.
    Forms,
}

/// Two places that differ.
#[derive(Clone, Copy)]
pub(crate) struct Witness {
    pub(crate) left: u64,
    pub(crate) right: u64,
    pub(crate) difference: Difference,
}

// Why two places differ, if they do.
fn difference_of(c: &Closure, p: u64, q: u64) -> Option<Difference>
    requires left { p < length c.now.rows.items }
    requires right { q < length c.now.rows.items }
    ensures { MatchOption result (places_differ (board_of c.now) p q ≡ false)
        (λ d. IsDifference (placed_of c.now) d p q) }
{
    match given(&c.unequal, p, q) {
        Some(fact) => Some(Difference::Given(fact)),
        None => other_difference(c, p, q),
    }
}

// Why two places differ whose contrary wasn't given in this order.
fn other_difference(c: &Closure, p: u64, q: u64) -> Option<Difference>
    requires left { p < length c.now.rows.items }
    requires right { q < length c.now.rows.items }
    ensures { MatchOption result (differ_otherwise (board_of c.now) p q ≡ false)
        (λ d. IsDifference (placed_of c.now) d p q) }
{
    match given(&c.unequal, q, p) {
        Some(fact) => Some(Difference::Turned(fact)),
        None => form_difference(c, p, q),
    }
}

// Whether the linear forms of two places make them differ.
fn form_difference(c: &Closure, p: u64, q: u64) -> Option<Difference>
    requires left { p < length c.now.rows.items }
    requires right { q < length c.now.rows.items }
    ensures { MatchOption result (differ_in_form (board_of c.now) p q ≡ false)
        (λ d. IsDifference (placed_of c.now) d p q) }
{
    if shifted(&c.rows[p as usize], &c.rows[q as usize]) {
        Some(Difference::Forms)
    } else {
        None
    }
}

// Whether a place differs from one that equals another.
fn half_witness(c: &Closure, p: u64, q: u64, j: u64) -> Option<Witness>
    requires left { p < length c.now.rows.items }
    requires right { q < length c.now.rows.items }
    ensures { let equal = are_together c.now.roots.items in
        MatchOption result ((equal q j && places_differ (board_of c.now) p q) ≡ false)
        (λ w. IsHalfWitness (placed_of c.now) equal w p j) }
{
    if !together(c, q, j) {
        return None;
    }
    match difference_of(c, p, q) {
        Some(difference) => Some(Witness {
            left: p,
            right: q,
            difference,
        }),
        None => None,
    }
}

// A place that equals another, and that this one differs from.
fn find_other(c: &Closure, p: u64, j: u64) -> Option<Witness>
    requires { p < length c.now.rows.items }
    ensures { MatchOption result
        (any_differs (board_of c.now) (are_together c.now.roots.items) p j ≡ false)
        (λ w. IsHalfWitness (placed_of c.now) (are_together c.now.roots.items) w p j) }
{
    for q in 0..c.rows.len() {
        if let Some(w) = half_witness(c, p, q as u64, j) {
            return Some(w);
        }
    }
    None
}

// A place that differs from one of a class, if it is in another class.
fn other_witness(c: &Closure, p: u64, i: u64, j: u64) -> Option<Witness>
    requires { p < length c.now.rows.items }
    ensures { let equal = are_together c.now.roots.items in
        MatchOption result
        ((equal p i && any_differs (board_of c.now) equal p j) ≡ false)
        (λ w. IsWitness (placed_of c.now) equal w i j) }
{
    if together(c, p, i) {
        find_other(c, p, j)
    } else {
        None
    }
}

// Places that differ and equal these two, where all places are looked at.
fn search_witness(c: &Closure, i: u64, j: u64) -> Option<Witness>
    ensures { let equal = are_together c.now.roots.items in
        MatchOption result (places_apart (board_of c.now) equal i j ≡ false)
        (λ w. IsWitness (placed_of c.now) equal w i j) }
{
    for p in 0..c.rows.len() {
        if let Some(w) = other_witness(c, p as u64, i, j) {
            return Some(w);
        }
    }
    None
}

// Whether a given pair is of the classes of two places, in either order.
fn is_between(c: &Closure, g: Given, i: u64, j: u64) -> bool
    ensures { result ≡ is_between (are_together c.now.roots.items) i j g }
{
    (together(c, g.left, i) && together(c, g.right, j))
        || (together(c, g.right, i) && together(c, g.left, j))
}

// Whether a pair of their classes was given to be unequal.
fn are_given_apart(c: &Closure, i: u64, j: u64) -> bool
    ensures { result ≡ are_given_apart c.now i j }
{
    for g in &c.unequal {
        if is_between(c, *g, i, j) {
            return true;
        }
    }
    false
}

// Whether a row is of a linear form whose constant isn't 0.
fn has_constant(r: &Row) -> bool
    ensures { result ≡ has_constant r.now }
{
    match &r.shape {
        Some(f) => f.constant != 0,
        None => false,
    }
}

// Whether a place is in one of the classes of two, and its linear form has a constant.
fn is_constant_of(c: &Closure, p: u64, i: u64, j: u64) -> bool
    requires { p < length c.now.rows.items }
    ensures { result ≡ is_constant_of c.now i j p }
{
    (together(c, p, i) || together(c, p, j)) && has_constant(&c.rows[p as usize])
}

// Whether a linear form of their classes has a constant.
fn have_constant(c: &Closure, i: u64, j: u64) -> bool
    ensures { result ≡ have_constant c.now i j }
{
    for p in 0..c.rows.len() {
        if is_constant_of(c, p as u64, i, j) {
            return true;
        }
    }
    false
}

// Whether two places may be apart at all, as one look at each given pair and at each place tells.
fn may_be_apart(c: &Closure, i: u64, j: u64) -> bool
    ensures { result ≡ may_be_apart c.now i j }
{
    are_given_apart(c, i, j) || have_constant(c, i, j)
}

/// Places that differ and equal these two. Mostly there are none: no contrary was given of the two
/// classes, and none of their linear forms has a constant.
pub(crate) fn find_witness(c: &Closure, i: u64, j: u64) -> Option<Witness>
    ensures { let equal = are_together c.now.roots.items in
        MatchOption result (places_apart (board_of c.now) equal i j ≡ false)
        (λ w. IsWitness (placed_of c.now) equal w i j) }
{
    if may_be_apart(c, i, j) {
        search_witness(c, i, j)
    } else {
        None
    }
}
