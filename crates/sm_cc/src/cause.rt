// Which rule makes two places equal.
ghost use Rattle.std.specs.Prelude.{◌≡◌, ◌<◌, false, length, MatchOption};
ghost use Rattle.sm_cc.specs.Rows.{row_brings};
ghost use Rattle.sm_cc.specs.Closures.{board_of, placed_of, are_together};
ghost use Rattle.sm_cc.specs.Causes.{IsCause, IsCauseOf, IsElementCause, element_is, element_brings, rows_bring, rows_pair};
ghost use Rattle.sm_cc.specs.Settled.{pair_brings};

use crate::closure::Closure;
use crate::compare::{alike, are_equal, given, have_one_head, together};
use crate::row::{Element, Row};
use crate::witness::{Witness, find_witness};

/// Why two places are equal.
#[derive(Clone, Copy)]
pub(crate) enum Cause {
    /// Their equation was given under this number.
    Given(u64),
    Alike,
    Arguments,
    Hit(Element),
    Miss(Element, Witness),
}

// Whether an element that is read is the one at a place.
fn element_cause(c: &Closure, e: Element, j: u64) -> Option<Cause>
    ensures { let equal = are_together c.now.roots.items in
        MatchOption result (element_is (board_of c.now) equal e j ≡ false)
        (λ x. IsElementCause (placed_of c.now) equal x e j) }
{
    if j == e.written && together(c, e.index, e.other) {
        return Some(Cause::Hit(e));
    }
    if j != e.before {
        return None;
    }
    match find_witness(c, e.index, e.other) {
        Some(w) => Some(Cause::Miss(e, w)),
        None => None,
    }
}

// Whether a row is of an element that is read and is the one at a place.
fn read_cause(c: &Closure, r: &Row, s: &Row, i: u64, j: u64) -> Option<Cause>
    ensures { let equal = are_together c.now.roots.items in
        MatchOption result (element_brings (board_of c.now) equal r.now j ≡ false)
        (λ x. IsCause (placed_of c.now) equal x r.now s.now i j) }
{
    match r.element {
        Some(e) => element_cause(c, e, j),
        None => None,
    }
}

// Why two places with these rows are equal.
fn row_cause(c: &Closure, r: &Row, s: &Row, i: u64, j: u64) -> Option<Cause>
    ensures { let equal = are_together c.now.roots.items in
        MatchOption result (rows_bring (board_of c.now) equal r.now s.now j ≡ false)
        (λ x. IsCause (placed_of c.now) equal x r.now s.now i j) }
{
    if alike(r, s) {
        return Some(Cause::Alike);
    }
    if have_one_head(r, s) && are_equal(c, &r.arguments, &s.arguments) {
        return Some(Cause::Arguments);
    }
    read_cause(c, r, s, i, j)
}

/// Why two places are equal by one rule, if they are.
pub(crate) fn cause_of(c: &Closure, i: u64, j: u64) -> Option<Cause>
    requires left { i < length c.now.rows.items }
    requires right { j < length c.now.rows.items }
    ensures { let equal = are_together c.now.roots.items in
        MatchOption result (row_brings (board_of c.now) equal i j ≡ false)
        (λ x. IsCauseOf (placed_of c.now) equal x i j) }
{
    match given(&c.equal, i, j) {
        Some(fact) => Some(Cause::Given(fact)),
        None => row_cause(c, &c.rows[i as usize], &c.rows[j as usize], i, j),
    }
}

/// Why two places are equal by their forms or their arguments, if they are.
pub(crate) fn pair_cause(c: &Closure, i: u64, j: u64) -> Option<Cause>
    requires left { i < length c.now.rows.items }
    requires right { j < length c.now.rows.items }
    ensures { let equal = are_together c.now.roots.items in
        MatchOption result (pair_brings (board_of c.now) equal i j ≡ false)
        (λ x. IsCauseOf (placed_of c.now) equal x i j) }
{
    two_rows_cause(c, &c.rows[i as usize], &c.rows[j as usize], i, j)
}

// Why the places of two rows are equal, if they are.
fn two_rows_cause(c: &Closure, r: &Row, s: &Row, i: u64, j: u64) -> Option<Cause>
    ensures { let equal = are_together c.now.roots.items in
        MatchOption result (rows_pair equal r.now s.now ≡ false)
        (λ x. IsCause (placed_of c.now) equal x r.now s.now i j) }
{
    if alike(r, s) {
        return Some(Cause::Alike);
    }
    if have_one_head(r, s) && are_equal(c, &r.arguments, &s.arguments) {
        return Some(Cause::Arguments);
    }
    None
}
