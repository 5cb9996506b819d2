// Tests of rows and of places.
ghost use Rattle.std.specs.Prelude.{◌≡◌, ◌==◌, ◌&&◌, false, not, ℤ, map, MatchOption};
ghost use Rattle.std.specs.Ordering.{int_eq};
ghost use Rattle.sm_cc.specs.Rows.{one_head, shapes_pass, equal_places, is_listed};
ghost use Rattle.sm_cc.specs.Closures.{are_together, pair_of, GivenHere};

use crate::closure::Closure;
use crate::log::{Equation, Given};
use crate::row::Row;

/// Whether two places have one label.
pub(crate) fn have_one_label(roots: &[Equation], i: u64, j: u64) -> bool
    ensures { result ≡ are_together roots.now i j }
{
    match (roots.get(i as usize), roots.get(j as usize)) {
        (Some(r), Some(s)) => r.right == s.right,
        _ => false,
    }
}

/// Whether two places are in one class.
pub(crate) fn together(c: &Closure, i: u64, j: u64) -> bool
    ensures { result ≡ are_together c.now.roots.items i j }
{
    have_one_label(&c.roots, i, j)
}

/// The number under which a pair was given.
pub(crate) fn given(list: &[Given], i: u64, j: u64) -> Option<u64>
    ensures { MatchOption result
        (is_listed (map pair_of list.now) i j ≡ false) (λ fact. GivenHere list.now fact i j) }
{
    for g in list {
        if g.left == i && g.right == j {
            return Some(g.fact);
        }
    }
    None
}

/// Whether two rows have equal linear forms.
pub(crate) fn alike(r: &Row, s: &Row) -> bool
    ensures { result ≡ shapes_pass r.now s.now int_eq }
{
    match (&r.shape, &s.shape) {
        (Some(f), Some(g)) => f.parts == g.parts && f.constant == g.constant,
        _ => false,
    }
}

/// Whether the linear forms of two rows differ in the constant alone.
pub(crate) fn shifted(r: &Row, s: &Row) -> bool
    ensures { result ≡ shapes_pass r.now s.now (λ y z. not (int_eq y z)) }
{
    match (&r.shape, &s.shape) {
        (Some(f), Some(g)) => f.parts == g.parts && f.constant != g.constant,
        _ => false,
    }
}

/// Whether two rows have one head.
pub(crate) fn have_one_head(r: &Row, s: &Row) -> bool
    ensures { result ≡ one_head r.now s.now }
{
    match (r.head, s.head) {
        (Some(h), Some(k)) => h == k,
        _ => false,
    }
}

/// Whether two lists of places are equal one by one.
pub(crate) fn are_equal(c: &Closure, first: &[u64], second: &[u64]) -> bool
    ensures { result ≡ equal_places (are_together c.now.roots.items) first.now second.now }
{
    if first.len() != second.len() {
        return false;
    }
    for k in 0..first.len() {
        if !together(c, first[k], second[k]) {
            return false;
        }
    }
    true
}
