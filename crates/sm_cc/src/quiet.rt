// Whether terms that are added join no classes.
ghost use Rattle.std.specs.Prelude.{◌≡◌, ℕ, ◌<◌, true, IsTrue, Option, slice_get};
ghost use Rattle.sm_cc.specs.Closures.{are_together};
ghost use Rattle.sm_cc.specs.Scanned.{has_labels, are_parted, IsQuiet, IsQuietBehind, AreQuiet};

use crate::behind::Scanned;
use crate::closure::Closure;
use crate::compare::{have_one_label, together};
use crate::ground::are_below;
use crate::log::Equation;
use crate::row::{Element, Row};
use crate::witness::find_witness;

// Whether two places have the labels of the two of a pair, in either order.
fn has_labels(roots: &[Equation], i: u64, j: u64, p: (u64, u64)) -> bool
    ensures { result ≡ has_labels roots.now i j p }
{
    (have_one_label(roots, p.0, i) && have_one_label(roots, p.1, j))
        || (have_one_label(roots, p.0, j) && have_one_label(roots, p.1, i))
}

// Whether two places have the labels of the two of some pair.
fn are_parted(roots: &[Equation], apart: &[(u64, u64)], i: u64, j: u64) -> bool
    ensures { result ≡ are_parted roots.now apart.now i j }
{
    for p in apart {
        if has_labels(roots, i, j, *p) {
            return true;
        }
    }
    false
}

// Whether it brings nothing more of an element that is read at a place that the two of these pairs
// aren't equal.
fn is_quiet(
    c: &Closure,
    roots: &[Equation],
    apart: &[(u64, u64)],
    i: u64,
    element: Option<Element>,
) -> bool
    ensures { IsTrue result → IsQuiet c.now roots.now apart.now i element }
{
    match element {
        Some(e) => together(c, i, e.before) || !are_parted(roots, apart, e.index, e.other),
        None => true,
    }
}

// Whether no rule brings anything of an element that is read behind those of classes.
fn is_quiet_behind(
    c: &Closure,
    roots: &[Equation],
    apart: &[(u64, u64)],
    element: Option<Element>,
) -> bool
    ensures { IsTrue result → IsQuietBehind c.now roots.now apart.now element }
{
    match element {
        Some(e) => {
            are_below(c.rows.len() as u64, &[e.index, e.other])
                && !together(c, e.index, e.other)
                && find_witness(c, e.index, e.other).is_none()
                && !are_parted(roots, apart, e.index, e.other)
        }
        None => true,
    }
}

// Whether it brings nothing more of the elements that are read at the places of classes.
fn are_old_quiet(c: &Closure, roots: &[Equation], apart: &[(u64, u64)]) -> bool
    ensures { IsTrue result → (i : ℕ) → (r : Row) → slice_get c.now.rows.items i ≡ Option.Some r →
        IsQuiet c.now roots.now apart.now i r.element }
{
    for i in 0..c.rows.len() {
        if !is_quiet(c, roots, apart, i as u64, c.rows[i].element) {
            return false;
        }
    }
    true
}

// Whether no rule brings anything of the elements that are read behind them.
fn are_new_quiet(c: &Closure, more: &[Row], roots: &[Equation], apart: &[(u64, u64)]) -> bool
    ensures { IsTrue result → (i : ℕ) → (r : Row) → slice_get more.now i ≡ Option.Some r →
        IsQuietBehind c.now roots.now apart.now r.element }
{
    for r in more {
        if !is_quiet_behind(c, roots, apart, r.element) {
            return false;
        }
    }
    true
}

/// Whether each place behind those of classes has keys of its own, and no rule brings anything more
/// of any element.
pub(crate) fn are_exact(c: &Closure, more: &[Row], s: &Scanned, apart: &[(u64, u64)]) -> bool
    ensures { IsTrue result →
        IsTrue s.now.are_new × AreQuiet c.now more.now s.now.roots.items apart.now }
{
    s.are_new && are_new_quiet(c, more, &s.roots, apart) && are_old_quiet(c, &s.roots, apart)
}
