// The sum of two forms in which an atom cancels.
ghost use Rattle.std.specs.Prelude.{◌≡◌, ◌≢◌, pos, IsTrue, IfOk};
ghost use Rattle.sm_num.specs.Range.{fits_form};
ghost use Rattle.sm_num.specs.FormLaws.{same_atom};
ghost use Rattle.sm_num.specs.Eliminating.{can_cancel, multipliers, kind_of_sum, divided, eliminated};
ghost use Rattle.sm_num.specs.Errors.{Returns};

use crate::combining::combine;
use crate::dividing::{common_divisor, divide_parts, floor, parts_divisor, size};
use crate::error::NumError;
use crate::form::LinForm;
use crate::kind::Kind;
use std::alloc::{AllocError, Global};

/// Whether an atom can be cancelled between two forms: both have it, and one is an equation or the
/// signs of its coefficients differ.
pub fn cancels(f: &LinForm, g: &LinForm, t: u64) -> bool
    ensures { result ≡ can_cancel same_atom f.now g.now t }
{
    let a = f.coefficient(t);
    let b = g.coefficient(t);
    a != 0 && b != 0 && (f.kind == Kind::Eq || g.kind == Kind::Eq || (a < 0) != (b < 0))
}

/// The sum of two forms, each times the least number with which an atom cancels, divided by the
/// greatest common divisor of its numbers. The error names the first operation that leaves the
/// range, as that of `combine` does; nothing is computed for the atom that cancels.
pub fn elim(alloc: Global, f: &LinForm, g: &LinForm, t: u64) -> Result<LinForm, NumError>
    requires { IsTrue (can_cancel same_atom f.now g.now t) }
    ensures { Returns (eliminated f.now g.now t) result }
{
    let m = find_multipliers(&f.coefficient(t), &g.coefficient(t), g.kind);
    let kind = sum_kind(f.kind, g.kind);
    let f_rest = f.without(alloc, t)?;
    let g_rest = g.without(alloc, t)?;
    let h = combine(alloc, &f_rest, m.0, &g_rest, m.1, kind)?;
    Ok(divide(alloc, &h)?)
}

// The kind of a sum of two forms.
fn sum_kind(f: Kind, g: Kind) -> Kind
    ensures { result ≡ kind_of_sum f g }
{
    match f {
        Kind::Le => Kind::Le,
        Kind::Eq => g,
    }
}

// The multipliers with which two coefficients cancel.
fn find_multipliers(a: &i128, b: &i128, kind_of_g: Kind) -> (i128, i128)
    requires first { IsTrue (fits_form a.now) }
    requires second { IsTrue (fits_form b.now) }
    requires some { a.now ≢ pos 0 }
    ensures { result ≡ multipliers a.now b.now kind_of_g }
{
    let d = common_divisor(size(a), size(b));
    let p = (size(b) / d) as i128;
    let q = (size(a) / d) as i128;
    if (*a < 0) != (*b < 0) {
        (p, q)
    } else if kind_of_g == Kind::Eq {
        (p, -q)
    } else {
        (-p, q)
    }
}

// A form divided by the greatest common divisor of all its numbers.
fn divide(alloc: Global, f: &LinForm) -> Result<LinForm, AllocError>
    ensures { IfOk result (λ h. h ≡ divided f.now) }
{
    let d = common_divisor(size(&f.constant), parts_divisor(&f.parts));
    Ok(LinForm {
        parts: divide_parts(alloc, &f.parts, d)?,
        constant: floor(&f.constant, d),
        kind: f.kind,
    })
}
