// The rules of bounds.
ghost use Rattle.std.specs.Prelude.{◌≡◌, ◌≤ℤ◌, ℕ, negsuc, int_lt, false, IsTrue, IfOk, if◌then◌else◌};
ghost use Rattle.std.specs.List.{All};
ghost use Rattle.sm_num.specs.Range.{fits_form};
ghost use Rattle.sm_omega.specs.Solving.{least_variable, lesser_first, at, upper_bounds};
ghost use Rattle.sm_omega.specs.Rules.{giving};
ghost use Rattle.sm_omega.specs.Inequalities.{greatest_at};
ghost use Rattle.sm_omega.specs.Exact.{solved_within};
ghost use Rattle.sm_exact.specs.Rows.{HasNoSplinter, Keeps};
ghost use Rattle.sm_exact.specs.Stack.{StepsByBounds, told, side_bound, answer_of};

use crate::coefficients::coefficient;
use crate::entry::Entry;
use crate::frame::{Frame, Side};
use crate::shadows::enter_shadows;
use crate::splitting::{copy_all, split};
use crate::step::Step;
use sm_num::LinForm;
use std::alloc::{AllocError, Global};

// The least variable of forms.
pub(crate) fn least_variable(forms: &[LinForm]) -> Option<u64>
    ensures { result ≡ least_variable forms.now }
{
    let mut least = None;
    let mut i = forms.len();
    while i > 0 {
        i -= 1;
        least = lesser_first(forms[i].parts(), least);
    }
    least
}

// The lesser of a number and the first variable of parts.
fn lesser_first(parts: &[(u64, i128)], other: Option<u64>) -> Option<u64>
    ensures { result ≡ lesser_first parts.now other }
{
    if parts.is_empty() {
        return other;
    }
    let first = parts[0].0;
    match other {
        Some(m) => { if m < first { Some(m) } else { Some(first) } }
        None => Some(first),
    }
}

// The greatest coefficient of a variable among its upper bounds, 0 where there is none.
pub(crate) fn greatest_upper(forms: &[LinForm], t: u64) -> i128
    ensures value { result ≡ greatest_at t (upper_bounds t forms.now) }
    ensures range { IsTrue (fits_form result) }
    ensures numbers { All (λ f. IsTrue (fits_form (at t f))) forms.now }
{
    let mut greatest = 0;
    for f in forms {
        greatest = greater(&greatest, &coefficient(f, t));
    }
    greatest
}

// The greater of two numbers.
fn greater(a: &i128, b: &i128) -> i128
    ensures { result ≡ (if int_lt a.now b.now then b.now else a.now) }
{
    if *a < *b { *b } else { *a }
}

// Whether a lower bound of a variable may have splinters.
fn may_splinter(forms: &[LinForm], t: u64) -> bool
    ensures { result ≡ false → HasNoSplinter t forms.now }
{
    greatest_upper(forms, t) != 1 && has_wide_lower(forms, t)
}

// Whether a coefficient of a variable is below -1.
fn has_wide_lower(forms: &[LinForm], t: u64) -> bool
    ensures { result ≡ false → All (λ f. negsuc 0 ≤ℤ at t f) forms.now }
{
    for f in forms {
        if coefficient(f, t) < -1 {
            return true;
        }
    }
    false
}

// Decides by the bounds of a variable.
pub(crate) fn by_bounds(
    alloc: Global,
    steps: u64,
    s: u64,
    forms: Vec<LinForm>,
    count: u64,
    t: u64,
) -> Result<Step, AllocError>
    ensures { IfOk result (StepsByBounds steps s forms.items count t) }
{
    if may_splinter(&forms, t) {
        let copies = copy_all(alloc, &forms)?;
        return by_parts(alloc, steps, s, copies, count, t, Some(forms));
    }
    by_parts(alloc, steps, s, forms, count, t, None)
}

// Decides by the bounds of a variable. The list is kept where there may be splinters.
fn by_parts(
    alloc: Global,
    steps: u64,
    s: u64,
    forms: Vec<LinForm>,
    count: u64,
    t: u64,
    kept: Option<Vec<LinForm>>,
) -> Result<Step, AllocError>
    requires { Keeps (λ v. v.items) t forms.items kept }
    ensures { IfOk result (StepsByBounds steps s forms.items count t) }
{
    let parts = split(alloc, forms, t)?;
    if parts.upper.is_empty() {
        return Ok(from_side(s, parts.others, count, t, Side::Below, parts.lower));
    }
    if parts.lower.is_empty() {
        return Ok(from_side(s, parts.others, count, t, Side::Above, parts.upper));
    }
    let entry = enter_shadows(
        alloc,
        steps,
        parts.others,
        count,
        &parts.lower,
        &parts.upper,
        t,
    )?;
    match kept {
        Some(forms) => Ok(Step {
            frame: Frame::Dark { s, t, forms },
            s,
            entry,
        }),
        None => Ok(Step {
            frame: Frame::Bounds {
                t,
                side: Side::Below,
                forms: parts.lower,
            },
            s,
            entry,
        }),
    }
}

// Where there are no bounds from one side, the forms with the variable are left out.
fn from_side(
    s: u64,
    others: Vec<LinForm>,
    count: u64,
    t: u64,
    side: Side,
    bounds: Vec<LinForm>,
) -> Step
    ensures { (limit depth : ℕ) →
        told limit depth result.frame (answer_of limit depth result.s result.entry)
        ≡ giving t (side_bound side t bounds.items)
        (solved_within limit depth s others.items count) }
{
    Step {
        frame: Frame::Bounds {
            t,
            side,
            forms: bounds,
        },
        s,
        entry: Entry::List {
            forms: others,
            count,
        },
    }
}
