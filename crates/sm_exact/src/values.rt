// Values of variables.
ghost use Rattle.std.specs.Prelude.{◌≡◌, nat_eq};
ghost use Rattle.std.specs.HashMap.{get};
ghost use Rattle.sm_num.specs.Errors.{Returns};
ghost use Rattle.sm_omega.specs.Solving.{rest_of};
ghost use Rattle.sm_omega.specs.Equalities.{value_by};
ghost use Rattle.sm_exact.specs.Stack.{side_bound};
ghost use Rattle.sm_exact.specs.Valued.{values_in, added, bound_at, is_from, better};

use crate::coefficients::coefficient;
use crate::frame::Side;
use crate::numbers::{ceiling, compute, floor, size};
use sm_num::{LinForm, NumError, Op};
use std::collections::HashMap;

// The value of a variable, 0 where it has none.
pub(crate) fn value_at(values: &HashMap<u64, i128>, a: u64) -> i128
    ensures { result ≡ values_in (get nat_eq values.now) a }
{
    match values.get(&a) {
        Some(z) => *z,
        None => 0,
    }
}

// The value of a form without its part at a variable.
fn rest(values: &HashMap<u64, i128>, t: u64, f: &LinForm) -> Result<i128, NumError>
    ensures { Returns (rest_of t (values_in (get nat_eq values.now)) f.now) result }
{
    let mut sum = 0;
    for part in f.parts() {
        if part.0 != t {
            sum = add_part(values, &sum, part)?;
        }
    }
    compute(Op::Add, &sum, &f.constant())
}

// A sum with a part more.
fn add_part(values: &HashMap<u64, i128>, sum: &i128, part: &(u64, i128)) -> Result<i128, NumError>
    ensures { Returns (added (values_in (get nat_eq values.now)) sum.now part.now) result }
{
    let y = compute(Op::Mul, &part.1, &value_at(values, part.0))?;
    compute(Op::Add, sum, &y)
}

// The value of a variable with which an equation holds, whose coefficient there is 1 or -1.
pub(crate) fn value_by(values: &HashMap<u64, i128>, t: u64, e: &LinForm) -> Result<i128, NumError>
    ensures { Returns (value_by t e.now (values_in (get nat_eq values.now))) result }
{
    let z = rest(values, t, e)?;
    if coefficient(e, t) < 0 { Ok(z) } else { Ok(-z) }
}

// The least or the greatest value of a variable with which a form holds.
fn bound_by(values: &HashMap<u64, i128>, t: u64, f: &LinForm) -> Result<i128, NumError>
    ensures { Returns (bound_at t (values_in (get nat_eq values.now)) f.now) result }
{
    let z = rest(values, t, f)?;
    let a = coefficient(f, t);
    if a < 0 {
        return Ok(ceiling(&z, size(&a)));
    }
    Ok(floor(&-z, size(&a)))
}

// The value of a variable by the bounds from one side.
pub(crate) fn bound_of(
    values: &HashMap<u64, i128>,
    t: u64,
    side: Side,
    forms: &[LinForm],
) -> Result<i128, NumError>
    ensures { Returns
        (side_bound side t forms.now (values_in (get nat_eq values.now))) result }
{
    let mut best = None;
    for f in forms {
        if is_from(side, f, t) {
            let z = bound_by(values, t, f)?;
            best = Some(better(side, &best, &z));
        }
    }
    Ok(best.unwrap_or(0))
}

// Whether a form bounds a variable from a side.
fn is_from(side: Side, f: &LinForm, t: u64) -> bool
    ensures { result ≡ is_from side t f.now }
{
    match side {
        Side::Below => coefficient(f, t) < 0,
        Side::Above => coefficient(f, t) > 0,
    }
}

// The greater of two bounds from below, or the lesser of two from above.
fn better(side: Side, best: &Option<i128>, z: &i128) -> i128
    ensures { result ≡ better side best.now z.now }
{
    match best {
        None => *z,
        Some(y) => match side {
            Side::Below => if *y < *z { *z } else { *y },
            Side::Above => if *z < *y { *z } else { *y },
        },
    }
}
