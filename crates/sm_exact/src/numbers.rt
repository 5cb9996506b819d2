// Single operations on the numbers of forms.
ghost use Rattle.std.specs.Prelude.{◌≡◌, ◌<◌, ◌^◌, nat_abs, IsTrue};
ghost use Rattle.sm_num.specs.Range.{exact, inside, fits_form};
ghost use Rattle.sm_num.specs.Combining.{computed};
ghost use Rattle.sm_num.specs.Errors.{Returns};
ghost use Rattle.sm_num.specs.Eliminating.{floor_of, ceiling_of};
ghost use Rattle.sm_omega.specs.Equalities.{quotient};

use sm_num::{NumError, Op, add, mul, sub};

// The result of an operation where it lies in the range of forms.
pub(crate) fn compute(op: Op, a: &i128, b: &i128) -> Result<i128, NumError>
    ensures { Returns (computed op a.now b.now) result }
{
    match exact_result(op, a, b) {
        Some(c) if c != i128::MIN => Ok(c),
        _ => Err(NumError::Beyond { op, a: *a, b: *b }),
    }
}

// The exact result of an operation, None where it lies outside 128 bits.
fn exact_result(op: Op, a: &i128, b: &i128) -> Option<i128>
    ensures { result ≡ inside (exact op a.now b.now) }
{
    match op {
        Op::Add => add(*a, *b),
        Op::Sub => sub(*a, *b),
        Op::Mul => mul(*a, *b),
    }
}

// A number without its sign.
pub(crate) fn size(z: &i128) -> u128
    ensures { result ≡ nat_abs z.now }
{
    z.unsigned_abs()
}

// A number divided, rounded down; not divided by 0.
pub(crate) fn floor(z: &i128, d: u128) -> i128
    requires { d < 2 ^ 127 }
    ensures { result ≡ floor_of z.now d }
{
    if d == 0 {
        return *z;
    }
    z.div_euclid(d as i128)
}

// A number divided, rounded up; not divided by 0.
pub(crate) fn ceiling(z: &i128, d: u128) -> i128
    requires divisor { d < 2 ^ 127 }
    requires number { IsTrue (fits_form z.now) }
    ensures { result ≡ ceiling_of z.now d }
{
    let minus = -*z;
    -floor(&minus, d)
}

// A number divided by another, rounded down.
pub(crate) fn divide(c: &i128, a: &i128) -> i128
    requires number { IsTrue (fits_form c.now) }
    requires divisor { IsTrue (fits_form a.now) }
    ensures { result ≡ quotient c.now a.now }
{
    let d = size(a);
    if *a < 0 {
        let minus = -*c;
        return floor(&minus, d);
    }
    floor(c, d)
}
