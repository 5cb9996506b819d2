// Exact sums, differences and products.
ghost use Rattle.std.specs.Prelude.{◌≡◌, ◌+ℤ◌, ◌-ℤ◌, ◌*ℤ◌, IfOk, IfErr};
ghost use Rattle.sm_num.specs.Range.{exact, inside};
ghost use Rattle.sm_num.specs.Combining.{Fits, computed, combined_number};
ghost use Rattle.sm_num.specs.Errors.{Explains};

use crate::error::NumError;
use crate::op::Op;

/// The exact sum, or None where it lies outside 128 bits.
pub fn add(a: i128, b: i128) -> Option<i128>
    ensures { result ≡ inside (a +ℤ b) }
{
    a.checked_add(b)
}

/// The exact difference, or None where it lies outside 128 bits.
pub fn sub(a: i128, b: i128) -> Option<i128>
    ensures { result ≡ inside (a -ℤ b) }
{
    a.checked_sub(b)
}

/// The exact product, or None where it lies outside 128 bits.
pub fn mul(a: i128, b: i128) -> Option<i128>
    ensures { result ≡ inside (a *ℤ b) }
{
    a.checked_mul(b)
}

// p times y plus q times z.
pub(crate) fn combine_numbers(p: &i128, y: &i128, q: &i128, z: &i128) -> Result<i128, NumError>
    ensures ok { IfOk result (λ c. combined_number p.now y.now q.now z.now ≡ Fits c) }
    ensures err { IfErr result (Explains (combined_number p.now y.now q.now z.now)) }
{
    let a = compute(Op::Mul, p, y)?;
    let b = compute(Op::Mul, q, z)?;
    compute(Op::Add, &a, &b)
}

// The result of an operation where it lies in the range of forms.
pub(crate) fn compute(op: Op, a: &i128, b: &i128) -> Result<i128, NumError>
    ensures ok { IfOk result (λ c. computed op a.now b.now ≡ Fits c) }
    ensures err { IfErr result (Explains (computed op a.now b.now)) }
{
    match exact_result(op, a, b) {
        Some(c) if c != i128::MIN => Ok(c),
        _ => Err(NumError::Beyond { op, a: *a, b: *b }),
    }
}

// The exact result of an operation, None where it lies outside 128 bits.
fn exact_result(op: Op, a: &i128, b: &i128) -> Option<i128>
    ensures { result ≡ inside (exact op a.now b.now) }
{
    match op {
        Op::Add => add(*a, *b),
        Op::Sub => sub(*a, *b),
        Op::Mul => mul(*a, *b),
    }
}
