// Greatest common divisors, and numbers that are divided by them.
ghost use Rattle.std.specs.Prelude.{◌≡◌, ◌<◌, ◌^◌, nat_abs, IsTrue, IfOk};
ghost use Rattle.sm_num.specs.Range.{fits_form};
ghost use Rattle.sm_num.specs.Eliminating.{gcd, floor_of, ceiling_of, divisor_of_parts, divided_parts};

use std::alloc::{AllocError, Global};

// The greatest common divisor, 0 of 0 and 0.
pub(crate) fn common_divisor(a: u128, b: u128) -> u128
    ensures { result ≡ gcd a b }
{
    let mut x = a;
    let mut y = b;
    while y != 0 {
        let rest = x % y;
        x = y;
        y = rest;
    }
    x
}

// A number without its sign.
pub(crate) fn size(z: &i128) -> u128
    ensures { result ≡ nat_abs z.now }
{
    z.unsigned_abs()
}

// The greatest common divisor of the coefficients.
pub(crate) fn parts_divisor(parts: &[(u64, i128)]) -> u128
    ensures { result ≡ divisor_of_parts parts.now }
{
    let mut d = 0;
    let mut i = parts.len();
    while i > 0 {
        i -= 1;
        d = common_divisor(size(&parts[i].1), d);
    }
    d
}

// The parts with their coefficients divided.
pub(crate) fn divide_parts(
    alloc: Global,
    parts: &[(u64, i128)],
    d: u128,
) -> Result<Vec<(u64, i128)>, AllocError>
    requires { d < 2 ^ 127 }
    ensures { IfOk result (λ v. v.items ≡ divided_parts d parts.now) }
{
    let mut out = Vec::new(alloc);
    for part in parts {
        out.push((part.0, floor(&part.1, d)))?;
    }
    Ok(out)
}

// A number divided, rounded down; not divided by 0.
pub(crate) fn floor(z: &i128, d: u128) -> i128
    requires { d < 2 ^ 127 }
    ensures { result ≡ floor_of z.now d }
{
    if d == 0 {
        return *z;
    }
    z.div_euclid(d as i128)
}

// A number divided, rounded up; not divided by 0.
pub(crate) fn ceiling(z: &i128, d: u128) -> i128
    requires divisor { d < 2 ^ 127 }
    requires number { IsTrue (fits_form z.now) }
    ensures { result ≡ ceiling_of z.now d }
{
    let minus = -*z;
    -floor(&minus, d)
}
