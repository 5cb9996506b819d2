// Numbers modulo the prime 2^61 - 1. What is found with them is only suggested, and tried over whole
// numbers afterwards: so all that is needed of these operations is that each has a result.

/// The prime.
pub(crate) const PRIME: u64 = 2_305_843_009_213_693_951;

// The prime and 1, which is 2^61.
const AFTER_PRIME: u128 = 2_305_843_009_213_693_952;

/// A whole number, modulo the prime.
pub(crate) fn residue(z: i128) -> u64 {
    z.rem_euclid(PRIME as i128) as u64
}

/// The sum of two numbers below the prime.
pub(crate) fn plus(a: u64, b: u64) -> u64 {
    a.wrapping_add(b) % PRIME
}

/// The product of two numbers below the prime.
pub(crate) fn times(a: u64, b: u64) -> u64 {
    let product = (a as u128).wrapping_mul(b as u128);
    let low = product % AFTER_PRIME;
    let high = product / AFTER_PRIME % AFTER_PRIME;
    plus(low as u64, high as u64)
}

/// A number that adds up to 0 with another.
pub(crate) fn negated(a: u64) -> u64 {
    let rest = a % PRIME;
    if rest == 0 { 0 } else { PRIME - rest }
}

/// The number whose product with another, which isn't 0, is 1: its power by the prime less 2.
pub(crate) fn inverse(a: u64) -> u64 {
    let mut power = a;
    let mut exponent = PRIME - 2;
    let mut result = 1;
    for _ in 0..61u32 {
        if exponent % 2 == 1 {
            result = times(result, power);
        }
        power = times(power, power);
        exponent /= 2;
    }
    result
}
