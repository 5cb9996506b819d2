// Fractions that numbers modulo the prime stand for.
use crate::field::PRIME;

/// A fraction. The lower number is above 0.
#[derive(Clone, Copy)]
pub(crate) struct Fraction {
    pub(crate) upper: i128,
    pub(crate) lower: i128,
}

// The greatest size of an upper number.
const MOST_UPPER: i128 = 1_000_000;

// The greatest lower number.
const MOST_LOWER: i128 = 10_000;

// Two steps of Euclid's algorithm: remainders, and what the number is multiplied by for each.
#[derive(Clone, Copy)]
struct Remainders {
    last: i128,
    next: i128,
    last_factor: i128,
    next_factor: i128,
}

// One step more, None where there is none or it leaves 128 bits.
fn step(at: Remainders) -> Option<Remainders> {
    let quotient = at.last.checked_div(at.next)?;
    let less = quotient.checked_mul(at.next)?;
    let less_factor = quotient.checked_mul(at.next_factor)?;
    let next = at.last.checked_sub(less)?;
    let next_factor = at.last_factor.checked_sub(less_factor)?;
    Some(Remainders {
        last: at.next,
        next,
        last_factor: at.next_factor,
        next_factor,
    })
}

// The fraction of a remainder and its factor, where they are small.
fn fraction_of(upper: i128, factor: i128) -> Option<Fraction> {
    let lower = factor.checked_abs()?;
    if lower == 0 || lower > MOST_LOWER {
        return None;
    }
    if factor < 0 {
        let upper = upper.checked_neg()?;
        return Some(Fraction { upper, lower });
    }
    Some(Fraction { upper, lower })
}

/// The fraction with small numbers that is a number modulo the prime, where there is one.
pub(crate) fn fraction_for(number: u64) -> Option<Fraction> {
    let mut at = Remainders {
        last: PRIME as i128,
        next: number as i128,
        last_factor: 0,
        next_factor: 1,
    };
    for _ in 0..128u32 {
        if at.next <= MOST_UPPER {
            return fraction_of(at.next, at.next_factor);
        }
        at = step(at)?;
    }
    None
}
