// The equalities that rows suggest.
ghost use Rattle.std.specs.Prelude.{ℕ, ◌<◌, ◌≤◌, All, IfOk, IfSome};
ghost use Rattle.sm_affine.specs.Equalities.{HoldsInEach, GivesColumn, GivesOneOf};

use crate::equality::{Equality, add_part, holds_at_each, own_part};
use crate::rational::{Fraction, fraction_for};
use crate::span::{SpanRow, entry, span_of};
use std::alloc::{AllocError, Global};

// The most parts that a column is equal to, with the constant.
const MOST_PARTS: usize = 6;

// The greatest common lower number of fractions.
const MOST_LOWER: i128 = 1_000_000_000_000;

// A column of a span, times a fraction.
#[derive(Clone, Copy)]
struct Share {
    pivot: usize,
    fraction: Fraction,
}

// Whether a span has a row with this pivot.
fn is_pivot(span: &[SpanRow], column: usize) -> bool {
    for row in span {
        if row.pivot == column {
            return true;
        }
    }
    false
}

// The shares of the pivots in a column, None where they are too many or a number is no fraction.
fn shares_of(
    alloc: Global,
    span: &[SpanRow],
    column: usize,
) -> Result<Option<Vec<Share>>, AllocError> {
    let mut shares = Vec::new(alloc);
    for row in span {
        let number = entry(&row.numbers, column);
        if number != 0 {
            let Some(fraction) = fraction_for(number) else {
                return Ok(None);
            };
            if shares.len() == MOST_PARTS {
                return Ok(None);
            }
            shares.push(Share {
                pivot: row.pivot,
                fraction,
            })?;
        }
    }
    Ok(Some(shares))
}

// The greatest common divisor of two numbers above 0.
fn common_divisor(a: i128, b: i128) -> i128 {
    let mut greater = a;
    let mut less = b;
    for _ in 0..256u32 {
        match greater.checked_rem(less) {
            None => return greater,
            Some(rest) => {
                greater = less;
                less = rest;
            }
        }
    }
    1
}

// The least number that two numbers above 0 divide, None where it is too great.
fn common_multiple(a: i128, b: i128) -> Option<i128> {
    let part = a.checked_div(common_divisor(a, b))?;
    let multiple = part.checked_mul(b)?;
    if multiple > MOST_LOWER {
        return None;
    }
    Some(multiple)
}

// The least number that the lower numbers of all shares divide, None where it is too great.
fn common_lower(shares: &[Share]) -> Option<i128> {
    let mut lower = 1;
    for share in shares {
        lower = common_multiple(lower, share.fraction.lower)?;
    }
    Some(lower)
}

// A share times a number that its lower number divides, taken negative.
fn taken(share: &Share, lower: &i128) -> Option<i128> {
    let factor = lower.checked_div(share.fraction.lower)?;
    let number = share.fraction.upper.checked_mul(factor)?;
    number.checked_neg()
}

// Adds a number of a column of a span to an equality. Column 0 is the constant, and each other one
// is a place further than among the rows. All stand before the column that is given.
fn add_number(
    equality: &mut Equality,
    given: usize,
    pivot: usize,
    number: &i128,
) -> Result<(), AllocError>
    ensures { GivesColumn given equality.old.parts.items
        → GivesColumn given equality.new.parts.items }
{
    match pivot.checked_sub(1) {
        None => {
            equality.constant = *number;
            Ok(())
        }
        Some(column) => add_part(equality, given, column, number),
    }
}

// That a column is the sum of shares, times a number, as an equality.
fn equality_of(
    alloc: Global,
    column: usize,
    shares: &[Share],
    lower: &i128,
) -> Result<Option<Equality>, AllocError>
    ensures { IfOk result (λ found. IfSome found (λ e. GivesColumn column e.parts.items)) }
{
    let Some(own) = own_part(alloc, column, lower)? else {
        return Ok(None);
    };
    let mut equality = own;
    for share in shares {
        let Some(number) = taken(share, lower) else {
            return Ok(None);
        };
        add_number(&mut equality, column, share.pivot, &number)?;
    }
    Ok(Some(equality))
}

// The equality of a column with pivots that a span suggests, where there is one.
fn suggested(alloc: Global, span: &[SpanRow], column: usize) -> Result<Option<Equality>, AllocError>
    ensures { IfOk result (λ found. IfSome found (λ e. GivesColumn column e.parts.items)) }
{
    let Some(place) = column.checked_add(1) else {
        return Ok(None);
    };
    if is_pivot(span, place) {
        return Ok(None);
    }
    let Some(shares) = shares_of(alloc, span, place)? else {
        return Ok(None);
    };
    let Some(lower) = common_lower(&shares) else {
        return Ok(None);
    };
    equality_of(alloc, column, &shares, &lower)
}

// The equality that a span suggests for a column, where there is one and it holds at each row.
fn equality_at(
    alloc: Global,
    rows: &[Vec<i128>],
    span: &[SpanRow],
    column: usize,
) -> Result<Option<Equality>, AllocError>
    ensures hold { IfOk result (λ found. IfSome found (HoldsInEach rows.now)) }
    ensures gives { IfOk result (λ found. IfSome found (λ e. GivesColumn column e.parts.items)) }
{
    let Some(equality) = suggested(alloc, span, column)? else {
        return Ok(None);
    };
    if holds_at_each(&equality, rows) {
        return Ok(Some(equality));
    }
    Ok(None)
}

// Puts the equality for a column behind others, where there is one.
fn put_equality(
    alloc: Global,
    rows: &[Vec<i128>],
    span: &[SpanRow],
    column: usize,
    list: &mut Vec<Equality>,
) -> Result<(), AllocError>
    ensures hold { All (HoldsInEach rows.now) list.old.items
        → All (HoldsInEach rows.now) list.new.items }
    ensures gives { (first last : ℕ) → first ≤ column → column < last →
        All (GivesOneOf first last) list.old.items → All (GivesOneOf first last) list.new.items }
{
    if let Some(equality) = equality_at(alloc, rows, span, column)? {
        list.push(equality)?;
    }
    Ok(())
}

/// Equalities that hold at each row: at most one for each column from `first` up to `last`, which is
/// left out itself. With no rows each column is said to be 0.
pub fn equalities(
    alloc: Global,
    rows: &[Vec<i128>],
    first: usize,
    last: usize,
) -> Result<Vec<Equality>, AllocError>
    ensures hold { IfOk result (λ list. All (HoldsInEach rows.now) list.items) }

    // Each gives a column, times a number that isn't 0, by columns before it.
    ensures gives { IfOk result (λ list. All (GivesOneOf first last) list.items) }
{
    let span = span_of(alloc, rows)?;
    let mut list = Vec::new(alloc);
    for column in first..last {
        put_equality(alloc, rows, &span, column, &mut list)?;
    }
    Ok(list)
}
