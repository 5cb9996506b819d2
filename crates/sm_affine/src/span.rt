// What rows of numbers modulo the prime span, by rows each of which has a column of its own.
use crate::field::{inverse, negated, plus, residue, times};
use std::alloc::{AllocError, Global};

/// A row of a span. It has 1 at its pivot, which is the first column at which it has no 0. Each
/// other row of the span has 0 there.
#[derive(Drop)]
pub(crate) struct SpanRow {
    pub(crate) pivot: usize,
    pub(crate) numbers: Vec<u64>,
}

/// The number of a row in a column, 0 where it has none.
pub(crate) fn entry(row: &[u64], column: usize) -> u64 {
    if column < row.len() { row[column] } else { 0 }
}

// A row of 1 and numbers.
fn with_one(alloc: Global, row: &[i128]) -> Result<Vec<u64>, AllocError> {
    let mut numbers = Vec::new(alloc);
    numbers.push(1)?;
    for z in row {
        numbers.push(residue(*z))?;
    }
    Ok(numbers)
}

// Takes a multiple of another row away, so that 0 is left in a column in which the other has 1.
fn take_away(row: &mut [u64], other: &[u64], column: usize) {
    let factor = negated(entry(row, column));
    if factor == 0 {
        return;
    }
    for i in 0..row.len() {
        let less = entry(other, i);
        if less != 0 {
            let number = plus(row[i], times(factor, less));
            row[i] = number;
        }
    }
}

// Multiplies a row.
fn multiply(row: &mut [u64], factor: u64) {
    for i in 0..row.len() {
        let number = times(row[i], factor);
        row[i] = number;
    }
}

// The first column in which a row has no 0.
fn first_column(row: &[u64]) -> Option<usize> {
    for i in 0..row.len() {
        if row[i] != 0 {
            return Some(i);
        }
    }
    None
}

// Takes a multiple of a row away from a row of a span, so that 0 is left in a column.
fn clear_in(old: &mut SpanRow, row: &[u64], column: usize) {
    take_away(old.numbers.as_mut_slice(), row, column);
}

// Takes multiples of a row away from all rows of a span, so that 0 is left in a column of each.
fn clear_column(span: &mut [SpanRow], row: &[u64], column: usize) {
    for i in 0..span.len() {
        clear_in(&mut span[i], row, column);
    }
}

// Adds a row to a span, where it isn't in it.
fn add_row(span: &mut Vec<SpanRow>, row: Vec<u64>) -> Result<(), AllocError> {
    let mut row = row;
    for old in span.as_slice() {
        take_away(row.as_mut_slice(), &old.numbers, old.pivot);
    }
    let Some(pivot) = first_column(&row) else {
        return Ok(());
    };
    let factor = inverse(entry(&row, pivot));
    multiply(row.as_mut_slice(), factor);
    clear_column(span.as_mut_slice(), &row, pivot);
    span.push(SpanRow {
        pivot,
        numbers: row,
    })?;
    Ok(())
}

/// What rows span, each with 1 before its numbers.
pub(crate) fn span_of(alloc: Global, rows: &[Vec<i128>]) -> Result<Vec<SpanRow>, AllocError> {
    let mut span = Vec::new(alloc);
    for row in rows {
        add_row(&mut span, with_one(alloc, row)?)?;
    }
    Ok(span)
}
