// Coordinates of inputs, along which they are moved.
use crate::inputs::{ELEMENTS, InputCell};
use std::alloc::{AllocError, Global};

/// Cells of inputs that move together: one cell, or all of an array.
#[derive(Clone, Copy)]
pub struct Coordinate {
    first: usize,
    count: usize,
}

/// The coordinates of inputs, in the order of the declarations: each number variable, each element
/// of an array, and behind its elements the array as a whole.
pub fn coordinates(alloc: Global, cells: &[InputCell]) -> Result<Vec<Coordinate>, AllocError> {
    let mut list = Vec::new(alloc);
    for i in 0..cells.len() {
        list.push(Coordinate { first: i, count: 1 })?;
        if cells[i].is_last() {
            list.push(Coordinate {
                first: (i + 1).saturating_sub(ELEMENTS as usize),
                count: ELEMENTS as usize,
            })?;
        }
    }
    Ok(list)
}

/// The numbers of an input whose coordinate is raised by a number. None where one leaves 128 bits.
pub fn moved(
    alloc: Global,
    numbers: &[i128],
    along: Coordinate,
    by: i128,
) -> Result<Option<Vec<i128>>, AllocError> {
    let mut moved = numbers.to_vec(alloc)?;
    for i in 0..along.count {
        if !raise(&mut moved, along.first.saturating_add(i), by) {
            return Ok(None);
        }
    }
    Ok(Some(moved))
}

// Raises a number of an input. Whether that can be done.
fn raise(numbers: &mut Vec<i128>, at: usize, by: i128) -> bool {
    if at < numbers.len() {
        if let Some(z) = numbers[at].checked_add(by) {
            numbers[at] = z;
            return true;
        }
    }
    false
}
