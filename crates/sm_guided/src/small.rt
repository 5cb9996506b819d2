// The inputs that are made of their number alone: the stated trials, and small inputs.
ghost use Rattle.std.specs.Prelude.{◌<◌, ◌^◌};

use crate::inputs::InputCell;
use std::alloc::{AllocError, Global};

/// How many trials are stated. They are tried on every task.
pub const STATED: u64 = 256;

/// The first number of a small input.
pub const FIRST_SMALL: u64 = 257;

/// The last number of a small input.
pub const LAST_SMALL: u64 = 512;

/// The stated trial with a number.
pub fn stated_input(alloc: Global, cells: &[InputCell], j: u64) -> Result<Vec<i128>, AllocError>
    requires { j < 1024 }
{
    let mut numbers = Vec::new(alloc);
    for cell in cells {
        numbers.push(stated_number(j, cell.number()))?;
    }
    Ok(numbers)
}

/// The small input with a number. Equal numbers are frequent there, so rare paths are walked.
pub fn small_input(alloc: Global, cells: &[InputCell], j: u64) -> Result<Vec<i128>, AllocError>
    requires { j < 1024 }
{
    let mut numbers = Vec::new(alloc);
    for cell in cells {
        numbers.push(small_number(j, cell.number()))?;
    }
    Ok(numbers)
}

// The number of the cell with a number in a stated trial, from -6 to 12.
fn stated_number(j: u64, k: u64) -> i128
    requires trial { j < 1024 }
    requires cell { k < 2 ^ 33 }
{
    if j == 0 {
        return 0;
    }
    residue(j, k) as i128 - 6
}

// The number of the cell with a number in a small input. A quarter is as in a stated trial. The
// others are from 0 to 3, or from -1 to 5.
fn small_number(j: u64, k: u64) -> i128
    requires trial { j < 1024 }
    requires cell { k < 2 ^ 33 }
{
    let z = residue(j, k) as i128 - 6;
    if (j + k) % 4 == 0 {
        z
    } else if j % 2 == 1 {
        z.rem_euclid(4)
    } else {
        z.rem_euclid(7) - 1
    }
}

// A number below 19 that a trial's number and a cell's determine.
fn residue(j: u64, k: u64) -> u64
    requires trial { j < 1024 }
    requires cell { k < 2 ^ 33 }
    ensures { result < 19 }
{
    (j * (5 * k + 7) + (j / 8) * (3 * k + 1)) % 19
}
