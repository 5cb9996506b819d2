// Inputs as lists of numbers.
ghost use Rattle.std.specs.Prelude.{◌≡◌, ◌<◌, ◌^◌, IfOk};
ghost use Rattle.sm_eval.specs.StoredValues.{sorts_of};
ghost use Rattle.sm_syntax.specs.text.Parts.{sort_of};
ghost use Rattle.sm_syntax.specs.trees.Programs.{declared_of};

use sm_eval::Store;
use sm_syntax::{Decls, Name, Sort};
use std::alloc::{AllocError, Global};

/// How many elements of an array have a number in an input, from index 0 on. All others have 0.
pub const ELEMENTS: u8 = 8;

/// A cell that has a number in each input: a number variable, or an element of an array.
#[derive(Clone, Copy)]
pub struct InputCell {
    pub name: Name,
    pub index: Option<u8>,
}

impl InputCell {
    /// The number by which trials give the cell its number.
    pub fn number(self) -> u64
        ensures { result < 2 ^ 33 }
    {
        match self.index {
            None => self.name.0 as u64,
            Some(i) => self.name.0 as u64 + i as u64 + 1,
        }
    }

    /// Whether it is the last element of an array.
    pub fn is_last(self) -> bool {
        self.index == Some(ELEMENTS - 1)
    }
}

/// The cells of a task's inputs, in the order of the declarations. An input has a number for each.
pub fn input_cells(alloc: Global, decls: &Decls) -> Result<Vec<InputCell>, AllocError> {
    let declared = Store::zero(alloc, decls)?;
    let mut cells = Vec::new(alloc);
    for d in &decls.list {
        add_cells(&mut cells, d.0, declared.sort(d.0))?;
    }
    Ok(cells)
}

// Adds the cells of a name.
fn add_cells(cells: &mut Vec<InputCell>, name: Name, sort: Option<Sort>) -> Result<(), AllocError> {
    match sort {
        None => Ok(()),
        Some(Sort::Num) => {
            cells.push(InputCell { name, index: None })?;
            Ok(())
        }
        Some(Sort::Arr) => add_elements(cells, name),
    }
}

// Adds the elements of an array.
fn add_elements(cells: &mut Vec<InputCell>, name: Name) -> Result<(), AllocError> {
    for i in 0..ELEMENTS {
        cells.push(InputCell {
            name,
            index: Some(i),
        })?;
    }
    Ok(())
}

/// The store in which each of these cells has its number, and each other 0.
pub fn store_of(
    alloc: Global,
    decls: &Decls,
    cells: &[InputCell],
    numbers: &[i128],
) -> Result<Store, AllocError>
    ensures { IfOk result (λ s. sorts_of s ≡ sort_of (declared_of decls.now)) }
{
    let mut s = Store::zero(alloc, decls)?;
    for i in 0..cells.len() {
        if i < numbers.len() {
            give(&mut s, cells[i], numbers[i])?;
        }
    }
    Ok(s)
}

// Gives a cell its number.
fn give(s: &mut Store, cell: InputCell, z: i128) -> Result<(), AllocError>
    ensures { sorts_of s.new ≡ sorts_of s.old }
{
    match s.sort(cell.name) {
        None => Ok(()),
        Some(Sort::Num) => {
            s.set(cell.name, z);
            Ok(())
        }
        Some(Sort::Arr) => match cell.index {
            None => Ok(()),
            Some(i) => s.set_cell(cell.name, i as i128, z),
        },
    }
}
