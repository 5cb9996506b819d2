// The text of a start store.
ghost use Rattle.std.specs.Prelude.{◌≡◌, ◌≢◌, ◌++◌, None, Some, IfOk, OnOk};
ghost use Rattle.sm_eval.specs.StoredValues.{meaning, sorts_of};
ghost use Rattle.sm_syntax.specs.claim.Keeps.{Element};
ghost use Rattle.sm_syntax.specs.text.Parts.{sort_of};
ghost use Rattle.sm_syntax.specs.trees.Programs.{declared_of};
ghost use Rattle.sm_replay.specs.Verdicts.{cell_of};
ghost use Rattle.sm_explain.specs.Merging.{Grows};
ghost use Rattle.sm_explain.specs.Starts.{start_line, element_lines, AreValueLines, numbered, AreStartLines};

use crate::cells::{put_cell, put_number};
use sm_eval::Store;
use sm_syntax::{Name, NameTable, Sort};
use sm_task::Task;
use std::alloc::{AllocError, Global};

/// The value of each declared name, in their order: a number on a line, and of an array a line for
/// each index that doesn't have 0, by rising index.
pub fn start_lines(alloc: Global, task: &Task, input: &Store) -> Result<Vec<u8>, AllocError>
    requires { sorts_of input.now ≡ sort_of (declared_of task.now.shared.decls) }
    ensures { let declared = declared_of task.now.shared.decls in
        IfOk result (λ text.
        AreStartLines task.now.shared.names declared (meaning input.now) text.items) }
{
    lines_of(alloc, &task.shared.names, &task.shared.decls.list, input)
}

// The lines of declared names.
fn lines_of(
    alloc: Global,
    names: &NameTable,
    list: &[(Name, Sort)],
    input: &Store,
) -> Result<Vec<u8>, AllocError>
    requires { sorts_of input.now ≡ sort_of (numbered list.now) }
    ensures { IfOk result (λ text.
        AreStartLines names.now (numbered list.now) (meaning input.now) text.items) }
{
    let mut text = Vec::new(alloc);
    for d in list {
        put_name(&mut text, names, input, d.0)?;
    }
    Ok(text)
}

// Puts the lines of a name at the end of a text.
fn put_name(out: &mut Vec<u8>, names: &NameTable, input: &Store, x: Name) -> Result<(), AllocError>
    requires { sorts_of input.now x.0 ≢ None }
    ensures { OnOk result (Grows (AreValueLines names.now x.0 (meaning input.now x.0))
        out.old.items out.new.items) }
{
    match input.sort(x) {
        Some(Sort::Num) => put_number_line(out, names, input, x),
        Some(Sort::Arr) => put_array_lines(out, names, input, x),
        None => unreachable!(),
    }
}

// Puts the line of a number variable.
fn put_number_line(
    out: &mut Vec<u8>,
    names: &NameTable,
    input: &Store,
    x: Name,
) -> Result<(), AllocError>
    requires { sorts_of input.now x.0 ≡ Some Sort.Num }
    ensures { OnOk result (Grows (AreValueLines names.now x.0 (meaning input.now x.0))
        out.old.items out.new.items) }
{
    let z = input.number(x);
    put_line(out, names, x, None, z)?;
    Ok(())
}

// Puts the lines of an array.
fn put_array_lines(
    out: &mut Vec<u8>,
    names: &NameTable,
    input: &Store,
    a: Name,
) -> Result<(), AllocError>
    requires { sorts_of input.now a.0 ≡ Some Sort.Arr }
    ensures { OnOk result (Grows (AreValueLines names.now a.0 (meaning input.now a.0))
        out.old.items out.new.items) }
{
    let cells = input.cells(a);
    put_cells(out, names, a, cells)?;
    Ok(())
}

// Puts the lines of an array's cells.
fn put_cells(
    out: &mut Vec<u8>,
    names: &NameTable,
    a: Name,
    cells: &[(i128, i128)],
) -> Result<(), AllocError>
    ensures { OnOk result
        (out.new.items ≡ out.old.items ++ element_lines names.now a.0 cells.now) }
{
    for c in cells {
        put_cell_line(out, names, a, c)?;
    }
    Ok(())
}

// Puts the line of an array's cell.
fn put_cell_line(
    out: &mut Vec<u8>,
    names: &NameTable,
    a: Name,
    cell: &(i128, i128),
) -> Result<(), AllocError>
    ensures { let of = Element a.0 cell.now.0 in OnOk result
        (out.new.items ≡ out.old.items ++ start_line names.now of cell.now.1) }
{
    put_line(out, names, a, Some(cell.0), cell.1)
}

// Puts the line of a cell with its value.
fn put_line(
    out: &mut Vec<u8>,
    names: &NameTable,
    name: Name,
    index: Option<i128>,
    z: i128,
) -> Result<(), AllocError>
    ensures { OnOk result
        (out.new.items ≡ out.old.items ++ start_line names.now (cell_of name.0 index) z) }
{
    put_cell(out, names, name, index)?;
    out.extend_from_slice(b" = ")?;
    put_number(out, z)?;
    out.extend_from_slice(b"\n")
}
