// Puts the texts of names and cells at the end of a text.
ghost use Rattle.std.specs.Prelude.{◌≡◌, ◌++◌, codes, OnOk};
ghost use Rattle.std.specs.Fmt.{signed_decimal};
ghost use Rattle.sm_replay.specs.Verdicts.{cell_of};
ghost use Rattle.sm_explain.specs.Cells.{name_text, cell_text};

use itoa::Buffer;
use sm_syntax::{Name, NameTable};
use std::alloc::AllocError;

/// Puts a cell: a name, or an element of an array at an index.
pub(crate) fn put_cell(
    out: &mut Vec<u8>,
    names: &NameTable,
    name: Name,
    index: Option<i128>,
) -> Result<(), AllocError>
    ensures { let cell = cell_of name.0 index in
        OnOk result (out.new.items ≡ out.old.items ++ cell_text names.now cell) }
{
    out.extend_from_slice(name_text(names, name).as_bytes())?;
    match index {
        None => Ok(()),
        Some(i) => put_index(out, i),
    }
}

// Puts an index in its brackets.
fn put_index(out: &mut Vec<u8>, i: i128) -> Result<(), AllocError>
    ensures { OnOk result
        (out.new.items ≡ out.old.items ++ codes "[" ++ signed_decimal i ++ codes "]") }
{
    out.extend_from_slice(b"[")?;
    put_number(out, i)?;
    out.extend_from_slice(b"]")
}

/// Puts a number in decimal.
pub(crate) fn put_number(out: &mut Vec<u8>, z: i128) -> Result<(), AllocError>
    ensures { OnOk result (out.new.items ≡ out.old.items ++ signed_decimal z) }
{
    let mut digits = Buffer::new();
    out.extend_from_slice(digits.format(z).as_bytes())
}

// The text of a name.
fn name_text(names: &NameTable, name: Name) -> &str
    ensures { result.now ≡ name_text names.now name.0 }
{
    if (name.0 as usize) < names.len() {
        names.text(name)
    } else {
        ""
    }
}
