// The text of an input.
ghost use Rattle.std.specs.Prelude.{◌≡◌, true, Some, IfOk, OnOk};
ghost use Rattle.std.specs.Fmt.{signed_decimal};
ghost use Rattle.serde_json.specs.Data.{Members, object, put};
ghost use Rattle.serde_json.specs.View.{view, members_view};
ghost use Rattle.serde_json.specs.Written.{compact_text};
ghost use Rattle.sm_eval.specs.Cells.{listed, AreCells};
ghost use Rattle.sm_eval.specs.StoredValues.{meaning, sorts_of};
ghost use Rattle.sm_num.specs.Range.{fits};
ghost use Rattle.sm_syntax.specs.text.Parts.{sort_of};
ghost use Rattle.sm_syntax.specs.trees.Programs.{declared_of};
ghost use Rattle.sm_syntax.specs.claim.Stores as plain;
ghost use Rattle.sm_replay.specs.Input.{declared_name, IsInput};
ghost use Rattle.sm_replay.specs.Members.{IsInside, IsInsideAt, AreInside, Writes};
ghost use Rattle.sm_replay.specs.InputText.{number_text, AreWrittenCells, IsWrittenAs, AreWritten, AreNamed};

use crate::input::declared_name;
use itoa::Buffer;
use serde_json::{Map, Value, put};
use sm_eval::Store;
use sm_syntax::{Decls, Name, NameTable, Sort};
use std::alloc::{AllocError, Global};

/// The text of a store as an input: compact JSON of each declared name. A number is a text of
/// digits, and an array an object of those of its numbers that aren't 0, each under its index.
/// Members and indices stand in the order of their bytes. The text reads back to the same store. A
/// declared name without a text in the table is left out.
pub fn write_input(
    alloc: Global,
    decls: &Decls,
    names: &NameTable,
    s: &Store,
) -> Result<Vec<u8>, AllocError>
    requires { sorts_of s.now ≡ sort_of (declared_of decls.now) }
    ensures text { let sorts = sort_of (declared_of decls.now) in
        IfOk result (λ bytes. (members : Members) × (bytes.items ≡ compact_text (object members))
        × AreWritten names.now sorts (meaning s.now) members) }

    // Where each declared name has a text of its own.
    ensures reads_back { let sorts = sort_of (declared_of decls.now) in
        IfOk result (λ bytes. AreNamed names.now sorts
        → IsInput names.now sorts bytes.items s.now) }
{
    let input = Value::Object(members_of(alloc, decls, names, s)?);
    input.to_vec(alloc)
}

// The members of the declared names.
fn members_of(
    alloc: Global,
    decls: &Decls,
    names: &NameTable,
    s: &Store,
) -> Result<Map<String, Value>, AllocError>
    requires { sorts_of s.now ≡ sort_of (declared_of decls.now) }
    ensures written { let sorts = sort_of (declared_of decls.now) in
        IfOk result (λ m. AreWritten names.now sorts (meaning s.now) (members_view m.entries)) }
    ensures inside { let sorts = sort_of (declared_of decls.now) in
        OnOk result (AreInside names.now sorts (meaning s.now)) }
{
    let mut members = Map::new(alloc);
    for d in &decls.list {
        if (d.0.0 as usize) < names.len() {
            write_member(alloc, &mut members, names, s, names.text(d.0))?;
        }
    }
    Ok(members)
}

// Puts the value of the declared name with a text, where there is one, among the members.
fn write_member(
    alloc: Global,
    members: &mut Map<String, Value>,
    names: &NameTable,
    s: &Store,
    key: &str,
) -> Result<(), AllocError>
    ensures written { let x = declared_name names.now (sorts_of s.now) key.now in
        OnOk result (Writes (meaning s.now) x key.now
        (members_view members.old.entries) (members_view members.new.entries)) }
    ensures inside { let x = declared_name names.now (sorts_of s.now) key.now in
        OnOk result (IsInsideAt (meaning s.now) x) }
{
    match declared_name(s, names, key) {
        None => Ok(()),
        Some((x, sort)) => {
            let value = value_of(alloc, s, x, sort)?;
            put(members, alloc, key, value)
        }
    }
}

// The value of a name.
fn value_of(alloc: Global, s: &Store, x: Name, sort: Sort) -> Result<Value, AllocError>
    requires { sorts_of s.now x.0 ≡ Some sort }
    ensures written { IfOk result (λ value. IsWrittenAs (meaning s.now x.0) (view value)) }
    ensures inside { OnOk result (IsInside (meaning s.now x.0)) }
{
    match sort {
        Sort::Num => number_text(alloc, s.number(x)),
        Sort::Arr => Ok(Value::Object(cells_of(alloc, s.cells(x))?)),
    }
}

// The cells of an array.
fn cells_of(alloc: Global, list: &[(i128, i128)]) -> Result<Map<String, Value>, AllocError>
    requires { AreCells list.now }
    ensures written { let f = listed list.now in
        IfOk result (λ cells. AreWrittenCells f (members_view cells.entries)) }
    ensures inside { OnOk result (IsInside (plain.Array (listed list.now))) }
{
    let mut cells = Map::new(alloc);
    for (i, z) in list {
        write_cell(alloc, &mut cells, *i, *z)?;
    }
    Ok(cells)
}

// Puts a cell among those of an array.
fn write_cell(
    alloc: Global,
    cells: &mut Map<String, Value>,
    i: i128,
    z: i128,
) -> Result<(), AllocError>
    ensures written { OnOk result (members_view cells.new.entries
        ≡ put (signed_decimal i) (number_text z) (members_view cells.old.entries)) }
    ensures inside { OnOk result ((fits i ≡ true) × (fits z ≡ true)) }
{
    let number = number_text(alloc, z)?;
    put(cells, alloc, Buffer::new().format(i), number)
}

// A number as a text.
fn number_text(alloc: Global, z: i128) -> Result<Value, AllocError>
    ensures written { IfOk result (λ value. view value ≡ number_text z) }
    ensures inside { OnOk result (fits z ≡ true) }
{
    Value::try_from_str(alloc, Buffer::new().format(z))
}
