// Inputs in JSON.
ghost use Rattle.std.specs.Prelude.{◌≡◌, ◌≢◌, ◌++◌, ℤ, Some, None, option_map, MatchResult, IfOk, IfErr, OnOk};
ghost use Rattle.serde_json.specs.Data.{Data, object};
ghost use Rattle.serde_json.specs.Find.{as_object};
ghost use Rattle.serde_json.specs.View.{view, members_view};
ghost use Rattle.sm_eval.specs.StoredValues.{meaning, sorts_of};
ghost use Rattle.sm_syntax.specs.text.Parts.{sort_of};
ghost use Rattle.sm_syntax.specs.trees.Programs.{declared_of};
ghost use Rattle.sm_eval.specs.Zeros.{zero_of, zeros};
ghost use Rattle.sm_replay.specs.Updates.{GivesValue, Lists, Overrides};
ghost use Rattle.sm_replay.specs.Input.{declared_name, missing, cells_fault, value_fault, members_fault, input_fault, number_or_zero, elements, cell_given, given, member_of, store_of, IsJson, Reads, reported};
ghost use Rattle.sm_replay.specs.Number.{number_of_text, json_number};

use crate::error::InputError;
use crate::number::{number_of, number_of_text};
use serde_json::{Category, Error, Map, Value};
use sm_eval::Store;
use sm_syntax::{Decls, Name, NameTable, Sort};
use std::alloc::{AllocError, Global};

/// Reads an input, an object of JSON whose keys are declared names: the store in which each name
/// has what its member says. A number is an integer of JSON inside 64 bits, or a text: `0`, or
/// digits with no 0 before them, after at most one `-`. An array is an object of numbers whose keys
/// are such texts. A name or an index without a member has 0. Of members with one key the last
/// counts. The members are checked in the order of their keys' bytes, and an index before its
/// number; the error is the first fault.
pub fn read_input(
    alloc: Global,
    decls: &Decls,
    names: &NameTable,
    bytes: &[u8],
) -> Result<Store, InputError>
    ensures { Reads names.now (sort_of (declared_of decls.now)) bytes.now result }
{
    let input = parse_json(alloc, bytes)?;
    read_value(alloc, decls, names, &input)
}

// Reads an input that is a value of JSON.
#[tactic(auto, using(crate::proofs::InputFirstFault::reported_err))]
fn read_value(
    alloc: Global,
    decls: &Decls,
    names: &NameTable,
    input: &Value,
) -> Result<Store, InputError>
    ensures faultless { let sorts = sort_of (declared_of decls.now) in
        OnOk result (input_fault names.now sorts (as_object (view input.now)) ≡ None) }
    ensures value { let sorts = sort_of (declared_of decls.now) in
        IfOk result (λ s. meaning s ≡ store_of names.now sorts (view input.now)) }
    ensures sorts { IfOk result (λ s. sorts_of s ≡ sort_of (declared_of decls.now)) }
    ensures err { let sorts = sort_of (declared_of decls.now) in
        IfErr result (λ e. e ≢ InputError.Memory
        → input_fault names.now sorts (as_object (view input.now)) ≡ Some e) }
{
    let Some(members) = input.as_object() else {
        return Err(InputError::NotObject);
    };
    let mut s = Store::zero(alloc, decls)?;
    check_members(&s, names, members)?;
    give_members(alloc, &mut s, decls, names, input)?;
    Ok(s)
}

// The value of JSON that the bytes are.
fn parse_json(alloc: Global, bytes: &[u8]) -> Result<Value, InputError>
    ensures { MatchResult result (λ v. IsJson bytes.now (view v))
        (λ e. e ≢ InputError.Memory
        → (e ≡ InputError.BadJson) × ((d : Data) → ¬ IsJson bytes.now d)) }
{
    match Value::from_slice(alloc, bytes) {
        Ok(value) => Ok(value),
        Err(error) => {
            if error.classify() == Category::Memory {
                Err(InputError::Memory)
            } else {
                Err(InputError::BadJson)
            }
        }
    }
}

// Checks that each member is a declared name's of a store, with a value of its sort.
fn check_members(
    s: &Store,
    names: &NameTable,
    members: &Map<String, Value>,
) -> Result<(), InputError>
    ensures { let members = members_view members.now.entries in
        result ≡ reported (members_fault names.now (sorts_of s.now) members) }
{
    for (key, member) in members {
        check_member(s, names, key.as_str(), member)?;
    }
    Ok(())
}

// Checks a member.
fn check_member(s: &Store, names: &NameTable, key: &str, member: &Value) -> Result<(), InputError>
    ensures { let x = declared_name names.now (sorts_of s.now) key.now in
        result ≡ reported (value_fault x (view member.now)) }
{
    match declared_name(s, names, key) {
        None => Err(InputError::UnknownKey),
        Some((name, Sort::Num)) => check_number(number_of(member), InputError::BadValue { name }),
        Some((name, Sort::Arr)) => match member.as_object() {
            Some(cells) => check_cells(name, cells),
            None => Err(InputError::BadValue { name }),
        },
    }
}

// Checks that a number is there.
fn check_number(number: Option<i128>, error: InputError) -> Result<(), InputError>
    ensures { result ≡ reported (missing number error) }
{
    match number {
        Some(_) => Ok(()),
        None => Err(error),
    }
}

// A declared name of a store by its text, with its sort.
pub(crate) fn declared_name(s: &Store, names: &NameTable, key: &str) -> Option<(Name, Sort)>
    ensures { option_map (λ x. (x.0.0, x.1)) result
        ≡ declared_name names.now (sorts_of s.now) key.now }
{
    match names.find(key) {
        None => None,
        Some(name) => match s.sort(name) {
            None => None,
            Some(sort) => Some((name, sort)),
        },
    }
}

// Checks the cells of an array.
fn check_cells(name: Name, cells: &Map<String, Value>) -> Result<(), InputError>
    ensures { result ≡ reported (cells_fault name.0 (members_view cells.now.entries)) }
{
    for (key, number) in cells {
        check_number(number_of_text(key.as_str()), InputError::BadIndex { name })?;
        check_number(number_of(number), InputError::BadValue { name })?;
    }
    Ok(())
}

// Gives each declared name of a store of zeros what its member says.
fn give_members(
    alloc: Global,
    s: &mut Store,
    decls: &Decls,
    names: &NameTable,
    input: &Value,
) -> Result<(), AllocError>
    requires zeros { meaning s.old ≡ zeros (sort_of (declared_of decls.now)) }
    requires sorts { sorts_of s.old ≡ sort_of (declared_of decls.now) }
    ensures value { let sorts = sort_of (declared_of decls.now) in
        OnOk result (meaning s.new ≡ store_of names.now sorts (view input.now)) }
    ensures sorts { sorts_of s.new ≡ sort_of (declared_of decls.now) }
{
    for d in &decls.list {
        let sort = s.sort(d.0);
        give(alloc, s, d.0, sort, member_of(names, input, d.0))?;
    }
    Ok(())
}

// The member that is named as a name.
fn member_of<'v>(names: &NameTable, input: &'v Value, x: Name) -> Option<&'v Value>
    ensures { option_map (λ v. view v.now) result ≡ member_of names.now (view input.now) x.0 }
{
    if (x.0 as usize) < names.len() {
        input.get(names.text(x))
    } else {
        None
    }
}

// Gives a name what a member says.
fn give(
    alloc: Global,
    s: &mut Store,
    x: Name,
    sort: Option<Sort>,
    member: Option<&Value>,
) -> Result<(), AllocError>
    requires { sorts_of s.old x.0 ≡ sort }
    ensures value { let value = given sort (option_map (λ v. view v.now) member.entry) in
        OnOk result (GivesValue (zero_of sort) value x.0 (meaning s.old) (meaning s.new)) }
    ensures sorts { sorts_of s.new ≡ sorts_of s.old }
{
    match sort {
        None => Ok(()),
        Some(sort) => give_sorted(alloc, s, x, sort, member),
    }
}

// Gives a declared name what a member says.
fn give_sorted(
    alloc: Global,
    s: &mut Store,
    x: Name,
    sort: Sort,
    member: Option<&Value>,
) -> Result<(), AllocError>
    requires { sorts_of s.old x.0 ≡ Some sort }
    ensures value { let value = given (Some sort) (option_map (λ v. view v.now) member.entry) in
        OnOk result (GivesValue (zero_of (Some sort)) value x.0 (meaning s.old) (meaning s.new)) }
    ensures sorts { sorts_of s.new ≡ sorts_of s.old }
{
    match sort {
        Sort::Num => {
            s.set(x, number_or_zero(member));
            Ok(())
        }
        Sort::Arr => match member {
            Some(array) => give_array(alloc, s, x, array),
            None => Ok(()),
        },
    }
}

// The number that a member gives, 0 where it isn't there.
fn number_or_zero(member: Option<&Value>) -> i128
    ensures { result ≡ number_or_zero (option_map (λ v. view v.now) member.entry) }
{
    match member {
        Some(value) => number_of(value).unwrap_or(0),
        None => 0,
    }
}

// Gives an array the elements that a member says.
fn give_array(alloc: Global, s: &mut Store, a: Name, array: &Value) -> Result<(), AllocError>
    requires { sorts_of s.old a.0 ≡ Some Sort.Arr }
    ensures value { let given = elements (view array.now) in
        OnOk result (Overrides given a.0 (meaning s.old) (meaning s.new)) }
    ensures sorts { sorts_of s.new ≡ sorts_of s.old }
{
    match array.as_object() {
        Some(cells) => give_cells(alloc, s, a, cells),
        None => Ok(()),
    }
}

// Gives an array what its cells say. They are set in the order of their indices, so that each goes
// last into the array's list.
fn give_cells(
    alloc: Global,
    s: &mut Store,
    a: Name,
    cells: &Map<String, Value>,
) -> Result<(), AllocError>
    requires { sorts_of s.old a.0 ≡ Some Sort.Arr }
    ensures value { let given = elements (object (members_view cells.now.entries)) in
        OnOk result (Overrides given a.0 (meaning s.old) (meaning s.new)) }
    ensures sorts { sorts_of s.new ≡ sorts_of s.old }
{
    let mut list = list_of(alloc, cells)?;
    list.sort()?;
    for (i, z) in &list {
        s.set_cell(a, *i, *z)?;
    }
    Ok(())
}

// The cells of an array, each an index with its number.
fn list_of(alloc: Global, cells: &Map<String, Value>) -> Result<Vec<(i128, i128)>, AllocError>
    ensures { IfOk result (λ list.
        Lists (elements (object (members_view cells.now.entries))) list.items) }
{
    let mut list = Vec::new(alloc);
    for (key, number) in cells {
        add_cell(&mut list, key.as_str(), number)?;
    }
    Ok(list)
}

// Adds a cell to a list, if its key is an index.
fn add_cell(list: &mut Vec<(i128, i128)>, key: &str, number: &Value) -> Result<(), AllocError>
    ensures { let cell = cell_given (number_of_text key.now) (view number.now) in
        OnOk result (list.new.items ≡ list.old.items ++ cell) }
{
    if let Some(i) = number_of_text(key) {
        list.push((i, number_of(number).unwrap_or(0)))?;
    }
    Ok(())
}
