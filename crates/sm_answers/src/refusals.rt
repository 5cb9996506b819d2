// The lines on what is refused.
ghost use Rattle.std.specs.Prelude.{◌≡◌, ◌≢◌, [], ◌∷◌, codes, decimal, IfOk};
ghost use Rattle.sm_words.specs.Lines.{line_of};
ghost use Rattle.sm_answers.specs.Lines.{name_text, list_word, line_at_hole, line_at_name, line_at_place, input_refusal_line, refusal_line};

use itoa::Buffer;
use sm_replay::InputError;
use sm_syntax::{Name, NameTable};
use sm_task::TaskError;
use sm_words::line;
use std::alloc::{AllocError, Global};

/// The text of a name, nothing where there are fewer names.
pub fn name_text(names: &NameTable, name: Name) -> &str
    ensures { result.now ≡ name_text names.now name.0 }
{
    if (name.0 as usize) < names.len() {
        names.text(name)
    } else {
        ""
    }
}

fn list_word(list: u8) -> &'static str
    ensures { result.now ≡ list_word list }
{
    match list {
        0 => "base",
        1 => "variant_a",
        2 => "variant_b",
        3 => "candidate",
        _ => "shared",
    }
}

// What is refused at a place.
fn at_place(alloc: Global, kind: &str, place: u64) -> Result<Vec<u8>, AllocError>
    ensures { IfOk result (λ text. text.items ≡ line_at_place kind.now place) }
{
    let mut buffer = Buffer::new();
    line(alloc, "Refused", &[kind, buffer.format(place)])
}

// What is refused at a hole of a list, by the list's number.
fn at_hole(alloc: Global, kind: &str, list: u8, hole: u32) -> Result<Vec<u8>, AllocError>
    ensures { IfOk result (λ text. text.items ≡ line_at_hole kind.now list hole) }
{
    at_hole_of(alloc, kind, list_word(list), hole)
}

// What is refused at a hole of a list, by the list's word.
fn at_hole_of(alloc: Global, kind: &str, list: &str, hole: u32) -> Result<Vec<u8>, AllocError>
    ensures { IfOk result (λ text.
        text.items ≡ line_of (codes "Refused") (kind.now ∷ list.now ∷ decimal hole ∷ [])) }
{
    let mut buffer = Buffer::new();
    line(alloc, "Refused", &[kind, list, buffer.format(hole)])
}

// What is refused at a name.
fn at_name(alloc: Global, kind: &str, names: &NameTable, name: Name) -> Result<Vec<u8>, AllocError>
    ensures { IfOk result (λ text. text.items ≡ line_at_name kind.now names.now name) }
{
    line(alloc, "Refused", &[kind, name_text(names, name)])
}

/// The line on a text that is no task, by the names of the text.
pub fn refusal_line(
    alloc: Global,
    names: &NameTable,
    error: TaskError,
) -> Result<Vec<u8>, AllocError>
    requires { error ≢ TaskError.Memory }
    ensures { IfOk result (λ text. text.items ≡ refusal_line names.now error) }
{
    match error {
        TaskError::BadByte { place } => at_place(alloc, "BadByte", place),
        TaskError::WideNumber { place } => at_place(alloc, "WideNumber", place),
        TaskError::BadToken { place } => at_place(alloc, "BadToken", place),
        TaskError::Expected { place } => at_place(alloc, "Expected", place),
        TaskError::Nested { place } => at_place(alloc, "Nested", place),
        TaskError::MissingFilling { list, hole } => at_hole(alloc, "MissingFilling", list, hole),
        TaskError::UnknownHole { list, hole } => at_hole(alloc, "UnknownHole", list, hole),
        TaskError::DoubleHole { list, hole } => at_hole(alloc, "DoubleHole", list, hole),
        TaskError::HoleInFilling { list, hole } => at_hole(alloc, "HoleInFilling", list, hole),
        TaskError::UnknownName { name } => at_name(alloc, "UnknownName", names, name),
        TaskError::WrongSort { name } => at_name(alloc, "WrongSort", names, name),
        TaskError::DoubleName { name } => at_name(alloc, "DoubleName", names, name),
        TaskError::TooDeep => line(alloc, "Refused", &["TooDeep"]),
        TaskError::TooMany => line(alloc, "Refused", &["TooMany"]),
        TaskError::Memory => unreachable!(),
    }
}

/// The line on bytes that are no input.
pub fn input_refusal_line(
    alloc: Global,
    names: &NameTable,
    error: InputError,
) -> Result<Vec<u8>, AllocError>
    requires { error ≢ InputError.Memory }
    ensures { IfOk result (λ text. text.items ≡ input_refusal_line names.now error) }
{
    match error {
        InputError::BadJson => line(alloc, "Refused", &["BadJson"]),
        InputError::NotObject => line(alloc, "Refused", &["NotObject"]),
        InputError::UnknownKey => line(alloc, "Refused", &["UnknownKey"]),
        InputError::BadValue { name } => at_name(alloc, "BadValue", names, name),
        InputError::BadIndex { name } => at_name(alloc, "BadIndex", names, name),
        InputError::Memory => unreachable!(),
    }
}
