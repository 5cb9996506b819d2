// The line on why a search decides nothing.
ghost use Rattle.std.specs.Prelude.{◌≡◌, ◌++◌, ◌/◌, ◌^◌, ◌<◌, length, map, option_map, slice_get, IfOk, OnOk};
ghost use Rattle.sm_syntax.specs.text.Parts.{sort_of};
ghost use Rattle.sm_syntax.specs.trees.Programs.{declared_of};
ghost use Rattle.sm_task.specs.Tasks.{parts_of};
ghost use Rattle.sm_explain.specs.Cells.{name_text};
ghost use Rattle.sm_why.specs.Reasons.{at_elements, clause_words, manner_words, output_words, place_words, too_large, clause_of_a, clause_of_b, clause_of_neither, IsGoalLine, IsReason};

use crate::sites::site_of;
use crate::stop::{Manner, Stop};
use itoa::Buffer;
use sm_explain::place_of;
use sm_replay::trial;
use sm_syntax::{Name, NameTable, Sort};
use sm_task::Task;
use std::alloc::{AllocError, Global};

/// The line on what a search of a task stopped at, by the task's text, of which there are fewer than
/// 2^32 bytes.
pub fn reason_line(
    alloc: Global,
    task: &Task,
    text: &[u8],
    stop: Stop,
) -> Result<Vec<u8>, AllocError>
    requires { length text.now < 2 ^ 32 }
    ensures { IfOk result (λ line. IsReason text.now (parts_of task.now) stop line.items) }
{
    match stop {
        Stop::Goal { manner, goal } => goal_line(alloc, task, text, manner, goal),
        Stop::TooMany => Vec::from_slice(alloc, too_large().as_bytes()),
    }
}

// The line on a final goal.
fn goal_line(
    alloc: Global,
    task: &Task,
    text: &[u8],
    manner: Manner,
    goal: u64,
) -> Result<Vec<u8>, AllocError>
    requires { length text.now < 2 ^ 32 }
    ensures { IfOk result (λ line.
        IsGoalLine text.now (parts_of task.now) manner goal line.items) }
{
    let output = output_at(&task.shared.outputs.list, goal / 3);
    let offset = site_of(alloc, task, text, output)?;
    let place = place_of(text, offset);
    let mut line = Vec::new(alloc);
    put_place(&mut line, place.line, place.column)?;
    line.extend_from_slice(manner_words(manner).as_bytes())?;
    put_output(alloc, &mut line, task, output)?;
    line.extend_from_slice(clause_words(goal % 3).as_bytes())?;
    Ok(line)
}

// The output with a number, where there are so many.
fn output_at(outputs: &[Name], number: u64) -> Option<Name>
    ensures { option_map (λ x. x.0) result
        ≡ slice_get (map (λ x. x.0) outputs.now) number }
{
    outputs.get(number as usize).copied()
}

// Puts a line and a column.
fn put_place(out: &mut Vec<u8>, line: usize, column: usize) -> Result<(), AllocError>
    ensures { OnOk result (out.new.items ≡ out.old.items ++ place_words line column) }
{
    let mut line_digits = Buffer::new();
    let mut column_digits = Buffer::new();
    out.extend_from_slice(b"line ")?;
    out.extend_from_slice(line_digits.format(line).as_bytes())?;
    out.extend_from_slice(b", column ")?;
    out.extend_from_slice(column_digits.format(column).as_bytes())?;
    out.extend_from_slice(b": ")
}

// Puts the words for an output, where there is one.
fn put_output(
    alloc: Global,
    out: &mut Vec<u8>,
    task: &Task,
    output: Option<Name>,
) -> Result<(), AllocError>
    ensures { let words = output_words (parts_of task.now) (option_map (λ x. x.0) output) in
        OnOk result (out.new.items ≡ out.old.items ++ words) }
{
    match output {
        None => Ok(()),
        Some(x) => put_name(alloc, out, task, x),
    }
}

// Puts the words for a name.
fn put_name(alloc: Global, out: &mut Vec<u8>, task: &Task, x: Name) -> Result<(), AllocError>
    ensures { let t = parts_of task.now in
        OnOk result (out.new.items
        ≡ out.old.items ++ name_text t.names x.0 ++ at_elements (sort_of t.declared x.0)) }
{
    let sort = sort_in(alloc, task, x)?;
    out.extend_from_slice(name_text(&task.shared.names, x).as_bytes())?;
    out.extend_from_slice(at_elements(sort).as_bytes())
}

// The sort with which a name is declared: that of its value in the first trial.
fn sort_in(alloc: Global, task: &Task, x: Name) -> Result<Option<Sort>, AllocError>
    ensures { IfOk result (λ sort. sort ≡ sort_of (declared_of task.now.shared.decls) x.0) }
{
    let first = trial(alloc, task, 0)?;
    Ok(first.sort(x))
}

// The text of a name.
fn name_text(names: &NameTable, name: Name) -> &str
    ensures { result.now ≡ name_text names.now name.0 }
{
    if (name.0 as usize) < names.len() {
        names.text(name)
    } else {
        ""
    }
}

// The words for the elements of an array.
fn at_elements(sort: Option<Sort>) -> &'static str
    ensures { result.now ≡ at_elements sort }
{
    match sort {
        None => "",
        Some(Sort::Num) => "",
        Some(Sort::Arr) => " at each index",
    }
}

// How a goal isn't shown.
fn manner_words(manner: Manner) -> &'static str
    ensures { result.now ≡ manner_words manner }
{
    match manner {
        Manner::Open => "not shown for output ",
        Manner::Steps => "not shown in so many steps for output ",
        Manner::Coefficient => "not shown within 128 bits for output ",
    }
}

// The words for the clause with a number.
fn clause_words(number: u64) -> &'static str
    ensures { result.now ≡ clause_words number }
{
    match number {
        0 => clause_of_a(),
        1 => clause_of_b(),
        _ => clause_of_neither(),
    }
}

// The words for the first clause.
#[tactic(auto, unfolding(crate::specs::Reasons::clause_of_a))]
fn clause_of_a() -> &'static str
    ensures { result.now ≡ clause_of_a }
{
    ": where A changed it, the candidate has A's value\n"
}

// The words for the second clause.
#[tactic(auto, unfolding(crate::specs::Reasons::clause_of_b))]
fn clause_of_b() -> &'static str
    ensures { result.now ≡ clause_of_b }
{
    ": where B changed it, the candidate has B's value\n"
}

// The words for the third clause.
#[tactic(auto, unfolding(crate::specs::Reasons::clause_of_neither))]
fn clause_of_neither() -> &'static str
    ensures { result.now ≡ clause_of_neither }
{
    ": where base, A and B agree, the candidate has their value\n"
}

// The line on a plan that is too large.
#[tactic(auto, unfolding(crate::specs::Reasons::too_large))]
fn too_large() -> &'static str
    ensures { result.now ≡ too_large }
{
    "the plan has too many nodes, goals or facts\n"
}
