// The lines that are printed, but for those on what is refused.
ghost use Rattle.std.specs.Prelude.{◌≡◌, ◌≢◌, [], ◌∷◌, ◌++◌, Err, codes, decimal, map, IfOk, OnOk};
ghost use Rattle.std.specs.Fmt.{signed_decimal};
ghost use Rattle.std.specs.String.{string_bytes};
ghost use Rattle.sm_syntax.specs.claim.ConflictFree.{copy_of};
ghost use Rattle.sm_syntax.specs.trees.Copies.{copy_named, letter_of};
ghost use Rattle.sm_words.specs.Lines.{line_of};
ghost use Rattle.sm_answers.specs.Lines.{cell_text, goal_line, input_line, op_word, summary_line, too_many_line, trial_line, verdict_line, many_holes_line, none_line, suggestion_line};

use crate::refusals::name_text;
use itoa::Buffer;
use sm_num::Op;
use sm_replay::{ReplayError, Verdict};
use sm_syntax::{CopyName, Name, NameTable};
use sm_words::line;
use std::alloc::{AllocError, Global};

/// The line on a goal of a node of the plan that isn't shown, by the word for the cause.
pub fn goal_line(alloc: Global, cause: &str, node: u64, goal: u64) -> Result<Vec<u8>, AllocError>
    ensures { IfOk result (λ text. text.items ≡ goal_line cause.now node goal []) }
{
    let mut place = Buffer::new();
    let mut number = Buffer::new();
    line(
        alloc,
        "Unknown",
        &[cause, place.format(node), number.format(goal)],
    )
}

/// The line on a goal whose walk leaves the range by an operation.
pub fn coefficient_line(
    alloc: Global,
    node: u64,
    goal: u64,
    op: Op,
    a: i128,
    b: i128,
) -> Result<Vec<u8>, AllocError>
    ensures { IfOk result (λ text. text.items ≡ goal_line (codes "Coefficient") node goal
        (op_word op ∷ signed_decimal a ∷ signed_decimal b ∷ [])) }
{
    let mut place = Buffer::new();
    let mut number = Buffer::new();
    let mut left = Buffer::new();
    let mut right = Buffer::new();
    line(
        alloc,
        "Unknown",
        &[
            "Coefficient",
            place.format(node),
            number.format(goal),
            op_word(op),
            left.format(a),
            right.format(b),
        ],
    )
}

/// The line on a task whose plan is over its limits.
pub fn too_many_line(alloc: Global) -> Result<Vec<u8>, AllocError>
    ensures { IfOk result (λ text. text.items ≡ too_many_line) }
{
    line(alloc, "Unknown", &["TooMany"])
}

/// The line on a task that is made up, with how many holes each variant edits.
pub fn summary_line(
    alloc: Global,
    seed: u32,
    size: u16,
    a: u64,
    b: u64,
) -> Result<Vec<u8>, AllocError>
    ensures { IfOk result (λ text. text.items ≡ summary_line seed size a b) }
{
    let mut first = Buffer::new();
    let mut second = Buffer::new();
    let mut left = Buffer::new();
    let mut right = Buffer::new();
    line(
        alloc,
        "gen",
        &[
            first.format(seed),
            second.format(size),
            "a",
            left.format(a),
            "b",
            right.format(b),
        ],
    )
}

// The text of a cell.
fn cell_text(
    alloc: Global,
    names: &NameTable,
    name: Name,
    index: Option<i128>,
) -> Result<String, AllocError>
    ensures { IfOk result (λ text. string_bytes text ≡ cell_text names.now name index) }
{
    let mut text = String::from_str(alloc, name_text(names, name))?;
    if let Some(i) = index {
        let mut buffer = Buffer::new();
        text.push_str("[")?;
        text.push_str(buffer.format(i))?;
        text.push_str("]")?;
    }
    Ok(text)
}

/// The line on an input that violates, by its number among those that are made, and where.
pub fn trial_line(
    alloc: Global,
    names: &NameTable,
    trial: u64,
    name: Name,
    index: Option<i128>,
    clause: u8,
) -> Result<Vec<u8>, AllocError>
    ensures { IfOk result (λ text. text.items ≡ trial_line names.now trial name index clause) }
{
    let cell = cell_text(alloc, names, name, index)?;
    let mut number = Buffer::new();
    let mut part = Buffer::new();
    line(
        alloc,
        "Conflict",
        &[
            "trial",
            number.format(trial),
            "cell",
            cell.as_str(),
            "clause",
            part.format(clause),
        ],
    )
}

/// The line on the copies whose fillings are suggested, that of the first hole first.
pub fn suggestion_line(alloc: Global, copies: &[CopyName]) -> Result<Vec<u8>, AllocError>
    ensures { IfOk result (λ text. text.items ≡ suggestion_line (map copy_named copies.now)) }
{
    let mut text = Vec::from_slice(alloc, b"Suggest")?;
    for copy in copies {
        text.push(b' ')?;
        text.extend_from_slice(copy.letter().as_bytes())?;
    }
    text.push(b'\n')?;
    Ok(text)
}

/// The line on a task that no combination is suggested of.
pub fn none_line(alloc: Global) -> Result<Vec<u8>, AllocError>
    ensures { IfOk result (λ text. text.items ≡ none_line) }
{
    line(alloc, "None", &[])
}

/// The line on holes that are too many for a suggestion.
pub fn many_holes_line(alloc: Global, count: u64) -> Result<Vec<u8>, AllocError>
    ensures { IfOk result (λ text. text.items ≡ many_holes_line count) }
{
    let mut buffer = Buffer::new();
    line(alloc, "Refused", &["TooManyHoles", buffer.format(count)])
}

/// Puts the line with an input's text after a text.
pub fn put_input_line(text: &mut Vec<u8>, input: &[u8]) -> Result<(), AllocError>
    ensures { OnOk result (text.new.items ≡ text.old.items ++ input_line input.now) }
{
    text.extend_from_slice(b"input ")?;
    text.extend_from_slice(input)?;
    text.extend_from_slice(b"\n")?;
    Ok(())
}

// The line on where an input violates.
fn violation_line(
    alloc: Global,
    names: &NameTable,
    name: Name,
    index: Option<i128>,
    clause: u8,
) -> Result<Vec<u8>, AllocError>
    ensures { IfOk result (λ text. text.items ≡ line_of (codes "Conflict")
        (codes "cell" ∷ cell_text names.now name index ∷ codes "clause" ∷ decimal clause ∷ [])) }
{
    let cell = cell_text(alloc, names, name, index)?;
    let mut part = Buffer::new();
    line(
        alloc,
        "Conflict",
        &["cell", cell.as_str(), "clause", part.format(clause)],
    )
}

// The letter of a copy, by its number.
fn letter(copy: u8) -> &'static str
    ensures { result.now ≡ letter_of (copy_of copy) }
{
    CopyName::of_number(copy).letter()
}

fn op_word(op: Op) -> &'static str
    ensures { result.now ≡ op_word op }
{
    match op {
        Op::Add => "add",
        Op::Sub => "sub",
        Op::Mul => "mul",
    }
}

// The line on an operation, by its word, that leaves 128 bits.
fn beyond_line(
    alloc: Global,
    whose: &str,
    op: &str,
    a: i128,
    b: i128,
) -> Result<Vec<u8>, AllocError>
    ensures { IfOk result (λ text. text.items ≡ line_of (codes "Beyond")
        (whose.now ∷ op.now ∷ signed_decimal a ∷ signed_decimal b ∷ [])) }
{
    let mut left = Buffer::new();
    let mut right = Buffer::new();
    line(
        alloc,
        "Beyond",
        &[whose, op, left.format(a), right.format(b)],
    )
}

/// The line on what an input shows.
pub fn verdict_line(
    alloc: Global,
    names: &NameTable,
    verdict: Result<Verdict, ReplayError>,
) -> Result<Vec<u8>, AllocError>
    requires { verdict ≢ Err ReplayError.Memory }
    ensures { IfOk result (λ text. text.items ≡ verdict_line names.now verdict) }
{
    match verdict {
        Ok(Verdict::Holds) => line(alloc, "Holds", &[]),
        Ok(Verdict::Unmet) => line(alloc, "Unmet", &[]),
        Ok(
            Verdict::Violates {
                name,
                index,
                clause,
            },
        ) => violation_line(alloc, names, name, index, clause),
        Err(ReplayError::OutOfTurns { copy }) => line(alloc, "OutOfTurns", &[letter(copy)]),
        Err(ReplayError::Beyond { copy, op, a, b }) => {
            beyond_line(alloc, letter(copy), op_word(op), a, b)
        }
        Err(ReplayError::BeyondAssumed { op, a, b }) => {
            beyond_line(alloc, "assume", op_word(op), a, b)
        },
        Err(ReplayError::Memory) => unreachable!(),
    }
}
