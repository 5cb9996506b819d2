// What the programs of a task do from an input, for a person.
ghost use Rattle.std.specs.Prelude.{◌≡◌, ◌++◌, None, IfOk};
ghost use Rattle.sm_eval.specs.StoredValues.{meaning, sorts_of};
ghost use Rattle.sm_replay.specs.Sorted.{sort_fault};
ghost use Rattle.sm_syntax.specs.text.Parts.{sort_of};
ghost use Rattle.sm_syntax.specs.trees.Programs.{declared_of};
ghost use Rattle.sm_task.specs.Tasks.{parts_of};
ghost use Rattle.sm_display.specs.Explain.{ExplainsReplay};
ghost use Rattle.sm_display.specs.Shown.{ends_text, same_outputs, start_heading, table_heading, ShowsEnds};
ghost use Rattle.sm_display.specs.Views.{ShowsBy};

use sm_answers::{Reply, Status, replay};
use sm_eval::Store;
use sm_explain::{start_lines, table};
use sm_task::{Task, fill_all};
use std::alloc::{AllocError, Global};

/// The answer of `explain` to a task that may be run, and a store of its declarations, where each
/// loop takes at most `turns` turns.
pub fn explain(alloc: Global, task: &Task, input: &Store, turns: u64) -> Result<Reply, AllocError>
    requires runs { sort_fault (parts_of task.now) ≡ None }
    requires declared { sorts_of input.now ≡ sort_of (declared_of task.now.shared.decls) }
    ensures { IfOk result (λ r.
        ExplainsReplay (parts_of task.now) (meaning input.now) turns r.status r.text.items) }
{
    let reply = replay(alloc, task, input, turns)?;
    let start = start_lines(alloc, task, input)?;
    let ends = ends_by(alloc, task, input, turns, reply.status)?;
    let text = joined(alloc, &reply.text, &start, &ends)?;
    Ok(Reply {
        status: reply.status,
        text,
    })
}

// The line of a verdict, and the start and the ends behind it.
fn joined(alloc: Global, line: &[u8], start: &[u8], ends: &[u8]) -> Result<Vec<u8>, AllocError>
    ensures { IfOk result (λ text.
        text.items ≡ line.now ++ (start_heading ++ (start.now ++ ends.now))) }
{
    let mut text = Vec::from_slice(alloc, line)?;
    text.extend_from_slice(start_heading().as_bytes())?;
    text.extend_from_slice(start)?;
    text.extend_from_slice(ends)?;
    Ok(text)
}

// What is shown of the ends, by the status of the verdict.
fn ends_by(
    alloc: Global,
    task: &Task,
    input: &Store,
    turns: u64,
    status: Status,
) -> Result<Vec<u8>, AllocError>
    requires runs { sort_fault (parts_of task.now) ≡ None }
    requires declared { sorts_of input.now ≡ sort_of (declared_of task.now.shared.decls) }
    ensures { IfOk result (λ text.
        ShowsBy (parts_of task.now) (meaning input.now) turns status text.items) }
{
    match status {
        Status::Accepted => shown_ends(alloc, task, input, turns),
        Status::Conflict => shown_ends(alloc, task, input, turns),
        Status::Unknown => Ok(Vec::new(alloc)),
        Status::Refused => Ok(Vec::new(alloc)),
        Status::Usage => Ok(Vec::new(alloc)),
        Status::ReadFault => Ok(Vec::new(alloc)),
        Status::Memory => Ok(Vec::new(alloc)),
        Status::WriteFault => Ok(Vec::new(alloc)),
        Status::SinkFault => Ok(Vec::new(alloc)),
    }
}

/// The table of a task's four ends from a store of its declarations, behind its line. The programs
/// end where there is a verdict on their ends, so only want of memory is met.
pub fn shown_ends(
    alloc: Global,
    task: &Task,
    input: &Store,
    turns: u64,
) -> Result<Vec<u8>, AllocError>
    requires runs { sort_fault (parts_of task.now) ≡ None }
    requires declared { sorts_of input.now ≡ sort_of (declared_of task.now.shared.decls) }
    ensures { IfOk result (λ text.
        ShowsEnds (parts_of task.now) (meaning input.now) turns text.items) }
{
    let programs = fill_all(alloc, task)?;
    match table(alloc, task, &programs, input, turns) {
        Ok(rows) => behind_heading(alloc, &rows),
        Err(_) => Err(AllocError),
    }
}

// A table behind its line, or that it is empty.
fn behind_heading(alloc: Global, rows: &[u8]) -> Result<Vec<u8>, AllocError>
    ensures { IfOk result (λ text. text.items ≡ ends_text rows.now) }
{
    match rows {
        [] => Vec::from_slice(alloc, same_outputs().as_bytes()),
        [_, ..] => {
            let mut text = Vec::from_slice(alloc, table_heading().as_bytes())?;
            text.extend_from_slice(rows)?;
            Ok(text)
        }
    }
}

// The line before a start.
#[tactic(auto, unfolding(crate::specs::Shown::start_heading))]
fn start_heading() -> &'static str
    ensures { result.now ≡ start_heading }
{
    "start:\n"
}

// The line before a table.
#[tactic(auto, unfolding(crate::specs::Shown::table_heading))]
fn table_heading() -> &'static str
    ensures { result.now ≡ table_heading }
{
    "outputs that differ:\n"
}

// The line where a table is empty.
#[tactic(auto, unfolding(crate::specs::Shown::same_outputs))]
fn same_outputs() -> &'static str
    ensures { result.now ≡ same_outputs }
{
    "the four programs end with the same outputs\n"
}
