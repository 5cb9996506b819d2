// Files that give no task, with the place at which they are refused and what could stand there.
ghost use Rattle.std.specs.Prelude.{◌≡◌, ◌≢◌, ◌^◌, ◌<◌, ℕ, List, None, length, IfOk, IfErr};
ghost use Rattle.sm_replay.specs.Sorted.{sort_fault};
ghost use Rattle.sm_syntax.specs.text.Spells.{Spells};
ghost use Rattle.sm_task.specs.Errors.{IsRefusedWith};
ghost use Rattle.sm_task.specs.Tasks.{parts_of};
ghost use Rattle.sm_text.specs.printing.Named.{HasText};
ghost use Rattle.sm_answers.specs.Exit.{ExitsWith};
ghost use Rattle.sm_answers.specs.File.{GivesTask};
ghost use Rattle.sm_answers.specs.Readings.{ReadsTask};
ghost use Rattle.sm_display.specs.Explain.{ExplainsNoTask, ShowsNoTask};
ghost use Rattle.sm_display.specs.Shown.{misfit_of, offset_of, ShowsOffset, ShowsTokens};

use sm_answers::{Exit, Reply, Status, bytes_in, refusal_line};
use sm_explain::show_place;
use sm_follow::follow_line;
use sm_io::Shelf;
use sm_task::{Task, TaskError, parse_task};
use std::alloc::{AllocError, Global};

/// The task that a file's bytes spell; where there is none, the answer shows where it is refused.
pub fn shown_task_in<H: Shelf>(alloc: Global, shelf: &mut H, name: &str) -> Result<Task, Exit>
    ensures ok { IfOk result (λ t. GivesTask (H.file shelf.old name.now)
        (H.read_faults shelf.old) (H.read_faults shelf.new) (parts_of t)) }
    ensures read { IfOk result (λ t.
        ReadsTask name.now (H.given shelf.old) (H.given shelf.new) (parts_of t)) }
    ensures printable { IfOk result (λ t. HasText (parts_of t)) }
    ensures runs { IfOk result (λ t. sort_fault (parts_of t) ≡ None) }
    ensures exit { IfErr result (ExitsWith (ExplainsNoTask (H.file shelf.old name.now)
        (H.read_faults shelf.old) (H.read_faults shelf.new))) }
    ensures same { (other : List ℕ) → H.file shelf.new other ≡ H.file shelf.old other }
    ensures writes { H.write_faults shelf.new ≡ H.write_faults shelf.old }
{
    let bytes = bytes_in(alloc, shelf, name, "task")?;
    shown_task_from(alloc, &bytes)
}

// The task that bytes spell, of which there are fewer than 2^31.
#[tactic(auto, using(sm_replay::proofs::RunnableTasks::spelled_runs))]
fn shown_task_from(alloc: Global, bytes: &[u8]) -> Result<Task, Exit>
    requires { length bytes.now < 2 ^ 31 }
    ensures ok { IfOk result (λ t. Spells bytes.now (parts_of t)) }
    ensures printable { IfOk result (λ t. HasText (parts_of t)) }
    ensures runs { IfOk result (λ t. sort_fault (parts_of t) ≡ None) }
    ensures exit { IfErr result (ExitsWith (ShowsNoTask bytes.now)) }
{
    match parse_task(alloc, bytes) {
        Ok(task) => Ok(task),
        Err(TaskError::Memory) => Err(Exit::Memory),
        Err(error) => Err(Exit::Answer(refusal(alloc, bytes, error)?)),
    }
}

// The answer to bytes that are refused with an error.
fn refusal(alloc: Global, bytes: &[u8], error: TaskError) -> Result<Reply, AllocError>
    requires few { length bytes.now < 2 ^ 31 }
    requires cause { error ≢ TaskError.Memory }
    requires first { IsRefusedWith bytes.now error }
    ensures { IfOk result (λ r. ShowsNoTask bytes.now r.status r.text.items) }
{
    let names = sm_text::names(alloc, bytes)?;
    let mut text = refusal_line(alloc, &names, error)?;
    let place = place_lines(alloc, bytes, error)?;
    text.extend_from_slice(&place)?;
    let tokens = tokens_line(alloc, bytes, error)?;
    text.extend_from_slice(&tokens)?;
    Ok(Reply {
        status: Status::Refused,
        text,
    })
}

// The lines that show where bytes are refused with an error.
fn place_lines(alloc: Global, bytes: &[u8], error: TaskError) -> Result<Vec<u8>, AllocError>
    requires { IsRefusedWith bytes.now error }
    ensures { IfOk result (λ lines. ShowsOffset bytes.now (offset_of error) lines.items) }
{
    match offset_of(error) {
        Some(offset) => show_place(alloc, bytes, offset as usize),
        None => Ok(Vec::new(alloc)),
    }
}

// The line of what could stand where bytes are refused with an error.
fn tokens_line(alloc: Global, bytes: &[u8], error: TaskError) -> Result<Vec<u8>, AllocError>
    requires few { length bytes.now < 2 ^ 31 }
    requires first { IsRefusedWith bytes.now error }
    ensures { IfOk result (λ line. ShowsTokens bytes.now (misfit_of error) line.items) }
{
    match misfit_of(error) {
        Some(offset) => follow_line(alloc, &bytes[..offset as usize]),
        None => Ok(Vec::new(alloc)),
    }
}

// The offset at which nothing stands that could stand there.
fn misfit_of(error: TaskError) -> Option<u64>
    ensures { result ≡ misfit_of error }
{
    match error {
        TaskError::BadByte { place } => Some(place),
        TaskError::WideNumber { place } => Some(place),
        TaskError::BadToken { place } => Some(place),
        TaskError::Expected { place } => Some(place),
        TaskError::Nested { .. } => None,
        TaskError::MissingFilling { .. } => None,
        TaskError::UnknownHole { .. } => None,
        TaskError::DoubleHole { .. } => None,
        TaskError::HoleInFilling { .. } => None,
        TaskError::UnknownName { .. } => None,
        TaskError::WrongSort { .. } => None,
        TaskError::DoubleName { .. } => None,
        TaskError::TooDeep => None,
        TaskError::TooMany => None,
        TaskError::Memory => None,
    }
}

// The offset at which a text is refused with an error.
fn offset_of(error: TaskError) -> Option<u64>
    ensures { result ≡ offset_of error }
{
    match error {
        TaskError::BadByte { place } => Some(place),
        TaskError::WideNumber { place } => Some(place),
        TaskError::BadToken { place } => Some(place),
        TaskError::Expected { place } => Some(place),
        TaskError::Nested { place } => Some(place),
        TaskError::MissingFilling { .. } => None,
        TaskError::UnknownHole { .. } => None,
        TaskError::DoubleHole { .. } => None,
        TaskError::HoleInFilling { .. } => None,
        TaskError::UnknownName { .. } => None,
        TaskError::WrongSort { .. } => None,
        TaskError::DoubleName { .. } => None,
        TaskError::TooDeep => None,
        TaskError::TooMany => None,
        TaskError::Memory => None,
    }
}
