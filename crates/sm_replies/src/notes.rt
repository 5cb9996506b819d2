// The note behind an answer.
ghost use Rattle.std.specs.Prelude.{◌≡◌, None, IfOk};
ghost use Rattle.sm_replay.specs.Sorted.{sort_fault};
ghost use Rattle.sm_task.specs.Tasks.{parts_of};
ghost use Rattle.sm_replies.specs.Check.{IsNote, SaysNoted};

use sm_answers::{Reply, Status};
use sm_replay::some_trial_meets;
use sm_task::Task;
use std::alloc::{AllocError, Global};

// A line with the note behind it.
pub(crate) fn noted(
    alloc: Global,
    task: &Task,
    status: Status,
    text: Vec<u8>,
) -> Result<Reply, AllocError>
    requires { sort_fault (parts_of task.now) ≡ None }
    ensures { IfOk result (λ r. SaysNoted (parts_of task.now) status text.items
        r.status r.text.items) }
{
    let note = note_of(alloc, task)?;
    let mut text = text;
    text.extend_from_slice(note.as_bytes())?;
    Ok(Reply { status, text })
}

// What comes after the decision.
fn note_of(alloc: Global, task: &Task) -> Result<&'static str, AllocError>
    requires { sort_fault (parts_of task.now) ≡ None }
    ensures { IfOk result (λ note. IsNote (parts_of task.now) note.now) }
{
    if some_trial_meets(alloc, task)? {
        Ok("")
    } else {
        Ok("no trial meets the assumption\n")
    }
}
