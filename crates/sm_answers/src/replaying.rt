// What `replay` answers to a task's file and an input's, and to a task and an input.
ghost use Rattle.std.specs.Prelude.{◌≡◌, ℕ, List, None, IfOk, IfErr};
ghost use Rattle.sm_eval.specs.StoredValues.{meaning, sorts_of};
ghost use Rattle.sm_replay.specs.Sorted.{sort_fault};
ghost use Rattle.sm_syntax.specs.text.Parts.{sort_of};
ghost use Rattle.sm_syntax.specs.trees.Programs.{declared_of};
ghost use Rattle.sm_task.specs.Tasks.{parts_of};
ghost use Rattle.sm_answers.specs.Exit.{ExitsWith};
ghost use Rattle.sm_answers.specs.Readings.{ReplaysRead, RunsRead};
ghost use Rattle.sm_answers.specs.Replay.{verdict_status, AnswersReplay, Replays, ReplaysInput};

use crate::exit::Exit;
use crate::file::{input_in, task_in};
use crate::lines::verdict_line;
use crate::status::{Reply, Status};
use sm_eval::Store;
use sm_io::Shelf;
use sm_replay::{ReplayError, Verdict, judge};
use sm_task::{Task, fill_all};
use std::alloc::{AllocError, Global};

/// The answer of `replay` to a task's file and an input's.
pub fn replay_in<H: Shelf>(
    alloc: Global,
    shelf: &mut H,
    name: &str,
    input: &str,
    turns: u64,
) -> Result<Reply, Exit>
    ensures ok { IfOk result (λ r. Replays (H.file shelf.old name.now) (H.file shelf.old input.now)
        turns (H.read_faults shelf.old) (H.read_faults shelf.new) r.status r.text.items) }
    ensures exit { IfErr result (ExitsWith (Replays (H.file shelf.old name.now)
        (H.file shelf.old input.now) turns (H.read_faults shelf.old) (H.read_faults shelf.new))) }
    ensures read { IfOk result (λ r. ReplaysRead name.now input.now turns
        (H.given shelf.old) (H.given shelf.new) r.status r.text.items) }
    ensures exit_read { IfErr result (ExitsWith (ReplaysRead name.now input.now turns
        (H.given shelf.old) (H.given shelf.new))) }
    ensures same { (other : List ℕ) → H.file shelf.new other ≡ H.file shelf.old other }
    ensures writes { H.write_faults shelf.new ≡ H.write_faults shelf.old }
{
    let task = task_in(alloc, shelf, name)?;
    replay_task(alloc, shelf, &task, input, turns)
}

// The answer of `replay` to a task and an input's file.
fn replay_task<H: Shelf>(
    alloc: Global,
    shelf: &mut H,
    task: &Task,
    input: &str,
    turns: u64,
) -> Result<Reply, Exit>
    requires { sort_fault (parts_of task.now) ≡ None }
    ensures ok { IfOk result (λ r. ReplaysInput (parts_of task.now) (H.file shelf.old input.now)
        turns (H.read_faults shelf.old) (H.read_faults shelf.new) r.status r.text.items) }
    ensures exit { IfErr result (ExitsWith (ReplaysInput (parts_of task.now)
        (H.file shelf.old input.now) turns (H.read_faults shelf.old) (H.read_faults shelf.new))) }
    ensures read { IfOk result (λ r. RunsRead (parts_of task.now) input.now turns
        (H.given shelf.old) (H.given shelf.new) r.status r.text.items) }
    ensures exit_read { IfErr result (ExitsWith (RunsRead (parts_of task.now) input.now turns
        (H.given shelf.old) (H.given shelf.new))) }
    ensures same { (other : List ℕ) → H.file shelf.new other ≡ H.file shelf.old other }
    ensures writes { H.write_faults shelf.new ≡ H.write_faults shelf.old }
{
    let store = input_in(alloc, shelf, input, task)?;
    Ok(replay(alloc, task, &store, turns)?)
}

/// The answer to a task that may be run, and a store of its declarations, where each loop takes at
/// most `turns` turns.
pub fn replay(alloc: Global, task: &Task, input: &Store, turns: u64) -> Result<Reply, AllocError>
    requires runs { sort_fault (parts_of task.now) ≡ None }
    requires declared { sorts_of input.now ≡ sort_of (declared_of task.now.shared.decls) }
    ensures { IfOk result (λ r.
        AnswersReplay (parts_of task.now) (meaning input.now) turns r.status r.text.items) }
{
    let programs = fill_all(alloc, task)?;
    let verdict = judge(alloc, task, &programs, input, turns);
    if let Err(ReplayError::Memory) = verdict {
        return Err(AllocError);
    }
    let text = verdict_line(alloc, &task.shared.names, verdict)?;
    Ok(Reply {
        status: status_of(verdict),
        text,
    })
}

fn status_of(verdict: Result<Verdict, ReplayError>) -> Status
    ensures { result ≡ verdict_status verdict }
{
    match verdict {
        Ok(Verdict::Holds) => Status::Accepted,
        Ok(Verdict::Violates { .. }) => Status::Conflict,
        Ok(Verdict::Unmet) => Status::Unknown,
        Err(_) => Status::Unknown,
    }
}
