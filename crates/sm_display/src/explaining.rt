// What `explain` answers to a task's file, and to an input's.
ghost use Rattle.std.specs.Prelude.{◌≡◌, ℕ, List, None, option_map, IfOk, IfErr};
ghost use Rattle.sm_replay.specs.Sorted.{sort_fault};
ghost use Rattle.sm_task.specs.Tasks.{parts_of};
ghost use Rattle.sm_answers.specs.Exit.{ExitsWith};
ghost use Rattle.sm_answers.specs.Readings.{ReplaysRead, RunsRead};
ghost use Rattle.sm_display.specs.Explain.{Explains, ExplainsFile, ExplainsInput, ExplainsRun};
ghost use Rattle.sm_display.specs.Readings.{ExplainsRead};

use crate::printing::programs;
use crate::refusing::shown_task_in;
use crate::showing::explain;
use sm_answers::{Exit, Reply, input_in};
use sm_io::Shelf;
use sm_task::Task;
use std::alloc::Global;

/// The answer of `explain` to a task's file, and to an input's where one is named. Each loop takes at
/// most `turns` turns.
pub fn explain_in<H: Shelf>(
    alloc: Global,
    shelf: &mut H,
    name: &str,
    input: Option<&str>,
    turns: u64,
) -> Result<Reply, Exit>
    ensures ok { let given = option_map (λ i. i.now) input.entry in IfOk result (λ r.
        Explains (H.file shelf.old) name.now given turns
        (H.read_faults shelf.old) (H.read_faults shelf.new) r.status r.text.items) }
    ensures exit { let given = option_map (λ i. i.now) input.entry in IfErr result (ExitsWith
        (Explains (H.file shelf.old) name.now given turns
        (H.read_faults shelf.old) (H.read_faults shelf.new))) }
    ensures read { let given = option_map (λ i. i.now) input.entry in IfOk result (λ r.
        ExplainsRead name.now given turns
        (H.given shelf.old) (H.given shelf.new) r.status r.text.items) }
    ensures exit_read { let given = option_map (λ i. i.now) input.entry in IfErr result (ExitsWith
        (ExplainsRead name.now given turns (H.given shelf.old) (H.given shelf.new))) }
    ensures same { (other : List ℕ) → H.file shelf.new other ≡ H.file shelf.old other }
    ensures writes { H.write_faults shelf.new ≡ H.write_faults shelf.old }
{
    match input {
        Some(input) => explain_run(alloc, shelf, name, input, turns),
        None => explain_file(alloc, shelf, name),
    }
}

// The answer to a task's file.
fn explain_file<H: Shelf>(alloc: Global, shelf: &mut H, name: &str) -> Result<Reply, Exit>
    ensures ok { IfOk result (λ r. ExplainsFile (H.file shelf.old name.now)
        (H.read_faults shelf.old) (H.read_faults shelf.new) r.status r.text.items) }
    ensures exit { IfErr result (ExitsWith (ExplainsFile (H.file shelf.old name.now)
        (H.read_faults shelf.old) (H.read_faults shelf.new))) }
    ensures same { (other : List ℕ) → H.file shelf.new other ≡ H.file shelf.old other }
    ensures writes { H.write_faults shelf.new ≡ H.write_faults shelf.old }
{
    let task = shown_task_in(alloc, shelf, name)?;
    Ok(programs(alloc, &task)?)
}

// The answer to a task's file and an input's.
fn explain_run<H: Shelf>(
    alloc: Global,
    shelf: &mut H,
    name: &str,
    input: &str,
    turns: u64,
) -> Result<Reply, Exit>
    ensures ok { IfOk result (λ r. ExplainsRun (H.file shelf.old name.now)
        (H.file shelf.old input.now) turns
        (H.read_faults shelf.old) (H.read_faults shelf.new) r.status r.text.items) }
    ensures exit { IfErr result (ExitsWith (ExplainsRun (H.file shelf.old name.now)
        (H.file shelf.old input.now) turns
        (H.read_faults shelf.old) (H.read_faults shelf.new))) }
    ensures read { IfOk result (λ r. ReplaysRead name.now input.now turns
        (H.given shelf.old) (H.given shelf.new) r.status r.text.items) }
    ensures exit_read { IfErr result (ExitsWith (ReplaysRead name.now input.now turns
        (H.given shelf.old) (H.given shelf.new))) }
    ensures same { (other : List ℕ) → H.file shelf.new other ≡ H.file shelf.old other }
    ensures writes { H.write_faults shelf.new ≡ H.write_faults shelf.old }
{
    let task = shown_task_in(alloc, shelf, name)?;
    explain_task(alloc, shelf, &task, input, turns)
}

// The answer to a task and an input's file.
fn explain_task<H: Shelf>(
    alloc: Global,
    shelf: &mut H,
    task: &Task,
    input: &str,
    turns: u64,
) -> Result<Reply, Exit>
    requires { sort_fault (parts_of task.now) ≡ None }
    ensures ok { IfOk result (λ r. ExplainsInput (parts_of task.now) (H.file shelf.old input.now)
        turns (H.read_faults shelf.old) (H.read_faults shelf.new) r.status r.text.items) }
    ensures exit { IfErr result (ExitsWith (ExplainsInput (parts_of task.now)
        (H.file shelf.old input.now) turns (H.read_faults shelf.old) (H.read_faults shelf.new))) }
    ensures read { IfOk result (λ r. RunsRead (parts_of task.now) input.now turns
        (H.given shelf.old) (H.given shelf.new) r.status r.text.items) }
    ensures exit_read { IfErr result (ExitsWith (RunsRead (parts_of task.now) input.now turns
        (H.given shelf.old) (H.given shelf.new))) }
    ensures same { (other : List ℕ) → H.file shelf.new other ≡ H.file shelf.old other }
    ensures writes { H.write_faults shelf.new ≡ H.write_faults shelf.old }
{
    let store = input_in(alloc, shelf, input, task)?;
    Ok(explain(alloc, task, &store, turns)?)
}
