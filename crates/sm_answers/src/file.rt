// Files of tasks and of inputs.
ghost use Rattle.std.specs.Prelude.{◌≡◌, ◌^◌, ◌<◌, ℕ, List, None, length, IfOk, IfErr, IsErr};
ghost use Rattle.sm_syntax.specs.text.Spells.{Spells};
ghost use Rattle.sm_check.specs.Checkable.{IsCheckable};
ghost use Rattle.sm_task.specs.Tasks.{parts_of};
ghost use Rattle.sm_eval.specs.StoredValues.{sorts_of};
ghost use Rattle.sm_replay.specs.Input.{IsInput};
ghost use Rattle.sm_replay.specs.Sorted.{sort_fault};
ghost use Rattle.sm_replay.specs.InputText.{AreNamed};
ghost use Rattle.sm_syntax.specs.text.Parts.{sort_of};
ghost use Rattle.sm_syntax.specs.trees.Programs.{declared_of};
ghost use Rattle.sm_text.specs.printing.Named.{HasText};
ghost use Rattle.sm_answers.specs.Replay.{GivesInput, GivesNoInput, IsNoInput};
ghost use Rattle.sm_answers.specs.File.{GivesNoBytes, GivesNoTask, GivesTask, IsNoTask, IsRead};
ghost use Rattle.sm_answers.specs.Exit.{ExitsWith};
ghost use Rattle.sm_answers.specs.Readings.{ReadsInput, ReadsOnce, ReadsTask};
ghost use Rattle.sm_io.specs.Reads.{ReadsOn, ReadsWhole};

use crate::exit::Exit;
use crate::refusals::{input_refusal_line, refusal_line};
use crate::status::{Reply, Status};
use sm_eval::Store;
use sm_io::{ReadError, Shelf, read_all};
use sm_replay::{InputError, read_input};
use sm_task::{Task, TaskError, parse_task};
use sm_words::line;
use std::alloc::Global;

/// How many bytes the file of a task, or of an input, may have.
const FILE_LIMIT: u64 = 1048576;

/// The bytes of a file of this kind.
pub fn bytes_in<H: Shelf>(
    alloc: Global,
    shelf: &mut H,
    name: &str,
    kind: &str,
) -> Result<Vec<u8>, Exit>
    ensures ok { IfOk result (λ bytes. IsRead (H.file shelf.old name.now)
        (H.read_faults shelf.old) (H.read_faults shelf.new) bytes.items) }
    ensures whole { IfOk result (λ bytes.
        ReadsWhole name.now (H.given shelf.old) (H.given shelf.new) bytes.items) }
    ensures part { IsErr result → (bytes : List ℕ)
        × ReadsOn name.now (H.given shelf.old) (H.given shelf.new) bytes }
    ensures exit { IfErr result (ExitsWith (GivesNoBytes kind.now (H.file shelf.old name.now)
        (H.read_faults shelf.old) (H.read_faults shelf.new))) }
    ensures same { (other : List ℕ) → H.file shelf.new other ≡ H.file shelf.old other }
    ensures writes { H.write_faults shelf.new ≡ H.write_faults shelf.old }
{
    match read_all(alloc, shelf, name, FILE_LIMIT) {
        Ok(bytes) => Ok(bytes),
        Err(ReadError::Memory) => Err(Exit::Memory),
        Err(ReadError::TooLong) => Err(Exit::Answer(Reply {
            status: Status::Refused,
            text: line(alloc, "TooLong", &[kind])?,
        })),
        Err(ReadError::Fault) => Err(Exit::Answer(Reply {
            status: Status::ReadFault,
            text: line(alloc, "ReadFault", &[])?,
        })),
    }
}

/// The task that a file's bytes spell.
pub fn task_in<H: Shelf>(alloc: Global, shelf: &mut H, name: &str) -> Result<Task, Exit>
    ensures ok { IfOk result (λ t. GivesTask (H.file shelf.old name.now)
        (H.read_faults shelf.old) (H.read_faults shelf.new) (parts_of t)) }
    ensures read { IfOk result (λ t.
        ReadsTask name.now (H.given shelf.old) (H.given shelf.new) (parts_of t)) }
    ensures once { ReadsOnce name.now (H.given shelf.old) (H.given shelf.new) }
    ensures printable { IfOk result (λ t. HasText (parts_of t)) }
    ensures runs { IfOk result (λ t. sort_fault (parts_of t) ≡ None) }
    ensures named { IfOk result (λ t. AreNamed (parts_of t).names (sort_of (parts_of t).declared)) }
    ensures checkable { IfOk result (λ t. IsCheckable (parts_of t)) }
    ensures exit { IfErr result (ExitsWith (GivesNoTask (H.file shelf.old name.now)
        (H.read_faults shelf.old) (H.read_faults shelf.new))) }
    ensures same { (other : List ℕ) → H.file shelf.new other ≡ H.file shelf.old other }
    ensures writes { H.write_faults shelf.new ≡ H.write_faults shelf.old }
{
    let bytes = bytes_in(alloc, shelf, name, "task")?;
    task_from(alloc, &bytes)
}

/// A task, and the text that spells it.
pub struct Spelled {
    pub text: Vec<u8>,
    pub task: Task,
}

// One call ends a value, and not one for each field: proofs of what has it stay small.
impl Drop for Spelled {
    fn drop(self) {
        let Self { text: _, task: _ } = self;
    }
}

/// The task that a file's bytes spell, with these bytes.
pub fn spelled_in<H: Shelf>(alloc: Global, shelf: &mut H, name: &str) -> Result<Spelled, Exit>
    ensures ok { IfOk result (λ s. GivesTask (H.file shelf.old name.now)
        (H.read_faults shelf.old) (H.read_faults shelf.new) (parts_of s.task)) }
    ensures read { IfOk result (λ s.
        ReadsTask name.now (H.given shelf.old) (H.given shelf.new) (parts_of s.task)) }
    ensures spells { IfOk result (λ s. Spells s.text.items (parts_of s.task)) }
    ensures short { IfOk result (λ s. length s.text.items < 2 ^ 32) }
    ensures printable { IfOk result (λ s. HasText (parts_of s.task)) }
    ensures exit { IfErr result (ExitsWith (GivesNoTask (H.file shelf.old name.now)
        (H.read_faults shelf.old) (H.read_faults shelf.new))) }
    ensures same { (other : List ℕ) → H.file shelf.new other ≡ H.file shelf.old other }
    ensures writes { H.write_faults shelf.new ≡ H.write_faults shelf.old }
{
    let text = bytes_in(alloc, shelf, name, "task")?;
    let task = task_from(alloc, &text)?;
    Ok(Spelled { text, task })
}

/// The task that bytes spell, of which there are fewer than 2^32.
#[tactic(auto, using(sm_replay::proofs::RunnableTasks::spelled_runs))]
pub fn task_from(alloc: Global, bytes: &[u8]) -> Result<Task, Exit>
    requires { length bytes.now < 2 ^ 32 }
    ensures ok { IfOk result (λ t. Spells bytes.now (parts_of t)) }
    ensures printable { IfOk result (λ t. HasText (parts_of t)) }
    ensures runs { IfOk result (λ t. sort_fault (parts_of t) ≡ None) }
    ensures named { IfOk result (λ t. AreNamed (parts_of t).names (sort_of (parts_of t).declared)) }
    ensures checkable { IfOk result (λ t. IsCheckable (parts_of t)) }
    ensures exit { IfErr result (ExitsWith (IsNoTask bytes.now)) }
{
    match parse_task(alloc, bytes) {
        Ok(task) => Ok(task),
        Err(TaskError::Memory) => Err(Exit::Memory),
        Err(error) => {
            let names = sm_text::names(alloc, bytes)?;
            let text = refusal_line(alloc, &names, error)?;
            Err(Exit::Answer(Reply {
                status: Status::Refused,
                text,
            }))
        }
    }
}

/// The store that a file's bytes give as an input of the task.
pub fn input_in<H: Shelf>(
    alloc: Global,
    shelf: &mut H,
    name: &str,
    task: &Task,
) -> Result<Store, Exit>
    ensures ok { IfOk result (GivesInput (parts_of task.now) (H.file shelf.old name.now)
        (H.read_faults shelf.old) (H.read_faults shelf.new)) }
    ensures read { IfOk result
        (ReadsInput (parts_of task.now) name.now (H.given shelf.old) (H.given shelf.new)) }
    ensures declared { IfOk result (λ s. sorts_of s ≡ sort_of (declared_of task.now.shared.decls)) }
    ensures exit { IfErr result (ExitsWith (GivesNoInput (parts_of task.now)
        (H.file shelf.old name.now) (H.read_faults shelf.old) (H.read_faults shelf.new))) }
    ensures same { (other : List ℕ) → H.file shelf.new other ≡ H.file shelf.old other }
    ensures writes { H.write_faults shelf.new ≡ H.write_faults shelf.old }
{
    let bytes = bytes_in(alloc, shelf, name, "input")?;
    input_from(alloc, &bytes, task)
}

/// The store that bytes give as an input of the task, of which there are fewer than 2^32.
pub fn input_from(alloc: Global, bytes: &[u8], task: &Task) -> Result<Store, Exit>
    requires { length bytes.now < 2 ^ 32 }
    ensures ok { IfOk result (IsInput task.now.shared.names
        (sort_of (declared_of task.now.shared.decls)) bytes.now) }
    ensures exit { IfErr result (ExitsWith (IsNoInput (parts_of task.now) bytes.now)) }
{
    let names = &task.shared.names;
    match read_input(alloc, &task.shared.decls, names, bytes) {
        Ok(store) => Ok(store),
        Err(InputError::Memory) => Err(Exit::Memory),
        Err(error) => {
            let text = input_refusal_line(alloc, names, error)?;
            Err(Exit::Answer(Reply {
                status: Status::Refused,
                text,
            }))
        }
    }
}
