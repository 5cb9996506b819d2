// What the files that a list names give.
ghost use Rattle.std.specs.Prelude.{◌≡◌, ◌++◌, ◌∷◌, [], ℕ, List, All, IfErr, IfOk, OnOk, map};
ghost use Rattle.std.specs.String.{string_bytes};
ghost use Rattle.sm_task.specs.Tasks.{parts_of};
ghost use Rattle.sm_text.specs.printing.Named.{HasText};
ghost use Rattle.sm_answers.specs.Exit.{ExitsWith};
ghost use Rattle.sm_answers.specs.File.{FailsToRead};
ghost use Rattle.sm_replies.specs.Batch.{FailsToReadOne};
ghost use Rattle.sm_replies.specs.BatchSteps.{AreGiven, GivesNext};
ghost use Rattle.sm_answers.specs.ReadFiles.{GoesOn};

use sm_answers::{Exit, Reply, Status, task_in};
use sm_io::Shelf;
use sm_task::Task;
use std::alloc::{AllocError, Global};

/// What files gave: the tasks of those that gave one, and for each file in order the reply that it
/// gave none, or nothing.
#[derive(Drop)]
pub struct Gathered {
    pub tasks: Vec<Task>,
    pub slots: Vec<Option<Reply>>,
}

/// Reads files, each once and in order. It ends at the first that can't be read.
pub fn gather<H: Shelf>(alloc: Global, shelf: &mut H, names: &[String]) -> Result<Gathered, Exit>
    ensures given { IfOk result (λ g. AreGiven (H.file shelf.old) (H.read_faults shelf.old)
        (H.given shelf.old) (H.given shelf.new)
        (map string_bytes names.now) g.slots.items g.tasks.items) }
    ensures printable { IfOk result (λ g. All (λ t. HasText (parts_of t)) g.tasks.items) }
    ensures exit { IfErr result (ExitsWith (FailsToReadOne (H.file shelf.old)
        (map string_bytes names.now) (H.read_faults shelf.old) (H.read_faults shelf.new))) }
    ensures quiet { OnOk result (H.read_faults shelf.new ≡ H.read_faults shelf.old) }
    ensures goes_on { OnOk result (GoesOn (H.given shelf.old) (H.given shelf.new)) }
    ensures same { (other : List ℕ) → H.file shelf.new other ≡ H.file shelf.old other }
    ensures writes { H.write_faults shelf.new ≡ H.write_faults shelf.old }
{
    let mut tasks = Vec::new(alloc);
    let mut slots = Vec::new(alloc);
    'names: for name in names {
        let slot = gather_one(alloc, shelf, name.as_str(), &mut tasks)?;
        put(&mut slots, slot)?;
    }
    Ok(Gathered { tasks, slots })
}

// Reads a file, and puts its task behind the others; the reply that it gives none, if that is so.
fn gather_one<H: Shelf>(
    alloc: Global,
    shelf: &mut H,
    name: &str,
    tasks: &mut Vec<Task>,
) -> Result<Option<Reply>, Exit>
    ensures gives { IfOk result (λ slot. GivesNext (H.file shelf.old) (H.read_faults shelf.old)
        (H.given shelf.old) (H.given shelf.new) name.now tasks.old.items tasks.new.items slot) }
    ensures exit { IfErr result (ExitsWith (FailsToRead (H.file shelf.old name.now)
        (H.read_faults shelf.old) (H.read_faults shelf.new))) }
    ensures quiet { OnOk result (H.read_faults shelf.new ≡ H.read_faults shelf.old) }
    ensures goes_on { OnOk result (GoesOn (H.given shelf.old) (H.given shelf.new)) }
    ensures same { (other : List ℕ) → H.file shelf.new other ≡ H.file shelf.old other }
    ensures writes { H.write_faults shelf.new ≡ H.write_faults shelf.old }
{
    match task_in(alloc, shelf, name) {
        Ok(task) => {
            put(tasks, task)?;
            Ok(None)
        }
        Err(Exit::Answer(reply)) => {
            if reply.status == Status::ReadFault {
                return Err(Exit::Answer(reply));
            }
            Ok(Some(reply))
        }
        Err(Exit::Memory) => Err(Exit::Memory),
    }
}

// Puts a value behind the others.
fn put<T: Drop>(values: &mut Vec<T>, value: T) -> Result<(), AllocError>
    ensures { OnOk result (values.new.items ≡ values.old.items ++ value ∷ []) }
{
    values.push(value)?;
    Ok(())
}
