// What `print` answers to a task, and the programs of its copies.
ghost use Rattle.std.specs.Prelude.{◌≡◌, ◌++◌, ℕ, List, Some, IfOk, IfErr, OnOk};
ghost use Rattle.sm_task.specs.Tasks.{parts_of};
ghost use Rattle.sm_text.specs.printing.Named.{HasText};
ghost use Rattle.sm_answers.specs.Exit.{ExitsWith};
ghost use Rattle.sm_answers.specs.Status.{Says};
ghost use Rattle.sm_display.specs.Print.{canonical_text, Prints};
ghost use Rattle.sm_display.specs.Shown.{copy_heading, copy_section, programs_text};

use sm_answers::{Exit, Reply, Status, task_in};
use sm_io::Shelf;
use sm_syntax::CopyName;
use sm_task::{Task, fill, print_task};
use sm_text::print_program;
use std::alloc::{AllocError, Global};

/// The answer of `print` to a task's file.
pub fn print_in<H: Shelf>(
    alloc: Global,
    shelf: &mut H,
    name: &str,
    copy: Option<CopyName>,
) -> Result<Reply, Exit>
    ensures ok { IfOk result (λ r. Prints (H.file shelf.old name.now) copy
        (H.read_faults shelf.old) (H.read_faults shelf.new) r.status r.text.items) }
    ensures exit { IfErr result (ExitsWith (Prints (H.file shelf.old name.now) copy
        (H.read_faults shelf.old) (H.read_faults shelf.new))) }
    ensures same { (other : List ℕ) → H.file shelf.new other ≡ H.file shelf.old other }
    ensures writes { H.write_faults shelf.new ≡ H.write_faults shelf.old }
{
    let task = task_in(alloc, shelf, name)?;
    Ok(print(alloc, &task, copy)?)
}

// The canonical text of a task that some text spells, as an answer; or, where a copy is named, that
// of its program.
fn print(alloc: Global, task: &Task, copy: Option<CopyName>) -> Result<Reply, AllocError>
    requires { HasText (parts_of task.now) }
    ensures { let text = canonical_text (parts_of task.now) copy in
        IfOk result (λ r. Says Status.Accepted text r.status r.text.items) }
{
    let text = match copy {
        Some(copy) => copy_text(alloc, task, copy)?,
        None => print_task(alloc, task)?,
    };
    Ok(Reply {
        status: Status::Accepted,
        text,
    })
}

// The canonical text of a copy's program.
fn copy_text(alloc: Global, task: &Task, copy: CopyName) -> Result<Vec<u8>, AllocError>
    requires { HasText (parts_of task.now) }
    ensures { IfOk result (λ text. text.items ≡ canonical_text (parts_of task.now) (Some copy)) }
{
    let program = fill(alloc, task, copy.number())?;
    let text = print_program(alloc, &program)?;
    Ok(text)
}

/// The four programs of a task that some text spells, as an answer.
pub fn programs(alloc: Global, task: &Task) -> Result<Reply, AllocError>
    requires { HasText (parts_of task.now) }
    ensures { let text = programs_text (parts_of task.now) in
        IfOk result (λ r. Says Status.Accepted text r.status r.text.items) }
{
    let mut text = copy_section(alloc, task, CopyName::O)?;
    let a = copy_section(alloc, task, CopyName::A)?;
    text.extend_from_slice(&a)?;
    let b = copy_section(alloc, task, CopyName::B)?;
    text.extend_from_slice(&b)?;
    let candidate = copy_section(alloc, task, CopyName::M)?;
    text.extend_from_slice(&candidate)?;
    Ok(Reply {
        status: Status::Accepted,
        text,
    })
}

// The program of a copy behind the line that names the copy.
fn copy_section(alloc: Global, task: &Task, copy: CopyName) -> Result<Vec<u8>, AllocError>
    requires { HasText (parts_of task.now) }
    ensures { IfOk result (λ text. text.items ≡ copy_section (parts_of task.now) copy) }
{
    let program = copy_text(alloc, task, copy)?;
    let mut text = Vec::from_slice(alloc, copy_heading(copy).as_bytes())?;
    text.extend_from_slice(&program)?;
    Ok(text)
}

// The line that names a copy.
fn copy_heading(copy: CopyName) -> &'static str
    ensures { result.now ≡ copy_heading copy }
{
    match copy {
        CopyName::O => "# base\n",
        CopyName::A => "# a\n",
        CopyName::B => "# b\n",
        CopyName::M => "# candidate\n",
    }
}
