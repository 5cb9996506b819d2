// Copies and sites of tasks, and proofs for them that lie in memory.
ghost use Rattle.std.specs.Prelude.{◌≡◌, ◌<◌};
ghost use Rattle.sm_text.specs.Tasks.{parts_of};
ghost use Rattle.sm_text.specs.printing.Named.{HasText};
ghost use Rattle.sm_product.specs.ProductPlans.{site_count};

use crate::printed::Printed;
use crate::refusal::{Refusal, told};
use crate::word::{bytes_of, copy_of, two, with_line_feeds};
use sm_check::check_bytes;
use sm_product::{sites, templates};
use sm_task::{fill, parse_task};
use sm_term::TermTable;
use sm_text::Task;
use std::alloc::Global;

/// Prints the statements of a copy of a task.
pub fn fill_answer(alloc: Global, text: &str, out: &mut Printed) -> Result<(), Refusal> {
    let (copy, text) = two(text)?;
    let copy = copy_of(copy)?;
    match parse_task(alloc, bytes_of(text)?) {
        Ok(task) => put_filled(alloc, &task, copy, out),
        Err(error) => Err(told(out, error)),
    }
}

// Prints the statements of a copy.
fn put_filled(alloc: Global, task: &Task, copy: u8, out: &mut Printed) -> Result<(), Refusal>
    requires { copy < 4 }
{
    let program = fill(alloc, task, copy)?;
    write!(out, "{:?}", program.body.list);
    Ok(())
}

/// Prints how many sites a task has, and how many templates the first has.
pub fn sites_answer(alloc: Global, text: &str, out: &mut Printed) -> Result<(), Refusal> {
    match parse_task(alloc, bytes_of(text)?) {
        Ok(task) => put_counts(alloc, &task, out),
        Err(error) => Err(told(out, error)),
    }
}

// Prints the number of the sites, and of the templates of the first.
fn put_counts(alloc: Global, task: &Task, out: &mut Printed) -> Result<(), Refusal>
    requires { HasText (parts_of task.now) }
{
    match sites(alloc, task) {
        Ok(count) => put_sites(alloc, task, count, out),
        Err(error) => Err(told(out, error)),
    }
}

// Prints that number, and how many templates the first site has.
fn put_sites(alloc: Global, task: &Task, count: u64, out: &mut Printed) -> Result<(), Refusal>
    requires printable { HasText (parts_of task.now) }
    requires counted { count ≡ site_count (parts_of task.now) }
{
    write!(out, "sites {count} templates ");
    if count > 0 {
        put_first(alloc, task, out)
    } else {
        out.put("0");
        Ok(())
    }
}

// Prints how many templates the first site has.
fn put_first(alloc: Global, task: &Task, out: &mut Printed) -> Result<(), Refusal>
    requires printable { HasText (parts_of task.now) }
    requires some { 0 < site_count (parts_of task.now) }
{
    let mut table = TermTable::new(alloc, &task.shared.decls)?;
    match templates(alloc, &mut table, task, 0) {
        Ok(first) => {
            write!(out, "{}", first.list.len());
            Ok(())
        }
        Err(error) => Err(told(out, error)),
    }
}

/// Prints the verdict on a proof, which stands before a bar and the text of its task.
pub fn proof_answer(alloc: Global, text: &str, out: &mut Printed) -> Result<(), Refusal> {
    let Some((lines, text)) = text.split_once('|') else {
        return Err(Refusal::Bad);
    };
    match parse_task(alloc, bytes_of(text)?) {
        Ok(task) => put_verdict(alloc, &task, lines, out),
        Err(error) => Err(told(out, error)),
    }
}

// Prints the verdict on lines.
fn put_verdict(alloc: Global, task: &Task, lines: &str, out: &mut Printed) -> Result<(), Refusal>
    requires { HasText (parts_of task.now) }
{
    let bytes = with_line_feeds(alloc, lines)?;
    let checked = check_bytes(alloc, task, &bytes)?;
    write!(out, "{checked:?}");
    Ok(())
}
