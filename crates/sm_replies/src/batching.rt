// What `batch` answers to a list of files.
ghost use Rattle.std.specs.Prelude.{◌≡◌, ◌<◌, ◌≤◌, ◌++◌, ℕ, List, IfErr, IfOk, OnOk, length, map};
ghost use Rattle.std.specs.String.{string_bytes};
ghost use Rattle.sm_answers.specs.Exit.{ExitsWith};
ghost use Rattle.sm_replies.specs.Batch.{Batches, FailsToReadOne};
ghost use Rattle.sm_replies.specs.BatchSteps.{lines_of, AreLinesRead};
ghost use Rattle.sm_replies.specs.HeadlineBatch.{AcceptsSafeRead};
ghost use Rattle.sm_answers.specs.ReadFiles.{GoesOn};
ghost use Rattle.sm_words.specs.Views.{HasWorkers};

use crate::batch_lines::{lines_reply, tell};
use crate::batch_worker::{Checking, replies_to};
use crate::gathering::{Gathered, gather};
use sm_answers::{Exit, Reply, list_in};
use sm_batch::Batch;
use sm_io::Shelf;
use sm_par::Gate;
use sm_words::Effort;
use std::alloc::Global;
use std::thread::Threads;

/// The answer to a list's file: a line for each file that it names. They go in groups of as many as
/// there are workers, 1 to 64, and what was accepted is kept for later groups.
pub fn batch_in<R: Threads + Sync, G: Gate, H: Shelf>(
    rt: &R,
    alloc: Global,
    gate: &G,
    shelf: &mut H,
    list: &str,
    cache: u32,
    effort: Effort,
) -> Result<Reply, Exit>
    requires some { 0 < cache }
    requires most { cache ≤ 1000 }
    requires workers { HasWorkers effort }
    ensures ok { IfOk result (λ r. Batches (H.file shelf.old) list.now effort
        (H.read_faults shelf.old) (H.read_faults shelf.new) r.status r.text.items) }
    ensures exit { IfErr result (ExitsWith (Batches (H.file shelf.old) list.now effort
        (H.read_faults shelf.old) (H.read_faults shelf.new))) }
    ensures read { IfOk result (λ r.
        AcceptsSafeRead list.now (H.given shelf.old) (H.given shelf.new) r.text.items) }
    ensures exit_read { IfErr result (ExitsWith (λ _ text.
        AcceptsSafeRead list.now (H.given shelf.old) (H.given shelf.new) text)) }
    ensures same { (other : List ℕ) → H.file shelf.new other ≡ H.file shelf.old other }
    ensures writes { H.write_faults shelf.new ≡ H.write_faults shelf.old }
{
    let names = list_in(alloc, shelf, list)?;
    let batch = Batch::new(alloc, Checking { effort }, cache)?;
    let lines = all_lines(rt, alloc, gate, shelf, batch, &names, effort)?;
    Ok(lines_reply(alloc, &lines)?)
}

// A line for each file.
fn all_lines<R: Threads + Sync, G: Gate, H: Shelf>(
    rt: &R,
    alloc: Global,
    gate: &G,
    shelf: &mut H,
    batch: Batch<Checking>,
    names: &[String],
    effort: Effort,
) -> Result<Vec<Reply>, Exit>
    requires workers { HasWorkers effort }
    requires worker { batch.worker.effort ≡ effort }
    ensures lines { IfOk result (λ lines. AreLinesRead (H.file shelf.old)
        (H.read_faults shelf.old) (H.given shelf.old) (H.given shelf.new) effort
        (map string_bytes names.now) (lines_of lines.items)) }
    ensures exit { IfErr result (ExitsWith (FailsToReadOne (H.file shelf.old)
        (map string_bytes names.now) (H.read_faults shelf.old) (H.read_faults shelf.new))) }
    ensures quiet { OnOk result (H.read_faults shelf.new ≡ H.read_faults shelf.old) }
    ensures same { (other : List ℕ) → H.file shelf.new other ≡ H.file shelf.old other }
    ensures writes { H.write_faults shelf.new ≡ H.write_faults shelf.old }
{
    let mut batch = batch;
    let mut lines = Vec::new(alloc);
    let mut rest = names;
    'groups: while !rest.is_empty() {
        let (group, others) = first_group(rest, effort.workers);
        let mut more = group_lines(rt, alloc, gate, shelf, &mut batch, group, effort)?;
        lines.append(&mut more)?;
        rest = others;
    }
    Ok(lines)
}

// The first names, as many as there are workers, and those behind them.
fn first_group(names: &[String], workers: u32) -> (&[String], &[String])
    requires some { 0 < workers }
    requires names { 0 < length names.now }
    ensures all { names.now ≡ result.0.now ++ result.1.now }
    ensures fewer { length result.1.now < length names.now }
{
    let count = workers as usize;
    if count < names.len() {
        names.split_at(count)
    } else {
        names.split_at(names.len())
    }
}

// A line for each file of a group.
fn group_lines<R: Threads + Sync, G: Gate, H: Shelf>(
    rt: &R,
    alloc: Global,
    gate: &G,
    shelf: &mut H,
    batch: &mut Batch<Checking>,
    names: &[String],
    effort: Effort,
) -> Result<Vec<Reply>, Exit>
    requires workers { HasWorkers effort }
    requires worker { batch.old.worker.effort ≡ effort }
    ensures lines { IfOk result (λ lines. AreLinesRead (H.file shelf.old)
        (H.read_faults shelf.old) (H.given shelf.old) (H.given shelf.new) effort
        (map string_bytes names.now) (lines_of lines.items)) }
    ensures exit { IfErr result (ExitsWith (FailsToReadOne (H.file shelf.old)
        (map string_bytes names.now) (H.read_faults shelf.old) (H.read_faults shelf.new))) }
    ensures quiet { OnOk result (H.read_faults shelf.new ≡ H.read_faults shelf.old) }
    ensures goes_on { OnOk result (GoesOn (H.given shelf.old) (H.given shelf.new)) }
    ensures kept { OnOk result (batch.new.worker ≡ batch.old.worker) }
    ensures same { (other : List ℕ) → H.file shelf.new other ≡ H.file shelf.old other }
    ensures writes { H.write_faults shelf.new ≡ H.write_faults shelf.old }
{
    let Gathered { tasks, slots } = gather(alloc, shelf, names)?;
    let replies = replies_to(rt, alloc, gate, batch, &tasks, effort)?;
    Ok(tell(alloc, &slots, &replies)?)
}
