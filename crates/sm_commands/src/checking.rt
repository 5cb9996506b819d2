// What `check` answers to a task's file, and what it leaves in the proof's.
ghost use Rattle.std.specs.Prelude.{◌≡◌, ◌≢◌, ◌^◌, ◌<◌, ℕ, List, length, IfOk, IfErr, OnErr, option_map};
ghost use Rattle.sm_io.specs.Causes.{HasCause};
ghost use Rattle.sm_syntax.specs.text.Spells.{Spells};
ghost use Rattle.sm_task.specs.Tasks.{parts_of};
ghost use Rattle.sm_text.specs.printing.Named.{HasText};
ghost use Rattle.sm_answers.specs.Exit.{ExitsWith};
ghost use Rattle.sm_commands.specs.Why.{AnswersInTime, AnswersTask};
ghost use Rattle.sm_files.specs.ProofFile.{LeavesFront, LeavesProof, LeftBy, LeftCut};
ghost use Rattle.sm_commands.specs.Readings.{ChecksRead};
ghost use Rattle.sm_commands.specs.Top.{Checks};
ghost use Rattle.sm_replies.specs.Views.{ComesWith};
ghost use Rattle.sm_files.specs.Views.{CountsWrites, EndsWith};
ghost use Rattle.sm_words.specs.Views.{HasWorkers};

use crate::why::check_why;
use sm_answers::{Exit, Reply, Spelled, Status, spelled_in};
use sm_files::write_proof;
use sm_io::Shelf;
use sm_par::Gate;
use sm_replies::{Decided, Limited, time_over};
use sm_words::Effort;
use std::alloc::{AllocError, Global};
use std::thread::Threads;

// The answer to a task, or that the time for it is over; with the proof where it is accepted.
#[derive(Drop)]
struct InTime {
    reply: Reply,
    proof: Option<Vec<u8>>,
}

/// The answer of `check` to a task's file and a proof's, which is written where the task is accepted.
pub fn check_in<R: Threads + Sync, G: Gate, H: Shelf>(
    rt: &R,
    alloc: Global,
    gate: &G,
    shelf: &mut H,
    name: &str,
    proof: &str,
    effort: Effort,
) -> Result<Reply, Exit>
    requires workers { HasWorkers effort }
    requires other { name.now ≢ proof.now }
    ensures ok { IfOk result (λ r. Checks (H.file shelf.old name.now) effort
        (H.read_faults shelf.old) (H.read_faults shelf.new) r.status r.text.items) }
    ensures exit { IfErr result (ExitsWith (Checks (H.file shelf.old name.now) effort
        (H.read_faults shelf.old) (H.read_faults shelf.new))) }
    ensures read { IfOk result (λ r. ChecksRead name.now effort
        (H.given shelf.old) (H.given shelf.new) r.status r.text.items) }
    ensures exit_read { IfErr result (ExitsWith (ChecksRead name.now effort
        (H.given shelf.old) (H.given shelf.new))) }
    ensures left { EndsWith
        (λ status. LeavesProof (H.file shelf.old name.now) status (H.file shelf.old proof.now)
        (H.file shelf.new proof.now))
        (LeavesFront (H.file shelf.old name.now) (H.file shelf.old proof.now)
        (H.file shelf.new proof.now)) result }
    ensures others { (other : List ℕ) → other ≢ proof.now →
        H.file shelf.new other ≡ H.file shelf.old other }
    ensures writes { CountsWrites (H.write_faults shelf.old) (H.write_faults shelf.new) result }
{
    let read = spelled_in(alloc, shelf, name)?;
    Ok(check_task(rt, alloc, gate, shelf, &read, proof, effort)?)
}

// The answer of `check` to a task, and its proof in a file where it is accepted.
fn check_task<R: Threads + Sync, G: Gate, H: Shelf>(
    rt: &R,
    alloc: Global,
    gate: &G,
    shelf: &mut H,
    read: &Spelled,
    proof: &str,
    effort: Effort,
) -> Result<Reply, AllocError>
    requires spelled { HasText (parts_of read.now.task) }
    requires spells { Spells read.now.text.items (parts_of read.now.task) }
    requires short { length read.now.text.items < 2 ^ 32 }
    requires workers { HasWorkers effort }
    ensures answers { IfOk result (λ r.
        AnswersTask (parts_of read.now.task) effort r.status r.text.items) }
    ensures left { IfOk result (λ r. LeftBy (parts_of read.now.task) r.status
        (H.file shelf.old proof.now) (H.file shelf.new proof.now)) }
    ensures front { OnErr result (LeftCut (parts_of read.now.task)
        (H.file shelf.old proof.now) (H.file shelf.new proof.now)) }
    ensures others { (other : List ℕ) → other ≢ proof.now →
        H.file shelf.new other ≡ H.file shelf.old other }
    ensures writes { IfOk result (λ r. HasCause (H.write_faults shelf.old)
        (H.write_faults shelf.new) (r.status ≡ Status.WriteFault)) }
    ensures quiet { OnErr result (H.write_faults shelf.new ≡ H.write_faults shelf.old) }
    ensures reads { H.read_faults shelf.new ≡ H.read_faults shelf.old }
    ensures keeps { H.given shelf.new ≡ H.given shelf.old }
{
    let decided = check_in_time(rt, alloc, gate, read, effort)?;
    let InTime { reply, proof: text } = decided;
    match text {
        Some(text) => write_proof(alloc, shelf, reply, proof, &text),
        None => Ok(reply),
    }
}

// The answer to a task, with the proof where it is accepted; or that the time for it is over.
fn check_in_time<R: Threads + Sync, G: Gate>(
    rt: &R,
    alloc: Global,
    gate: &G,
    read: &Spelled,
    effort: Effort,
) -> Result<InTime, AllocError>
    requires spelled { HasText (parts_of read.now.task) }
    requires spells { Spells read.now.text.items (parts_of read.now.task) }
    requires short { length read.now.text.items < 2 ^ 32 }
    requires workers { HasWorkers effort }
    ensures answers { IfOk result (λ d.
        AnswersInTime (parts_of read.now.task) effort d.reply.status d.reply.text.items) }
    ensures proof { IfOk result (λ d. ComesWith (parts_of read.now.task) d.reply.status
        (option_map (λ v. v.items) d.proof)) }
{
    let limited = Limited {
        gate,
        seconds: effort.seconds,
    };
    match check_why(rt, alloc, &limited, read, effort) {
        Ok(Decided { reply, proof, .. }) => Ok(InTime { reply, proof }),
        Err(_) => {
            let reply = time_over(alloc, gate, effort)?;
            Ok(InTime { reply, proof: None })
        }
    }
}
