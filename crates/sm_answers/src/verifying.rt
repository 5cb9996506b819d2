// What `verify` answers to a task's file and a proof's.
ghost use Rattle.std.specs.Prelude.{◌≡◌, ◌≢◌, ◌<◌, ◌≤◌, ℕ, List, Err, IfOk, IfErr};
ghost use Rattle.sm_check.specs.Checkable.{IsCheckable};
ghost use Rattle.sm_task.specs.Tasks.{parts_of};
ghost use Rattle.sm_answers.specs.Exit.{ExitsWith};
ghost use Rattle.sm_answers.specs.Readings.{PassesRead, VerifiesRead};
ghost use Rattle.sm_answers.specs.Verify.{Verifies, rejected_line, AnswersProof};
ghost use Rattle.sm_answers.specs.Views.{SaysChecked};

use crate::exit::Exit;
use crate::file::task_in;
use crate::status::{Reply, Status};
use itoa::Buffer;
use sm_check::{CheckError, Checked, verify};
use sm_io::Shelf;
use sm_par::Gate;
use sm_proof::Word;
use sm_task::Task;
use sm_words::line;
use std::alloc::{AllocError, Global};
use std::thread::Threads;

/// The answer of `verify` to a task's file and a proof's, with 1 to 64 workers.
pub fn verify_in<R: Threads + Sync, G: Gate, H: Shelf>(
    rt: &R,
    alloc: Global,
    gate: &G,
    shelf: &mut H,
    name: &str,
    proof: &str,
    workers: u32,
) -> Result<Reply, Exit>
    requires { (0 < workers) × (workers ≤ 64) }
    ensures ok { IfOk result (λ r. Verifies (H.file shelf.old name.now) (H.file shelf.old proof.now)
        (H.read_faults shelf.old) (H.read_faults shelf.new) r.status r.text.items) }
    ensures exit { IfErr result (ExitsWith (Verifies (H.file shelf.old name.now)
        (H.file shelf.old proof.now) (H.read_faults shelf.old) (H.read_faults shelf.new))) }
    ensures read { IfOk result (λ r. VerifiesRead name.now proof.now
        (H.given shelf.old) (H.given shelf.new) r.status r.text.items) }
    ensures exit_read { IfErr result (ExitsWith (VerifiesRead name.now proof.now
        (H.given shelf.old) (H.given shelf.new))) }
    ensures same { (other : List ℕ) → H.file shelf.new other ≡ H.file shelf.old other }
    ensures writes { H.write_faults shelf.new ≡ H.write_faults shelf.old }
{
    let task = task_in(alloc, shelf, name)?;
    verify_task(rt, alloc, gate, shelf, &task, proof, workers)
}

// The answer of `verify` to a task and a proof's file.
fn verify_task<R: Threads + Sync, G: Gate, H: Shelf>(
    rt: &R,
    alloc: Global,
    gate: &G,
    shelf: &mut H,
    task: &Task,
    proof: &str,
    workers: u32,
) -> Result<Reply, Exit>
    requires checkable { IsCheckable (parts_of task.now) }
    requires some { 0 < workers }
    requires most { workers ≤ 64 }
    ensures ok { IfOk result (λ r. AnswersProof (parts_of task.now) (H.file shelf.old proof.now)
        (H.read_faults shelf.old) (H.read_faults shelf.new) r.status r.text.items) }
    ensures exit { IfErr result (ExitsWith (AnswersProof (parts_of task.now)
        (H.file shelf.old proof.now) (H.read_faults shelf.old) (H.read_faults shelf.new))) }
    ensures read { IfOk result (λ r. PassesRead (parts_of task.now) proof.now
        (H.given shelf.old) (H.given shelf.new) r.status r.text.items) }
    ensures exit_read { IfErr result (ExitsWith (PassesRead (parts_of task.now) proof.now
        (H.given shelf.old) (H.given shelf.new))) }
    ensures same { (other : List ℕ) → H.file shelf.new other ≡ H.file shelf.old other }
    ensures writes { H.write_faults shelf.new ≡ H.write_faults shelf.old }
{
    let checked = verify(rt, alloc, gate, task, shelf, proof, workers);
    if let Err(CheckError::Memory) = checked {
        return Err(Exit::Memory);
    }
    Ok(proof_reply(alloc, checked)?)
}

// The answer to a proof's file, by what the checker says of it.
fn proof_reply(alloc: Global, checked: Result<Checked, CheckError>) -> Result<Reply, AllocError>
    requires { checked ≢ Err CheckError.Memory }
    ensures { IfOk result (λ r. SaysChecked checked r.status r.text.items) }
{
    match checked {
        Ok(Checked::Pass) => Ok(Reply {
            status: Status::Accepted,
            text: line(alloc, "Accepted", &[])?,
        }),
        Ok(Checked::Rejected { line: number, word }) => Ok(Reply {
            status: Status::Refused,
            text: rejected_line(alloc, number, word)?,
        }),
        Err(CheckError::TooLong) => Ok(Reply {
            status: Status::Refused,
            text: line(alloc, "TooLong", &["proof"])?,
        }),
        Err(CheckError::ReadFault) => Ok(Reply {
            status: Status::ReadFault,
            text: line(alloc, "ReadFault", &[])?,
        }),
        Err(CheckError::Memory) => unreachable!(),
    }
}

/// The line on a bad line of a proof.
pub fn rejected_line(alloc: Global, number: u64, word: Word) -> Result<Vec<u8>, AllocError>
    ensures { IfOk result (λ text. text.items ≡ rejected_line number word) }
{
    let mut buffer = Buffer::new();
    line(alloc, "Rejected", &[buffer.format(number), word.text()])
}
