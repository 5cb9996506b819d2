// What `trim` answers to a task's file and a proof's, and what it leaves in another.
ghost use Rattle.std.specs.Prelude.{◌≡◌, ◌≢◌, ◌==◌, ℕ, List, IfOk, IfErr, IfSome, OnErr, count_by};
ghost use Rattle.sm_io.specs.Causes.{HasCause};
ghost use Rattle.sm_io.specs.Reads.{ReadsWhole};
ghost use Rattle.sm_proof.specs.Verdicts.{Passes, subject_of};
ghost use Rattle.sm_prune.specs.UsedLines.{HasNamedLines, HasUsedLines};
ghost use Rattle.sm_syntax.specs.text.Parts.{sort_of};
ghost use Rattle.sm_task.specs.Tasks.{parts_of};
ghost use Rattle.sm_term.specs.Tables.{sorts_in};
ghost use Rattle.sm_write.specs.Versions.{HasVersion};
ghost use Rattle.sm_answers.specs.Exit.{ExitsWith};
ghost use Rattle.sm_check.specs.Checkable.{IsCheckable};
ghost use Rattle.sm_files.specs.ProofFile.{LeavesFront, LeftCut};
ghost use Rattle.sm_files.specs.Trim.{AnswersPassing, AnswersTrim, GivesNoProof, IsProofRead, line_count, trimmed_line, LeavesTrimmed, LeftTrimmed, TellsOfTask, TellsTrimmed, Trims, TrimsByReads};
ghost use Rattle.sm_files.specs.Views.{CountsWrites, EndsWith};

use crate::writing::write_proof;
use itoa::Buffer;
use sm_answers::{Exit, Reply, Status, rejected_line, task_in};
use sm_audit::is_writable;
use sm_cert::CertTree;
use sm_check::{Checked, check_bytes};
use sm_io::{ReadError, Shelf, read_all};
use sm_load::{Loaded, load_bytes};
use sm_task::Task;
use sm_trim::trim_tree;
use sm_used::has_used_lines;
use sm_words::line;
use std::alloc::{AllocError, Global};

/// How many bytes the file of a proof may have that is trimmed.
const TRIM_LIMIT: u64 = 16777216;

/// The answer of `trim` to a task's file and a proof's; the trimmed proof is written to a third.
pub fn trim_in<H: Shelf>(
    alloc: Global,
    shelf: &mut H,
    name: &str,
    proof: &str,
    out: &str,
) -> Result<Reply, Exit>
    requires task { name.now ≢ out.now }
    requires proof { proof.now ≢ out.now }
    ensures ok { IfOk result (λ r. Trims (H.file shelf.old name.now) (H.file shelf.old proof.now)
        (H.read_faults shelf.old) (H.read_faults shelf.new) r.status r.text.items) }
    ensures exit { IfErr result (ExitsWith (Trims (H.file shelf.old name.now)
        (H.file shelf.old proof.now) (H.read_faults shelf.old) (H.read_faults shelf.new))) }
    ensures read { IfOk result (λ r. TrimsByReads name.now proof.now
        (H.given shelf.old) (H.given shelf.new) r.status r.text.items) }
    ensures exit_read { IfErr result (ExitsWith (TrimsByReads name.now proof.now
        (H.given shelf.old) (H.given shelf.new))) }
    ensures left { EndsWith
        (λ status. LeavesTrimmed (H.file shelf.old name.now) status (H.file shelf.old out.now)
        (H.file shelf.new out.now))
        (LeavesFront (H.file shelf.old name.now) (H.file shelf.old out.now)
        (H.file shelf.new out.now)) result }
    ensures others { (other : List ℕ) → other ≢ out.now →
        H.file shelf.new other ≡ H.file shelf.old other }
    ensures writes { CountsWrites (H.write_faults shelf.old) (H.write_faults shelf.new) result }
    ensures tells { IfOk result (λ r. TellsOfTask (H.file shelf.old name.now) r.status r.text.items
        (H.file shelf.old out.now) (H.file shelf.new out.now)) }
    ensures exit_tells { IfErr result (ExitsWith (λ status text. TellsOfTask
        (H.file shelf.old name.now) status text
        (H.file shelf.old out.now) (H.file shelf.new out.now))) }
{
    let task = task_in(alloc, shelf, name)?;
    let bytes = proof_in(alloc, shelf, proof)?;
    Ok(trim_bytes(alloc, shelf, &task, &bytes, out)?)
}

// The bytes of a proof's file.
fn proof_in<H: Shelf>(alloc: Global, shelf: &mut H, name: &str) -> Result<Vec<u8>, Exit>
    ensures ok { IfOk result (λ bytes. IsProofRead (H.file shelf.old name.now)
        (H.read_faults shelf.old) (H.read_faults shelf.new) bytes.items) }
    ensures whole { IfOk result (λ bytes.
        ReadsWhole name.now (H.given shelf.old) (H.given shelf.new) bytes.items) }
    ensures exit { IfErr result (ExitsWith (GivesNoProof (H.file shelf.old name.now)
        (H.read_faults shelf.old) (H.read_faults shelf.new))) }
    ensures same { (other : List ℕ) → H.file shelf.new other ≡ H.file shelf.old other }
    ensures writes { H.write_faults shelf.new ≡ H.write_faults shelf.old }
{
    match read_all(alloc, shelf, name, TRIM_LIMIT) {
        Ok(bytes) => Ok(bytes),
        Err(ReadError::Memory) => Err(Exit::Memory),
        Err(ReadError::TooLong) => Err(Exit::Answer(Reply {
            status: Status::Refused,
            text: line(alloc, "TooLong", &["proof"])?,
        })),
        Err(ReadError::Fault) => Err(Exit::Answer(Reply {
            status: Status::ReadFault,
            text: line(alloc, "ReadFault", &[])?,
        })),
    }
}

// The answer to the bytes of a proof for a task.
fn trim_bytes<H: Shelf>(
    alloc: Global,
    shelf: &mut H,
    task: &Task,
    bytes: &[u8],
    out: &str,
) -> Result<Reply, AllocError>
    requires { IsCheckable (parts_of task.now) }
    ensures answers { IfOk result (λ r.
        AnswersTrim (parts_of task.now) bytes.now r.status r.text.items) }
    ensures left { IfOk result (λ r. LeftTrimmed (parts_of task.now) r.status
        (H.file shelf.old out.now) (H.file shelf.new out.now)) }
    ensures tells { IfOk result (λ r. r.status ≡ Status.Accepted →
        TellsTrimmed (parts_of task.now) r.text.items
        (H.file shelf.old out.now) (H.file shelf.new out.now)) }
    ensures front { OnErr result (LeftCut (parts_of task.now)
        (H.file shelf.old out.now) (H.file shelf.new out.now)) }
    ensures others { (other : List ℕ) → other ≢ out.now →
        H.file shelf.new other ≡ H.file shelf.old other }
    ensures writes { IfOk result (λ r. HasCause (H.write_faults shelf.old)
        (H.write_faults shelf.new) (r.status ≡ Status.WriteFault)) }
    ensures quiet { OnErr result (H.write_faults shelf.new ≡ H.write_faults shelf.old) }
    ensures reads { H.read_faults shelf.new ≡ H.read_faults shelf.old }
    ensures keeps { H.given shelf.new ≡ H.given shelf.old }
{
    match check_bytes(alloc, task, bytes)? {
        Checked::Rejected { line: number, word } => Ok(Reply {
            status: Status::Refused,
            text: rejected_line(alloc, number, word)?,
        }),
        Checked::Pass => put_lean(alloc, shelf, task, bytes, out),
    }
}

// The answer to the bytes of a proof that passes.
fn put_lean<H: Shelf>(
    alloc: Global,
    shelf: &mut H,
    task: &Task,
    bytes: &[u8],
    out: &str,
) -> Result<Reply, AllocError>
    requires { IsCheckable (parts_of task.now) }
    ensures answers { IfOk result (λ r.
        AnswersPassing (parts_of task.now) bytes.now r.status r.text.items) }
    ensures left { IfOk result (λ r. LeftTrimmed (parts_of task.now) r.status
        (H.file shelf.old out.now) (H.file shelf.new out.now)) }
    ensures tells { IfOk result (λ r. r.status ≡ Status.Accepted →
        TellsTrimmed (parts_of task.now) r.text.items
        (H.file shelf.old out.now) (H.file shelf.new out.now)) }
    ensures front { OnErr result (LeftCut (parts_of task.now)
        (H.file shelf.old out.now) (H.file shelf.new out.now)) }
    ensures others { (other : List ℕ) → other ≢ out.now →
        H.file shelf.new other ≡ H.file shelf.old other }
    ensures writes { IfOk result (λ r. HasCause (H.write_faults shelf.old)
        (H.write_faults shelf.new) (r.status ≡ Status.WriteFault)) }
    ensures quiet { OnErr result (H.write_faults shelf.new ≡ H.write_faults shelf.old) }
    ensures reads { H.read_faults shelf.new ≡ H.read_faults shelf.old }
    ensures keeps { H.given shelf.new ≡ H.given shelf.old }
{
    match lean_proof(alloc, task, bytes)? {
        Some(lean) => {
            let reply = Reply {
                status: Status::Accepted,
                text: trimmed_line(alloc, bytes, &lean)?,
            };
            write_proof(alloc, shelf, reply, out, &lean)
        }
        None => Ok(Reply {
            status: Status::Unknown,
            text: line(alloc, "Unknown", &["Untrimmed"])?,
        }),
    }
}

// The line on a proof that was trimmed.
fn trimmed_line(alloc: Global, before: &[u8], after: &[u8]) -> Result<Vec<u8>, AllocError>
    ensures { IfOk result (λ text.
        text.items ≡ trimmed_line (line_count before.now) (line_count after.now)) }
{
    let mut first = Buffer::new();
    let mut second = Buffer::new();
    let before = first.format(line_count(before));
    let after = second.format(line_count(after));
    line(alloc, "Trimmed", &[before, after])
}

// How many ended lines bytes have.
fn line_count(bytes: &[u8]) -> u64
    ensures { result ≡ line_count bytes.now }
{
    feeds(bytes) as u64
}

// How many line feeds bytes have.
fn feeds(bytes: &[u8]) -> usize
    ensures { result ≡ count_by (λ b. b == 10) bytes.now }
{
    bytes.iter().filter(|b| **b == b'\n').count()
}

// The certificates without lines that nobody uses.
fn trimmed_trees(
    alloc: Global,
    trees: &[CertTree],
    starts: &[u64],
) -> Result<Vec<CertTree>, AllocError> {
    let mut trimmed = Vec::with_capacity(alloc, trees.len())?;
    for n in 0..trees.len() {
        let start = match starts.get(n) {
            Some(start) => *start,
            None => 0,
        };
        trimmed.push(trim_tree(alloc, &trees[n], start)?)?;
    }
    Ok(trimmed)
}

// The text of a proof that was loaded, with other certificates, where they can be written.
fn written(
    alloc: Global,
    task: &Task,
    loaded: &mut Loaded,
    trees: &[CertTree],
) -> Result<Option<Vec<u8>>, AllocError>
    requires task { IsCheckable (parts_of task.now) }
    requires declared { sorts_in loaded.old.table ≡ sort_of (parts_of task.now).declared }
    ensures passes { IfOk result (λ o. IfSome o (λ text. Passes (parts_of task.now) text.items)) }
    ensures version { IfOk result (λ o.
        IfSome o (λ text. HasVersion (parts_of task.now) text.items)) }
    ensures named { IfOk result (λ o. IfSome o (λ text. HasNamedLines text.items)) }
{
    let table = &mut loaded.table;
    if !is_writable(alloc, table, task, &loaded.plan, trees)? {
        return Ok(None);
    }
    Ok(Some(sm_write::write_proof(alloc, table, task, &loaded.plan, trees)?))
}

// The text of a proof that was loaded, with trimmed certificates.
fn lean_text(alloc: Global, task: &Task, loaded: Loaded) -> Result<Option<Vec<u8>>, AllocError>
    requires task { IsCheckable (parts_of task.now) }
    requires declared { sorts_in loaded.table ≡ sort_of (parts_of task.now).declared }
    ensures passes { IfOk result (λ o. IfSome o (λ text. Passes (parts_of task.now) text.items)) }
    ensures version { IfOk result (λ o.
        IfSome o (λ text. HasVersion (parts_of task.now) text.items)) }
    ensures named { IfOk result (λ o. IfSome o (λ text. HasNamedLines text.items)) }
{
    let list = trimmed_trees(alloc, &loaded.trees, &loaded.starts)?;
    let mut loaded = loaded;
    written(alloc, task, &mut loaded, &list)
}

// A text, where each of its lines is used.
fn if_used(alloc: Global, task: &Task, text: Vec<u8>) -> Result<Option<Vec<u8>>, AllocError>
    requires task { IsCheckable (parts_of task.now) }
    requires named { HasNamedLines text.items }
    ensures text { IfOk result (λ o. IfSome o (λ used. used ≡ text)) }
    ensures used { IfOk result (λ o. IfSome o (λ used.
        HasUsedLines (subject_of (parts_of task.now)) used.items)) }
{
    if has_used_lines(alloc, task, &text)? {
        Ok(Some(text))
    } else {
        Ok(None)
    }
}

// The proof without lines that nobody uses, of the bytes of one that passes for the task. It is none
// only where what they say can't be written again, or a line of what is written isn't used.
fn lean_proof(alloc: Global, task: &Task, bytes: &[u8]) -> Result<Option<Vec<u8>>, AllocError>
    requires { IsCheckable (parts_of task.now) }
    ensures passes { IfOk result (λ o. IfSome o (λ text. Passes (parts_of task.now) text.items)) }
    ensures version { IfOk result (λ o.
        IfSome o (λ text. HasVersion (parts_of task.now) text.items)) }
    ensures used { IfOk result (λ o. IfSome o (λ text.
        HasUsedLines (subject_of (parts_of task.now)) text.items)) }
{
    let loaded = match load_bytes(alloc, task, bytes)? {
        Some(loaded) => loaded,
        None => return Ok(None),
    };
    match lean_text(alloc, task, loaded)? {
        Some(text) => if_used(alloc, task, text),
        None => Ok(None),
    }
}
