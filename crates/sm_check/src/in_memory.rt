// Proof files that lie in memory.
ghost use Rattle.std.specs.Prelude.{◌≡◌, [], Decides, Ok, IfOk};
ghost use Rattle.sm_proof.specs.Verdicts.{Subject, Unopened, lines_in, subject_of, verdict};
ghost use Rattle.sm_syntax.specs.claim.ConflictFree.{ConflictFree};
ghost use Rattle.sm_syntax.specs.text.Parts.{task_of};
ghost use Rattle.sm_text.specs.Tasks.{parts_of};
ghost use Rattle.sm_check.specs.Checkable.{IsCheckable};
ghost use Rattle.sm_check.specs.Checkers.{IsAt};
ghost use Rattle.sm_check.specs.Files.{verdict_of};
ghost use Rattle.sm_check.specs.Pieces.{StandsAt};

use crate::checker::Checker;
use crate::ending::at_end;
use crate::fault::Stopped;
use crate::taken_lines::TakenLines;
use crate::verifying::Checked;
use sm_proof::pass_is_free;
use sm_task::{Task, fill_all};
use std::alloc::{AllocError, Global};

/// Whether bytes pass as a proof file for a task, however many they are. Their lines are taken one
/// after another, and no thread is made.
pub fn check_bytes(alloc: Global, task: &Task, bytes: &[u8]) -> Result<Checked, AllocError>
    requires { IsCheckable (parts_of task.now) }
    ensures answer { let s = subject_of (parts_of task.now) in
        IfOk result (λ c. verdict_of c ≡ verdict s bytes.now) }
    ensures sound { result ≡ Ok Checked.Pass → ConflictFree (task_of (parts_of task.now)) }
{
    pass_is_free();
    let programs = fill_all(alloc, task)?;
    let checker = Checker::new(alloc, task, &programs)?;
    check_whole(alloc, checker, bytes)
}

// Whether bytes pass, by a checker that took no line of them yet.
fn check_whole(alloc: Global, checker: Checker, bytes: &[u8]) -> Result<Checked, AllocError>
    ensures { (s : Subject) → IsAt checker.entry s (Ok Unopened) →
        IfOk result (λ c. verdict_of c ≡ verdict s bytes.now) }
{
    let mut lines = TakenLines::new(checker);
    check_lines(alloc, &mut lines, bytes)
}

// Whether bytes pass before which no line was taken.
fn check_lines(alloc: Global, lines: &mut TakenLines, bytes: &[u8]) -> Result<Checked, AllocError>
    requires { lines.old.number ≡ 1 }
    ensures { (s : Subject) → StandsAt lines.old s Unopened →
        IfOk result (λ c. verdict_of c ≡ verdict s bytes.now) }
{
    match lines.check_all(alloc, bytes) {
        Ok(()) => Ok(at_end(lines, ends_whole(bytes))),
        Err(Stopped::Wrong { line, word }) => Ok(Checked::Rejected { line, word }),
        Err(Stopped::Memory) => Err(AllocError),
    }
}

// Whether no byte stands behind the last line end.
fn ends_whole(bytes: &[u8]) -> bool
    ensures { Decides result ((lines_in bytes.now).rest ≡ []) }
{
    match bytes.last() {
        Some(last) => *last == b'\n',
        None => true,
    }
}
