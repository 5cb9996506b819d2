// Proof files.
ghost use Rattle.std.specs.Prelude.{◌≡◌, ◌≢◌, ◌+◌, ◌^◌, ◌<◌, ◌≤◌, ◌⊎◌, ℕ, List, [], length, Ok, Err, IfOk, IfErr, IsErrOf};
ghost use Rattle.sm_io.specs.Files.{absent, WhereHeld};
ghost use Rattle.sm_proof.specs.Verdicts.{Subject, Unopened, Pass, Reached, subject_of, verdict};
ghost use Rattle.sm_syntax.specs.claim.ConflictFree.{ConflictFree};
ghost use Rattle.sm_syntax.specs.text.Parts.{task_of};
ghost use Rattle.sm_text.specs.Tasks.{parts_of};
ghost use Rattle.sm_check.specs.Aside.{AreRead, ComesTo, HoldsNone, lines_aside};
ghost use Rattle.sm_check.specs.Checkable.{IsCheckable};
ghost use Rattle.sm_check.specs.Checkers.{IsAt};
ghost use Rattle.sm_check.specs.Errors.{check_error_of};
ghost use Rattle.sm_check.specs.Files.{file_answer, cut_answer, verdict_of, Judged, TellsAnswer};
ghost use Rattle.sm_check.specs.FilesRead.{AnswersRead};
ghost use Rattle.sm_check.specs.Pieces.{AreTaken};
ghost use Rattle.sm_check.specs.ReadFaults.{HasFaultCause};
ghost use Rattle.sm_check.specs.Stops.{stopped_answer};
ghost use Rattle.sm_check.specs.declared.verifying.CheckError.TheVariants.{Memory as no_memory};

use crate::aside::Aside;
use crate::checker::Checker;
use crate::ending::at_end;
use crate::fault::Stopped;
use crate::jobs::Crew;
use crate::pieces::take_piece;
use crate::taken_lines::TakenLines;
use crate::unfinished::Unfinished;
use sm_io::{IoError, Shelf};
use sm_par::Gate;
use sm_proof::{Word, pass_is_free};
use sm_task::{Task, fill_all};
use std::alloc::{AllocError, Global};
use std::thread::Threads;

/// How many bytes a file may have.
const LONGEST: u64 = 268435456;

/// How many bytes a file is asked for at once.
const PIECE: usize = 65536;

/// The verdict on a proof file.
#[derive(Clone, Copy, Debug)]
pub enum Checked {
    Pass,
    /// The first bad line, from 1, and what is wrong with it.
    Rejected { line: u64, word: Word },
}

/// Why there is no verdict.
#[derive(Clone, Copy, Debug)]
pub enum CheckError {
    ReadFault,
    TooLong,
    Memory,
}

impl From<AllocError> for CheckError {
    ghost from_gives = { λ _ e. e ≡ no_memory };

    fn from(_e: AllocError) -> CheckError {
        CheckError::Memory
    }
}

impl From<IoError> for CheckError {
    ghost from_gives = { λ error e. e ≡ check_error_of error };

    fn from(error: IoError) -> CheckError {
        match error {
            IoError::Fault => CheckError::ReadFault,
            IoError::Memory => CheckError::Memory,
        }
    }
}

/// Whether the proof file with a name passes for a task. It is read once, in pieces, and may have
/// 268,435,456 bytes. A bad line that ended goes before a later fault and before too many bytes.
/// With more than one worker, certificates of the goals of one node are set aside, up to 64 of
/// at most 4,096 lines each, and read and run together. So a bad line may be found behind a read
/// that failed. The answer never depends on the workers.
pub fn verify<R: Threads + Sync, G: Gate, H: Shelf>(
    rt: &R,
    alloc: Global,
    gate: &G,
    task: &Task,
    shelf: &mut H,
    name: &str,
    workers: u32,
) -> Result<Checked, CheckError>
    requires checkable { IsCheckable (parts_of task.now) }
    requires some { 0 < workers }
    requires most { workers ≤ 64 }
    ensures answer { WhereHeld (H.file shelf.old name.now) (λ bytes.
        TellsAnswer result (file_answer 268435456 (subject_of (parts_of task.now)) bytes)) }
    // Of a shelf that tells nothing too it is the answer to the bytes that its reads gave.
    ensures read { AnswersRead name.now (H.given shelf.old) (H.given shelf.new) 268435456
        (subject_of (parts_of task.now)) result }

    // Pass tells it of every shelf, whatever that holds.
    ensures sound { result ≡ Ok Checked.Pass → ConflictFree (task_of (parts_of task.now)) }
    ensures absent { H.file shelf.old name.now ≡ absent →
        IsErrOf result CheckError.ReadFault ⊎ IsErrOf result CheckError.Memory }
    ensures same { (other : List ℕ) → H.file shelf.new other ≡ H.file shelf.old other }
    ensures cause { HasFaultCause (H.file shelf.old name.now) (H.read_faults shelf.old)
        (H.read_faults shelf.new) result }
    ensures writes { H.write_faults shelf.new ≡ H.write_faults shelf.old }
{
    pass_is_free();
    let programs = fill_all(alloc, task)?;
    let checker = Checker::new(alloc, task, &programs)?;
    let crew = Crew { rt, gate, workers };
    let file = LimitedFile {
        name,
        limit: LONGEST,
    };
    check_file(&crew, alloc, checker, shelf, &file)
}

// A file by its name, and how many bytes it may have.
#[derive(Clone, Copy)]
struct LimitedFile<'a> {
    name: &'a str,
    limit: u64,
}

// Whether a file passes, by a checker that took no line of it yet.
fn check_file<R: Threads + Sync, G: Gate, H: Shelf>(
    crew: &Crew<'_, R, G>,
    alloc: Global,
    checker: Checker,
    shelf: &mut H,
    file: &LimitedFile<'_>,
) -> Result<Checked, CheckError>
    requires { file.now.limit + 1 < 2 ^ 64 }
    ensures answer { (s : Subject) → IsAt checker.entry s (Ok Unopened) →
        WhereHeld (H.file shelf.old file.now.name.now) (λ bytes.
        TellsAnswer result (file_answer file.now.limit s bytes)) }
    ensures read { (s : Subject) → IsAt checker.entry s (Ok Unopened) →
        AnswersRead file.now.name.now (H.given shelf.old) (H.given shelf.new) file.now.limit s
        result }
    ensures sound { (s : Subject) → IsAt checker.entry s (Ok Unopened) →
        result ≡ Ok Checked.Pass → (bytes : List ℕ) × (verdict s bytes ≡ Pass) }
    ensures absent { H.file shelf.old file.now.name.now ≡ absent →
        IsErrOf result CheckError.ReadFault ⊎ IsErrOf result CheckError.Memory }
    ensures same { (other : List ℕ) → H.file shelf.new other ≡ H.file shelf.old other }
    ensures cause { HasFaultCause (H.file shelf.old file.now.name.now) (H.read_faults shelf.old)
        (H.read_faults shelf.new) result }
    ensures writes { H.write_faults shelf.new ≡ H.write_faults shelf.old }
{
    let mut piece = blank_piece(alloc)?;
    let mut lines = TakenLines::new(checker);
    let mut unfinished = Unfinished::new(alloc);
    check_pieces(
        crew,
        alloc,
        &mut lines,
        &mut unfinished,
        shelf,
        file,
        &mut piece,
    )
}

// A function of its own, so that no proof computes a list of that many zeros.
fn blank_piece(alloc: Global) -> Result<Vec<u8>, AllocError>
    ensures { IfOk result (λ piece. 0 < length piece.items) }
{
    vec![in alloc; 0; PIECE]
}

// Whether a file passes of which nothing is read yet, in pieces as long as the one lent.
fn check_pieces<R: Threads + Sync, G: Gate, H: Shelf>(
    crew: &Crew<'_, R, G>,
    alloc: Global,
    lines: &mut TakenLines,
    unfinished: &mut Unfinished,
    shelf: &mut H,
    file: &LimitedFile<'_>,
    piece: &mut [u8],
) -> Result<Checked, CheckError>
    requires some { 0 < length piece.old }
    requires few { lines.old.number + file.now.limit < 2 ^ 64 }
    ensures answer { (s : Subject) → AreTaken lines.old unfinished.old s [] →
        WhereHeld (H.file shelf.old file.now.name.now) (λ bytes.
        TellsAnswer result (file_answer file.now.limit s bytes)) }
    ensures read { (s : Subject) → AreTaken lines.old unfinished.old s [] →
        AnswersRead file.now.name.now (H.given shelf.old) (H.given shelf.new) file.now.limit s
        result }
    ensures sound { (s : Subject) → AreTaken lines.old unfinished.old s [] →
        result ≡ Ok Checked.Pass → (bytes : List ℕ) × (verdict s bytes ≡ Pass) }
    ensures absent { H.file shelf.old file.now.name.now ≡ absent →
        IsErrOf result CheckError.ReadFault ⊎ IsErrOf result CheckError.Memory }
    ensures same { (other : List ℕ) → H.file shelf.new other ≡ H.file shelf.old other }
    ensures cause { HasFaultCause (H.file shelf.old file.now.name.now) (H.read_faults shelf.old)
        (H.read_faults shelf.new) result }
    ensures writes { H.write_faults shelf.new ≡ H.write_faults shelf.old }
{
    let mut aside = Aside::new(alloc, 0);
    let mut place: u64 = 0;
    loop {
        let count = match shelf.read_at(file.name, place, piece) {
            Ok(count) => count,
            Err(error) => return answer_to_fault(crew, alloc, lines, &mut aside, error),
        };
        if count == 0 {
            return answer_at_end(crew, alloc, lines, &mut aside, unfinished);
        }
        let taken = (count as u64).min(file.limit - place) as usize;
        match take_piece(crew, lines, &mut aside, unfinished, alloc, &piece[..taken]) {
            Ok(()) => place += taken as u64,
            Err(stopped) => return answer_to(stopped),
        }
        if taken < count {
            return answer_past_limit(crew, alloc, lines, &mut aside);
        }
    }
}

// The answer where a read failed. A bad line that is set aside goes before it; where memory is
// wanted to take such lines, the fault stands.
fn answer_to_fault<R: Threads + Sync, G: Gate>(
    crew: &Crew<'_, R, G>,
    alloc: Global,
    lines: &mut TakenLines,
    aside: &mut Aside,
    error: IoError,
) -> Result<Checked, CheckError>
    requires room { lines.old.number + length (lines_aside aside.old) < 2 ^ 64 }
    ensures answer { (s : Subject) (r : Reached) → ComesTo lines.old (lines_aside aside.old) s r →
        TellsAnswer result (cut_answer r) }
    ensures no_pass { result ≢ Ok Checked.Pass }
    ensures err { IfErr result (λ e. e ≡ check_error_of error) }
    ensures none { HoldsNone aside.old → IsErrOf result (check_error_of error) }
{
    if aside.is_empty() {
        return Err(CheckError::from(error));
    }
    match lines.take_aside(crew, alloc, aside) {
        Ok(()) => Err(CheckError::from(error)),
        Err(Stopped::Wrong { line, word }) => Ok(Checked::Rejected { line, word }),
        Err(Stopped::Memory) => Err(CheckError::from(error)),
    }
}

// The answer where a file has too many bytes, unless a line that is set aside is bad.
fn answer_past_limit<R: Threads + Sync, G: Gate>(
    crew: &Crew<'_, R, G>,
    alloc: Global,
    lines: &mut TakenLines,
    aside: &mut Aside,
) -> Result<Checked, CheckError>
    requires room { lines.old.number + length (lines_aside aside.old) < 2 ^ 64 }
    ensures answer { (s : Subject) (r : Reached) → ComesTo lines.old (lines_aside aside.old) s r →
        TellsAnswer result (cut_answer r) }
    ensures no_pass { result ≢ Ok Checked.Pass }
    ensures no_fault { result ≢ Err CheckError.ReadFault }
{
    match lines.take_aside(crew, alloc, aside) {
        Ok(()) => Err(CheckError::TooLong),
        Err(stopped) => answer_to(stopped),
    }
}

// The answer where a file ends.
fn answer_at_end<R: Threads + Sync, G: Gate>(
    crew: &Crew<'_, R, G>,
    alloc: Global,
    lines: &mut TakenLines,
    aside: &mut Aside,
    unfinished: &Unfinished,
) -> Result<Checked, CheckError>
    requires room { lines.old.number + length (lines_aside aside.old) < 2 ^ 64 }
    ensures answer { (s : Subject) (bytes : List ℕ) →
        AreRead lines.old (lines_aside aside.old) unfinished.now s bytes →
        TellsAnswer result (Judged (verdict s bytes)) }
    ensures no_fault { result ≢ Err CheckError.ReadFault }
{
    match lines.take_aside(crew, alloc, aside) {
        Ok(()) => Ok(at_end(lines, unfinished.is_empty())),
        Err(stopped) => answer_to(stopped),
    }
}

// The answer where lines stop.
fn answer_to(stopped: Stopped) -> Result<Checked, CheckError>
    ensures { result ≡ stopped_answer stopped }
{
    match stopped {
        Stopped::Wrong { line, word } => Ok(Checked::Rejected { line, word }),
        Stopped::Memory => Err(CheckError::Memory),
    }
}
