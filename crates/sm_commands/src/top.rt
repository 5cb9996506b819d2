// The top call: words, files and standard output.
ghost use Rattle.std.specs.Prelude.{◌≡◌, ◌≢◌, ◌⊎◌, ◌↔◌, ◌≤◌, ℕ, List, Some, None, length, map};
ghost use Rattle.std.specs.String.{string_bytes};
ghost use Rattle.sm_houdini.specs.Outcomes as outcome;
ghost use Rattle.sm_houdini.specs.Outcomes.{IsOutcome};
ghost use Rattle.sm_io.specs.Causes.{HasCause, Rose};
ghost use Rattle.sm_io.specs.Files.{WhereHeld, holds};
ghost use Rattle.sm_io.specs.Sinks.{Adds};
ghost use Rattle.sm_syntax.specs.text.Parts.{Parts};
ghost use Rattle.sm_syntax.specs.text.Spells.{Spells};
ghost use Rattle.sm_answers.specs.File.{file_limit};
ghost use Rattle.sm_words.specs.Words.{Asked, asked, check, verify, replay, suggest, explain, batch, task_file, trim, IsUsage};
ghost use Rattle.sm_words.specs.declared.effort.Effort.{Effort};
ghost use Rattle.sm_replies.specs.Check.{reach_of};
ghost use Rattle.sm_commands.specs.Headline.{merge_file, IsShownByInput, ShowsInput};
ghost use Rattle.sm_answers.specs.Merges.{IsProved, IsSafeMerge, IsUnsafeMerge};
ghost use Rattle.sm_replies.specs.HeadlineBatch.{AcceptsSafe, AcceptsSafeRead};
ghost use Rattle.sm_commands.specs.HeadlineRead.{AcceptsRead, ConflictsRead, ReadsProved, ShowsReadInput, SuggestsRead};
ghost use Rattle.sm_files.specs.ProofFile.{HoldsProof, IsTaskIn, LeavesCut, LeavesFront};
ghost use Rattle.sm_replies.specs.Suggest.{IsSafeSuggestion};
ghost use Rattle.sm_files.specs.Trim.{HoldsTrimmed, TellsTrimmed};
ghost use Rattle.sm_commands.specs.Top.{IsAnswerTo, IsPrinted, PutsPart, RejectsProof};

use crate::replying::reply_to;
use sm_answers::Status;
use sm_io::{IoError, Shelf, Sink, put_all};
use sm_par::Gate;
use std::alloc::Global;
use std::thread::Threads;

/// What the program does with its words, which come without its name. It reads from `shelf` and
/// writes to it alone, and prints to `out` alone. Jobs run in threads of `rt`, and enter `gate`
/// before they run.
pub fn safemerge<R: Threads + Sync, G: Gate, H: Shelf, K: Sink>(
    rt: &R,
    alloc: Global,
    gate: &G,
    words: &[String],
    shelf: &mut H,
    out: &mut K,
) -> Status
    // Where `check`, `verify` or `trim` accepts, the file's bytes spell a task that is free of conflicts.
    ensures accepted { result ≡ Status.Accepted → (ask : Asked) (task : List ℕ) →
        asked (map string_bytes words.now) ≡ Some ask → merge_file ask ≡ Some task →
        WhereHeld (H.file shelf.old task) IsSafeMerge }
    // `verify` accepts exactly the proofs that pass, whoever wrote them.
    ensures verified { IsPrinted result → result ≢ Status.ReadFault →
        (task proof : List ℕ) (workers : ℕ) →
        asked (map string_bytes words.now) ≡ Some (verify task proof workers) →
        WhereHeld (H.file shelf.old task) (λ bytes. WhereHeld (H.file shelf.old proof) (λ lines.
        (result ≡ Status.Accepted) ↔ IsProved bytes lines)) }
    // Where `check`, `replay` or `explain` answers Conflict, they spell a task that isn't.
    ensures conflict { result ≡ Status.Conflict → (ask : Asked) (task : List ℕ) →
        asked (map string_bytes words.now) ≡ Some ask → task_file ask ≡ Some task →
        WhereHeld (H.file shelf.old task) IsUnsafeMerge }
    // That of `check` prints an input that shows it.
    ensures shown { result ≡ Status.Conflict → (task proof : List ℕ) (effort : Effort) →
        asked (map string_bytes words.now) ≡ Some (check task proof effort) →
        (text : List ℕ) × ShowsInput (H.file shelf.old task) effort text
        × Adds (K.taken out.old) (K.taken out.new) text }
    // That of `replay` is shown by its input.
    ensures replayed { result ≡ Status.Conflict → (task input : List ℕ) (turns : ℕ) →
        asked (map string_bytes words.now) ≡ Some (replay task input turns) →
        IsShownByInput (H.file shelf.old task) (H.file shelf.old input) turns }
    // A Conflict of `explain` with an input is shown by that input.
    ensures explained { result ≡ Status.Conflict → (task input : List ℕ) (turns : ℕ) →
        asked (map string_bytes words.now) ≡ Some (explain task (Some input) turns) →
        IsShownByInput (H.file shelf.old task) (H.file shelf.old input) turns }
    // What `suggest` prints with Accepted is a combination of the fillings with which the task is
    // free of conflicts.
    ensures suggested { result ≡ Status.Accepted → (task : List ℕ) (effort : Effort) →
        asked (map string_bytes words.now) ≡ Some (suggest task effort) → (text : List ℕ)
        × WhereHeld (H.file shelf.old task) (IsSafeSuggestion text)
        × Adds (K.taken out.old) (K.taken out.new) text }
    // Where `batch` prints `I Accepted`, the file with the I-th name of its list spells a task that is
    // free of conflicts.
    ensures batched { IsPrinted result → (list : List ℕ) (cache : ℕ) (effort : Effort) →
        asked (map string_bytes words.now) ≡ Some (batch list cache effort) → (text : List ℕ)
        × AcceptsSafe (H.file shelf.old) list text × Adds (K.taken out.old) (K.taken out.new) text }

    // All this stands of the bytes that were read as well, on every shelf: each file was read once,
    // in one pass to its end, and nothing else was read.
    ensures accepted_read { result ≡ Status.Accepted → (ask : Asked) →
        asked (map string_bytes words.now) ≡ Some ask →
        AcceptsRead ask (H.given shelf.old) (H.given shelf.new) }
    ensures verified_read { IsPrinted result → (task proof : List ℕ) (workers : ℕ) →
        asked (map string_bytes words.now) ≡ Some (verify task proof workers) →
        (result ≡ Status.Accepted)
        ↔ ReadsProved task proof (H.given shelf.old) (H.given shelf.new) }
    ensures conflict_read { result ≡ Status.Conflict → (ask : Asked) →
        asked (map string_bytes words.now) ≡ Some ask →
        ConflictsRead ask (H.given shelf.old) (H.given shelf.new) }
    ensures shown_read { result ≡ Status.Conflict → (task proof : List ℕ) (effort : Effort) →
        asked (map string_bytes words.now) ≡ Some (check task proof effort) → (text : List ℕ)
        × ShowsReadInput task (H.given shelf.old) (H.given shelf.new) effort text
        × Adds (K.taken out.old) (K.taken out.new) text }
    ensures suggested_read { result ≡ Status.Accepted → (task : List ℕ) (effort : Effort) →
        asked (map string_bytes words.now) ≡ Some (suggest task effort) → (text : List ℕ)
        × SuggestsRead task (H.given shelf.old) (H.given shelf.new) text
        × Adds (K.taken out.old) (K.taken out.new) text }
    // Of `batch`: the list was read so first, and the file with its I-th name later.
    ensures batched_read { IsPrinted result → (list : List ℕ) (cache : ℕ) (effort : Effort) →
        asked (map string_bytes words.now) ≡ Some (batch list cache effort) → (text : List ℕ)
        × AcceptsSafeRead list (H.given shelf.old) (H.given shelf.new) text
        × Adds (K.taken out.old) (K.taken out.new) text }

    // What is printed is the answer, whole.
    ensures answers { IsPrinted result → (text : List ℕ)
        × IsAnswerTo (map string_bytes words.now) (H.file shelf.old)
        (H.read_faults shelf.old) (H.read_faults shelf.new) result text
        × Adds (K.taken out.old) (K.taken out.new) text }
    ensures usage { IsPrinted result →
        (result ≡ Status.Usage) ↔ IsUsage (map string_bytes words.now) }
    // Only a bad line of a proof may be found behind a read that failed.
    ensures read_quiet { IsPrinted result → result ≢ Status.ReadFault →
        (RejectsProof (map string_bytes words.now) result (K.taken out.old) (K.taken out.new) → ⊥)
        → H.read_faults shelf.new ≡ H.read_faults shelf.old }

    // A fault of the output has its cause, and what was put before it is from the answer's front.
    ensures sink { HasCause (K.faults out.old) (K.faults out.new) (result ≡ Status.SinkFault) }
    ensures cut { result ≡ Status.SinkFault →
        PutsPart (IsAnswerTo (map string_bytes words.now) (H.file shelf.old)
        (H.read_faults shelf.old) (H.read_faults shelf.new))
        (K.taken out.old) (K.taken out.new) }
    ensures memory { result ≡ Status.Memory → (K.taken out.new ≡ K.taken out.old)
        ⊎ PutsPart (IsAnswerTo (map string_bytes words.now) (H.file shelf.old)
        (H.read_faults shelf.old) (H.read_faults shelf.new))
        (K.taken out.old) (K.taken out.new) }

    // No file changes, but that of the proof that `check` or `trim` makes, where it accepts or can't
    // write it whole.
    ensures same { (name : List ℕ) →
        ((task : List ℕ) (effort : Effort) →
        asked (map string_bytes words.now) ≢ Some (check task name effort)) →
        ((task proof : List ℕ) →
        asked (map string_bytes words.now) ≢ Some (trim task proof name)) →
        H.file shelf.new name ≡ H.file shelf.old name }
    ensures untouched { IsPrinted result → result ≢ Status.Accepted → result ≢ Status.WriteFault →
        (task proof : List ℕ) (effort : Effort) →
        asked (map string_bytes words.now) ≡ Some (check task proof effort) →
        H.file shelf.new proof ≡ H.file shelf.old proof }
    // Where `check` accepts, the proof's file has a proof that passes for the task: of version 3
    // exactly where it has a line `exact`, else of version 2 exactly where the task assumes
    // something.
    ensures proved { result ≡ Status.Accepted → (task proof : List ℕ) (effort : Effort) →
        asked (map string_bytes words.now) ≡ Some (check task proof effort) →
        (t : Parts) × IsTaskIn (H.file shelf.old task) t
        × HoldsProof t (H.file shelf.old proof) (H.file shelf.new proof) }
    // Whatever it answers, the file has what it had, or nothing, or such a proof, or a front of one.
    ensures front { (task proof : List ℕ) (effort : Effort) →
        asked (map string_bytes words.now) ≡ Some (check task proof effort) →
        LeavesFront (H.file shelf.old task) (H.file shelf.old proof) (H.file shelf.new proof) }
    // Where it couldn't be written, a proper front at most.
    ensures unfinished { result ≡ Status.WriteFault → (task proof : List ℕ) (effort : Effort) →
        asked (map string_bytes words.now) ≡ Some (check task proof effort) →
        LeavesCut (H.file shelf.old task) (H.file shelf.old proof) (H.file shelf.new proof) }
    // Where the output fails and no count of the shelf rose, the proof of an accepted task is there, if
    // the search has no limit of time.
    ensures kept { result ≡ Status.SinkFault →
        (¬ Rose (H.write_faults shelf.old) (H.write_faults shelf.new)) →
        (¬ Rose (H.read_faults shelf.old) (H.read_faults shelf.new)) →
        (task proof bytes : List ℕ) (effort : Effort) (t : Parts) →
        asked (map string_bytes words.now) ≡ Some (check task proof effort) →
        effort.seconds ≡ None → H.file shelf.old task ≡ holds bytes → length bytes ≤ file_limit → Spells bytes t →
        IsOutcome t (reach_of effort) effort.turns outcome.Accepted →
        HoldsProof t (H.file shelf.old proof) (H.file shelf.new proof) }

    // All that is said of the file of the proof of `check` stands of that which `trim` makes.
    ensures untrimmed { IsPrinted result → result ≢ Status.Accepted → result ≢ Status.WriteFault →
        (task proof out : List ℕ) →
        asked (map string_bytes words.now) ≡ Some (trim task proof out) →
        H.file shelf.new out ≡ H.file shelf.old out }
    // What `trim` prints with Trimmed tells how many lines the file has then.
    ensures trimmed { result ≡ Status.Accepted → (task proof into : List ℕ) →
        asked (map string_bytes words.now) ≡ Some (trim task proof into) → (text : List ℕ)
        × (t : Parts) × IsTaskIn (H.file shelf.old task) t
        × TellsTrimmed t text (H.file shelf.old into) (H.file shelf.new into)
        × Adds (K.taken out.old) (K.taken out.new) text }
    ensures trimmed_front { (task proof out : List ℕ) →
        asked (map string_bytes words.now) ≡ Some (trim task proof out) →
        LeavesFront (H.file shelf.old task) (H.file shelf.old out) (H.file shelf.new out) }
    ensures trimmed_part { result ≡ Status.WriteFault → (task proof out : List ℕ) →
        asked (map string_bytes words.now) ≡ Some (trim task proof out) →
        LeavesCut (H.file shelf.old task) (H.file shelf.old out) (H.file shelf.new out) }
    ensures trimmed_kept { result ≡ Status.SinkFault →
        (¬ Rose (H.write_faults shelf.old) (H.write_faults shelf.new)) →
        (task proof out : List ℕ) →
        asked (map string_bytes words.now) ≡ Some (trim task proof out) →
        (H.file shelf.new out ≡ H.file shelf.old out)
        ⊎ ((t : Parts) × IsTaskIn (H.file shelf.old task) t
        × HoldsTrimmed t (H.file shelf.old out) (H.file shelf.new out)) }

    // A fault to write has its cause, and so has each rise of the count.
    ensures written { result ≡ Status.WriteFault →
        Rose (H.write_faults shelf.old) (H.write_faults shelf.new) }
    ensures writes { IsPrinted result → result ≢ Status.WriteFault →
        H.write_faults shelf.new ≡ H.write_faults shelf.old }
{
    let Some(reply) = reply_to(rt, alloc, gate, words, shelf) else {
        return Status::Memory;
    };
    match put_all(out, &reply.text) {
        Ok(()) => reply.status,
        Err(IoError::Fault) => Status::SinkFault,
        Err(IoError::Memory) => Status::Memory,
    }
}
