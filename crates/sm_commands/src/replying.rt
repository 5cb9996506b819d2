// The answer to words: each command's own, or the line on how they are used.
ghost use Rattle.std.specs.Prelude.{◌≡◌, Some, map, IfOk, IfErr, IfSome, MatchOption};
ghost use Rattle.std.specs.String.{string_bytes};
ghost use Rattle.sm_io.specs.Causes.{HasCause};
ghost use Rattle.sm_answers.specs.Exit.{ExitsWith};
ghost use Rattle.sm_words.specs.Views.{asked_in, IsWithin};
ghost use Rattle.sm_words.specs.Words.{asked};
ghost use Rattle.sm_commands.specs.Readings.{AnswersByReads};
ghost use Rattle.sm_commands.specs.Top.{IsAnswerTo, AnswersCommand, LeavesBy, LeavesFiles, LeavesPart, LeavesPartBy, TellsBy, TellsFiles, WritesElsewhere};
ghost use Rattle.sm_files.specs.Views.{CountsWrites, EndsWith};

use crate::checking::check_in;
use crate::telling::{tell, usage};
use sm_answers::{Exit, Reply, Status, replay_in, verify_in};
use sm_display::{explain_in, print_in};
use sm_files::trim_in;
use sm_io::Shelf;
use sm_par::Gate;
use sm_replies::{batch_in, gen_in_time, suggest_in};
use sm_words::{Request, WordsError, read_words};
use std::alloc::Global;
use std::thread::Threads;

/// The answer to the words; none for want of memory.
pub fn reply_to<R: Threads + Sync, G: Gate, H: Shelf>(
    rt: &R,
    alloc: Global,
    gate: &G,
    words: &[String],
    shelf: &mut H,
) -> Option<Reply>
    ensures answers { IfSome result (λ r. IsAnswerTo (map string_bytes words.now) (H.file shelf.old)
        (H.read_faults shelf.old) (H.read_faults shelf.new) r.status r.text.items) }
    ensures read { IfSome result (λ r. AnswersByReads (asked (map string_bytes words.now))
        (H.given shelf.old) (H.given shelf.new) r.status r.text.items) }
    ensures left { MatchOption result
        (LeavesPartBy (asked (map string_bytes words.now)) (H.file shelf.old) (H.file shelf.new))
        (λ r. LeavesBy (asked (map string_bytes words.now)) (H.file shelf.old) r.status
        (H.file shelf.new)) }
    ensures writes { MatchOption result (H.write_faults shelf.new ≡ H.write_faults shelf.old)
        (λ r. HasCause (H.write_faults shelf.old) (H.write_faults shelf.new)
        (r.status ≡ Status.WriteFault)) }
    ensures tells { IfSome result (λ r. TellsBy (asked (map string_bytes words.now))
        (H.file shelf.old) r.status r.text.items (H.file shelf.new)) }
{
    match answer(rt, alloc, gate, words, shelf) {
        Ok(reply) => Some(reply),
        Err(Exit::Answer(reply)) => Some(reply),
        Err(Exit::Memory) => None,
    }
}

// The answer to the words, as what the commands come to or where they stop.
fn answer<R: Threads + Sync, G: Gate, H: Shelf>(
    rt: &R,
    alloc: Global,
    gate: &G,
    words: &[String],
    shelf: &mut H,
) -> Result<Reply, Exit>
    ensures ok { IfOk result (λ r. IsAnswerTo (map string_bytes words.now) (H.file shelf.old)
        (H.read_faults shelf.old) (H.read_faults shelf.new) r.status r.text.items) }
    ensures exit { IfErr result (ExitsWith (IsAnswerTo (map string_bytes words.now)
        (H.file shelf.old) (H.read_faults shelf.old) (H.read_faults shelf.new))) }
    ensures read { IfOk result (λ r. AnswersByReads (asked (map string_bytes words.now))
        (H.given shelf.old) (H.given shelf.new) r.status r.text.items) }
    ensures exit_read { IfErr result (ExitsWith (AnswersByReads (asked (map string_bytes words.now))
        (H.given shelf.old) (H.given shelf.new))) }
    ensures left { EndsWith
        (λ status. LeavesBy (asked (map string_bytes words.now)) (H.file shelf.old) status
        (H.file shelf.new))
        (LeavesPartBy (asked (map string_bytes words.now)) (H.file shelf.old) (H.file shelf.new))
        result }
    ensures writes { CountsWrites (H.write_faults shelf.old) (H.write_faults shelf.new) result }
    ensures tells { IfOk result (λ r. TellsBy (asked (map string_bytes words.now))
        (H.file shelf.old) r.status r.text.items (H.file shelf.new)) }
    ensures exit_tells { IfErr result (ExitsWith (λ status text.
        TellsBy (asked (map string_bytes words.now)) (H.file shelf.old) status text
        (H.file shelf.new))) }
{
    match read_words(alloc, words) {
        Ok(request) => answer_to(rt, alloc, gate, request, shelf),
        Err(WordsError::Usage) => Ok(usage(alloc, words)?),
        Err(WordsError::Memory) => Err(Exit::Memory),
    }
}

// The answer to what the words ask for.
fn answer_to<R: Threads + Sync, G: Gate, H: Shelf>(
    rt: &R,
    alloc: Global,
    gate: &G,
    request: Request<'_>,
    shelf: &mut H,
) -> Result<Reply, Exit>
    requires within { IsWithin request }
    requires other { WritesElsewhere (asked_in request) }
    ensures ok { IfOk result (λ r. AnswersCommand (asked_in request.entry) (H.file shelf.old)
        (H.read_faults shelf.old) (H.read_faults shelf.new) r.status r.text.items) }
    ensures exit { IfErr result (ExitsWith (AnswersCommand (asked_in request.entry)
        (H.file shelf.old) (H.read_faults shelf.old) (H.read_faults shelf.new))) }
    ensures read { IfOk result (λ r. AnswersByReads (Some (asked_in request.entry))
        (H.given shelf.old) (H.given shelf.new) r.status r.text.items) }
    ensures exit_read { IfErr result (ExitsWith (AnswersByReads (Some (asked_in request.entry))
        (H.given shelf.old) (H.given shelf.new))) }
    ensures left { EndsWith
        (λ status. LeavesFiles (asked_in request.entry) (H.file shelf.old) status (H.file shelf.new))
        (LeavesPart (asked_in request.entry) (H.file shelf.old) (H.file shelf.new)) result }
    ensures writes { CountsWrites (H.write_faults shelf.old) (H.write_faults shelf.new) result }
    ensures tells { IfOk result (λ r. TellsFiles (asked_in request.entry)
        (H.file shelf.old) r.status r.text.items (H.file shelf.new)) }
    ensures exit_tells { IfErr result (ExitsWith (λ status text.
        TellsFiles (asked_in request.entry) (H.file shelf.old) status text
        (H.file shelf.new))) }
{
    match request {
        Request::Check {
            task,
            proof,
            effort,
        } => check_in(rt, alloc, gate, shelf, task, proof, effort),
        Request::Verify {
            task,
            proof,
            workers,
        } => verify_in(rt, alloc, gate, shelf, task, proof, workers),
        Request::Replay { task, input, turns } => replay_in(alloc, shelf, task, input, turns),
        Request::Print { task, copy } => print_in(alloc, shelf, task, copy),
        Request::Suggest { task, effort } => suggest_in(rt, alloc, gate, shelf, task, effort),
        Request::Gen { seed, size, effort } => {
            Ok(gen_in_time(rt, alloc, gate, seed, size, effort)?)
        }
        Request::Explain { task, input, turns } => explain_in(alloc, shelf, task, input, turns),
        Request::Batch {
            list,
            cache,
            effort,
        } => batch_in(rt, alloc, gate, shelf, list, cache, effort),
        Request::Trim { task, proof, out } => trim_in(alloc, shelf, task, proof, out),
        Request::About(what) => Ok(tell(alloc, what)?),
    }
}
