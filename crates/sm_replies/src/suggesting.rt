// What `suggest` answers to a task's file.
ghost use Rattle.std.specs.Prelude.{◌≡◌, false, ℕ, List, IfNone, IfOk, IfErr, IfSome};
ghost use Rattle.sm_houdini.specs.Views.{outcome_in};
ghost use Rattle.sm_houdini.specs.declared.outcome.Outcome.TheVariants as accepts;
ghost use Rattle.sm_suggest.specs.Combinations.{choices, hole_count};
ghost use Rattle.sm_suggest.specs.Fit.{IsFit};
ghost use Rattle.sm_task.specs.Tasks.{parts_of};
ghost use Rattle.sm_text.specs.printing.Named.{HasText};
ghost use Rattle.sm_answers.specs.Exit.{ExitsWith};
ghost use Rattle.sm_answers.specs.Lines.{many_holes_line, none_line, suggestion_line};
ghost use Rattle.sm_answers.specs.Status.{Says};
ghost use Rattle.sm_replies.specs.Suggest.{ProposesRead, is_accepted, AnswersSuggest, Decides, Suggests};
ghost use Rattle.sm_words.specs.Views.{HasWorkers};

use crate::limit::{Limited, time_over};
use sm_answers::{Exit, Reply, Status, many_holes_line, none_line, suggestion_line, task_in};
use sm_goals::Proof;
use sm_houdini::{Outcome, proof_text, search};
use sm_io::Shelf;
use sm_par::Gate;
use sm_suggest::{SuggestError, choices, suggest};
use sm_task::{Task, holes_of};
use sm_words::Effort;
use std::alloc::{AllocError, Global};
use std::thread::Threads;

/// The answer of `suggest` to a task's file.
pub fn suggest_in<R: Threads + Sync, G: Gate, H: Shelf>(
    rt: &R,
    alloc: Global,
    gate: &G,
    shelf: &mut H,
    name: &str,
    effort: Effort,
) -> Result<Reply, Exit>
    requires { HasWorkers effort }
    ensures ok { IfOk result (λ r. Suggests (H.file shelf.old name.now) effort
        (H.read_faults shelf.old) (H.read_faults shelf.new) r.status r.text.items) }
    ensures exit { IfErr result (ExitsWith (Suggests (H.file shelf.old name.now) effort
        (H.read_faults shelf.old) (H.read_faults shelf.new))) }
    ensures read { IfOk result (λ r. ProposesRead name.now effort
        (H.given shelf.old) (H.given shelf.new) r.status r.text.items) }
    ensures exit_read { IfErr result (ExitsWith (ProposesRead name.now effort
        (H.given shelf.old) (H.given shelf.new))) }
    ensures same { (other : List ℕ) → H.file shelf.new other ≡ H.file shelf.old other }
    ensures writes { H.write_faults shelf.new ≡ H.write_faults shelf.old }
{
    let task = task_in(alloc, shelf, name)?;
    Ok(suggest_in_time(rt, alloc, gate, &task, effort)?)
}

// The answer to a task that some text spells, or that the time for it is over.
fn suggest_in_time<R: Threads + Sync, G: Gate>(
    rt: &R,
    alloc: Global,
    gate: &G,
    task: &Task,
    effort: Effort,
) -> Result<Reply, AllocError>
    requires spelled { HasText (parts_of task.now) }
    requires workers { HasWorkers effort }
    ensures { IfOk result (λ r.
        AnswersSuggest (parts_of task.now) effort r.status r.text.items) }
{
    let limited = Limited {
        gate,
        seconds: effort.seconds,
    };
    match suggest_answer(rt, alloc, &limited, task, effort) {
        Ok(reply) => Ok(reply),
        Err(_) => {
            let reply = time_over(alloc, gate, effort)?;
            Ok(reply)
        }
    }
}

// The answer to a task that some text spells: the first combination of its fillings that its search
// accepts, as far as the effort goes. Jobs are for 1 to 64 workers.
fn suggest_answer<R: Threads + Sync, G: Gate>(
    rt: &R,
    alloc: Global,
    gate: &G,
    task: &Task,
    effort: Effort,
) -> Result<Reply, AllocError>
    requires spelled { HasText (parts_of task.now) }
    requires workers { HasWorkers effort }
    ensures { IfOk result (λ r.
        AnswersSuggest (parts_of task.now) effort r.status r.text.items) }
{
    let decide = |combined: &Task| -> Result<bool, AllocError>
        requires fit { IsFit (parts_of combined.now) }
        requires workers { HasWorkers effort }
        ensures { IfOk result (Decides (parts_of combined.now) effort) }
    { accepts(rt, alloc, gate, combined, effort) };
    match suggest(alloc, task, &decide) {
        Ok(Some(k)) => suggestion(alloc, task, k),
        Ok(None) => none_suggested(alloc),
        Err(SuggestError::TooManyHoles { count }) => many_holes(alloc, count),
        Err(SuggestError::Memory) => Err(AllocError),
    }
}

// Whether the search of a task accepts. Its proof is made, and not kept.
fn accepts<R: Threads + Sync, G: Gate>(
    rt: &R,
    alloc: Global,
    gate: &G,
    task: &Task,
    effort: Effort,
) -> Result<bool, AllocError>
    requires fit { IsFit (parts_of task.now) }
    requires workers { HasWorkers effort }
    ensures { IfOk result (Decides (parts_of task.now) effort) }
{
    let outcome = search(
        rt,
        alloc,
        gate,
        task,
        effort.steps,
        effort.turns,
        effort.workers,
        effort.exact,
    )?;
    match proof_in(outcome) {
        Some(proof) => {
            let _text = proof_text(alloc, task, proof)?;
            Ok(true)
        }
        None => Ok(false),
    }
}

// What an outcome that accepts comes with.
fn proof_in(outcome: Outcome) -> Option<Proof>
    ensures some { IfSome result (λ p. outcome ≡ accepts.Accepted p) }
    ensures none { IfNone result (is_accepted (outcome_in outcome) ≡ false) }
{
    match outcome {
        Outcome::Accepted(proof) => Some(proof),
        Outcome::Conflict { .. } => None,
        Outcome::Open { .. } => None,
        Outcome::Steps { .. } => None,
        Outcome::Coefficient { .. } => None,
        Outcome::TooMany => None,
    }
}

// The answer that combination k is suggested.
fn suggestion(alloc: Global, task: &Task, k: u64) -> Result<Reply, AllocError>
    ensures { let holes = hole_count (parts_of task.now) in IfOk result (λ r.
        Says Status.Accepted (suggestion_line (choices holes k)) r.status r.text.items) }
{
    let holes = holes_of(alloc, &task.shared.body)?;
    let copies = choices(alloc, holes.len(), k)?;
    let text = suggestion_line(alloc, &copies)?;
    Ok(Reply {
        status: Status::Accepted,
        text,
    })
}

// The answer that no combination is.
fn none_suggested(alloc: Global) -> Result<Reply, AllocError>
    ensures { IfOk result (λ r. Says Status.Unknown none_line r.status r.text.items) }
{
    let text = none_line(alloc)?;
    Ok(Reply {
        status: Status::Unknown,
        text,
    })
}

// The answer that there are too many holes.
fn many_holes(alloc: Global, count: u64) -> Result<Reply, AllocError>
    ensures { IfOk result (λ r.
        Says Status.Refused (many_holes_line count) r.status r.text.items) }
{
    let text = many_holes_line(alloc, count)?;
    Ok(Reply {
        status: Status::Refused,
        text,
    })
}
