// What `check --deeper` answers to a task.
ghost use Rattle.std.specs.Prelude.{◌≡◌, true, None, IfOk, IfSome, option_map};
ghost use Rattle.sm_guided.specs.Beyond as guided;
ghost use Rattle.sm_replay.specs.Sorted.{sort_fault};
ghost use Rattle.sm_replay.specs.InputText.{AreNamed};
ghost use Rattle.sm_syntax.specs.text.Parts.{sort_of};
ghost use Rattle.sm_task.specs.Tasks.{parts_of};
ghost use Rattle.sm_text.specs.printing.Named.{HasText};
ghost use Rattle.sm_replies.specs.Check.{AnswersCheck};
ghost use Rattle.sm_commands.specs.Deeper.{AnswersDeeper, GoesBeyond, ShowsBeyond};
ghost use Rattle.sm_replies.specs.Grounds.{IsShownBy, RestsOn};
ghost use Rattle.sm_replies.specs.Views.{ComesWith};
ghost use Rattle.sm_answers.specs.declared.status.Status.TheVariants.{Unknown};
ghost use Rattle.sm_words.specs.Views.{HasWorkers};

use sm_answers::{Reply, Status};
use sm_deeper::search_deeper;
use sm_eval::Store;
use sm_guided::{Shown, Tried, try_inputs};
use sm_houdini::proof_text;
use sm_par::Gate;
use sm_replies::{Decided, Ground, Place, accepted, check, violated};
use sm_solve::Reach;
use sm_task::Task;
use sm_words::Effort;
use std::alloc::{AllocError, Global};
use std::thread::Threads;

/// The answer to a task that some text spells. Where its search decides nothing and the effort says
/// so, inputs beyond the trials are run; the first that violates is the answer. Where none does, a
/// proof is looked for along their runs, and where one is found, the task is accepted by it. Else the
/// answer stays. Jobs are for 1 to 64 workers.
pub fn check_deeper<R: Threads + Sync, G: Gate>(
    rt: &R,
    alloc: Global,
    gate: &G,
    task: &Task,
    effort: Effort,
) -> Result<Decided, AllocError>
    requires spelled { HasText (parts_of task.now) }
    requires workers { HasWorkers effort }
    ensures answers { IfOk result (λ d.
        AnswersDeeper (parts_of task.now) effort d.reply.status d.reply.text.items) }
    ensures proof { IfOk result (λ d. ComesWith (parts_of task.now) d.reply.status
        (option_map (λ v. v.items) d.proof)) }
    ensures ground { IfOk result (λ d.
        RestsOn (parts_of task.now) effort d.reply.status d.reply.text.items d.ground) }
{
    let decided = check(rt, alloc, gate, task, effort)?;
    if effort.deeper && decided.reply.status == Status::Unknown {
        if let Some(more) = beyond(rt, alloc, gate, task, effort, &decided.reply)? {
            return Ok(more);
        }
    }
    Ok(decided)
}

// What is answered where the search decides nothing: an input that violates, or else a proof. None
// where neither is found.
fn beyond<R: Threads + Sync, G: Gate>(
    rt: &R,
    alloc: Global,
    gate: &G,
    task: &Task,
    effort: Effort,
    undecided: &Reply,
) -> Result<Option<Decided>, AllocError>
    requires spelled { HasText (parts_of task.now) }
    requires workers { HasWorkers effort }
    requires asked { effort.deeper ≡ true }
    requires undecided { AnswersCheck (parts_of task.now) effort Unknown undecided.now.text.items }
    ensures answers { IfOk result (λ found. IfSome found (λ d.
        GoesBeyond (parts_of task.now) effort d.reply.status d.reply.text.items)) }
    ensures proof { IfOk result (λ found. IfSome found (λ d. ComesWith (parts_of task.now)
        d.reply.status (option_map (λ v. v.items) d.proof))) }
    ensures ground { IfOk result (λ found. IfSome found (λ d.
        RestsOn (parts_of task.now) effort d.reply.status d.reply.text.items d.ground)) }
{
    let Tried { shown, inputs } = try_inputs(rt, alloc, gate, task, effort.turns, effort.workers)?;
    match shown {
        Some(shown) => {
            let decided = shown_beyond(alloc, task, effort, undecided, shown)?;
            Ok(Some(decided))
        }
        None => proved_beyond(rt, alloc, gate, task, &inputs, effort, undecided),
    }
}

// The answer that an input beyond the trials violates.
fn shown_beyond(
    alloc: Global,
    task: &Task,
    effort: Effort,
    undecided: &Reply,
    shown: Shown,
) -> Result<Decided, AllocError>
    requires runs { sort_fault (parts_of task.now) ≡ None }
    requires named { let t = parts_of task.now in AreNamed t.names (sort_of t.declared) }
    requires asked { effort.deeper ≡ true }
    requires undecided { AnswersCheck (parts_of task.now) effort Unknown undecided.now.text.items }
    requires shown { guided.ShowsBeyond (parts_of task.now) effort.turns shown }
    ensures shows { IfOk result (λ d.
        ShowsBeyond (parts_of task.now) effort d.reply.status d.reply.text.items) }
    ensures none { IfOk result (λ d. d.proof ≡ None) }
    ensures ground { IfOk result (λ d.
        IsShownBy (parts_of task.now) d.reply.status d.reply.text.items d.ground) }
{
    let at = Place {
        name: shown.name,
        index: shown.index,
        clause: shown.clause,
    };
    let decided = violated(alloc, task, shown.number, shown.input, at)?;
    Ok(decided)
}

// The answer that the task is accepted, with a proof that is found along the runs from inputs, where
// one is.
fn proved_beyond<R: Threads + Sync, G: Gate>(
    rt: &R,
    alloc: Global,
    gate: &G,
    task: &Task,
    inputs: &[Store],
    effort: Effort,
    undecided: &Reply,
) -> Result<Option<Decided>, AllocError>
    requires spelled { HasText (parts_of task.now) }
    requires workers { HasWorkers effort }
    requires asked { effort.deeper ≡ true }
    requires undecided { AnswersCheck (parts_of task.now) effort Unknown undecided.now.text.items }
    ensures answers { IfOk result (λ found. IfSome found (λ d.
        GoesBeyond (parts_of task.now) effort d.reply.status d.reply.text.items)) }
    ensures proof { IfOk result (λ found. IfSome found (λ d. ComesWith (parts_of task.now)
        d.reply.status (option_map (λ v. v.items) d.proof))) }
    ensures ground { IfOk result (λ found. IfSome found (λ d.
        RestsOn (parts_of task.now) effort d.reply.status d.reply.text.items d.ground)) }
{
    let reach = Reach {
        steps: effort.steps,
        exact: effort.exact,
    };
    match search_deeper(rt, alloc, gate, task, inputs, reach, effort.workers)? {
        Some(proof) => {
            let text = proof_text(alloc, task, proof)?;
            let reply = accepted(alloc, task)?;
            Ok(Some(Decided {
                reply,
                proof: Some(text),
                ground: Ground::Proved,
            }))
        }
        None => Ok(None),
    }
}
