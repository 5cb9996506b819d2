// What `check` answers to a task.
ghost use Rattle.std.specs.Prelude.{◌≡◌, ℕ, None, IfOk, option_map, codes};
ghost use Rattle.sm_check.specs.Checkable.{IsCheckable};
ghost use Rattle.sm_eval.specs.StoredValues.{meaning, sorts_of};
ghost use Rattle.sm_goals.specs.Whole.{IsWhole};
ghost use Rattle.sm_replay.specs.Sorted.{sort_fault};
ghost use Rattle.sm_replay.specs.Trials.{IsLeast};
ghost use Rattle.sm_replay.specs.InputText.{AreNamed};
ghost use Rattle.sm_syntax.specs.claim.ConflictFree.{ConflictFree};
ghost use Rattle.sm_syntax.specs.text.Parts.{sort_of, task_of};
ghost use Rattle.sm_syntax.specs.trees.Programs.{declared_of};
ghost use Rattle.sm_task.specs.Tasks.{parts_of};
ghost use Rattle.sm_text.specs.printing.Named.{HasText};
ghost use Rattle.sm_replies.specs.Check.{AnswersCheck, SaysNoted, ShowsFrom, ShowsTrial};
ghost use Rattle.sm_replies.specs.Grounds.{IsShownBy, RestsOn};
ghost use Rattle.sm_replies.specs.Views.{ComesWith, verdict_at};
ghost use Rattle.sm_words.specs.Views.{HasWorkers};

use crate::ground::Ground;
use crate::notes::noted;
use crate::undecided::{left_open, out_of_range, out_of_steps, too_many};
use sm_answers::{Reply, Status, put_input_line, trial_line};
use sm_eval::Store;
use sm_goals::Proof;
use sm_houdini::{Outcome, proof_text, search};
use sm_par::Gate;
use sm_replay::{Verdict, trial, write_input};
use sm_syntax::Name;
use sm_task::Task;
use sm_words::{Effort, line};
use std::alloc::{AllocError, Global};
use std::thread::Threads;

/// The answer to a task, with the proof where it is accepted, and what it rests on.
#[derive(Drop)]
pub struct Decided {
    pub reply: Reply,
    pub proof: Option<Vec<u8>>,
    pub ground: Ground,
}

/// Where an input violates: an output, the index where it is an array, and the clause.
#[derive(Clone, Copy)]
pub struct Place {
    pub name: Name,
    pub index: Option<i128>,
    pub clause: u8,
}

/// The answer to a task that some text spells: what its search comes to, as far as its effort goes.
/// Jobs are for 1 to 64 workers.
pub fn check<R: Threads + Sync, G: Gate>(
    rt: &R,
    alloc: Global,
    gate: &G,
    task: &Task,
    effort: Effort,
) -> Result<Decided, AllocError>
    requires spelled { HasText (parts_of task.now) }
    requires workers { HasWorkers effort }
    ensures answers { IfOk result (λ d.
        AnswersCheck (parts_of task.now) effort d.reply.status d.reply.text.items) }
    ensures proof { IfOk result (λ d. ComesWith (parts_of task.now) d.reply.status
        (option_map (λ v. v.items) d.proof)) }
    ensures ground { IfOk result (λ d.
        RestsOn (parts_of task.now) effort d.reply.status d.reply.text.items d.ground) }
{
    let outcome = search(
        rt,
        alloc,
        gate,
        task,
        effort.steps,
        effort.turns,
        effort.workers,
        effort.exact,
    )?;
    match outcome {
        Outcome::Accepted(proof) => shown_by(alloc, task, proof),
        Outcome::Conflict { trial, verdict } => conflict(alloc, task, trial, verdict),
        Outcome::Open { node, goal } => left_open(alloc, task, node, goal),
        Outcome::Steps { node, goal } => out_of_steps(alloc, task, node, goal),
        Outcome::Coefficient {
            node,
            goal,
            op,
            a,
            b,
        } => out_of_range(alloc, task, node, goal, op, a, b),
        Outcome::TooMany => too_many(alloc, task),
    }
}

// The answer that a proof shows the task.
fn shown_by(alloc: Global, task: &Task, proof: Proof) -> Result<Decided, AllocError>
    requires spelled { HasText (parts_of task.now) }
    requires proof { IsWhole (parts_of task.now) proof }
    ensures free { IfOk result (λ d. ConflictFree (task_of (parts_of task.now))) }
    ensures says { IfOk result (λ d. SaysNoted (parts_of task.now) Status.Accepted (codes "Accepted\n")
        d.reply.status d.reply.text.items) }
    ensures proof { IfOk result (λ d. ComesWith (parts_of task.now) d.reply.status
        (option_map (λ v. v.items) d.proof)) }
    ensures ground { IfOk result (λ d. d.ground ≡ Ground.Proved) }
{
    let text = proof_text(alloc, task, proof)?;
    let reply = accepted(alloc, task)?;
    Ok(Decided {
        reply,
        proof: Some(text),
        ground: Ground::Proved,
    })
}

// The answer that a trial violates.
fn conflict(alloc: Global, task: &Task, number: u8, verdict: Verdict) -> Result<Decided, AllocError>
    requires named { let t = parts_of task.now in AreNamed t.names (sort_of t.declared) }
    requires least { (turns : ℕ) × (let t = parts_of task.now in
        IsLeast (task_of t) (sort_of t.declared) turns number verdict) }
    ensures shows { IfOk result (λ d.
        ShowsTrial (parts_of task.now) number verdict d.reply.status d.reply.text.items) }
    ensures none { IfOk result (λ d. d.proof ≡ None) }
    ensures ground { IfOk result (λ d.
        IsShownBy (parts_of task.now) d.reply.status d.reply.text.items d.ground) }
{
    match verdict {
        Verdict::Violates {
            name,
            index,
            clause,
        } => shown(
            alloc,
            task,
            number,
            Place {
                name,
                index,
                clause,
            },
        ),
        Verdict::Holds | Verdict::Unmet => unreachable!(),
    }
}

// The answer that a trial violates at a place.
fn shown(alloc: Global, task: &Task, number: u8, at: Place) -> Result<Decided, AllocError>
    requires { let t = parts_of task.now in AreNamed t.names (sort_of t.declared) }
    ensures shows { IfOk result (λ d.
        ShowsTrial (parts_of task.now) number (verdict_at at) d.reply.status d.reply.text.items) }
    ensures none { IfOk result (λ d. d.proof ≡ None) }
    ensures ground { IfOk result (λ d.
        IsShownBy (parts_of task.now) d.reply.status d.reply.text.items d.ground) }
{
    let input = trial(alloc, task, number)?;
    violated(alloc, task, number as u64, input, at)
}

/// The answer that an input violates, which rests on the input.
pub fn violated(
    alloc: Global,
    task: &Task,
    number: u64,
    input: Store,
    at: Place,
) -> Result<Decided, AllocError>
    requires named { let t = parts_of task.now in AreNamed t.names (sort_of t.declared) }
    requires declared { sorts_of input ≡ sort_of (declared_of task.now.shared.decls) }
    ensures shows { IfOk result (λ d.
        ShowsFrom (parts_of task.now) number (meaning input) (verdict_at at)
        d.reply.status d.reply.text.items) }
    ensures none { IfOk result (λ d. d.proof ≡ None) }
    ensures ground { IfOk result (λ d.
        IsShownBy (parts_of task.now) d.reply.status d.reply.text.items d.ground) }
{
    let reply = violation(alloc, task, number, &input, at)?;
    Ok(Decided {
        reply,
        proof: None,
        ground: Ground::Input(input),
    })
}

// The answer that an input violates: its number among those that are made, the place, and its text.
fn violation(
    alloc: Global,
    task: &Task,
    number: u64,
    input: &Store,
    at: Place,
) -> Result<Reply, AllocError>
    requires named { let t = parts_of task.now in AreNamed t.names (sort_of t.declared) }
    requires declared { sorts_of input.now ≡ sort_of (declared_of task.now.shared.decls) }
    ensures { IfOk result (λ r.
        ShowsFrom (parts_of task.now) number (meaning input.now) (verdict_at at)
        r.status r.text.items) }
{
    let names = &task.shared.names;
    let shown = write_input(alloc, &task.shared.decls, names, input)?;
    let mut text = trial_line(alloc, names, number, at.name, at.index, at.clause)?;
    put_input_line(&mut text, &shown)?;
    Ok(Reply {
        status: Status::Conflict,
        text,
    })
}

/// The answer that the task is accepted.
pub fn accepted(alloc: Global, task: &Task) -> Result<Reply, AllocError>
    requires { sort_fault (parts_of task.now) ≡ None }
    ensures { IfOk result (λ r. SaysNoted (parts_of task.now) Status.Accepted (codes "Accepted\n")
        r.status r.text.items) }
{
    let text = line(alloc, "Accepted", &[])?;
    noted(alloc, task, Status::Accepted, text)
}
