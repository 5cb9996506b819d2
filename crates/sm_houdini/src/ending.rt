// The end of a search: each goal of the plan closes, or a final one doesn't.
ghost use Rattle.std.specs.Prelude.{◌≡◌, ◌+◌, ◌<◌, ◌^◌, ◌++◌, ◌∷◌, [], List, length, IfOk, OnOk, MatchOption, MatchResult};
ghost use Rattle.sm_syntax.specs.text.Parts.{Parts};
ghost use Rattle.sm_syntax.specs.text.Sorts.{Sorts};
ghost use Rattle.sm_term.specs.Assertions.{Assertion};
ghost use Rattle.sm_term.specs.Formulas.{numbered, assertion_in};
ghost use Rattle.sm_term.specs.Tables.{trees_in, sorts_in};
ghost use Rattle.sm_term.specs.TableLaws.{ExtendsTable};
ghost use Rattle.sm_term.specs.Terms.{Tree};
ghost use Rattle.sm_cert.specs.Views.{certificate_in};
ghost use Rattle.sm_plan.specs.ReadyStates.{IsFormReady, AreFormsReady};
ghost use Rattle.sm_plan.specs.Views.{forms_in};
ghost use Rattle.sm_expand.specs.Views.{due_in, dues_in, AreDuesReady};
ghost use Rattle.sm_solve.specs.Answers.{Tells};
ghost use Rattle.sm_solve.specs.declared.solving.Answer.TheVariants as answers;
ghost use Rattle.sm_judge.specs.Forms.{Walked};
ghost use Rattle.sm_solve.specs.Walk.{walk};
ghost use Rattle.sm_write.specs.Writable.{IsShort};
ghost use Rattle.sm_houdini.specs.Certified.{asked};
ghost use Rattle.sm_houdini.specs.Collected.{AreCollected, goals_with, stop_in, GoalStops, GoalCloses, RunStops, RunCloses, FinalStops, FinalCloses, IsInsideClosed};
ghost use Rattle.sm_goals.specs.Nodes.{IsNodeOf};
ghost use Rattle.sm_houdini.specs.Views.{outcome_in, IsProof};

use crate::end_jobs::end_by_jobs;
use crate::goal_jobs::{Crew, parts_of};
use crate::outcome::Outcome;
use crate::short::is_short;
use sm_cert::CertTree;
use sm_expand::Due;
use sm_goals::node_of;
use sm_num::Op;
use sm_par::Gate;
use sm_solve::{Answer, FactBase, Reach, solve_at};
use sm_term::{Formula, TermTable};
use std::alloc::{AllocError, Global};
use std::thread::Threads;

// Why a goal has no certificate.
#[derive(Clone, Copy)]
pub(crate) enum Stop {
    Open {
        node: u64,
        goal: u64,
    },
    Steps {
        node: u64,
        goal: u64,
    },
    Coefficient {
        node: u64,
        goal: u64,
        op: Op,
        a: i128,
        b: i128,
    },
}

// The outcome of a search that stops.
pub(crate) fn stopped(stop: Stop) -> Outcome
    ensures outcome { outcome_in result ≡ stop_in stop }
    ensures proof { (t : Parts) → IsProof t result }
{
    match stop {
        Stop::Open { node, goal } => Outcome::Open { node, goal },
        Stop::Steps { node, goal } => Outcome::Steps { node, goal },
        Stop::Coefficient {
            node,
            goal,
            op,
            a,
            b,
        } => Outcome::Coefficient {
            node,
            goal,
            op,
            a,
            b,
        },
    }
}

// The certificate of an answer, or why there is none.
fn certificate(answer: Answer, node: u64, goal: u64) -> Result<CertTree, Stop>
    ensures { MatchResult result (λ tree. answer ≡ answers.Closed tree)
        (λ s. (sorts : Sorts) (trees : List Tree) (w : Walked) → Tells sorts trees answer w →
        GoalStops node goal w s) }
{
    match answer {
        Answer::Closed(tree) => Ok(tree),
        Answer::Open { .. } => Err(Stop::Open { node, goal }),
        Answer::Steps => Err(Stop::Steps { node, goal }),
        Answer::Coefficient { op, a, b } => Err(Stop::Coefficient {
            node,
            goal,
            op,
            a,
            b,
        }),
    }
}

// Puts a certificate behind others.
fn put(trees: &mut Vec<CertTree>, tree: CertTree) -> Result<(), AllocError>
    ensures put { OnOk result (trees.new.items ≡ trees.old.items ++ tree ∷ []) }
    ensures short { (ts : List Tree) → OnOk result (IsShort (certificate_in ts tree)) }
{
    // So many facts fit no memory.
    if !is_short(&tree) {
        return Err(AllocError);
    }
    trees.push(tree)?;
    Ok(())
}

// What a node asks, and how far a walk of its goals goes.
#[derive(Drop)]
struct Asking<'a> {
    due: &'a Due,
    reach: Reach,
}

// Puts the certificate of a goal that a node asks behind others, or tells why there is none.
fn end_goal(
    alloc: Global,
    table: &mut TermTable,
    shared: &mut Option<FactBase>,
    asking: &Asking<'_>,
    goal: &Formula,
    at: u64,
    trees: &mut Vec<CertTree>,
) -> Result<Option<Stop>, AllocError>
    requires facts { AreFormsReady (sorts_in table.old) (trees_in table.old)
        asking.now.due.now.facts.list.items }
    requires goal { IsFormReady (sorts_in table.old) (trees_in table.old) goal.now }
    requires shared { IsNodeOf table.old asking.now.due.now.facts.list.items shared.old }
    ensures ends { let sorts = sorts_in table.old in let ts = trees_in table.old in
        let d = asking.now.due.now in
        let given = forms_in sorts ts d.facts.list.items in
        let asks = assertion_in sorts ts (numbered goal.now) in
        let walked = walk sorts asking.now.reach given asks in
        (goals : List (List Assertion × Assertion)) →
        AreCollected table.old goals trees.old.items → IfOk result (λ o. MatchOption o
        (GoalCloses d.node at walked
        × AreCollected table.new (goals ++ (given, asks) ∷ []) trees.new.items)
        (GoalStops d.node at walked)) }
    ensures shared { IfOk result (λ o.
        IsNodeOf table.new asking.now.due.now.facts.list.items shared.new) }
    ensures widens { ExtendsTable table.old table.new }
{
    let due = asking.due;
    let answer = solve_at(alloc, table, shared, &due.facts.list, goal, asking.reach)?;
    match certificate(answer, due.node, at) {
        Ok(tree) => {
            put(trees, tree)?;
            Ok(None)
        }
        Err(stop) => Ok(Some(stop)),
    }
}

// Puts the certificates of a run of goals behind others. A run is of what one node asks, and begins
// at a place; it goes up to the first goal for which there is none. Where the node asks several they
// share the classes of its facts, though the run has one alone: so each has the same certificate,
// whatever the runs.
pub(crate) fn end_run(
    alloc: Global,
    table: &mut TermTable,
    due: &Due,
    first: u64,
    run: &[Formula],
    trees: &mut Vec<CertTree>,
    reach: Reach,
) -> Result<Option<Stop>, AllocError>
    requires facts { AreFormsReady (sorts_in table.old) (trees_in table.old)
        due.now.facts.list.items }
    requires goals { AreFormsReady (sorts_in table.old) (trees_in table.old) run.now }
    requires places { first + length run.now < 2 ^ 64 }
    ensures ends { let sorts = sorts_in table.old in let ts = trees_in table.old in
        let d = due_in sorts ts due.now in let asks = forms_in sorts ts run.now in
        (goals : List (List Assertion × Assertion)) →
        AreCollected table.old goals trees.old.items → IfOk result (λ o. MatchOption o
        (RunCloses (walk sorts reach) d first asks
        × AreCollected table.new (goals ++ goals_with d.facts asks) trees.new.items)
        (RunStops (walk sorts reach) d first asks)) }
    ensures widens { ExtendsTable table.old table.new }
{
    let several = due.targets.list.len() > 1;
    let mut shared = node_of(alloc, table, &due.facts, several, reach.steps)?;
    let asking = Asking { due, reach };
    end_run_at(alloc, table, &mut shared, &asking, first, run, trees)
}

// Puts the certificates of a run behind others, by a node of the facts, where there is one.
fn end_run_at(
    alloc: Global,
    table: &mut TermTable,
    shared: &mut Option<FactBase>,
    asking: &Asking<'_>,
    first: u64,
    run: &[Formula],
    trees: &mut Vec<CertTree>,
) -> Result<Option<Stop>, AllocError>
    requires facts { AreFormsReady (sorts_in table.old) (trees_in table.old)
        asking.now.due.now.facts.list.items }
    requires goals { AreFormsReady (sorts_in table.old) (trees_in table.old) run.now }
    requires places { first + length run.now < 2 ^ 64 }
    requires shared { IsNodeOf table.old asking.now.due.now.facts.list.items shared.old }
    ensures ends { let sorts = sorts_in table.old in let ts = trees_in table.old in
        let d = due_in sorts ts asking.now.due.now in let asks = forms_in sorts ts run.now in
        (goals : List (List Assertion × Assertion)) →
        AreCollected table.old goals trees.old.items → IfOk result (λ o. MatchOption o
        (RunCloses (walk sorts asking.now.reach) d first asks
        × AreCollected table.new (goals ++ goals_with d.facts asks) trees.new.items)
        (RunStops (walk sorts asking.now.reach) d first asks)) }
    ensures widens { ExtendsTable table.old table.new }
{
    let mut at = first;
    for goal in run {
        let end = end_goal(alloc, table, shared, asking, goal, at, trees)?;
        if end.is_some() {
            return Ok(end);
        }
        at += 1;
    }
    Ok(None)
}

/// Puts the certificates of all goals behind others, or tells the first final goal for which there
/// is none. The other goals are known to close.
pub(crate) fn end_all<R: Threads + Sync, G: Gate>(
    crew: &Crew<'_, R, G>,
    alloc: Global,
    table: &mut TermTable,
    dues: &[Due],
    trees: &mut Vec<CertTree>,
    reach: Reach,
) -> Result<Option<Stop>, AllocError>
    requires ready { AreDuesReady (sorts_in table.old) (trees_in table.old) dues.now }
    requires inside { IsInsideClosed table.old reach dues.now }
    ensures ends { let sorts = sorts_in table.old in let ts = trees_in table.old in
        let ds = dues_in sorts ts dues.now in
        AreCollected table.old [] trees.old.items → IfOk result (λ o. MatchOption o
        (FinalCloses (walk sorts reach) ds
        × AreCollected table.new (asked ds) trees.new.items)
        (FinalStops (walk sorts reach) ds)) }
    ensures widens { ExtendsTable table.old table.new }
{
    if parts_of(crew) == 1 {
        end_in_turn(alloc, table, dues, trees, reach)
    } else {
        end_by_jobs(crew, alloc, table, dues, trees, reach)
    }
}

// Puts the certificates of all goals behind one another, node by node, over the one table.
fn end_in_turn(
    alloc: Global,
    table: &mut TermTable,
    dues: &[Due],
    trees: &mut Vec<CertTree>,
    reach: Reach,
) -> Result<Option<Stop>, AllocError>
    requires ready { AreDuesReady (sorts_in table.old) (trees_in table.old) dues.now }
    requires inside { IsInsideClosed table.old reach dues.now }
    ensures ends { let sorts = sorts_in table.old in let ts = trees_in table.old in
        let ds = dues_in sorts ts dues.now in
        AreCollected table.old [] trees.old.items → IfOk result (λ o. MatchOption o
        (FinalCloses (walk sorts reach) ds
        × AreCollected table.new (asked ds) trees.new.items)
        (FinalStops (walk sorts reach) ds)) }
    ensures widens { ExtendsTable table.old table.new }
{
    for due in dues {
        let goals = due.targets.list.as_slice();
        let end = end_run(alloc, table, due, 0, goals, trees, reach)?;
        if end.is_some() {
            return Ok(end);
        }
    }
    Ok(None)
}
