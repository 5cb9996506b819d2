// Where the certificates of the goals that are due begin.
ghost use Rattle.std.specs.Prelude.{◌≡◌, ◌≤◌, ◌++◌, true, List, take, IfOk, IfSome};
ghost use Rattle.sm_syntax.specs.text.Sorts.{Sorts};
ghost use Rattle.sm_term.specs.Tables.{trees_in, sorts_in};
ghost use Rattle.sm_term.specs.Terms.{Tree};
ghost use Rattle.sm_theory.specs.Facts.{BranchFact};
ghost use Rattle.sm_theory.specs.Views.{FactStands, AllStand};
ghost use Rattle.sm_proof.specs.Passing.{Pending, Progress};
ghost use Rattle.sm_check.specs.Closing.{IsGoalDue, IsGoalWaiting, MoreStands, OpenFirst, OpensAs};
ghost use Rattle.sm_check.specs.Pending.{WaitingStands};
ghost use Rattle.sm_check.specs.Walks.{Walks};

use crate::pending::{Due, Waiting};
use crate::walk::Walk;
use sm_term::copy_formula;
use sm_theory::{Branch, Fact};
use std::alloc::{AllocError, Global};

/// How many certificates are set aside together.
const MOST: usize = 64;

/// Where a certificate begins: at the first facts of the path, so many, and the denied goal behind
/// them. The path has that of the goal that is due.
#[derive(Drop)]
pub(crate) struct Opening {
    pub(crate) shared: usize,
    pub(crate) denied: Option<Fact>,
}

/// How many goals of one node are due, of which no line is taken or no split is open, up to 64.
pub(crate) fn goals_due(walk: &Walk<'_>) -> usize
    ensures { result ≤ 64 }
{
    if !is_goal_due(walk) {
        return 0;
    }
    let mut count = 1;
    let mut place = walk.waiting.len();
    while place > 0 && count < MOST {
        place -= 1;
        if !is_goal(&walk.waiting[place]) {
            return count;
        }
        count += 1;
    }
    count
}

// Whether the branch of a goal is due.
fn is_goal_due(walk: &Walk<'_>) -> bool
    ensures { result ≡ true → IsGoalDue walk.now.due }
{
    match &walk.due {
        Some(Due::Branch { splits, .. }) => *splits == 0,
        _ => false,
    }
}

// Whether the branch of a goal waits.
fn is_goal(waiting: &Waiting<'_>) -> bool
    ensures { result ≡ true → IsGoalWaiting waiting.now }
{
    match waiting {
        Waiting::Branch { splits, .. } => *splits == 0,
        Waiting::State { .. } => false,
    }
}

/// Where the certificates of the goals that are due begin, of the first so many and at least one.
pub(crate) fn openings(
    alloc: Global,
    walk: &Walk<'_>,
    count: usize,
) -> Result<Vec<Opening>, AllocError>
    ensures { (p : Progress) (w : Walks walk.now p) → IfOk result (λ list.
        OpenFirst (sorts_in walk.now.table) (trees_in walk.now.table) w.pending.facts list.items
        p.pending) }
{
    let mut list = Vec::new(alloc);
    if !is_goal_due(walk) {
        return Ok(list);
    }
    list.push(Opening {
        shared: walk.path.list.len(),
        denied: None,
    })?;
    let mut place = walk.waiting.len();
    while place > 0 && list.len() < count {
        place -= 1;
        match waiting_opening(alloc, &walk.waiting[place])? {
            Some(opening) => list.push(opening)?,
            None => return Ok(list),
        }
    }
    Ok(list)
}

// Where the certificate of a goal that waits begins.
fn waiting_opening(alloc: Global, waiting: &Waiting<'_>) -> Result<Option<Opening>, AllocError>
    ensures { (sorts : Sorts) (trees : List Tree) (facts : List BranchFact) (p : Pending) →
        WaitingStands sorts trees facts waiting.now p →
        IfOk result (λ o. IfSome o (λ opening. OpensAs sorts trees facts opening p)) }
{
    match waiting {
        Waiting::Branch {
            shared,
            fact,
            splits,
            ..
        } => {
            if *splits == 0 {
                let denied = Some(copy_fact(alloc, fact)?);
                Ok(Some(Opening {
                    shared: *shared,
                    denied,
                }))
            } else {
                Ok(None)
            }
        }
        Waiting::State { .. } => Ok(None),
    }
}

/// The branch of an opening.
pub(crate) fn opened(alloc: Global, path: &Branch, opening: &Opening) -> Result<Branch, AllocError>
    ensures { (sorts : Sorts) (trees : List Tree) (facts more : List BranchFact) →
        AllStand sorts trees path.now.list.items facts →
        MoreStands sorts trees opening.now.denied more →
        IfOk result (λ b. AllStand sorts trees b.list.items
        (take opening.now.shared facts ++ more)) }
{
    let shared = opening.shared.min(path.list.len());
    let mut list = copy_facts(alloc, &path.list[..shared])?;
    if let Some(fact) = &opening.denied {
        list.push(copy_fact(alloc, fact)?)?;
    }
    Ok(Branch { list })
}

// A copy of facts.
fn copy_facts(alloc: Global, facts: &[Fact]) -> Result<Vec<Fact>, AllocError>
    ensures { (sorts : Sorts) (trees : List Tree) (ks : List BranchFact) →
        AllStand sorts trees facts.now ks →
        IfOk result (λ list. AllStand sorts trees list.items ks) }
{
    let mut list = Vec::new(alloc);
    for fact in facts {
        list.push(copy_fact(alloc, fact)?)?;
    }
    Ok(list)
}

// A copy of a fact.
fn copy_fact(alloc: Global, fact: &Fact) -> Result<Fact, AllocError>
    ensures { (sorts : Sorts) (trees : List Tree) (k : BranchFact) →
        FactStands sorts trees fact.now k → IfOk result (λ f. FactStands sorts trees f k) }
{
    match fact {
        Fact::Form(f) => Ok(Fact::Form(copy_formula(alloc, f)?)),
        Fact::Lin(f) => Ok(Fact::Lin(f.copy(alloc)?)),
    }
}
