// Rounds: candidates are dropped until each goal of those that are left closes.
ghost use Rattle.std.specs.Prelude.{IfOk, OnOk, IfSome};
ghost use Rattle.sm_term.specs.Tables.{trees_in, sorts_in};
ghost use Rattle.sm_term.specs.TableLaws.{ExtendsTable};
ghost use Rattle.sm_expand.specs.Views.{AreDuesReady};
ghost use Rattle.sm_candidates.specs.Subjects.{IsSubject, IsTableOf};

use crate::ahead::told_ahead;
use crate::crew::Crew;
use crate::effort::Effort;
use crate::facts::facts_in;
use crate::judging::{Round, judge_all};
use crate::kept::plan_keeping;
use crate::marks::{all_marked, are_all_there, keep_marked, total};
use crate::owners::Owners;
use sm_audit::is_plan_ready;
use sm_candidates::{Candidates, MOST_BRANCHES, Subject};
use sm_expand::{Due, Obligations, Plan, PlanFault};
use sm_par::Gate;
use sm_product::obligations_of;
use sm_term::TermTable;
use std::alloc::{AllocError, Global};
use std::thread::Threads;

/// How many facts the nodes of a plan have together at most.
const MOST_FACTS: usize = 1_000_000;

/// A plan of a task without kept formulas, and who asks what its nodes ask.
#[derive(Drop)]
pub(crate) struct Product<'p> {
    pub(crate) plan: &'p Plan,
    pub(crate) owners: &'p Owners,
}

/// A plan that keeps candidates, with its obligations.
pub(crate) struct Asked {
    pub(crate) plan: Plan,
    pub(crate) dues: Vec<Due>,
}

// One call ends a value, and not one for each field: proofs of what has it stay small.
impl Drop for Asked {
    fn drop(self) {
        let Self { plan: _, dues: _ } = self;
    }
}

impl Asked {
    /// The plan alone.
    pub(crate) fn into_plan(self) -> Plan {
        let Self { plan, dues: _ } = self;
        plan
    }

    // The obligations alone.
    fn into_dues(self) -> Vec<Due> {
        let Self { plan: _, dues } = self;
        dues
    }
}

// The candidates that are left, and what the round before asked.
#[derive(Drop)]
struct Left {
    candidates: Candidates,
    before: Vec<Due>,
}

// What the goals of a round come to.
#[derive(Clone, Copy)]
enum RoundEnd {
    // Each of them closes.
    Closed,
    // Candidates were dropped.
    Dropped,
    // The work doesn't suffice.
    Spent,
}

// The plan that keeps candidates with its obligations, none where it has none.
fn asked_by(
    alloc: Global,
    table: &mut TermTable,
    subject: &Subject<'_>,
    product: &Product<'_>,
    candidates: &Candidates,
) -> Result<Option<Asked>, AllocError>
    requires subject { IsSubject subject.now }
    requires declared { IsTableOf subject.now.task.now table.old }
    ensures ready { IfOk result (λ o. IfSome o (λ a.
        AreDuesReady (sorts_in table.new) (trees_in table.new) a.dues.items)) }
    ensures widens { ExtendsTable table.old table.new }
{
    let mut site = 0;
    let plan = plan_keeping(alloc, product.plan, candidates, &mut site)?;
    if !is_plan_ready(table, &plan, MOST_BRANCHES) {
        return Ok(None);
    }
    match obligations_of(alloc, table, subject.task, subject.programs, &plan) {
        Ok(Obligations { list }) => Ok(Some(Asked { plan, dues: list })),
        Err(PlanFault::Wrong { .. }) => Ok(None),
        Err(PlanFault::Deep) => Ok(None),
        Err(PlanFault::Memory) => Err(AllocError),
    }
}

// Takes the work of expanding a plan that keeps candidates: each of its nodes has the stores of its
// state, and facts. Whether it may be done.
fn may_ask(
    subject: &Subject<'_>,
    product: &Product<'_>,
    candidates: &Candidates,
    effort: &mut Effort,
) -> bool {
    let mut site = 0;
    let facts = facts_in(product.plan, candidates, 0, &mut site);
    let nodes = product.owners.list.len();
    let names = subject.task.shared.decls.list.len();
    let parts = nodes.saturating_mul(names).saturating_add(facts);
    effort.work.spend(nodes);
    effort.work.spend(parts / 16);
    facts <= MOST_FACTS && !effort.work.is_spent()
}

// What a round asks of the candidates that are left, where it asks something and the work suffices.
fn asked_within(
    alloc: Global,
    table: &mut TermTable,
    subject: &Subject<'_>,
    product: &Product<'_>,
    candidates: &Candidates,
    effort: &mut Effort,
) -> Result<Option<Asked>, AllocError>
    requires subject { IsSubject subject.now }
    requires declared { IsTableOf subject.now.task.now table.old }
    ensures ready { IfOk result (λ o. IfSome o (λ a.
        AreDuesReady (sorts_in table.new) (trees_in table.new) a.dues.items)) }
    ensures widens { OnOk result (ExtendsTable table.old table.new) }
{
    if !may_ask(subject, product, candidates, effort) {
        return Ok(None);
    }
    asked_by(alloc, table, subject, product, candidates)
}

// The marks at candidates by what a round's goals come to.
fn marks_of<R: Threads + Sync, G: Gate>(
    crew: &Crew<'_, R, G>,
    alloc: Global,
    table: &mut TermTable,
    round: &Round<'_>,
    candidates: &Candidates,
    effort: &mut Effort,
) -> Result<Vec<Vec<bool>>, AllocError>
    requires { AreDuesReady (sorts_in table.old) (trees_in table.old) round.now.dues.now }
    ensures { OnOk result (ExtendsTable table.old table.new) }
{
    let mut marks = all_marked(alloc, candidates)?;
    let told = told_ahead(crew, alloc, table, round, effort)?;
    judge_all(alloc, table, round, &told, &mut marks, effort)?;
    Ok(marks)
}

// Drops the candidates one of whose goals doesn't close, and tells what the goals come to.
fn round_end<R: Threads + Sync, G: Gate>(
    crew: &Crew<'_, R, G>,
    alloc: Global,
    table: &mut TermTable,
    round: &Round<'_>,
    candidates: &mut Candidates,
    effort: &mut Effort,
) -> Result<RoundEnd, AllocError>
    requires { AreDuesReady (sorts_in table.old) (trees_in table.old) round.now.dues.now }
    ensures { OnOk result (ExtendsTable table.old table.new) }
{
    let marks = marks_of(crew, alloc, table, round, &*candidates, effort)?;
    if effort.work.is_spent() {
        return Ok(RoundEnd::Spent);
    }
    if are_all_there(&marks) {
        return Ok(RoundEnd::Closed);
    }
    keep_marked(alloc, candidates, &marks)?;
    Ok(RoundEnd::Dropped)
}

// Drops the candidates that are left one of whose goals doesn't close in the round that asks this.
fn judged_by<R: Threads + Sync, G: Gate>(
    crew: &Crew<'_, R, G>,
    alloc: Global,
    table: &mut TermTable,
    dues: &[Due],
    owners: &Owners,
    left: &mut Left,
    effort: &mut Effort,
) -> Result<RoundEnd, AllocError>
    requires { AreDuesReady (sorts_in table.old) (trees_in table.old) dues.now }
    ensures { OnOk result (ExtendsTable table.old table.new) }
{
    let round = Round {
        dues,
        before: &left.before,
        owners,
    };
    round_end(crew, alloc, table, &round, &mut left.candidates, effort)
}

// Drops candidates that are left until each goal closes: the plan that keeps them, with its
// obligations.
fn settle<R: Threads + Sync, G: Gate>(
    crew: &Crew<'_, R, G>,
    alloc: Global,
    table: &mut TermTable,
    subject: &Subject<'_>,
    product: &Product<'_>,
    left: &mut Left,
    effort: &mut Effort,
) -> Result<Option<Asked>, AllocError>
    requires subject { IsSubject subject.now }
    requires declared { IsTableOf subject.now.task.now table.old }
    ensures ready { IfOk result (λ o. IfSome o (λ a.
        AreDuesReady (sorts_in table.new) (trees_in table.new) a.dues.items)) }
    ensures declared { OnOk result (IsTableOf subject.now.task.now table.new) }
{
    let most = total(&left.candidates);
    for _ in 0..=most {
        let asked = asked_within(alloc, table, subject, product, &left.candidates, effort)?;
        let Some(asked) = asked else {
            return Ok(None);
        };
        match judged_by(
            crew,
            alloc,
            table,
            &asked.dues,
            product.owners,
            left,
            effort,
        )? {
            RoundEnd::Closed => return Ok(Some(asked)),
            RoundEnd::Dropped => {
                left.before = asked.into_dues();
            }
            RoundEnd::Spent => return Ok(None),
        }
    }
    Ok(None)
}

/// Drops candidates until each goal of those that are left closes: the plan that keeps them, with
/// its obligations. None where the plan has none, or the work that is left doesn't suffice.
pub(crate) fn settled<R: Threads + Sync, G: Gate>(
    crew: &Crew<'_, R, G>,
    alloc: Global,
    table: &mut TermTable,
    subject: &Subject<'_>,
    product: &Product<'_>,
    candidates: Candidates,
    effort: &mut Effort,
) -> Result<Option<Asked>, AllocError>
    requires subject { IsSubject subject.now }
    requires declared { IsTableOf subject.now.task.now table.old }
    ensures ready { IfOk result (λ o. IfSome o (λ a.
        AreDuesReady (sorts_in table.new) (trees_in table.new) a.dues.items)) }
    ensures declared { OnOk result (IsTableOf subject.now.task.now table.new) }
{
    let mut left = Left {
        candidates,
        before: Vec::new(alloc),
    };
    settle(crew, alloc, table, subject, product, &mut left, effort)
}
