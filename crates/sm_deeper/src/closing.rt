// Goals that close.
ghost use Rattle.std.specs.Prelude.{IfOk, OnOk};
ghost use Rattle.sm_term.specs.Tables.{trees_in, sorts_in};
ghost use Rattle.sm_term.specs.TableLaws.{ExtendsTable};
ghost use Rattle.sm_plan.specs.ReadyStates.{IsFormReady, AreFormsReady};
ghost use Rattle.sm_goals.specs.Nodes.{IsNodeOf};

use crate::effort::Effort;
use sm_cert::CertTree;
use sm_goals::node_of;
use sm_observed::Work;
use sm_plan::Formulas;
use sm_solve::{Answer, FactBase, Reach, solve_at};
use sm_term::{Formula, TermTable};
use std::alloc::{AllocError, Global};

// The work of making a node, for each of its facts.
const NODE: usize = 8;

/// Takes the work of making the node of these facts. It is dearer than a walk from it.
pub(crate) fn pay_node(work: &mut Work, facts: &Formulas) {
    work.spend(facts.list.len().saturating_mul(NODE));
}

/// The node of these facts, where goals are to share it. It has many parts, and is kept apart from
/// what holds it.
pub(crate) fn boxed_node(
    alloc: Global,
    table: &mut TermTable,
    facts: &Formulas,
    is_shared: bool,
    steps: u64,
) -> Result<Box<Option<FactBase>>, AllocError>
    requires { AreFormsReady (sorts_in table.old) (trees_in table.old) facts.now.list.items }
    ensures node { IfOk result (λ node. IsNodeOf table.new facts.now.list.items node.value) }
    ensures widens { ExtendsTable table.old table.new }
{
    let node = node_of(alloc, table, facts, is_shared, steps)?;
    Ok(Box::new(alloc, node)?)
}

/// What the walk of a goal comes to.
#[derive(Clone, Copy)]
pub(crate) enum WalkEnd {
    Closed,
    /// A branch stays open, or a coefficient leaves the range.
    Open,
    /// The steps don't suffice.
    Steps,
}

// What a walk came to, with the certificate where it closes.
fn end_of_walk(answer: Answer) -> (WalkEnd, Option<CertTree>) {
    match answer {
        Answer::Closed(tree) => (WalkEnd::Closed, Some(tree)),
        Answer::Open { .. } => (WalkEnd::Open, None),
        Answer::Steps => (WalkEnd::Steps, None),
        Answer::Coefficient { .. } => (WalkEnd::Open, None),
    }
}

/// Takes the work of a walk over facts. One whose steps don't suffice is dear, so that it takes more.
pub(crate) fn pay_walk(work: &mut Work, facts: &Formulas, end: WalkEnd, reach: Reach) {
    work.spend(facts.list.len());
    if end == WalkEnd::Steps {
        work.spend(reach.steps as usize);
    }
}

/// What the walk of a goal over facts comes to, with the certificate where it closes.
pub(crate) fn walked(
    alloc: Global,
    table: &mut TermTable,
    node: &mut Option<FactBase>,
    facts: &Formulas,
    goal: &Formula,
    reach: Reach,
) -> Result<(WalkEnd, Option<CertTree>), AllocError>
    requires facts { AreFormsReady (sorts_in table.old) (trees_in table.old)
        facts.now.list.items }
    requires goal { IsFormReady (sorts_in table.old) (trees_in table.old) goal.now }
    requires node { IsNodeOf table.old facts.now.list.items node.old }
    ensures node { OnOk result (IsNodeOf table.new facts.now.list.items node.new) }
    ensures widens { OnOk result (ExtendsTable table.old table.new) }
{
    let answer = solve_at(alloc, table, node, &facts.list, goal, reach)?;
    Ok(end_of_walk(answer))
}
