// What the goals of one node come to.
ghost use Rattle.std.specs.Prelude.{OnOk};
ghost use Rattle.sm_term.specs.Tables.{trees_in, sorts_in};
ghost use Rattle.sm_term.specs.TableLaws.{ExtendsTable};
ghost use Rattle.sm_plan.specs.ReadyStates.{AreFormsReady};
ghost use Rattle.sm_goals.specs.Nodes.{IsNodeOf};

use crate::closing::{boxed_node, pay_node, pay_walk, walked};
use crate::effort::Effort;
use sm_cert::CertTree;
use sm_expand::Due;
use sm_plan::Formulas;
use sm_solve::FactBase;
use sm_term::{Formula, TermTable};
use std::alloc::{AllocError, Global};

/// Puts the certificates of the goals of a node behind others. Whether each goal has one.
pub(crate) fn put_trees(
    alloc: Global,
    table: &mut TermTable,
    due: &Due,
    trees: &mut Vec<CertTree>,
    effort: &mut Effort,
) -> Result<bool, AllocError>
    requires facts { AreFormsReady (sorts_in table.old) (trees_in table.old)
        due.now.facts.list.items }
    requires goals { AreFormsReady (sorts_in table.old) (trees_in table.old)
        due.now.targets.list.items }
    ensures { OnOk result (ExtendsTable table.old table.new) }
{
    let goals = due.targets.list.as_slice();
    let is_shared = goals.len() > 1;
    if is_shared {
        pay_node(&mut effort.work, &due.facts);
    }
    let mut node = boxed_node(alloc, table, &due.facts, is_shared, effort.reach.steps)?;
    put_trees_at(alloc, table, &mut node, &due.facts, goals, trees, effort)
}

// Puts the certificates of goals over facts behind others, by a node of the facts, where there is
// one. Whether each goal has one.
fn put_trees_at(
    alloc: Global,
    table: &mut TermTable,
    node: &mut Option<FactBase>,
    facts: &Formulas,
    goals: &[Formula],
    trees: &mut Vec<CertTree>,
    effort: &mut Effort,
) -> Result<bool, AllocError>
    requires facts { AreFormsReady (sorts_in table.old) (trees_in table.old)
        facts.now.list.items }
    requires goals { AreFormsReady (sorts_in table.old) (trees_in table.old) goals.now }
    requires node { IsNodeOf table.old facts.now.list.items node.old }
    ensures { OnOk result (ExtendsTable table.old table.new) }
{
    for goal in goals {
        if effort.work.is_spent() {
            return Ok(false);
        }
        let (end, tree) = walked(alloc, table, node, facts, goal, effort.reach)?;
        pay_walk(&mut effort.work, facts, end, effort.reach);
        let Some(tree) = tree else {
            return Ok(false);
        };
        trees.push(tree)?;
    }
    Ok(true)
}

/// What the goals of a node come to: certificates up to the first goal that has none, whether each
/// has one, and the work that is still to be taken for it.
#[derive(Drop)]
pub(crate) struct NodeEnd {
    pub(crate) trees: Vec<CertTree>,
    pub(crate) is_closed: bool,
    pub(crate) work: u64,
}

// What the goals of a node come to, of which nothing is known.
fn new_end(
    alloc: Global,
    table: &mut TermTable,
    due: &Due,
    effort: &mut Effort,
) -> Result<NodeEnd, AllocError>
    requires facts { AreFormsReady (sorts_in table.old) (trees_in table.old)
        due.now.facts.list.items }
    requires goals { AreFormsReady (sorts_in table.old) (trees_in table.old)
        due.now.targets.list.items }
    ensures { OnOk result (ExtendsTable table.old table.new) }
{
    let mut trees = Vec::new(alloc);
    let is_closed = put_trees(alloc, table, due, &mut trees, effort)?;
    Ok(NodeEnd {
        trees,
        is_closed,
        work: 0,
    })
}

// Takes the work of what is known that the goals of a node come to. Whether there was so much: the
// goals are walked anew where there wasn't.
fn is_paid(end: &mut NodeEnd, effort: &mut Effort) -> bool {
    if end.work >= effort.work.left {
        return false;
    }
    effort.work.left -= end.work;
    end.work = 0;
    true
}

/// Whether each goal of a node has a certificate, by what is known at its place; that is known there
/// from now on.
pub(crate) fn is_ended(
    alloc: Global,
    table: &mut TermTable,
    due: &Due,
    known: &mut Option<NodeEnd>,
    effort: &mut Effort,
) -> Result<bool, AllocError>
    requires facts { AreFormsReady (sorts_in table.old) (trees_in table.old)
        due.now.facts.list.items }
    requires goals { AreFormsReady (sorts_in table.old) (trees_in table.old)
        due.now.targets.list.items }
    ensures { OnOk result (ExtendsTable table.old table.new) }
{
    if let Some(end) = known {
        if is_paid(end, effort) {
            return Ok(end.is_closed);
        }
    }
    let end = new_end(alloc, table, due, effort)?;
    let is_closed = end.is_closed;
    *known = Some(end);
    Ok(is_closed)
}
