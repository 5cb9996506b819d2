// Places in a plan.
ghost use Rattle.std.specs.Prelude.{◌≡◌, List, [], ◌∷◌, ◌++◌, map, true, false, nat_le, IfOk, IfSome, MatchOption};
ghost use Rattle.sm_syntax.specs.claim.ConflictFree.{copy_of};
ghost use Rattle.sm_syntax.specs.text.Sorts.{Sorts};
ghost use Rattle.sm_syntax.specs.trees.Copies.{copy_named};
ghost use Rattle.sm_term.specs.Terms.{Tree};
ghost use Rattle.sm_plan.specs.Nodes.{rule_of, is_end};
ghost use Rattle.sm_plan.specs.ReadyStates.{IsNodeReady};
ghost use Rattle.sm_plan.specs.Views.{node_in};
ghost use Rattle.sm_expand.specs.NumberedPlans.{NumberedNode, node_over, head, below, list_of, IsKeepReady};
ghost use Rattle.sm_expand.specs.Views.{numbered_plan, numbered_last, simple_node};
ghost use Rattle.sm_expand.specs.Cursors.{numbered_at, IsRowOf};

use crate::plan::{Last, Plan, Simple};
use sm_plan::NodeRow;
use sm_syntax::{CopyName, PerCopy};
use std::alloc::{AllocError, Global};

/// A place in a plan: the simple nodes that are left, and the last node.
#[derive(Drop)]
pub struct Cursor<'p> {
    pub(crate) straight: &'p [Simple],
    pub(crate) last: &'p Last,
}

/// The place of a plan's first node.
pub fn start_of<'p>(plan: &'p Plan) -> Cursor<'p>
    ensures { numbered_at result ≡ numbered_plan plan.now }
{
    Cursor {
        straight: plan.straight.list.as_slice(),
        last: &plan.last,
    }
}

// The copy with a number, if there is one.
fn copy_numbered(number: u8) -> Option<CopyName>
    ensures { MatchOption result (nat_le number 3 ≡ false)
        (λ c. (nat_le number 3 ≡ true) × (copy_named c ≡ copy_of number)) }
{
    if number <= 3 {
        Some(CopyName::of_number(number))
    } else {
        None
    }
}

// A simple node, None where its copy is none.
fn simple_row<'p>(simple: &Simple) -> Option<NodeRow<'p>>
    ensures row { (sorts : Sorts) (trees : List Tree) →
        IsRowOf sorts trees (simple_node simple.now) result }
    ensures ready { (sorts : Sorts) (trees : List Tree) →
        IfSome result (IsNodeReady sorts trees) }
{
    match simple {
        Simple::Step { copy } => {
            let copy = copy_numbered(*copy)?;
            Some(NodeRow::Step { copy })
        }
        Simple::Abs { copy, count } => {
            let copy = copy_numbered(*copy)?;
            Some(NodeRow::Abs {
                copy,
                count: *count,
            })
        }
    }
}

// A last node, None where its copy is none.
fn last_row<'p>(last: &'p Last) -> Option<NodeRow<'p>>
    ensures row { (sorts : Sorts) (trees : List Tree) →
        IsRowOf sorts trees (head (numbered_last last.now)) result }
    ensures ready { (sorts : Sorts) (trees : List Tree) →
        IsKeepReady sorts trees (head (numbered_last last.now)) →
        IfSome result (IsNodeReady sorts trees) }
{
    match last {
        Last::Fork { copy, .. } => {
            let copy = copy_numbered(*copy)?;
            Some(NodeRow::Fork { copy })
        }
        Last::Loop { set, keep, .. } => Some(NodeRow::Loop { set: *set, keep }),
        Last::Block {
            k0,
            k1,
            k2,
            k3,
            keep,
            ..
        } => {
            let counts = PerCopy {
                base: *k0,
                variant_a: *k1,
                variant_b: *k2,
                candidate: *k3,
            };
            Some(NodeRow::Block { counts, keep })
        }
        Last::Dead => Some(NodeRow::Dead),
        Last::End => Some(NodeRow::End),
    }
}

/// The node at a place, None where its copy is none.
pub fn row_at<'p>(cursor: &Cursor<'p>) -> Option<NodeRow<'p>>
    ensures row { (sorts : Sorts) (trees : List Tree) →
        IsRowOf sorts trees (head (numbered_at cursor.now)) result }
    ensures ready { (sorts : Sorts) (trees : List Tree) →
        IsKeepReady sorts trees (head (numbered_at cursor.now)) →
        IfSome result (IsNodeReady sorts trees) }
{
    match cursor.straight.first() {
        Some(simple) => simple_row(simple),
        None => last_row(cursor.last),
    }
}

// The number of the rule of a last node.
fn last_rule(last: &Last) -> u8
    ensures { (sorts : Sorts) (trees : List Tree) →
        result ≡ rule_of (node_over sorts trees (head (numbered_last last.now))) }
{
    match last {
        Last::Fork { .. } => 3,
        Last::Loop { .. } => 4,
        Last::Block { .. } => 5,
        Last::Dead => 6,
        Last::End => 7,
    }
}

// The number of the rule of the node at a place.
pub(crate) fn rule_at(cursor: &Cursor<'_>) -> u8
    ensures { (sorts : Sorts) (trees : List Tree) →
        result ≡ rule_of (node_over sorts trees (head (numbered_at cursor.now))) }
{
    match cursor.straight.first() {
        Some(Simple::Step { .. }) => 1,
        Some(Simple::Abs { .. }) => 2,
        None => last_rule(cursor.last),
    }
}

// Whether a last node asks the target.
fn last_ends(last: &Last) -> bool
    ensures { (sorts : Sorts) (trees : List Tree) →
        result ≡ is_end (node_over sorts trees (head (numbered_last last.now))) }
{
    match last {
        Last::Fork { .. } => false,
        Last::Loop { .. } => false,
        Last::Block { .. } => false,
        Last::Dead => false,
        Last::End => true,
    }
}

// Whether the node at a place asks the target.
pub(crate) fn ends_at(cursor: &Cursor<'_>) -> bool
    ensures { (sorts : Sorts) (trees : List Tree) →
        result ≡ is_end (node_over sorts trees (head (numbered_at cursor.now))) }
{
    match cursor.straight.first() {
        Some(Simple::Step { .. }) => false,
        Some(Simple::Abs { .. }) => false,
        None => last_ends(cursor.last),
    }
}

// Two plans.
fn two<'p>(alloc: Global, first: &'p Plan, second: &'p Plan) -> Result<Vec<Cursor<'p>>, AllocError>
    ensures { IfOk result (λ cs. map numbered_at cs.items
        ≡ numbered_plan first.now ∷ numbered_plan second.now ∷ []) }
{
    let mut list = Vec::new(alloc);
    list.push(start_of(first))?;
    list.push(start_of(second))?;
    Ok(list)
}

// Plans, and then one more.
fn all_and<'p>(
    alloc: Global,
    plans: &'p [Plan],
    last: &'p Plan,
) -> Result<Vec<Cursor<'p>>, AllocError>
    ensures { IfOk result (λ cs. map numbered_at cs.items
        ≡ map numbered_plan plans.now ++ numbered_plan last.now ∷ []) }
{
    let mut list = Vec::new(alloc);
    for plan in plans {
        list.push(start_of(plan))?;
    }
    list.push(start_of(last))?;
    Ok(list)
}

// The plans below a last node.
fn below_last<'p>(alloc: Global, last: &'p Last) -> Result<Vec<Cursor<'p>>, AllocError>
    ensures { IfOk result (λ cs.
        map numbered_at cs.items ≡ list_of (below (numbered_last last.now))) }
{
    match last {
        Last::Fork { yes, no, .. } => two(alloc, yes, no),
        Last::Loop { turns, after, .. } => all_and(alloc, turns.list.as_slice(), after),
        Last::Block { inner, after, .. } => two(alloc, inner, after),
        Last::Dead => Ok(Vec::new(alloc)),
        Last::End => Ok(Vec::new(alloc)),
    }
}

// The plans below the node at a place.
pub(crate) fn below_at<'p>(
    alloc: Global,
    cursor: &Cursor<'p>,
) -> Result<Vec<Cursor<'p>>, AllocError>
    ensures { IfOk result (λ cs.
        map numbered_at cs.items ≡ list_of (below (numbered_at cursor.now))) }
{
    match cursor.straight.split_first() {
        Some((_, rest)) => {
            let mut list = Vec::new(alloc);
            list.push(Cursor {
                straight: rest,
                last: cursor.last,
            })?;
            Ok(list)
        }
        None => below_last(alloc, cursor.last),
    }
}
