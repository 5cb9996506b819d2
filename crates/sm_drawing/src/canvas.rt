// What is drawn so far, and where.
ghost use Rattle.std.specs.Prelude.{List, IfOk};
ghost use Rattle.sm_syntax.specs.text.Sorts.{Sorts};
ghost use Rattle.sm_term.specs.Terms.{Tree};
ghost use Rattle.sm_expand.specs.NumberedPlans.{IsPlanReady};
ghost use Rattle.sm_expand.specs.Views.{numbered_last};

use crate::error::DrawingError;
use crate::running::Bound;
use crate::works::Way;
use sm_expand::{Last, Simple};
use sm_observed::Visits;
use sm_syntax::CopyName;
use sm_text::Task;
use std::alloc::Global;

/// How many nodes a drawing has at most.
const MOST_NODES: u64 = 4_000;

/// How a plan is drawn: with late summaries of loops or not, and with summaries of ifs that all
/// copies come to at once, or without.
#[derive(Clone, Copy)]
pub struct Style {
    pub is_second: bool,
    pub is_coarse: bool,
}

/// A dead end of a plan: its number among the plan's nodes, and the branches that lead to it.
#[derive(Drop)]
pub struct DeadEnd {
    pub node: u64,
    pub path: Vec<u8>,
}

/// What is drawn so far, the branches that lead here, and those that are drawn without runs.
#[derive(Drop)]
pub(crate) struct Canvas<'t> {
    pub(crate) task: &'t Task,
    pub(crate) style: Style,
    pub(crate) open: &'t [Vec<u8>],
    pub(crate) bound: Bound,
    pub(crate) nodes: u64,
    pub(crate) path: Vec<u8>,
    pub(crate) sites: Vec<Visits>,
    pub(crate) dead: Vec<DeadEnd>,
}

/// Counts a node.
pub(crate) fn count_node(canvas: &mut Canvas<'_>) -> Result<(), DrawingError> {
    if canvas.nodes >= MOST_NODES || canvas.bound.steps == 0 {
        return Err(DrawingError::TooMany);
    }
    canvas.nodes = canvas.nodes.saturating_add(1);
    Ok(())
}

/// Whether the branches that lead here are among those to be drawn without runs.
pub(crate) fn is_open(canvas: &Canvas<'_>) -> bool {
    for path in canvas.open {
        if path.as_slice() == canvas.path.as_slice() {
            return true;
        }
    }
    false
}

/// Puts a simple node behind others.
pub(crate) fn put_simple(
    canvas: &mut Canvas<'_>,
    list: &mut Vec<Simple>,
    way: Way,
    copy: CopyName,
) -> Result<(), DrawingError> {
    count_node(canvas)?;
    list.push(simple_of(way, copy.number()))?;
    Ok(())
}

// The node at which a copy does its first statement.
fn simple_of(way: Way, copy: u8) -> Simple {
    match way {
        Way::Statement => Simple::Step { copy },
        Way::Summary => Simple::Abs { copy, count: 1 },
    }
}

/// A dead end.
pub(crate) fn dead_end(alloc: Global, canvas: &mut Canvas<'_>) -> Result<Last, DrawingError>
    ensures { (sorts : Sorts) (trees : List Tree) →
        IfOk result (λ l. IsPlanReady sorts trees (numbered_last l)) }
{
    let node = canvas.nodes;
    let path = canvas.path.as_slice().to_vec(alloc)?;
    canvas.dead.push(DeadEnd { node, path })?;
    count_node(canvas)?;
    Ok(Last::Dead)
}

/// The end of all copies.
pub(crate) fn whole_end(canvas: &mut Canvas<'_>) -> Result<Last, DrawingError>
    ensures { (sorts : Sorts) (trees : List Tree) →
        IfOk result (λ l. IsPlanReady sorts trees (numbered_last l)) }
{
    count_node(canvas)?;
    Ok(Last::End)
}
