// Extents of sketches, which are within the limits of plans.
ghost use Rattle.std.specs.Prelude.{◌≡◌, ◌+◌, max, IfOk, IfErr};
ghost use Rattle.sm_sketch.specs.Extents.{TellsExtent, total_nodes, most_branches};

use crate::error::ProductError;
use crate::sketch::{Extent, Sketch};

// An extent with so many nodes, and so many branching ones one under another.
fn within(count: u64, deepest: u64) -> Result<Extent, ProductError>
    ensures nodes { IfOk result (λ e. e.nodes ≡ count) }
    ensures branches { IfOk result (λ e. e.branches ≡ deepest) }
    ensures err { IfErr result (λ e. TellsExtent e count deepest) }
{
    if count > 200_000 || deepest > 1_000 {
        return Err(ProductError::TooMany);
    }
    Ok(Extent {
        nodes: count,
        branches: deepest,
    })
}

// The greater of two numbers.
fn greater(one: u64, other: u64) -> u64
    ensures { result ≡ max one other }
{
    if one < other { other } else { one }
}

// That of one more node, which doesn't branch.
pub(crate) fn with_node(below: Extent) -> Result<Extent, ProductError>
    ensures nodes { IfOk result (λ e. e.nodes ≡ below.nodes + 1) }
    ensures branches { IfOk result (λ e. e.branches ≡ below.branches) }
    ensures err { IfErr result (λ e. TellsExtent e (below.nodes + 1) below.branches) }
{
    if below.nodes > 200_000 {
        return Err(ProductError::TooMany);
    }
    within(below.nodes + 1, below.branches)
}

// That of one more node, which branches.
fn with_branching(below: Extent) -> Result<Extent, ProductError>
    ensures nodes { IfOk result (λ e. e.nodes ≡ below.nodes + 1) }
    ensures branches { IfOk result (λ e. e.branches ≡ below.branches + 1) }
    ensures err { IfErr result (λ e. TellsExtent e (below.nodes + 1) (below.branches + 1)) }
{
    if below.nodes > 200_000 || below.branches > 1_000 {
        return Err(ProductError::TooMany);
    }
    within(below.nodes + 1, below.branches + 1)
}

// That of two sketches, side by side.
fn beside(one: Extent, other: Extent) -> Result<Extent, ProductError>
    ensures nodes { IfOk result (λ e. e.nodes ≡ one.nodes + other.nodes) }
    ensures branches { IfOk result (λ e. e.branches ≡ max one.branches other.branches) }
    ensures err { IfErr result (λ e.
        TellsExtent e (one.nodes + other.nodes) (max one.branches other.branches)) }
{
    if one.nodes > 200_000 || other.nodes > 200_000 {
        return Err(ProductError::TooMany);
    }
    let deepest = greater(one.branches, other.branches);
    within(one.nodes + other.nodes, deepest)
}

// That of a branching node over two sketches.
pub(crate) fn over_two(one: Extent, other: Extent) -> Result<Extent, ProductError>
    ensures nodes { IfOk result (λ e. e.nodes ≡ one.nodes + other.nodes + 1) }
    ensures branches { IfOk result (λ e. e.branches ≡ max one.branches other.branches + 1) }
    ensures err { IfErr result (λ e. TellsExtent e (one.nodes + other.nodes + 1)
        (max one.branches other.branches + 1)) }
{
    let below = beside(one, other)?;
    with_branching(below)
}

// That of a branching node over several sketches and another one.
pub(crate) fn over_all(sketches: &[Sketch], after: Extent) -> Result<Extent, ProductError>
    ensures nodes { IfOk result (λ e. e.nodes ≡ total_nodes sketches.now + after.nodes + 1) }
    ensures branches { IfOk result (λ e.
        e.branches ≡ max (most_branches sketches.now) after.branches + 1) }
    ensures err { IfErr result (λ e. TellsExtent e (total_nodes sketches.now + after.nodes + 1)
        (max (most_branches sketches.now) after.branches + 1)) }
{
    let below = all_beside(sketches, after)?;
    with_branching(below)
}

// That of several sketches and another one, side by side.
fn all_beside(sketches: &[Sketch], after: Extent) -> Result<Extent, ProductError>
    ensures nodes { IfOk result (λ e. e.nodes ≡ total_nodes sketches.now + after.nodes) }
    ensures branches { IfOk result (λ e.
        e.branches ≡ max (most_branches sketches.now) after.branches) }
    ensures err { IfErr result (λ e. TellsExtent e (total_nodes sketches.now + after.nodes)
        (max (most_branches sketches.now) after.branches)) }
{
    let mut all = after;
    for sketch in sketches {
        all = beside(all, sketch.extent)?;
    }
    Ok(all)
}
