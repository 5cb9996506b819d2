// Plans of works, as trees.
ghost use Rattle.std.specs.Prelude.{◌<◌, List, map, IfOk, OnOk};
ghost use Rattle.sm_syntax.specs.text.Sorts.{Sorts};
ghost use Rattle.sm_term.specs.Terms.{Tree};
ghost use Rattle.sm_expand.specs.NumberedPlans.{Over, plans_before, IsPlanReady, ArePlansReady};
ghost use Rattle.sm_expand.specs.Views.{numbered_plan, numbered_last};

use crate::canvas::{Canvas, count_node, dead_end, whole_end};
use crate::error::DrawingError;
use crate::lists::{Carried, TwoCarried, carried_apart};
use crate::moments::Moments;
use crate::straight::{Ahead, go_straight};
use crate::turns::{LoopLists, run_loops, taken_turn};
use crate::works::{ForkWork, LoopWork, Work, copy_works, turn_works, works_with};
use sm_expand::{Last, Plan, Plans, Simple, Simples};
use sm_term::Formula;
use std::alloc::Global;

/// The branch of a loop's node that leads behind the loops. Those of its turns have the masks of
/// copies.
const AFTER: u8 = 16;

/// The plan of works, for the runs that come here, with so many branching nodes left. It keeps
/// nothing, so that it is ready over each table.
#[cycle(draw)]
pub(crate) fn draw_works<'a>(
    alloc: Global,
    canvas: &mut Canvas<'_>,
    works: Vec<Work<'a>>,
    carried: Carried,
    room: u32,
) -> Result<Plan, DrawingError>
    ensures { (sorts : Sorts) (trees : List Tree) →
        IfOk result (λ p. IsPlanReady sorts trees (numbered_plan p)) }
{
    let mut list = Vec::new(alloc);
    let last = draw_nodes(alloc, canvas, works, carried, &mut list, room)?;
    Ok(Plan {
        straight: Simples { list },
        last,
    })
}

// Draws the simple nodes that works begin with, and gives what stands at their end.
#[cycle(draw)]
fn draw_nodes<'a>(
    alloc: Global,
    canvas: &mut Canvas<'_>,
    works: Vec<Work<'a>>,
    carried: Carried,
    list: &mut Vec<Simple>,
    room: u32,
) -> Result<Last, DrawingError>
    ensures { (sorts : Sorts) (trees : List Tree) →
        IfOk result (λ l. IsPlanReady sorts trees (numbered_last l)) }
{
    let mut works = works;
    let mut carried = carried;
    let ahead = go_straight(alloc, canvas, &mut works, &mut carried, list)?;
    draw_last(alloc, canvas, &ahead, &works, carried, room)
}

// What stands at the end of simple nodes, with the works that come behind it.
#[cycle(draw)]
fn draw_last<'a>(
    alloc: Global,
    canvas: &mut Canvas<'_>,
    ahead: &Ahead<'a>,
    works: &[Work<'a>],
    carried: Carried,
    room: u32,
) -> Result<Last, DrawingError>
    ensures { (sorts : Sorts) (trees : List Tree) →
        IfOk result (λ l. IsPlanReady sorts trees (numbered_last l)) }
{
    match ahead {
        Ahead::Fork(fork) => draw_fork(alloc, canvas, fork, works, carried, room),
        Ahead::Loops(loops) => draw_loops(alloc, canvas, loops, works, carried, room),
        Ahead::Dead => dead_end(alloc, canvas),
        Ahead::End => whole_end(canvas),
    }
}

// Counts a branching node, and gives one fewer of those that are left.
fn below(canvas: &mut Canvas<'_>, room: u32) -> Result<u32, DrawingError>
    ensures { IfOk result (λ left. left < room) }
{
    count_node(canvas)?;
    match room.checked_sub(1) {
        Some(left) => Ok(left),
        None => Err(DrawingError::TooMany),
    }
}

// A plan in a box.
fn boxed(alloc: Global, plan: Plan) -> Result<Box<Plan>, DrawingError>
    ensures { (sorts : Sorts) (trees : List Tree) →
        IsPlanReady sorts trees (numbered_plan plan) →
        IfOk result (λ b. IsPlanReady sorts trees (numbered_plan b.value)) }
{
    Ok(Box::new(alloc, plan)?)
}

// The plan of works behind a branch with a number.
#[cycle(draw)]
fn draw_branch<'a>(
    alloc: Global,
    canvas: &mut Canvas<'_>,
    branch: u8,
    works: Vec<Work<'a>>,
    carried: Carried,
    room: u32,
) -> Result<Plan, DrawingError>
    ensures { (sorts : Sorts) (trees : List Tree) →
        IfOk result (λ p. IsPlanReady sorts trees (numbered_plan p)) }
{
    canvas.path.push(branch)?;
    let plan = draw_works(alloc, canvas, works, carried, room)?;
    let _branch = canvas.path.pop();
    Ok(plan)
}

// The plan of a side of a fork, which begins with a work of its own.
#[cycle(draw)]
fn draw_side<'a>(
    alloc: Global,
    canvas: &mut Canvas<'_>,
    branch: u8,
    first: &Work<'a>,
    works: &[Work<'a>],
    carried: Carried,
    room: u32,
) -> Result<Box<Plan>, DrawingError>
    ensures { (sorts : Sorts) (trees : List Tree) →
        IfOk result (λ b. IsPlanReady sorts trees (numbered_plan b.value)) }
{
    let list = works_with(alloc, works, first)?;
    let plan = draw_branch(alloc, canvas, branch, list, carried, room)?;
    boxed(alloc, plan)
}

// A fork of a copy, and what comes then.
#[cycle(draw)]
fn draw_fork<'a>(
    alloc: Global,
    canvas: &mut Canvas<'_>,
    fork: &ForkWork<'a>,
    works: &[Work<'a>],
    carried: Carried,
    room: u32,
) -> Result<Last, DrawingError>
    ensures { (sorts : Sorts) (trees : List Tree) →
        IfOk result (λ l. IsPlanReady sorts trees (numbered_last l)) }
{
    let room = below(canvas, room)?;
    let TwoCarried { one, other } = carried_apart(alloc, carried, fork.copy, fork.guard)?;
    let yes = draw_side(alloc, canvas, 1, &fork.one, works, one, room)?;
    let no = draw_side(alloc, canvas, 0, &fork.other, works, other, room)?;
    Ok(Last::Fork {
        copy: fork.copy.number(),
        yes,
        no,
    })
}

// Loops of some copies, and what comes then.
#[cycle(draw)]
fn draw_loops<'a>(
    alloc: Global,
    canvas: &mut Canvas<'_>,
    loops: &LoopWork<'a>,
    works: &[Work<'a>],
    carried: Carried,
    room: u32,
) -> Result<Last, DrawingError>
    ensures { (sorts : Sorts) (trees : List Tree) →
        IfOk result (λ l. IsPlanReady sorts trees (numbered_last l)) }
{
    let room = below(canvas, room)?;
    let LoopLists { shown, behind } = run_loops(alloc, canvas, loops, carried)?;
    let turns = draw_turns(alloc, canvas, loops, shown, room)?;
    let after = draw_after(alloc, canvas, works, behind, room)?;
    Ok(Last::Loop {
        set: loops.set,
        keep: Formula::Yes,
        turns: Plans { list: turns },
        after,
    })
}

// The plan of works behind loops.
#[cycle(draw)]
fn draw_after<'a>(
    alloc: Global,
    canvas: &mut Canvas<'_>,
    works: &[Work<'a>],
    behind: Carried,
    room: u32,
) -> Result<Box<Plan>, DrawingError>
    ensures { (sorts : Sorts) (trees : List Tree) →
        IfOk result (λ b. IsPlanReady sorts trees (numbered_plan b.value)) }
{
    let list = copy_works(alloc, works)?;
    let plan = draw_branch(alloc, canvas, AFTER, list, behind, room)?;
    boxed(alloc, plan)
}

// A turn for each set of copies in the set of loops, by ascending masks.
#[cycle(draw)]
fn draw_turns<'a>(
    alloc: Global,
    canvas: &mut Canvas<'_>,
    loops: &LoopWork<'a>,
    shown: Option<Vec<Moments>>,
    room: u32,
) -> Result<Vec<Plan>, DrawingError>
    ensures { (sorts : Sorts) (trees : List Tree) → IfOk result (λ ps.
        ArePlansReady sorts trees (plans_before (map numbered_plan ps.items) Over)) }
{
    let mut shown = shown;
    let mut turns = Vec::new(alloc);
    for mask in 1..AFTER {
        draw_turn(alloc, canvas, loops, &mut shown, mask, room, &mut turns)?;
    }
    Ok(turns)
}

// The turn of some copies, where they are of the set of loops.
#[cycle(draw)]
fn draw_turn<'a>(
    alloc: Global,
    canvas: &mut Canvas<'_>,
    loops: &LoopWork<'a>,
    shown: &mut Option<Vec<Moments>>,
    mask: u8,
    room: u32,
    turns: &mut Vec<Plan>,
) -> Result<(), DrawingError>
    ensures { (sorts : Sorts) (trees : List Tree) →
        ArePlansReady sorts trees (plans_before (map numbered_plan turns.old.items) Over) →
        OnOk result
        (ArePlansReady sorts trees (plans_before (map numbered_plan turns.new.items) Over)) }
{
    if mask & loops.set != mask {
        return Ok(());
    }
    let works = turn_works(alloc, &loops.code, mask)?;
    let carried = taken_turn(alloc, shown, mask);
    let turn = draw_branch(alloc, canvas, mask, works, carried, room)?;
    turns.push(turn)?;
    Ok(())
}
