// The simple nodes that works begin with.
use crate::canvas::{Canvas, is_open, put_simple};
use crate::error::DrawingError;
use crate::lists::{Carried, carried_on, is_unreached};
use crate::works::{ForkWork, LoopWork, Next, Work, next_of};
use sm_expand::Simple;
use sm_syntax::{CopyName, Stmt};
use std::alloc::{AllocError, Global};

// How many pieces of work are taken apart between two branching nodes at most.
fn most_works() -> u32 {
    1_000_000
}

/// What stands at the end of simple nodes.
#[derive(Drop)]
pub(crate) enum Ahead<'a> {
    Fork(ForkWork<'a>),
    Loops(LoopWork<'a>),
    Dead,
    End,
}

/// Draws simple nodes, up to what stands at their end.
pub(crate) fn go_straight<'a>(
    alloc: Global,
    canvas: &mut Canvas<'_>,
    works: &mut Vec<Work<'a>>,
    carried: &mut Carried,
    list: &mut Vec<Simple>,
) -> Result<Ahead<'a>, DrawingError> {
    for _ in 0..most_works() {
        if let Some(ahead) = go_on(alloc, canvas, works, carried, list)? {
            return Ok(ahead);
        }
    }
    Err(DrawingError::TooMany)
}

// Takes a work apart and draws its simple node, or gives what stands at the end of these.
fn go_on<'a>(
    alloc: Global,
    canvas: &mut Canvas<'_>,
    works: &mut Vec<Work<'a>>,
    carried: &mut Carried,
    list: &mut Vec<Simple>,
) -> Result<Option<Ahead<'a>>, DrawingError> {
    if is_dead(canvas, carried) {
        return Ok(Some(Ahead::Dead));
    }
    let Some(work) = works.pop() else {
        return Ok(Some(Ahead::End));
    };
    let next = next_behind(alloc, canvas, work, works)?;
    draw_simple(alloc, canvas, &next, carried, list)?;
    Ok(ahead_of(next))
}

// Whether no run comes here. A branch that is to be drawn without runs is drawn without them from
// here on.
fn is_dead(canvas: &Canvas<'_>, carried: &mut Carried) -> bool {
    if !is_unreached(carried) {
        return false;
    }
    if !is_open(canvas) {
        return true;
    }
    *carried = None;
    false
}

// The next of a work that is taken off.
fn next_behind<'a>(
    alloc: Global,
    canvas: &Canvas<'_>,
    work: Work<'a>,
    works: &mut Vec<Work<'a>>,
) -> Result<Next<'a>, AllocError> {
    next_of(alloc, canvas.task, canvas.style, &work, works)
}

// Draws what comes next, where it is a simple node, and carries the runs over its statement.
fn draw_simple(
    alloc: Global,
    canvas: &mut Canvas<'_>,
    next: &Next<'_>,
    carried: &mut Carried,
    list: &mut Vec<Simple>,
) -> Result<(), DrawingError> {
    match next {
        Next::Simple {
            way,
            copy,
            statement,
        } => {
            put_simple(canvas, list, *way, *copy)?;
            carry_on(alloc, canvas, carried, *copy, *statement)
        }
        _ => Ok(()),
    }
}

// What stands at the end of simple nodes, where what comes next isn't one.
fn ahead_of<'a>(next: Next<'a>) -> Option<Ahead<'a>> {
    match next {
        Next::Nothing => None,
        Next::Simple { .. } => None,
        Next::Fork(fork) => Some(Ahead::Fork(fork)),
        Next::Loops(loops) => Some(Ahead::Loops(loops)),
    }
}

// Carries the runs over a statement of a copy.
fn carry_on(
    alloc: Global,
    canvas: &mut Canvas<'_>,
    carried: &mut Carried,
    copy: CopyName,
    statement: &Stmt,
) -> Result<(), DrawingError> {
    let moments = carried.take();
    *carried = carried_on(alloc, moments, copy, statement, &mut canvas.bound)?;
    Ok(())
}
