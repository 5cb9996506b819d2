// Which hole of the shared program an output hangs on. Nothing is stated of it: the line that it is
// shown in holds of any hole.
use sm_deps::{inputs, writes};
use sm_syntax::{Block, Fillings, Name, Outputs, Stmt, copy_stmt};
use sm_task::{Task, holes_of};
use std::alloc::{AllocError, Global};

/// The place among the shared program's holes of the last one that writes what an output needs
/// behind it, in some copy. Statements are taken from the last on; where one has holes and writes
/// such a name itself, it is its last hole.
pub(crate) fn deciding_hole(
    alloc: Global,
    task: &Task,
    holes: &[u32],
    output: Name,
) -> Result<usize, AllocError> {
    let list = task.shared.body.list.as_slice();
    let mut end = holes.len();
    for back in 0..list.len() {
        let k = list.len() - 1 - back;
        let one = some_of(alloc, list, k, k + 1)?;
        let own = holes_of(alloc, &one)?;
        let start = end.saturating_sub(own.len());
        if start < end {
            let behind = some_of(alloc, list, k + 1, list.len())?;
            let needed = inputs(alloc, &behind, output)?;
            if let Some(place) = last_writing(alloc, task, holes, start, end, &needed)? {
                return Ok(place);
            }
            if writes_some(alloc, &one, &needed)? {
                return Ok(end - 1);
            }
        }
        end = start;
    }
    Ok(holes.len().saturating_sub(1))
}

// The last of some holes whose filling writes one of some names.
fn last_writing(
    alloc: Global,
    task: &Task,
    holes: &[u32],
    start: usize,
    end: usize,
    names: &Outputs,
) -> Result<Option<usize>, AllocError> {
    let mut last = None;
    for place in start..end {
        if let Some(hole) = holes.get(place) {
            if is_filled_writing(alloc, task, *hole, names)? {
                last = Some(place);
            }
        }
    }
    Ok(last)
}

// Whether a copy's filling of a hole writes one of some names.
fn is_filled_writing(
    alloc: Global,
    task: &Task,
    hole: u32,
    names: &Outputs,
) -> Result<bool, AllocError> {
    let lists = &task.lists;
    Ok(
        fills_with(alloc, &lists.base, hole, names)?
            || fills_with(alloc, &lists.variant_a, hole, names)?
            || fills_with(alloc, &lists.variant_b, hole, names)?
            || fills_with(alloc, &lists.candidate, hole, names)?,
    )
}

// Whether a list fills a hole with a block that writes one of some names.
fn fills_with(
    alloc: Global,
    fillings: &Fillings,
    hole: u32,
    names: &Outputs,
) -> Result<bool, AllocError> {
    for filling in &fillings.list {
        if filling.hole == hole && writes_some(alloc, &filling.block, names)? {
            return Ok(true);
        }
    }
    Ok(false)
}

// Whether a block writes one of some names.
fn writes_some(alloc: Global, block: &Block, names: &Outputs) -> Result<bool, AllocError> {
    let written = writes(alloc, block)?;
    for x in &written.list {
        if names.list.contains(x) {
            return Ok(true);
        }
    }
    Ok(false)
}

// Equal statements to those from one place up to another.
fn some_of(alloc: Global, list: &[Stmt], from: usize, to: usize) -> Result<Block, AllocError> {
    let mut some = Vec::new(alloc);
    for k in from..to {
        if let Some(s) = list.get(k) {
            some.push(copy_stmt(alloc, s)?)?;
        }
    }
    Ok(Block { list: some })
}
