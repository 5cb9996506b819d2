// What comes next of the fillings of a hole, side by side.
use crate::canvas::Style;
use crate::code::{
    Heads, are_same, copy_heads, fork_guard, heads_left, is_common, is_simple, loop_of, loops_left,
    rests_behind,
};
use crate::shared::next_each;
use crate::sides::COPIES;
use crate::works::{ForkWork, LoopCode, LoopWork, Next, Way, Work, boxed_work, put_work};
use sm_moves::{bit, copy_rests, fork, has, is_empty, least, with_member};
use sm_plan::Continuation;
use sm_syntax::{CopyName, PerCopy, Stmt};
use sm_text::Task;
use std::alloc::{AllocError, Global};

// What the copies of a set do next with what is left of a hole's fillings.
#[derive(Clone, Copy)]
enum BesideMove {
    Done,
    // The first statements of some copies, done in a way.
    Each(Way, u8),
    Fork(CopyName),
    Loops(u8),
}

// The copies of a set that have something left.
fn copies_left(heads: &Heads<'_>, set: u8) -> u8 {
    let mut left = 0;
    for copy in COPIES {
        if has(set, copy) && heads.get(copy).is_some() {
            left = with_member(left, copy);
        }
    }
    left
}

// Whether a copy begins with a loop or an if, where it is of a set.
fn begins_with(heads: &Heads<'_>, set: u8, statement: &Stmt, copy: CopyName) -> bool {
    if !has(set, copy) {
        return true;
    }
    match *heads.get(copy) {
        Some(first) => are_same(statement, first),
        None => false,
    }
}

// Whether all copies of a set begin with a loop or an if.
fn all_begin_with(heads: &Heads<'_>, set: u8, statement: &Stmt) -> bool {
    for copy in COPIES {
        if !begins_with(heads, set, statement, copy) {
            return false;
        }
    }
    true
}

// Whether all copies of a set begin with one loop, or with one if.
fn begin_alike(heads: &Heads<'_>, set: u8) -> bool {
    let Some(first) = least(set) else {
        return false;
    };
    match *heads.get(first) {
        Some(statement) => all_begin_with(heads, set, statement),
        None => false,
    }
}

// The least copy of a set that begins with skip or an assignment.
fn least_simple(heads: &Heads<'_>, set: u8) -> Option<CopyName> {
    for copy in COPIES {
        if has(set, copy) && is_simple(*heads.get(copy)) {
            return Some(copy);
        }
    }
    None
}

// The least copy of a set that begins with a loop that all fillings of a hole have.
fn least_common(task: &Task, hole: u32, heads: &Heads<'_>, set: u8) -> Option<CopyName> {
    for copy in COPIES {
        if has(set, copy) && is_common(&task.lists, hole, *heads.get(copy)) {
            return Some(copy);
        }
    }
    None
}

// The least copy of a set that begins with an if.
fn least_fork(heads: &Heads<'_>, set: u8) -> Option<CopyName> {
    for copy in COPIES {
        if has(set, copy) && fork_guard(*heads.get(copy)).is_some() {
            return Some(copy);
        }
    }
    None
}

// The least number of loops that a copy of a set has left.
fn fewest_loops(rests: &PerCopy<Continuation<'_>>, set: u8) -> usize {
    let mut fewest = usize::MAX;
    for copy in COPIES {
        if has(set, copy) {
            fewest = fewest.min(loops_left(rests.get(copy)));
        }
    }
    fewest
}

// The least copy of a set that has more loops left than another.
fn least_with_more(rests: &PerCopy<Continuation<'_>>, set: u8) -> Option<CopyName> {
    let fewest = fewest_loops(rests, set);
    for copy in COPIES {
        if has(set, copy) && loops_left(rests.get(copy)) > fewest {
            return Some(copy);
        }
    }
    None
}

// Whether the least copy of a set begins with a loop.
fn is_loop_first(heads: &Heads<'_>, set: u8) -> bool {
    match least(set) {
        Some(copy) => loop_of(*heads.get(copy)).is_some(),
        None => false,
    }
}

// The copies that summarize their first statement: all that have something left, where they begin
// with one statement, or one that begins with a loop that all fillings have.
fn summarized(
    task: &Task,
    style: Style,
    heads: &Heads<'_>,
    hole: u32,
    set: u8,
    left: u8,
) -> Option<u8> {
    let alike = begin_alike(heads, left);
    let is_loop = is_loop_first(heads, left);
    if alike && is_loop && (!style.is_second || left == set) {
        return Some(left);
    }
    if let Some(copy) = least_common(task, hole, heads, left) {
        return Some(bit(copy));
    }
    if style.is_coarse && alike && !is_loop && left == set {
        return Some(left);
    }
    None
}

// What the copies of a set do next.
fn beside_move(
    task: &Task,
    style: Style,
    rests: &PerCopy<Continuation<'_>>,
    heads: &Heads<'_>,
    hole: u32,
    set: u8,
) -> BesideMove {
    let left = copies_left(heads, set);
    if is_empty(left) {
        return BesideMove::Done;
    }
    if let Some(copy) = least_simple(heads, left) {
        return BesideMove::Each(Way::Statement, bit(copy));
    }
    if let Some(some) = summarized(task, style, heads, hole, set, left) {
        return BesideMove::Each(Way::Summary, some);
    }
    if let Some(copy) = least_fork(heads, left) {
        return BesideMove::Fork(copy);
    }
    last_move(style, rests, left)
}

// What copies do that begin with loops: one that has more of them left than another goes on alone,
// where this is asked for, or else all run together.
fn last_move(style: Style, rests: &PerCopy<Continuation<'_>>, left: u8) -> BesideMove {
    if style.is_second {
        if let Some(copy) = least_with_more(rests, left) {
            return BesideMove::Each(Way::Summary, bit(copy));
        }
    }
    BesideMove::Loops(left)
}

/// The next of what is left of the fillings of a hole.
pub(crate) fn next_beside<'a>(
    alloc: Global,
    task: &Task,
    style: Style,
    rests: &PerCopy<Continuation<'a>>,
    hole: u32,
    set: u8,
    works: &mut Vec<Work<'a>>,
) -> Result<Next<'a>, AllocError> {
    let heads = heads_left(rests);
    let chosen = beside_move(task, style, rests, &heads, hole, set);
    next_by(alloc, rests, &heads, hole, set, chosen, works)
}

// The next of what is left of the fillings of a hole, by what the copies do.
fn next_by<'a>(
    alloc: Global,
    rests: &PerCopy<Continuation<'a>>,
    heads: &Heads<'a>,
    hole: u32,
    set: u8,
    chosen: BesideMove,
    works: &mut Vec<Work<'a>>,
) -> Result<Next<'a>, AllocError> {
    match chosen {
        BesideMove::Done => Ok(Next::Nothing),
        BesideMove::Each(way, some) => {
            put_behind(alloc, rests, hole, set, some, works)?;
            next_each(way, heads, some, works)
        }
        BesideMove::Fork(copy) => next_beside_fork(alloc, rests, heads, hole, set, copy),
        BesideMove::Loops(some) => {
            put_behind(alloc, rests, hole, set, some, works)?;
            next_beside_loops(alloc, rests, heads, hole, some)
        }
    }
}

// Puts what is left behind the first statement of each of some copies on the works.
fn put_behind<'a>(
    alloc: Global,
    rests: &PerCopy<Continuation<'a>>,
    hole: u32,
    set: u8,
    some: u8,
    works: &mut Vec<Work<'a>>,
) -> Result<(), AllocError> {
    let rests = rests_behind(alloc, rests, some)?;
    put_work(works, Work::Beside { rests, hole, set })
}

// The loops of some copies, whose bodies run beside each other.
fn next_beside_loops<'a>(
    alloc: Global,
    rests: &PerCopy<Continuation<'a>>,
    heads: &Heads<'a>,
    hole: u32,
    some: u8,
) -> Result<Next<'a>, AllocError> {
    let rests = copy_rests(alloc, rests)?;
    Ok(Next::Loops(LoopWork {
        set: some,
        heads: copy_heads(heads),
        code: LoopCode::Beside { rests, hole },
    }))
}

// What is left of the fillings in a branch of a copy's fork.
fn beside_branch<'a>(
    alloc: Global,
    rests: &PerCopy<Continuation<'a>>,
    hole: u32,
    set: u8,
    copy: CopyName,
    is_first: bool,
) -> Result<Box<Work<'a>>, AllocError> {
    let mut rests = copy_rests(alloc, rests)?;
    fork(&mut rests, copy, is_first)?;
    boxed_work(alloc, Work::Beside { rests, hole, set })
}

// The fork of a copy, with what is left of the fillings in either branch.
fn next_beside_fork<'a>(
    alloc: Global,
    rests: &PerCopy<Continuation<'a>>,
    heads: &Heads<'a>,
    hole: u32,
    set: u8,
    copy: CopyName,
) -> Result<Next<'a>, AllocError> {
    let Some(guard) = fork_guard(*heads.get(copy)) else {
        return Ok(Next::Nothing);
    };
    let one = beside_branch(alloc, rests, hole, set, copy, true)?;
    let other = beside_branch(alloc, rests, hole, set, copy, false)?;
    Ok(Next::Fork(ForkWork {
        copy,
        guard,
        one,
        other,
    }))
}
