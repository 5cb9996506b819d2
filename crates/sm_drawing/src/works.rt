// What is still to be drawn, and what comes next.
use crate::beside::next_beside;
use crate::canvas::Style;
use crate::code::{FilledCode, Heads, copy_code, copy_heads};
use crate::shared::{next_each, next_fork, next_shared};
use sm_moves::{bodies, copy_rests};
use sm_plan::Continuation;
use sm_syntax::{Cond, CopyName, PerCopy, Stmt};
use sm_text::Task;
use std::alloc::{AllocError, Global};

/// How a copy does its first statement.
#[derive(Clone, Copy)]
pub(crate) enum Way {
    Statement,
    Summary,
}

/// The forks of some copies at an if of the shared code: those that are left to fork, and those
/// that took the first block.
#[derive(Drop)]
pub(crate) struct SharedForks<'a> {
    pub(crate) guard: &'a Cond,
    pub(crate) first: FilledCode<'a>,
    pub(crate) second: FilledCode<'a>,
    pub(crate) set: u8,
    pub(crate) left: u8,
    pub(crate) taken: u8,
}

/// Code of a set of copies that is still to be drawn.
pub(crate) enum Work<'a> {
    /// Shared code.
    Shared {
        code: FilledCode<'a>,
        set: u8,
    },
    /// The forks at an if of the shared code, and then its blocks.
    Forks(SharedForks<'a>),
    /// The first statement of each copy.
    Each {
        way: Way,
        heads: Heads<'a>,
        set: u8,
    },
    /// What is left of the fillings of a hole.
    Beside {
        rests: PerCopy<Continuation<'a>>,
        hole: u32,
        set: u8,
    },
}

// One call ends a value, and not one for each field: proofs of what has it stay small.
impl Drop for Work<'_> {
    fn drop(self) {
        match self {
            Work::Shared { code: _, set: _ } => {}
            Work::Forks(_) => {}
            Work::Each {
                way: _,
                heads: _,
                set: _,
            } => {}
            Work::Beside {
                rests: _,
                hole: _,
                set: _,
            } => {}
        }
    }
}

/// What loops run in their turns.
#[derive(Drop)]
pub(crate) enum LoopCode<'a> {
    Shared(FilledCode<'a>),
    Beside {
        rests: PerCopy<Continuation<'a>>,
        hole: u32,
    },
}

/// A fork of a copy, with what either branch begins with.
#[derive(Drop)]
pub(crate) struct ForkWork<'a> {
    pub(crate) copy: CopyName,
    pub(crate) guard: &'a Cond,
    pub(crate) one: Box<Work<'a>>,
    pub(crate) other: Box<Work<'a>>,
}

/// Loops of a set that run together.
#[derive(Drop)]
pub(crate) struct LoopWork<'a> {
    pub(crate) set: u8,
    pub(crate) heads: Heads<'a>,
    pub(crate) code: LoopCode<'a>,
}

/// What is drawn next.
#[derive(Drop)]
pub(crate) enum Next<'a> {
    /// Nothing: what is to be drawn was taken apart.
    Nothing,
    /// A statement of a copy.
    Simple {
        way: Way,
        copy: CopyName,
        statement: &'a Stmt,
    },
    Fork(ForkWork<'a>),
    Loops(LoopWork<'a>),
}

/// Work, once more.
pub(crate) fn copy_work<'a>(alloc: Global, work: &Work<'a>) -> Result<Work<'a>, AllocError> {
    match work {
        Work::Shared { code, set } => Ok(Work::Shared {
            code: copy_code(code),
            set: *set,
        }),
        Work::Forks(forks) => Ok(Work::Forks(copy_forks(forks, forks.left, forks.taken))),
        Work::Each { way, heads, set } => Ok(Work::Each {
            way: *way,
            heads: copy_heads(heads),
            set: *set,
        }),
        Work::Beside { rests, hole, set } => Ok(Work::Beside {
            rests: copy_rests(alloc, rests)?,
            hole: *hole,
            set: *set,
        }),
    }
}

/// Forks of which some are left, and of which some took the first block.
pub(crate) fn copy_forks<'a>(forks: &SharedForks<'a>, left: u8, taken: u8) -> SharedForks<'a> {
    SharedForks {
        guard: forks.guard,
        first: copy_code(&forks.first),
        second: copy_code(&forks.second),
        set: forks.set,
        left,
        taken,
    }
}

// Puts a work, once more, before others.
fn put_copy<'a>(
    alloc: Global,
    works: &mut Vec<Work<'a>>,
    work: &Work<'a>,
) -> Result<(), AllocError> {
    let copy = copy_work(alloc, work)?;
    put_work(works, copy)
}

/// Works, once more, with another one that comes first.
pub(crate) fn works_with<'a>(
    alloc: Global,
    works: &[Work<'a>],
    first: &Work<'a>,
) -> Result<Vec<Work<'a>>, AllocError> {
    let mut list = copy_works(alloc, works)?;
    put_copy(alloc, &mut list, first)?;
    Ok(list)
}

/// Works, once more.
pub(crate) fn copy_works<'a>(
    alloc: Global,
    works: &[Work<'a>],
) -> Result<Vec<Work<'a>>, AllocError> {
    let mut list = Vec::new(alloc);
    for work in works {
        put_copy(alloc, &mut list, work)?;
    }
    Ok(list)
}

/// What a turn of loops for a set draws.
pub(crate) fn turn_works<'a>(
    alloc: Global,
    code: &LoopCode<'a>,
    set: u8,
) -> Result<Vec<Work<'a>>, AllocError> {
    let first = turn_work(alloc, code, set)?;
    only_work(alloc, first)
}

/// A work alone.
pub(crate) fn only_work<'a>(alloc: Global, work: Work<'a>) -> Result<Vec<Work<'a>>, AllocError> {
    let mut list = Vec::new(alloc);
    put_work(&mut list, work)?;
    Ok(list)
}

// What is drawn first in a turn of loops for a set.
fn turn_work<'a>(alloc: Global, code: &LoopCode<'a>, set: u8) -> Result<Work<'a>, AllocError> {
    match code {
        LoopCode::Shared(code) => Ok(Work::Shared {
            code: copy_code(code),
            set,
        }),
        LoopCode::Beside { rests, hole } => Ok(Work::Beside {
            rests: bodies(alloc, rests, set)?,
            hole: *hole,
            set,
        }),
    }
}

/// Puts a work before others.
pub(crate) fn put_work<'a>(works: &mut Vec<Work<'a>>, work: Work<'a>) -> Result<(), AllocError> {
    works.push(work)?;
    Ok(())
}

/// A work in a box.
pub(crate) fn boxed_work<'a>(alloc: Global, work: Work<'a>) -> Result<Box<Work<'a>>, AllocError> {
    Ok(Box::new(alloc, work)?)
}

/// Takes work apart: what is drawn next, with what comes behind put on the works.
pub(crate) fn next_of<'a>(
    alloc: Global,
    task: &Task,
    style: Style,
    work: &Work<'a>,
    works: &mut Vec<Work<'a>>,
) -> Result<Next<'a>, AllocError> {
    match work {
        Work::Shared { code, set } => next_shared(alloc, task, style, code, *set, works),
        Work::Forks(forks) => next_fork(alloc, forks, works),
        Work::Each { way, heads, set } => next_each(*way, heads, *set, works),
        Work::Beside { rests, hole, set } => next_beside(
            alloc, task, style, rests, *hole, *set, works,
        ),
    }
}
