// What comes next of shared code.
use crate::canvas::Style;
use crate::code::{CutCode, FilledCode, Heads, copy_code, copy_heads, cut_first, heads_of};
use crate::works::{
    ForkWork, LoopCode, LoopWork, Next, SharedForks, Way, Work, boxed_work, copy_forks, put_work,
};
use sm_moves::{TwoEach, bit, has_hole, inside, is_empty, least, rests_in, with_member, without};
use sm_syntax::{Block, Cond, CopyName, PerCopy, Stmt};
use sm_text::Task;
use std::alloc::{AllocError, Global};

/// The next of shared code.
pub(crate) fn next_shared<'a>(
    alloc: Global,
    task: &Task,
    style: Style,
    code: &FilledCode<'a>,
    set: u8,
    works: &mut Vec<Work<'a>>,
) -> Result<Next<'a>, AllocError> {
    if is_empty(set) {
        return Ok(Next::Nothing);
    }
    let Some((statement, others)) = code.shared.split_first() else {
        return Ok(Next::Nothing);
    };
    let CutCode { first, left } = cut_first(&code.pieces, &task.lists, statement, others);
    put_work(works, Work::Shared { code: left, set })?;
    next_statement(alloc, style, statement, &first, set, works)
}

// Whether a shared statement is summed up: a while without a hole, and, where plans are coarse, an
// if without one.
fn is_summed_up(style: Style, statement: &Stmt) -> bool {
    match statement {
        Stmt::If(_, c, d) => style.is_coarse && !has_hole(c) && !has_hole(d),
        Stmt::While(_, c) => !has_hole(c),
        _ => false,
    }
}

// The next of a shared statement.
fn next_statement<'a>(
    alloc: Global,
    style: Style,
    statement: &'a Stmt,
    pieces: &PerCopy<&'a [Stmt]>,
    set: u8,
    works: &mut Vec<Work<'a>>,
) -> Result<Next<'a>, AllocError> {
    if is_summed_up(style, statement) {
        return next_head(Way::Summary, pieces, set, works);
    }
    match statement {
        Stmt::If(guard, c, d) => next_fork(alloc, &shared_forks(guard, c, d, pieces, set), works),
        Stmt::While(_, c) => Ok(next_while(c, pieces, set)),
        Stmt::Hole(hole) => next_hole(alloc, *hole, pieces, set, works),
        _ => next_head(Way::Statement, pieces, set, works),
    }
}

// The next of the first statements of pieces, for the copies of a set.
fn next_head<'a>(
    way: Way,
    pieces: &PerCopy<&'a [Stmt]>,
    set: u8,
    works: &mut Vec<Work<'a>>,
) -> Result<Next<'a>, AllocError> {
    next_each(way, &heads_of(pieces), set, works)
}

// The forks of a set of copies at an if of the shared code.
fn shared_forks<'a>(
    guard: &'a Cond,
    c: &'a Block,
    d: &'a Block,
    pieces: &PerCopy<&'a [Stmt]>,
    set: u8,
) -> SharedForks<'a> {
    let TwoEach { first, second } = inside(pieces);
    SharedForks {
        guard,
        first: FilledCode {
            shared: &c.list,
            pieces: first,
        },
        second: FilledCode {
            shared: &d.list,
            pieces: second,
        },
        set,
        left: set,
        taken: 0,
    }
}

// The next of a while of the shared code that has a hole.
fn next_while<'a>(c: &'a Block, pieces: &PerCopy<&'a [Stmt]>, set: u8) -> Next<'a> {
    let TwoEach { first, .. } = inside(pieces);
    let code = FilledCode {
        shared: &c.list,
        pieces: first,
    };
    Next::Loops(LoopWork {
        set,
        heads: heads_of(pieces),
        code: LoopCode::Shared(code),
    })
}

// The next of a hole: its fillings, side by side.
fn next_hole<'a>(
    alloc: Global,
    hole: u32,
    pieces: &PerCopy<&'a [Stmt]>,
    set: u8,
    works: &mut Vec<Work<'a>>,
) -> Result<Next<'a>, AllocError> {
    let rests = rests_in(alloc, pieces, set)?;
    put_work(works, Work::Beside { rests, hole, set })?;
    Ok(Next::Nothing)
}

/// The next of forks at an if of the shared code.
pub(crate) fn next_fork<'a>(
    alloc: Global,
    forks: &SharedForks<'a>,
    works: &mut Vec<Work<'a>>,
) -> Result<Next<'a>, AllocError> {
    match least(forks.left) {
        Some(copy) => Ok(Next::Fork(fork_of(alloc, forks, copy)?)),
        None => {
            put_branches(forks, works)?;
            Ok(Next::Nothing)
        }
    }
}

// Both branches of an if, for the copies that take them.
fn put_branches<'a>(forks: &SharedForks<'a>, works: &mut Vec<Work<'a>>) -> Result<(), AllocError> {
    let others = without(forks.set, forks.taken);
    put_shared(works, &forks.second, others)?;
    put_shared(works, &forks.first, forks.taken)
}

// Shared code for the copies of a set, before other works.
fn put_shared<'a>(
    works: &mut Vec<Work<'a>>,
    code: &FilledCode<'a>,
    set: u8,
) -> Result<(), AllocError> {
    let code = copy_code(code);
    put_work(works, Work::Shared { code, set })
}

// The fork of a copy, with the forks of the other copies behind either branch.
fn fork_of<'a>(
    alloc: Global,
    forks: &SharedForks<'a>,
    copy: CopyName,
) -> Result<ForkWork<'a>, AllocError> {
    let taken = with_member(forks.taken, copy);
    let one = forks_left(alloc, forks, copy, taken)?;
    let other = forks_left(alloc, forks, copy, forks.taken)?;
    Ok(ForkWork {
        copy,
        guard: forks.guard,
        one,
        other,
    })
}

// The forks that are left behind that of a copy, where these copies take the first branch.
fn forks_left<'a>(
    alloc: Global,
    forks: &SharedForks<'a>,
    copy: CopyName,
    taken: u8,
) -> Result<Box<Work<'a>>, AllocError> {
    let left = without(forks.left, bit(copy));
    boxed_work(alloc, Work::Forks(copy_forks(forks, left, taken)))
}

/// The next of the first statements of the copies of a set.
pub(crate) fn next_each<'a>(
    way: Way,
    heads: &Heads<'a>,
    set: u8,
    works: &mut Vec<Work<'a>>,
) -> Result<Next<'a>, AllocError> {
    let Some(copy) = least(set) else {
        return Ok(Next::Nothing);
    };
    let heads_left = copy_heads(heads);
    let set = without(set, bit(copy));
    let others = Work::Each {
        way,
        heads: heads_left,
        set,
    };
    put_work(works, others)?;
    match *heads.get(copy) {
        Some(statement) => Ok(Next::Simple {
            way,
            copy,
            statement,
        }),
        None => Ok(Next::Nothing),
    }
}
