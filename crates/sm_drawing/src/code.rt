// Code that four copies have left, as statements of the filled programs.
use sm_moves::{copied, copy_rests, filling_at, has};
use sm_plan::Continuation;
use sm_syntax::{Block, Cond, CopyName, Fillings, PerCopy, Stmt, same_block, same_cond};
use std::alloc::{AllocError, Global};

/// Statements of the shared code, and those that they are filled with in each copy.
#[derive(Drop)]
pub(crate) struct FilledCode<'a> {
    pub(crate) shared: &'a [Stmt],
    pub(crate) pieces: PerCopy<&'a [Stmt]>,
}

/// The first statement of each copy, where there is one.
pub(crate) type Heads<'a> = PerCopy<Option<&'a Stmt>>;

/// Filled code that is cut behind the first of its shared statements.
#[derive(Drop)]
pub(crate) struct CutCode<'a> {
    pub(crate) first: PerCopy<&'a [Stmt]>,
    pub(crate) left: FilledCode<'a>,
}

// How many statements a hole is filled with.
fn filling_count(fillings: &Fillings, hole: u32) -> usize {
    match filling_at(fillings, hole) {
        Some(block) => block.list.len(),
        None => 0,
    }
}

// How many statements a shared statement is filled with.
fn filled_count(fillings: &Fillings, s: &Stmt) -> usize {
    match s {
        Stmt::Hole(hole) => filling_count(fillings, *hole),
        _ => 1,
    }
}

// Statements, cut behind so many, or behind all where there are fewer.
fn cut_at(list: &[Stmt], count: usize) -> (&[Stmt], &[Stmt]) {
    match list.split_at_checked(count) {
        Some(parts) => parts,
        None => (list, &[]),
    }
}

/// Filled code, cut behind the first shared statement, `first`, which the others follow.
pub(crate) fn cut_first<'a>(
    pieces: &PerCopy<&'a [Stmt]>,
    fillings: &PerCopy<Fillings>,
    first: &Stmt,
    others: &'a [Stmt],
) -> CutCode<'a> {
    let base = cut_at(pieces.base, filled_count(&fillings.base, first));
    let variant_a = cut_at(pieces.variant_a, filled_count(&fillings.variant_a, first));
    let variant_b = cut_at(pieces.variant_b, filled_count(&fillings.variant_b, first));
    let candidate = cut_at(pieces.candidate, filled_count(&fillings.candidate, first));
    CutCode {
        first: PerCopy {
            base: base.0,
            variant_a: variant_a.0,
            variant_b: variant_b.0,
            candidate: candidate.0,
        },
        left: FilledCode {
            shared: others,
            pieces: PerCopy {
                base: base.1,
                variant_a: variant_a.1,
                variant_b: variant_b.1,
                candidate: candidate.1,
            },
        },
    }
}

/// The first of each copy's statements.
pub(crate) fn heads_of<'a>(pieces: &PerCopy<&'a [Stmt]>) -> Heads<'a> {
    PerCopy {
        base: pieces.base.first(),
        variant_a: pieces.variant_a.first(),
        variant_b: pieces.variant_b.first(),
        candidate: pieces.candidate.first(),
    }
}

/// The first statement of what each copy has left.
pub(crate) fn heads_left<'a>(rests: &PerCopy<Continuation<'a>>) -> Heads<'a> {
    PerCopy {
        base: rests.base.first(),
        variant_a: rests.variant_a.first(),
        variant_b: rests.variant_b.first(),
        candidate: rests.candidate.first(),
    }
}

/// First statements, once more.
pub(crate) fn copy_heads<'a>(heads: &Heads<'a>) -> Heads<'a> {
    PerCopy {
        base: heads.base,
        variant_a: heads.variant_a,
        variant_b: heads.variant_b,
        candidate: heads.candidate,
    }
}

/// Filled code, once more.
pub(crate) fn copy_code<'a>(code: &FilledCode<'a>) -> FilledCode<'a> {
    FilledCode {
        shared: code.shared,
        pieces: copied(&code.pieces),
    }
}

/// The guard and the body of a statement that is a loop.
pub(crate) fn loop_of<'a>(statement: Option<&'a Stmt>) -> Option<(&'a Cond, &'a Block)> {
    match statement {
        Some(Stmt::While(guard, body)) => Some((guard, body)),
        _ => None,
    }
}

/// The guard of a statement that is an if.
pub(crate) fn fork_guard<'a>(statement: Option<&'a Stmt>) -> Option<&'a Cond> {
    match statement {
        Some(Stmt::If(guard, _, _)) => Some(guard),
        _ => None,
    }
}

/// Whether a statement is skip or an assignment.
pub(crate) fn is_simple(statement: Option<&Stmt>) -> bool {
    match statement {
        Some(Stmt::Skip) => true,
        Some(Stmt::Assign(_, _)) => true,
        Some(Stmt::Store(_, _, _)) => true,
        _ => false,
    }
}

/// Whether two statements are one loop, or one if.
pub(crate) fn are_same(one: &Stmt, other: &Stmt) -> bool {
    match (one, other) {
        (Stmt::While(b, c), Stmt::While(d, e)) => same_cond(b, d) && same_block(c, e),
        (Stmt::If(b, c, d), Stmt::If(e, f, g)) => {
            same_cond(b, e) && same_block(c, f) && same_block(d, g)
        }
        _ => false,
    }
}

// Whether a loop or an if is among some statements.
fn stands_among(list: &[Stmt], statement: &Stmt) -> bool {
    for s in list {
        if are_same(s, statement) {
            return true;
        }
    }
    false
}

// Whether a loop or an if is among the own statements of a filling.
fn is_among(fillings: &Fillings, hole: u32, statement: &Stmt) -> bool {
    match filling_at(fillings, hole) {
        Some(block) => stands_among(&block.list, statement),
        None => false,
    }
}

/// Whether a statement is a loop that is among the own statements of a hole in all four fillings.
pub(crate) fn is_common(lists: &PerCopy<Fillings>, hole: u32, statement: Option<&Stmt>) -> bool {
    match statement {
        Some(s) => {
            loop_of(statement).is_some()
                && is_among(&lists.base, hole, s)
                && is_among(&lists.variant_a, hole, s)
                && is_among(&lists.variant_b, hole, s)
                && is_among(&lists.candidate, hole, s)
        }
        None => false,
    }
}

// How many of some statements are loops.
fn count_loops(list: &[Stmt]) -> usize {
    let mut count: usize = 0;
    for s in list {
        if loop_of(Some(s)).is_some() {
            count = count.saturating_add(1);
        }
    }
    count
}

/// How many loops are left among a copy's own statements.
pub(crate) fn loops_left(rest: &Continuation<'_>) -> usize {
    let mut count: usize = 0;
    for frame in &rest.frames {
        count = count.saturating_add(count_loops(*frame));
    }
    count
}

/// What is left of copies after the first statement of each of a set.
pub(crate) fn rests_behind<'a>(
    alloc: Global,
    rests: &PerCopy<Continuation<'a>>,
    set: u8,
) -> Result<PerCopy<Continuation<'a>>, AllocError> {
    let mut behind = copy_rests(alloc, rests)?;
    drop_first(&mut behind.base, set, CopyName::O);
    drop_first(&mut behind.variant_a, set, CopyName::A);
    drop_first(&mut behind.variant_b, set, CopyName::B);
    drop_first(&mut behind.candidate, set, CopyName::M);
    Ok(behind)
}

// Drops the first statement of what is left of a copy, where it is of the set.
fn drop_first(rest: &mut Continuation<'_>, set: u8, copy: CopyName) {
    if has(set, copy) {
        rest.drop_front(1);
    }
}
