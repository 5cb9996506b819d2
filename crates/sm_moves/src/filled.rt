// The statements that shared code is filled with in each copy.
ghost use Rattle.std.specs.Prelude.{◌≡◌, ◌≤◌, ◌-◌, take, drop, length, if◌then◌else◌, IfOk, IfSome, IfNone};
ghost use Rattle.sm_syntax.specs.claim.ConflictFree.{Copy};
ghost use Rattle.sm_syntax.specs.claim.Fill.{filling, fill};
ghost use Rattle.sm_syntax.specs.claim.Syntax.{Code, End, append};
ghost use Rattle.sm_syntax.specs.trees.Copies.{copy_named, of_copy};
ghost use Rattle.sm_syntax.specs.trees.Programs.{fillings_of};
ghost use Rattle.sm_syntax.specs.trees.Views.{statement_of, code_of};
ghost use Rattle.sm_plan.specs.Copies.{has};
ghost use Rattle.sm_plan.specs.Masks.{set_of};
ghost use Rattle.sm_plan.specs.Views.{code_before, rest_code};
ghost use Rattle.sm_moves.specs.CodeShapes.{own_statements};
ghost use Rattle.sm_moves.specs.FilledCode.{piece_of, first_inside, second_inside};

use crate::masks;
use sm_plan::Continuation;
use sm_syntax::{Block, CopyName, Fillings, PerCopy, Stmt};
use std::alloc::{AllocError, Global};

/// A block of the shared code, and the statements that it is filled with in each copy.
#[derive(Drop)]
pub struct FilledBlock<'s, 'a> {
    pub shared: &'s Block,
    pub filled: PerCopy<&'a [Stmt]>,
}

/// Two lists of statements of each copy.
#[derive(Drop)]
pub struct TwoEach<'a> {
    pub first: PerCopy<&'a [Stmt]>,
    pub second: PerCopy<&'a [Stmt]>,
}

/// The filling of a hole.
pub fn filling_at(fillings: &Fillings, hole: u32) -> Option<&Block>
    ensures some { IfSome result (λ b. code_of b.now ≡ filling (fillings_of fillings.now) hole) }
    ensures none { IfNone result (filling (fillings_of fillings.now) hole ≡ End) }
{
    for f in &fillings.list {
        if f.hole == hole {
            return Some(&f.block);
        }
    }
    None
}

// How many statements a filling has.
fn filling_count(fillings: &Fillings, hole: u32) -> usize
    ensures { result ≡ own_statements (filling (fillings_of fillings.now) hole) }
{
    match filling_at(fillings, hole) {
        Some(block) => block.list.len(),
        None => 0,
    }
}

// How many statements a statement is filled with.
#[tactic(auto, using(crate::proofs::WalksLemmas::own_counts))]
fn filled_count(fillings: &Fillings, s: &Stmt) -> usize
    ensures { let code = statement_of s.now End in
        result ≡ own_statements (fill (fillings_of fillings.now) code) }
{
    match s {
        Stmt::Skip => 1,
        Stmt::Assign(_, _) => 1,
        Stmt::Store(_, _, _) => 1,
        Stmt::If(_, _, _) => 1,
        Stmt::While(_, _) => 1,
        Stmt::Hole(hole) => filling_count(fillings, *hole),
    }
}

// The statements before a place.
fn first_part(list: &[Stmt], place: usize) -> &[Stmt]
    requires { place ≤ length list.now }
    ensures { result.now ≡ take place list.now }
{
    &list[..place]
}

// The statements from a place on.
fn last_part(list: &[Stmt], place: usize) -> &[Stmt]
    requires { place ≤ length list.now }
    ensures { result.now ≡ drop place list.now }
{
    &list[place..]
}

// Where the last statements begin.
fn place_before(len: usize, count: usize) -> usize
    ensures { result ≡ len - count }
{
    len.saturating_sub(count)
}

// The statements of a copy, cut before those that the last shared statement is filled with.
fn cut_one<'a>(list: &'a [Stmt], fillings: &Fillings, last: &Stmt) -> (&'a [Stmt], &'a [Stmt])
    ensures { (k : Code) → let fs = fillings_of fillings.now in
        let s = statement_of last.now End in
        code_before list.now End ≡ fill fs (append k s) →
        (code_before result.0.now End ≡ fill fs k) × (code_before result.1.now End ≡ fill fs s) }
{
    let count = filled_count(fillings, last);
    let place = place_before(list.len(), count);
    (first_part(list, place), last_part(list, place))
}

/// The statements of each copy, cut before those that the last shared statement is filled with.
pub fn cut<'a>(
    pieces: &PerCopy<&'a [Stmt]>,
    fillings: &PerCopy<Fillings>,
    last: &Stmt,
) -> TwoEach<'a>
    ensures { (k : Code) (c : Copy) → let fs = fillings_of (of_copy fillings.now c) in
        let s = statement_of last.now End in
        piece_of pieces.now c ≡ fill fs (append k s) →
        (piece_of result.first c ≡ fill fs k) × (piece_of result.second c ≡ fill fs s) }
{
    let base = cut_one(pieces.base, &fillings.base, last);
    let variant_a = cut_one(pieces.variant_a, &fillings.variant_a, last);
    let variant_b = cut_one(pieces.variant_b, &fillings.variant_b, last);
    let candidate = cut_one(pieces.candidate, &fillings.candidate, last);
    TwoEach {
        first: PerCopy {
            base: base.0,
            variant_a: variant_a.0,
            variant_b: variant_b.0,
            candidate: candidate.0,
        },
        second: PerCopy {
            base: base.1,
            variant_a: variant_a.1,
            variant_b: variant_b.1,
            candidate: candidate.1,
        },
    }
}

// The blocks of a statement, nothing where it has none.
fn blocks_of(s: &Stmt) -> (&[Stmt], &[Stmt])
    ensures first { (k : Code) →
        code_before result.0.now End ≡ first_inside (statement_of s.now k) }
    ensures second { (k : Code) →
        code_before result.1.now End ≡ second_inside (statement_of s.now k) }
{
    match s {
        Stmt::Skip => (&[], &[]),
        Stmt::Assign(_, _) => (&[], &[]),
        Stmt::Store(_, _, _) => (&[], &[]),
        Stmt::If(_, c, d) => (&c.list, &d.list),
        Stmt::While(_, c) => (&c.list, &[]),
        Stmt::Hole(_) => (&[], &[]),
    }
}

// The blocks of the first of some statements.
fn first_blocks(list: &[Stmt]) -> (&[Stmt], &[Stmt])
    ensures first { code_before result.0.now End ≡ first_inside (code_before list.now End) }
    ensures second { code_before result.1.now End ≡ second_inside (code_before list.now End) }
{
    match list.first() {
        Some(s) => blocks_of(s),
        None => (&[], &[]),
    }
}

/// The blocks of the first of each copy's statements.
pub fn inside<'a>(pieces: &PerCopy<&'a [Stmt]>) -> TwoEach<'a>
    ensures first { (c : Copy) → piece_of result.first c ≡ first_inside (piece_of pieces.now c) }
    ensures second { (c : Copy) → piece_of result.second c ≡ second_inside (piece_of pieces.now c) }
{
    let base = first_blocks(pieces.base);
    let variant_a = first_blocks(pieces.variant_a);
    let variant_b = first_blocks(pieces.variant_b);
    let candidate = first_blocks(pieces.candidate);
    TwoEach {
        first: PerCopy {
            base: base.0,
            variant_a: variant_a.0,
            variant_b: variant_b.0,
            candidate: candidate.0,
        },
        second: PerCopy {
            base: base.1,
            variant_a: variant_a.1,
            variant_b: variant_b.1,
            candidate: candidate.1,
        },
    }
}

/// These statements once more.
pub fn copied<'a>(pieces: &PerCopy<&'a [Stmt]>) -> PerCopy<&'a [Stmt]>
    ensures { (c : Copy) → piece_of result c ≡ piece_of pieces.now c }
{
    PerCopy {
        base: pieces.base,
        variant_a: pieces.variant_a,
        variant_b: pieces.variant_b,
        candidate: pieces.candidate,
    }
}

/// The statements of whole blocks.
pub fn statements(blocks: &PerCopy<Block>) -> PerCopy<&[Stmt]>
    ensures { (c : Copy) → piece_of result c ≡ code_of (of_copy blocks.now c) }
{
    PerCopy {
        base: &blocks.base.list,
        variant_a: &blocks.variant_a.list,
        variant_b: &blocks.variant_b.list,
        candidate: &blocks.candidate.list,
    }
}

// Statements, as what is left of a program.
fn rest_of<'a>(alloc: Global, list: &'a [Stmt]) -> Result<Continuation<'a>, AllocError>
    ensures { IfOk result (λ r. rest_code r ≡ code_before list.now End) }
{
    let mut frames = Vec::new(alloc);
    frames.push(list)?;
    Ok(Continuation { frames })
}

// Statements of a copy as what is left of a program, where the copy is in a set, and else nothing.
fn rest_in<'a>(
    alloc: Global,
    list: &'a [Stmt],
    set: u8,
    copy: CopyName,
) -> Result<Continuation<'a>, AllocError>
    ensures { IfOk result (λ r. rest_code r
        ≡ (if has (set_of set) (copy_named copy) then code_before list.now End else End)) }
{
    if masks::has(set, copy) {
        rest_of(alloc, list)
    } else {
        Ok(Continuation::empty(alloc))
    }
}

/// The statements of the copies of a set, nothing for the others, as what is left of programs.
pub fn rests_in<'a>(
    alloc: Global,
    pieces: &PerCopy<&'a [Stmt]>,
    set: u8,
) -> Result<PerCopy<Continuation<'a>>, AllocError>
    ensures { (c : Copy) → IfOk result (λ p. rest_code (of_copy p c)
        ≡ (if has (set_of set) c then piece_of pieces.now c else End)) }
{
    Ok(PerCopy {
        base: rest_in(alloc, pieces.base, set, CopyName::O)?,
        variant_a: rest_in(alloc, pieces.variant_a, set, CopyName::A)?,
        variant_b: rest_in(alloc, pieces.variant_b, set, CopyName::B)?,
        candidate: rest_in(alloc, pieces.candidate, set, CopyName::M)?,
    })
}
