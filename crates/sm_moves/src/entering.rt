// The code that copies go on with at a branching node.
ghost use Rattle.std.specs.Prelude.{◌≡◌, IfOk, OnOk, MatchOption, if◌then◌else◌};
ghost use Rattle.sm_syntax.specs.claim.ConflictFree.{Copy};
ghost use Rattle.sm_syntax.specs.claim.Syntax.{End, append};
ghost use Rattle.sm_syntax.specs.trees.Copies.{copy_named};
ghost use Rattle.sm_syntax.specs.trees.Views.{code_of};
ghost use Rattle.sm_plan.specs.Copies as sets;
ghost use Rattle.sm_plan.specs.Copies.{with_copy};
ghost use Rattle.sm_plan.specs.Masks.{set_of};
ghost use Rattle.sm_plan.specs.Statements.{loop_body, rest_after};
ghost use Rattle.sm_plan.specs.Views.{rest_code};
ghost use Rattle.sm_moves.specs.CodeShapes.{by_first_block, by_second_block};
ghost use Rattle.sm_moves.specs.CopySets.{only_in};
ghost use Rattle.sm_moves.specs.Rests.{codes_in};

use crate::masks::{bit, has};
use sm_plan::Continuation;
use sm_syntax::{Block, CopyName, PerCopy, Stmt};
use std::alloc::{AllocError, Global};

/// A copy of what is left of each program.
pub fn copy_rests<'a>(
    alloc: Global,
    rests: &PerCopy<Continuation<'a>>,
) -> Result<PerCopy<Continuation<'a>>, AllocError>
    ensures { (c : Copy) → IfOk result (λ p. codes_in p c ≡ codes_in rests.now c) }
{
    Ok(PerCopy {
        base: rests.base.copy(alloc)?,
        variant_a: rests.variant_a.copy(alloc)?,
        variant_b: rests.variant_b.copy(alloc)?,
        candidate: rests.candidate.copy(alloc)?,
    })
}

// The body of the loop that comes next, nothing where there is none.
fn body_of<'a>(alloc: Global, rest: &Continuation<'a>) -> Result<Continuation<'a>, AllocError>
    ensures { IfOk result (λ r. rest_code r ≡ loop_body (rest_code rest.now)) }
{
    match rest.first_loop() {
        Some((_, body)) => Continuation::of(alloc, body),
        None => Ok(Continuation::empty(alloc)),
    }
}

// The body of a copy's loop, where the copy is in a set, and else nothing.
fn body_in<'a>(
    alloc: Global,
    rest: &Continuation<'a>,
    set: u8,
    copy: CopyName,
) -> Result<Continuation<'a>, AllocError>
    ensures { IfOk result (λ r. rest_code r
        ≡ (if sets.has (set_of set) (copy_named copy) then loop_body (rest_code rest.now)
        else End)) }
{
    if has(set, copy) {
        body_of(alloc, rest)
    } else {
        Ok(Continuation::empty(alloc))
    }
}

/// The bodies of the loops of a set's copies, nothing for the others.
pub fn bodies<'a>(
    alloc: Global,
    rests: &PerCopy<Continuation<'a>>,
    set: u8,
) -> Result<PerCopy<Continuation<'a>>, AllocError>
    ensures { (c : Copy) → IfOk result (λ p. codes_in p c
        ≡ only_in (set_of set) (λ d. loop_body (codes_in rests.now d)) c) }
{
    Ok(PerCopy {
        base: body_in(alloc, &rests.base, set, CopyName::O)?,
        variant_a: body_in(alloc, &rests.variant_a, set, CopyName::A)?,
        variant_b: body_in(alloc, &rests.variant_b, set, CopyName::B)?,
        candidate: body_in(alloc, &rests.candidate, set, CopyName::M)?,
    })
}

// The blocks of the if that comes next.
fn first_blocks<'a>(rest: &Continuation<'a>) -> Option<(&'a Block, &'a Block)>
    ensures { let code = rest_code rest.now in let left = rest_after 1 code in MatchOption result
        ((by_first_block code ≡ code) × (by_second_block code ≡ code))
        (λ p. (by_first_block code ≡ append (code_of p.0.now) left)
        × (by_second_block code ≡ append (code_of p.1.now) left)) }
{
    match rest.first() {
        Some(Stmt::If(_, first, second)) => Some((first, second)),
        _ => None,
    }
}

// One of two blocks.
fn chosen<'a>(is_first: bool, first: &'a Block, second: &'a Block) -> &'a Block
    ensures { code_of result.now ≡ (if is_first then code_of first.now else code_of second.now) }
{
    if is_first { first } else { second }
}

// Goes on by a block of the if that comes next.
fn enter<'a>(rest: &mut Continuation<'a>, is_first: bool) -> Result<(), AllocError>
    ensures { let code = rest_code rest.old in OnOk result (rest_code rest.new
        ≡ (if is_first then by_first_block code else by_second_block code)) }
{
    let Some((first, second)) = first_blocks(rest) else {
        return Ok(());
    };
    rest.drop_front(1);
    rest.put_before(chosen(is_first, first, second))?;
    Ok(())
}

// Goes on by a block of the if that comes next, where the copy is in a set.
fn enter_in<'a>(
    rest: &mut Continuation<'a>,
    set: u8,
    copy: CopyName,
    is_first: bool,
) -> Result<(), AllocError>
    ensures { let code = rest_code rest.old in OnOk result (rest_code rest.new
        ≡ (if sets.has (set_of set) (copy_named copy)
        then (if is_first then by_first_block code else by_second_block code) else code)) }
{
    if has(set, copy) {
        enter(rest, is_first)?;
    }
    Ok(())
}

/// Goes on by a block of a copy's if.
pub fn fork<'a>(
    rests: &mut PerCopy<Continuation<'a>>,
    copy: CopyName,
    is_first: bool,
) -> Result<(), AllocError>
    ensures { let c = copy_named copy in let code = codes_in rests.old c in
        let block = if is_first then by_first_block code else by_second_block code in
        (d : Copy) → OnOk result
        (codes_in rests.new d ≡ with_copy (codes_in rests.old) c block d) }
{
    let set = bit(copy);
    enter_in(&mut rests.base, set, CopyName::O, is_first)?;
    enter_in(&mut rests.variant_a, set, CopyName::A, is_first)?;
    enter_in(&mut rests.variant_b, set, CopyName::B, is_first)?;
    enter_in(&mut rests.candidate, set, CopyName::M, is_first)?;
    Ok(())
}
