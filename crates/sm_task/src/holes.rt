// The numbers of holes, in the order of the text.
ghost use Rattle.std.specs.Prelude.{◌≡◌, ◌++◌, [], ℕ, nat_eq, OnOk, IfOk};
ghost use Rattle.std.specs.HashSet.{contains};
ghost use Rattle.sm_syntax.specs.text.Conditions.{holes_of, holes_inside, filled_holes, first_repeated, first_outside, is_in};
ghost use Rattle.sm_syntax.specs.trees.Programs.{fillings_of};
ghost use Rattle.sm_syntax.specs.claim.Syntax.{End};
ghost use Rattle.sm_syntax.specs.trees.Views.{statement_of, code_of};

use sm_syntax::{Block, Fillings, Stmt};
use std::alloc::{AllocError, Global};
use std::collections::HashSet;

/// The numbers of the hole statements of a block, in the order of the text.
pub fn holes_of(alloc: Global, b: &Block) -> Result<Vec<u32>, AllocError>
    ensures { IfOk result (λ v. v.items ≡ holes_of (code_of b.now)) }
{
    let mut holes = Vec::new(alloc);
    push_holes(b, &mut holes)?;
    Ok(holes)
}

// The hole statements in the fillings of a list.
pub(crate) fn holes_inside(alloc: Global, fillings: &Fillings) -> Result<Vec<u32>, AllocError>
    ensures { IfOk result (λ v. v.items ≡ holes_inside (fillings_of fillings.now)) }
{
    let mut holes = Vec::new(alloc);
    for f in &fillings.list {
        push_holes(&f.block, &mut holes)?;
    }
    Ok(holes)
}

// The holes that a list fills.
pub(crate) fn filled_holes(alloc: Global, fillings: &Fillings) -> Result<Vec<u32>, AllocError>
    ensures { IfOk result (λ v. v.items ≡ filled_holes (fillings_of fillings.now)) }
{
    let mut holes = Vec::new(alloc);
    for f in &fillings.list {
        holes.push(f.hole)?;
    }
    Ok(holes)
}

// The first number that stood before.
pub(crate) fn first_repeated(alloc: Global, holes: &[u32]) -> Result<Option<u32>, AllocError>
    ensures { IfOk result (λ r. r ≡ first_repeated [] holes.now) }
{
    let mut seen = HashSet::new(alloc);
    for hole in holes {
        if !seen.insert(*hole)? {
            return Ok(Some(*hole));
        }
    }
    Ok(None)
}

// The first number that is not among others.
pub(crate) fn first_outside(
    alloc: Global,
    others: &[u32],
    holes: &[u32],
) -> Result<Option<u32>, AllocError>
    ensures { IfOk result (λ r. r ≡ first_outside others.now holes.now) }
{
    let known = set_of(alloc, others)?;
    for hole in holes {
        if !known.contains(hole) {
            return Ok(Some(*hole));
        }
    }
    Ok(None)
}

// The set of some numbers.
fn set_of(alloc: Global, numbers: &[u32]) -> Result<HashSet<u32>, AllocError>
    ensures { IfOk result (λ s. (q : ℕ) → contains nat_eq s q ≡ is_in numbers.now q) }
{
    let mut set = HashSet::new(alloc);
    for x in numbers {
        set.insert(*x)?;
    }
    Ok(set)
}

// Puts the hole statements of a block at the end of a list.
#[cycle(push_holes)]
fn push_holes(b: &Block, out: &mut Vec<u32>) -> Result<(), AllocError>
    ensures { OnOk result (out.new.items ≡ out.old.items ++ holes_of (code_of b.now)) }
{
    for s in &b.list {
        push_holes_at(s, out)?;
    }
    Ok(())
}

// Puts the hole statements of a statement at the end of a list.
#[cycle(push_holes)]
fn push_holes_at(s: &Stmt, out: &mut Vec<u32>) -> Result<(), AllocError>
    ensures { OnOk result (out.new.items ≡ out.old.items ++ holes_of (statement_of s.now End)) }
{
    match s {
        Stmt::Skip | Stmt::Assign(_, _) | Stmt::Store(_, _, _) => Ok(()),
        Stmt::If(_, t, e) => {
            push_holes(t, out)?;
            push_holes(e, out)
        }
        Stmt::While(_, t) => push_holes(t, out),
        Stmt::Hole(h) => {
            out.push(*h)?;
            Ok(())
        }
    }
}
