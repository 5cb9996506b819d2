// What one copy has, and lists of one and of two.
ghost use Rattle.std.specs.Prelude.{◌≡◌, ◌∷◌, [], Ok, IfOk};
ghost use Rattle.sm_syntax.specs.trees.Copies.{copy_named, of_copy};
ghost use Rattle.sm_plan.specs.Copies.{with_copy};

use sm_syntax::{CopyName, PerCopy};
use std::alloc::{AllocError, Global};
use std::mem::swap;

// Exchanges what a copy has.
pub(crate) fn exchange<T>(all: &mut PerCopy<T>, copy: CopyName, one: &mut T)
    ensures all { of_copy all.new ≡ with_copy (of_copy all.old) (copy_named copy) one.old }
    ensures one { one.new ≡ of_copy all.old (copy_named copy) }
{
    match copy {
        CopyName::O => swap(&mut all.base, one),
        CopyName::A => swap(&mut all.variant_a, one),
        CopyName::B => swap(&mut all.variant_b, one),
        CopyName::M => swap(&mut all.candidate, one),
    }
}

// Both of two results.
fn both<T: Drop>(
    first: Result<T, AllocError>,
    second: Result<T, AllocError>,
) -> Result<(T, T), AllocError>
    ensures { IfOk result (λ p. (first ≡ Ok p.0) × (second ≡ Ok p.1)) }
{
    let first = first?;
    let second = second?;
    Ok((first, second))
}

// What was made for each copy.
pub(crate) fn all_made<T: Drop>(
    base: Result<T, AllocError>,
    variant_a: Result<T, AllocError>,
    variant_b: Result<T, AllocError>,
    candidate: Result<T, AllocError>,
) -> Result<PerCopy<T>, AllocError>
    ensures { IfOk result (λ p. (base ≡ Ok p.base) × (variant_a ≡ Ok p.variant_a)
        × (variant_b ≡ Ok p.variant_b) × (candidate ≡ Ok p.candidate)) }
{
    let (base, variant_a) = both(base, variant_a)?;
    let (variant_b, candidate) = both(variant_b, candidate)?;
    Ok(PerCopy {
        base,
        variant_a,
        variant_b,
        candidate,
    })
}

// A list of one.
pub(crate) fn one_of<T: Drop>(alloc: Global, first: T) -> Result<Vec<T>, AllocError>
    ensures items { IfOk result (λ v. v.items ≡ first ∷ []) }
{
    let mut list = Vec::new(alloc);
    list.push(first)?;
    Ok(list)
}

// A list of two.
pub(crate) fn two_of<T: Drop>(alloc: Global, first: T, second: T) -> Result<Vec<T>, AllocError>
    ensures items { IfOk result (λ v. v.items ≡ first ∷ second ∷ []) }
{
    let mut list = Vec::new(alloc);
    list.push(first)?;
    list.push(second)?;
    Ok(list)
}
