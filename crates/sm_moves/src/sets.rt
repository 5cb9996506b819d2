// Sets of copies, as far as products need more than masks give.
ghost use Rattle.std.specs.Prelude.{◌≡◌, ◌≤◌, ◌&&◌, not, if◌then◌else◌};
ghost use Rattle.sm_syntax.specs.claim.ConflictFree.{Copy};
ghost use Rattle.sm_syntax.specs.trees.Copies.{copy_named, of_copy};
ghost use Rattle.sm_plan.specs.Copies as sets;
ghost use Rattle.sm_plan.specs.Masks.{set_of};
ghost use Rattle.sm_moves.specs.CopySets as copies;

use crate::masks::{has, mask_of};
use sm_syntax::{CopyName, PerCopy};

// Whether a copy is in a set and not in another.
fn stays(set: u8, other: u8, copy: CopyName) -> bool
    ensures { let c = copy_named copy in
        result ≡ (sets.has (set_of set) c && not (sets.has (set_of other) c)) }
{
    has(set, copy) && !has(other, copy)
}

/// The copies of a set that are not in another.
pub fn without(set: u8, other: u8) -> u8
    ensures set { set_of result ≡ copies.without (set_of set) (set_of other) }
    ensures within { result ≤ 15 }
{
    mask_of(PerCopy {
        base: stays(set, other, CopyName::O),
        variant_a: stays(set, other, CopyName::A),
        variant_b: stays(set, other, CopyName::B),
        candidate: stays(set, other, CopyName::M),
    })
}

/// A set with one more copy.
pub fn with_member(set: u8, copy: CopyName) -> u8
    ensures set { set_of result ≡ copies.with_member (set_of set) (copy_named copy) }
    ensures within { result ≤ 15 }
{
    let mut chosen = PerCopy {
        base: has(set, CopyName::O),
        variant_a: has(set, CopyName::A),
        variant_b: has(set, CopyName::B),
        candidate: has(set, CopyName::M),
    };
    match copy {
        CopyName::O => chosen.base = true,
        CopyName::A => chosen.variant_a = true,
        CopyName::B => chosen.variant_b = true,
        CopyName::M => chosen.candidate = true,
    }
    mask_of(chosen)
}

// A number where a copy is in a set, and else 0.
fn one_in(set: u8, copy: CopyName) -> u64
    ensures { result ≡ (if sets.has (set_of set) (copy_named copy) then 1 else 0) }
{
    if has(set, copy) { 1 } else { 0 }
}

/// One statement of each copy of a set.
pub fn one_each(set: u8) -> PerCopy<u64>
    ensures { (c : Copy) → of_copy result c ≡ (if sets.has (set_of set) c then 1 else 0) }
{
    PerCopy {
        base: one_in(set, CopyName::O),
        variant_a: one_in(set, CopyName::A),
        variant_b: one_in(set, CopyName::B),
        candidate: one_in(set, CopyName::M),
    }
}
