// Sets of copies, as masks: the bit of the base counts least, that of the candidate most.
ghost use Rattle.std.specs.Prelude.{◌≡◌, ◌≤◌, find, not, length, option_map};
ghost use Rattle.sm_syntax.specs.trees.Copies.{copy_named, of_copy};
ghost use Rattle.sm_plan.specs.Copies as sets;
ghost use Rattle.sm_plan.specs.Masks.{bit_of, bit_where, set_of};
ghost use Rattle.sm_moves.specs.CopySets.{members};

use sm_syntax::{CopyName, PerCopy};

/// The bit of a copy.
pub fn bit(copy: CopyName) -> u8
    ensures { result ≡ bit_of (copy_named copy) }
{
    match copy {
        CopyName::O => 1,
        CopyName::A => 2,
        CopyName::B => 4,
        CopyName::M => 8,
    }
}

/// Whether a copy is in a set.
pub fn has(set: u8, copy: CopyName) -> bool
    ensures { result ≡ sets.has (set_of set) (copy_named copy) }
{
    set & bit(copy) == bit(copy)
}

/// Whether no copy is in a set.
pub fn is_empty(set: u8) -> bool
    ensures { result ≡ not (sets.is_inhabited (set_of set)) }
{
    least(set).is_none()
}

/// The least copy of a set.
pub fn least(set: u8) -> Option<CopyName>
    ensures { option_map copy_named result ≡ find (sets.has (set_of set)) sets.copies }
{
    if has(set, CopyName::O) {
        Some(CopyName::O)
    } else if has(set, CopyName::A) {
        Some(CopyName::A)
    } else if has(set, CopyName::B) {
        Some(CopyName::B)
    } else if has(set, CopyName::M) {
        Some(CopyName::M)
    } else {
        None
    }
}

// A number, where a bit is set.
fn counted(is_set: bool, number: u8) -> u8
    ensures { result ≡ bit_where is_set number }
{
    if is_set { number } else { 0 }
}

// How many copies a set has.
pub(crate) fn size(set: u8) -> u8
    ensures { result ≡ length (members (set_of set)) }
{
    let base = counted(has(set, CopyName::O), 1);
    let variant_a = counted(has(set, CopyName::A), 1);
    let variant_b = counted(has(set, CopyName::B), 1);
    let candidate = counted(has(set, CopyName::M), 1);
    base + variant_a + variant_b + candidate
}

// The set of the copies for which this is said.
pub(crate) fn mask_of(chosen: PerCopy<bool>) -> u8
    ensures set { set_of result ≡ sets.copies_that (of_copy chosen) }
    ensures within { result ≤ 15 }
{
    let base = counted(chosen.base, 1);
    let variant_a = counted(chosen.variant_a, 2);
    let variant_b = counted(chosen.variant_b, 4);
    let candidate = counted(chosen.candidate, 8);
    base + variant_a + variant_b + candidate
}
