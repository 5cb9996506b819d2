// Whether the candidate of four programs has the only change of the base.
ghost use Rattle.std.specs.Prelude.{◌≡◌, ◌↔◌, IsTrue, MatchOption};
ghost use Rattle.sm_syntax.specs.claim.ConflictFree.{Copy};
ghost use Rattle.sm_syntax.specs.trees.Copies.{of_copy};
ghost use Rattle.sm_syntax.specs.trees.Views.{code_of};
ghost use Rattle.sm_sided.specs.OneSided.{IsOnly, IsOneSided, is_one_sided};

use sm_syntax::{Block, PerCopy, same_block};

/// A change of the base that the candidate has, where there is no other.
#[derive(Clone, Copy)]
pub enum Change {
    /// A was changed, and B is the base.
    OfA,
    /// B was changed, and A is the base.
    OfB,
    /// A and B were changed alike.
    OfBoth,
}

/// The first of the three that is so.
pub(crate) fn only_change(programs: &PerCopy<Block>) -> Option<Change>
    ensures { let program = λ (c : Copy). code_of (of_copy programs.now c) in
        MatchOption result (IsOneSided program → ⊥) (λ change. IsOnly program change) }
{
    let PerCopy {
        base,
        variant_a,
        variant_b,
        candidate,
    } = programs;
    if same_block(variant_b, base) && same_block(candidate, variant_a) {
        return Some(Change::OfA);
    }
    if same_block(variant_a, base) && same_block(candidate, variant_b) {
        return Some(Change::OfB);
    }
    if same_block(candidate, variant_a) && same_block(variant_a, variant_b) {
        return Some(Change::OfBoth);
    }
    None
}

/// Whether only one side was changed, or both alike, and the candidate has that change: B is the
/// base and the candidate is A, or A is the base and the candidate is B, or all but the base are the
/// same tree.
pub fn one_sided(programs: &PerCopy<Block>) -> bool
    ensures exact { let program = λ (c : Copy). code_of (of_copy programs.now c) in
        result ≡ is_one_sided program }
    ensures says { let program = λ (c : Copy). code_of (of_copy programs.now c) in
        IsTrue result ↔ IsOneSided program }
{
    only_change(programs).is_some()
}
