// Laws of checking, as contracts.
ghost use Rattle.sm_check.specs.Laws.{SpelledIsCheckable};

/// Proofs of each task that a text spells may be checked.
#[tactic(auto, using(crate::proofs::SpelledCheckable::spelled_checkable))]
pub fn spelled_is_checkable()
    ensures { SpelledIsCheckable }
{}
