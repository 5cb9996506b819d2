// Laws of combinations, as contracts.
ghost use Rattle.sm_suggest.specs.Laws.{CombinationsAreFit, SpelledAreFit};

/// A combination of a task that is fit for a decision is fit.
pub fn combinations_are_fit()
    ensures { CombinationsAreFit }
{}

/// A task that some text spells is fit for a decision.
pub fn spelled_are_fit()
    ensures { SpelledAreFit }
{}
