// Laws of events and of sorts, as contracts.
ghost use Rattle.sm_eval.specs.Laws.{EventlessEnds, WellFormedPrograms, WellFormedAssumptions};

/// Code without an event has an end.
#[tactic(auto, using(crate::proofs::Ends::ends))]
pub fn eventless_ends()
    ensures { EventlessEnds }
{}

/// What is well formed may be computed and run, from a store of its declarations.
#[tactic(auto, using(crate::proofs::Faultless::program_sorted, crate::proofs::Faultless::assumed_sorted))]
pub fn well_formed_may_run()
    ensures programs { WellFormedPrograms }
    ensures assumptions { WellFormedAssumptions }
{}
