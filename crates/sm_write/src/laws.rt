// What can be written, as contracts.
ghost use Rattle.sm_write.specs.BranchTerms.{BranchesAreNameable, StatesAreNameable};
ghost use Rattle.sm_write.specs.Example.{ExampleIsWritable};
ghost use Rattle.sm_write.specs.PlainPlans.{PlainPlansAreWritable};

/// The plan of a task whose programs do nothing can be written.
#[tactic(auto, using(crate::proofs::ExampleLemmas::example_is_writable))]
pub fn example_is_writable()
    ensures { ExampleIsWritable }
{}

/// A plan that keeps no formula can be written with certificates that name no term, wherever these
/// close what it asks.
#[tactic(auto, using(crate::proofs::PlainWritable::plain_plans_are_writable))]
pub fn plain_plans_are_writable()
    ensures { PlainPlansAreWritable }
{}

/// What a state's facts and its target compare can be named after states of which it is one.
pub fn states_are_nameable()
    ensures { StatesAreNameable }
{}

/// The terms of a goal's branch can be named where what its facts and the goal compare can.
#[tactic(auto, using(crate::proofs::BranchNameable::branches_are_nameable))]
pub fn branches_are_nameable()
    ensures { BranchesAreNameable }
{}
