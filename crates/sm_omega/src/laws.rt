// Laws of the decision, as contracts.
ghost use Rattle.sm_omega.specs.ExactLaws.{ExactIsRight, ExactAnswers, CountIsWithin, LimitDoesNotMatter};

/// Where it says that there is no solution, no whole numbers satisfy the forms; and the values of a
/// solution satisfy each of them.
#[tactic(auto, using(crate::proofs::ExactRight::exact_right))]
pub fn exact_is_right()
    ensures { ExactIsRight }
{}

/// Where neither the count nor the range stops it, it comes to an answer.
#[tactic(auto, using(crate::proofs::LimitLemmas::exact_answers))]
pub fn exact_answers()
    ensures { ExactAnswers }
{}

/// An answer's count is within the limit.
#[tactic(auto, using(crate::proofs::LimitLemmas::count_is_within))]
pub fn count_is_within()
    ensures { CountIsWithin }
{}

/// Each limit that isn't below an answer's count gives the same answer.
#[tactic(auto, using(crate::proofs::LimitLemmas::limit_does_not_matter))]
pub fn limit_does_not_matter()
    ensures { LimitDoesNotMatter }
{}
