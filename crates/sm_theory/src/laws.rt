// Laws of lines of certificates, as contracts.
ghost use Rattle.sm_theory.specs.Laws.{AddsWhatHolds, AddsWhatIsSorted, AddsWhatIsBelow, AddsAnywhere, equality, arrays, arithmetic, SomeWayHolds, WaysAreSorted, WaysAreBelow, WaysMove, WaysAddSoMany};
ghost use Rattle.sm_theory.specs.LinearLaws.{LinearHasValue};
ghost use Rattle.sm_theory.specs.Standing.{CombinedStands, EliminatedStands, CanCancelStands, TightenedStands, ContradictoryStands, OneMoreStands, SamePartsStand, StandsLater, LinearStands};

use crate::fact::{Branch, Fact};
use crate::line::{CertLine, FactNumbers};

/// What a line of equality adds holds wherever the facts of the branch do.
#[tactic(auto, using(crate::proofs::EqualitySound::equality_holds))]
pub fn equality_adds_what_holds()
    ensures { AddsWhatHolds equality }
{}

/// It is sorted where the facts and the line are.
#[tactic(auto, using(crate::proofs::EqualityLemmas::equality_sorted))]
pub fn equality_adds_what_is_sorted()
    ensures { AddsWhatIsSorted equality }
{}

/// It names no new values but of nodes that the facts and the line may name.
#[tactic(auto, using(crate::proofs::EqualityLemmas::equality_below))]
pub fn equality_adds_what_is_below()
    ensures { AddsWhatIsBelow equality }
{}

/// Another branch on which the line reads the same gives it too.
#[tactic(auto, using(crate::proofs::EqualityLemmas::equality_anywhere))]
pub fn equality_adds_anywhere()
    ensures { AddsAnywhere equality }
{}

/// What a line of arrays adds holds wherever the facts of the branch do.
#[tactic(auto, using(crate::proofs::ElementsLemmas::arrays_hold))]
pub fn arrays_add_what_holds()
    ensures { AddsWhatHolds arrays }
{}

/// It is sorted where the facts and the line are.
#[tactic(auto, using(crate::proofs::ElementsLemmas::arrays_sorted))]
pub fn arrays_add_what_is_sorted()
    ensures { AddsWhatIsSorted arrays }
{}

/// It names no new values but of nodes that the facts and the line may name.
pub fn arrays_add_what_is_below()
    ensures { AddsWhatIsBelow arrays }
{}

/// Another branch on which the line reads the same gives it too.
pub fn arrays_add_anywhere()
    ensures { AddsAnywhere arrays }
{}

/// The linear form of a term has the term's value, whatever its atoms mean.
#[tactic(auto, using(crate::proofs::LinearTermsLemmas::linear_value))]
pub fn linear_has_value()
    ensures { LinearHasValue }
{}

/// What a line of arithmetic adds holds wherever the facts do.
#[tactic(auto, using(crate::proofs::ArithmeticSound::arithmetic_holds))]
pub fn arithmetic_adds_what_holds()
    ensures { AddsWhatHolds arithmetic }
{}

/// What a line of arithmetic adds is sorted where the facts and the line are.
#[tactic(auto, using(crate::proofs::ArithmeticKept::arithmetic_sorted))]
pub fn arithmetic_adds_what_is_sorted()
    ensures { AddsWhatIsSorted arithmetic }
{}

/// What a line of arithmetic adds names no later new value than the facts and the line.
#[tactic(auto, using(crate::proofs::ArithmeticKept::arithmetic_below))]
pub fn arithmetic_adds_what_is_below()
    ensures { AddsWhatIsBelow arithmetic }
{}

/// What a line of arithmetic adds is added on another branch too on which the line reads the same.
#[tactic(auto, using(crate::proofs::ArithmeticKept::arithmetic_moves))]
pub fn arithmetic_adds_anywhere()
    ensures { AddsAnywhere arithmetic }
{}

/// A sum of kept forms is kept for the sum of what they are kept for.
#[tactic(auto, using(crate::proofs::LinearStanding::combined_stands))]
pub fn combined_stands()
    ensures { CombinedStands }
{}

/// A sum of kept forms in which an atom cancels is kept for that of what they are kept for.
#[tactic(auto, using(crate::proofs::LinearStanding::eliminated_stands))]
pub fn eliminated_stands()
    ensures { EliminatedStands }
{}

/// A number cancels where its term does.
#[tactic(auto, using(crate::proofs::LinearStanding::can_cancel_stands))]
pub fn can_cancel_stands()
    ensures { CanCancelStands }
{}

/// A tight form is kept for the tight form.
#[tactic(auto, using(crate::proofs::LinearStanding::tightened_stands))]
pub fn tightened_stands()
    ensures { TightenedStands }
{}

/// A contradiction is kept for a contradiction.
#[tactic(auto, using(crate::proofs::LinearStanding::contradictory_stands))]
pub fn contradictory_stands()
    ensures { ContradictoryStands }
{}

/// 1 more is kept for 1 more.
#[tactic(auto, using(crate::proofs::LinearLater::one_more_stands))]
pub fn one_more_stands()
    ensures { OneMoreStands }
{}

/// Kept forms have one list of parts where what they are kept for has the same parts.
#[tactic(auto, using(crate::proofs::LinearLater::same_parts_stand))]
pub fn same_parts_stand()
    ensures { SamePartsStand }
{}

/// What is kept is kept where more terms have places.
#[tactic(auto, using(crate::proofs::LinearLater::stands_later))]
pub fn stands_later()
    ensures { StandsLater }
{}

/// The form of a term by numbers is kept for the form of the term.
#[tactic(auto, using(crate::proofs::LinearNumbers::linear_stands))]
pub fn linear_stands()
    ensures { LinearStands }
{}

/// Where the facts of a branch hold, not every way in which it goes on fails.
pub fn some_way_holds()
    ensures { SomeWayHolds }
{}

/// What a way adds is sorted where the facts and the line are.
pub fn ways_are_sorted()
    ensures { WaysAreSorted }
{}

/// What a way adds names no later new value than the facts and the line.
pub fn ways_are_below()
    ensures { WaysAreBelow }
{}

/// Each way has as many facts as the line adds.
#[tactic(auto, using(crate::proofs::TheoriesLemmas::ways_add_so_many))]
pub fn ways_add_so_many()
    ensures { WaysAddSoMany }
{}

/// The ways are the same on another branch on which the line reads the same.
pub fn ways_move()
    ensures { WaysMove }
{}

/// Facts, branches and lines can be used by several threads, and handed over.
pub fn types_cross_threads() {
    crosses::<Fact>();
    crosses::<Branch>();
    crosses::<CertLine>();
    crosses::<FactNumbers>();
}

fn crosses<T: Send + Sync>() {}
