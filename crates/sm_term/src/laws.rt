// Laws of terms and formulas, as contracts.
ghost use Rattle.sm_term.specs.Laws.{TermMeansValue, FormMeansTruth, NegateIsContrary, ConjHolds, RefutedIsValid, RefutedHere, AtStoresHolds, HoldsIsStable, FreshHolds};

use crate::formula::Formula;
use crate::symbolic::SymStore;
use crate::table::TermTable;
use crate::tails::TermRows;
use crate::term::Term;

/// The term of an expression means the expression's value.
#[tactic(auto, using(crate::proofs::SymbolicLemmas::term_means))]
pub fn term_means_value()
    ensures { TermMeansValue }
{}

/// The formula of a condition holds where the condition is true.
#[tactic(auto, using(crate::proofs::AssertionsLemmas::form_means))]
pub fn form_means_truth()
    ensures { FormMeansTruth }
{}

/// Negation says the contrary.
#[tactic(auto, using(crate::proofs::AssertionsLemmas::contrary))]
pub fn negate_is_contrary()
    ensures { NegateIsContrary }
{}

/// A formula that can't fail holds.
#[tactic(auto, using(crate::proofs::AssertionsLemmas::stable))]
pub fn holds_is_stable()
    ensures { HoldsIsStable }
{}

/// A conjunction holds where its parts do.
#[tactic(auto, using(crate::proofs::AssertionsLemmas::conj_means))]
pub fn conj_holds()
    ensures { ConjHolds }
{}

/// A goal whose negation is refuted with the facts holds wherever the facts do.
#[tactic(auto, using(crate::proofs::AssertionsLemmas::refuted, crate::proofs::AssertionsLemmas::refuted_here))]
pub fn refuted_is_valid()
    ensures valid { RefutedIsValid }
    ensures here { RefutedHere }
{}

/// A formula at stores says of them what it says of slots.
#[tactic(auto, using(crate::proofs::SlotsLemmas::at_stores_means))]
pub fn at_stores_holds()
    ensures { AtStoresHolds }
{}

/// New values of a node say nothing new of a formula that doesn't name them.
#[tactic(auto, using(crate::proofs::FreshLemmas::fresh_means))]
pub fn fresh_holds()
    ensures { FreshHolds }
{}

/// Tables, terms, formulas and symbolic stores can be used by several threads, and handed over.
pub fn types_cross_threads() {
    crosses::<TermTable>();
    crosses::<TermRows>();
    crosses::<Term>();
    crosses::<Formula>();
    crosses::<SymStore>();
}

fn crosses<T: Send + Sync>() {}
