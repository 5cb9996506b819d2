//! Equal terms and formulas: the words in which a search says which terms are equal.
//!
//! - `Sees` is what the search asks of classes of terms: which terms of a table are equal, and which
//!   are known apart. It says no more than that, so what judges a branch by it doesn't rest on how
//!   classes are found.
//! - `is_same_formula` tells whether two formulas are the same, by their numbers of terms.
//!
//! `specs/Pairs.antt` says what pairs of terms are, `specs/SameFormulas.antt` when formulas are the
//! same, `specs/Longer.antt` when a list is another with more behind it.
#![tactic(auto)]

mod formulas;
mod seeing;

pub use formulas::is_same_formula;
pub use seeing::Sees;
