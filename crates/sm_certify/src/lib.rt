//! The classes of a branch, and certificates of branches that are closed.
//!
//! - `closing_tree` gives a certificate of a branch that is closed at once, `refutation_tree` of one
//!   whose linear forms come to a contradiction. Each refutes the branch of its facts, names terms of
//!   the table alone, and has no split. A refutation has no lines for forms that its contradiction
//!   doesn't need. `exact_tree` gives one of a branch whose forms have no solution by the exact
//!   decision, which takes all of them.
//! - `Base` is where the classes of the branches of a walk begin: with nothing, or with those of facts
//!   that all of them have (`base_of`). Its classes are those of all facts of a branch, as
//!   `Given.antt` says, wherever they begin.
//! - `contraries` lists the pairs that a goal adds to facts, and `is_refuted_by` tells by labels of
//!   terms that a fact can't hold.
//! - `count_named` tells how many terms formulas name.
//!
//! Read `specs/Given.antt` first, then `specs/Refutes.antt`, `specs/Decided.antt` and
//! `specs/Bases.antt`.
#![tactic(auto)]

mod base;
mod certify;
mod classes;
mod decided;
mod draft;
mod labelled;
mod marks;
mod named;
mod refute;
mod unequal;

pub use base::{Base, base_of, boxed_base};
pub use certify::closing_tree;
pub use classes::{all_terms, given_facts};
pub use decided::exact_tree;
pub use labelled::is_refuted_by;
pub use named::count_named;
pub use refute::refutation_tree;
pub use unequal::contraries;
