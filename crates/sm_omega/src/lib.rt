//! The Omega test, as a definition: whether whole numbers satisfy linear forms.
//!
//! - `exact` decides it by Pugh's rules: an equation gives the value of one of its variables, after
//!   modular steps where no coefficient has size 1; a variable without bounds from one side goes
//!   with its forms; of one that is bounded from both sides the dark shadow is decided, and then its
//!   splinters. It counts the forms that it computes, up to a limit, and stops where a number leaves
//!   the range of forms.
//! - The laws are contracts of functions that do nothing. Where the decision says that there is no
//!   solution no whole numbers satisfy the forms, and the values of a solution satisfy each one.
//!   Where neither the count nor the range stops it, it comes to one of both. Its count is the same
//!   under each limit that isn't below it.
//!
//! Read `specs/Counting.antt` first, then `specs/Solving.antt`, `specs/Rules.antt`,
//! `specs/Equalities.antt`, `specs/Inequalities.antt`, `specs/Exact.antt` and
//! `specs/ExactLaws.antt`.
#![tactic(auto)]

mod laws;

pub use laws::{count_is_within, exact_answers, exact_is_right, limit_does_not_matter};
