//! Which terms formulas have: in order, each after its arguments and once.
//!
//! - `list_formula` lists the terms of a formula behind others, by their numbers in a table. What is
//!   left to be done stands on a stack of its own, so a term needs no stack, however deep it is.
//!
//! Read `specs/Listing.antt`.
#![tactic(auto)]

mod listing;

pub use listing::list_formula;
