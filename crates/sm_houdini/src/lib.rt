//! The search for a plan that proves a task: candidate invariants, dropped to a fixed point.
//!
//! - The laws are contracts of functions that do nothing. A goal is final exactly where it is not
//!   one of a site, and a site asks the templates that are chosen there, at the stores of the node
//!   that asks them.
//! - What is kept is inductive: another round drops nothing, and each goal of a site closes. Each
//!   template that isn't kept was refuted in a round: one of its obligations didn't close. The plan
//!   of what is kept has obligations wherever that of all templates is small.
//! - Under more templates each node asks the same goals of those that were there, over more facts. So
//!   templates that are shown together, by certificates without exact lines, stay shown in each round
//!   that has them all, and one is dropped there only where the walk of one of its obligations
//!   doesn't close.
//! - A search comes to one outcome, and a conflict is that of the least trial that violates.
//! - The plan of a choice can be written as a proof file with certificates of all that it asks, none
//!   of whose lines is too long where no number is and there are at most 200 names.
//! - `search` gives what a search comes to, for tasks of any size in whose fillings no hole stands.
//!   Where it accepts there are a plan and certificates that can be written, and `proof_text` gives
//!   a proof file of them that passes. It is of version 3 where it has lines `exact`, of version 2
//!   where it has none and the task assumes something, and else of version 1.
//!
//! Read `specs/Rounds.antt` first, then `specs/Outcomes.antt`, `specs/Obligations.antt` and
//! `specs/Laws.antt`.
#![tactic(auto)]

mod asked;
mod choosing;
mod closing;
mod dealing;
mod deciding;
mod dues;
mod end_jobs;
mod ending;
mod goal_jobs;
mod judging;
mod known;
mod laws;
mod marks;
mod node_jobs;
mod outcome;
mod owners;
mod product;
mod rounds;
mod run_ends;
mod searching;
mod short;
mod sites;
mod writing;

pub use laws::{
    asked_under_fewer, certified_are_short, conflict_is_least, dropped_are_refuted,
    final_has_no_owner, kept_has_obligations, kept_is_inductive, outcome_is_one,
    search_is_writable, shown_in_rounds, sites_ask_chosen, valid_is_searchable,
};
pub use outcome::Outcome;
pub use searching::search;
pub use writing::proof_text;
