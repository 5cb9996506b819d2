//! Candidates for what a plan's loops keep: a walk over the states of the plan reads off at each loop
//! what runs show there.
//!
//! - `candidates_of` gives the candidates of each site of a plan. They come from runs, and nothing of
//!   them is believed: the search drops those that don't prove.
//! - `Subject` is a task with its filled programs, and the inputs from which it is observed.
//!
//! `specs/Subjects.antt` says what is known of the task, and of a table of its declarations.
#![tactic(auto)]

mod candidates;
mod loops;
mod subject;
mod walking;

pub use candidates::{Candidates, MOST_BRANCHES, Seen, candidates_of};
pub use subject::Subject;
