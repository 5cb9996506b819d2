//! Many tasks, group by group, each with the reply that it has alone.
//!
//! - A `Worker` says which one reply a task has and when that is the accepting one, and it checks
//!   certificates. A task for which it takes a certificate is free of conflicts.
//! - `Batch::group` gives each task of a group the worker's reply, for every number of workers and
//!   however much is kept. A task with the accepting reply is free of conflicts. Answers come from
//!   a closure that gives the worker's reply and, exactly where that is the accepting one, a
//!   certificate that the worker takes.
//! - Accepting replies are kept under the canonical text of their tasks, as many as the batch has
//!   room for, those used last. What is kept stands for a task only after the worker has taken the
//!   certificate that is kept with it; else it is dropped, and the closure answers.
//! - Where memory is wanting, a group changes nothing. What finds no room in memory to be kept is
//!   left out, but never where something is kept under its key already.
//!
//! That a hit spares an answer is tested, and not proved. Equal tasks in one group that are no hits
//! are each answered.
//!
//! Read `specs/Keys.antt` first, then `specs/Answers.antt`, `specs/Entries.antt` and
//! `specs/Groups.antt`.
#![tactic(auto)]

mod answering;
mod batch;
mod grouping;
mod looking;
mod settling;
mod telling;
#[cfg(test)]
mod tests;
mod worker;

pub use batch::Batch;
pub use worker::{Answered, Worker, taken_is_free};
