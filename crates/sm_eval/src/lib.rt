//! Runs of programs inside 128 bits.
//!
//! - A `Store` has the value and the sort of each declared name. An array may have any number of
//!   cells.
//! - `value` and `truth` give the exact value, or the first operation whose exact result leaves 128
//!   bits.
//! - `run` gives the end store, or the first event: such an operation, or a loop that takes too
//!   many turns.
//! - `eventless_ends` is the law that code without an event has an end, and `well_formed_may_run`
//!   that what is well formed meets the conditions of `truth` and `run`.
//!
//! Read `specs/Events.antt` first. `specs/StoredValues.antt` says which store a `Store` stands for.
//! What programs mean over all whole numbers stands in `sm_syntax`.
#![tactic(auto)]

mod cells;
mod deque;
mod error;
mod expression;
mod laws;
mod runs;
mod store;
mod stored_value;

pub use error::EvalError;
pub use expression::{truth, value};
pub use laws::{eventless_ends, well_formed_may_run};
pub use runs::run;
pub use store::Store;
