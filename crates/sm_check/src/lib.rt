//! The checker of proof files: it takes one line after another, and keeps nothing of what is done.
//! `verify` checks a file of a shelf, and `check_bytes` one that lies in memory.
//!
//! Read `specs/Checkers.antt` first, then `specs/Walks.antt`, `specs/Pending.antt` and
//! `specs/FormRows.antt`.
#![tactic(auto)]

mod alone;
mod aside;
mod branches;
mod certs;
mod checker;
mod due;
mod ending;
mod fault;
mod forms;
mod guess;
mod in_memory;
mod jobs;
mod kept;
mod laws;
mod names;
mod nodes;
mod of_facts;
mod opened;
mod openings;
mod pending;
mod pieces;
mod raw_lines;
mod runs;
mod start;
mod taken_lines;
mod telling;
mod terms;
mod unfinished;
mod verifying;
mod walk;

pub use checker::{Checker, State};
pub use fault::LineFault;
pub use in_memory::check_bytes;
pub use laws::spelled_is_checkable;
pub use verifying::{CheckError, Checked, verify};
