//! The answers that need no search: to files that are read, of `verify` and of `replay`; and the
//! lines of all.
//!
//! - `task_in` reads the task that a file's bytes spell, `spelled_in` that task with the bytes,
//!   `input_in` an input of it, and `bytes_in` the bytes alone, each in one pass. Where there is none
//!   they stop with the answer: `ReadFault`, `TooLong`, or what is refused first. What is read holds
//!   of told files, and on every shelf of the bytes that were read.
//! - `list_in` reads the names in a list of files, and stops with the number of its first bad line.
//! - `verify_in` answers `Accepted` exactly where the bytes of a proof's file pass for the task,
//!   which is then free of conflicts, and else the number of the first bad line and the word for
//!   what is wrong with it.
//! - `replay_in` answers the verdict on the input in a file exactly, or what stops the programs, and
//!   `replay` that on a store.
//! - `write_file` gives a file these bytes. After an error it is as it was, or empty, or has some
//!   of the first of them.
//! - `Status::number` is the number with which the program ends.
//!
//! Read `specs/Verify.antt` first, then `specs/File.antt`, `specs/Replay.antt`,
//! `specs/Lists.antt`, `specs/Readings.antt` and `specs/ProofFile.antt`; `specs/Lines.antt` has the
//! lines, and `specs/Exit.antt` what a command says that ends early.
#![tactic(auto)]

mod exit;
mod file;
mod lines;
mod listing;
mod proof_file;
mod refusals;
mod replaying;
mod status;
mod verifying;

pub use exit::Exit;
pub use file::{Spelled, bytes_in, input_in, spelled_in, task_in};
pub use lines::{
    coefficient_line, goal_line, many_holes_line, none_line, put_input_line, suggestion_line,
    summary_line, too_many_line, trial_line,
};
pub use listing::{list_in, put_numbered};
pub use proof_file::write_file;
pub use refusals::refusal_line;
pub use replaying::{replay, replay_in};
pub use status::{Reply, Status};
pub use verifying::{rejected_line, verify_in};
