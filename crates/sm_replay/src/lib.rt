//! Runs of a task from one input: what they show against the merge.
//!
//! - `read_input` gives the store of an input in JSON, or the first refusal.
//! - `write_input` gives the text of a store. It reads back to the same store.
//! - `trial` gives the inputs that are tried on every task.
//! - `judge` runs the four programs, with their holes filled, from one store: they end and keep the
//!   condition, or the first cell and part in which it fails, or what kept them from an end. It
//!   says that the store violates the condition exactly where it does.
//! - `ends_of` gives the ends of the four programs alone, or why the first copy without one has
//!   none.
//! - `first_violation` is the least trial that violates, for every number of workers.
//!   `some_trial_meets` says whether the assumption excludes them all.
//! - `violations_conflict` is the law that a violation is a conflict, and `valid_tasks_run` that a
//!   task that meets its conditions may be run.
//! - `verdict_is_one`, `least_trial_is_one`, `first_violation_is_one`, `reading_is_one` and
//!   `written_text_is_one` are the laws that what is asked has one answer, but for want of memory.
//! - `spelled_names_are_found` is the law that the declared names of a text's task are found by
//!   their texts.
//!
//! Read `specs/Violations.antt` first, then `specs/Verdicts.antt`, and `specs/Laws.antt` for what
//! follows. `specs/Input.antt` says what an input is, `specs/InputText.antt` which text is written
//! for a store, and `specs/Trials.antt` which inputs are tried.
#![tactic(auto)]

mod error;
mod first_break;
mod input;
mod input_text;
mod judging;
mod laws;
mod number;
mod runs;
mod trial_jobs;
mod trials;
mod verdict;

pub use error::{InputError, ReplayError};
pub use input::read_input;
pub use input_text::write_input;
pub use judging::judge;
pub use laws::{
    first_violation_is_one, least_trial_is_one, reading_is_one, spelled_names_are_found,
    valid_tasks_run, verdict_is_one, violations_conflict, written_text_is_one,
};
pub use runs::ends_of;
pub use trial_jobs::{first_violation, some_trial_meets};
pub use trials::trial;
pub use verdict::Verdict;
