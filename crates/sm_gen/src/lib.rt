//! Tasks that are made up, to try the rest on.
//!
//! - `generate` makes the task that a seed and a size name: exactly that of `generated`, with how
//!   many holes each variant edits. It is one that some text spells, so all that holds of tasks
//!   that are read holds of it.
//!
//! No name is edited by both variants, and the candidate has the edits of both.
//!
//! Read `specs/Drawing.antt` first, then `specs/Generating.antt`.
#![tactic(auto)]

mod building;
mod drawing;
mod generating;

pub use generating::{Generated, generate};
