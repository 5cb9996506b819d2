//! What a person reads behind an answer: where a place of a text stands, what an input starts from,
//! and what the four programs end with.
//!
//! - `place_of` says the line and the column of an offset, and where its line starts and ends.
//!   `show_place` shows that line, with a caret under the column. Columns count bytes, so the caret
//!   stands too far to the right where the line has characters of several bytes.
//! - `start_lines` is the start, name by name as declared, of an array only what isn't 0.
//! - `table` runs the four programs once from an input. It has each cell of an output at which the
//!   four ends differ, with the four values, and says in words which clauses of the condition fail
//!   there. A cell that it doesn't have keeps the condition. If a program has no end, it says which
//!   stops first, and why.
//! - `place_is_one` is the law that an offset has one place, and `clauses_fail` that the words are
//!   said exactly where a clause of the condition fails.
//!
//! Read `specs/Places.antt` first, then `specs/Tables.antt` with `specs/Rows.antt`, and
//! `specs/Starts.antt`.
#![tactic(auto)]

mod cells;
mod indices;
mod laws;
mod places;
mod rows;
mod starts;
mod tables;

pub use laws::{clauses_fail, place_is_one};
pub use places::{Place, place_of, show_place};
pub use starts::start_lines;
pub use tables::table;
