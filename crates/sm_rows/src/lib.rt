//! The theory of arrays: an element that is read of an array to which one was written.
//!
//! - `Rows` answers exactly the lines hit and miss, each with the fact that it adds: at the index
//!   that was written the element is what was written, and at another it is what was there before.
//!   Where the line's condition fails, and for each other line, it answers none.
//! - What it adds holds wherever the facts of the branch do, is sorted where they and the line are,
//!   names no later new value than they, and is added on each other branch on which they stand.
//! - A line takes the time of the terms and the fact that it names, however long the branch is.
//!   That is no contract: nothing speaks of time.
//!
//! The lines are defined in `specs/Elements.antt` of `sm_theory`.
#![tactic(auto)]

mod reads;
mod theory;

pub use theory::Rows;
