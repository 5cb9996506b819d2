//! The first combination of given fillings that a decision accepts.
//!
//! - `choices` says of a combination, which is a number, whose filling each hole takes.
//! - `combine_fillings` makes the task that has a combination as its candidate, all else as it was.
//!   The task's own candidate is left out, and counts for nothing.
//! - `suggest` goes through the combinations of a task in order, and answers the first that a
//!   decision accepts, or that it refuses all. The decision is a closure, and is only asked of
//!   tasks that are fit for it. A program of more than 8 holes is refused, and want of memory is an
//!   error at any place.
//! - Each combination of a task that is fit is fit (`combinations_are_fit`), and so is a task that
//!   some text spells (`spelled_are_fit`).
//!
//! It says nothing of what the decision decides.
//!
//! Read `specs/Combinations.antt` first, then `specs/Fit.antt` and `specs/First.antt`.
#![tactic(auto)]

mod choosing;
mod combining;
mod error;
mod laws;
mod suggesting;

pub use choosing::choices;
pub use combining::combine_fillings;
pub use error::SuggestError;
pub use laws::{combinations_are_fit, spelled_are_fit};
pub use suggesting::suggest;
