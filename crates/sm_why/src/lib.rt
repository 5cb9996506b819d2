//! Why `check` decides nothing, in words: which clause of the condition isn't shown of which output,
//! at which hole of the task's text; and how many trials ended.
//!
//! - `reason_line` is the line on what a search stopped at. Of a final goal it has the line and the
//!   column of a hole of the shared program, found by its tokens, the goal's output, and its clause
//!   in words. `final_goals_ask_clauses` is the law that this is the clause that the goal asks.
//! - `trials_line` says how many of the trials meet the assumption and end, within so many turns.
//!
//! Which hole stands in the line isn't stated: it is the last one that writes what the output needs
//! behind it.
//!
//! Read `specs/Reasons.antt` first, then `specs/Sites.antt`, `specs/Trials.antt` and
//! `specs/Goals.antt`.
#![tactic(auto)]

mod laws;
mod needing;
mod saying;
mod sites;
mod stop;
mod trials;

pub use laws::final_goals_ask_clauses;
pub use saying::reason_line;
pub use stop::{Manner, Stop};
pub use trials::trials_line;
