//! Lines of a proof file without the terms and formulas that no line names.
//!
//! - `pruned` leaves out each line that makes a term or a formula which no later line names that is
//!   left, and closes up the numbers of the others. Where the lines lead from the start of a proof,
//!   those that are left lead to as many nodes, and the same is pending then. Each of them that makes
//!   a term or a formula is named by a later one.
//!
//! It goes from the last line to the first and marks what is named, then from the first to the last.
//!
//! Read `specs/UsedLines.antt` first, then `specs/LineNumbers.antt`, `specs/Texts.antt` and
//! `specs/Laws.antt`. The rest is private: `specs/LeftLines.antt` has the lines that are left.
#![tactic(auto)]

mod marks;
mod naming;
mod numbers;
mod prune;
mod renumber;
mod told;

pub use prune::pruned;
