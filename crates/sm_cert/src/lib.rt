//! Certificates: trees of lines that show that the facts of a branch can't all hold.
//!
//! - `check_tree` gives Ok exactly where each line is good, each branch closes, and no more than
//!   1,000 splits stand above a line; want of memory alone is free. Else it tells that there are
//!   more splits, or the number of the first bad line.
//! - Ok tells that no structure makes all facts of the branch hold, whichever three theories there
//!   are: it follows from their laws.
//! - `add_line`, `closes` and `parts` do one line at a branch, in place.
//! - A certificate that closes a branch closes each other branch on which the facts stand, with
//!   their numbers there.
//!
//! Read `specs/Certificates.antt` first, then `specs/Views.antt` and `specs/Laws.antt`.
#![tactic(auto)]

mod check;
mod copies;
mod error;
mod laws;
mod tree;
mod ways;

pub use check::check_tree;
pub use error::CertFault;
pub use laws::{closed_is_contradictory, closes_moved};
pub use tree::{CertEnd, CertLines, CertTree};
pub use ways::{add_line, closes, parts};
