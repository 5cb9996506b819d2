//! Whether each line of a proof file is used.
//!
//! - `has_used_lines` tells of a file for a task whether each line of its certificates is used: one
//!   that closes its branch is, another where a later line names a fact that it adds. It is told of
//!   the file's bytes, whoever wrote them.
//!
//! The lines are taken by the checker, which tells how many facts stand before each. Then they are
//! looked at from the last to the first: for each branch that is closed behind a line, the facts are
//! known that the lines name which close it.
//!
//! `specs/UsedLines.antt` of `sm_prune` says when a line is used. What stands in `specs` here is
//! private.
#![tactic(auto)]

mod counting;
mod names;
mod used;
mod using;

pub use used::has_used_lines;
