//! Certificates without lines that nobody uses.
//!
//! - `trim_tree` trims a certificate: what it gives closes each branch of so many facts that the
//!   given one closes, and each line of it is used. It has no more lines, names no other terms, and
//!   names no more facts in a line and none by a greater number.
//! - A certificate of which each line is used is left as it is, so to trim twice is to trim once.
//!
//! It goes from the leaves to the root. A line that nothing left under it needs is left out, and of
//! a split the first part that doesn't need the fact that the split adds there takes the split's
//! place. Then the numbers of facts are closed up.
//!
//! Read `specs/Used.antt` first, then `specs/Named.antt`; `specs/Pruned.antt` and `specs/Laws.antt`
//! have trimming as a definition, with its laws.
#![tactic(auto)]

mod closing;
mod laws;
mod left;
mod lines;
mod marks;
mod pruning;
mod trim;

pub use laws::{trimmed_closes, trimmed_is_used, trimmed_twice, used_stays};
pub use trim::trim_tree;
