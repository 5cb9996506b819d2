//! What the searches for a plan share: a plan asks goals over facts, and its proof has a certificate
//! for each.
//!
//! - `node_of` makes the facts of a node once for all its goals, and `are_same` tells whether two
//!   lists ask the same.
//! - `Proof` is a plan over a table of terms, with a certificate for each goal that it asks.
//!   `specs/Whole.antt` says when it can be written as a proof file of a task.
#![tactic(auto)]

mod goals;
mod proof;

pub use goals::{are_same, node_of};
pub use proof::Proof;
