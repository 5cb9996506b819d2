//! One-sided tasks, whose candidate has the only change of the base, and the plan that shows them.
//!
//! - `one_sided` tells whether the candidate has the only change of the base: that of one variant,
//!   where the other is the base, or that of both, where they are the same tree.
//! - `whole_plan` gives a plan of such a task, which expands, with a certificate that closes the
//!   branch of each of its goals. After an error the table of terms has the terms that it had.
//!
//! Read `specs/OneSided.antt` first, then `specs/WholePlan.antt` and `specs/WholeCertificates.antt`.
#![tactic(auto)]

mod part_trees;
mod sided;
mod whole;

pub use sided::{Change, one_sided};
pub use whole::{CertTrees, whole_plan};
