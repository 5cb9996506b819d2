//! Whether a plan with certificates can be written as a proof file, whatever made it.
//!
//! - `is_writable` tells so, at run time. Where it tells `true`, the plan and the certificates have
//!   all that `write_proof` of `sm_write` asks of them, so that the file can be written and passes.
//! - The table of terms only widens. After `false` and after want of memory it is as it was.
//! - `is_plan_ready` tells the part of it that plans need before they are expanded.
//!
//! They say nothing of `false`: a plan for which it comes may be one that can be written.
//!
//! Read `specs/Writable.antt` of `sm_write` first. The rest is private: `specs/Since.antt` has from
//! which nodes on terms can be named, `specs/Known.antt` and `specs/Fit.antt` what is made of that,
//! and `specs/Walks.antt` how far a walk over the nodes came.
#![tactic(auto)]

mod asking;
mod auditing;
mod checking;
mod entries;
mod kept;
mod noting;
mod ready;
mod refusal;
mod spreading;
mod walking;

pub use auditing::is_writable;
pub use ready::is_plan_ready;
