//! Jobs over workers: the results are those of running the jobs one after another, in their order.
//!
//! - `run_jobs` gives as many results as jobs, and result i stands for job i, for every number of
//!   workers.
//! - `run_calls` does so over a closure: result i is one that the closure may give for number i.
//! - Each job enters a gate directly before it runs. A gate changes no result; no contract speaks
//!   of it.
//!
//! The workers share nothing that changes. That two jobs ever run at once, and that with one worker
//! no thread is made, is tested, and not proved.
//! Read `specs/Results.antt`.
#![tactic(auto)]

mod calls;
mod gate;
mod jobs;

pub use calls::run_calls;
pub use gate::{Gate, Open, Phase};
pub use jobs::{Job, run_jobs};
