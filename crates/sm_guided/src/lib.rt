//! A violation of a task, beyond the inputs that are tried on every task.
//!
//! - `try_inputs` goes through further inputs. They are made of small numbers first, and then led to
//!   where no run has gone, by watching the guards. Where it answers an input that violates the
//!   condition, its verdict is the one that is given; else it gives the inputs that were tried, as
//!   far as they meet the assumption.
//! - Runs are jobs, and what they come to doesn't depend on the number of workers.
//!
//! Nothing follows where no input violates: it goes through 1,024 inputs at most, with runs of a
//! bounded number of steps, and leaves what it can't compute.
//!
//! Read `specs/Beyond.antt`: what is looked for stands there, and nothing of how it is found; then
//! `specs/Inputs.antt`.
#![tactic(auto)]

mod beyond;
mod coordinates;
mod crew;
mod ends;
mod guiding;
mod halt;
mod inputs;
mod leading;
mod observing;
mod places;
mod records;
mod running;
mod search;
mod searching;
mod setting;
mod small;
mod trials;
mod tried;

pub use beyond::Shown;
pub use tried::{Tried, try_inputs};
