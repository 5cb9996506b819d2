//! The plan and the certificates of a proof file.
//!
//! - `load_bytes` gives what the bytes of a proof file say: the terms, a plan over them, a certificate
//!   for each goal of the plan's obligations, and how many facts stand before it.
//!
//! Nothing is claimed of what is loaded: `is_writable` of `sm_audit` tells of it whether it can be
//! written, and a file that is written of it is checked.
//!
//! The lines are taken by the checker, one after another, and kept by the numbers that their terms
//! have in its table. Plan and certificates are put together from the last line to the first.
#![tactic(auto)]

mod arity;
mod gathering;
mod loading;
mod planting;
mod putting;

pub use loading::{Loaded, load_bytes};
