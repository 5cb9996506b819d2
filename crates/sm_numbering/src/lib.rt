//! Values without repeats, numbered in the order in which they first came.
#![tactic(auto)]

mod numbering;

pub use numbering::Numbering;
