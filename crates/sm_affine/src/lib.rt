//! Affine equalities among columns of numbers.
//!
//! - `equalities` looks for equalities between a column and at most six others, or five and a
//!   constant, by Gauss's elimination over a prime field. Each one that it gives holds at each row
//!   over whole numbers: this is tried at the end.
//!
//! It says nothing of equalities that it doesn't give. What the elimination suggests is left out
//! where it fails at a row, or where a sum at a row leaves 128 bits. The only error is want of memory.
//!
//! Read `specs/Equalities.antt`.
#![tactic(auto)]

mod equality;
mod field;
mod finding;
mod rational;
mod span;

pub use equality::{Equality, Part};
pub use finding::equalities;
