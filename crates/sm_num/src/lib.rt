//! Whole numbers of 128 bits, and linear forms over them.
//!
//! - `add`, `sub` and `mul` give the exact result, and none exactly where it lies outside 128 bits.
//! - The atoms of a `LinForm` ascend, no coefficient is 0, and all its numbers lie from
//!   -(2^127 - 1) to 2^127 - 1.
//! - `combine` gives the exact sum of two forms, each times a number, or the first operation whose
//!   result leaves that range.
//! - `cancels` is true exactly where an atom can be cancelled between two forms. `elim` then gives
//!   their sum without the atom, divided by what divides all its numbers, or the first such
//!   operation.
//! - `tighten` gives what a form says of whole numbers, with coefficients that have no common
//!   divisor.
//! - `is_contradiction` is true exactly where a form has no parts and doesn't hold.
//!
//! Read `specs/Range.antt` first, then `specs/Forms.antt`, `specs/Combining.antt`,
//! `specs/Eliminating.antt` and `specs/Tightening.antt`. `specs/Errors.antt` says what a call
//! returns.
#![tactic(auto)]

mod arithmetic;
mod combining;
mod dividing;
mod eliminating;
mod error;
mod form;
mod kind;
mod laws;
mod merging;
mod op;
mod tightening;

pub use arithmetic::{add, mul, sub};
pub use combining::combine;
pub use eliminating::{cancels, elim};
pub use error::NumError;
pub use form::{LinForm, is_contradiction};
pub use kind::Kind;
pub use laws::{
    combined_has_value, combined_is_kept, contradiction_fails, elim_adds_no_atom, elim_holds,
    elim_is_kept, elim_takes_atom, numbering_does_not_matter, numbering_does_not_matter_to_elim,
    order_does_not_matter, order_does_not_matter_to_elim, tighten_holds, tighten_is_kept,
};
pub use op::Op;
pub use tightening::tighten;
