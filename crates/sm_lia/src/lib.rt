//! The lines of certificates that are of linear arithmetic over whole numbers.
//!
//! - `Lia` answers exactly `same`, `apart`, `lin`, `elim` and `tight`, each with the fact that it
//!   adds. Where the line's condition fails or a number leaves the range of linear forms, and for
//!   each other line, it answers none.
//! - What it adds holds wherever the facts of the branch do, is sorted where they and the line are,
//!   names no later new value than they, and is added on each other branch on which they stand.
//!
//! The lines are defined in `specs/Arithmetic.antt` of `sm_theory`, over terms. Read
//! `specs/Computing.antt` first, then `specs/Comparing.antt`.
#![tactic(auto)]

mod cancelling;
mod comparing;
mod computing;
mod lia;
mod subtracting;

pub use lia::Lia;
