//! Elimination of atoms from linear forms, as Fourier and Motzkin did it.
//!
//! - `Elimination` takes atoms out of forms, one after the other, and tells all that happens: each
//!   sum of two forms in which the atom cancels, in a stated order. Where an equation has the atom,
//!   the first such is summed with each other form that has it; else each form whose coefficient is
//!   below 0 with each whose coefficient is above 0.
//! - A sum is kept where it says something that no form in the list does. It gets the next place,
//!   after those of the given forms, and takes part in the elimination of the later atoms.
//! - The elimination ends at the first contradiction, at the first operation that leaves the range
//!   of linear forms, or when each atom was taken out.
//! - `form` gives the form at a place, so that a caller can write each step as a line of a
//!   certificate: in each step the atom cancels, and the sum is that of `elim`.
//! - Where it ends with no contradiction and inside the range, whole numbers over one positive
//!   denominator satisfy all the forms (`quiet_has_solution`).
//!
//! The pairs of an atom are never stored. Want of memory may come at any time; after it an
//! elimination isn't used again.
//!
//! Read `specs/Elimination.antt` first, then `specs/Taking.antt` and `specs/Solutions.antt`.
#![tactic(auto)]

mod elimination;
mod entry;
mod firsts;
mod forms;
mod known;
mod laws;
mod pairs;
mod roles;
mod same;
mod state;
mod step;

pub use elimination::Elimination;
pub use forms::Forms;
pub use laws::quiet_has_solution;
pub use step::ElimStep;
