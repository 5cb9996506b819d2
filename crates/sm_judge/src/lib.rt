//! A branch of a walk, judged: whether it is closed at once, what its linear forms come to, and by
//! what it is split.
//!
//! - `closed_by` tells why a branch is closed at once, where it is: a fact can't hold by the classes,
//!   or two terms of one class have linear forms that differ in the constant alone.
//! - `by_forms` adds forms up while atoms are taken out, and tells a contradiction with its sums; that
//!   there is none; that no step is left; or the first operation that leaves the range.
//! - `split_of` tells by what a branch is split: by two indices, by the parts of a disjunction that
//!   isn't held, or by the order of two numbers that aren't equal. Whether a formula holds is decided
//!   by the classes of its terms and by the facts, which are found by keys.
//! - Each of these is exactly what is defined over the terms of the branch. Classes are asked by `Sees`
//!   of `sm_pairs` alone, or handed in as labels of terms.
//! - `linear_forms` makes the forms of all terms of a table, once for all branches.
//!
//! Read `specs/Holding.antt` first, then `specs/Forms.antt` and `specs/Refutations.antt`.
#![tactic(auto)]

mod closing;
mod eliminating;
mod forms;
mod holding;
mod keyed;
mod linears;
mod pairs;
mod splits;
mod summing;
mod term_places;
mod torn;

pub use closing::{BranchSplit, Closing, closed_by, split_of};
pub use eliminating::{ByForms, ElimLine, Progress, Refutation, by_forms};
pub use forms::{Source, SourcedForms, forms_by_labels, forms_of};
pub use linears::{add_linear_forms, linear_forms};
pub use term_places::terms_have_places;
pub use torn::have_same_parts;
