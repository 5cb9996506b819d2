//! Classes of equal terms: congruence closure over terms of a table, with linear forms and arrays.
//!
//! - `Classes` takes facts, all at once or one by one, each that two terms are equal or that they
//!   aren't, and answers which terms are equal by what was given, and which are known apart.
//! - Two terms are in one class exactly where each set of pairs has them that is closed under the
//!   rules: what is given, terms of one linear form, equal arguments, an element that is read where
//!   it was written or elsewhere, and what makes equality an equivalence.
//! - They are known apart exactly where terms that equal them have a given contrary, or linear forms
//!   that differ in the constant alone.
//! - To `Sees` of `sm_pairs` they answer what is computed in rounds over all pairs, which is the same.
//! - `explain` gives lines of a certificate for two terms of a class. On each branch of so many
//!   facts that has the given ones under their numbers, the rules of these lines add facts, the last
//!   of which is the equation. The lines name terms of the list alone. What is needed twice has one
//!   line.
//! - Of terms that aren't in the list nothing is known. After want of memory no terms are left.
//! - The linear forms of all terms of the table are handed in, made once by `next_lin` of
//!   `sm_theory` in a loop. They aren't kept.
//! - `BaseClasses` is made of terms and what is given of them, once. `Classes::over` has the classes of
//!   these terms and more behind them, of which more is given: what was found is kept, and only keys
//!   of what is new are made.
//! - `BaseClasses::behind` looks once at each term behind those of a base: terms that get one label
//!   are in one class, whatever more is given. The labels are exact where each of these terms has a
//!   form and a head with arguments of its own, and no rule tells anything of an element that is
//!   read.
//! - `are_equal` of `specs/Rounds.antt`, by which the walk is stated, computes the same classes in
//!   rounds: it is the least set of pairs that is closed, and what is known apart by it is known
//!   apart by each (`classes_are_least`).
//!
//! Classes only become coarser: nothing that was given is taken back.
//!
//! Read `specs/Classes.antt` first, then `specs/Laws.antt`, `specs/Views.antt` and
//! `specs/Explained.antt`.
#![tactic(auto)]

mod behind;
mod cause;
mod classes;
mod closure;
mod compare;
mod derive;
mod explain;
mod facts;
mod ground;
mod growing;
mod heads;
mod keys;
mod laws;
mod lines;
mod log;
mod marks;
mod merge;
mod places;
mod positions;
mod quiet;
mod regrounding;
mod rounds;
mod row;
mod rows;
mod seen;
mod shapes;
mod told;
mod witness;

pub use behind::AddedTerms;
pub use classes::{Classes, GivenFact};
pub use ground::{BaseClasses, NumberedBase, Numbering};
pub use laws::classes_are_least;
