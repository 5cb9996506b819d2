//! Terms that stand for the values of programs, formulas over them, and what both mean.
//!
//! - A table has each term once, under a number: two numbers are equal exactly where their trees
//!   are. A new term goes last, and no other number changes.
//! - A term is put in exactly where each argument has the sort that the term needs there. So each
//!   term of a table is well sorted, and so is each body of a summary.
//! - After a refusal the table is as it was.
//! - The last terms of a table can be put into another whose first trees are the same: each has
//!   the tree there that it had.
//! - The term of an expression is the tree that its definition gives over a symbolic store, and the
//!   formula of a condition the assertion.
//! - A term of an expression means the expression's value in every structure, and a formula of a
//!   condition its truth.
//! - Negation says the contrary, and a goal holds wherever the facts do, if the facts and its
//!   negation are refuted.
//!
//! Read `specs/Terms.antt` first, then `specs/Structures.antt`, `specs/Assertions.antt` and
//! `specs/Laws.antt`. What a table stands for is in `specs/Tables.antt`, `specs/Fitting.antt`,
//! `specs/TableLaws.antt` and `specs/Tails.antt`.
#![tactic(auto)]

mod adoption;
mod bodies;
mod body;
mod copies;
mod error;
mod forms;
mod formula;
mod intern;
mod laws;
mod moves;
mod symbolic;
mod table;
mod tails;
mod term;

pub use error::TermError;
pub use forms::form_of;
pub use formula::{Formula, copy_formula, negate};
pub use laws::{
    at_stores_holds, conj_holds, form_means_truth, fresh_holds, holds_is_stable,
    negate_is_contrary, refuted_is_valid, term_means_value,
};
pub use symbolic::{SymStore, term_of};
pub use table::TermTable;
pub use tails::TermRows;
pub use term::{BodyId, Term, TermId, Terms};
