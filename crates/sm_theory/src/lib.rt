//! Lines of certificates: what each derives from the facts of a branch, in the theories of equality,
//! of arrays and of linear arithmetic over whole numbers.
//!
//! - `ways` is what a line does to a branch, as one function: the ways in which the branch goes on.
//!   Where the facts of a branch hold, not every way fails.
//! - What a line of equality, of arrays or of arithmetic adds holds wherever the facts of the branch
//!   do. It is sorted where these and the line are, names no later new values than they, and is
//!   added on each other branch on which the line reads the same. The exact line reads the whole
//!   branch, every other line the facts that it names.
//! - `Theory` is what a theory promises of its lines, whoever writes it.
//! - `lin_of` gives the linear form of a term of a table, which has the term's value; so does
//!   `next_lin`, where the forms of all terms before it are there. A form over numbers of terms stands
//!   for one over the terms, and so does what is computed of it.
//! - A fact is found on a branch by its number, with the terms that it compares.
//! - `line_under` is a line under other numbers of its terms.
//!
//! Read `specs/Facts.antt` first, then `specs/Lines.antt`, `specs/Ways.antt` and `specs/Laws.antt`.
//! `specs/Equality.antt`, `specs/Elements.antt`, `specs/Arithmetic.antt` and `specs/ExactLine.antt`
//! have the lines.
#![tactic(auto)]

mod fact;
mod laws;
mod line;
mod linear;
mod renumber;
mod sides;
mod theory;

pub use fact::{Branch, Fact};
pub use laws::{
    arithmetic_adds_anywhere, arithmetic_adds_what_holds, arithmetic_adds_what_is_below,
    arithmetic_adds_what_is_sorted, arrays_add_anywhere, arrays_add_what_holds,
    arrays_add_what_is_below, arrays_add_what_is_sorted, can_cancel_stands, combined_stands,
    contradictory_stands, eliminated_stands, equality_adds_anywhere, equality_adds_what_holds,
    equality_adds_what_is_below, equality_adds_what_is_sorted, linear_has_value, linear_stands,
    one_more_stands, same_parts_stand, some_way_holds, stands_later, tightened_stands,
    ways_add_so_many, ways_are_below, ways_are_sorted, ways_move,
};
pub use line::{CertLine, FactNumbers};
pub use linear::{lin_of, next_lin};
pub use renumber::{line_under, number_under};
pub use sides::{
    contrary_at, equation_at, fact_at, form_at, formula_at, same_term, says_equal, says_unequal,
};
pub use theory::Theory;
