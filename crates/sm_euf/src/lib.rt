//! The theory of equality: equations of terms, turned round, chained, put into one another and kept
//! by operations and by summaries.
//!
//! - `Euf` answers exactly the lines refl, sym, trans, subst and cong, each with the fact that it
//!   adds. Where the line's condition fails, and for each other line, it answers none.
//! - What it adds holds wherever the facts of the branch do, is sorted where they and the line are,
//!   names no later new value than they, and is added on each other branch on which they stand.
//! - `argument_of` finds an argument of a term of a table.
//! - A line takes the time of the terms and the facts that it names, however long the branch is.
//!   That is no contract: nothing speaks of time.
//!
//! The lines are defined in `specs/Equality.antt` of `sm_theory`, the heads of terms in
//! `specs/Heads.antt` of `sm_term`.
#![tactic(auto)]

mod arguments;
mod congruence;
mod equations;
mod theory;

pub use arguments::argument_of;
pub use theory::Euf;
