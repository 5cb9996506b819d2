//! The terms of formulas: listed, put into a table of their own, and put under other numbers.
//!
//! - `list_formulas` lists the terms of formulas, each once and after its arguments, and `own_branch`
//!   behind them what each element that is read was before it was written. A term that is listed
//!   needs no stack, however deep it is.
//! - `add_parts` and `add_with_parts` put the parts of all conjunctions behind formulas, in the order
//!   of a queue.
//! - `own_branch` gives facts over a table of their own terms, where the number of each is its place
//!   in their list. New terms go last in the table that the facts are over; after want of memory it
//!   is as it was.
//! - `SharedTerms` is such a table behind which the terms of more formulas go for a while (`add`), and
//!   are cut again.
//! - `renumbered` and `renumbered_tree` put a formula and a certificate under the numbers that terms
//!   have in another table. They stand for the same there.
//!
//! Read `specs/Branches.antt` first, then `specs/Parts.antt`,
//! `specs/Renumbered.antt` and `specs/Shared.antt`.
#![tactic(auto)]

mod own;
mod parts;
mod reads;
mod renumber;
mod renumber_lines;
mod shared;
mod terms;

pub use own::{OwnBranch, own_branch};
pub use parts::{add_parts, add_with_parts};
pub use renumber::renumbered;
pub use renumber_lines::renumbered_tree;
pub use shared::{SharedFacts, SharedTerms, shared_facts};
pub use terms::{list_formulas, numbered_terms};
