//! Plans as trees, and what they ask.
//!
//! - `expand` gives the obligations of a plan for a task: the goals of each node over the facts of
//!   its state, in preorder, exactly as the definition has them.
//! - Where there are none it says why: more than 1,000 branching nodes stand above a node, or else
//!   the number of the first node whose rule fails, with the rule. Want of memory alone is free.
//! - A table of terms only widens, so that numbers of terms stay.
//! - `start_of`, `row_at` and `open_at` walk over a plan node by node, for what does something else
//!   with its nodes; `put_states` keeps the states that wait for theirs.
//!
//! A plan is a tree: the fields of its last node are the plans for the states that follow. The
//! definition is `obligations` of `sm_plan/specs/Plans.antt`. Read `specs/NumberedPlans.antt`
//! first, then `specs/Views.antt`.
#![tactic(auto)]

mod cursor;
mod depth;
mod due;
mod expanding;
mod fault;
mod nodes;
mod placed;
mod plan;
mod walk;

pub use cursor::{Cursor, row_at, start_of};
pub use due::{Due, Obligations};
pub use expanding::expand;
pub use fault::PlanFault;
pub use nodes::open_at;
pub use placed::{PlacedState, put_states};
pub use plan::{Last, Plan, Plans, Simple, Simples};
