//! Plans: what must hold for a merge to be free of conflicts.
//!
//! - `open` gives what a node opens at a state: the goals that it asks and the states that follow,
//!   exactly as the definition has them, or nothing where the node's condition fails.
//! - `start_state` gives the start of a task's programs.
//! - The laws are contracts of functions that do nothing.
//! - Where all obligations of a fresh plan hold in every structure, the task is free of conflicts.
//! - The same of a list of nodes that takes one pending state after another, each with the number
//!   of branching nodes above it. The two are one: the nodes of such a plan in preorder prove the
//!   task's start, and nodes that prove it are those of such a plan.
//! - Sorts are kept: what a node opens at a sorted state is sorted, and so are its goals.
//! - Both stand on one step: where a node's goals hold and the states that it opens are sound, its
//!   own state is.
//!
//! Read `specs/Laws.antt` first, then `specs/States.antt`, `specs/Nodes.antt`,
//! `specs/Successors.antt`, `specs/Plans.antt` and `specs/NodeLists.antt`. `specs/Example.antt` has
//! a worked plan, `specs/Cases.antt` three cases to check by hand. What the program's states stand
//! for is in `specs/Views.antt`, and which may be gone on from in `specs/ReadyStates.antt`.
#![tactic(auto)]

mod blocks;
mod copies;
mod ends;
mod filling;
mod heads;
mod kept;
mod laws;
mod loops;
mod moves;
mod node;
mod opening;
mod parts;
mod renew;
mod rest;
mod slots;
mod start;
mod state;
mod steps;
mod successors;
mod summaries;
mod targets;
mod turns;

pub use laws::{
    cases_come_out, example_holds, node_is_sound, nodes_are_plans, nodes_are_sound, plan_is_sound,
    sorts_are_kept, start_is_sound, subsets_ascend,
};
pub use node::NodeRow;
pub use opening::{Opened, Successor, open};
pub use rest::Continuation;
pub use start::start_state;
pub use state::{Formulas, SymState};
