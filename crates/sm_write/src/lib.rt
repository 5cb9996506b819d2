//! Proof files, written from plans with certificates.
//!
//! - `write_proof` gives a text that passes, wherever the plan with its certificates is writable. It
//!   begins with the line of version 3 where a line is a line `exact`, of version 2 where none is and
//!   the task assumes something, and else of version 1.
//! - `is_short_line` tells whether a line of a certificate is short enough for a file.
//! - Where a plan is writable, each of its nodes can be written, one after the other: what its kept
//!   formula and its certificates name is built of what stood in the stores of states up to it.
//! - `naming` gives terms numbers in the file, parts first. `forms` writes formulas, and `trees` a
//!   certificate for the branch that is due, each behind the lines of its terms. `plans` walks over
//!   the nodes, with a stack of the states that wait for theirs. `rereading` reads the lines back and
//!   leaves out what no line names.
//!
//! Read `specs/Nameable.antt` first, then `specs/PlanStates.antt`, `specs/Writable.antt` and
//! `specs/Example.antt`, which `write_proof` cites with `specs/TreesWithin.antt` and
//! `specs/Versions.antt`. The rest is private: `specs/Ready.antt` has a plan node by node,
//! `specs/Writers.antt`, `specs/Walked.antt`, `specs/Stepped.antt` and `specs/Underway.antt` how far
//! a writer came.
#![tactic(auto)]

mod certs;
mod forms;
mod goals;
mod laws;
mod lines;
mod naming;
mod nodes;
mod plans;
mod rereading;
mod short;
mod spelling;
mod states;
mod text;
mod trees;
mod writer;
mod writing;

pub use laws::{
    branches_are_nameable, example_is_writable, plain_plans_are_writable, states_are_nameable,
};
pub use short::is_short_line;
pub use writing::write_proof;
