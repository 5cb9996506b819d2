//! Tasks: what a text must meet to be one, and the programs of the four copies.
//!
//! - `parse_task` reads exactly the texts that spell a task, all conditions met, each as the one
//!   task that it spells (`one_task`). Any other text is refused, with one error (`one_refusal`):
//!   that of the first condition that fails if the grammar has the text, or of its first fault.
//! - `print_task` gives the canonical text of a task, which spells the same task.
//! - `fill_all` gives the statements of each copy's program: those of the shared program with each
//!   hole replaced in place. `fill` gives one whole program. `holes_of` lists a block's holes.
//!
//! `Task` and `print_task` are those of `sm_text`. Read `specs/Tasks.antt` there for what a task
//! stands for, `specs/Errors.antt` for why a text is refused, and `Conditions.antt` and
//! `Spells.antt` of `sm_syntax`.
#![tactic(auto)]

mod conditions;
mod error;
mod filling;
mod holes;
mod laws;
mod parse;

pub use error::TaskError;
pub use filling::{fill, fill_all};
pub use holes::holes_of;
pub use laws::{fault_or_condition, one_condition, one_refusal, one_task, task_or_refusal};
pub use parse::parse_task;
pub use sm_text::{Task, print_task};
