//! The answers of `print` and of `explain`: canonical text, and what a person reads behind the line of
//! an answer.
//!
//! - `print_in` answers the canonical text of a task's file, or of the program of one of its copies.
//! - `explain_in` of a task's file answers why it is refused, and shows the place where it has one,
//!   with what could stand there; or the four programs with their holes filled, each behind a line
//!   that names its copy. Of an input's file, too, it answers the line of `replay`, and behind it the
//!   start and where the ends of the four programs differ.
//! - `shown_ends` is what it shows of those ends alone.
//! - `begins_as_refused` and `begins_as_replayed` are the laws that an answer of `explain` has the
//!   status of the other commands, and begins with their line.
//!
//! Read `specs/Print.antt` first, then `specs/Explain.antt` with `specs/Shown.antt`.
#![tactic(auto)]

mod explaining;
mod laws;
mod printing;
mod refusing;
mod showing;

pub use explaining::explain_in;
pub use laws::{begins_as_refused, begins_as_replayed};
pub use printing::print_in;
pub use showing::shown_ends;
