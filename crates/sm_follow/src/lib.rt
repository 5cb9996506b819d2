//! What could stand behind the front of a text: the tokens with which it begins some task.
//!
//! - `follow_line` has, of a text up to the first fault of another, each reserved word and each
//!   sign that could stand behind it, whether a name or a number could, and whether the text could
//!   end there; and nothing else.
//! - `one_follow_line` is the law that there is one such line.
//!
//! Whether a task begins so is judged by the grammar alone: the conditions on tasks and the limits
//! on nesting play no part in it. The text is read once for each token, with that token behind it.
//!
//! Read `specs/Following.antt` first, then `specs/Kinds.antt`.
#![tactic(auto)]

mod following;
mod kinds;
mod laws;

pub use following::follow_line;
pub use kinds::Kind;
pub use laws::one_follow_line;
