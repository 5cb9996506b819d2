//! What a block needs and what it writes.
//!
//! - `inputs` gives the names that decide a wanted name's value after a block: of two runs from
//!   stores that agree on them, both end or neither does, under every bound on the turns of loops,
//!   and where they end they agree on the wanted name.
//! - `writes` gives the names that a block assigns anywhere.
//!
//! Read `specs/Needs.antt` first, then `specs/Laws.antt`.
#![tactic(auto)]

mod assigned;
mod backward;
mod laws;
mod loops;
mod members;
mod names;

pub use assigned::writes;
pub use backward::inputs;
pub use laws::{inputs_are_needed, inputs_decide, inputs_decide_by_sort, names_are_declared};
