//! What the four copies of a program have left, and what they do next, side by side.
//!
//! - `move_of` gives the next move of a set of copies, exactly as the definition has it: a step of
//!   one, summaries of what all that are left begin with, a fork of one, or loops together.
//! - `bodies` gives the bodies of the loops of a set, and `fork` goes on by a block of an if.
//! - `cut`, `inside` and `rests_in` go through the statements that shared code is filled with in
//!   each copy, whose blocks are slices of the filled programs.
//! - A set of copies is a mask of four bits, as in a proof; `has_hole` tells whether code has a
//!   hole.
//!
//! Read `specs/CopySets.antt` first, then `specs/CodeShapes.antt` and `specs/Moves.antt`; then
//! `specs/ProgramMoves.antt` and `specs/FilledCode.antt`.
#![tactic(auto)]

mod entering;
mod filled;
mod holes;
mod masks;
mod moves;
mod sets;

pub use entering::{bodies, copy_rests, fork};
pub use filled::{FilledBlock, TwoEach, copied, cut, filling_at, inside, rests_in, statements};
pub use holes::has_hole;
pub use masks::{bit, has, is_empty, least};
pub use moves::{Move, move_of};
pub use sets::{one_each, with_member, without};
