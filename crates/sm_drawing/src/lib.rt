//! Plans that are drawn along runs.
//!
//! - `draw` runs the four programs of a task from inputs, side by side, and draws the plan that
//!   these runs walk: a branch that no run takes is a dead end. It gives the plan, in which no loop
//!   keeps anything yet, and what the runs showed at each of its loops.
//!
//! Nothing follows from a drawing: it says what may be tried. The obligations of a plan decide.
//! A drawing ends: it has a bounded number of nodes, and its runs take a bounded number of steps.
#![tactic(auto)]

mod beside;
mod canvas;
mod code;
mod drawing;
mod error;
mod lists;
mod looping;
mod moments;
mod running;
mod shared;
mod sides;
mod sorted;
mod straight;
mod trees;
mod turns;
mod works;

pub use canvas::{DeadEnd, Style};
pub use drawing::{Drawing, draw};
pub use error::DrawingError;
