//! Sketches: plans whose kept formulas are not chosen yet, and the plans of a choice.
//!
//! - A sketch is drawn from its end: a function puts a node before what follows it, and counts the
//!   nodes, so that none is larger than plans may be.
//! - `sites` lists the templates of each site of a sketch, in preorder, and `all_templates` is the
//!   choice of all of them.
//! - `plan_with` makes the plan of a choice: each site keeps the conjunction of the templates that
//!   are chosen there.
//!
//! Read `specs/Sketches.antt` first, then `specs/Choices.antt`; then `specs/NumberedSketches.antt`
//! and `specs/SketchViews.antt`, which say what the program's sketches stand for.
#![tactic(auto)]

mod choices;
mod copying;
mod drawing;
mod error;
mod extent;
mod kept;
mod listing;
mod planning;
mod sketch;

pub use choices::{all_numbers, all_templates};
pub use copying::{copied_simples, copy_sketch};
pub use drawing::{apart, each_step, each_summary, ends, forking, looped, step};
pub use error::ProductError;
pub use kept::TemplateChoice;
pub use listing::sites;
pub use planning::plan_with;
pub use sketch::{Extent, Sketch, SketchEnd, Sketches};
