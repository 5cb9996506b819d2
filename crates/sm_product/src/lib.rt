//! The product of the programs of a task: the plans that are tried.
//!
//! - The product of a task is a plan with sites, where the formula that a loop or a block keeps is
//!   to be chosen among templates. Its laws are contracts of functions that do nothing: the plan of
//!   each choice of templates is fresh, has obligations exactly where it is within its limits, and
//!   keeps what is chosen.
//! - `sketch_of` draws the product of a task, over a table of terms, with the templates of each
//!   site.
//! - `plan_of` gives the plan of a task under a choice of its templates, exactly where the plan of
//!   all templates is within the limits: `is_small` tells that, by what `obligations_of` gives. So
//!   does `sites` tell how many sites a task has. `templates` gives the templates of one.
//! - After an error a table of terms has the terms that it had.
//!
//! Read `specs/Products.antt` first, then `specs/MiniProducts.antt` and `specs/ProductPlans.antt`.
//! `specs/Laws.antt` has the laws. Small tasks that are worked by hand stand in
//! `proofs/LoopExamples.antt` and `proofs/BranchExamples.antt`.
#![tactic(auto)]

mod asking;
mod beside;
mod blocks;
mod counting;
mod hole;
mod ifs;
mod laws;
mod limits;
mod loops;
mod mini;
mod mini_loops;
mod paths;
mod pieces;
mod product;
mod product_plans;
mod rooms;
mod sketching;

pub use asking::obligations_of;
pub use counting::sites;
pub use laws::{products_expand, sites_keep_chosen};
pub use limits::is_small;
pub use product_plans::{plan_of, templates};
pub use sketching::sketch_of;
