//! What runs show at the loops of a plan, and the candidates for what the loops keep that no run
//! refutes.
//!
//! - `site_candidates` makes the candidates of a site: its templates, affine equalities among
//!   numbers, also under the guards of loops, bounds to what the copies enter with, few values of a
//!   number, and clauses of guards. It leaves those that hold at each visit.
//! - All that is claimed is that the table of terms widens. A candidate is a guess, and nothing
//!   follows from it: what a plan keeps has to be proved.
//! - `Work` bounds the work of a whole search. Where it is spent, a site has no candidates.
//!
//! Read `specs/LoopStates.antt`, then `site`, which puts the kinds of candidates together, and
//! `filter`.
#![tactic(auto)]

mod affine;
mod clauses;
mod columns;
mod filter;
mod forms;
mod guards;
mod names;
mod reads;
mod rows;
mod scene;
mod site;
mod states;
mod sums;
mod terms;
mod truth;
mod visits;
mod work;

pub use site::{Observed, site_candidates};
pub use states::LoopState;
pub use visits::{Entry, Visit, Visits};
pub use work::Work;
