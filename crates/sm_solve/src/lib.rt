//! The walk of an obligation: whether its goal follows from its facts.
//!
//! - `solve` walks over the branches of the facts and the contrary of the goal, depth first, and
//!   tells the first event: each branch is closed, with a certificate that checks and names only
//!   terms of the walk; a branch stays open; the steps don't suffice, or too many splits stand above
//!   a branch; an operation leaves the range of linear forms. Want of memory alone is free.
//! - A branch is closed by its classes or by its linear forms, or else is split: `sm_judge` tells which,
//!   and `sm_certify` gives the certificate.
//! - Where it is asked to, it decides the forms of a branch that nothing splits exactly: without a
//!   solution in whole numbers the branch is closed, by an exact line (`sm_exact`).
//! - The walk goes over a table of the branch's own terms, where the number of each is its place in
//!   their list; certificates and formulas get the numbers of the caller's table at the end
//!   (`sm_list`).
//! - `FactBase` is made of the facts of several obligations, once: the table of their terms, and their
//!   classes. `solve_at` answers an obligation of these facts as `solve` does, and makes anew only
//!   what its goal adds. All branches of such a walk begin with these classes (`Base` of `sm_certify`);
//!   those of a walk of its own begin with those of its first branch, where that is split.
//!
//! Read `specs/Walk.antt` first, then `specs/Answers.antt`; what is seen on a branch stands in
//! `specs/Holding.antt` of `sm_judge`, its terms in `specs/Branches.antt` of `sm_list`.
//! `proofs/WalkExamples.antt` has walks worked by hand.
#![tactic(auto)]

mod branching;
mod context;
mod deciding;
mod ending;
mod fact_base;
mod first;
mod goal_end;
mod goals;
mod grounding;
mod inconsistent;
mod reach;
mod reading;
mod same_forms;
mod sharing;
mod solving;
mod still_inconsistent;
mod visiting;
mod walking;

pub use fact_base::FactBase;
pub use reach::Reach;
pub use sharing::solve_at;
pub use solving::{Answer, Leaf, solve};
