//! Whether whole numbers satisfy linear forms, decided by the Omega test.
//!
//! - `decide` gives the answer of `exact`: a solution, or that there is none, with the count of the
//!   forms that were computed; or that the count would pass its limit, or the first operation that
//!   leaves the range of forms.
//! - `With` is a theory with the exact line. The line takes the linear facts of a branch over the
//!   places of their atoms among the terms of its formulas, and adds `No` where the decision says
//!   that they have no solution.
//!
//! Rules nest as deep as there are counts, so what waits for the answer of a list is kept on a
//! stack of its own. The forms that a rule leaves as they are go into the next list, and are not
//! copied; only a list that is needed for splinters is. Want of memory may come at any time.
//!
//! Read `specs/Telling.antt` first, then `specs/Stack.antt`.
#![tactic(auto)]

mod answer;
mod atoms;
mod bounds;
mod branch_terms;
mod coefficients;
mod deciding;
mod entry;
mod equation;
mod frame;
mod giving;
mod line;
mod modular;
mod numbers;
mod placing;
mod shadows;
mod splinters;
mod splitting;
mod step;
mod values;
mod with;

pub use answer::{ExactAnswer, Pairs};
pub use deciding::decide;
pub use with::With;
