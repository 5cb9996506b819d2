//! What is answered to a task by what its search comes to.
//!
//! - `check` answers a task: `Accepted` for one that is free of conflicts alone, with its proof;
//!   `Conflict` with the first trial that shows one; or `Unknown` with the first goal that stays open.
//!   `Ground` is what the answer rests on.
//! - `suggest_in` answers the first combination of the given fillings that the search accepts,
//!   `gen_in_time` makes a task and answers it, and `batch_in` answers the files that a list names, a
//!   line each, as `check` does.
//! - `Limited` is a gate that is shut once the time is over, and `time_over` says that it is.
//!
//! `specs/Check.antt`, `specs/Suggest.antt`, `specs/Gen.antt` and `specs/Batch.antt` say what is
//! answered, `specs/Seconds.antt` what where the time is over, and `specs/HeadlineBatch.antt` what a
//! line `Accepted` of `batch` says.
#![tactic(auto)]

mod batch_lines;
mod batch_worker;
mod batching;
mod decided;
mod gathering;
mod ground;
mod limit;
mod making;
mod notes;
mod suggesting;
mod undecided;

pub use batching::batch_in;
pub use decided::{Decided, Place, accepted, check, violated};
pub use ground::Ground;
pub use limit::{Limited, time_over};
pub use making::gen_in_time;
pub use suggesting::suggest_in;
