// What an answer to a task rests on.
use sm_eval::Store;
use sm_why::Stop;

/// What an answer to a task rests on.
#[derive(Drop)]
pub enum Ground {
    /// The proof.
    Proved,
    /// The input that violates the condition.
    Input(Store),
    /// What the search stopped at.
    Stopped(Stop),
}
