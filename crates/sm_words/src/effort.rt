// How much a search may do.

/// How much a search may do, and by how many workers its jobs are run.
#[derive(Clone, Copy)]
pub struct Effort {
    /// The most steps of one walk.
    pub steps: u64,
    /// The most turns of a loop in a trial.
    pub turns: u64,
    /// From 1 to 64.
    pub workers: u32,
    /// After how many seconds no further job runs, if any: the answer is then that the time is over.
    pub seconds: Option<u32>,
    /// Whether a branch that nothing splits is decided exactly, over whole numbers.
    pub exact: bool,
    /// Whether inputs beyond the trials are run where the search decides nothing.
    pub deeper: bool,
    /// Whether words stand behind an answer, which say why.
    pub why: bool,
}
