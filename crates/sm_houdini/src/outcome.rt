// What a search comes to.
use sm_goals::Proof;
use sm_num::Op;
use sm_replay::Verdict;

/// What the search for a proof of a task comes to. Nodes and goals of the plan are numbered.
#[derive(Drop)]
pub enum Outcome {
    /// The plan is shown by its certificates.
    Accepted(Proof),
    /// The first trial that violates the task, and where.
    Conflict {
        trial: u8,
        verdict: Verdict,
    },
    /// The first final goal that doesn't close: a branch stays open.
    Open {
        node: u64,
        goal: u64,
    },
    /// The steps don't suffice for it.
    Steps {
        node: u64,
        goal: u64,
    },
    /// An operation leaves the range of linear forms.
    Coefficient {
        node: u64,
        goal: u64,
        op: Op,
        a: i128,
        b: i128,
    },
    /// The plan has too many nodes, goals or facts.
    TooMany,
}
