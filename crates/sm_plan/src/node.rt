// Nodes of a plan.
use sm_syntax::{CopyName, PerCopy};
use sm_term::Formula;

/// A node, which lends the formula that it keeps.
#[derive(Drop)]
pub enum NodeRow<'f> {
    Step {
        copy: CopyName,
    },
    Abs {
        copy: CopyName,
        count: u64,
    },
    Fork {
        copy: CopyName,
    },
    /// The copies whose bits are set in `set`, the base's the least.
    Loop {
        set: u8,
        keep: &'f Formula,
    },
    Block {
        counts: PerCopy<u64>,
        keep: &'f Formula,
    },
    Dead,
    End,
}
