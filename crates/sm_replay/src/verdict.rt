// What is found at an input.
use sm_syntax::Name;

/// What the runs from one start store show.
#[derive(Clone, Copy)]
pub enum Verdict {
    /// The four programs end, and the condition holds at each cell of an output.
    Holds,
    /// The store doesn't meet the assumption.
    Unmet,
    /// The four programs end, and this is the first output at which the condition fails, with the
    /// least index where it is an array, and the first clause there, from 1 to 3.
    Violates {
        name: Name,
        index: Option<i128>,
        clause: u8,
    },
}
