// What a linear form says of its sum.

/// What a linear form says of its sum: that it is at most 0, or that it is 0.
#[derive(Clone, Copy, Debug, PartialEq, Eq)]
pub enum Kind {
    Le,
    Eq,
}
