// What a search that decides nothing stopped at.

/// How a goal isn't shown.
#[derive(Clone, Copy)]
pub enum Manner {
    /// A branch of its walk stays open.
    Open,
    /// The steps don't suffice for its walk.
    Steps,
    /// An operation of its walk leaves 128 bits.
    Coefficient,
}

/// What a search stopped at.
#[derive(Clone, Copy)]
pub enum Stop {
    /// A final goal, by its number among those of its node.
    Goal { manner: Manner, goal: u64 },
    /// A plan with too many nodes, goals or facts.
    TooMany,
}
