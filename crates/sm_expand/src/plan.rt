// Plans, as trees.
use sm_term::Formula;

/// A node after which one state follows.
#[derive(Drop)]
pub enum Simple {
    /// One statement of a copy is done.
    Step { copy: u8 },
    /// So many statements of a copy are done, by their summary.
    Abs { copy: u8, count: u64 },
}

/// Such nodes, one under another.
#[derive(Drop)]
pub struct Simples {
    pub list: Vec<Simple>,
}

/// A plan: nodes one under another, and how it ends.
#[cycle(plan)]
#[derive(Drop)]
pub struct Plan {
    pub straight: Simples,
    pub last: Last,
}

/// The last node of a plan, with a plan for each state that follows it. A copy is 0 for the base, 1
/// and 2 for the variants and 3 for the candidate.
#[cycle(plan)]
#[derive(Drop)]
pub enum Last {
    /// A copy goes on by either branch.
    Fork {
        copy: u8,
        yes: Box<Plan>,
        no: Box<Plan>,
    },
    /// The loops of the copies whose bits are set in `set`, the base's the least, run together. The
    /// turns are those of the subsets, in order.
    Loop {
        set: u8,
        keep: Formula,
        turns: Plans,
        after: Box<Plan>,
    },
    /// The first statements of each copy, so many, run and end with a formula.
    Block {
        k0: u64,
        k1: u64,
        k2: u64,
        k3: u64,
        keep: Formula,
        inner: Box<Plan>,
        after: Box<Plan>,
    },
    /// The facts can't be.
    Dead,
    /// All copies are at their ends.
    End,
}

/// Plans, one after the other.
#[cycle(plan)]
#[derive(Drop)]
pub struct Plans {
    pub list: Vec<Plan>,
}
