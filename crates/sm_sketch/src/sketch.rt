// Sketches: plans whose kept formulas are not chosen yet.
use sm_expand::Simples;
use sm_plan::Formulas;
use std::rc::Rc;

/// How many nodes a sketch has, and how many branching ones one under another, at most.
#[derive(Clone, Copy)]
pub struct Extent {
    pub nodes: u64,
    pub branches: u64,
}

/// A sketch: nodes one under another, and how it ends. The first node is the last of the list, so
/// that a node is put before a sketch by a push.
#[cycle(sketch)]
#[derive(Drop)]
pub struct Sketch {
    pub straight: Simples,
    pub last: SketchEnd,
    pub extent: Extent,
}

/// The last node of a sketch, with a sketch for each state that follows it. A copy is 0 for the
/// base, 1 and 2 for the variants and 3 for the candidate. At a loop and at a block stand the
/// templates of which the formula that it keeps is to be made; they are shared by the copies of a
/// sketch.
#[cycle(sketch)]
#[derive(Drop)]
pub enum SketchEnd {
    /// A copy goes on by either branch.
    Fork {
        copy: u8,
        one: Box<Sketch>,
        other: Box<Sketch>,
    },
    /// The loops of the copies whose bits are set in `set`, the base's the least, run together. The
    /// turns are those of the subsets, in order.
    Loop {
        set: u8,
        templates: Rc<Formulas>,
        turns: Sketches,
        after: Box<Sketch>,
    },
    /// The first statements of each copy, so many, run and end with a formula.
    Block {
        k0: u64,
        k1: u64,
        k2: u64,
        k3: u64,
        templates: Rc<Formulas>,
        inner: Box<Sketch>,
        after: Box<Sketch>,
    },
    /// All copies are at their ends.
    End,
}

/// Sketches, one after the other.
#[cycle(sketch)]
#[derive(Drop)]
pub struct Sketches {
    pub list: Vec<Sketch>,
}
