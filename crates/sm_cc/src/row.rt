// What the classes need to know of a term. Other terms are told by their places in the list; one that
// isn't there has the length of the list for its place.

/// The linear form of a number: equal numbers stand for equal parts.
#[derive(Clone, Copy)]
pub(crate) struct Shape {
    pub(crate) parts: u64,
    pub(crate) constant: i128,
}

/// An element that is read from an array after one was written.
#[derive(Clone, Copy)]
pub(crate) struct Element {
    /// Where the element was written.
    pub(crate) index: u64,
    /// What was written.
    pub(crate) written: u64,
    /// Where an element is read.
    pub(crate) other: u64,
    /// What is read there of the array before.
    pub(crate) before: u64,
}

/// A term.
#[derive(Drop)]
pub(crate) struct Row {
    /// Equal numbers stand for equal heads. A term without a head has none.
    pub(crate) head: Option<u64>,
    pub(crate) arguments: Vec<u64>,
    /// None where the term is no number.
    pub(crate) shape: Option<Shape>,
    pub(crate) element: Option<Element>,
}
