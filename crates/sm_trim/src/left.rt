// What trimming leaves of a certificate.
use crate::marks::Marks;
use sm_theory::CertLine;

// A line that is left, with the number of facts that stood before it. It names facts by the numbers
// that they had.
#[derive(Drop)]
pub(crate) struct LeftLine {
    pub before: u64,
    pub line: CertLine,
}

// Lines one above another: the last comes first.
#[derive(Drop)]
pub(crate) struct LeftLines {
    pub list: Vec<LeftLine>,
}

// What is left of a certificate.
#[cycle(left)]
#[derive(Drop)]
pub(crate) struct LeftTree {
    pub lines: LeftLines,
    pub last: LeftEnd,
}

// How a branch ends that is left.
#[cycle(left)]
#[derive(Drop)]
pub(crate) enum LeftEnd {
    Close(LeftLine),
    Split(LeftLine, Box<LeftTree>, Box<LeftTree>),
}

// What is left of a certificate, with marks of the facts before it that a line which is left names.
#[derive(Drop)]
pub(crate) struct Needing {
    pub tree: LeftTree,
    pub marks: Marks,
}
