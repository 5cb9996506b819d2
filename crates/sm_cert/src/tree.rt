// Certificates, as trees of lines.
use sm_theory::CertLine;

/// Lines that stand one under another.
#[derive(Drop)]
pub struct CertLines {
    pub list: Vec<CertLine>,
}

/// A certificate: lines that each add facts to the branch, and how it ends.
#[cycle(certificate)]
#[derive(Drop)]
pub struct CertTree {
    pub lines: CertLines,
    pub last: CertEnd,
}

/// How a branch ends: a line closes it, or splits it in two, each with a certificate of its own.
#[cycle(certificate)]
#[derive(Drop)]
pub enum CertEnd {
    Close(CertLine),
    Split(CertLine, Box<CertTree>, Box<CertTree>),
}
