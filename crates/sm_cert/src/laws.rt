// Laws of certificates, as contracts.
ghost use Rattle.sm_cert.specs.Laws.{ClosedIsContradictory, ClosesMoved};

use crate::tree::{CertEnd, CertLines, CertTree};

/// Where a certificate closes a branch, no structure makes all facts of the branch hold.
#[tactic(auto, using(crate::proofs::CertificateLaws::closed_contradicts))]
pub fn closed_is_contradictory()
    ensures { ClosedIsContradictory }
{}

/// A certificate without an exact line closes each other branch on which the facts stand, with their
/// numbers there.
#[tactic(auto, using(crate::proofs::CertificateLaws::moved_closes))]
pub fn closes_moved()
    ensures { ClosesMoved }
{}

/// Certificates can be used by several threads, and handed over.
pub fn types_cross_threads() {
    crosses::<CertTree>();
    crosses::<CertLines>();
    crosses::<CertEnd>();
}

fn crosses<T: Send + Sync>() {}
