// Laws of elimination, as contracts.
ghost use Rattle.sm_fm.specs.Solutions.{QuietHasSolution};

/// Where nothing that happens is a contradiction or leaves the range, the forms have a solution over
/// fractions.
#[tactic(auto, using(crate::proofs::QuietSolved::quiet_solved))]
pub fn quiet_has_solution()
    ensures { QuietHasSolution }
{}
