// How much a search may do.
use sm_observed::Work;
use sm_solve::Reach;

/// How far each walk goes, and how much work is left to all of a search: a bound on the time that
/// it takes. Where it is spent, nothing more is found.
#[derive(Drop)]
pub(crate) struct Effort {
    pub(crate) reach: Reach,
    pub(crate) work: Work,
}
