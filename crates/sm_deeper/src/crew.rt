// Who walks goals.
ghost use Rattle.std.specs.Prelude.{◌<◌, ◌≤◌};

use sm_par::Gate;
use std::thread::Threads;

/// Who walks goals as jobs: 1 to 64 workers, behind a gate. Their number changes nothing that a
/// search finds.
#[derive(Drop)]
pub(crate) struct Crew<'c, R: Threads + Sync, G: Gate> {
    pub(crate) rt: &'c R,
    pub(crate) gate: &'c G,
    pub(crate) workers: u32,
    pub(crate) ghost some: { 0 < workers },
    pub(crate) ghost most: { workers ≤ 64 },
}
