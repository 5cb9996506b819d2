// Who runs inputs.
ghost use Rattle.std.specs.Prelude.{◌<◌, ◌≤◌};

use sm_par::Gate;
use std::thread::Threads;

/// Who runs inputs as jobs: 1 to 64 workers, behind a gate. Their number changes nothing that is
/// found.
#[derive(Drop)]
pub struct Crew<'c, R: Threads + Sync, G: Gate> {
    pub rt: &'c R,
    pub gate: &'c G,
    pub workers: u32,
    pub ghost some: { 0 < workers },
    pub ghost most: { workers ≤ 64 },
}
