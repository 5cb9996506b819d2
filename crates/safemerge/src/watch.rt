// The clock that limits a search.
use sm_par::{Gate, Phase};
use std::rt::Clock;
use std::time::Instant;

/// A gate that does nothing, and knows the seconds since it was made, where there is a clock.
#[derive(Drop)]
pub struct Watch<'a, R> {
    rt: &'a R,
    begun: Option<Instant>,
}

impl<'a, R: Clock> Watch<'a, R> {
    /// Begins now.
    pub fn new(rt: &'a R) -> Watch<'a, R> {
        let begun = match Instant::now(rt) {
            Ok(instant) => Some(instant),
            Err(_) => None,
        };
        Watch { rt, begun }
    }
}

impl<R: Clock + Sync> Gate for Watch<'_, R> {
    fn enter(&self, _phase: Phase) {}

    fn seconds(&self) -> u64 {
        let Some(begun) = self.begun else {
            return 0;
        };
        match begun.elapsed(self.rt) {
            Ok(time) => time.as_secs(),
            Err(_) => 0,
        }
    }
}
