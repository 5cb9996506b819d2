// A gate in which two jobs meet, which no answer shows.

use crate::fault::Fault;
use serde_json::Value;
use sm_par::{Gate, Phase};
use std::sync::atomic::{AtomicBool, AtomicU64, Ordering};

// How often a job that came first asks whether another came.
const TURNS: u64 = 1_000_000_000;

/// Notes whether two jobs of one phase were ever inside at once; of no phase, nothing. Its time stands
/// still.
#[derive(Drop)]
pub struct Meeting {
    phase: Option<Phase>,
    seconds: u64,
    entered: AtomicU64,
    met: AtomicBool,
}

impl Meeting {
    /// For the phase and the seconds that a case names.
    pub fn of(case: &Value) -> Result<Meeting, Fault> {
        let phase = match case.get("meet").and_then(Value::as_str) {
            None => None,
            Some("trials") => Some(Phase::Trial),
            Some("obligations") => Some(Phase::Obligation),
            Some("certificates") => Some(Phase::Certificate),
            Some("answers") => Some(Phase::Answer),
            Some(_) => return Err(Fault::Form("no phase")),
        };
        Ok(Meeting {
            phase,
            seconds: case.get("seconds").and_then(Value::as_u64).unwrap_or(0),
            entered: AtomicU64::new(0),
            met: AtomicBool::new(false),
        })
    }

    /// What is told of the jobs of the phase.
    pub fn report(&self) -> &str {
        match (self.phase, self.met.load(Ordering::SeqCst)) {
            (None, _) => "",
            (Some(_), true) => "two at once\n",
            (Some(_), false) => "no two at once\n",
        }
    }

    // Whether jobs of a phase are watched.
    fn watches(&self, phase: Phase) -> bool {
        match (self.phase, phase) {
            (Some(Phase::Trial), Phase::Trial)
            | (Some(Phase::Obligation), Phase::Obligation)
            | (Some(Phase::Certificate), Phase::Certificate)
            | (Some(Phase::Answer), Phase::Answer) => true,
            _ => false,
        }
    }
}

impl Gate for Meeting {
    fn enter(&self, phase: Phase) {
        if !self.watches(phase) || self.entered.fetch_add(1, Ordering::SeqCst) != 0 {
            return;
        }
        'turns: for _ in 0..TURNS {
            if self.entered.load(Ordering::SeqCst) >= 2 {
                self.met.store(true, Ordering::SeqCst);
                return;
            }
        }
    }

    fn seconds(&self) -> u64 {
        self.seconds
    }
}
