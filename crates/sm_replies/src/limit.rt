// A limit of time for a search.
ghost use Rattle.std.specs.Prelude.{IfOk};
ghost use Rattle.sm_replies.specs.Seconds.{RunsOut};

use sm_answers::{Reply, Status};
use sm_par::{Gate, Phase};
use sm_words::{Effort, line};
use std::alloc::{AllocError, Global};

/// A gate that is shut once so many seconds are over, where a number is given, and otherwise with
/// another gate.
#[derive(Drop)]
pub struct Limited<'g, G: Gate> {
    pub gate: &'g G,
    pub seconds: Option<u32>,
}

impl<G: Gate> Gate for Limited<'_, G> {
    fn enter(&self, phase: Phase) {
        self.gate.enter(phase);
    }

    fn is_shut(&self) -> bool {
        let is_over = match self.seconds {
            Some(seconds) => seconds as u64 <= self.gate.seconds(),
            None => false,
        };
        is_over || self.gate.is_shut()
    }

    fn may_shut(&self) -> bool {
        self.seconds.is_some() || self.gate.may_shut()
    }

    fn seconds(&self) -> u64 {
        self.gate.seconds()
    }
}

/// The answer where a search was left: that the time is over, where it is; else memory was wanting.
pub fn time_over<G: Gate>(alloc: Global, gate: &G, effort: Effort) -> Result<Reply, AllocError>
    ensures { IfOk result (λ r. RunsOut effort r.status r.text.items) }
{
    let Some(seconds) = effort.seconds else {
        return Err(AllocError);
    };
    if gate.seconds() < seconds as u64 {
        return Err(AllocError);
    }
    let text = line(alloc, "Unknown", &["Seconds"])?;
    Ok(Reply {
        status: Status::Unknown,
        text,
    })
}
