// Jobs, run by workers.
ghost use Rattle.std.specs.Prelude.{◌≡◌, ◌<◌, ◌≤◌, ℕ, IfOk};
ghost use Rattle.sm_par.specs.Results.{StandInOrder};

use crate::calls::run_calls;
use crate::gate::{Gate, Phase};
use std::alloc::{AllocError, Global};
use std::thread::Threads;

/// Jobs with numbers from 0 on. Each job's answer is determined by the job alone.
pub trait Job: Sync {
    type Out: Send + Drop;

    // How many jobs there are.
    ghost indices: { Self → ℕ };

    // Which outputs stand for a job.
    ghost stands_for: { Self → ℕ → Self.Out → Type 0 };

    /// Runs the job with a number.
    fn run(&self, alloc: Global, index: u64) -> Result<Self::Out, AllocError>
        requires { index < indices self.now }
        ensures { IfOk result (λ out. stands_for self.now index out) };
}

/// Runs the jobs with numbers from 0 on, `count` of them, with at most `workers` threads, the
/// caller's own among them. Each job enters the gate with the phase directly before it runs. With
/// one worker no thread is made. `AllocError` where a job gives it, where memory runs out, or
/// where the gate is shut.
pub fn run_jobs<R: Threads + Sync, G: Gate, J: Job>(
    rt: &R,
    alloc: Global,
    gate: &G,
    phase: Phase,
    job: &J,
    count: u64,
    workers: u32,
) -> Result<Vec<J::Out>, AllocError>
    requires jobs { count ≤ J.indices job.now }
    requires some { 0 < workers }
    requires most { workers ≤ 64 }
    ensures { IfOk result (λ results. StandInOrder (J.stands_for job.now) 0 count results.items) }
{
    let call = move |index: u64| -> Result<J::Out, AllocError>
        requires { index < J.indices job.now }
        ensures { IfOk result (λ out. J.stands_for job.entry.now index out) }
    { job.run(alloc, index) };
    run_calls(rt, alloc, gate, phase, &call, count, workers)
}
