// How jobs run beside each other, which no result shows.
ghost use Rattle.std.specs.Prelude.{◌≡◌, ◌<◌, ◌≤◌, ◌*◌, ℕ, IfOk};

use crate::printed::Printed;
use crate::refusal::Refusal;
use crate::word::natural;
use sm_par::{Gate, Job, Phase, run_jobs};
use std::alloc::{AllocError, Global};
use std::fs;
use std::rt::Files;
use std::sync::atomic::{AtomicBool, Ordering};
use std::thread::Threads;

// How many jobs run with some workers.
const JOBS: u64 = 7;

// Job i is to say 3 times i.
struct Triples;

impl Job for Triples {
    type Out = u64;

    ghost indices = { λ _. 100 };

    ghost stands_for = { λ _ index out. out ≡ 3 * index };

    fn run(&self, _alloc: Global, index: u64) -> Result<u64, AllocError> {
        Ok(3 * index)
    }
}

/// Notes whether a job ever began while the program had more than one thread.
#[derive(Drop)]
pub struct Alone<'a, R> {
    rt: &'a R,
    beside_another: AtomicBool,
}

impl<R: Files + AllocGlobal + Sync> Gate for Alone<'_, R> {
    fn enter(&self, _phase: Phase) {
        let one_thread = match fs::read_to_string(self.rt, "/proc/self/status") {
            Ok(status) => status.contains("\nThreads:\t1\n"),
            Err(_) => false,
        };
        if !one_thread {
            self.beside_another.store(true, Ordering::SeqCst);
        }
    }
}

impl<'a, R> Alone<'a, R> {
    /// Of no job so far.
    pub fn new(rt: &'a R) -> Alone<'a, R> {
        Alone {
            rt,
            beside_another: AtomicBool::new(false),
        }
    }

    /// Whether a job began beside another thread.
    pub fn told(&self) -> &'static str {
        if self.beside_another.load(Ordering::SeqCst) {
            "more threads"
        } else {
            "one thread"
        }
    }
}

/// Prints what some jobs say with so many workers.
pub fn jobs_answer<R: Threads + Sync, G: Gate>(
    rt: &R,
    alloc: Global,
    gate: &G,
    word: &str,
    out: &mut Printed,
) -> Result<(), Refusal> {
    let workers = workers_of(word)?;
    let said = run_jobs(rt, alloc, gate, Phase::Trial, &Triples, JOBS, workers)?;
    write!(out, "{said:?} ");
    Ok(())
}

// How many workers a word asks for, from 1 to 64.
fn workers_of(word: &str) -> Result<u32, Refusal>
    ensures { IfOk result (λ w. (0 < w) × (w ≤ 64)) }
{
    let workers = natural(word)?;
    if workers == 0 || workers > 64 {
        return Err(Refusal::Bad);
    }
    Ok(workers as u32)
}
