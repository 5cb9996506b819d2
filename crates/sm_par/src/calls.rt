// Calls of a closure, by workers.
ghost use Rattle.std.specs.Prelude.{◌≡◌, ◌+◌, ◌^◌, ◌<◌, ◌≤◌, ◌++◌, ℕ, IfOk};
ghost use Rattle.std.specs.Thread.{IsSync, IsSend};
ghost use Rattle.sm_par.specs.Results.{MayGive, StandInOrder};

use crate::gate::{Gate, Phase};
use std::alloc::{AllocError, Global};
use std::thread::{Threads, join};

// Some numbers: `count` of them, from `start` on.
#[derive(Clone, Copy)]
struct Part {
    start: u64,
    count: u64,
}

/// Calls a closure with the numbers from 0 on, `count` of them, with at most `workers` threads, the
/// caller's own among them. The gate is entered with the phase directly before each call. With one
/// worker no thread is made. `AllocError` where a call gives it, where memory runs out, or
/// where the gate is shut.
pub fn run_calls<
    R: Threads + Sync,
    G: Gate,
    T: Send + Drop,
    F: Fn(u64) -> Result<T, AllocError> + Sync,
>(
    rt: &R,
    alloc: Global,
    gate: &G,
    phase: Phase,
    call: &F,
    count: u64,
    workers: u32,
) -> Result<Vec<T>, AllocError>
    requires able { (i : ℕ) → i < count → F.pre call.now i }
    requires some { 0 < workers }
    requires most { workers ≤ 64 }
    ensures { IfOk result (λ results.
        StandInOrder (MayGive F.Fn call.now) 0 count results.items) }
{
    let all = Part { start: 0, count };
    run_part(rt, alloc, gate, phase, call, all, workers)
}

// Makes one call, unless the gate is shut.
fn run_one<G: Gate, T, F: Fn(u64) -> Result<T, AllocError>>(
    gate: &G,
    phase: Phase,
    call: &F,
    index: u64,
) -> Result<T, AllocError>
    requires { F.pre call.now index }
    ensures { IfOk result (MayGive F.Fn call.now index) }
{
    if gate.is_shut() {
        return Err(AllocError);
    }
    gate.enter(phase);
    call(index)
}

// Calls with the numbers of a part, one after the other. It has no handle to make a thread with.
fn run_in_turn<G: Gate, T: Drop, F: Fn(u64) -> Result<T, AllocError>>(
    alloc: Global,
    gate: &G,
    phase: Phase,
    call: &F,
    part: Part,
) -> Result<Vec<T>, AllocError>
    requires able { (i : ℕ) → i < part.start + part.count → F.pre call.now i }
    requires room { part.start + part.count < 2 ^ 64 }
    ensures { IfOk result (λ results.
        StandInOrder (MayGive F.Fn call.now) part.start part.count results.items) }
{
    let mut results = Vec::new(alloc);
    'calls: for offset in 0..part.count {
        results.push(run_one(gate, phase, call, part.start + offset)?)?;
    }
    Ok(results)
}

// The halves of a part, neither of them empty.
fn halves(part: Part) -> (Part, Part)
    requires some { 2 ≤ part.count }
    requires room { part.start + part.count < 2 ^ 64 }
    ensures front { (result.0.start ≡ part.start) × (0 < result.0.count) }
    ensures back { (result.1.start ≡ part.start + result.0.count) × (0 < result.1.count) }
    ensures all { result.0.count + result.1.count ≡ part.count }
{
    let half = part.count / 2;
    let front = Part {
        start: part.start,
        count: half,
    };
    let back = Part {
        start: part.start + half,
        count: part.count - half,
    };
    (front, back)
}

// Results, and behind them others.
fn together<T: Drop>(first: Vec<T>, second: Vec<T>) -> Result<Vec<T>, AllocError>
    ensures { IfOk result (λ all. all.items ≡ first.items ++ second.items) }
{
    let mut all = first;
    let mut rest = second;
    all.append(&mut rest)?;
    Ok(all)
}

// Calls with the numbers of a part. It is halved, as are the workers, and one half goes to another
// thread.
#[cycle(parts)]
fn run_part<R: Threads + Sync, G: Gate, T: Send + Drop, F: Fn(u64) -> Result<T, AllocError> + Sync>(
    rt: &R,
    alloc: Global,
    gate: &G,
    phase: Phase,
    call: &F,
    part: Part,
    workers: u32,
) -> Result<Vec<T>, AllocError>
    requires able { (i : ℕ) → i < part.start + part.count → F.pre call.now i }
    requires room { part.start + part.count < 2 ^ 64 }
    requires some { 0 < workers }
    ensures { IfOk result (λ results.
        StandInOrder (MayGive F.Fn call.now) part.start part.count results.items) }
{
    if workers == 1 || part.count < 2 {
        return run_in_turn(alloc, gate, phase, call, part);
    }
    let (before, behind) = halves(part);
    let mine = workers / 2;
    let theirs = workers - mine;
    let front = move || -> Result<Vec<T>, AllocError>
        requires { IsSync R.row × IsSync G.row × IsSync F.row × IsSend T.row × (0 < mine)
            × (before.start + before.count < 2 ^ 64)
            × ((i : ℕ) → i < before.start + before.count → F.pre call.now i) }
        ensures { IfOk result (λ results.
            StandInOrder (MayGive F.Fn call.entry.now) before.start before.count results.items) }
    { run_part(rt, alloc, gate, phase, call, before, mine) };
    let back = move || -> Result<Vec<T>, AllocError>
        requires { IsSync R.row × IsSync G.row × IsSync F.row × IsSend T.row × (0 < theirs)
            × (behind.start + behind.count < 2 ^ 64)
            × ((i : ℕ) → i < behind.start + behind.count → F.pre call.now i) }
        ensures { IfOk result (λ results.
            StandInOrder (MayGive F.Fn call.entry.now) behind.start behind.count results.items) }
    { run_part(rt, alloc, gate, phase, call, behind, theirs) };
    let (first, second) = join(rt, front, back);
    together(first?, second?)
}
