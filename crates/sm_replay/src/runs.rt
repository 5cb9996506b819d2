// Runs of the four programs from one store, and their ends.
ghost use Rattle.std.specs.Prelude.{◌≡◌, Some, None, IfOk, IfErr};
ghost use Rattle.sm_eval.specs.Events.{event};
ghost use Rattle.sm_eval.specs.StoredValues.{meaning, sorts_of};
ghost use Rattle.sm_syntax.specs.claim.ConflictFree.{Copy};
ghost use Rattle.sm_syntax.specs.trees.Copies.{copy_named};
ghost use Rattle.sm_syntax.specs.claim.Meaning.{run};
ghost use Rattle.sm_syntax.specs.text.Sorts.{IsWellSorted};
ghost use Rattle.sm_replay.specs.Runs.{code_in, end_in, stop_of, HaveSorts, Halts, HaltsAt};
ghost use Rattle.sm_replay.specs.Violations.{AreEnds};

use crate::error::ReplayError;
use sm_eval::{EvalError, Store, run};
use sm_syntax::{Block, CopyName, PerCopy};
use std::alloc::Global;

/// The ends of four programs from one store, or why the first copy without one has none.
pub fn ends_of(
    alloc: Global,
    programs: &PerCopy<Block>,
    input: &Store,
    turns: u64,
) -> Result<PerCopy<Store>, ReplayError>
    requires { (c : Copy) → IsWellSorted (sorts_of input.now) (code_in programs.now c) }
    ensures ends { let program = code_in programs.now in
        IfOk result (λ ends. AreEnds program (meaning input.now) turns (end_in ends)) }
    ensures sorts { IfOk result (λ ends. HaveSorts ends (sorts_of input.now)) }
    ensures err { IfErr result (Halts (code_in programs.now) (meaning input.now) turns) }
{
    let base = end_of(alloc, programs, CopyName::O, input, turns)?;
    let variant_a = end_of(alloc, programs, CopyName::A, input, turns)?;
    let variant_b = end_of(alloc, programs, CopyName::B, input, turns)?;
    let candidate = end_of(alloc, programs, CopyName::M, input, turns)?;
    Ok(PerCopy {
        base,
        variant_a,
        variant_b,
        candidate,
    })
}

// The end of a copy.
fn end_of(
    alloc: Global,
    programs: &PerCopy<Block>,
    copy: CopyName,
    input: &Store,
    turns: u64,
) -> Result<Store, ReplayError>
    requires { IsWellSorted (sorts_of input.now) (code_in programs.now (copy_named copy)) }
    ensures no_event { let code = code_in programs.now (copy_named copy) in
        IfOk result (λ _. event turns code (meaning input.now) ≡ None) }
    ensures end { let code = code_in programs.now (copy_named copy) in
        IfOk result (λ end. run turns code (meaning input.now) ≡ Some (meaning end)) }
    ensures sorts { IfOk result (λ end. sorts_of end ≡ sorts_of input.now) }
    ensures err { let code = code_in programs.now (copy_named copy) in
        IfErr result (HaltsAt (copy_named copy) code (meaning input.now) turns) }
{
    let program = programs.get(copy);
    let start = input.copy(alloc)?;
    match run(program, start, turns) {
        Ok(end) => Ok(end),
        Err(event) => Err(stop_of(copy.number(), event)),
    }
}

// The error of the copy with a number for an event of its run.
fn stop_of(copy: u8, event: EvalError) -> ReplayError
    ensures { result ≡ stop_of copy event }
{
    match event {
        EvalError::OutOfTurns => ReplayError::OutOfTurns { copy },
        EvalError::Beyond { op, a, b } => ReplayError::Beyond { copy, op, a, b },
        EvalError::Memory => ReplayError::Memory,
    }
}
