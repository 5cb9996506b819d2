// The first combination that a decision accepts.
ghost use Rattle.std.specs.Prelude.{◌≡◌, ◌≤◌, ◌<◌, ◌^◌, length, IfOk, IfErr, IfSome, IfNone, OnOk};
ghost use Rattle.sm_text.specs.Tasks.{parts_of};
ghost use Rattle.sm_suggest.specs.Combinations.{combination, combination_count, hole_count};
ghost use Rattle.sm_suggest.specs.Errors.{IsFor};
ghost use Rattle.sm_suggest.specs.First.{IsFirst, AllRefused, MayAnswer};
ghost use Rattle.sm_suggest.specs.Fit.{IsFit};

use crate::combining::combine_fillings;
use crate::error::SuggestError;
use sm_task::{Task, holes_of};
use std::alloc::{AllocError, Global};

// A greater number of holes is refused.
const MOST_HOLES: usize = 8;

/// The first combination of a task's fillings that a decision accepts, if it accepts any.
pub fn suggest<F: Fn(&Task) -> Result<bool, AllocError>>(
    alloc: Global,
    task: &Task,
    decide: &F,
) -> Result<Option<u64>, SuggestError>
    requires fit { IsFit (parts_of task.now) }
    requires able { (u : _) → IsFit (parts_of u.now) → F.pre decide.now u }
    ensures some { let t = parts_of task.now in
        IfOk result (λ o. IfSome o (IsFirst (MayAnswer F.Fn decide.now) t)) }
    ensures none { let t = parts_of task.now in
        IfOk result (λ o. IfNone o (AllRefused (MayAnswer F.Fn decide.now) t)) }
    // Where there are more than 8 holes, nothing is suggested.
    ensures few { OnOk result (hole_count (parts_of task.now) ≤ 8) }
    ensures many { IfErr result (IsFor (hole_count (parts_of task.now))) }
{
    let holes = holes_of(alloc, &task.shared.body)?.len();
    if MOST_HOLES < holes {
        return Err(SuggestError::TooManyHoles {
            count: holes as u64,
        });
    }
    for k in 0..count_of(holes) {
        if is_accepted(alloc, task, k, decide)? {
            return Ok(Some(k));
        }
    }
    Ok(None)
}

// What a decision answers to combination k.
fn is_accepted<F: Fn(&Task) -> Result<bool, AllocError>>(
    alloc: Global,
    task: &Task,
    k: u64,
    decide: &F,
) -> Result<bool, AllocError>
    requires fit { IsFit (parts_of task.now) }
    requires able { (u : _) → IsFit (parts_of u.now) → F.pre decide.now u }
    requires is_one { k < combination_count (parts_of task.now) }
    ensures { let combined = combination (parts_of task.now) k in
        IfOk result (MayAnswer F.Fn decide.now combined) }
{
    let combined = combine_fillings(alloc, task, k)?;
    answer_to(&combined, decide)
}

// What a decision answers to a task.
fn answer_to<F: Fn(&Task) -> Result<bool, AllocError>>(
    task: &Task,
    decide: &F,
) -> Result<bool, AllocError>
    requires fit { IsFit (parts_of task.now) }
    requires able { (u : _) → IsFit (parts_of u.now) → F.pre decide.now u }
    ensures { IfOk result (MayAnswer F.Fn decide.now (parts_of task.now)) }
{
    decide(task)
}

// How many combinations so many holes have.
fn count_of(holes: usize) -> u64
    requires { holes ≤ 8 }
    ensures { result ≡ 3 ^ holes }
{
    3u64.pow(holes as u32)
}
