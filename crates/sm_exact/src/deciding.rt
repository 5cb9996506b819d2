// The decision.
ghost use Rattle.std.specs.Prelude.{◌≡◌, ℕ, Some, None, IfOk};
ghost use Rattle.sm_exact.specs.declared.entry.Entry.TheVariants as entry;
ghost use Rattle.sm_omega.specs.Counting.{Done, Shallow};
ghost use Rattle.sm_omega.specs.Rules.{Answer};
ghost use Rattle.sm_omega.specs.Exact.{exact};
ghost use Rattle.sm_omega.specs.ExactLaws.{AllKept};
ghost use Rattle.sm_exact.specs.declared.deciding.Turned.TheVariants as turned;
ghost use Rattle.sm_exact.specs.Answers.{IsRight, HasVariables, ClosesBranches};
ghost use Rattle.sm_exact.specs.Stack.{Awaits, Stands, told, all_zero};
ghost use Rattle.sm_exact.specs.Telling.{TellsExact};
ghost use Rattle.sm_exact.specs.Valued.{Turns, TellsFailure};

use crate::answer::ExactAnswer;
use crate::atoms::{above_all, pairs_of};
use crate::entry::{Entry, enter_all};
use crate::frame::Frame;
use crate::giving::give_all;
use crate::splinters::{next_bound, next_splinter};
use crate::step::apply;
use sm_num::{LinForm, NumError};
use std::alloc::{AllocError, Global};

// What comes of a turn.
#[derive(Drop)]
enum Turned {
    // The next list, or why there is none.
    Next { s: u64, entry: Entry },
    // The list at hand has a solution in which each variable is 0.
    Solved,
    // The answer of the whole.
    Ends(ExactAnswer),
}

/// Whether whole numbers satisfy forms, where at most so many forms are computed. The only error is
/// want of memory, which is also said where a variable has the greatest number there is, so that
/// there is none for a new one.
pub fn decide(alloc: Global, forms: &[LinForm], steps: u64) -> Result<ExactAnswer, AllocError>
    ensures tells { IfOk result (TellsExact forms.now (exact forms.now steps)) }
    ensures right { IfOk result (IsRight forms.now) }
    ensures variables { IfOk result (HasVariables forms.now) }
    ensures line { IfOk result (ClosesBranches forms.now) }
{
    look_at(forms);
    let answer = decided(alloc, forms, steps)?;
    Ok(answer)
}

// What the decision comes to.
pub(crate) fn decided(
    alloc: Global,
    forms: &[LinForm],
    steps: u64,
) -> Result<ExactAnswer, AllocError>
    ensures { IfOk result (TellsExact forms.now (exact forms.now steps)) }
{
    let Some(above) = above_all(forms) else {
        return Err(AllocError);
    };
    look_at(forms);
    let mut frames = Vec::new(alloc);
    let mut s = above;
    let mut entry = enter_all(alloc, forms)?;
    // No machine makes so many turns.
    for _turn in 0..u64::MAX {
        match turn(alloc, steps, &mut frames, s, entry)? {
            Turned::Next { s: next, entry: e } => {
                s = next;
                entry = e;
            }
            Turned::Solved => return solution(alloc, forms, frames),
            Turned::Ends(answer) => return Ok(answer),
        }
    }
    Err(AllocError)
}

// Each form of a list is kept as its type says.
fn look_at(forms: &[LinForm])
    ensures { AllKept forms.now }
{
    let mut i = forms.len();
    while i > 0 {
        i -= 1;
        let _parts = forms[i].parts().len();
    }
}

// One rule, or one step back.
fn turn(
    alloc: Global,
    steps: u64,
    frames: &mut Vec<Frame>,
    s: u64,
    entry: Entry,
) -> Result<Turned, AllocError>
    ensures { IfOk result (λ r. (whole : Answer) → (whole ≡ Shallow → ⊥) →
        Stands steps frames.old.items s entry whole →
        Turns steps frames.new.items whole r) }
{
    match entry {
        Entry::List { forms, count } => go_on(alloc, steps, frames, s, forms, count),
        Entry::Refuted { count } => go_back(alloc, steps, frames, count),
        Entry::Steps => Ok(Turned::Ends(ExactAnswer::Steps)),
        Entry::Beyond { op, a, b } => Ok(Turned::Ends(ExactAnswer::Beyond { op, a, b })),
    }
}

// Applies a rule to the list at hand.
fn go_on(
    alloc: Global,
    steps: u64,
    frames: &mut Vec<Frame>,
    s: u64,
    forms: Vec<LinForm>,
    count: u64,
) -> Result<Turned, AllocError>
    ensures { IfOk result (λ r. (whole : Answer) → (whole ≡ Shallow → ⊥) →
        Stands steps frames.old.items s (entry.List forms count) whole →
        Turns steps frames.new.items whole r) }
{
    match apply(alloc, steps, s, forms, count)? {
        Some(step) => {
            frames.push(step.frame)?;
            Ok(Turned::Next {
                s: step.s,
                entry: step.entry,
            })
        }
        None => Ok(Turned::Solved),
    }
}

// Goes back to what waits, where the list at hand has no solution.
fn go_back(
    alloc: Global,
    steps: u64,
    frames: &mut Vec<Frame>,
    count: u64,
) -> Result<Turned, AllocError>
    ensures { IfOk result (λ r. (whole : Answer) →
        Awaits steps frames.old.items (Done count None) whole →
        Turns steps frames.new.items whole r) }
{
    match frames.pop() {
        Some(frame) => go_back_to(alloc, steps, frames, frame, count),
        None => Ok(Turned::Ends(ExactAnswer::Refuted { count })),
    }
}

// Goes back to a frame.
fn go_back_to(
    alloc: Global,
    steps: u64,
    frames: &mut Vec<Frame>,
    frame: Frame,
    count: u64,
) -> Result<Turned, AllocError>
    ensures { IfOk result (λ r. (depth : ℕ) (whole : Answer) →
        Awaits steps frames.old.items (told steps depth frame (Done count None)) whole →
        Turns steps frames.new.items whole r) }
{
    match frame {
        Frame::Equation { t: _, e: _ } => Ok(refuted(count)),
        Frame::Bounds {
            t: _,
            side: _,
            forms: _,
        } => Ok(refuted(count)),
        Frame::Dark { s, t, forms } => {
            let bound = next_bound(alloc, frames, s, t, forms, 0, count)?;
            Ok(Turned::Next { s, entry: bound })
        }
        Frame::Splinters(tried) => {
            let s = tried.s;
            let splinter = next_splinter(alloc, steps, frames, tried, count)?;
            Ok(Turned::Next { s, entry: splinter })
        }
    }
}

// There is no solution so far.
fn refuted(count: u64) -> Turned
    ensures { result ≡ turned.Next 0 (entry.Refuted count) }
{
    Turned::Next {
        s: 0,
        entry: Entry::Refuted { count },
    }
}

// The solution that frames give.
fn solution(alloc: Global, forms: &[LinForm], frames: Vec<Frame>) -> Result<ExactAnswer, AllocError>
    ensures { IfOk result (λ answer. (limit c : ℕ) (whole : Answer) →
        Awaits limit frames.items (Done c (Some all_zero)) whole →
        TellsExact forms.now whole answer) }
{
    match give_all(alloc, frames) {
        Ok(values) => {
            let pairs = pairs_of(alloc, forms, &values)?;
            Ok(ExactAnswer::Solution(pairs))
        }
        Err(e) => failed(e),
    }
}

// The operation that left the range.
fn failed(e: NumError) -> Result<ExactAnswer, AllocError>
    ensures { IfOk result (TellsFailure e) }
{
    match e {
        NumError::Beyond { op, a, b } => Ok(ExactAnswer::Beyond { op, a, b }),
        NumError::Memory => Err(AllocError),
    }
}
