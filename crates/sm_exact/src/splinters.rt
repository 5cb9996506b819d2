// Splinters of lower bounds.
ghost use Rattle.std.specs.Prelude.{◌≡◌, ◌≤◌, ◌<◌, ◌^◌, ℕ, drop, length, get_or, pos, [], ◌∷◌, ◌++◌, true, IsTrue, IfOk};
ghost use Rattle.sm_num.specs.Range.{fits_form};
ghost use Rattle.sm_num.specs.Errors.{Returns};
ghost use Rattle.sm_num.specs.Forms.{Linear};
ghost use Rattle.sm_omega.specs.Counting.{Count, entered};
ghost use Rattle.sm_omega.specs.Solving.{lower_bounds, bounds_below};
ghost use Rattle.sm_omega.specs.Rules.{Answer};
ghost use Rattle.sm_omega.specs.Inequalities.{splinters_at, splinter, standing};
ghost use Rattle.sm_exact.specs.Entries.{shown};
ghost use Rattle.sm_exact.specs.Stack.{Awaits, Stands, splinters_from, splinters_left};

use crate::bounds::greatest_upper;
use crate::coefficients::{coefficient, is_lower};
use crate::entry::{Entry, beyond, enter_sum};
use crate::frame::{Frame, Tried};
use crate::numbers::{compute, floor, size};
use crate::splitting::copy_all;
use sm_num::{Kind, LinForm, NumError, Op, combine};
use std::alloc::{AllocError, Global};

// How many splinters a lower bound has whose coefficient has size b.
fn splinter_count(m: &i128, b: &i128) -> Result<u128, NumError>
    requires { IsTrue (fits_form m.now) }
    ensures value { Returns (splinters_at m.now b.now) result }
    ensures few { IfOk result (λ n. n ≤ 2 ^ 127) }
{
    let x = compute(Op::Mul, m, b)?;
    let y = compute(Op::Sub, &x, m)?;
    let z = compute(Op::Sub, &y, b)?;
    let last = floor(&z, size(m));
    if last < 0 {
        return Ok(0);
    }
    Ok(last as u128 + 1)
}

// The place of the first lower bound from a place on, the length where there is none.
fn find_lower(forms: &[LinForm], t: u64, from: usize) -> usize
    ensures up_to { result ≤ length forms.now }
    ensures skips { lower_bounds t (drop from forms.now) ≡ lower_bounds t (drop result forms.now) }
    ensures here { result < length forms.now → (f : Linear ℕ) → f ≡ get_or forms.now result f →
        bounds_below t f ≡ true }
{
    for place in from..forms.len() {
        if is_lower(&forms[place], t) {
            return place;
        }
    }
    forms.len()
}

// Goes on to the lower bounds from a place on, where there is no solution so far.
pub(crate) fn next_bound(
    alloc: Global,
    frames: &mut Vec<Frame>,
    s: u64,
    t: u64,
    forms: Vec<LinForm>,
    from: usize,
    count: u64,
) -> Result<Entry, AllocError>
    ensures { IfOk result (λ e. (limit depth : ℕ) (whole : Answer) →
        Awaits limit frames.old.items
        (splinters_from limit depth s t forms.items from count) whole →
        Stands limit frames.new.items s e whole) }
{
    let place = find_lower(&forms, t, from);
    if place == forms.len() {
        return Ok(Entry::Refuted { count });
    }
    let bound = forms[place].copy(alloc)?;
    let m = greatest_upper(&forms, t);
    match splinter_count(&m, &-coefficient(&bound, t)) {
        Ok(left) => {
            frames.push(Frame::Splinters(Tried {
                s,
                t,
                forms,
                bound,
                left,
                next: 0,
                after: place + 1,
            }))?;
            Ok(Entry::Refuted { count })
        }
        Err(e) => beyond(e),
    }
}

// Goes on to the next splinter, or to the next lower bound.
pub(crate) fn next_splinter(
    alloc: Global,
    steps: u64,
    frames: &mut Vec<Frame>,
    tried: Tried,
    count: u64,
) -> Result<Entry, AllocError>
    ensures { IfOk result (λ e. (depth : ℕ) (whole : Answer) →
        Awaits steps frames.old.items (splinters_left steps depth tried count) whole →
        Stands steps frames.new.items tried.s e whole) }
{
    if tried.left == 0 {
        return next_bound(
            alloc,
            frames,
            tried.s,
            tried.t,
            tried.forms,
            tried.after,
            count,
        );
    }
    let entry = try_splinter(alloc, steps, &tried, count)?;
    frames.push(Frame::Splinters(Tried {
        s: tried.s,
        t: tried.t,
        forms: tried.forms,
        bound: tried.bound,
        left: tried.left - 1,
        next: tried.next + 1,
        after: tried.after,
    }))?;
    Ok(entry)
}

// The list with a splinter.
fn try_splinter(alloc: Global, steps: u64, tried: &Tried, count: u64) -> Result<Entry, AllocError>
    requires { 0 < tried.now.left }
    ensures { IfOk result (λ e.
        entered steps (standing tried.now.forms.items
        ++ Count (splinter tried.now.bound tried.now.next) ∷ []) count
        ≡ shown e) }
{
    let out = copy_all(alloc, &tried.forms)?;
    if count >= steps {
        return Ok(Entry::Steps);
    }
    let sum = splinter(alloc, &tried.bound, tried.next);
    enter_sum(alloc, out, count + 1, sum)
}

// A splinter of a lower bound.
fn splinter(alloc: Global, l: &LinForm, i: u128) -> Result<LinForm, NumError>
    requires { i < 2 ^ 127 }
    ensures { Returns (splinter l.now i) result }
{
    let _parts = l.parts().len();
    combine(
        alloc,
        l,
        1,
        &LinForm::number(alloc, i as i128)?,
        1,
        Kind::Eq,
    )
}
