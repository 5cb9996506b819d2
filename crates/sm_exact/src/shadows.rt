// The dark shadows of a variable's bounds.
ghost use Rattle.std.specs.Prelude.{◌≡◌, [], ◌∷◌, ◌++◌, List, map, IfOk};
ghost use Rattle.sm_omega.specs.Counting.{Item, Count, entered};
ghost use Rattle.sm_num.specs.Errors.{Returns};
ghost use Rattle.sm_omega.specs.Inequalities.{shadow, shadows};
ghost use Rattle.sm_exact.specs.Entries.{shown, before, going};

use crate::coefficients::coefficient;
use crate::entry::{Entry, enter_sum};
use crate::numbers::compute;
use sm_num::{Kind, LinForm, NumError, Op, combine};
use std::alloc::{AllocError, Global};

// The shadows of lower bounds with upper bounds go behind others.
pub(crate) fn enter_shadows(
    alloc: Global,
    steps: u64,
    out: Vec<LinForm>,
    count: u64,
    lower: &[LinForm],
    upper: &[LinForm],
    t: u64,
) -> Result<Entry, AllocError>
    ensures { IfOk result (λ r.
        before out.items (entered steps (shadows t lower.now upper.now) count)
        ≡ shown r) }
{
    let mut so_far = out;
    let mut counted = count;
    for l in lower {
        match enter_row(alloc, steps, so_far, counted, l, upper, t)? {
            Entry::List { forms, count } => {
                so_far = forms;
                counted = count;
            }
            other => return Ok(other),
        }
    }
    Ok(Entry::List {
        forms: so_far,
        count: counted,
    })
}

// Those of one lower bound.
fn enter_row(
    alloc: Global,
    steps: u64,
    out: Vec<LinForm>,
    count: u64,
    l: &LinForm,
    upper: &[LinForm],
    t: u64,
) -> Result<Entry, AllocError>
    ensures { IfOk result (λ r. (rest : List Item) →
        before out.items
        (entered steps (map (λ u. Count (shadow t l.now u)) upper.now ++ rest) count)
        ≡ going steps r rest) }
{
    let mut so_far = out;
    let mut counted = count;
    for u in upper {
        match enter_shadow(alloc, steps, so_far, counted, l, u, t)? {
            Entry::List { forms, count } => {
                so_far = forms;
                counted = count;
            }
            other => return Ok(other),
        }
    }
    Ok(Entry::List {
        forms: so_far,
        count: counted,
    })
}

// One shadow.
fn enter_shadow(
    alloc: Global,
    steps: u64,
    out: Vec<LinForm>,
    count: u64,
    l: &LinForm,
    u: &LinForm,
    t: u64,
) -> Result<Entry, AllocError>
    ensures { IfOk result (λ r. (rest : List Item) →
        before out.items (entered steps (Count (shadow t l.now u.now) ∷ rest) count)
        ≡ going steps r rest) }
{
    if count >= steps {
        return Ok(Entry::Steps);
    }
    let sum = shadow(alloc, t, l, u);
    enter_sum(alloc, out, count + 1, sum)
}

// The dark shadow of a lower and an upper bound.
fn shadow(alloc: Global, t: u64, l: &LinForm, u: &LinForm) -> Result<LinForm, NumError>
    ensures { Returns (shadow t l.now u.now) result }
{
    let _lower = l.parts().len();
    let _upper = u.parts().len();
    let a = coefficient(u, t);
    let b = -coefficient(l, t);
    let h = combine(alloc, l, a, u, b, Kind::Le)?;
    let y = compute(Op::Mul, &(a - 1), &(b - 1))?;
    combine(alloc, &LinForm::number(alloc, y)?, 1, &h, 1, Kind::Le)
}
