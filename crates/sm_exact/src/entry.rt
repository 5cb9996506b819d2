// Forms that enter a list.
ghost use Rattle.std.specs.Prelude.{◌≡◌, ℕ, suc, List, [], ◌∷◌, map, IfOk};
ghost use Rattle.sm_num.specs.Forms.{Linear};
ghost use Rattle.sm_num.specs.Combining.{Outcome};
ghost use Rattle.sm_num.specs.Tightening.{tightened};
ghost use Rattle.sm_num.specs.Errors.{Returns};
ghost use Rattle.sm_omega.specs.Counting.{Item, Stay, Enter, entered, entering, with_result};
ghost use Rattle.sm_exact.specs.Entries.{shown, before, going, TellsError};

use sm_num::{LinForm, NumError, Op, is_contradiction, tighten};
use std::alloc::{AllocError, Global};

// A list that is entered, or why it wasn't.
#[derive(Drop)]
pub(crate) enum Entry {
    // The list, with the count.
    List { forms: Vec<LinForm>, count: u64 },
    // There was a contradiction.
    Refuted { count: u64 },
    // More steps would be needed.
    Steps,
    // The operation, with its operands, whose exact result leaves the range.
    Beyond { op: Op, a: i128, b: i128 },
}

// A form that stood in a list goes behind others.
pub(crate) fn stay(mut out: Vec<LinForm>, count: u64, f: LinForm) -> Result<Entry, AllocError>
    ensures { IfOk result (λ e. (limit : ℕ) (rest : List Item) →
        before out.items (entered limit (Stay f ∷ rest) count) ≡ going limit e rest) }
{
    out.push(f)?;
    Ok(Entry::List { forms: out, count })
}

// A form is made tight and goes behind others.
pub(crate) fn enter(
    alloc: Global,
    mut out: Vec<LinForm>,
    count: u64,
    f: &LinForm,
) -> Result<Entry, AllocError>
    ensures { IfOk result (λ e. (limit : ℕ) (rest : List Item) →
        before out.items (entering count (tightened f.now) (entered limit rest count))
        ≡ going limit e rest) }
{
    let f = match tighten(alloc, f) {
        Ok(f) => f,
        Err(_) => return Err(AllocError),
    };
    if is_contradiction(&f) {
        return Ok(Entry::Refuted { count });
    }
    if f.parts().is_empty() {
        return Ok(Entry::List { forms: out, count });
    }
    out.push(f)?;
    Ok(Entry::List { forms: out, count })
}

// A form that was computed does, unless an operation left the range.
pub(crate) fn enter_sum(
    alloc: Global,
    out: Vec<LinForm>,
    count: u64,
    sum: Result<LinForm, NumError>,
) -> Result<Entry, AllocError>
    ensures { IfOk result (λ e. (limit : ℕ) (rest : List Item) (outcome : Outcome (Linear ℕ)) →
        Returns outcome sum →
        before out.items (with_result outcome
        (λ (f : Linear ℕ). entering count (tightened f) (entered limit rest count)))
        ≡ going limit e rest) }
{
    match sum {
        Ok(f) => enter(alloc, out, count, &f),
        Err(e) => beyond(e),
    }
}

// The operation that left the range.
pub(crate) fn beyond(e: NumError) -> Result<Entry, AllocError>
    ensures { IfOk result (TellsError e) }
{
    match e {
        NumError::Beyond { op, a, b } => Ok(Entry::Beyond { op, a, b }),
        NumError::Memory => Err(AllocError),
    }
}

// The list of given forms.
pub(crate) fn enter_all(alloc: Global, forms: &[LinForm]) -> Result<Entry, AllocError>
    ensures { IfOk result
        (λ e. (limit : ℕ) → entered limit (map Enter forms.now) 0 ≡ shown e) }
{
    let mut out = Vec::with_capacity(alloc, forms.len())?;
    let mut counted = 0;
    for f in forms {
        match enter(alloc, out, counted, f)? {
            Entry::List { forms, count } => {
                out = forms;
                counted = count;
            }
            other => return Ok(other),
        }
    }
    Ok(Entry::List {
        forms: out,
        count: counted,
    })
}
