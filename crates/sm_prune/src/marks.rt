// Marks of numbers: which are named.
ghost use Rattle.std.specs.Prelude.{◌≡◌, ℕ, suc, ◌++◌, [], ◌∷◌, Bool, false, nat_eq, IfOk, OnOk};
ghost use Rattle.std.specs.List.{list_any};
ghost use Rattle.sm_prune.specs.Marks.{AreMarks, MarksMore};

use std::alloc::AllocError;

// One mark more, which isn't set.
pub(crate) fn add_mark(marks: &mut Vec<bool>) -> Result<(), AllocError>
    ensures { (at : ℕ) → AreMarks at (λ n. false) marks.old.items →
        OnOk result (AreMarks (suc at) (λ n. false) marks.new.items) }
{
    marks.push(false)?;
    Ok(())
}

// Marks these numbers, as far as there are marks for them.
pub(crate) fn mark_each(marks: &mut Vec<bool>, numbers: &[u64])
    ensures { MarksMore (λ n. list_any (nat_eq n) numbers.now) marks.old.items marks.new.items }
{
    for number in numbers {
        mark(marks, *number);
    }
}

// Marks one number, if there is a mark for it.
fn mark(marks: &mut Vec<bool>, number: u64)
    ensures { MarksMore (λ n. nat_eq n number) marks.old.items marks.new.items }
{
    let place = number as usize;
    if place < marks.len() {
        marks[place] = true;
    }
}

// Takes off the last mark, and tells whether it was set.
pub(crate) fn take_mark(marks: &mut Vec<bool>) -> bool
    ensures { (at : ℕ) (wanted : ℕ → Bool) → AreMarks (suc at) wanted marks.old.items →
        (result ≡ wanted at) × AreMarks at wanted marks.new.items }
{
    match marks.pop() {
        Some(mark) => mark,
        None => false,
    }
}
