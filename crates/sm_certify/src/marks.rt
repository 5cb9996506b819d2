// Marks at the forms that a contradiction needs.
ghost use Rattle.std.specs.Prelude.{◌≡◌, ◌<◌, ◌+◌, IfOk, length};
ghost use Rattle.sm_certify.specs.Refuting.{mark_at, AreMarked, ArePlaces, Marks, MarksSum};

use sm_judge::{ElimLine, Refutation};
use std::alloc::{AllocError, Global};

// Marks of forms, by place.
#[derive(Drop)]
pub(crate) struct FormMarks {
    pub(crate) list: Vec<bool>,
}

// Marks at the form that can't hold and at all that it is made of.
pub(crate) fn marks_of(alloc: Global, refutation: &Refutation) -> Result<FormMarks, AllocError>
    requires { ArePlaces
        (length refutation.now.sources.items) refutation.now.elims.items refutation.now.bad }
    ensures { IfOk result (λ marks. AreMarked (mark_at marks.list.items)
        (length refutation.now.sources.items) refutation.now.elims.items refutation.now.bad) }
{
    let first = refutation.sources.len();
    let mut list = no_marks(alloc, first + refutation.elims.len())?;
    mark_down(&mut list, first, &refutation.elims, refutation.bad);
    Ok(FormMarks { list })
}

// No marks.
fn no_marks(alloc: Global, count: usize) -> Result<Vec<bool>, AllocError>
    ensures { IfOk result (λ marks. length marks.items ≡ count) }
{
    let mut marks = Vec::new(alloc);
    for _ in 0..count {
        marks.push(false)?;
    }
    Ok(marks)
}

// Marks a place.
fn mark(marks: &mut [bool], n: u64)
    requires { n < length marks.old }
    ensures { Marks marks.old marks.new n }
{
    marks[n as usize] = true;
}

// Marks the forms of a sum, if it is marked.
fn mark_sum(marks: &mut [bool], at: usize, e: ElimLine)
    requires at { at < length marks.old }
    requires first { e.f < length marks.old }
    requires second { e.g < length marks.old }
    ensures { MarksSum marks.old marks.new at e }
{
    if !marks[at] {
        return;
    }
    mark(marks, e.f);
    mark(marks, e.g);
}

// Marks the form that can't hold, and the forms of sums that are marked, the last first.
fn mark_down(marks: &mut [bool], first: usize, elims: &[ElimLine], bad: u64)
    requires places { ArePlaces first elims.now bad }
    requires count { length marks.old ≡ first + length elims.now }
    ensures { AreMarked (mark_at marks.new) first elims.now bad }
{
    mark(marks, bad);
    let mut left = elims.len();
    while left > 0 {
        left -= 1;
        mark_sum(marks, first + left, elims[left]);
    }
}
