// One rule applied to a list.
ghost use Rattle.std.specs.Prelude.{◌≡◌, IfOk};
ghost use Rattle.sm_exact.specs.Stack.{Applies};

use crate::bounds::{by_bounds, least_variable};
use crate::entry::Entry;
use crate::equation::{by_equation, first_equation};
use crate::frame::Frame;
use sm_num::LinForm;
use std::alloc::{AllocError, Global};

// A rule: what it makes of the list, and what waits for the answer.
#[derive(Drop)]
pub(crate) struct Step {
    pub(crate) frame: Frame,
    pub(crate) s: u64,
    pub(crate) entry: Entry,
}

// Applies the first rule that applies to a list, or none, where it has no variable.
pub(crate) fn apply(
    alloc: Global,
    steps: u64,
    s: u64,
    forms: Vec<LinForm>,
    count: u64,
) -> Result<Option<Step>, AllocError>
    ensures { IfOk result (Applies steps s forms.items count) }
{
    let place = first_equation(&forms);
    if place < forms.len() {
        return Ok(Some(by_equation(alloc, steps, s, forms, count, place)?));
    }
    match least_variable(&forms) {
        Some(t) => Ok(Some(by_bounds(alloc, steps, s, forms, count, t)?)),
        None => Ok(None),
    }
}
