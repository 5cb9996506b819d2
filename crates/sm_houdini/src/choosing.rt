// Choices of templates, counted.
ghost use Rattle.std.specs.Prelude.{◌≡◌, IfOk};
ghost use Rattle.sm_sketch.specs.ChoiceViews.{choice_in};
ghost use Rattle.sm_houdini.specs.Rounds as plain;

use sm_sketch::TemplateChoice;
use std::alloc::AllocError;

// How many templates are chosen.
pub(crate) fn total(choice: &TemplateChoice) -> Result<u64, AllocError>
    ensures { IfOk result (λ n. n ≡ plain.total (choice_in choice.now)) }
{
    let mut count: u64 = 0;
    for numbers in &choice.sites {
        count = match count.checked_add(numbers.as_slice().len() as u64) {
            Some(count) => count,
            None => return Err(AllocError),
        };
    }
    Ok(count)
}
