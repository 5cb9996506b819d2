// Whose filling each hole takes.
ghost use Rattle.std.specs.Prelude.{◌≡◌, ◌<◌, map, IfOk};
ghost use Rattle.sm_syntax.specs.trees.Copies.{copy_named};
ghost use Rattle.sm_suggest.specs.Combinations.{choices, copy_of_digit};

use sm_syntax::CopyName;
use std::alloc::{AllocError, Global};

/// The copies whose fillings some holes take in combination k, that of the first hole first.
pub fn choices(alloc: Global, holes: usize, k: u64) -> Result<Vec<CopyName>, AllocError>
    ensures { IfOk result (λ v. map copy_named v.items ≡ choices holes k) }
{
    let mut copies = Vec::new(alloc);
    let mut left = holes;
    let mut rest = k;
    while 0 < left {
        copies.push(copy_of_digit(rest % 3))?;
        rest /= 3;
        left -= 1;
    }
    copies.reverse();
    Ok(copies)
}

// The copy that a digit names.
fn copy_of_digit(digit: u64) -> CopyName
    ensures { copy_named result ≡ copy_of_digit digit }
{
    match digit {
        0 => CopyName::O,
        1 => CopyName::A,
        _ => CopyName::B,
    }
}
