// A line of words.
ghost use Rattle.std.specs.Prelude.{◌≡◌, map, IfOk};
ghost use Rattle.sm_words.specs.Lines.{line_of};

use std::alloc::{AllocError, Global};

/// A line of words, with a space between two of them.
pub fn line(alloc: Global, first: &str, rest: &[&str]) -> Result<Vec<u8>, AllocError>
    ensures { IfOk result (λ text.
        text.items ≡ line_of first.now (map (λ word. word.now) rest.now)) }
{
    let mut text = Vec::from_slice(alloc, first.as_bytes())?;
    for word in rest {
        text.push(b' ')?;
        text.extend_from_slice(word.as_bytes())?;
    }
    text.push(b'\n')?;
    Ok(text)
}
