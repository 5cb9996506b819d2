// The lines of a text that was written, without those that no line needs.
ghost use Rattle.std.specs.Prelude.{◌≡◌, ◌<◌, ◌∷◌, ◌++◌, ℕ, Bool, List, length, map, IfOk};
ghost use Rattle.sm_proof.specs.Lines.{ProofLine, line_of};
ghost use Rattle.sm_proof.specs.Passing.{Progress};
ghost use Rattle.sm_proof.specs.Spelling.{spelled};
ghost use Rattle.sm_proof.specs.Verdicts.{Subject};
ghost use Rattle.sm_prune.specs.Texts.{AreReadable, IsReadable, Leads, bytes_of};
ghost use Rattle.sm_write.specs.Lean.{IsLean};

use crate::spelling::text_of;
use sm_proof::{Line, read_line};
use sm_prune::pruned;
use std::alloc::{AllocError, Global};

// The first line of a text, and what stands behind it. Each line of the text was written here and
// can be read back, so what is left is want of memory.
fn next_line<'t>(alloc: Global, text: &'t [u8]) -> Result<(Line, &'t [u8]), AllocError>
    ensures read { (l : ProofLine) (rest : List ℕ) → text.now ≡ spelled l ++ 10 ∷ rest →
        IsReadable l → IfOk result (λ r. (line_of r.0 ≡ l) × (r.1.now ≡ rest)) }
    ensures fewer { IfOk result (λ r. length r.1.now < length text.now) }
{
    match read_line(alloc, text) {
        Ok((line, size)) => Ok((line, &text[size..])),
        Err(_) => Err(AllocError),
    }
}

// The lines of a text.
fn lines_of(alloc: Global, text: &[u8]) -> Result<Vec<Line>, AllocError>
    ensures { (all : List ProofLine) → text.now ≡ bytes_of all → AreReadable all →
        IfOk result (λ lines. map line_of lines.items ≡ all) }
{
    let mut lines = Vec::new(alloc);
    let mut left = text;
    while !left.is_empty() {
        let (line, rest) = next_line(alloc, left)?;
        lines.push(line)?;
        left = rest;
    }
    Ok(lines)
}

/// The text without each line that makes a term or a formula which no later line names that is left.
pub(crate) fn lean_text(alloc: Global, text: &[u8]) -> Result<Vec<u8>, AllocError>
    ensures { (s : Subject) (exact : Bool) (p : Progress) → Leads s text.now exact p →
        IfOk result (λ lean. IsLean s exact p lean.items) }
{
    let lines = lines_of(alloc, text)?;
    let left = pruned(alloc, lines)?;
    text_of(alloc, left.as_slice())
}
