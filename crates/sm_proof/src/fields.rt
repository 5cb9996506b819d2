// The numbers behind a word.
ghost use Rattle.std.specs.Prelude.{◌≡◌, ◌≢◌, ◌<◌, ◌≤◌, ◌∷◌, [], ℕ, ℤ, length, Some, None, Ok, IfOk, MatchResult};
ghost use Rattle.sm_proof.specs.Behind.{behind, line_in, IsNextWord, IsNoNumber};
ghost use Rattle.sm_proof.specs.Fields.{any, side, taking};
ghost use Rattle.sm_proof.specs.Lines.{ProofLine, Header, Term};
ghost use Rattle.sm_proof.specs.Reading.{read_literal, read_version};
ghost use Rattle.sm_proof.specs.declared.error.Fault.TheVariants as fault;
ghost use Rattle.sm_proof.specs.declared.line.TermLine.TheVariants.{Lit};

use crate::error::Fault;
use crate::number::{literal_in, number_in};
use crate::split::{split_word, word_count};

/// There are no words behind one.
pub(crate) fn no_numbers(rest: &[u8]) -> Result<(), Fault>
    ensures { (made : ProofLine) → taking [] made (behind rest.now) ≡ line_in result (λ _. made) }
{
    words(rest, 0)
}

/// The number that is behind a word.
pub(crate) fn one_number(rest: &[u8]) -> Result<u64, Fault>
    ensures { (made : ℕ → ProofLine) → taking (any ∷ []) made (behind rest.now)
        ≡ line_in result made }
{
    words(rest, 1)?;
    let (n, _) = next_number(rest, u64::MAX)?;
    Ok(n)
}

/// The number, at most `most`, that is behind a word.
pub(crate) fn small_number(rest: &[u8], most: u8) -> Result<u8, Fault>
    ensures { (made : ℕ → ProofLine) → taking (most ∷ []) made (behind rest.now)
        ≡ line_in result made }
{
    words(rest, 1)?;
    let (n, _) = next_number(rest, u64::from(most))?;
    Ok(n as u8)
}

/// The two numbers that are behind a word.
pub(crate) fn two_numbers(rest: &[u8]) -> Result<(u64, u64), Fault>
    ensures { (made : ℕ → ℕ → ProofLine) → taking (any ∷ any ∷ []) made (behind rest.now)
        ≡ line_in result (λ p. made p.0 p.1) }
{
    words(rest, 2)?;
    let (m, rest) = next_number(rest, u64::MAX)?;
    let (n, _) = next_number(rest, u64::MAX)?;
    Ok((m, n))
}

/// The two numbers behind a word, of which the first is at most `most`.
pub(crate) fn small_and_number(rest: &[u8], most: u8) -> Result<(u8, u64), Fault>
    ensures { (made : ℕ → ℕ → ProofLine) → taking (most ∷ any ∷ []) made (behind rest.now)
        ≡ line_in result (λ p. made p.0 p.1) }
{
    words(rest, 2)?;
    let (m, rest) = next_number(rest, u64::from(most))?;
    let (n, _) = next_number(rest, u64::MAX)?;
    Ok((m as u8, n))
}

/// The number and the side that are behind a word.
pub(crate) fn number_and_side(rest: &[u8]) -> Result<(u64, u8), Fault>
    ensures { (made : ℕ → ℕ → ProofLine) → taking (any ∷ side ∷ []) made (behind rest.now)
        ≡ line_in result (λ p. made p.0 p.1) }
{
    words(rest, 2)?;
    let (n, rest) = next_number(rest, u64::MAX)?;
    let (s, _) = next_number(rest, 1)?;
    Ok((n, s as u8))
}

/// The three numbers that are behind a word.
pub(crate) fn three_numbers(rest: &[u8]) -> Result<(u64, u64, u64), Fault>
    ensures { (made : ℕ → ℕ → ℕ → ProofLine) →
        taking (any ∷ any ∷ any ∷ []) made (behind rest.now)
        ≡ line_in result (λ p. made p.0 p.1 p.2) }
{
    words(rest, 3)?;
    let (k, rest) = next_number(rest, u64::MAX)?;
    let (m, rest) = next_number(rest, u64::MAX)?;
    let (n, _) = next_number(rest, u64::MAX)?;
    Ok((k, m, n))
}

/// The five numbers that are behind a word.
pub(crate) fn five_numbers(rest: &[u8]) -> Result<(u64, u64, u64, u64, u64), Fault>
    ensures { (made : ℕ → ℕ → ℕ → ℕ → ℕ → ProofLine) →
        taking (any ∷ any ∷ any ∷ any ∷ any ∷ []) made (behind rest.now)
        ≡ line_in result (λ p. made p.0 p.1 p.2 p.3 p.4) }
{
    words(rest, 5)?;
    let (k0, rest) = next_number(rest, u64::MAX)?;
    let (k1, rest) = next_number(rest, u64::MAX)?;
    let (k2, rest) = next_number(rest, u64::MAX)?;
    let (k3, rest) = next_number(rest, u64::MAX)?;
    let (keep, _) = next_number(rest, u64::MAX)?;
    Ok((k0, k1, k2, k3, keep))
}

/// The literal that is behind a word.
pub(crate) fn literal(rest: &[u8]) -> Result<i128, Fault>
    ensures { read_literal (behind rest.now) ≡ line_in result (λ z. Term (Lit z)) }
{
    words(rest, 1)?;
    let (word, _) = split_word(&rest[1..]);
    match literal_in(word) {
        Some(z) => Ok(z),
        None => Err(Fault::Number),
    }
}

/// The version that is behind a word.
pub(crate) fn version(rest: &[u8]) -> Result<u8, Fault>
    ensures { read_version (behind rest.now) ≡ line_in result Header }
{
    words(rest, 1)?;
    let (word, _) = split_word(&rest[1..]);
    if word == b"1".as_slice() {
        Ok(1)
    } else if word == b"2".as_slice() {
        Ok(2)
    } else if word == b"3".as_slice() {
        Ok(3)
    } else {
        Err(Fault::Line)
    }
}

/// The number, at most `most`, behind a word, and what is behind it.
pub(crate) fn next_number(rest: &[u8], most: u64) -> Result<(u64, &[u8]), Fault>
    ensures found { MatchResult result
        (λ p. IsNextWord most rest.now (Some p.0) (behind p.1.now))
        (λ e. IsNoNumber most rest.now e) }
    ensures small { IfOk result (λ p. p.0 ≤ most) }
    ensures shorter { IfOk result (λ p. length p.1.now < length rest.now) }
{
    if rest.is_empty() {
        return Err(Fault::Line);
    }
    let (word, more) = split_word(&rest[1..]);
    match number_in(word, most) {
        Some(n) => Ok((n, more)),
        None => Err(Fault::Number),
    }
}

// There are so many words behind one.
fn words(rest: &[u8], count: usize) -> Result<(), Fault>
    ensures { MatchResult result (λ _. length (behind rest.now) ≡ count)
        (λ e. (length (behind rest.now) ≢ count) × (e ≡ fault.Line)) }
{
    if word_count(rest) == count {
        Ok(())
    } else {
        Err(Fault::Line)
    }
}
