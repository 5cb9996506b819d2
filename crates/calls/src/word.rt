// Words of commands.
ghost use Rattle.std.specs.Prelude.{◌<◌, ◌^◌, IfOk, length};

use crate::printed::Printed;
use crate::refusal::{Refusal, told};
use sm_num::Kind;
use sm_term::TermId;
use std::alloc::{AllocError, Global};

/// The first word of a text, and what stands behind the space after it.
pub fn two(text: &str) -> Result<(&str, &str), Refusal> {
    match text.split_once(' ') {
        Some(both) => Ok(both),
        None => Err(Refusal::Bad),
    }
}

/// A number from 0.
pub fn natural(word: &str) -> Result<u64, Refusal> {
    match word.parse::<u64>() {
        Ok(n) => Ok(n),
        Err(_) => Err(Refusal::Bad),
    }
}

/// A whole number of 128 bits.
pub fn whole(word: &str) -> Result<i128, Refusal> {
    match word.parse::<i128>() {
        Ok(z) => Ok(z),
        Err(_) => Err(Refusal::Bad),
    }
}

/// The number of a term.
pub fn term_id(word: &str) -> Result<TermId, Refusal> {
    Ok(TermId(natural(word)?))
}

/// A number of a copy.
pub fn copy_of(word: &str) -> Result<u8, Refusal>
    ensures { IfOk result (λ copy. copy < 4) }
{
    match word.parse::<u8>() {
        Ok(n) if n < 4 => Ok(n),
        _ => Err(Refusal::Bad),
    }
}

/// What a form says of its sum.
pub fn kind(word: &str) -> Result<Kind, Refusal> {
    match word {
        "le" => Ok(Kind::Le),
        "eq" => Ok(Kind::Eq),
        _ => Err(Refusal::Bad),
    }
}

/// The bytes of a text that isn't too long to be read.
pub fn bytes_of(text: &str) -> Result<&[u8], Refusal>
    ensures { IfOk result (λ bytes. length bytes.now < 2 ^ 32) }
{
    let bytes = text.as_bytes();
    if bytes.len() >= 1 << 32 {
        return Err(Refusal::Bad);
    }
    Ok(bytes)
}

/// The bytes of a text, with a line feed for each slash.
pub fn with_line_feeds(alloc: Global, text: &str) -> Result<Vec<u8>, AllocError> {
    let text = text.replace(alloc, "/", "\n")?;
    Ok(text.into_bytes())
}

/// Prints bytes that are a text.
pub fn put_text(out: &mut Printed, bytes: &[u8]) -> Result<(), Refusal> {
    match std::str::from_utf8(bytes) {
        Ok(text) => {
            out.put(text);
            Ok(())
        }
        Err(error) => Err(told(out, error)),
    }
}
