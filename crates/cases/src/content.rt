// The bytes that a word or a file's content stands for.

use crate::fault::Fault;
use crate::report::Report;
use serde_json::Value;
use std::alloc::Global;

/// The bytes of a content. Each part with a choice takes its own of `choice`, and leaves the rest.
pub fn bytes_of(alloc: Global, content: &Value, choice: &mut u64) -> Result<Vec<u8>, Fault> {
    let mut bytes = Report::new(alloc);
    match content {
        Value::Array(parts) => {
            for part in parts {
                add_part(alloc, part, choice, &mut bytes)?;
            }
        }
        part => add_part(alloc, part, choice, &mut bytes)?,
    }
    bytes.end()
}

// Adds the bytes of one part.
fn add_part(
    alloc: Global,
    part: &Value,
    choice: &mut u64,
    bytes: &mut Report,
) -> Result<(), Fault> {
    if let Some(text) = part.as_str() {
        bytes.put(text.as_bytes());
    } else if let Some(times) = part.get("times") {
        add_often(part, times, bytes)?;
    } else if let Some(hex) = part.get("hex") {
        add_hex(alloc, hex, bytes)?;
    } else if let Some(texts) = part.get("each") {
        bytes.put(chosen(texts, choice)?.as_bytes());
    } else {
        return Err(Fault::Form("a part of no known form"));
    }
    Ok(())
}

// Adds a part's text so many times.
fn add_often(part: &Value, times: &Value, bytes: &mut Report) -> Result<(), Fault> {
    let text = part.get("text").and_then(Value::as_str);
    let text = text.ok_or(Fault::Form("no text"))?;
    for _ in 0..times.as_u64().ok_or(Fault::Form("no number of times"))? {
        bytes.put(text.as_bytes());
    }
    Ok(())
}

// Adds the bytes of hex digits.
fn add_hex(alloc: Global, digits: &Value, bytes: &mut Report) -> Result<(), Fault> {
    let digits = digits.as_str().ok_or(Fault::Form("no hex digits"))?;
    match hex::decode(alloc, digits) {
        Ok(decoded) => bytes.put(&decoded),
        Err(_) => return Err(Fault::Form("no hex digits")),
    }
    Ok(())
}

// One of the texts, by the choice's remainder. The quotient is left for the other parts.
fn chosen<'a>(texts: &'a Value, choice: &mut u64) -> Result<&'a str, Fault> {
    let texts = texts.as_array().ok_or(Fault::Form("no texts"))?;
    let count = texts.len() as u64;
    if count == 0 {
        return Err(Fault::Form("nothing to choose from"));
    }
    let place = *choice % count;
    *choice /= count;
    texts[place as usize].as_str().ok_or(Fault::Form("no text"))
}
