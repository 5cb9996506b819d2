// Where a place of a text stands.
ghost use Rattle.std.specs.Prelude.{◌≡◌, ◌==◌, ◌≤◌, ◌<◌, ◌+◌, ◌++◌, if◌then◌else◌, length, take, IfOk, OnOk};
ghost use Rattle.sm_explain.specs.Places.{line_feeds, StartsLine, EndsLine, HasNoFeed, IsPlace, heading, blank_under, margin, IsShown};

use itoa::Buffer;
use std::alloc::{AllocError, Global};

/// Where a place of a text stands. Lines and columns count from 1, and columns count bytes.
#[derive(Clone, Copy)]
pub struct Place {
    pub line: usize,
    pub column: usize,
    /// Where its line starts.
    pub start: usize,
    /// Where its line ends: at its line feed, or with the text.
    pub end: usize,
}

/// Where an offset of a text stands.
pub fn place_of(text: &[u8], offset: usize) -> Place
    requires { offset ≤ length text.now }
    ensures { IsPlace text.now offset result }
{
    let line = line_number(text, offset);
    let start = line_start(text, offset);
    let end = line_end(text, offset);
    Place {
        line,
        column: offset - start + 1,
        start,
        end,
    }
}

/// Three lines: the line and the column of an offset, its line of the text, and a caret under it.
pub fn show_place(alloc: Global, text: &[u8], offset: usize) -> Result<Vec<u8>, AllocError>
    requires { offset ≤ length text.now }
    ensures { IfOk result (λ shown. IsShown text.now offset shown.items) }
{
    let place = place_of(text, offset);
    let mut shown = Vec::new(alloc);
    put_heading(&mut shown, place.line, place.column)?;
    shown.extend_from_slice(&text[place.start..place.end])?;
    shown.push(b'\n')?;
    put_margin(&mut shown, &text[place.start..offset])?;
    shown.extend_from_slice(b"^\n")?;
    Ok(shown)
}

// The number of an offset's line.
fn line_number(text: &[u8], offset: usize) -> usize
    requires { offset ≤ length text.now }
    ensures { result ≡ 1 + line_feeds (take offset text.now) }
{
    let mut line = 1;
    for k in 0..offset {
        line += feeds_in(text[k]);
    }
    line
}

// How many line feeds a byte is.
fn feeds_in(byte: u8) -> usize
    ensures { result ≡ (if byte == 10 then 1 else 0) }
{
    if byte == b'\n' { 1 } else { 0 }
}

// Where an offset's line starts.
fn line_start(text: &[u8], offset: usize) -> usize
    requires { offset ≤ length text.now }
    ensures inside { result ≤ offset }
    ensures starts { StartsLine text.now result }
    ensures one_line { HasNoFeed text.now result offset }
{
    let mut start = 0;
    for k in 0..offset {
        start = start_behind(text, k, start);
    }
    start
}

// Where a line that is known up to a place starts, when it is known past that place.
fn start_behind(text: &[u8], place: usize, start: usize) -> usize
    requires inside { place < length text.now }
    requires before { start ≤ place }
    requires starts { StartsLine text.now start }
    requires one_line { HasNoFeed text.now start place }
    ensures inside { result ≤ place + 1 }
    ensures starts { StartsLine text.now result }
    ensures one_line { HasNoFeed text.now result (place + 1) }
{
    if text[place] == b'\n' {
        place + 1
    } else {
        start
    }
}

// Where an offset's line ends.
fn line_end(text: &[u8], offset: usize) -> usize
    requires { offset ≤ length text.now }
    ensures behind { offset ≤ result }
    ensures inside { result ≤ length text.now }
    ensures ends { EndsLine text.now result }
    ensures one_line { HasNoFeed text.now offset result }
{
    for k in offset..text.len() {
        if text[k] == b'\n' {
            return k;
        }
    }
    text.len()
}

// Puts the line that says a line and a column at the end of a text.
fn put_heading(out: &mut Vec<u8>, line: usize, column: usize) -> Result<(), AllocError>
    ensures { OnOk result (out.new.items ≡ out.old.items ++ heading line column) }
{
    let mut line_digits = Buffer::new();
    let mut column_digits = Buffer::new();
    out.extend_from_slice(b"line ")?;
    out.extend_from_slice(line_digits.format(line).as_bytes())?;
    out.extend_from_slice(b", column ")?;
    out.extend_from_slice(column_digits.format(column).as_bytes())?;
    out.extend_from_slice(b"\n")
}

// Puts what brings a caret behind some bytes at the end of a text.
fn put_margin(out: &mut Vec<u8>, bytes: &[u8]) -> Result<(), AllocError>
    ensures { OnOk result (out.new.items ≡ out.old.items ++ margin bytes.now) }
{
    for byte in bytes {
        out.push(blank_under(*byte))?;
    }
    Ok(())
}

// What stands under a byte before the caret.
fn blank_under(byte: u8) -> u8
    ensures { result ≡ blank_under byte }
{
    if byte == b'\t' { b'\t' } else { b' ' }
}
