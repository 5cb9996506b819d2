// Lists of files, and lines with numbers.
ghost use Rattle.std.specs.Prelude.{◌≡◌, ◌<◌, ◌+◌, ◌++◌, ◌∷◌, [], ℕ, List, true, false, None, length, map, take, IfOk, IfErr, IfSome, IfNone, OnOk};
ghost use Rattle.std.specs.Str.{is_utf8};
ghost use Rattle.std.specs.String.{string_bytes};
ghost use Rattle.sm_check.specs.LineEnds.{HasNoEnd};
ghost use Rattle.sm_proof.specs.Verdicts.{lines_in};
ghost use Rattle.sm_answers.specs.Exit.{ExitsWith};
ghost use Rattle.sm_answers.specs.Listed.{line_before, unended, IsListed};
ghost use Rattle.sm_answers.specs.Lists.{bad_list_line, is_name, is_short, numbered_line, GivesList, GivesNoList, IsList, IsNoList, ReadsList};

use crate::exit::Exit;
use crate::file::bytes_in;
use crate::status::{Reply, Status};
use itoa::Buffer;
use memchr::memchr;
use sm_io::Shelf;
use sm_words::line;
use std::alloc::{AllocError, Global};

/// The names in the list that a file's bytes are.
pub fn list_in<H: Shelf>(alloc: Global, shelf: &mut H, name: &str) -> Result<Vec<String>, Exit>
    ensures ok { IfOk result (λ names. GivesList (H.file shelf.old name.now)
        (H.read_faults shelf.old) (H.read_faults shelf.new) (map string_bytes names.items)) }
    ensures read { IfOk result (λ names. ReadsList name.now (H.given shelf.old)
        (H.given shelf.new) (map string_bytes names.items)) }
    ensures exit { IfErr result (ExitsWith (GivesNoList (H.file shelf.old name.now)
        (H.read_faults shelf.old) (H.read_faults shelf.new))) }
    ensures same { (other : List ℕ) → H.file shelf.new other ≡ H.file shelf.old other }
    ensures writes { H.write_faults shelf.new ≡ H.write_faults shelf.old }
{
    let bytes = bytes_in(alloc, shelf, name, "list")?;
    list_from(alloc, &bytes)
}

// The names in the list that bytes are.
fn list_from(alloc: Global, bytes: &[u8]) -> Result<Vec<String>, Exit>
    ensures ok { IfOk result (λ names. IsList bytes.now (map string_bytes names.items)) }
    ensures exit { IfErr result (ExitsWith (IsNoList bytes.now)) }
{
    match names_in(alloc, bytes)? {
        Listed::Names(names) => Ok(names),
        Listed::Bad(number) => Err(Exit::Answer(Reply {
            status: Status::Refused,
            text: bad_list_line(alloc, number)?,
        })),
    }
}

// What the bytes of a list come to: its names, or the number of its first bad line.
#[derive(Drop)]
enum Listed {
    Names(Vec<String>),
    Bad(u64),
}

fn names_in(alloc: Global, bytes: &[u8]) -> Result<Listed, AllocError>
    ensures { IfOk result (IsListed bytes.now) }
{
    let mut names = Vec::new(alloc);
    let mut rest = bytes;
    'lines: while let Some((line, more)) = first_line(rest) {
        let Some(name) = name_in(names.len(), line) else {
            return Ok(Listed::Bad(names.len() as u64 + 1));
        };
        names.push(String::from_str(alloc, name)?)?;
        rest = more;
    }
    if rest.is_empty() {
        Ok(Listed::Names(names))
    } else {
        Ok(Listed::Bad(names.len() as u64 + 1))
    }
}

// The first line of bytes, without its end, and what is behind that.
fn first_line(bytes: &[u8]) -> Option<(&[u8], &[u8])>
    ensures some { IfSome result (λ r.
        lines_in bytes.now ≡ line_before r.0.now (lines_in r.1.now)) }
    ensures less { IfSome result (λ r. length r.1.now < length bytes.now) }
    ensures none { IfNone result (lines_in bytes.now ≡ unended bytes.now) }
{
    match line_end(bytes) {
        Some(end) => Some((&bytes[..end], &bytes[end + 1..])),
        None => None,
    }
}

// How many bytes stand before the first line end.
fn line_end(bytes: &[u8]) -> Option<usize>
    ensures some { IfSome result (λ n. (n < length bytes.now) × HasNoEnd (take n bytes.now)
        × (take (n + 1) bytes.now ≡ take n bytes.now ++ 10 ∷ [])) }
    ensures none { result ≡ None → HasNoEnd bytes.now }
{
    memchr(b'\n', bytes)
}

// The name that a line gives, where so many lines come before it.
fn name_in(before: usize, line: &[u8]) -> Option<&str>
    ensures some { IfSome result (λ name.
        (name.now ≡ line.now) × (is_name before line.now ≡ true)) }
    ensures none { IfNone result (is_name before line.now ≡ false) }
{
    if !is_short(before, line) {
        return None;
    }
    text_in(line)
}

// Whether a line has 1 to 255 bytes, and is one of the first 1,000.
fn is_short(before: usize, line: &[u8]) -> bool
    ensures { result ≡ is_short before line.now }
{
    before <= 999 && 1 <= line.len() && line.len() <= 255
}

// The text that bytes of UTF-8 are.
fn text_in(bytes: &[u8]) -> Option<&str>
    ensures some { IfSome result (λ text. (text.now ≡ bytes.now) × (is_utf8 bytes.now ≡ true)) }
    ensures none { IfNone result (is_utf8 bytes.now ≡ false) }
{
    match str::from_utf8(bytes) {
        Ok(text) => Some(text),
        Err(_) => None,
    }
}

// The line on a bad line of a list.
fn bad_list_line(alloc: Global, number: u64) -> Result<Vec<u8>, AllocError>
    ensures { IfOk result (λ text. text.items ≡ bad_list_line number) }
{
    let mut buffer = Buffer::new();
    line(alloc, "Refused", &["BadList", buffer.format(number)])
}

/// Puts a line with a number before it.
pub fn put_numbered(text: &mut Vec<u8>, number: u64, line: &[u8]) -> Result<(), AllocError>
    ensures { OnOk result (text.new.items ≡ text.old.items ++ numbered_line number line.now) }
{
    let mut buffer = Buffer::new();
    text.extend_from_slice(buffer.format(number).as_bytes())?;
    text.push(b' ')?;
    text.extend_from_slice(line)?;
    text.push(b'\n')?;
    Ok(())
}
