// Reading the lines of a proof file.
ghost use Rattle.std.specs.Prelude.{◌≡◌, ◌≢◌, ◌<◌, ◌≤◌, ◌⊎◌, ◌↔◌, ◌==◌, suc, not, length, Some, None, Ok, Err, IfOk, IfErr, IsErrOf, option_map};
ghost use Rattle.std.specs.List.{prefix_len};
ghost use Rattle.sm_proof.specs.Behind.{behind, line_in, IsAnswer};
ghost use Rattle.sm_proof.specs.FieldRanges.{IsWithinFields};
ghost use Rattle.sm_proof.specs.Fields.{any};
ghost use Rattle.sm_proof.specs.Lines.{line_of};
ghost use Rattle.sm_proof.specs.Numbers.{numbers_in, words_of};
ghost use Rattle.sm_proof.specs.Reading.{first_line, read, read_cong, read_rest, read_words};
ghost use Rattle.sm_proof.specs.Versions.{begins_exact, read_with};
ghost use Rattle.sm_proof.specs.declared.word.Word.TheVariants.{BadLine, BadNumber};

use crate::error::{Fault, LineError};
use crate::fields::{next_number, version};
use crate::find::head_of;
use crate::line::Line;
use crate::lines::{cert_line, is_node_head, node_line, second_form, second_term};
use crate::split::{split_word, word_count};
use crate::word::Head;
use sm_term::TermId;
use sm_theory::{CertLine, FactNumbers};
use std::alloc::Global;

// The greatest length of a line, without its line feed.
const MOST_BYTES: usize = 4096;

/// The line that bytes begin with, and its length with its line feed. What stands before the first
/// line feed decides; Truncated comes where there is none.
pub fn read_line(alloc: Global, bytes: &[u8]) -> Result<(Line, usize), LineError>
    ensures ok { IfOk result (λ r.
        option_map read (first_line bytes.now) ≡ Some (Ok (line_of r.0))) }
    ensures length { IfOk result (λ r.
        option_map (λ line. suc (length line)) (first_line bytes.now) ≡ Some r.1) }
    ensures size { IfOk result (λ r. (0 < r.1) × (r.1 ≤ length bytes.now)) }
    ensures within { IfOk result (λ r. IsWithinFields (line_of r.0)) }
    ensures bad_line { IsErrOf result LineError.BadLine →
        option_map read (first_line bytes.now) ≡ Some (Err BadLine) }
    ensures bad_number { IsErrOf result LineError.BadNumber →
        option_map read (first_line bytes.now) ≡ Some (Err BadNumber) }
    ensures truncated { IsErrOf result LineError.Truncated ↔ (first_line bytes.now ≡ None) }
{
    let size = line_size(bytes);
    if size == bytes.len() {
        return Err(LineError::Truncated);
    }
    let line = line_from(alloc, &bytes[..size])?;
    Ok((line, size + 1))
}

/// The line that bytes without a line feed spell.
pub fn line_from(alloc: Global, bytes: &[u8]) -> Result<Line, LineError>
    ensures ok { IfOk result (λ l. read bytes.now ≡ Ok (line_of l)) }
    ensures within { IfOk result (λ l. IsWithinFields (line_of l)) }
    ensures bad_line { IsErrOf result LineError.BadLine → read bytes.now ≡ Err BadLine }
    ensures bad_number { IsErrOf result LineError.BadNumber → read bytes.now ≡ Err BadNumber }
    ensures ended { IsErrOf result LineError.Truncated → ⊥ }
{
    if bytes.len() > MOST_BYTES {
        return Err(LineError::BadLine);
    }
    line_by_words(alloc, bytes)
}

/// The line that bytes without a line feed spell, where lines `exact` may stand or may not.
pub fn line_with(alloc: Global, bytes: &[u8], exact: bool) -> Result<Line, LineError>
    ensures ok { IfOk result (λ l. read_with exact bytes.now ≡ Ok (line_of l)) }
    ensures within { IfOk result (λ l. IsWithinFields (line_of l)) }
    ensures bad_line { IsErrOf result LineError.BadLine →
        read_with exact bytes.now ≡ Err BadLine }
    ensures bad_number { IsErrOf result LineError.BadNumber →
        read_with exact bytes.now ≡ Err BadNumber }
    ensures ended { IsErrOf result LineError.Truncated → ⊥ }
{
    if exact {
        return line_from(alloc, bytes);
    }
    if begins_exact(bytes) {
        return Err(LineError::BadLine);
    }
    line_from(alloc, bytes)
}

// Whether bytes begin with the word of lines `exact`.
fn begins_exact(bytes: &[u8]) -> bool
    ensures { result ≡ begins_exact bytes.now }
{
    let (word, _) = split_word(bytes);
    word == b"exact".as_slice()
}

// The line that the words of bytes spell, however many bytes these are.
fn line_by_words(alloc: Global, bytes: &[u8]) -> Result<Line, LineError>
    ensures { IsAnswer (read_words (words_of bytes.now)) result line_of }
{
    let (word, rest) = split_word(bytes);
    if word == b"safemerge-proof".as_slice() {
        let version = version(rest)?;
        return Ok(Line::Header { version });
    }
    match head_of(word) {
        Some(head) => line_by_head(alloc, head, rest),
        None => Err(LineError::BadLine),
    }
}

// The line of a kind, by the words behind the first.
fn line_by_head(alloc: Global, head: Head, rest: &[u8]) -> Result<Line, LineError>
    ensures { IsAnswer (read_rest head (behind rest.now)) result line_of }
{
    match head {
        Head::Cong => cong_line(alloc, rest),
        _ => Ok(plain_line(head, rest)?),
    }
}

// A line but `cong`.
fn plain_line(head: Head, rest: &[u8]) -> Result<Line, Fault>
    requires { head ≢ Head.Cong }
    ensures { read_rest head (behind rest.now) ≡ line_in result line_of }
{
    match head {
        Head::T => Ok(Line::Term(second_term(rest)?)),
        Head::P => Ok(Line::Form(second_form(rest)?)),
        _ => {
            if is_node_head(head) {
                Ok(Line::Node(node_line(head, rest)?))
            } else {
                Ok(Line::Cert(cert_line(head, rest)?))
            }
        }
    }
}

// A line `cong`.
fn cong_line(alloc: Global, rest: &[u8]) -> Result<Line, LineError>
    ensures { IsAnswer (read_cong (behind rest.now)) result line_of }
{
    if word_count(rest) < 2 {
        return Err(LineError::BadLine);
    }
    let (t, rest) = next_number(rest, u64::MAX)?;
    let (u, rest) = next_number(rest, u64::MAX)?;
    let list = fact_numbers(alloc, rest)?;
    Ok(Line::Cert(CertLine::Cong(TermId(t), TermId(u), FactNumbers { list })))
}

// The numbers of all words behind one.
fn fact_numbers(alloc: Global, rest: &[u8]) -> Result<Vec<u64>, LineError>
    ensures ok { IfOk result (λ v. numbers_in any (behind rest.now) ≡ Some v.items) }
    ensures err { IfErr result (λ e. (e ≡ LineError.Memory)
        ⊎ ((e ≡ LineError.BadNumber) × (numbers_in any (behind rest.now) ≡ None))) }
{
    let mut list = Vec::new(alloc);
    let mut left = rest;
    while !left.is_empty() {
        let (n, more) = next_number(left, u64::MAX)?;
        list.push(n)?;
        left = more;
    }
    Ok(list)
}

// How many bytes stand before the first line feed.
fn line_size(bytes: &[u8]) -> usize
    ensures { result ≡ prefix_len (λ b. not (b == 10)) bytes.now }
{
    bytes.iter().take_while(|b| **b != b'\n').count()
}
