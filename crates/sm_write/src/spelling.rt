// Lines that were read, as bytes.
ghost use Rattle.std.specs.Prelude.{◌≡◌, ◌++◌, map, IfOk, OnOk};
ghost use Rattle.sm_proof.specs.Lines.{Cert, line_of, numbered_line};
ghost use Rattle.sm_prune.specs.Texts.{bytes_of};
ghost use Rattle.sm_write.specs.Bytes.{line_text};
ghost use Rattle.sm_write.specs.Written.{number_or};

use crate::certs::{first_term, put_line_with, second_term};
use crate::text::{put_form, put_line, put_node, put_term};
use sm_proof::Line;
use sm_term::TermId;
use sm_theory::CertLine;
use std::alloc::{AllocError, Global};

// Writes a line of a certificate that names terms by their numbers in the file.
fn put_numbered(text: &mut Vec<u8>, line: &CertLine) -> Result<(), AllocError>
    ensures { OnOk result (text.new.items
        ≡ text.old.items ++ line_text (Cert (numbered_line line.now))) }
{
    let t = number_or_zero(first_term(line));
    let u = number_or_zero(second_term(line));
    put_line_with(text, line, t, u)
}

// The number of a term, 0 where there is none.
fn number_or_zero(t: Option<TermId>) -> u64
    ensures { result ≡ number_or t }
{
    match t {
        Some(t) => t.0,
        None => 0,
    }
}

// Writes any line.
fn put_any(text: &mut Vec<u8>, line: &Line) -> Result<(), AllocError>
    ensures { OnOk result (text.new.items
        ≡ text.old.items ++ line_text (line_of line.now)) }
{
    match line {
        Line::Header { version } => put_line(text, "safemerge-proof", &[*version as u64]),
        Line::Term(line) => put_term(text, *line),
        Line::Form(line) => put_form(text, *line),
        Line::Node(line) => put_node(text, *line),
        Line::Cert(line) => put_numbered(text, line),
    }
}

/// The text of lines.
pub(crate) fn text_of(alloc: Global, lines: &[Line]) -> Result<Vec<u8>, AllocError>
    ensures { IfOk result (λ text. text.items ≡ bytes_of (map line_of lines.now)) }
{
    let mut text = Vec::new(alloc);
    for line in lines {
        put_any(&mut text, line)?;
    }
    Ok(text)
}
