// Lines of certificates.
ghost use Rattle.std.specs.Prelude.{◌≡◌, ◌++◌, nat_eq, OnOk};
ghost use Rattle.std.specs.HashMap.{get};
ghost use Rattle.sm_theory.specs.Named.{reads_all};
ghost use Rattle.sm_proof.specs.FieldRanges.{numbers_of};
ghost use Rattle.sm_proof.specs.HeadWords.{head_word};
ghost use Rattle.sm_proof.specs.Lines.{Cert, numbered_line};
ghost use Rattle.sm_write.specs.Bytes.{line_text, one_word};
ghost use Rattle.sm_write.specs.LineTerms.{first_term, second_term};
ghost use Rattle.sm_write.specs.Written.{file_number, line_with, number_in, written};

use crate::text::{put_head, put_two_lists};
use sm_proof::{Head, line_head};
use sm_term::TermId;
use sm_theory::CertLine;
use std::alloc::AllocError;
use std::collections::HashMap;

// The first term that a line names.
pub(crate) fn first_term(line: &CertLine) -> Option<TermId>
    ensures { result ≡ first_term line.now }
{
    match line {
        CertLine::Refl(t) | CertLine::Hit(t, _) | CertLine::Elim(_, _, t) => Some(*t),
        CertLine::Cases(t, _) | CertLine::Cong(t, _, _) | CertLine::Miss(t, _, _) => Some(*t),
        CertLine::Same(t, _) | CertLine::Apart(t, _) => Some(*t),
        _ => None,
    }
}

// The second term that a line names.
pub(crate) fn second_term(line: &CertLine) -> Option<TermId>
    ensures { result ≡ second_term line.now }
{
    match line {
        CertLine::Cases(_, u) | CertLine::Cong(_, u, _) | CertLine::Miss(_, u, _) => Some(*u),
        CertLine::Same(_, u) | CertLine::Apart(_, u) => Some(*u),
        _ => None,
    }
}

// Whether a line is a line `exact`.
pub(crate) fn is_exact(line: &CertLine) -> bool
    ensures { result ≡ reads_all (numbered_line line.now) }
{
    match line {
        CertLine::Exact(_) => true,
        _ => false,
    }
}

// The number of a term in the file, 0 where it has none.
pub(crate) fn file_number(names: &HashMap<u64, TermId>, t: TermId) -> u64
    ensures { result ≡ file_number (get nat_eq names.now) t }
{
    match names.get(&t.0) {
        Some(n) => n.0,
        None => 0,
    }
}

/// Writes a line of a certificate by the numbers that its terms have in the file.
pub(crate) fn put_cert(
    text: &mut Vec<u8>,
    names: &HashMap<u64, TermId>,
    line: &CertLine,
) -> Result<(), AllocError>
    ensures { OnOk result (text.new.items
        ≡ text.old.items ++ line_text (Cert (written (get nat_eq names.now) line.now))) }
{
    let t = number_in(names, first_term(line));
    let u = number_in(names, second_term(line));
    put_line_with(text, line, t, u)
}

// The number of a term in the file, if there is a term, 0 where it has none.
fn number_in(names: &HashMap<u64, TermId>, t: Option<TermId>) -> u64
    ensures { result ≡ number_in (get nat_eq names.now) t }
{
    match t {
        Some(t) => file_number(names, t),
        None => 0,
    }
}

// The numbers of a line behind a first word, with these for its first term and its second.
fn put_behind(
    text: &mut Vec<u8>,
    head: Head,
    line: &CertLine,
    t: u64,
    u: u64,
) -> Result<(), AllocError>
    ensures { OnOk result (text.new.items
        ≡ text.old.items ++ one_word (head_word head) (numbers_of (line_with line.now t u))) }
{
    match line {
        CertLine::Both(n)
        | CertLine::Either(n)
        | CertLine::Order(n)
        | CertLine::Sym(n)
        | CertLine::Lin(n)
        | CertLine::Tight(n)
        | CertLine::Exact(n)
        | CertLine::Close(n) => put_head(text, head, &[*n]),
        CertLine::Trans(m, n) | CertLine::Subst(m, n) | CertLine::Clash(m, n) => {
            put_head(text, head, &[*m, *n])
        }
        CertLine::Cases(_, _) | CertLine::Same(_, _) | CertLine::Apart(_, _) => {
            put_head(text, head, &[t, u])
        }
        CertLine::Refl(_) => put_head(text, head, &[t]),
        CertLine::Cong(_, _, facts) => put_two_lists(text, head.word(), &[t, u], &facts.list),
        CertLine::Hit(_, n) => put_head(text, head, &[t, *n]),
        CertLine::Miss(_, _, n) => put_head(text, head, &[t, u, *n]),
        CertLine::Elim(m, n, _) => put_head(text, head, &[*m, *n, t]),
    }
}

/// Writes a line of a certificate with these numbers for its first term and its second.
pub(crate) fn put_line_with(
    text: &mut Vec<u8>,
    line: &CertLine,
    t: u64,
    u: u64,
) -> Result<(), AllocError>
    ensures { OnOk result
        (text.new.items ≡ text.old.items ++ line_text (Cert (line_with line.now t u))) }
{
    put_behind(text, line_head(line), line, t, u)
}
