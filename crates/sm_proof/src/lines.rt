// The lines of each kind, by the words behind the first.
ghost use Rattle.std.specs.Prelude.{◌≡◌, true};
ghost use Rattle.sm_proof.specs.Behind.{behind, is_cert_head, is_node_head, line_in};
ghost use Rattle.sm_proof.specs.HeadWords.{form_kind_of, term_kind_of};
ghost use Rattle.sm_proof.specs.Lines.{Cert, Form, Node, Term, numbered_line};
ghost use Rattle.sm_proof.specs.Reading.{read_form, read_rest, read_second, read_term};

use crate::error::Fault;
use crate::fields::{
    five_numbers, literal, no_numbers, number_and_side, one_number, small_and_number, small_number,
    three_numbers, two_numbers,
};
use crate::find::{form_kind_of, term_kind_of};
use crate::kind::{FormKind, TermKind};
use crate::line::{FormLine, NodeLine, TermLine};
use crate::split::split_word;
use crate::word::Head;
use sm_term::TermId;
use sm_theory::CertLine;

/// A line that makes a term.
pub(crate) fn second_term(rest: &[u8]) -> Result<TermLine, Fault>
    ensures { read_second term_kind_of read_term (behind rest.now) ≡ line_in result Term }
{
    if rest.is_empty() {
        return Err(Fault::Line);
    }
    let (word, more) = split_word(&rest[1..]);
    match term_kind_of(word) {
        Some(kind) => term_line(kind, more),
        None => Err(Fault::Line),
    }
}

fn term_line(kind: TermKind, rest: &[u8]) -> Result<TermLine, Fault>
    ensures { read_term kind (behind rest.now) ≡ line_in result Term }
{
    match kind {
        TermKind::Lit => Ok(TermLine::Lit(literal(rest)?)),
        TermKind::Start => Ok(TermLine::Start(one_number(rest)?)),
        TermKind::Cell => {
            no_numbers(rest)?;
            Ok(TermLine::Cell)
        }
        TermKind::Slot => {
            let (copy, name) = small_and_number(rest, 3)?;
            Ok(TermLine::Slot { copy, name })
        }
        TermKind::Cur => {
            let (copy, name) = small_and_number(rest, 3)?;
            Ok(TermLine::Cur { copy, name })
        }
        TermKind::Of => {
            let (fact, side) = number_and_side(rest)?;
            Ok(TermLine::Of { fact, side })
        }
        TermKind::Arg => {
            let (term, place) = two_numbers(rest)?;
            Ok(TermLine::Arg { term, place })
        }
        TermKind::Read => {
            let (t, u) = two_numbers(rest)?;
            Ok(TermLine::Read(t, u))
        }
        TermKind::Write => {
            let (t, u, v) = three_numbers(rest)?;
            Ok(TermLine::Write(t, u, v))
        }
        TermKind::Neg => Ok(TermLine::Neg(one_number(rest)?)),
        TermKind::Add => {
            let (t, u) = two_numbers(rest)?;
            Ok(TermLine::Add(t, u))
        }
        TermKind::Sub => {
            let (t, u) = two_numbers(rest)?;
            Ok(TermLine::Sub(t, u))
        }
        TermKind::Mul => {
            let (t, u) = two_numbers(rest)?;
            Ok(TermLine::Mul(t, u))
        }
    }
}

/// A line that makes a formula.
pub(crate) fn second_form(rest: &[u8]) -> Result<FormLine, Fault>
    ensures { read_second form_kind_of read_form (behind rest.now) ≡ line_in result Form }
{
    if rest.is_empty() {
        return Err(Fault::Line);
    }
    let (word, more) = split_word(&rest[1..]);
    match form_kind_of(word) {
        Some(kind) => form_line(kind, more),
        None => Err(Fault::Line),
    }
}

fn form_line(kind: FormKind, rest: &[u8]) -> Result<FormLine, Fault>
    ensures { read_form kind (behind rest.now) ≡ line_in result Form }
{
    match kind {
        FormKind::Yes => {
            no_numbers(rest)?;
            Ok(FormLine::Yes)
        }
        FormKind::No => {
            no_numbers(rest)?;
            Ok(FormLine::No)
        }
        FormKind::Eq => {
            let (t, u) = two_numbers(rest)?;
            Ok(FormLine::Eq(t, u))
        }
        FormKind::Ne => {
            let (t, u) = two_numbers(rest)?;
            Ok(FormLine::Ne(t, u))
        }
        FormKind::Le => {
            let (t, u) = two_numbers(rest)?;
            Ok(FormLine::Le(t, u))
        }
        FormKind::Lt => {
            let (t, u) = two_numbers(rest)?;
            Ok(FormLine::Lt(t, u))
        }
        FormKind::And => {
            let (p, q) = two_numbers(rest)?;
            Ok(FormLine::And(p, q))
        }
        FormKind::Or => {
            let (p, q) = two_numbers(rest)?;
            Ok(FormLine::Or(p, q))
        }
    }
}

/// Whether a first word is one of a node's line.
pub(crate) fn is_node_head(head: Head) -> bool
    ensures { result ≡ is_node_head head }
{
    match head {
        Head::Step | Head::Abs | Head::Fork | Head::Loop => true,
        Head::Block | Head::Dead | Head::End => true,
        _ => false,
    }
}

/// A line of a node.
pub(crate) fn node_line(head: Head, rest: &[u8]) -> Result<NodeLine, Fault>
    requires { is_node_head head ≡ true }
    ensures { read_rest head (behind rest.now) ≡ line_in result Node }
{
    match head {
        Head::Step => Ok(NodeLine::Step {
            copy: small_number(rest, 3)?,
        }),
        Head::Abs => {
            let (copy, count) = small_and_number(rest, 3)?;
            Ok(NodeLine::Abs { copy, count })
        }
        Head::Fork => Ok(NodeLine::Fork {
            copy: small_number(rest, 3)?,
        }),
        Head::Loop => {
            let (set, keep) = small_and_number(rest, 255)?;
            Ok(NodeLine::Loop { set, keep })
        }
        Head::Block => {
            let (k0, k1, k2, k3, keep) = five_numbers(rest)?;
            Ok(NodeLine::Block {
                k0,
                k1,
                k2,
                k3,
                keep,
            })
        }
        Head::Dead => {
            no_numbers(rest)?;
            Ok(NodeLine::Dead)
        }
        _ => {
            no_numbers(rest)?;
            Ok(NodeLine::End)
        }
    }
}

/// A line of a certificate, but `cong`.
pub(crate) fn cert_line(head: Head, rest: &[u8]) -> Result<CertLine, Fault>
    requires { is_cert_head head ≡ true }
    ensures { read_rest head (behind rest.now) ≡ line_in result (λ l. Cert (numbered_line l)) }
{
    match head {
        Head::Both => Ok(CertLine::Both(one_number(rest)?)),
        Head::Either => Ok(CertLine::Either(one_number(rest)?)),
        Head::Cases => {
            let (t, u) = two_numbers(rest)?;
            Ok(CertLine::Cases(TermId(t), TermId(u)))
        }
        Head::Order => Ok(CertLine::Order(one_number(rest)?)),
        Head::Refl => Ok(CertLine::Refl(TermId(one_number(rest)?))),
        Head::Sym => Ok(CertLine::Sym(one_number(rest)?)),
        Head::Trans => {
            let (m, n) = two_numbers(rest)?;
            Ok(CertLine::Trans(m, n))
        }
        Head::Subst => {
            let (m, n) = two_numbers(rest)?;
            Ok(CertLine::Subst(m, n))
        }
        Head::Same => {
            let (t, u) = two_numbers(rest)?;
            Ok(CertLine::Same(TermId(t), TermId(u)))
        }
        Head::Apart => {
            let (t, u) = two_numbers(rest)?;
            Ok(CertLine::Apart(TermId(t), TermId(u)))
        }
        Head::Hit => {
            let (t, n) = two_numbers(rest)?;
            Ok(CertLine::Hit(TermId(t), n))
        }
        Head::Miss => {
            let (t, u, n) = three_numbers(rest)?;
            Ok(CertLine::Miss(TermId(t), TermId(u), n))
        }
        Head::Lin => Ok(CertLine::Lin(one_number(rest)?)),
        Head::Elim => {
            let (m, n, t) = three_numbers(rest)?;
            Ok(CertLine::Elim(m, n, TermId(t)))
        }
        Head::Tight => Ok(CertLine::Tight(one_number(rest)?)),
        Head::Exact => Ok(CertLine::Exact(one_number(rest)?)),
        Head::Close => Ok(CertLine::Close(one_number(rest)?)),
        _ => {
            let (m, n) = two_numbers(rest)?;
            Ok(CertLine::Clash(m, n))
        }
    }
}
