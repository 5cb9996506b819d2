// Lines with other numbers of terms and formulas.
ghost use Rattle.std.specs.Prelude.{◌≡◌, IfOk};
ghost use Rattle.sm_theory.specs.Named.{with_terms};
ghost use Rattle.sm_proof.specs.Lines.{Cong, line_of, numbered_line};
ghost use Rattle.sm_prune.specs.LeftLines.{new_number};
ghost use Rattle.sm_prune.specs.LineNumbers.{renumbered, renumbered_form, renumbered_node, renumbered_term};

use crate::numbers::new_number;
use sm_proof::{FormLine, Line, NodeLine, TermLine};
use sm_term::TermId;
use sm_theory::{CertLine, FactNumbers};
use std::alloc::{AllocError, Global};

// A line `t` by new numbers.
fn renumbered_term(line: &TermLine, terms: &[u64]) -> TermLine
    ensures { result ≡ renumbered_term (new_number terms.now) line.now }
{
    match line {
        TermLine::Lit(z) => TermLine::Lit(*z),
        TermLine::Start(x) => TermLine::Start(*x),
        TermLine::Cell => TermLine::Cell,
        TermLine::Slot { copy, name } => TermLine::Slot {
            copy: *copy,
            name: *name,
        },
        TermLine::Cur { copy, name } => TermLine::Cur {
            copy: *copy,
            name: *name,
        },
        TermLine::Of { fact, side } => TermLine::Of {
            fact: *fact,
            side: *side,
        },
        TermLine::Arg { term, place } => TermLine::Arg {
            term: new_number(terms, *term),
            place: *place,
        },
        TermLine::Read(t, u) => TermLine::Read(new_number(terms, *t), new_number(terms, *u)),
        TermLine::Write(t, u, v) => TermLine::Write(
            new_number(terms, *t),
            new_number(terms, *u),
            new_number(terms, *v),
        ),
        TermLine::Neg(t) => TermLine::Neg(new_number(terms, *t)),
        TermLine::Add(t, u) => TermLine::Add(new_number(terms, *t), new_number(terms, *u)),
        TermLine::Sub(t, u) => TermLine::Sub(new_number(terms, *t), new_number(terms, *u)),
        TermLine::Mul(t, u) => TermLine::Mul(new_number(terms, *t), new_number(terms, *u)),
    }
}

// A line `p` by new numbers.
fn renumbered_form(line: &FormLine, terms: &[u64], forms: &[u64]) -> FormLine
    ensures { result ≡ renumbered_form (new_number terms.now) (new_number forms.now) line.now }
{
    match line {
        FormLine::Yes => FormLine::Yes,
        FormLine::No => FormLine::No,
        FormLine::Eq(t, u) => FormLine::Eq(new_number(terms, *t), new_number(terms, *u)),
        FormLine::Ne(t, u) => FormLine::Ne(new_number(terms, *t), new_number(terms, *u)),
        FormLine::Le(t, u) => FormLine::Le(new_number(terms, *t), new_number(terms, *u)),
        FormLine::Lt(t, u) => FormLine::Lt(new_number(terms, *t), new_number(terms, *u)),
        FormLine::And(p, q) => FormLine::And(new_number(forms, *p), new_number(forms, *q)),
        FormLine::Or(p, q) => FormLine::Or(new_number(forms, *p), new_number(forms, *q)),
    }
}

// A node by new numbers.
fn renumbered_node(line: &NodeLine, forms: &[u64]) -> NodeLine
    ensures { result ≡ renumbered_node (new_number forms.now) line.now }
{
    match line {
        NodeLine::Step { copy } => NodeLine::Step { copy: *copy },
        NodeLine::Abs { copy, count } => NodeLine::Abs {
            copy: *copy,
            count: *count,
        },
        NodeLine::Fork { copy } => NodeLine::Fork { copy: *copy },
        NodeLine::Loop { set, keep } => NodeLine::Loop {
            set: *set,
            keep: new_number(forms, *keep),
        },
        NodeLine::Block {
            k0,
            k1,
            k2,
            k3,
            keep,
        } => NodeLine::Block {
            k0: *k0,
            k1: *k1,
            k2: *k2,
            k3: *k3,
            keep: new_number(forms, *keep),
        },
        NodeLine::Dead => NodeLine::Dead,
        NodeLine::End => NodeLine::End,
    }
}

// The new number of a term.
fn new_term(terms: &[u64], t: TermId) -> TermId
    ensures { result.0 ≡ new_number terms.now t.0 }
{
    TermId(new_number(terms, t.0))
}

// A line `cong` of other terms.
fn congruence(
    alloc: Global,
    t: TermId,
    u: TermId,
    facts: &FactNumbers,
) -> Result<CertLine, AllocError>
    ensures { IfOk result (λ l. numbered_line l ≡ Cong t.0 u.0 facts.now.list.items) }
{
    let list = Vec::from_slice(alloc, &facts.list)?;
    Ok(CertLine::Cong(t, u, FactNumbers { list }))
}

// A line of a certificate by new numbers.
fn renumbered_cert(alloc: Global, line: &CertLine, terms: &[u64]) -> Result<CertLine, AllocError>
    ensures { IfOk result (λ l.
        numbered_line l ≡ with_terms (new_number terms.now) (numbered_line line.now)) }
{
    match line {
        CertLine::Both(n) => Ok(CertLine::Both(*n)),
        CertLine::Either(n) => Ok(CertLine::Either(*n)),
        CertLine::Cases(t, u) => Ok(CertLine::Cases(new_term(terms, *t), new_term(terms, *u))),
        CertLine::Order(n) => Ok(CertLine::Order(*n)),
        CertLine::Refl(t) => Ok(CertLine::Refl(new_term(terms, *t))),
        CertLine::Sym(n) => Ok(CertLine::Sym(*n)),
        CertLine::Trans(m, n) => Ok(CertLine::Trans(*m, *n)),
        CertLine::Subst(m, n) => Ok(CertLine::Subst(*m, *n)),
        CertLine::Cong(t, u, facts) => {
            congruence(alloc, new_term(terms, *t), new_term(terms, *u), facts)
        }
        CertLine::Same(t, u) => Ok(CertLine::Same(new_term(terms, *t), new_term(terms, *u))),
        CertLine::Apart(t, u) => Ok(CertLine::Apart(new_term(terms, *t), new_term(terms, *u))),
        CertLine::Hit(t, n) => Ok(CertLine::Hit(new_term(terms, *t), *n)),
        CertLine::Miss(t, u, n) => {
            Ok(CertLine::Miss(new_term(terms, *t), new_term(terms, *u), *n))
        }
        CertLine::Lin(n) => Ok(CertLine::Lin(*n)),
        CertLine::Elim(m, n, t) => Ok(CertLine::Elim(*m, *n, new_term(terms, *t))),
        CertLine::Tight(n) => Ok(CertLine::Tight(*n)),
        CertLine::Exact(n) => Ok(CertLine::Exact(*n)),
        CertLine::Close(n) => Ok(CertLine::Close(*n)),
        CertLine::Clash(m, n) => Ok(CertLine::Clash(*m, *n)),
    }
}

/// A line by new numbers.
pub(crate) fn renumbered(
    alloc: Global,
    line: &Line,
    terms: &[u64],
    forms: &[u64],
) -> Result<Line, AllocError>
    ensures { IfOk result (λ l. line_of l
        ≡ renumbered (new_number terms.now) (new_number forms.now) (line_of line.now)) }
{
    match line {
        Line::Header { version } => Ok(Line::Header { version: *version }),
        Line::Term(line) => Ok(Line::Term(renumbered_term(line, terms))),
        Line::Form(line) => Ok(Line::Form(renumbered_form(line, terms, forms))),
        Line::Node(line) => Ok(Line::Node(renumbered_node(line, forms))),
        Line::Cert(line) => Ok(Line::Cert(renumbered_cert(alloc, line, terms)?)),
    }
}
