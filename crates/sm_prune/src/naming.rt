// Marks of the terms and formulas that a line names.
ghost use Rattle.std.specs.Prelude.{nat_eq};
ghost use Rattle.std.specs.List.{list_any};
ghost use Rattle.sm_theory.specs.Named.{terms_named};
ghost use Rattle.sm_proof.specs.Lines.{line_of, numbered_line};
ghost use Rattle.sm_prune.specs.LineNumbers.{forms_of_form, forms_of_node, names_form, names_term, terms_of_form, terms_of_term};
ghost use Rattle.sm_prune.specs.Marks.{MarksMore};

use crate::marks::mark_each;
use sm_proof::{FormLine, Line, NodeLine, TermLine};
use sm_theory::CertLine;

// Marks the terms that a line `t` names.
fn mark_term(terms: &mut Vec<bool>, line: &TermLine)
    ensures { MarksMore (λ n. list_any (nat_eq n) (terms_of_term line.now))
        terms.old.items terms.new.items }
{
    match line {
        TermLine::Arg { term, .. } => mark_each(terms, &[*term]),
        TermLine::Neg(t) => mark_each(terms, &[*t]),
        TermLine::Write(t, u, v) => mark_each(terms, &[*t, *u, *v]),
        TermLine::Read(t, u) | TermLine::Add(t, u) | TermLine::Sub(t, u) | TermLine::Mul(t, u) =>
            mark_each(terms, &[*t, *u]),
        _ => {}
    }
}

// Marks the terms and the formulas that a line `p` names.
fn mark_form(terms: &mut Vec<bool>, forms: &mut Vec<bool>, line: &FormLine)
    ensures terms { MarksMore (λ n. list_any (nat_eq n) (terms_of_form line.now))
        terms.old.items terms.new.items }
    ensures forms { MarksMore (λ n. list_any (nat_eq n) (forms_of_form line.now))
        forms.old.items forms.new.items }
{
    match line {
        FormLine::Eq(t, u) | FormLine::Ne(t, u) | FormLine::Le(t, u) | FormLine::Lt(t, u) => {
            mark_each(terms, &[*t, *u])
        }
        FormLine::And(p, q) | FormLine::Or(p, q) => mark_each(forms, &[*p, *q]),
        FormLine::Yes | FormLine::No => {}
    }
}

// Marks the formula that a node keeps, if any.
fn mark_node(forms: &mut Vec<bool>, line: &NodeLine)
    ensures { MarksMore (λ n. list_any (nat_eq n) (forms_of_node line.now))
        forms.old.items forms.new.items }
{
    match line {
        NodeLine::Loop { keep, .. } | NodeLine::Block { keep, .. } => mark_each(forms, &[*keep]),
        _ => {}
    }
}

// Marks the terms that a line of a certificate names.
fn mark_cert(terms: &mut Vec<bool>, line: &CertLine)
    ensures { MarksMore (λ n. list_any (nat_eq n) (terms_named (numbered_line line.now)))
        terms.old.items terms.new.items }
{
    match line {
        CertLine::Refl(t) | CertLine::Hit(t, _) | CertLine::Elim(_, _, t) => {
            mark_each(terms, &[t.0])
        }
        CertLine::Cases(t, u)
        | CertLine::Cong(t, u, _)
        | CertLine::Same(t, u)
        | CertLine::Apart(t, u)
        | CertLine::Miss(t, u, _) => mark_each(terms, &[t.0, u.0]),
        _ => {}
    }
}

/// Marks the terms and the formulas that a line names.
pub(crate) fn mark_line(terms: &mut Vec<bool>, forms: &mut Vec<bool>, line: &Line)
    ensures terms { MarksMore (λ n. names_term n (line_of line.now))
        terms.old.items terms.new.items }
    ensures forms { MarksMore (λ n. names_form n (line_of line.now))
        forms.old.items forms.new.items }
{
    match line {
        Line::Header { .. } => {}
        Line::Term(line) => mark_term(terms, line),
        Line::Form(line) => mark_form(terms, forms, line),
        Line::Node(line) => mark_node(forms, line),
        Line::Cert(line) => mark_cert(terms, line),
    }
}
