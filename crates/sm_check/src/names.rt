// Lines of certificates with the terms that they name.
ghost use Rattle.std.specs.Prelude.{◌≡◌, length, Some, IfOk, IfErr};
ghost use Rattle.sm_term.specs.Tables.{trees_in, AreBefore};
ghost use Rattle.sm_theory.specs.Named.{facts_named, terms_named};
ghost use Rattle.sm_theory.specs.Views.{line_in, IsLineWithin};
ghost use Rattle.sm_proof.specs.Lines.{numbered_line};
ghost use Rattle.sm_proof.specs.Named.{are_there, named_line};
ghost use Rattle.sm_check.specs.LineKinds.{Misses};
ghost use Rattle.sm_check.specs.Walks.{terms_in};

use crate::fault::LineFault;
use sm_proof::Word;
use sm_term::{TermId, TermTable};
use sm_theory::{CertLine, line_under};
use std::alloc::{AllocError, Global};

// A line over the terms of the table, at a branch of `count` facts, where its terms and facts are
// there.
pub(crate) fn named_line(
    alloc: Global,
    table: &TermTable,
    terms: &[TermId],
    count: u64,
    line: &CertLine,
) -> Result<CertLine, LineFault>
    requires { AreBefore (length (trees_in table.now)) terms.now }
    ensures there { let trees = trees_in table.now in IfOk result (λ l.
        named_line (terms_in trees terms.now) count (numbered_line line.now)
        ≡ Some (line_in trees l)) }
    ensures within { IfOk result (IsLineWithin (length (trees_in table.now))) }
    ensures missing { let trees = trees_in table.now in IfErr result (λ e.
        Misses e (named_line (terms_in trees terms.now) count (numbered_line line.now))) }
{
    if has_terms(terms.len() as u64, line) && has_facts(count, line) {
        Ok(line_under(alloc, line, terms)?)
    } else {
        Err(LineFault::Wrong {
            word: Word::BadNumber,
        })
    }
}

// Whether the terms that a line names are there, where lines made so many.
fn has_terms(made: u64, line: &CertLine) -> bool
    ensures { result ≡ are_there made (terms_named (numbered_line line.now)) }
{
    match line {
        CertLine::Refl(t) | CertLine::Hit(t, _) | CertLine::Elim(_, _, t) => {
            are_there(made, &[t.0])
        }
        CertLine::Cases(t, u)
        | CertLine::Cong(t, u, _)
        | CertLine::Same(t, u)
        | CertLine::Apart(t, u)
        | CertLine::Miss(t, u, _) => are_there(made, &[t.0, u.0]),
        _ => true,
    }
}

// Whether the facts that a line names are there, at a branch of `count` facts.
fn has_facts(count: u64, line: &CertLine) -> bool
    ensures { result ≡ are_there count (facts_named (numbered_line line.now)) }
{
    match line {
        CertLine::Both(n)
        | CertLine::Either(n)
        | CertLine::Order(n)
        | CertLine::Sym(n)
        | CertLine::Hit(_, n)
        | CertLine::Miss(_, _, n)
        | CertLine::Lin(n)
        | CertLine::Tight(n)
        | CertLine::Close(n) => are_there(count, &[*n]),
        CertLine::Trans(m, n)
        | CertLine::Subst(m, n)
        | CertLine::Elim(m, n, _)
        | CertLine::Clash(m, n) => are_there(count, &[*m, *n]),
        CertLine::Cong(_, _, facts) => are_there(count, &facts.list),
        _ => true,
    }
}

// Whether all of these are there, of so many.
fn are_there(count: u64, numbers: &[u64]) -> bool
    ensures { result ≡ are_there count numbers.now }
{
    for n in numbers {
        if *n >= count {
            return false;
        }
    }
    true
}
