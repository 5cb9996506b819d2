// Lines under other numbers of terms.
ghost use Rattle.std.specs.Prelude.{◌≡◌, IfOk};
ghost use Rattle.sm_theory.specs.Lines.{Cong};
ghost use Rattle.sm_theory.specs.Named.{with_terms};
ghost use Rattle.sm_theory.specs.Views.{number_under, numbered_line};

use crate::line::{CertLine, FactNumbers};
use sm_term::TermId;
use std::alloc::{AllocError, Global};

/// The number that stands in a list at the place of a term's number, its own where there is none.
pub fn number_under(t: TermId, numbers: &[TermId]) -> TermId
    ensures { result.0 ≡ number_under numbers.now t.0 }
{
    match numbers.get(t.0 as usize) {
        Some(number) => *number,
        None => t,
    }
}

// A line `cong` of terms.
fn congruence(
    alloc: Global,
    t: TermId,
    u: TermId,
    facts: &FactNumbers,
) -> Result<CertLine, AllocError>
    ensures { IfOk result (λ l. numbered_line l ≡ Cong t.0 u.0 facts.now.list.items) }
{
    let list = Vec::from_slice(alloc, &facts.list)?;
    Ok(CertLine::Cong(t, u, FactNumbers { list }))
}

/// A line with the numbers that stand in a list for those of its terms. `AllocError` where memory is
/// wanting for the numbers of its facts.
pub fn line_under(
    alloc: Global,
    line: &CertLine,
    numbers: &[TermId],
) -> Result<CertLine, AllocError>
    ensures { IfOk result (λ l.
        numbered_line l ≡ with_terms (number_under numbers.now) (numbered_line line.now)) }
{
    match line {
        CertLine::Both(n) => Ok(CertLine::Both(*n)),
        CertLine::Either(n) => Ok(CertLine::Either(*n)),
        CertLine::Cases(t, u) => {
            let t = number_under(*t, numbers);
            Ok(CertLine::Cases(t, number_under(*u, numbers)))
        }
        CertLine::Order(n) => Ok(CertLine::Order(*n)),
        CertLine::Refl(t) => Ok(CertLine::Refl(number_under(*t, numbers))),
        CertLine::Sym(n) => Ok(CertLine::Sym(*n)),
        CertLine::Trans(m, n) => Ok(CertLine::Trans(*m, *n)),
        CertLine::Subst(m, n) => Ok(CertLine::Subst(*m, *n)),
        CertLine::Cong(t, u, facts) => {
            let t = number_under(*t, numbers);
            congruence(alloc, t, number_under(*u, numbers), facts)
        }
        CertLine::Same(t, u) => {
            let t = number_under(*t, numbers);
            Ok(CertLine::Same(t, number_under(*u, numbers)))
        }
        CertLine::Apart(t, u) => {
            let t = number_under(*t, numbers);
            Ok(CertLine::Apart(t, number_under(*u, numbers)))
        }
        CertLine::Hit(t, n) => Ok(CertLine::Hit(number_under(*t, numbers), *n)),
        CertLine::Miss(t, u, n) => {
            let t = number_under(*t, numbers);
            Ok(CertLine::Miss(t, number_under(*u, numbers), *n))
        }
        CertLine::Lin(n) => Ok(CertLine::Lin(*n)),
        CertLine::Elim(m, n, t) => Ok(CertLine::Elim(*m, *n, number_under(*t, numbers))),
        CertLine::Tight(n) => Ok(CertLine::Tight(*n)),
        CertLine::Exact(n) => Ok(CertLine::Exact(*n)),
        CertLine::Close(n) => Ok(CertLine::Close(*n)),
        CertLine::Clash(m, n) => Ok(CertLine::Clash(*m, *n)),
    }
}
