// The lines of steps, over the terms at their places.
ghost use Rattle.std.specs.Prelude.{◌≡◌, ◌<◌, List, length, map, IfOk};
ghost use Rattle.sm_term.specs.Terms.{Tree};
ghost use Rattle.sm_term.specs.Tables.{tree_at};
ghost use Rattle.sm_theory.specs.Views.{line_in};
ghost use Rattle.sm_cc.specs.Views.{trees_of};
ghost use Rattle.sm_cc.specs.Explaining.{left_of, right_of, congruence_line, step_line, AreStepsIn};
ghost use Rattle.sm_cc.specs.Explained.{IsListed, IsLineOf, AreLinesOf};

use crate::log::{Known, Rule, Step};
use sm_term::TermId;
use sm_theory::{CertLine, FactNumbers};
use std::alloc::{AllocError, Global};

/// The lines of steps.
pub(crate) fn lines(
    alloc: Global,
    terms: &[TermId],
    steps: &[Step],
) -> Result<Vec<CertLine>, AllocError>
    requires { AreStepsIn (length terms.now) steps.now }
    ensures named { IfOk result (λ v. AreLinesOf terms.now v.items) }
    ensures lines { (trees : List Tree) → IfOk result (λ v.
        map (line_in trees) v.items ≡ map (step_line (trees_of trees terms.now)) steps.now) }
{
    let mut lines = Vec::new(alloc);
    for k in 0..steps.len() {
        let line = line(alloc, terms, &steps[k])?;
        lines.push(line)?;
    }
    Ok(lines)
}

// The line of a step.
fn line(alloc: Global, terms: &[TermId], step: &Step) -> Result<CertLine, AllocError>
    requires left { left_of step.now.known < length terms.now }
    requires right { right_of step.now.known < length terms.now }
    ensures named { IfOk result (IsLineOf terms.now) }
    ensures line { (trees : List Tree) → IfOk result (λ l.
        line_in trees l ≡ step_line (trees_of trees terms.now) step.now) }
{
    let t = term(terms, left(step.known));
    let u = term(terms, right(step.known));
    match &step.rule {
        Rule::Refl => Ok(CertLine::Refl(t)),
        Rule::Sym(n) => Ok(CertLine::Sym(*n)),
        Rule::Trans(m, n) => Ok(CertLine::Trans(*m, *n)),
        Rule::Subst(m, n) => Ok(CertLine::Subst(*m, *n)),
        Rule::Alike => Ok(CertLine::Same(t, u)),
        Rule::Apart => Ok(CertLine::Apart(t, u)),
        Rule::Cong(numbers) => congruence(alloc, t, u, numbers),
        Rule::Hit(n) => Ok(CertLine::Hit(t, *n)),
        Rule::Miss(n) => Ok(CertLine::Miss(t, u, *n)),
    }
}

// The line by which terms of one head are equal. Those without arguments are one term.
fn congruence(alloc: Global, t: TermId, u: TermId, numbers: &[u64]) -> Result<CertLine, AllocError>
    ensures named { (terms : List TermId) → IsListed terms t → IsListed terms u →
        IfOk result (IsLineOf terms) }
    ensures line { (trees : List Tree) → IfOk result (λ l. line_in trees l
        ≡ congruence_line (tree_at trees t.0) (tree_at trees u.0) numbers.now) }
{
    if numbers.is_empty() {
        return Ok(CertLine::Refl(t));
    }
    let list = Vec::from_slice(alloc, numbers)?;
    Ok(CertLine::Cong(t, u, FactNumbers { list }))
}

// The term at a place.
fn term(terms: &[TermId], i: u64) -> TermId
    requires { i < length terms.now }
    ensures listed { IsListed terms.now result }
    ensures tree { (trees : List Tree) →
        tree_at trees result.0 ≡ tree_at (trees_of trees terms.now) i }
{
    terms[i as usize]
}

// The first place of what is known.
fn left(known: Known) -> u64
    ensures { result ≡ left_of known }
{
    match known {
        Known::Equal(i, _) => i,
        Known::Unequal(i, _) => i,
    }
}

// The second place of what is known.
fn right(known: Known) -> u64
    ensures { result ≡ right_of known }
{
    match known {
        Known::Equal(_, j) => j,
        Known::Unequal(_, j) => j,
    }
}
