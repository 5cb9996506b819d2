// Formulas over terms of a table.
ghost use Rattle.std.specs.Prelude.{◌≡◌, IfOk};
ghost use Rattle.sm_term.specs.Formulas.{numbered, contrary};
ghost use Rattle.sm_term.specs.Laws.{ContraryIsNegated};

use crate::term::TermId;
use std::alloc::{AllocError, Global};

/// A formula over terms, which are numbers in a table.
#[derive(Drop)]
pub enum Formula {
    Yes,
    No,
    Eq(TermId, TermId),
    Ne(TermId, TermId),
    Le(TermId, TermId),
    Lt(TermId, TermId),
    And(Box<Formula>, Box<Formula>),
    Or(Box<Formula>, Box<Formula>),
}

/// A copy of a formula.
#[cycle(copy_form)]
pub fn copy_formula(alloc: Global, f: &Formula) -> Result<Formula, AllocError>
    ensures { IfOk result (λ c. numbered c ≡ numbered f.now) }
{
    match f {
        Formula::Yes => Ok(Formula::Yes),
        Formula::No => Ok(Formula::No),
        Formula::Eq(t, u) => Ok(Formula::Eq(*t, *u)),
        Formula::Ne(t, u) => Ok(Formula::Ne(*t, *u)),
        Formula::Le(t, u) => Ok(Formula::Le(*t, *u)),
        Formula::Lt(t, u) => Ok(Formula::Lt(*t, *u)),
        Formula::And(p, q) => Ok(Formula::And(boxed_formula(alloc, p)?, boxed_formula(alloc, q)?)),
        Formula::Or(p, q) => Ok(Formula::Or(boxed_formula(alloc, p)?, boxed_formula(alloc, q)?)),
    }
}

#[cycle(copy_form)]
fn boxed_formula(alloc: Global, f: &Formula) -> Result<Box<Formula>, AllocError>
    ensures { IfOk result (λ c. numbered c.value ≡ numbered f.now) }
{
    Ok(Box::new(alloc, copy_formula(alloc, f)?)?)
}

/// The formula that says the contrary: equations and their contraries are exchanged, `<=` and `<`
/// with their sides, and conjunctions and disjunctions with their parts negated.
#[cycle(negate_form)]
pub fn negate(alloc: Global, f: &Formula) -> Result<Formula, AllocError>
    ensures { IfOk result (λ g. numbered g ≡ contrary (numbered f.now)) }
{
    match f {
        Formula::Yes => Ok(Formula::No),
        Formula::No => Ok(Formula::Yes),
        Formula::Eq(t, u) => Ok(Formula::Ne(*t, *u)),
        Formula::Ne(t, u) => Ok(Formula::Eq(*t, *u)),
        Formula::Le(t, u) => Ok(Formula::Lt(*u, *t)),
        Formula::Lt(t, u) => Ok(Formula::Le(*u, *t)),
        Formula::And(p, q) => Ok(Formula::Or(boxed_contrary(alloc, p)?, boxed_contrary(alloc, q)?)),
        Formula::Or(p, q) => Ok(Formula::And(boxed_contrary(alloc, p)?, boxed_contrary(alloc, q)?)),
    }
}

#[cycle(negate_form)]
fn boxed_contrary(alloc: Global, f: &Formula) -> Result<Box<Formula>, AllocError>
    ensures { IfOk result (λ g. numbered g.value ≡ contrary (numbered f.now)) }
{
    Ok(Box::new(alloc, negate(alloc, f)?)?)
}

/// The contrary of a formula over numbers is the negation of the formula over trees.
#[tactic(auto, using(crate::proofs::FormulasLemmas::contrary_negates))]
pub fn contrary_is_negated()
    ensures { ContraryIsNegated }
{}
