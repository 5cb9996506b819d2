// The terms of the formulas of a branch.
ghost use Rattle.std.specs.Prelude.{◌≡◌, ◌<◌, true, [], ◌∷◌, length, IfOk, OnOk};
ghost use Rattle.sm_term.specs.Tables.{trees_in, sorts_in};
ghost use Rattle.sm_term.specs.Formulas.{numbered, IsFormulaWithin};
ghost use Rattle.sm_theory.specs.TermsOfFormulas.{all_terms, with_formulas};
ghost use Rattle.sm_terms.specs.Listing.{trees_at, AreBelow, IsClosed};
ghost use Rattle.sm_exact.specs.Placing.{formulas_of, HavePlaces};

use sm_numbering::Numbering;
use sm_term::{Formula, TermTable};
use sm_terms::list_formula;
use sm_theory::{Branch, Fact};
use std::alloc::{AllocError, Global};

// The numbers of the terms of a branch's formulas, in order. The branch stands for facts: another
// one may name terms that the table doesn't have, and is given up.
pub(crate) fn terms_of(
    alloc: Global,
    table: &TermTable,
    branch: &Branch,
) -> Result<Numbering<u64>, AllocError>
    ensures terms { let trees = trees_in table.now in
        let formulas = formulas_of (sorts_in table.now) trees branch.now.list.items in
        IfOk result (λ terms. trees_at trees terms ≡ all_terms formulas) }
    ensures below { IfOk result (λ terms. AreBelow (length (trees_in table.now)) terms) }
    ensures once { IfOk result (λ terms. HavePlaces terms) }
{
    let mut terms = Numbering::new(alloc);
    for fact in &branch.list {
        list_fact(alloc, table, &mut terms, fact)?;
    }
    Ok(terms)
}

// Lists the terms of a fact that is a formula.
fn list_fact(
    alloc: Global,
    table: &TermTable,
    terms: &mut Numbering<u64>,
    fact: &Fact,
) -> Result<(), AllocError>
    requires listed { AreBelow (length (trees_in table.now)) terms.old }
    requires closed { IsClosed (trees_at (trees_in table.now) terms.old) }
    ensures terms { let trees = trees_in table.now in
        let formulas = formulas_of (sorts_in table.now) trees (fact.now ∷ []) in
        let all = with_formulas formulas (trees_at trees terms.old) in
        OnOk result (trees_at trees terms.new ≡ all) }
    ensures listed { OnOk result (AreBelow (length (trees_in table.now)) terms.new) }
    ensures closed { OnOk result (IsClosed (trees_at (trees_in table.now) terms.new)) }
{
    match fact {
        Fact::Form(f) => {
            if !is_within(table.len(), f) {
                return Err(AllocError);
            }
            list_formula(alloc, table, terms, f)
        }
        Fact::Lin(_) => Ok(()),
    }
}

// Whether the terms of a formula are among so many.
fn is_within(count: u64, f: &Formula) -> bool
    ensures { result ≡ true → IsFormulaWithin count (numbered f.now) }
{
    match f {
        Formula::Yes | Formula::No => true,
        Formula::Eq(t, u) => t.0 < count && u.0 < count,
        Formula::Ne(t, u) => t.0 < count && u.0 < count,
        Formula::Le(t, u) => t.0 < count && u.0 < count,
        Formula::Lt(t, u) => t.0 < count && u.0 < count,
        Formula::And(p, q) => is_within(count, p) && is_within(count, q),
        Formula::Or(p, q) => is_within(count, p) && is_within(count, q),
    }
}
