// Equations of a branch, and contraries of equations: turned round, chained, put into one another.
ghost use Rattle.std.specs.Prelude.{List};
ghost use Rattle.sm_syntax.specs.text.Sorts.{Sorts};
ghost use Rattle.sm_term.specs.Terms.{Tree};
ghost use Rattle.sm_term.specs.Tables.{trees_in, sorts_in};
ghost use Rattle.sm_theory.specs.Facts.{BranchFact};
ghost use Rattle.sm_theory.specs.Lines.{Sym, Trans, Subst};
ghost use Rattle.sm_theory.specs.Equality.{equality_adds};
ghost use Rattle.sm_theory.specs.SortedFacts.{AreFactsSorted};
ghost use Rattle.sm_theory.specs.Views.{AllStand, StandsIf};

use sm_term::{Formula, TermTable};
use sm_theory::{Branch, Fact, contrary_at, equation_at, same_term};

// Fact `n` the other way round.
pub(crate) fn turned(branch: &Branch, n: u64) -> Option<Fact>
    ensures { (sorts : Sorts) (trees : List Tree) (facts : List BranchFact) →
        AllStand sorts trees branch.now.list.items facts → AreFactsSorted sorts facts →
        StandsIf sorts trees result (equality_adds sorts facts (Sym n)) }
{
    match equation_at(branch, n) {
        Some((t, u)) => Some(Fact::Form(Formula::Eq(u, t))),
        None => match contrary_at(branch, n) {
            Some((t, u)) => Some(Fact::Form(Formula::Ne(u, t))),
            None => None,
        },
    }
}

// The equation of the outer terms, where fact `m` ends with the term with which fact `n` begins.
pub(crate) fn chained(table: &TermTable, branch: &Branch, m: u64, n: u64) -> Option<Fact>
    ensures { let trees = trees_in table.now in let sorts = sorts_in table.now in
        (facts : List BranchFact) → AllStand sorts trees branch.now.list.items facts →
        AreFactsSorted sorts facts →
        StandsIf sorts trees result (equality_adds sorts facts (Trans m n)) }
{
    let (t, u) = equation_at(branch, m)?;
    let (v, w) = equation_at(branch, n)?;
    if same_term(table, u, v) {
        Some(Fact::Form(Formula::Eq(t, w)))
    } else {
        None
    }
}

// The contrary of fact `m` with what its first term is equal to by fact `n` in that term's place.
pub(crate) fn substituted(table: &TermTable, branch: &Branch, m: u64, n: u64) -> Option<Fact>
    ensures { let trees = trees_in table.now in let sorts = sorts_in table.now in
        (facts : List BranchFact) → AllStand sorts trees branch.now.list.items facts →
        AreFactsSorted sorts facts →
        StandsIf sorts trees result (equality_adds sorts facts (Subst m n)) }
{
    let (t, u) = contrary_at(branch, m)?;
    let (v, w) = equation_at(branch, n)?;
    if same_term(table, t, v) {
        Some(Fact::Form(Formula::Ne(w, u)))
    } else {
        None
    }
}
