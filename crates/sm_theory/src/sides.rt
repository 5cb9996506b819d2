// Facts of a branch by their numbers, and the terms that they compare.
ghost use Rattle.std.specs.Prelude.{◌≡◌, ◌<◌, nat_eq, List, length, slice_get, Option, option_copied};
ghost use Rattle.sm_syntax.specs.text.Sorts.{Sorts};
ghost use Rattle.sm_term.specs.Terms.{Tree};
ghost use Rattle.sm_term.specs.Tables.{tree_at, trees_in, sorts_in};
ghost use Rattle.sm_term.specs.SameTerms.{same_tree};
ghost use Rattle.sm_term.specs.Formulas.{numbered, assertion_in, IsFormulaWithin};
ghost use Rattle.sm_theory.specs.Facts.{BranchFact};
ghost use Rattle.sm_theory.specs.Lines.{formula_at, form_at, equation_at, contrary_at, Sides, equal_sides, unequal_sides};
ghost use Rattle.sm_theory.specs.Equality.{says_equal};
ghost use Rattle.sm_theory.specs.Standing.{IsKeptFor};
ghost use Rattle.sm_theory.specs.Views.{FactStands, AllStand};
ghost use Rattle.sm_theory.specs.Sides.{OptionStands, FormulaStands, SidesStand};

use crate::fact::{Branch, Fact};
use sm_num::LinForm;
use sm_term::{Formula, TermId, TermTable};

/// Fact `n`, None past the end.
pub fn fact_at(branch: &Branch, n: u64) -> Option<&Fact>
    ensures { (sorts : Sorts) (trees : List Tree) (facts : List BranchFact) →
        AllStand sorts trees branch.now.list.items facts →
        OptionStands (FactStands sorts trees) (option_copied result) (slice_get facts n) }
{
    branch.list.get(n as usize)
}

/// Fact `n`, where it is a formula.
pub fn formula_at(branch: &Branch, n: u64) -> Option<&Formula>
    ensures { (sorts : Sorts) (trees : List Tree) (facts : List BranchFact) →
        AllStand sorts trees branch.now.list.items facts →
        OptionStands (FormulaStands sorts trees) (option_copied result) (formula_at facts n) }
{
    match fact_at(branch, n) {
        Some(Fact::Form(f)) => Some(f),
        Some(Fact::Lin(_)) => None,
        None => None,
    }
}

/// Fact `n`, where it is a linear form.
pub fn form_at(branch: &Branch, n: u64) -> Option<&LinForm>
    ensures { (sorts : Sorts) (trees : List Tree) (facts : List BranchFact) →
        AllStand sorts trees branch.now.list.items facts →
        OptionStands (IsKeptFor trees) (option_copied result) (form_at facts n) }
{
    match fact_at(branch, n) {
        Some(Fact::Lin(f)) => Some(f),
        Some(Fact::Form(_)) => None,
        None => None,
    }
}

/// The terms that fact `n` says are equal, where it is an equation.
pub fn equation_at(branch: &Branch, n: u64) -> Option<(TermId, TermId)>
    ensures { (sorts : Sorts) (trees : List Tree) (facts : List BranchFact) →
        AllStand sorts trees branch.now.list.items facts →
        OptionStands (SidesStand sorts trees) result (equation_at facts n) }
{
    match formula_at(branch, n) {
        Some(f) => equal_sides(f),
        None => None,
    }
}

/// The terms that fact `n` says are not equal, where it is the contrary of an equation.
pub fn contrary_at(branch: &Branch, n: u64) -> Option<(TermId, TermId)>
    ensures { (sorts : Sorts) (trees : List Tree) (facts : List BranchFact) →
        AllStand sorts trees branch.now.list.items facts →
        OptionStands (SidesStand sorts trees) result (contrary_at facts n) }
{
    match formula_at(branch, n) {
        Some(f) => unequal_sides(f),
        None => None,
    }
}

// The sides of an equation.
fn equal_sides(f: &Formula) -> Option<(TermId, TermId)>
    ensures { (sorts : Sorts) (trees : List Tree) →
        IsFormulaWithin (length trees) (numbered f.now) →
        OptionStands (SidesStand sorts trees) result
        (equal_sides (assertion_in sorts trees (numbered f.now))) }
{
    match f {
        Formula::Eq(t, u) => Some((*t, *u)),
        _ => None,
    }
}

// The sides of the contrary of an equation.
fn unequal_sides(f: &Formula) -> Option<(TermId, TermId)>
    ensures { (sorts : Sorts) (trees : List Tree) →
        IsFormulaWithin (length trees) (numbered f.now) →
        OptionStands (SidesStand sorts trees) result
        (unequal_sides (assertion_in sorts trees (numbered f.now))) }
{
    match f {
        Formula::Ne(t, u) => Some((*t, *u)),
        _ => None,
    }
}

/// Whether two numbers of terms are the same. In a table they are exactly where the terms are.
pub fn same_term(table: &TermTable, t: TermId, u: TermId) -> bool
    ensures number { result ≡ nat_eq t.0 u.0 }
    ensures term { let trees = trees_in table.now in
        t.0 < length trees → u.0 < length trees →
        result ≡ same_tree (tree_at trees t.0) (tree_at trees u.0) }
{
    // A table has no term twice, as its length ensures.
    table.len();
    t == u
}

/// Whether fact `n` says that two terms of the table are equal, in this order.
pub fn says_equal(table: &TermTable, branch: &Branch, n: u64, t: TermId, u: TermId) -> bool
    ensures { let trees = trees_in table.now in (facts : List BranchFact) →
        AllStand (sorts_in table.now) trees branch.now.list.items facts →
        t.0 < length trees → u.0 < length trees →
        result ≡ says_equal (equation_at facts n) (tree_at trees t.0) (tree_at trees u.0) }
{
    are_sides(table, equation_at(branch, n), t, u)
}

/// Whether fact `n` says that two terms of the table are not equal, in this order.
pub fn says_unequal(table: &TermTable, branch: &Branch, n: u64, t: TermId, u: TermId) -> bool
    ensures { let trees = trees_in table.now in (facts : List BranchFact) →
        AllStand (sorts_in table.now) trees branch.now.list.items facts →
        t.0 < length trees → u.0 < length trees →
        result ≡ says_equal (contrary_at facts n) (tree_at trees t.0) (tree_at trees u.0) }
{
    are_sides(table, contrary_at(branch, n), t, u)
}

// Whether two terms are the sides that a fact compares.
fn are_sides(table: &TermTable, sides: Option<(TermId, TermId)>, t: TermId, u: TermId) -> bool
    ensures { let trees = trees_in table.now in (plain : Option Sides) →
        OptionStands (SidesStand (sorts_in table.now) trees) sides plain →
        t.0 < length trees → u.0 < length trees →
        result ≡ says_equal plain (tree_at trees t.0) (tree_at trees u.0) }
{
    match sides {
        Some((left, right)) => same_term(table, left, t) && same_term(table, right, u),
        None => false,
    }
}
