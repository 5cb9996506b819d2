// Numbers whose linear forms are equal, or differ in the constant alone.
ghost use Rattle.std.specs.Prelude.{◌≡◌, ◌↔◌, ◌<◌, true, List, length, IfOk, not};
ghost use Rattle.std.specs.Ordering.{int_eq};
ghost use Rattle.sm_syntax.specs.declared.tree.Sort.TheVariants.{Num};
ghost use Rattle.sm_num.specs.Forms.{Linear};
ghost use Rattle.sm_term.specs.Terms.{Tree};
ghost use Rattle.sm_term.specs.Assertions.{Eq, Ne};
ghost use Rattle.sm_term.specs.Tables.{trees_in, sorts_in, tree_at};
ghost use Rattle.sm_theory.specs.Equality.{formula_if};
ghost use Rattle.sm_theory.specs.Arithmetic.{is_numeric, compared_forms};
ghost use Rattle.sm_theory.specs.Standing.{IsKeptFor};
ghost use Rattle.sm_theory.specs.Views.{StandsIf};
ghost use Rattle.sm_lia.specs.Comparing.{form_comparison, term_comparison};

use sm_num::LinForm;
use sm_syntax::Sort;
use sm_term::{Formula, TermId, TermTable};
use sm_theory::{Fact, lin_of};
use std::alloc::{AllocError, Global};

// How the linear forms of two terms compare.
#[derive(Clone, Copy)]
pub(crate) enum Comparison {
    Equal,
    // The constants alone differ.
    Unequal,
    // The parts differ, or a term is no number.
    Other,
}

// The fact of `same`: both are numbers with equal forms.
pub(crate) fn same(
    alloc: Global,
    table: &TermTable,
    t: TermId,
    u: TermId,
) -> Result<Option<Fact>, AllocError>
    requires left { t.0 < length (trees_in table.now) }
    requires right { u.0 < length (trees_in table.now) }
    ensures { let trees = trees_in table.now in let sorts = sorts_in table.now in
        let first = tree_at trees t.0 in let second = tree_at trees u.0 in
        IfOk result (λ o. StandsIf sorts trees o
        (formula_if (compared_forms sorts first second int_eq) (Eq Num first second))) }
{
    match compare(alloc, table, t, u)? {
        Comparison::Equal => Ok(Some(Fact::Form(Formula::Eq(t, u)))),
        _ => Ok(None),
    }
}

// The fact of `apart`: both are numbers with equal parts and unequal constants.
pub(crate) fn apart(
    alloc: Global,
    table: &TermTable,
    t: TermId,
    u: TermId,
) -> Result<Option<Fact>, AllocError>
    requires left { t.0 < length (trees_in table.now) }
    requires right { u.0 < length (trees_in table.now) }
    ensures { let trees = trees_in table.now in let sorts = sorts_in table.now in
        let first = tree_at trees t.0 in let second = tree_at trees u.0 in
        IfOk result (λ o. StandsIf sorts trees o
        (formula_if
        (compared_forms sorts first second (λ y z. not (int_eq y z))) (Ne Num first second))) }
{
    match compare(alloc, table, t, u)? {
        Comparison::Unequal => Ok(Some(Fact::Form(Formula::Ne(t, u)))),
        _ => Ok(None),
    }
}

// How the forms of two terms compare.
fn compare(alloc: Global, table: &TermTable, t: TermId, u: TermId) -> Result<Comparison, AllocError>
    requires left { t.0 < length (trees_in table.now) }
    requires right { u.0 < length (trees_in table.now) }
    ensures { let trees = trees_in table.now in
        IfOk result (λ how.
        how ≡ term_comparison (sorts_in table.now) (tree_at trees t.0) (tree_at trees u.0)) }
{
    if !is_numeric(table, t) || !is_numeric(table, u) {
        return Ok(Comparison::Other);
    }
    let f = lin_of(alloc, table, t)?;
    let g = lin_of(alloc, table, u)?;
    Ok(compare_forms(&f, &g))
}

// Whether a term is a number.
pub(crate) fn is_numeric(table: &TermTable, t: TermId) -> bool
    requires { t.0 < length (trees_in table.now) }
    ensures { result ≡ is_numeric (sorts_in table.now) (tree_at (trees_in table.now) t.0) }
{
    table.sort(t) == Sort::Num
}

// How two forms compare.
fn compare_forms(f: &LinForm, g: &LinForm) -> Comparison
    ensures { (trees : List Tree) (h i : Linear Tree) → IsKeptFor trees f.now h →
        IsKeptFor trees g.now i → result ≡ form_comparison h i }
{
    if !have_same_parts(f, g) {
        Comparison::Other
    } else if f.constant() == g.constant() {
        Comparison::Equal
    } else {
        Comparison::Unequal
    }
}

// Whether two forms have the same parts.
fn have_same_parts(f: &LinForm, g: &LinForm) -> bool
    ensures { (result ≡ true) ↔ (f.now.parts ≡ g.now.parts) }
{
    *f.parts() == *g.parts()
}
