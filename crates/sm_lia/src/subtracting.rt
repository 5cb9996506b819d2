// Comparisons of numbers as linear forms.
ghost use Rattle.std.specs.Prelude.{◌≡◌, ◌<◌, List, length, if◌then◌else◌, None, IfOk};
ghost use Rattle.sm_syntax.specs.declared.tree.Sort.TheVariants.{Num};
ghost use Rattle.sm_num.specs.declared.kind.Kind.TheVariants as kind;
ghost use Rattle.sm_num.specs.Forms.{IsKept};
ghost use Rattle.sm_num.specs.Combining.{then_with};
ghost use Rattle.sm_num.specs.Errors.{Returns};
ghost use Rattle.sm_term.specs.Sorted.{tree_sort};
ghost use Rattle.sm_term.specs.SameTerms.{same_sort};
ghost use Rattle.sm_term.specs.Tables.{trees_in, sorts_in, tree_at};
ghost use Rattle.sm_term.specs.Formulas.{numbered, assertion_in, IsFormulaWithin};
ghost use Rattle.sm_theory.specs.Facts.{BranchFact};
ghost use Rattle.sm_theory.specs.Lines.{Lin};
ghost use Rattle.sm_theory.specs.Arithmetic.{difference, one_more, form_fact, form_of_comparison, arithmetic_adds};
ghost use Rattle.sm_theory.specs.Views.{AllStand, StandsIf};
ghost use Rattle.sm_lia.specs.Computing.{ReturnsFor};

use crate::comparing::is_numeric;
use crate::computing::fact_of;
use sm_num::{Kind, LinForm, NumError, combine};
use sm_term::{Formula, TermId, TermTable};
use sm_theory::{Branch, Fact, formula_at, lin_of};
use std::alloc::{AllocError, Global};

// The fact of `lin`: fact `n`, where it compares numbers, as a form in the range.
pub(crate) fn lin(
    alloc: Global,
    table: &TermTable,
    branch: &Branch,
    n: u64,
) -> Result<Option<Fact>, AllocError>
    ensures { let trees = trees_in table.now in let sorts = sorts_in table.now in
        (facts : List BranchFact) → AllStand sorts trees branch.now.list.items facts →
        IfOk result (λ o. StandsIf sorts trees o (arithmetic_adds sorts facts (Lin n))) }
{
    match formula_at(branch, n) {
        Some(f) => form_of(alloc, table, f),
        None => Ok(None),
    }
}

// A comparison of numbers as a form.
fn form_of(alloc: Global, table: &TermTable, f: &Formula) -> Result<Option<Fact>, AllocError>
    ensures { let trees = trees_in table.now in let sorts = sorts_in table.now in
        IsFormulaWithin (length trees) (numbered f.now) →
        IfOk result (λ o. StandsIf sorts trees o
        (form_of_comparison (assertion_in sorts trees (numbered f.now)))) }
{
    match f {
        Formula::Eq(t, u) => equal_form(alloc, table, *t, *u),
        Formula::Le(t, u) => at_most_form(alloc, table, *t, *u),
        Formula::Lt(t, u) => below_form(alloc, table, *t, *u),
        _ => Ok(None),
    }
}

// An equation of numbers as a form. Terms of a fact are in the table, which nothing says here.
fn equal_form(
    alloc: Global,
    table: &TermTable,
    t: TermId,
    u: TermId,
) -> Result<Option<Fact>, AllocError>
    ensures { let trees = trees_in table.now in let sorts = sorts_in table.now in
        let first = tree_at trees t.0 in let second = tree_at trees u.0 in
        t.0 < length trees → u.0 < length trees →
        IfOk result (λ o. StandsIf sorts trees o
        (if same_sort (tree_sort sorts first) Num then form_fact (difference first second kind.Eq)
        else None)) }
{
    if t.0 >= table.len() || u.0 >= table.len() || !is_numeric(table, t) {
        return Ok(None);
    }
    fact_of(difference(alloc, table, t, u, Kind::Eq))
}

// That a number is at most another, as a form.
fn at_most_form(
    alloc: Global,
    table: &TermTable,
    t: TermId,
    u: TermId,
) -> Result<Option<Fact>, AllocError>
    ensures { let trees = trees_in table.now in let sorts = sorts_in table.now in
        t.0 < length trees → u.0 < length trees →
        IfOk result (λ o. StandsIf sorts trees o
        (form_fact (difference (tree_at trees t.0) (tree_at trees u.0) kind.Le))) }
{
    if t.0 >= table.len() || u.0 >= table.len() {
        return Ok(None);
    }
    fact_of(difference(alloc, table, t, u, Kind::Le))
}

// That a number is less than another, as a form.
fn below_form(
    alloc: Global,
    table: &TermTable,
    t: TermId,
    u: TermId,
) -> Result<Option<Fact>, AllocError>
    ensures { let trees = trees_in table.now in let sorts = sorts_in table.now in
        let first = tree_at trees t.0 in let second = tree_at trees u.0 in
        t.0 < length trees → u.0 < length trees →
        IfOk result (λ o. StandsIf sorts trees o
        (form_fact (then_with (difference first second kind.Le) one_more))) }
{
    if t.0 >= table.len() || u.0 >= table.len() {
        return Ok(None);
    }
    fact_of(strict_difference(alloc, table, t, u))
}

// The form of a number less another.
fn difference(
    alloc: Global,
    table: &TermTable,
    t: TermId,
    u: TermId,
    kind: Kind,
) -> Result<LinForm, NumError>
    requires left { t.0 < length (trees_in table.now) }
    requires right { u.0 < length (trees_in table.now) }
    ensures { let trees = trees_in table.now in
        ReturnsFor trees (difference (tree_at trees t.0) (tree_at trees u.0) kind) result }
{
    // No term is there twice.
    let _count = table.len();
    let f = lin_of(alloc, table, t)?;
    let g = lin_of(alloc, table, u)?;
    combine(alloc, &f, 1, &g, -1, kind)
}

// The form of a number less another, which is at most 0, and 1 more.
fn strict_difference(
    alloc: Global,
    table: &TermTable,
    t: TermId,
    u: TermId,
) -> Result<LinForm, NumError>
    requires left { t.0 < length (trees_in table.now) }
    requires right { u.0 < length (trees_in table.now) }
    ensures { let trees = trees_in table.now in
        ReturnsFor trees
        (then_with (difference (tree_at trees t.0) (tree_at trees u.0) kind.Le) one_more) result }
{
    let f = difference(alloc, table, t, u, Kind::Le)?;
    one_more(alloc, &f)
}

// A form and 1 more.
fn one_more(alloc: Global, f: &LinForm) -> Result<LinForm, NumError>
    ensures { IsKept f.now → Returns (one_more f.now) result }
{
    let one = LinForm::number(alloc, 1)?;
    combine(alloc, f, 1, &one, 1, f.kind())
}
