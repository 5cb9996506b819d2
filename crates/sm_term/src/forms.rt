// Formulas of conditions over symbolic stores.
ghost use Rattle.std.specs.Prelude.{◌≡◌, ◌<◌, ℕ, length, List, IfOk, OnErr};
ghost use Rattle.sm_syntax.specs.declared.tree.Sort.TheVariants.{Num};
ghost use Rattle.sm_syntax.specs.text.Sorts.{Sorts, IsWellSortedExpression, IsWellSortedCondition};
ghost use Rattle.sm_syntax.specs.trees.Views.{expression_of, condition_of};
ghost use Rattle.sm_term.specs.Terms.{Tree};
ghost use Rattle.sm_term.specs.Sorted.{tree_sort, IsStoreSorted};
ghost use Rattle.sm_term.specs.Symbolic as plain;
ghost use Rattle.sm_term.specs.SymStores.{store_in, IsStoreWithin};
ghost use Rattle.sm_term.specs.Formulas.{numbered, assertion_in, IsFormulaWithin};
ghost use Rattle.sm_term.specs.Tables.{trees_in, sorts_in, tree_at};
ghost use Rattle.sm_term.specs.TableLaws.{AddsTerms};

use crate::formula::{Formula, negate};
use crate::symbolic::{SymStore, made_terms};
use crate::table::TermTable;
use crate::term::TermId;
use sm_syntax::{Cmp, Cond, Expr};
use std::alloc::{AllocError, Global};

/// The formula of a condition. After an error the table is as it was.
pub fn form_of(
    alloc: Global,
    table: &mut TermTable,
    c: &Cond,
    s: &SymStore,
) -> Result<Formula, AllocError>
    requires condition { IsWellSortedCondition (sorts_in table.old) (condition_of c.now) }
    requires within { IsStoreWithin (length (trees_in table.old)) s.now }
    requires store { IsStoreSorted (sorts_in table.old) (store_in (trees_in table.old) s.now) }
    ensures made { let f = store_in (trees_in table.old) s.now in
        let a = plain.form_of (condition_of c.now) f in
        IfOk result (λ g. assertion_in (sorts_in table.new) (trees_in table.new) (numbered g) ≡ a) }
    ensures within { IfOk result (λ f. IsFormulaWithin (length (trees_in table.new)) (numbered f)) }
    ensures grows { AddsTerms table.old table.new }
    ensures err { OnErr result (trees_in table.new ≡ trees_in table.old) }
{
    let len = table.len();
    match made_form(alloc, table, c, s) {
        Ok(f) => Ok(f),
        Err(refused) => {
            table.cut(len);
            Err(refused)
        }
    }
}

// The formula of a condition. An error leaves the terms that were made.
#[cycle(forms)]
fn made_form(
    alloc: Global,
    table: &mut TermTable,
    c: &Cond,
    s: &SymStore,
) -> Result<Formula, AllocError>
    requires condition { IsWellSortedCondition (sorts_in table.old) (condition_of c.now) }
    requires within { IsStoreWithin (length (trees_in table.old)) s.now }
    requires store { IsStoreSorted (sorts_in table.old) (store_in (trees_in table.old) s.now) }
    ensures made { let f = store_in (trees_in table.old) s.now in
        let a = plain.form_of (condition_of c.now) f in
        IfOk result (λ g. assertion_in (sorts_in table.new) (trees_in table.new) (numbered g) ≡ a) }
    ensures within { IfOk result (λ f. IsFormulaWithin (length (trees_in table.new)) (numbered f)) }
    ensures grows { AddsTerms table.old table.new }
{
    match c {
        Cond::Yes => Ok(Formula::Yes),
        Cond::No => Ok(Formula::No),
        Cond::Cmp(op, d, e) => compared(table, *op, d, e, s),
        Cond::Not(b) => {
            let f = made_form(alloc, table, b, s)?;
            let g = negate(alloc, &f)?;
            Ok(g)
        }
        Cond::And(b, d) => {
            let (p, q) = made_forms(alloc, table, b, d, s)?;
            Ok(Formula::And(p, q))
        }
        Cond::Or(b, d) => {
            let (p, q) = made_forms(alloc, table, b, d, s)?;
            Ok(Formula::Or(p, q))
        }
    }
}

// The formulas of two conditions.
#[cycle(forms)]
fn made_forms(
    alloc: Global,
    table: &mut TermTable,
    b: &Cond,
    c: &Cond,
    s: &SymStore,
) -> Result<(Box<Formula>, Box<Formula>), AllocError>
    requires first { IsWellSortedCondition (sorts_in table.old) (condition_of b.now) }
    requires second { IsWellSortedCondition (sorts_in table.old) (condition_of c.now) }
    requires within { IsStoreWithin (length (trees_in table.old)) s.now }
    requires store { IsStoreSorted (sorts_in table.old) (store_in (trees_in table.old) s.now) }
    ensures first { let f = store_in (trees_in table.old) s.now in
        let a = plain.form_of (condition_of b.now) f in
        IfOk result (λ p. assertion_in (sorts_in table.new) (trees_in table.new) (numbered p.0.value) ≡ a) }
    ensures second { let f = store_in (trees_in table.old) s.now in
        let a = plain.form_of (condition_of c.now) f in
        IfOk result (λ p. assertion_in (sorts_in table.new) (trees_in table.new) (numbered p.1.value) ≡ a) }
    ensures within { let count = length (trees_in table.new) in
        IfOk result (λ p. IsFormulaWithin count (numbered p.0.value) × IsFormulaWithin count (numbered p.1.value)) }
    ensures grows { AddsTerms table.old table.new }
{
    let p = made_form(alloc, table, b, s)?;
    let q = made_form(alloc, table, c, s)?;
    let first = Box::new(alloc, p)?;
    let second = Box::new(alloc, q)?;
    Ok((first, second))
}

// The formula of a comparison of two expressions.
fn compared(
    table: &mut TermTable,
    op: Cmp,
    d: &Expr,
    e: &Expr,
    s: &SymStore,
) -> Result<Formula, AllocError>
    requires first { IsWellSortedExpression (sorts_in table.old) (expression_of d.now) }
    requires second { IsWellSortedExpression (sorts_in table.old) (expression_of e.now) }
    requires within { IsStoreWithin (length (trees_in table.old)) s.now }
    requires store { IsStoreSorted (sorts_in table.old) (store_in (trees_in table.old) s.now) }
    ensures made { let f = store_in (trees_in table.old) s.now in
        let left = plain.term_of (expression_of d.now) f in
        let right = plain.term_of (expression_of e.now) f in
        let a = plain.comparison_form op left right in
        IfOk result (λ g. assertion_in (sorts_in table.new) (trees_in table.new) (numbered g) ≡ a) }
    ensures within { IfOk result (λ f. IsFormulaWithin (length (trees_in table.new)) (numbered f)) }
    ensures grows { AddsTerms table.old table.new }
{
    let (t, u) = made_terms(table, d, e, s)?;
    Ok(comparison(op, t, u))
}

// The formula of a comparison of two terms, of which the left is a number.
fn comparison(op: Cmp, t: TermId, u: TermId) -> Formula
    ensures made { (trees : List Tree) (sorts : Sorts) →
        tree_sort sorts (tree_at trees t.0) ≡ Num →
        tree_sort sorts (tree_at trees u.0) ≡ Num →
        assertion_in sorts trees (numbered result)
        ≡ plain.comparison_form op (tree_at trees t.0) (tree_at trees u.0) }
    ensures within { (count : ℕ) → t.0 < count → u.0 < count → IsFormulaWithin count (numbered result) }
{
    match op {
        Cmp::Eq => Formula::Eq(t, u),
        Cmp::Ne => Formula::Ne(t, u),
        Cmp::Lt => Formula::Lt(t, u),
        Cmp::Le => Formula::Le(t, u),
        Cmp::Gt => Formula::Lt(u, t),
        Cmp::Ge => Formula::Le(u, t),
    }
}
