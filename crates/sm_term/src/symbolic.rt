// Terms of expressions over symbolic stores.
ghost use Rattle.std.specs.Prelude.{◌≡◌, ◌<◌, length, Some, slice_get, IfOk, OnErr};
ghost use Rattle.sm_syntax.specs.declared.tree.Sort.TheVariants.{Num, Arr};
ghost use Rattle.sm_syntax.specs.text.Sorts.{IsWellSortedExpression};
ghost use Rattle.sm_syntax.specs.trees.Views.{expression_of};
ghost use Rattle.sm_term.specs.Pairs.{pair_tree, pair_row};
ghost use Rattle.sm_term.specs.Sorted.{tree_sort, IsStoreSorted, IsDeclaredIn};
ghost use Rattle.sm_term.specs.Symbolic as plain;
ghost use Rattle.sm_term.specs.SymStores.{store_in, IsStoreWithin};
ghost use Rattle.sm_term.specs.Tables.{trees_in, sorts_in, tree_at};
ghost use Rattle.sm_term.specs.TableLaws.{AddsTerms};
ghost use Rattle.sm_term.specs.Terms.{Read};

use crate::table::TermTable;
use crate::term::{Term, TermId};
use sm_syntax::{Expr, Name};
use std::alloc::AllocError;

/// A term for each of the first names. A name that has none here has its start value.
#[derive(Drop)]
pub struct SymStore {
    pub list: Vec<TermId>,
}

/// An operation on two numbers.
#[derive(Clone, Copy)]
pub(crate) enum Operation {
    Sum,
    Difference,
    Product,
}

/// The term of an expression. After an error the table is as it was.
pub fn term_of(table: &mut TermTable, e: &Expr, s: &SymStore) -> Result<TermId, AllocError>
    requires expression { IsWellSortedExpression (sorts_in table.old) (expression_of e.now) }
    requires within { IsStoreWithin (length (trees_in table.old)) s.now }
    requires store { IsStoreSorted (sorts_in table.old) (store_in (trees_in table.old) s.now) }
    ensures made { let f = store_in (trees_in table.old) s.now in
        let t = plain.term_of (expression_of e.now) f in
        IfOk result (λ id. slice_get (trees_in table.new) id.0 ≡ Some t) }
    ensures grows { AddsTerms table.old table.new }
    ensures err { OnErr result (trees_in table.new ≡ trees_in table.old) }
{
    let len = table.len();
    match made_term(table, e, s) {
        Ok(t) => Ok(t),
        Err(refused) => {
            table.cut(len);
            Err(refused)
        }
    }
}

// The term of an expression. An error leaves the terms that were made.
#[cycle(terms)]
fn made_term(table: &mut TermTable, e: &Expr, s: &SymStore) -> Result<TermId, AllocError>
    requires expression { IsWellSortedExpression (sorts_in table.old) (expression_of e.now) }
    requires within { IsStoreWithin (length (trees_in table.old)) s.now }
    requires store { IsStoreSorted (sorts_in table.old) (store_in (trees_in table.old) s.now) }
    ensures made { let f = store_in (trees_in table.old) s.now in
        let t = plain.term_of (expression_of e.now) f in
        IfOk result (λ id. slice_get (trees_in table.new) id.0 ≡ Some t) }
    ensures grows { AddsTerms table.old table.new }
{
    match e {
        Expr::Num(n) => table.add(Term::Lit(*n)),
        Expr::Var(x) => named_term(table, *x, s),
        Expr::Read(a, i) => {
            let u = made_term(table, i, s)?;
            element_term(table, *a, u, s)
        }
        Expr::Neg(d) => {
            let t = made_term(table, d, s)?;
            table.add(Term::Neg(t))
        }
        Expr::Add(d, f) => made_pair(table, Operation::Sum, d, f, s),
        Expr::Sub(d, f) => made_pair(table, Operation::Difference, d, f, s),
        Expr::Mul(d, f) => made_pair(table, Operation::Product, d, f, s),
    }
}

// The term of an operation on two expressions.
#[cycle(terms)]
fn made_pair(
    table: &mut TermTable,
    op: Operation,
    d: &Expr,
    e: &Expr,
    s: &SymStore,
) -> Result<TermId, AllocError>
    requires first { IsWellSortedExpression (sorts_in table.old) (expression_of d.now) }
    requires second { IsWellSortedExpression (sorts_in table.old) (expression_of e.now) }
    requires within { IsStoreWithin (length (trees_in table.old)) s.now }
    requires store { IsStoreSorted (sorts_in table.old) (store_in (trees_in table.old) s.now) }
    ensures made { let f = store_in (trees_in table.old) s.now in
        let t = pair_tree op (plain.term_of (expression_of d.now) f)
        (plain.term_of (expression_of e.now) f) in
        IfOk result (λ id. slice_get (trees_in table.new) id.0 ≡ Some t) }
    ensures grows { AddsTerms table.old table.new }
{
    let (t, u) = made_terms(table, d, e, s)?;
    table.add(pair(op, t, u))
}

// The terms of two expressions.
#[cycle(terms)]
pub(crate) fn made_terms(
    table: &mut TermTable,
    d: &Expr,
    e: &Expr,
    s: &SymStore,
) -> Result<(TermId, TermId), AllocError>
    requires first { IsWellSortedExpression (sorts_in table.old) (expression_of d.now) }
    requires second { IsWellSortedExpression (sorts_in table.old) (expression_of e.now) }
    requires within { IsStoreWithin (length (trees_in table.old)) s.now }
    requires store { IsStoreSorted (sorts_in table.old) (store_in (trees_in table.old) s.now) }
    ensures first { let f = store_in (trees_in table.old) s.now in
        let t = plain.term_of (expression_of d.now) f in
        IfOk result (λ p. slice_get (trees_in table.new) p.0.0 ≡ Some t) }
    ensures second { let f = store_in (trees_in table.old) s.now in
        let t = plain.term_of (expression_of e.now) f in
        IfOk result (λ p. slice_get (trees_in table.new) p.1.0 ≡ Some t) }
    ensures grows { AddsTerms table.old table.new }
{
    let t = made_term(table, d, s)?;
    let u = made_term(table, e, s)?;
    Ok((t, u))
}

// The term of an element of the array that a store has for a name.
fn element_term(
    table: &mut TermTable,
    a: Name,
    u: TermId,
    s: &SymStore,
) -> Result<TermId, AllocError>
    requires array { sorts_in table.old a.0 ≡ Some Arr }
    requires index { u.0 < length (trees_in table.old) }
    requires number { tree_sort (sorts_in table.old) (tree_at (trees_in table.old) u.0) ≡ Num }
    requires within { IsStoreWithin (length (trees_in table.old)) s.now }
    requires store { IsStoreSorted (sorts_in table.old) (store_in (trees_in table.old) s.now) }
    ensures made { let trees = trees_in table.old in
        let t = Read (store_in trees s.now a.0) (tree_at trees u.0) in
        IfOk result (λ id. slice_get (trees_in table.new) id.0 ≡ Some t) }
    ensures grows { AddsTerms table.old table.new }
{
    let t = named_term(table, a, s)?;
    table.add(Term::Read(t, u))
}

// The term of an operation on two terms.
fn pair(op: Operation, t: TermId, u: TermId) -> Term
    ensures { result ≡ pair_row op t u }
{
    match op {
        Operation::Sum => Term::Add(t, u),
        Operation::Difference => Term::Sub(t, u),
        Operation::Product => Term::Mul(t, u),
    }
}

// The term that a store has for a name.
fn named_term(table: &mut TermTable, x: Name, s: &SymStore) -> Result<TermId, AllocError>
    requires declared { IsDeclaredIn (sorts_in table.old) x.0 }
    requires within { IsStoreWithin (length (trees_in table.old)) s.now }
    ensures made { let t = store_in (trees_in table.old) s.now x.0 in
        IfOk result (λ id. slice_get (trees_in table.new) id.0 ≡ Some t) }
    ensures grows { AddsTerms table.old table.new }
{
    let place = x.0 as usize;
    if place < s.list.len() {
        return Ok(s.list[place]);
    }
    table.add(Term::Start(x))
}
