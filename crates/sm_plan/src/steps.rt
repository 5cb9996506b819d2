// Simple statements.
ghost use Rattle.std.specs.Prelude.{◌≡◌, ◌<◌, ℕ, length, slice_set, slice_get, Some, IsTrue, IfOk, OnOk};
ghost use Rattle.sm_syntax.specs.declared.tree.Sort.TheVariants.{Num, Arr};
ghost use Rattle.sm_syntax.specs.text.Sorts.{IsAsDeclared, IsWellSorted, IsWellSortedExpression};
ghost use Rattle.sm_syntax.specs.trees.Views.{expression_of};
ghost use Rattle.sm_term.specs.Terms as plain;
ghost use Rattle.sm_term.specs.Fitting.{term_fits};
ghost use Rattle.sm_term.specs.Sorted.{IsDeclaredIn, IsStoreSorted};
ghost use Rattle.sm_term.specs.Symbolic as symbolic;
ghost use Rattle.sm_term.specs.SymStores.{store_in, IsStoreWithin};
ghost use Rattle.sm_term.specs.Tables.{trees_in, sorts_in, codes_in, tree_in, IsTermWithin};
ghost use Rattle.sm_term.specs.TableLaws.{AddsTerms};
ghost use Rattle.sm_plan.specs.Openings.{done_if};
ghost use Rattle.sm_plan.specs.ReadyStates.{IsStoreReady, IsStoreFull};
ghost use Rattle.sm_plan.specs.Successors.{stepped};
ghost use Rattle.sm_plan.specs.Views.{rest_code};

use crate::rest::Continuation;
use sm_syntax::{Expr, Name, Stmt};
use sm_term::{SymStore, Term, TermError, TermId, TermTable, term_of};
use std::alloc::AllocError;

// Does the next statement of a copy, where that is skip or an assignment.
pub(crate) fn step(
    table: &mut TermTable,
    rest: &mut Continuation<'_>,
    store: &mut SymStore,
) -> Result<bool, AllocError>
    requires rest { IsWellSorted (sorts_in table.old) (rest_code rest.old) }
    requires ready { IsStoreReady (sorts_in table.old) (trees_in table.old) store.old }
    requires full { IsStoreFull (sorts_in table.old) store.old }
    ensures stepped { let s = store_in (trees_in table.new) store.new in
        IfOk result (λ b. done_if b (rest_code rest.new) s
        ≡ stepped (rest_code rest.old) (store_in (trees_in table.old) store.old)) }
    ensures within { OnOk result (IsStoreWithin (length (trees_in table.new)) store.new) }
    ensures len { length store.new.list.items ≡ length store.old.list.items }
    ensures grows { AddsTerms table.old table.new }
{
    let Some(statement) = rest.first() else {
        return Ok(false);
    };
    match statement {
        Stmt::Skip => {}
        Stmt::Assign(x, e) => assign(table, store, *x, e)?,
        Stmt::Store(a, i, e) => write(table, store, *a, i, e)?,
        Stmt::If(_, _, _) => return Ok(false),
        Stmt::While(_, _) => return Ok(false),
        Stmt::Hole(_) => return Ok(false),
    }
    rest.drop_front(1);
    Ok(true)
}

// Gives a name the term of an expression.
fn assign(table: &mut TermTable, store: &mut SymStore, x: Name, e: &Expr) -> Result<(), AllocError>
    requires name { IsAsDeclared (sorts_in table.old) x.0 Num }
    requires expression { IsWellSortedExpression (sorts_in table.old) (expression_of e.now) }
    requires ready { IsStoreReady (sorts_in table.old) (trees_in table.old) store.old }
    requires full { IsStoreFull (sorts_in table.old) store.old }
    ensures made { let old = store_in (trees_in table.old) store.old in
        let t = symbolic.term_of (expression_of e.now) old in
        OnOk result (store_in (trees_in table.new) store.new ≡ symbolic.with_term old x.0 t) }
    ensures within { OnOk result (IsStoreWithin (length (trees_in table.new)) store.new) }
    ensures len { length store.new.list.items ≡ length store.old.list.items }
    ensures grows { AddsTerms table.old table.new }
{
    let t = term_of(table, e, store)?;
    put(store, x, t);
    Ok(())
}

// Gives an array the term of a write to an element.
fn write(
    table: &mut TermTable,
    store: &mut SymStore,
    a: Name,
    i: &Expr,
    e: &Expr,
) -> Result<(), AllocError>
    requires name { IsAsDeclared (sorts_in table.old) a.0 Arr }
    requires index { IsWellSortedExpression (sorts_in table.old) (expression_of i.now) }
    requires value { IsWellSortedExpression (sorts_in table.old) (expression_of e.now) }
    requires ready { IsStoreReady (sorts_in table.old) (trees_in table.old) store.old }
    requires full { IsStoreFull (sorts_in table.old) store.old }
    ensures made { let old = store_in (trees_in table.old) store.old in
        let index = symbolic.term_of (expression_of i.now) old in
        let value = symbolic.term_of (expression_of e.now) old in
        let t = plain.Write (old a.0) index value in
        OnOk result (store_in (trees_in table.new) store.new ≡ symbolic.with_term old a.0 t) }
    ensures within { OnOk result (IsStoreWithin (length (trees_in table.new)) store.new) }
    ensures len { length store.new.list.items ≡ length store.old.list.items }
    ensures grows { AddsTerms table.old table.new }
{
    let index = term_of(table, i, store)?;
    let value = term_of(table, e, store)?;
    let array = store.list[a.0 as usize];
    let t = made(table, Term::Write(array, index, value))?;
    put(store, a, t);
    Ok(())
}

// Gives a name a term.
pub(crate) fn put(store: &mut SymStore, x: Name, t: TermId)
    requires { x.0 < length store.old.list.items }
    ensures { store.new.list.items ≡ slice_set store.old.list.items x.0 t }
{
    store.list[x.0 as usize] = t;
}

// The number of a term that fits.
pub(crate) fn made(table: &mut TermTable, t: Term) -> Result<TermId, AllocError>
    requires within { let n = length (trees_in table.old) in
        IsTermWithin (sorts_in table.old) (length (codes_in table.old)) n t }
    requires fits { IsTrue (term_fits (sorts_in table.old) (trees_in table.old) t) }
    ensures stored { let tree = tree_in (codes_in table.old) (trees_in table.old) t in
        IfOk result (λ id. slice_get (trees_in table.new) id.0 ≡ Some tree) }
    ensures grows { AddsTerms table.old table.new }
{
    match table.intern(t) {
        Ok(id) => Ok(id),
        Err(TermError::Memory) => Err(AllocError),
        Err(TermError::WrongSort) => unreachable!(),
    }
}
