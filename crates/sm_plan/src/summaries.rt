// First statements of a copy, as summaries of the names that they assign.
ghost use Rattle.std.specs.Prelude.{◌≡◌, ◌<◌, ◌&&◌, List, map, length, nat_le, slice_get, option_map, Some, IfSome, IfOk, OnOk, ◌∷◌, []};
ghost use Rattle.sm_syntax.specs.claim.ConflictFree.{Copy};
ghost use Rattle.sm_syntax.specs.text.Sorts.{IsWellSorted, IsWellSortedCondition};
ghost use Rattle.sm_syntax.specs.trees.Copies.{copy_named, of_copy};
ghost use Rattle.sm_syntax.specs.trees.Views.{condition_of, code_of};
ghost use Rattle.sm_deps.specs.Inputs as plain;
ghost use Rattle.sm_term.specs.Assertions as formula;
ghost use Rattle.sm_term.specs.Sorted.{IsDeclaredIn};
ghost use Rattle.sm_term.specs.Symbolic as symbolic;
ghost use Rattle.sm_term.specs.SymStores.{store_in, IsStoreWithin};
ghost use Rattle.sm_term.specs.Tables.{trees_in, sorts_in, codes_in};
ghost use Rattle.sm_term.specs.TableLaws.{AddsTerms, ExtendsTable};
ghost use Rattle.sm_term.specs.Terms as tree;
ghost use Rattle.sm_plan.specs.Copies.{with_copy};
ghost use Rattle.sm_plan.specs.Nodes as plan;
ghost use Rattle.sm_plan.specs.Openings.{IsOpening, terms_named, AreNamesBelow};
ghost use Rattle.sm_plan.specs.ReadyStates.{IsStateReady, IsStoreReady, IsStoreFull, AreFormsReady};
ghost use Rattle.sm_plan.specs.Statements as code;
ghost use Rattle.sm_plan.specs.Successors as next;
ghost use Rattle.sm_plan.specs.Views.{rest_code, forms_in, state_in};

use crate::copies::copy_store;
use crate::opening::Opened;
use crate::parts::exchange;
use crate::rest::Continuation;
use crate::state::{Formulas, SymState};
use crate::steps::{made, put};
use crate::successors::{follows_one, no_formulas, no_terms, one_formula};
use sm_deps::{inputs, writes};
use sm_syntax::{Block, Cond, CopyName, Name, PerCopy, Stmt};
use sm_term::{BodyId, SymStore, Term, TermId, TermTable, Terms, form_of, negate};
use std::alloc::{AllocError, Global};

// The terms that a store has for names.
fn present(alloc: Global, names: &[Name], store: &SymStore) -> Result<Terms, AllocError>
    requires { AreNamesBelow (length store.now.list.items) names.now }
    ensures { IfOk result (λ ts. ts.list.items ≡ terms_named store.now.list.items names.now) }
{
    let mut list = Vec::new(alloc);
    for x in names {
        list.push(store.list[x.0 as usize])?;
    }
    Ok(Terms { list })
}

// The summary of a name after a body.
fn summary(
    alloc: Global,
    table: &mut TermTable,
    body: BodyId,
    block: &Block,
    x: Name,
    store: &SymStore,
) -> Result<TermId, AllocError>
    requires body { slice_get (codes_in table.old) body.0 ≡ Some (code_of block.now) }
    requires well { IsWellSorted (sorts_in table.old) (code_of block.now) }
    requires declared { IsDeclaredIn (sorts_in table.old) x.0 }
    requires ready { IsStoreReady (sorts_in table.old) (trees_in table.old) store.now }
    requires full { IsStoreFull (sorts_in table.old) store.now }
    ensures made { let f = store_in (trees_in table.old) store.now in let c = code_of block.now in
        let t = tree.Fun c x.0 (next.present f (plain.inputs c x.0)) in
        IfOk result (λ id. slice_get (trees_in table.new) id.0 ≡ Some t) }
    ensures grows { AddsTerms table.old table.new }
{
    let from = inputs(alloc, block, x)?;
    let args = present(alloc, &from.list, store)?;
    made(
        table,
        Term::Fun {
            body,
            name: x,
            from,
            args,
        },
    )
}

// The guard of the last statement, where that is a loop.
fn last_guard(block: &Block) -> Option<&Cond>
    ensures { option_map (λ b. condition_of b.now) result ≡ code.last_guard (code_of block.now) }
{
    let len = block.list.len();
    if len == 0 {
        return None;
    }
    match &block.list[len - 1] {
        Stmt::While(guard, _) => Some(guard),
        Stmt::Skip => None,
        Stmt::Assign(_, _) => None,
        Stmt::Store(_, _, _) => None,
        Stmt::If(_, _, _) => None,
        Stmt::Hole(_) => None,
    }
}

// Gives each name that a block assigns its summary, from the store before.
fn summarize(
    alloc: Global,
    table: &mut TermTable,
    block: &Block,
    store: &SymStore,
) -> Result<SymStore, AllocError>
    requires well { IsWellSorted (sorts_in table.old) (code_of block.now) }
    requires ready { IsStoreReady (sorts_in table.old) (trees_in table.old) store.now }
    requires full { IsStoreFull (sorts_in table.old) store.now }
    ensures store { let f = store_in (trees_in table.old) store.now in
        IfOk result (λ s. store_in (trees_in table.new) s ≡ next.summarized (code_of block.now) f) }
    ensures within { IfOk result (IsStoreWithin (length (trees_in table.new))) }
    ensures len { IfOk result (λ s. length s.list.items ≡ length store.now.list.items) }
    ensures widens { ExtendsTable table.old table.new }
{
    let mut made = copy_store(alloc, store)?;
    let body = table.body(block)?;
    let names = writes(alloc, block)?;
    for x in &names.list {
        let t = summary(alloc, table, body, block, *x, store)?;
        put(&mut made, *x, t);
    }
    Ok(made)
}

// That a guard is false, where there is one.
fn false_guard(
    alloc: Global,
    table: &mut TermTable,
    guard: Option<&Cond>,
    store: &SymStore,
) -> Result<Formulas, AllocError>
    requires well { let sorts = sorts_in table.old in
        IfSome guard (λ b. IsWellSortedCondition sorts (condition_of b.now)) }
    requires ready { IsStoreReady (sorts_in table.old) (trees_in table.old) store.now }
    ensures made { let f = store_in (trees_in table.old) store.now in
        let b = option_map (λ b. condition_of b.now) guard.entry in
        IfOk result (λ fs. forms_in (sorts_in table.new) (trees_in table.new) fs.list.items
        ≡ next.false_guard b f) }
    ensures ready { IfOk result (λ fs.
        AreFormsReady (sorts_in table.new) (trees_in table.new) fs.list.items) }
    ensures grows { AddsTerms table.old table.new }
{
    match guard {
        Some(b) => false_fact(alloc, table, b, store),
        None => Ok(no_formulas(alloc)),
    }
}

// That a condition is false.
fn false_fact(
    alloc: Global,
    table: &mut TermTable,
    b: &Cond,
    store: &SymStore,
) -> Result<Formulas, AllocError>
    requires well { IsWellSortedCondition (sorts_in table.old) (condition_of b.now) }
    requires ready { IsStoreReady (sorts_in table.old) (trees_in table.old) store.now }
    ensures made { let f = store_in (trees_in table.old) store.now in
        let contrary = formula.negate (symbolic.form_of (condition_of b.now) f) in
        IfOk result (λ fs. forms_in (sorts_in table.new) (trees_in table.new) fs.list.items
        ≡ contrary ∷ []) }
    ensures ready { IfOk result (λ fs.
        AreFormsReady (sorts_in table.new) (trees_in table.new) fs.list.items) }
    ensures grows { AddsTerms table.old table.new }
{
    let fact = form_of(alloc, table, b, store)?;
    let contrary = negate(alloc, &fact)?;
    let facts = one_formula(alloc, contrary)?;
    Ok(facts)
}

// Whether a summary may stand for the first `count` statements.
fn can_pass(rest: &Continuation<'_>, count: u64) -> bool
    ensures { result ≡ (nat_le 1 count && code.is_long count (rest_code rest.now)) }
{
    1 <= count && rest.is_long(count)
}

// Takes the first `count` statements of a copy off.
fn pass(alloc: Global, rests: &mut PerCopy<Continuation<'_>>, copy: CopyName, count: u64)
    ensures { let c = copy_named copy in let rest = rest_code (of_copy rests.old c) in
        (d : Copy) → rest_code (of_copy rests.new d)
        ≡ with_copy (λ e. rest_code (of_copy rests.old e)) c (code.rest_after count rest) d }
{
    let mut rest = Continuation::empty(alloc);
    exchange(rests, copy, &mut rest);
    rest.drop_front(count);
    exchange(rests, copy, &mut rest);
}

// What a summary of first statements makes: the store with the summaries, and that the last guard is
// false.
#[derive(Drop)]
struct Summed {
    terms: SymStore,
    guard: Formulas,
}

// The summary of a copy's first statements, from its store before.
fn sum_up(
    alloc: Global,
    table: &mut TermTable,
    rest: &Continuation<'_>,
    store: &SymStore,
    count: u64,
) -> Result<Summed, AllocError>
    requires well { IsWellSorted (sorts_in table.old) (rest_code rest.now) }
    requires ready { IsStoreReady (sorts_in table.old) (trees_in table.old) store.now }
    requires full { IsStoreFull (sorts_in table.old) store.now }
    ensures terms { let f = store_in (trees_in table.old) store.now in
        let done = code.front count (rest_code rest.now) in
        IfOk result (λ s. store_in (trees_in table.new) s.terms ≡ next.summarized done f) }
    ensures within { IfOk result (λ s. IsStoreWithin (length (trees_in table.new)) s.terms) }
    ensures len { IfOk result (λ s. length s.terms.list.items ≡ length store.now.list.items) }
    ensures guard { let done = code.front count (rest_code rest.now) in IfOk result (λ s.
        forms_in (sorts_in table.new) (trees_in table.new) s.guard.list.items
        ≡ next.false_guard (code.last_guard done) (store_in (trees_in table.new) s.terms)) }
    ensures ready { IfOk result (λ s.
        AreFormsReady (sorts_in table.new) (trees_in table.new) s.guard.list.items) }
    ensures widens { ExtendsTable table.old table.new }
{
    let done = rest.front(alloc, count)?;
    let block = done.block(alloc)?;
    let terms = summarize(alloc, table, &block, store)?;
    let guard = false_guard(alloc, table, last_guard(&block), &terms)?;
    Ok(Summed { terms, guard })
}

// What the summary of a copy's first statements opens.
pub(crate) fn open_abs<'a>(
    alloc: Global,
    table: &mut TermTable,
    mut state: SymState<'a>,
    copy: CopyName,
    count: u64,
) -> Result<Option<Opened<'a>>, AllocError>
    requires { IsStateReady (sorts_in table.old) (trees_in table.old) state }
    ensures opened { let sorts = sorts_in table.old in let trees = trees_in table.old in
        IfOk result (IsOpening table.old table.new state.entry (λ facts.
        let st = state_in sorts trees facts state.entry in let c = copy_named copy in
        let rest = st.rest c in
        plan.where_true (nat_le 1 count && code.is_long count rest)
        (plan.follows
        (next.summary_state st c (code.front count rest) (code.rest_after count rest) ∷ [])))) }
    ensures widens { ExtendsTable table.old table.new }
{
    if !can_pass(state.rests.get(copy), count) {
        return Ok(None);
    }
    let rest = state.rests.get(copy);
    let mut made = sum_up(alloc, table, rest, state.stores.get(copy), count)?;
    pass(alloc, &mut state.rests, copy, count);
    exchange(&mut state.stores, copy, &mut made.terms);
    let opened = follows_one(alloc, state, made.guard)?;
    Ok(Some(opened))
}
