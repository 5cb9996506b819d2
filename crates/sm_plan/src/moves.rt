// Nodes of one copy that follow its program: a simple statement, and a choice.
ghost use Rattle.std.specs.Prelude.{◌≡◌, List, [], ◌∷◌, None, MatchOption, IfOk, OnOk};
ghost use Rattle.sm_syntax.specs.claim.ConflictFree.{Copy};
ghost use Rattle.sm_syntax.specs.claim.Syntax.{If, append};
ghost use Rattle.sm_syntax.specs.text.Sorts.{IsWellSortedCondition};
ghost use Rattle.sm_syntax.specs.trees.Copies.{copy_named, of_copy};
ghost use Rattle.sm_syntax.specs.trees.Views.{condition_of, code_of};
ghost use Rattle.sm_term.specs.Assertions as formula;
ghost use Rattle.sm_term.specs.Assertions.{Assertion};
ghost use Rattle.sm_term.specs.Symbolic as symbolic;
ghost use Rattle.sm_term.specs.SymStores.{store_in};
ghost use Rattle.sm_term.specs.Tables.{trees_in, sorts_in};
ghost use Rattle.sm_term.specs.TableLaws.{AddsTerms, ExtendsTable};
ghost use Rattle.sm_plan.specs.Copies.{with_copy};
ghost use Rattle.sm_plan.specs.Nodes as plan;
ghost use Rattle.sm_plan.specs.Openings.{IsOpening, IsBranch};
ghost use Rattle.sm_plan.specs.ReadyStates.{IsStateReady, IsStoreReady, AreFormsReady};
ghost use Rattle.sm_plan.specs.Statements.{rest_after};
ghost use Rattle.sm_plan.specs.States.{State};
ghost use Rattle.sm_plan.specs.Successors.{stepped};
ghost use Rattle.sm_plan.specs.Views.{rest_code, forms_in, state_in};

use crate::copies::copy_state;
use crate::opening::Opened;
use crate::parts::exchange;
use crate::rest::Continuation;
use crate::state::{Formulas, SymState};
use crate::steps::step;
use crate::successors::{follows_one, follows_two, no_formulas, no_terms, one_formula};
use sm_syntax::{Block, Cond, CopyName, PerCopy, Stmt};
use sm_term::{SymStore, TermTable, form_of, negate};
use std::alloc::{AllocError, Global};

// What a copy's simple statement opens.
pub(crate) fn open_step<'a>(
    alloc: Global,
    table: &mut TermTable,
    mut state: SymState<'a>,
    copy: CopyName,
) -> Result<Option<Opened<'a>>, AllocError>
    requires { IsStateReady (sorts_in table.old) (trees_in table.old) state }
    ensures opened { let sorts = sorts_in table.old in let trees = trees_in table.old in
        IfOk result (IsOpening table.old table.new state.entry (λ facts.
        let st = state_in sorts trees facts state.entry in let c = copy_named copy in
        plan.after_step st c (stepped (st.rest c) (st.stores c)))) }
    ensures widens { ExtendsTable table.old table.new }
{
    let mut rest = Continuation::empty(alloc);
    let mut store = no_terms(alloc);
    exchange(&mut state.rests, copy, &mut rest);
    exchange(&mut state.stores, copy, &mut store);
    let is_done = step(table, &mut rest, &mut store)?;
    if !is_done {
        return Ok(None);
    }
    exchange(&mut state.rests, copy, &mut rest);
    exchange(&mut state.stores, copy, &mut store);
    let opened = follows_one(alloc, state, no_formulas(alloc))?;
    Ok(Some(opened))
}

// What both branches of a copy's choice open.
pub(crate) fn open_fork<'a>(
    alloc: Global,
    table: &mut TermTable,
    mut state: SymState<'a>,
    copy: CopyName,
) -> Result<Option<Opened<'a>>, AllocError>
    requires { IsStateReady (sorts_in table.old) (trees_in table.old) state }
    ensures opened { let sorts = sorts_in table.old in let trees = trees_in table.old in
        IfOk result (IsOpening table.old table.new state.entry (λ facts.
        let st = state_in sorts trees facts state.entry in let c = copy_named copy in
        plan.both_ways st c (st.rest c))) }
    ensures widens { ExtendsTable table.old table.new }
{
    let Some((guard, first, second)) = first_choice(state.rests.get(copy)) else {
        return Ok(None);
    };
    let facts = both_facts(alloc, table, guard, state.stores.get(copy))?;
    let other = enter_both(alloc, &mut state, copy, first, second)?;
    let opened = follows_two(alloc, state, facts.holds, other, facts.fails)?;
    Ok(Some(opened))
}

// The facts that a condition holds, and that it fails.
#[derive(Drop)]
struct BothFacts {
    holds: Formulas,
    fails: Formulas,
}

// The facts that a condition holds and that it fails, over a store.
fn both_facts(
    alloc: Global,
    table: &mut TermTable,
    guard: &Cond,
    store: &SymStore,
) -> Result<BothFacts, AllocError>
    requires well { IsWellSortedCondition (sorts_in table.old) (condition_of guard.now) }
    requires ready { IsStoreReady (sorts_in table.old) (trees_in table.old) store.now }
    ensures holds { let f = store_in (trees_in table.old) store.now in
        IfOk result (λ p. forms_in (sorts_in table.new) (trees_in table.new) p.holds.list.items
        ≡ symbolic.form_of (condition_of guard.now) f ∷ []) }
    ensures fails { let f = store_in (trees_in table.old) store.now in
        IfOk result (λ p. forms_in (sorts_in table.new) (trees_in table.new) p.fails.list.items
        ≡ formula.negate (symbolic.form_of (condition_of guard.now) f) ∷ []) }
    ensures ready_holds { IfOk result (λ p.
        AreFormsReady (sorts_in table.new) (trees_in table.new) p.holds.list.items) }
    ensures ready_fails { IfOk result (λ p.
        AreFormsReady (sorts_in table.new) (trees_in table.new) p.fails.list.items) }
    ensures grows { AddsTerms table.old table.new }
{
    let fact = form_of(alloc, table, guard, store)?;
    let contrary = negate(alloc, &fact)?;
    let holds = one_formula(alloc, fact)?;
    let fails = one_formula(alloc, contrary)?;
    Ok(BothFacts { holds, fails })
}

// Puts the first block in the place of a copy's next statement, and the second one in a copy of the
// state.
fn enter_both<'a>(
    alloc: Global,
    state: &mut SymState<'a>,
    copy: CopyName,
    first: &'a Block,
    second: &'a Block,
) -> Result<SymState<'a>, AllocError>
    ensures first { let c = copy_named copy in
        let left = rest_after 1 (rest_code (of_copy state.old.rests c)) in
        OnOk result (IsBranch state.old state.new c (append (code_of first.now) left)) }
    ensures second { let c = copy_named copy in
        let left = rest_after 1 (rest_code (of_copy state.old.rests c)) in
        IfOk result (λ s. IsBranch state.old s c (append (code_of second.now) left)) }
{
    let mut other = copy_state(alloc, state)?;
    enter(alloc, &mut other.rests, copy, second)?;
    enter(alloc, &mut state.rests, copy, first)?;
    Ok(other)
}

// The condition and the branches of the choice that comes next.
fn first_choice<'a>(rest: &Continuation<'a>) -> Option<(&'a Cond, &'a Block, &'a Block)>
    ensures { let code = rest_code rest.now in let left = rest_after 1 code in MatchOption result
        ((st : State) (c : Copy) → plan.both_ways st c code ≡ None)
        (λ p. code ≡ If (condition_of p.0.now) (code_of p.1.now) (code_of p.2.now) left) }
{
    match rest.first() {
        Some(Stmt::If(guard, first, second)) => Some((guard, first, second)),
        _ => None,
    }
}

// Puts a block in the place of a copy's next statement.
fn enter<'a>(
    alloc: Global,
    rests: &mut PerCopy<Continuation<'a>>,
    copy: CopyName,
    block: &'a Block,
) -> Result<(), AllocError>
    ensures { let c = copy_named copy in let rest = rest_code (of_copy rests.old c) in
        let code = append (code_of block.now) (rest_after 1 rest) in
        (d : Copy) → OnOk result (rest_code (of_copy rests.new d)
        ≡ with_copy (λ e. rest_code (of_copy rests.old e)) c code d) }
{
    let mut rest = Continuation::empty(alloc);
    exchange(rests, copy, &mut rest);
    rest.drop_front(1);
    rest.put_before(block)?;
    exchange(rests, copy, &mut rest);
    Ok(())
}
