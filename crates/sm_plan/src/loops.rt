// What the loops of a set of copies open.
ghost use Rattle.std.specs.Prelude.{◌≡◌, ◌&&◌, ◌||◌, not, nat_le, List, if◌then◌else◌, IfOk, OnOk, IfSome, Some, None, option_map, length};
ghost use Rattle.sm_syntax.specs.claim.ConflictFree.{Copy};
ghost use Rattle.sm_syntax.specs.text.Sorts.{Sorts, IsWellSorted};
ghost use Rattle.sm_syntax.specs.trees.Copies.{copy_named, of_copy};
ghost use Rattle.sm_term.specs.Formulas.{numbered, assertion_in, IsFormulaWithin};
ghost use Rattle.sm_term.specs.Symbolic.{form_of};
ghost use Rattle.sm_term.specs.SymStores.{store_in};
ghost use Rattle.sm_term.specs.Tables.{trees_in, sorts_in};
ghost use Rattle.sm_term.specs.TableLaws.{AddsTerms, ExtendsTable};
ghost use Rattle.sm_term.specs.Terms.{Tree};
ghost use Rattle.sm_plan.specs.Copies as sets;
ghost use Rattle.sm_plan.specs.Heads as heads;
ghost use Rattle.sm_plan.specs.Limits as limits;
ghost use Rattle.sm_plan.specs.LoopHeads.{IsHeadReady, IsHeadOf};
ghost use Rattle.sm_plan.specs.LoopParts.{IsLoopOf, IsLoopReady};
ghost use Rattle.sm_plan.specs.Masks.{set_of};
ghost use Rattle.sm_plan.specs.Nodes as plan;
ghost use Rattle.sm_plan.specs.Openings.{IsOpening};
ghost use Rattle.sm_plan.specs.ReadyStates.{IsFormReady, AreFormsReady, IsStateReady, IsStoreReady, AreStoresReady};
ghost use Rattle.sm_plan.specs.Statements.{is_loop, loop_guard};
ghost use Rattle.sm_plan.specs.Views.{rest_code, stores_in, state_in};

use crate::heads::{bodies, guard, has};
use crate::kept::{is_kept, shared_parts};
use crate::opening::Opened;
use crate::renew::renewed_stores;
use crate::rest::Continuation;
use crate::slots::{at_stores, shared_at};
use crate::state::{Formulas, SymState};
use crate::turns::{Head, LoopParts, looped, turns};
use sm_syntax::{CopyName, PerCopy};
use sm_term::{Formula, SymStore, TermTable};
use std::alloc::{AllocError, Global};

// Whether a copy is outside of a set, or a loop comes next.
fn may_turn(rest: &Continuation<'_>, set: u8, copy: CopyName) -> bool
    ensures { result
        ≡ (not (sets.has (set_of set) (copy_named copy)) || is_loop (rest_code rest.now)) }
{
    !has(set, copy) || rest.first_loop().is_some()
}

// Whether a set has a copy.
fn is_inhabited(set: u8) -> bool
    ensures { result ≡ sets.is_inhabited (set_of set) }
{
    has(set, CopyName::O)
        || (has(set, CopyName::A) || (has(set, CopyName::B) || has(set, CopyName::M)))
}

// Whether the loops of a set can be run together, with a formula that may be kept.
fn may_loop(rests: &PerCopy<Continuation<'_>>, set: u8, keep: &Formula) -> bool
    ensures { (sorts : Sorts) (trees : List Tree) → result ≡ (nat_le set 15
        && (sets.is_inhabited (set_of set)
        && (sets.each (λ c. not (sets.has (set_of set) c)
        || is_loop (rest_code (of_copy rests.now c)))
        && limits.is_kept (assertion_in sorts trees (numbered keep.now))))) }
{
    let base = may_turn(&rests.base, set, CopyName::O);
    let variant_a = may_turn(&rests.variant_a, set, CopyName::A);
    let variant_b = may_turn(&rests.variant_b, set, CopyName::B);
    let candidate = may_turn(&rests.candidate, set, CopyName::M);
    let have_loops = base && (variant_a && (variant_b && candidate));
    set <= 15 && (is_inhabited(set) && (have_loops && is_kept(keep)))
}

// Puts the formula of the guard of a copy's loop in its place, where the copy is in a set.
fn put_guard(
    alloc: Global,
    table: &mut TermTable,
    rest: &Continuation<'_>,
    store: &SymStore,
    set: u8,
    copy: CopyName,
    place: &mut Option<Formula>,
) -> Result<(), AllocError>
    requires rest { IsWellSorted (sorts_in table.old) (rest_code rest.now) }
    requires ready { IsStoreReady (sorts_in table.old) (trees_in table.old) store.now }
    ensures made { let s = store_in (trees_in table.old) store.now in
        let f = form_of (loop_guard (rest_code rest.now)) s in OnOk result (
        option_map (λ g. assertion_in (sorts_in table.new) (trees_in table.new) (numbered g))
        place.new ≡ (if sets.has (set_of set) (copy_named copy) then Some f else None)) }
    ensures within { OnOk result
        (IfSome place.new (λ g. IsFormulaWithin (length (trees_in table.new)) (numbered g))) }
    ensures grows { AddsTerms table.old table.new }
{
    *place = guard(alloc, table, rest, store, set, copy)?;
    Ok(())
}

// Puts the formulas of the guards of a set's copies in their places.
fn put_guards(
    alloc: Global,
    table: &mut TermTable,
    rests: &PerCopy<Continuation<'_>>,
    stores: &PerCopy<SymStore>,
    set: u8,
    all: &mut PerCopy<Option<Formula>>,
) -> Result<(), AllocError>
    requires rests { (c : Copy) →
        IsWellSorted (sorts_in table.old) (rest_code (of_copy rests.now c)) }
    requires stores { AreStoresReady (sorts_in table.old) (trees_in table.old) stores.now }
    ensures made { let at = stores_in (trees_in table.old) stores.now in
        (c : Copy) → OnOk result (
        heads.guard_forms (sorts_in table.new) (trees_in table.new) all.new c
        ≡ heads.guards_at (set_of set) (λ d. rest_code (of_copy rests.now d)) at c) }
    ensures ready { OnOk result
        (heads.AreGuardsReady (sorts_in table.new) (trees_in table.new) all.new) }
    ensures grows { AddsTerms table.old table.new }
{
    put_guard(
        alloc,
        table,
        &rests.base,
        &stores.base,
        set,
        CopyName::O,
        &mut all.base,
    )?;
    put_guard(
        alloc,
        table,
        &rests.variant_a,
        &stores.variant_a,
        set,
        CopyName::A,
        &mut all.variant_a,
    )?;
    put_guard(
        alloc,
        table,
        &rests.variant_b,
        &stores.variant_b,
        set,
        CopyName::B,
        &mut all.variant_b,
    )?;
    put_guard(
        alloc,
        table,
        &rests.candidate,
        &stores.candidate,
        set,
        CopyName::M,
        &mut all.candidate,
    )?;
    Ok(())
}

// The formulas of the guards of a set's copies.
fn guards(
    alloc: Global,
    table: &mut TermTable,
    rests: &PerCopy<Continuation<'_>>,
    stores: &PerCopy<SymStore>,
    set: u8,
) -> Result<PerCopy<Option<Formula>>, AllocError>
    requires rests { (c : Copy) →
        IsWellSorted (sorts_in table.old) (rest_code (of_copy rests.now c)) }
    requires stores { AreStoresReady (sorts_in table.old) (trees_in table.old) stores.now }
    ensures made { let at = stores_in (trees_in table.old) stores.now in
        (c : Copy) → IfOk result (λ g.
        heads.guard_forms (sorts_in table.new) (trees_in table.new) g c
        ≡ heads.guards_at (set_of set) (λ d. rest_code (of_copy rests.now d)) at c) }
    ensures ready { IfOk result (heads.AreGuardsReady (sorts_in table.new) (trees_in table.new)) }
    ensures grows { AddsTerms table.old table.new }
{
    let mut all = PerCopy {
        base: None,
        variant_a: None,
        variant_b: None,
        candidate: None,
    };
    put_guards(alloc, table, rests, stores, set, &mut all)?;
    Ok(all)
}

// What the head of the loops of a set has.
fn head_of(
    alloc: Global,
    table: &mut TermTable,
    number: u64,
    state: &SymState<'_>,
    set: u8,
    parts: &Formulas,
) -> Result<Head, AllocError>
    requires state { IsStateReady (sorts_in table.old) (trees_in table.old) state.now }
    requires parts { AreFormsReady (sorts_in table.old) (trees_in table.old) parts.now.list.items }
    ensures made { IfOk result
        (IsHeadOf table.old table.new number state.now (set_of set) parts.now.list.items) }
    ensures ready { IfOk result (IsHeadReady (sorts_in table.new) (trees_in table.new)) }
    ensures widens { ExtendsTable table.old table.new }
{
    let done = bodies(alloc, &state.rests, set)?;
    let stores = renewed_stores(alloc, table, number, &done, &state.stores)?;
    let kept = shared_at(alloc, table, &stores, parts)?;
    let guards = guards(alloc, table, &state.rests, &stores, set)?;
    Ok(Head {
        stores,
        kept,
        guards,
    })
}

// What the loops of a set of copies make at a state, with a number and a formula.
fn loop_parts<'a>(
    alloc: Global,
    table: &mut TermTable,
    number: u64,
    state: &SymState<'a>,
    set: u8,
    keep: &Formula,
) -> Result<LoopParts<'a>, AllocError>
    requires state { IsStateReady (sorts_in table.old) (trees_in table.old) state.now }
    requires keep { IsFormReady (sorts_in table.old) (trees_in table.old) keep.now }
    ensures made { IfOk result (IsLoopOf table.old table.new number state.now set keep.now) }
    ensures ready { IfOk result (IsLoopReady (sorts_in table.new) (trees_in table.new)) }
    ensures widens { ExtendsTable table.old table.new }
{
    let target = shared_parts(alloc, keep)?;
    let goals = at_stores(alloc, table, &state.stores, &target.list)?;
    let head = head_of(alloc, table, number, state, set, &target)?;
    let turns = turns(alloc, &state.rests, &head, &target, set)?;
    Ok(LoopParts { goals, head, turns })
}

/// What the loops of a set of copies open at a state, with a number and a formula that each turn
/// keeps: the goals that the formula holds before them, and as states a turn for each set of copies
/// in the set and what comes after.
pub(crate) fn open_loop<'a>(
    alloc: Global,
    table: &mut TermTable,
    number: u64,
    state: SymState<'a>,
    set: u8,
    keep: &Formula,
) -> Result<Option<Opened<'a>>, AllocError>
    requires state { IsStateReady (sorts_in table.old) (trees_in table.old) state }
    requires keep { IsFormReady (sorts_in table.old) (trees_in table.old) keep.now }
    ensures opening { let sorts = sorts_in table.old in let trees = trees_in table.old in
        IfOk result (IsOpening table.old table.new state.entry (λ facts.
        plan.opened_by number (state_in sorts trees facts state.entry) (if nat_le set 15
        then plan.Loop (set_of set) (assertion_in sorts trees (numbered keep.now))
        else plan.Unfit 4))) }
    ensures widens { ExtendsTable table.old table.new }
{
    if !may_loop(&state.rests, set, keep) {
        return Ok(None);
    }
    let made = loop_parts(alloc, table, number, &state, set, keep)?;
    let opened = looped(alloc, state, made, set)?;
    Ok(Some(opened))
}
