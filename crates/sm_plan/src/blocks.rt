// What a block opens.
ghost use Rattle.std.specs.Prelude.{◌≡◌, ◌&&◌, List, [], ◌∷◌, ◌++◌, map, IfOk};
ghost use Rattle.sm_syntax.specs.text.Sorts.{Sorts};
ghost use Rattle.sm_term.specs.Assertions.{Assertion, conj};
ghost use Rattle.sm_term.specs.Terms.{Tree};
ghost use Rattle.sm_plan.specs.ReadyStates.{AreFormsReady, AreStoresReady, AreSuccessorsReady, IsStateReady, IsFormReady};
ghost use Rattle.sm_syntax.specs.claim.ConflictFree.{Copy};
ghost use Rattle.sm_syntax.specs.trees.Copies.{of_copy};
ghost use Rattle.sm_term.specs.Formulas.{numbered, assertion_in};
ghost use Rattle.sm_term.specs.Slots.{all_at_stores};
ghost use Rattle.sm_term.specs.Tables.{trees_in, sorts_in};
ghost use Rattle.sm_term.specs.TableLaws.{ExtendsTable};
ghost use Rattle.sm_plan.specs.BlockParts.{IsBlockOf, IsBlockReady, block_alone, after_block};
ghost use Rattle.sm_plan.specs.Copies.{each};
ghost use Rattle.sm_plan.specs.Limits as limits;
ghost use Rattle.sm_plan.specs.Nodes as plan;
ghost use Rattle.sm_plan.specs.Openings.{IsOpening};
ghost use Rattle.sm_plan.specs.Statements.{is_long, front, rest_after};
ghost use Rattle.sm_plan.specs.Views.{rest_code, forms_in, state_in, stores_in, successor_in};

use crate::kept::{is_kept, shared_parts};
use crate::opening::{Opened, Successor};
use crate::parts::{all_made, two_of};
use crate::renew::renewed_stores;
use crate::rest::Continuation;
use crate::slots::shared_at;
use crate::state::{Formulas, SymState};
use crate::successors::{followed, no_formulas, successor};
use sm_syntax::PerCopy;
use sm_term::{Formula, SymStore, TermTable};
use std::alloc::{AllocError, Global};
use std::mem::swap;
use std::rc::Rc;

// Whether each copy has so many statements left.
fn are_long(rests: &PerCopy<Continuation<'_>>, counts: &PerCopy<u64>) -> bool
    ensures { result
        ≡ each (λ c. is_long (of_copy counts.now c) (rest_code (of_copy rests.now c))) }
{
    let base = rests.base.is_long(counts.base);
    let variant_a = rests.variant_a.is_long(counts.variant_a);
    let variant_b = rests.variant_b.is_long(counts.variant_b);
    let candidate = rests.candidate.is_long(counts.candidate);
    base && (variant_a && (variant_b && candidate))
}

// The first statements of each copy.
fn fronts<'a>(
    alloc: Global,
    rests: &PerCopy<Continuation<'a>>,
    counts: &PerCopy<u64>,
) -> Result<PerCopy<Continuation<'a>>, AllocError>
    ensures { (c : Copy) → IfOk result (λ p. rest_code (of_copy p c)
        ≡ front (of_copy counts.now c) (rest_code (of_copy rests.now c))) }
{
    all_made(
        rests.base.front(alloc, counts.base),
        rests.variant_a.front(alloc, counts.variant_a),
        rests.variant_b.front(alloc, counts.variant_b),
        rests.candidate.front(alloc, counts.candidate),
    )
}

// Leaves what comes after them.
fn pass(rests: &mut PerCopy<Continuation<'_>>, counts: &PerCopy<u64>)
    ensures { (c : Copy) → rest_code (of_copy rests.new c)
        ≡ rest_after (of_copy counts.now c) (rest_code (of_copy rests.old c)) }
{
    rests.base.drop_front(counts.base);
    rests.variant_a.drop_front(counts.variant_a);
    rests.variant_b.drop_front(counts.variant_b);
    rests.candidate.drop_front(counts.candidate);
}

// Whether the first statements of each copy are a block, with a formula that may be kept.
fn may_pass(rests: &PerCopy<Continuation<'_>>, counts: &PerCopy<u64>, keep: &Formula) -> bool
    ensures { (sorts : Sorts) (trees : List Tree) → result
        ≡ (each (λ c. is_long (of_copy counts.now c) (rest_code (of_copy rests.now c)))
        && limits.is_kept (assertion_in sorts trees (numbered keep.now))) }
{
    are_long(rests, counts) && is_kept(keep)
}

// What a block at a state makes: what is done of each copy, the stores after that, the formula as
// the block's target, and what is kept of it after the block.
#[derive(Drop)]
pub(crate) struct BlockParts<'a> {
    pub done: PerCopy<Continuation<'a>>,
    pub stores: PerCopy<SymStore>,
    pub target: Rc<Formulas>,
    pub kept: Rc<Formulas>,
}

// The parts of a formula, and those parts with the present terms of names in place of their slots.
fn kept_forms(
    alloc: Global,
    table: &mut TermTable,
    stores: &PerCopy<SymStore>,
    keep: &Formula,
) -> Result<(Rc<Formulas>, Rc<Formulas>), AllocError>
    requires stores { AreStoresReady (sorts_in table.old) (trees_in table.old) stores.now }
    requires keep { IsFormReady (sorts_in table.old) (trees_in table.old) keep.now }
    ensures parts { (sorts : Sorts) (trees : List Tree) → IfOk result (λ p.
        forms_in sorts trees p.0.value.list.items
        ≡ conj (assertion_in sorts trees (numbered keep.now))) }
    ensures kept { let sorts = sorts_in table.old in let trees = trees_in table.old in
        let form = assertion_in sorts trees (numbered keep.now) in IfOk result (λ p.
        forms_in (sorts_in table.new) (trees_in table.new) p.1.value.list.items
        ≡ all_at_stores (stores_in trees stores.now) (conj form)) }
    ensures parts_ready { (sorts : Sorts) (trees : List Tree) → IsFormReady sorts trees keep.now →
        IfOk result (λ p. AreFormsReady sorts trees p.0.value.list.items) }
    ensures kept_ready { IfOk result (λ p.
        AreFormsReady (sorts_in table.new) (trees_in table.new) p.1.value.list.items) }
    ensures widens { ExtendsTable table.old table.new }
{
    let parts = shared_parts(alloc, keep)?;
    let kept = shared_at(alloc, table, stores, &parts)?;
    Ok((parts, kept))
}

// What a block with a number makes at a state.
fn block_parts<'a>(
    alloc: Global,
    table: &mut TermTable,
    number: u64,
    state: &SymState<'a>,
    counts: &PerCopy<u64>,
    keep: &Formula,
) -> Result<BlockParts<'a>, AllocError>
    requires state { IsStateReady (sorts_in table.old) (trees_in table.old) state.now }
    requires keep { IsFormReady (sorts_in table.old) (trees_in table.old) keep.now }
    ensures made { IfOk result
        (IsBlockOf table.old table.new number state.now (of_copy counts.now) keep.now) }
    ensures ready { IfOk result (IsBlockReady (sorts_in table.new) (trees_in table.new)) }
    ensures widens { ExtendsTable table.old table.new }
{
    let done = fronts(alloc, &state.rests, counts)?;
    let stores = renewed_stores(alloc, table, number, &done, &state.stores)?;
    let (target, kept) = kept_forms(alloc, table, &stores, keep)?;
    Ok(BlockParts {
        done,
        stores,
        target,
        kept,
    })
}

/// What a block with a number opens at a state: the block alone, which ends with a formula, and
/// what comes after it, where the formula holds and the names that it assigns have new values.
pub(crate) fn open_block<'a>(
    alloc: Global,
    table: &mut TermTable,
    number: u64,
    mut state: SymState<'a>,
    counts: &PerCopy<u64>,
    keep: &Formula,
) -> Result<Option<Opened<'a>>, AllocError>
    requires state { IsStateReady (sorts_in table.old) (trees_in table.old) state }
    requires keep { IsFormReady (sorts_in table.old) (trees_in table.old) keep.now }
    ensures opening { let sorts = sorts_in table.old in let trees = trees_in table.old in
        IfOk result (IsOpening table.old table.new state.entry (λ facts.
        plan.opened_by number (state_in sorts trees facts state.entry)
        (plan.Block (of_copy counts.now) (assertion_in sorts trees (numbered keep.now))))) }
    ensures widens { ExtendsTable table.old table.new }
{
    if !may_pass(&state.rests, counts, keep) {
        return Ok(None);
    }
    let made = block_parts(alloc, table, number, &state, counts, keep)?;
    pass(&mut state.rests, counts);
    Ok(Some(block_states(alloc, state, made)?))
}

// The two states that follow, from the state past the block.
fn block_states<'a>(
    alloc: Global,
    mut state: SymState<'a>,
    made: BlockParts<'a>,
) -> Result<Opened<'a>, AllocError>
    ensures states { (sorts : Sorts) (trees : List Tree) (facts : List Assertion) →
        let some = forms_in sorts trees made.entry.kept.value.list.items in
        IfOk result (λ o. map (successor_in sorts trees facts) o.states.items
        ≡ state_in sorts trees (facts ++ []) (block_alone state.entry made.entry)
        ∷ state_in sorts trees (facts ++ (some ++ [])) (after_block state.entry made.entry) ∷ []) }
    ensures ready { (sorts : Sorts) (trees : List Tree) →
        IsStateReady sorts trees (block_alone state.entry made.entry) →
        IsStateReady sorts trees (after_block state.entry made.entry) →
        AreFormsReady sorts trees made.entry.kept.value.list.items →
        IfOk result (λ o. AreSuccessorsReady sorts trees o.states.items) }
    ensures goals { IfOk result (λ o. o.goals.list.items ≡ []) }
    ensures asking { IfOk result (λ o.
        (sorts : Sorts) (trees : List Tree) → AreStoresReady sorts trees o.stores) }
{
    let mut alone = SymState {
        rests: made.done,
        stores: made.stores,
        target: made.target,
        is_final: false,
    };
    swap(&mut alone.stores, &mut state.stores);
    let first = successor(alloc, alone, no_formulas(alloc))?;
    let second = Successor {
        kept: made.kept,
        more: no_formulas(alloc),
        state,
    };
    let states = two_of(alloc, first, second)?;
    Ok(followed(alloc, states))
}
