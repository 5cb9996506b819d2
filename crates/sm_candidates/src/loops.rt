// The loops that come next at a place of a plan.
ghost use Rattle.std.specs.Prelude.{IfOk, IfSome};
ghost use Rattle.sm_syntax.specs.claim.ConflictFree.{Copy};
ghost use Rattle.sm_syntax.specs.text.Sorts.{Sorts, IsWellSorted};
ghost use Rattle.sm_syntax.specs.trees.Copies.{of_copy};
ghost use Rattle.sm_plan.specs.Views.{rest_code};
ghost use Rattle.sm_observed.specs.LoopStates.{IsLoopSorted};

use sm_expand::{Cursor, row_at};
use sm_moves::copy_rests;
use sm_observed::LoopState;
use sm_plan::{NodeRow, SymState};
use sm_syntax::PerCopy;
use sm_term::SymStore;
use std::alloc::{AllocError, Global};

// A copy of a store.
fn copy_store(alloc: Global, store: &SymStore) -> Result<SymStore, AllocError> {
    Ok(SymStore {
        list: Vec::from_slice(alloc, &store.list)?,
    })
}

// A copy of the store of each program.
fn copy_stores(alloc: Global, stores: &PerCopy<SymStore>) -> Result<PerCopy<SymStore>, AllocError> {
    Ok(PerCopy {
        base: copy_store(alloc, &stores.base)?,
        variant_a: copy_store(alloc, &stores.variant_a)?,
        variant_b: copy_store(alloc, &stores.variant_b)?,
        candidate: copy_store(alloc, &stores.candidate)?,
    })
}

// The set of the copies whose loops come next at a place of a plan, none where no loops do.
fn set_at(cursor: &Cursor<'_>) -> Option<u8> {
    match row_at(cursor) {
        Some(NodeRow::Loop { set, .. }) => Some(set),
        Some(NodeRow::Step { .. }) => None,
        Some(NodeRow::Abs { .. }) => None,
        Some(NodeRow::Fork { .. }) => None,
        Some(NodeRow::Block { .. }) => None,
        Some(NodeRow::Dead) => None,
        Some(NodeRow::End) => None,
        None => None,
    }
}

// The state at loops of a set.
fn state_at<'a>(alloc: Global, state: &SymState<'a>, set: u8) -> Result<LoopState<'a>, AllocError>
    ensures { (sorts : Sorts) →
        ((c : Copy) → IsWellSorted sorts (rest_code (of_copy state.now.rests c))) →
        IfOk result (IsLoopSorted sorts) }
{
    let rests = copy_rests(alloc, &state.rests)?;
    let stores = copy_stores(alloc, &state.stores)?;
    Ok(LoopState { set, rests, stores })
}

/// The state at a place of a plan, where loops come next.
pub(crate) fn loop_at<'a>(
    alloc: Global,
    state: &SymState<'a>,
    cursor: &Cursor<'_>,
) -> Result<Option<LoopState<'a>>, AllocError>
    ensures { (sorts : Sorts) →
        ((c : Copy) → IsWellSorted sorts (rest_code (of_copy state.now.rests c))) →
        IfOk result (λ o. IfSome o (IsLoopSorted sorts)) }
{
    match set_at(cursor) {
        Some(set) => Ok(Some(state_at(alloc, state, set)?)),
        None => Ok(None),
    }
}
