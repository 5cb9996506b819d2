// Copies of states.
ghost use Rattle.std.specs.Prelude.{◌≡◌, IfOk};
ghost use Rattle.sm_syntax.specs.claim.ConflictFree.{Copy};
ghost use Rattle.sm_syntax.specs.trees.Copies.{of_copy};
ghost use Rattle.sm_plan.specs.Views.{rest_code};

use crate::parts::all_made;
use crate::rest::Continuation;
use crate::state::SymState;
use sm_syntax::PerCopy;
use sm_term::SymStore;
use std::alloc::{AllocError, Global};

// A copy of what is left of each program.
pub(crate) fn copy_rests<'a>(
    alloc: Global,
    rests: &PerCopy<Continuation<'a>>,
) -> Result<PerCopy<Continuation<'a>>, AllocError>
    ensures { (c : Copy) →
        IfOk result (λ p. rest_code (of_copy p c) ≡ rest_code (of_copy rests.now c)) }
{
    all_made(
        rests.base.copy(alloc),
        rests.variant_a.copy(alloc),
        rests.variant_b.copy(alloc),
        rests.candidate.copy(alloc),
    )
}

// A copy of stores.
pub(crate) fn copy_stores(
    alloc: Global,
    stores: &PerCopy<SymStore>,
) -> Result<PerCopy<SymStore>, AllocError>
    ensures { (c : Copy) →
        IfOk result (λ p. (of_copy p c).list.items ≡ (of_copy stores.now c).list.items) }
{
    all_made(
        copy_store(alloc, &stores.base),
        copy_store(alloc, &stores.variant_a),
        copy_store(alloc, &stores.variant_b),
        copy_store(alloc, &stores.candidate),
    )
}

// A copy of a store.
pub(crate) fn copy_store(alloc: Global, store: &SymStore) -> Result<SymStore, AllocError>
    ensures { IfOk result (λ s. s.list.items ≡ store.now.list.items) }
{
    let list = Vec::from_slice(alloc, &store.list)?;
    Ok(SymStore { list })
}

// A copy of a state.
pub(crate) fn copy_state<'a>(
    alloc: Global,
    state: &SymState<'a>,
) -> Result<SymState<'a>, AllocError>
    ensures rests { (c : Copy) →
        IfOk result (λ s. rest_code (of_copy s.rests c) ≡ rest_code (of_copy state.now.rests c)) }
    ensures stores { (c : Copy) → IfOk result (λ s.
        (of_copy s.stores c).list.items ≡ (of_copy state.now.stores c).list.items) }
    ensures target { IfOk result (λ s.
        s.target.value.list.items ≡ state.now.target.value.list.items) }
    ensures is_final { IfOk result (λ s. s.is_final ≡ state.now.is_final) }
{
    Ok(SymState {
        rests: copy_rests(alloc, &state.rests)?,
        stores: copy_stores(alloc, &state.stores)?,
        target: state.target.clone()?,
        is_final: state.is_final,
    })
}
