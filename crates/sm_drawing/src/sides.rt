// What one of the four copies has.
use sm_eval::Store;
use sm_syntax::{CopyName, PerCopy};
use std::alloc::{AllocError, Global};

/// The store of a copy, to be changed.
pub(crate) fn store_at(stores: &mut PerCopy<Store>, copy: CopyName) -> &mut Store {
    match copy {
        CopyName::O => &mut stores.base,
        CopyName::A => &mut stores.variant_a,
        CopyName::B => &mut stores.variant_b,
        CopyName::M => &mut stores.candidate,
    }
}

// A store for each copy, with the values of another.
fn stores_like(
    alloc: Global,
    base: &Store,
    variant_a: &Store,
    variant_b: &Store,
    candidate: &Store,
) -> Result<PerCopy<Store>, AllocError> {
    Ok(PerCopy {
        base: base.copy(alloc)?,
        variant_a: variant_a.copy(alloc)?,
        variant_b: variant_b.copy(alloc)?,
        candidate: candidate.copy(alloc)?,
    })
}

/// Stores with the values of others.
pub(crate) fn copy_stores(
    alloc: Global,
    stores: &PerCopy<Store>,
) -> Result<PerCopy<Store>, AllocError> {
    stores_like(
        alloc,
        &stores.base,
        &stores.variant_a,
        &stores.variant_b,
        &stores.candidate,
    )
}

/// The four stores with which the programs start from an input.
pub(crate) fn start_stores(alloc: Global, input: &Store) -> Result<PerCopy<Store>, AllocError> {
    stores_like(alloc, input, input, input, input)
}

/// All copies, in order.
pub(crate) const COPIES: [CopyName; 4] = [CopyName::O, CopyName::A, CopyName::B, CopyName::M];
