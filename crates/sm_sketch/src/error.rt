// Why a product isn't made.
ghost use Rattle.std.specs.Prelude.{◌≡◌};
ghost use Rattle.sm_sketch.specs.declared.error.ProductError.TheVariants.{Memory};

use std::alloc::{AllocError, AllocFailed};
use thiserror::Error;

/// Why a product, or a part of one, isn't made.
#[derive(Clone, Copy, Debug, PartialEq, Eq, Error)]
pub enum ProductError {
    /// It has more nodes than any plan may have, or branches deeper.
    #[error("too many nodes")]
    TooMany,
    #[error("out of memory")]
    Memory,
}

impl From<AllocError> for ProductError {
    ghost from_gives = { λ _ e. e ≡ Memory };

    fn from(_e: AllocError) -> ProductError {
        ProductError::Memory
    }
}

impl<T: Drop> From<AllocFailed<T>> for ProductError {
    ghost from_gives = { λ _ e. e ≡ Memory };

    fn from(_e: AllocFailed<T>) -> ProductError {
        ProductError::Memory
    }
}
