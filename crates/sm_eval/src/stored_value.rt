// What a store has for a name.
ghost use Rattle.std.specs.Prelude.{◌≡◌, Some, IfOk, is_none};
ghost use Rattle.sm_eval.specs.StoredValues.{held, sort};
ghost use Rattle.sm_eval.specs.Zeros.{zero_of};

use crate::cells::Cells;
use sm_syntax::Sort;
use std::alloc::{AllocError, Global};

/// What a store has for a name: nothing where it isn't declared.
#[derive(Drop)]
pub enum StoredValue {
    Absent,
    Number(i128),
    Array(Cells),
}

impl StoredValue {
    /// The stored value 0 of a sort.
    pub fn zero(alloc: Global, of: Sort) -> StoredValue
        ensures sort { sort result ≡ Some of }
        ensures value { held result ≡ zero_of (Some of) }
    {
        match of {
            Sort::Num => StoredValue::Number(0),
            Sort::Arr => StoredValue::Array(Cells::new(alloc)),
        }
    }

    /// An equal stored value.
    pub fn copy(&self, alloc: Global) -> Result<StoredValue, AllocError>
        ensures { IfOk result (λ value. value ≡ self.now) }
    {
        match self {
            StoredValue::Absent => Ok(StoredValue::Absent),
            StoredValue::Number(z) => Ok(StoredValue::Number(*z)),
            StoredValue::Array(cells) => Ok(StoredValue::Array(cells.copy(alloc)?)),
        }
    }

    /// The sort of the name, None where it isn't declared.
    pub fn sort(&self) -> Option<Sort>
        ensures { result ≡ sort self.now }
    {
        match self {
            StoredValue::Absent => None,
            StoredValue::Number(_) => Some(Sort::Num),
            StoredValue::Array(_) => Some(Sort::Arr),
        }
    }

    /// Whether the name isn't declared.
    pub fn is_absent(&self) -> bool
        ensures { result ≡ is_none (sort self.now) }
    {
        matches!(self, StoredValue::Absent)
    }
}
