// Stores.
#![tactic(auto, unfolding(crate::specs::StoredValues::meaning, crate::specs::StoredValues::sorts_of))]

ghost use Rattle.std.specs.Prelude.{◌≡◌, ◌≢◌, ◌≤◌, ℕ, Some, None, IfOk, OnOk, OnErr, vec_len};
ghost use Rattle.sm_syntax.specs.text.Parts.{sort_of};
ghost use Rattle.sm_syntax.specs.trees.Programs.{declared_of};
ghost use Rattle.sm_syntax.specs.claim.Stores as plain;
ghost use Rattle.sm_syntax.specs.claim.Stores.{put};
ghost use Rattle.sm_eval.specs.Cells.{listed, AreCells};
ghost use Rattle.sm_eval.specs.StoredValues.{stored_value_of, meaning, sorts_of, with_cell};
ghost use Rattle.sm_eval.specs.Zeros.{zeros, AreZero, Declares};

use crate::stored_value::StoredValue;
use sm_syntax::{Decls, Name, Sort};
use std::alloc::{AllocError, Global};

/// The value of each declared name.
#[derive(Drop)]
pub struct Store {
    // By the number of the name.
    stored: Vec<StoredValue>,
}

impl Store {
    /// The store in which each declared name has 0, an array at each index. It takes room for each
    /// number of a name up to the greatest.
    pub fn zero(alloc: Global, decls: &Decls) -> Result<Store, AllocError>
        ensures sorts { IfOk result (λ s. sorts_of s ≡ sort_of (declared_of decls.now)) }
        ensures zeros { IfOk result (λ s. meaning s ≡ zeros (sort_of (declared_of decls.now))) }
    {
        let mut stored = Vec::new(alloc);
        for d in &decls.list {
            declare(alloc, &mut stored, d.0, d.1)?;
        }
        Ok(Store { stored })
    }

    /// A store with the same values.
    pub fn copy(&self, alloc: Global) -> Result<Store, AllocError>
        ensures values { IfOk result (λ s. meaning s ≡ meaning self.now) }
        ensures sorts { IfOk result (λ s. sorts_of s ≡ sorts_of self.now) }
    {
        let mut stored = Vec::new(alloc);
        for value in &self.stored {
            stored.push(value.copy(alloc)?)?;
        }
        Ok(Store { stored })
    }

    /// The sort of a name, None where it isn't declared. It takes the same time for each name.
    pub fn sort(&self, x: Name) -> Option<Sort>
        ensures { result ≡ sorts_of self.now x.0 }
    {
        match self.stored.get(x.0 as usize) {
            Some(value) => value.sort(),
            None => None,
        }
    }

    /// The number of a number variable.
    pub fn number(&self, x: Name) -> i128
        requires { sorts_of self.now x.0 ≡ Some Sort.Num }
        ensures { meaning self.now x.0 ≡ plain.Number result }
    {
        match self.stored_value(x) {
            StoredValue::Number(z) => *z,
            StoredValue::Absent | StoredValue::Array(_) => unreachable!(),
        }
    }

    /// The number at an index of an array.
    pub fn cell(&self, a: Name, i: i128) -> i128
        requires { sorts_of self.now a.0 ≡ Some Sort.Arr }
        ensures { result ≡ plain.array (meaning self.now a.0) i }
    {
        match self.stored_value(a) {
            StoredValue::Array(cells) => cells.number(i),
            StoredValue::Absent | StoredValue::Number(_) => unreachable!(),
        }
    }

    /// Each index of an array that doesn't have 0, with its number, in the order of the indices.
    pub fn cells(&self, a: Name) -> &[(i128, i128)]
        requires { sorts_of self.now a.0 ≡ Some Sort.Arr }
        ensures ordered { AreCells result.now }
        ensures value { meaning self.now a.0 ≡ plain.Array (listed result.now) }
    {
        match self.stored_value(a) {
            StoredValue::Array(cells) => cells.pairs(),
            StoredValue::Absent | StoredValue::Number(_) => unreachable!(),
        }
    }

    /// Gives a number variable a new number.
    pub fn set(&mut self, x: Name, z: i128)
        requires { sorts_of self.old x.0 ≡ Some Sort.Num }
        ensures value { meaning self.new ≡ put (meaning self.old) x.0 (plain.Number z) }
        ensures sorts { sorts_of self.new ≡ sorts_of self.old }
    {
        self.stored[x.0 as usize] = StoredValue::Number(z);
    }

    /// Gives an array a new number at an index.
    pub fn set_cell(&mut self, a: Name, i: i128, z: i128) -> Result<(), AllocError>
        requires { sorts_of self.old a.0 ≡ Some Sort.Arr }
        ensures ok { OnOk result (meaning self.new ≡ with_cell (meaning self.old) a.0 i z) }
        ensures err { OnErr result (meaning self.new ≡ meaning self.old) }
        ensures sorts { sorts_of self.new ≡ sorts_of self.old }
    {
        match &mut self.stored[a.0 as usize] {
            StoredValue::Array(cells) => cells.set(i, z),
            StoredValue::Absent | StoredValue::Number(_) => unreachable!(),
        }
    }

    // What is stored for a declared name.
    fn stored_value(&self, x: Name) -> &StoredValue
        requires { sorts_of self.now x.0 ≢ None }
        ensures { result.now ≡ stored_value_of self.now.stored.items x.0 }
    {
        &self.stored[x.0 as usize]
    }
}

// A name more with 0, where it isn't declared.
fn declare(
    alloc: Global,
    stored: &mut Vec<StoredValue>,
    x: Name,
    of: Sort,
) -> Result<(), AllocError>
    requires { AreZero stored.old.items }
    ensures sorts { OnOk result (Declares stored.old.items stored.new.items x.0 of) }
    ensures zeros { OnOk result (AreZero stored.new.items) }
{
    let place = x.0 as usize;
    extend(stored, place + 1)?;
    if stored[place].is_absent() {
        stored[place] = StoredValue::zero(alloc, of);
    }
    Ok(())
}

// At least this many stored values, where the new ones are absent.
fn extend(stored: &mut Vec<StoredValue>, count: usize) -> Result<(), AllocError>
    ensures enough { OnOk result (count ≤ vec_len stored.new) }
    ensures same { (x : ℕ) →
        stored_value_of stored.new.items x ≡ stored_value_of stored.old.items x }
{
    while stored.len() < count {
        stored.push(StoredValue::Absent)?;
    }
    Ok(())
}
