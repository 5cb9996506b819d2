// The numbers of an array, but for those that are 0, in the order of their indices.
ghost use Rattle.std.specs.Prelude.{◌≡◌, [], IfOk, IfErr, OnOk, OnErr};
ghost use Rattle.sm_syntax.specs.claim.Stores.{with_element};
ghost use Rattle.sm_eval.specs.Cells.{listed, AreCells};
ghost use Rattle.sm_eval.specs.CellPlaces.{IsAt, IsGapFor};

use crate::deque::Deque;
use std::alloc::{AllocError, Global};
use std::marker::Model;

/// The cells of an array that don't have 0.
#[derive(Drop)]
pub struct Cells {
    pairs: Deque,
}

impl Model for Cells {
    ghost use Rattle.std.specs.Prelude.{List, ℤ};
    ghost use Rattle.sm_eval.specs.Cells.{AreCells};

    ghost Value = { List (ℤ × ℤ) };

    ghost view = { λ c. c.pairs };

    ghost invariant = { λ c. AreCells c.pairs };
}

impl Cells {
    /// An array of 0 alone.
    pub fn new(alloc: Global) -> Cells
        ensures { result ≡ [] }
    {
        Cells {
            pairs: Deque::new(alloc),
        }
    }

    /// The number at an index.
    pub fn number(&self, i: i128) -> i128
        ensures { result ≡ listed self.now i }
    {
        match self.search(i) {
            Ok(at) => self.pairs.get(at).1,
            Err(_) => 0,
        }
    }

    /// Each index that doesn't have 0, with its number.
    pub fn pairs(&self) -> &[(i128, i128)]
        ensures all { result.now ≡ self.now }
        ensures cells { AreCells self.now }
    {
        self.pairs.as_slice()
    }

    /// Puts a number at an index.
    pub fn set(&mut self, i: i128, z: i128) -> Result<(), AllocError>
        ensures ok { OnOk result (listed self.new ≡ with_element (listed self.old) i z) }
        ensures err { OnErr result (self.new ≡ self.old) }
    {
        match self.search(i) {
            Ok(at) => {
                self.replace(at, i, z);
                Ok(())
            }
            Err(at) => self.add(at, i, z),
        }
    }

    /// A copy of the cells.
    pub fn copy(&self, alloc: Global) -> Result<Cells, AllocError>
        ensures { IfOk result (λ c. c ≡ self.now) }
    {
        Ok(Cells {
            pairs: self.pairs.copy(alloc)?,
        })
    }

    // Puts a number at the index of the cell that stands at a place.
    fn replace(&mut self, at: usize, i: i128, z: i128)
        requires { IsAt self.old i at }
        ensures { listed self.new ≡ with_element (listed self.old) i z }
    {
        if z == 0 {
            self.pairs.remove(at);
        } else {
            self.pairs.put(at, (i, z));
        }
    }

    // Puts a number at an index that has no cell, and would have it at a place.
    fn add(&mut self, at: usize, i: i128, z: i128) -> Result<(), AllocError>
        requires { IsGapFor self.old i at }
        ensures ok { OnOk result (listed self.new ≡ with_element (listed self.old) i z) }
        ensures err { OnErr result (self.new ≡ self.old) }
    {
        if z == 0 {
            return Ok(());
        }
        self.pairs.insert(at, (i, z))?;
        Ok(())
    }

    // Where the cell of an index is, or where it would go.
    fn search(&self, i: i128) -> Result<usize, usize>
        ensures found { IfOk result (IsAt self.now i) }
        ensures absent { IfErr result (IsGapFor self.now i) }
    {
        self.pairs.as_slice().binary_search_by_key(&i, |&(k, _)| k)
    }
}
