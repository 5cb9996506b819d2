// Classes of equal places, by what is given of them.
ghost use Rattle.std.specs.Prelude.{◌≡◌, ◌↔◌, ◌<◌, ◌^◌, List, [], IsTrue, IfOk, OnOk, OnErr, length, map};
ghost use Rattle.sm_cc.specs.Rows.{SamePlaces, ApartPlaces};
ghost use Rattle.sm_cc.specs.Log.{Placed};
ghost use Rattle.sm_cc.specs.Steps.{ExplainPlaces};
ghost use Rattle.sm_cc.specs.Closures.{IsSound};
ghost use Rattle.sm_cc.specs.Labels.{AreLabels};
ghost use Rattle.sm_cc.specs.BaseClasses.{AreAllGiven, AreInside, AreKeyed};
ghost use Rattle.sm_cc.specs.Growing.{AreGrown};
ghost use Rattle.sm_cc.specs.Exact.{nothing_given, placed_with, with_equal, with_unequal};

use crate::closure::{Closure, empty};
use crate::compare::together;
use crate::explain::explanation;
use crate::ground::BaseClasses;
use crate::growing::{grown, unmerged};
use crate::log::{Equation, Given, Step};
use crate::regrounding::settle_over;
use crate::rounds::settle;
use crate::row::Row;
use crate::witness::find_witness;
use std::alloc::{AllocError, Global};
use std::marker::Model;
use std::mem;

/// Classes of equal places.
pub(crate) struct PlaceClasses {
    inside: Closure,
}

// One call ends a value, and not one for each field: proofs of what has it stay small.
impl Drop for PlaceClasses {
    fn drop(self) {
        let Self { inside: _ } = self;
    }
}

impl Model for PlaceClasses {
    ghost use Rattle.sm_cc.specs.Log.{Placed};
    ghost use Rattle.sm_cc.specs.Closures.{placed_of};
    ghost use Rattle.sm_cc.specs.Exact.{IsExact};

    ghost Value = { Placed };

    ghost view = { λ p. placed_of p.inside };

    ghost invariant = { λ p. IsExact p.inside };
}

impl PlaceClasses {
    /// No places.
    pub(crate) fn none(alloc: Global) -> PlaceClasses
        ensures { result ≡ nothing_given [] }
    {
        PlaceClasses {
            inside: empty(alloc),
        }
    }

    /// The classes of places with these rows, of which it is given which are equal and which
    /// aren't.
    pub(crate) fn of(
        alloc: Global,
        rows: Vec<Row>,
        equal: Vec<Given>,
        unequal: Vec<Given>,
    ) -> Result<PlaceClasses, AllocError>
        ensures { IfOk result (λ p. p ≡ placed_with rows.items equal.items unequal.items) }
    {
        let mut inside = unmerged(alloc, rows, equal, unequal)?;
        settle(alloc, &mut inside)?;
        Ok(PlaceClasses { inside })
    }

    /// The classes of places that begin with those of others, by all that is given of them.
    pub(crate) fn over(
        alloc: Global,
        ground: &BaseClasses,
        more: Vec<Row>,
        equal: Vec<Given>,
        unequal: Vec<Given>,
    ) -> Result<PlaceClasses, AllocError>
        requires sound { IsSound ground.now.closure }
        requires keyed { AreKeyed ground.now }
        requires inside { AreInside ground.now.closure.rows.items }
        requires equal { AreAllGiven ground.now.closure.equal.items equal.items }
        requires unequal { AreAllGiven ground.now.closure.unequal.items unequal.items }
        ensures { IfOk result (λ p. (rows : List Row)
            × AreGrown ground.now.closure.rows.items more.items rows
            × (p ≡ placed_with rows equal.items unequal.items)) }
    {
        let mut inside = grown(alloc, &ground.closure, more, equal, unequal)?;
        settle_over(alloc, ground, &mut inside)?;
        Ok(PlaceClasses { inside })
    }

    /// It is given under a number that two places are equal. After want of memory no places are
    /// left.
    pub(crate) fn assume(
        &mut self,
        alloc: Global,
        fact: u64,
        i: u64,
        j: u64,
    ) -> Result<(), AllocError>
        requires left { i < length self.old.board.rows }
        requires right { j < length self.old.board.rows }
        ensures given { OnOk result (self.new ≡ with_equal self.old fact i j) }
        ensures err { OnErr result (self.new ≡ nothing_given []) }
    {
        let mut inside = mem::replace(&mut self.inside, empty(alloc));
        inside.equal.push(Given {
            fact,
            left: i,
            right: j,
        })?;
        settle(alloc, &mut inside)?;
        self.inside = inside;
        Ok(())
    }

    /// Assumes of two places that they aren't equal.
    pub(crate) fn assume_apart(
        &mut self,
        alloc: Global,
        fact: u64,
        i: u64,
        j: u64,
    ) -> Result<(), AllocError>
        requires left { i < length self.old.board.rows }
        requires right { j < length self.old.board.rows }
        ensures given { OnOk result (self.new ≡ with_unequal self.old fact i j) }
        ensures err { OnErr result (self.new ≡ nothing_given []) }
    {
        let mut inside = mem::replace(&mut self.inside, empty(alloc));
        inside.unequal.push(Given {
            fact,
            left: i,
            right: j,
        })?;
        settle(alloc, &mut inside)?;
        self.inside = inside;
        Ok(())
    }

    /// Whether two places are in one class.
    pub(crate) fn same(&self, i: u64, j: u64) -> bool
        ensures { IsTrue result ↔ SamePlaces self.now.board i j }
    {
        together(&self.inside, i, j)
    }

    /// A label for each place: two have one exactly where they are in one class.
    pub(crate) fn labels(&self, alloc: Global) -> Result<Vec<u64>, AllocError>
        ensures { IfOk result (λ v. AreLabels self.now.board v.items) }
    {
        right_sides(alloc, &self.inside.roots)
    }

    /// Whether two places are known apart.
    pub(crate) fn apart(&self, i: u64, j: u64) -> bool
        ensures { IsTrue result ↔ ApartPlaces self.now.board i j }
    {
        find_witness(&self.inside, i, j).is_some()
    }
    /// Steps, of which the first has the number `start`, that explain why two places are equal. The
    /// last says that they are.
    pub(crate) fn explain(
        &self,
        alloc: Global,
        i: u64,
        j: u64,
        start: u64,
    ) -> Result<Vec<Step>, AllocError>
        requires same { SamePlaces self.now.board i j }
        requires small { start < 2 ^ 63 }
        ensures { IfOk result (λ v. ExplainPlaces self.now start v.items i j) }
    {
        explanation(alloc, &self.inside, i, j, start)
    }
}

/// The right sides of equations.
pub(crate) fn right_sides(alloc: Global, equations: &[Equation]) -> Result<Vec<u64>, AllocError>
    ensures { IfOk result (λ v. v.items ≡ map (λ e. e.right) equations.now) }
{
    let mut places = Vec::with_capacity(alloc, equations.len())?;
    for e in equations {
        places.push(e.right)?;
    }
    Ok(places)
}
