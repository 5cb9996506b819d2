// Classes of equal terms, by what is given of them.
ghost use Rattle.std.specs.Prelude.{◌≡◌, ◌<◌, IfOk, OnOk, OnErr, [], ◌∷◌, ◌++◌, length};
ghost use Rattle.sm_term.specs.Tables.{trees_in, AreBefore};
ghost use Rattle.sm_theory.specs.Standing.{AreLinearForms};
ghost use Rattle.sm_cc.specs.BaseClasses.{AreBaseClasses, IsLedBy};
ghost use Rattle.sm_cc.specs.Views.{ClassesValue, IsTermOf, HaveOneSort, AreOfTwoTerms, with_given, no_terms, equation_under, contrary_under};
ghost use Rattle.sm_cc.specs.Assumed.{with_fact};

use crate::facts::{places_of, places_over};
use crate::ground::{AddedRows, BaseClasses, Numbering};
use crate::places::PlaceClasses;
use crate::positions::Positions;
use sm_num::LinForm;
use sm_term::{TermId, TermTable, Terms};
use std::alloc::{AllocError, Global};
use std::marker::Model;

/// A fact that is given: that two terms are equal, or that they aren't.
#[derive(Clone, Copy)]
pub struct GivenFact {
    pub number: u64,
    pub are_equal: bool,
    pub left: TermId,
    pub right: TermId,
}

/// Classes of terms of a table: which are equal by the rules of equality, arrays and linear forms,
/// and by what is given. Of a term that isn't in the list nothing is known.
pub struct Classes<'a> {
    pub(crate) table: &'a TermTable,
    pub(crate) terms: &'a [TermId],
    given: Vec<GivenFact>,
    pub(crate) positions: Positions,
    pub(crate) places: PlaceClasses,
}

// One call ends a value, and not one for each field: proofs of what has it stay small.
impl Drop for Classes<'_> {
    fn drop(self) {
        let Self {
            table: _,
            terms: _,
            given: _,
            positions: _,
            places: _,
        } = self;
    }
}

impl<'a> Model for Classes<'a> {
    ghost use Rattle.std.specs.Coded.{codes};
    ghost use Rattle.sm_syntax.specs.contracts.tree.Block as block;
    ghost use Rattle.sm_cc.specs.Views.{ClassesValue};
    ghost use Rattle.sm_cc.specs.Assumed.{AreClasses};

    ghost Value = { ClassesValue };

    ghost coded = { Prim.hlevel (codes, block.the_row.coded) };

    ghost view = { λ c. record {
      table = c.table.now;
      terms = c.terms.now;
      given = c.given.items;
    } };

    ghost invariant = { λ c.
        let v : ClassesValue =
        record { table = c.table.now; terms = c.terms.now; given = c.given.items } in
        AreClasses v c.positions c.places };
}

impl<'a> Classes<'a> {
    /// The classes of terms by all that is given of them. The rules are applied once. The forms are
    /// those of all terms of the table, as `next_lin` of `sm_theory` makes them one after the other.
    pub fn of(
        alloc: Global,
        table: &'a TermTable,
        forms: &[LinForm],
        terms: &'a Terms,
        given: Vec<GivenFact>,
    ) -> Result<Classes<'a>, AllocError>
        requires forms { AreLinearForms (trees_in table.now) forms.now }
        requires counted { length forms.now ≡ length (trees_in table.now) }
        requires before { AreBefore (length (trees_in table.now)) terms.now.list.items }
        requires given { AreOfTwoTerms (record {
          table = table.now;
          terms = terms.now.list.items;
          given = given.items;
        }) }
        ensures { IfOk result (λ c. c ≡ record {
          table = table.now;
          terms = terms.now.list.items;
          given = given.items;
        }) }
    {
        let positions = Positions::of(alloc, table, &terms.list)?;
        let places = places_of(alloc, table, forms, &terms.list, &positions, &given)?;
        Ok(Classes {
            table,
            terms: &terms.list,
            given,
            positions,
            places,
        })
    }

    /// The classes of terms of which nothing is given, by the forms of all terms of the table.
    pub fn new(
        alloc: Global,
        table: &'a TermTable,
        forms: &[LinForm],
        terms: &'a Terms,
    ) -> Result<Classes<'a>, AllocError>
        requires forms { AreLinearForms (trees_in table.now) forms.now }
        requires counted { length forms.now ≡ length (trees_in table.now) }
        requires before { AreBefore (length (trees_in table.now)) terms.now.list.items }
        ensures { IfOk result (λ c.
            c ≡ record { table = table.now; terms = terms.now.list.items; given = [] }) }
    {
        Classes::of(alloc, table, forms, terms, Vec::new(alloc))
    }

    /// The classes of terms that begin with those of others, by all that is given of them. The
    /// forms are those of all terms of the table, as `next_lin` of `sm_theory` makes them.
    pub fn over(
        alloc: Global,
        ground: &BaseClasses,
        numbering: &mut Numbering,
        table: &'a TermTable,
        forms: &[LinForm],
        terms: &'a Terms,
        given: Vec<GivenFact>,
    ) -> Result<Classes<'a>, AllocError>
        requires forms { AreLinearForms (trees_in table.now) forms.now }
        requires counted { length forms.now ≡ length (trees_in table.now) }
        requires before { AreBefore (length (trees_in table.now)) terms.now.list.items }
        requires given { AreOfTwoTerms (record {
          table = table.now;
          terms = terms.now.list.items;
          given = given.items;
        }) }
        requires led { (v : ClassesValue) × AreBaseClasses v ground.now numbering.old
            × IsLedBy v (record {
              table = table.now;
              terms = terms.now.list.items;
              given = given.items;
            }) }
        ensures classes { IfOk result (λ c. c ≡ record {
          table = table.now;
          terms = terms.now.list.items;
          given = given.items;
        }) }
        ensures ground { (v : ClassesValue) → AreBaseClasses v ground.now numbering.old →
            AreBaseClasses v ground.now numbering.new }
    {
        // A table has no term and no body twice, as its length ensures.
        table.len();
        let added = ground.added_rows(alloc, numbering, table, forms, &terms.list)?;
        let AddedRows { positions, rows } = added;
        let places = places_over(alloc, ground, rows, &positions, &given)?;
        Ok(Classes {
            table,
            terms: &terms.list,
            given,
            positions,
            places,
        })
    }

    /// It is given that two terms are equal, by the fact with a number. After want of memory no
    /// terms are left.
    pub fn assume(
        &mut self,
        alloc: Global,
        number: u64,
        t: TermId,
        u: TermId,
    ) -> Result<(), AllocError>
        requires left { IsTermOf self.old t }
        requires right { IsTermOf self.old u }
        requires sorts { HaveOneSort self.old.table t u }
        ensures given { OnOk result (self.new ≡ with_given self.old (equation_under number t u)) }
        ensures err { OnErr result (self.new ≡ no_terms self.old.table) }
    {
        self.give(
            alloc,
            GivenFact {
                number,
                are_equal: true,
                left: t,
                right: u,
            },
        )
    }

    /// It is given that two terms aren't equal, by the fact with a number. After want of memory no
    /// terms are left.
    pub fn assume_apart(
        &mut self,
        alloc: Global,
        number: u64,
        t: TermId,
        u: TermId,
    ) -> Result<(), AllocError>
        requires left { IsTermOf self.old t }
        requires right { IsTermOf self.old u }
        requires sorts { HaveOneSort self.old.table t u }
        ensures given { OnOk result (self.new ≡ with_given self.old (contrary_under number t u)) }
        ensures err { OnErr result (self.new ≡ no_terms self.old.table) }
    {
        self.give(
            alloc,
            GivenFact {
                number,
                are_equal: false,
                left: t,
                right: u,
            },
        )
    }

    // A fact is given.
    fn give(&mut self, alloc: Global, g: GivenFact) -> Result<(), AllocError>
        requires left { IsTermOf self.old g.left }
        requires right { IsTermOf self.old g.right }
        requires sorts { HaveOneSort self.old.table g.left g.right }
        ensures given { OnOk result (self.new ≡ with_given self.old g) }
        ensures err { OnErr result (self.new ≡ no_terms self.old.table) }
    {
        let i = self.positions.place(g.left);
        let j = self.positions.place(g.right);
        match note(alloc, &mut self.given, &mut self.places, g, i, j) {
            Ok(()) => Ok(()),
            Err(e) => {
                self.terms = &[];
                self.given = Vec::new(alloc);
                self.positions = Positions::none(alloc);
                self.places = PlaceClasses::none(alloc);
                Err(e)
            }
        }
    }
}

// A fact is given of terms and of their places.
fn note(
    alloc: Global,
    given: &mut Vec<GivenFact>,
    places: &mut PlaceClasses,
    g: GivenFact,
    i: u64,
    j: u64,
) -> Result<(), AllocError>
    requires left { i < length places.old.board.rows }
    requires right { j < length places.old.board.rows }
    ensures given { OnOk result (given.new.items ≡ given.old.items ++ g ∷ []) }
    ensures places { OnOk result (places.new ≡ with_fact places.old g i j) }
{
    relate(alloc, places, g, i, j)?;
    given.push(g)?;
    Ok(())
}

// A fact is given of two places.
fn relate(
    alloc: Global,
    places: &mut PlaceClasses,
    g: GivenFact,
    i: u64,
    j: u64,
) -> Result<(), AllocError>
    requires left { i < length places.old.board.rows }
    requires right { j < length places.old.board.rows }
    ensures { OnOk result (places.new ≡ with_fact places.old g i j) }
{
    if g.are_equal {
        places.assume(alloc, g.number, i, j)
    } else {
        places.assume_apart(alloc, g.number, i, j)
    }
}
