// Classes that others begin with, whose terms go behind these.
ghost use Rattle.std.specs.Prelude.{◌≡◌, ◌+◌, IsTrue, length, IfOk, IfSome};
ghost use Rattle.sm_term.specs.Tables.{trees_in, AreBefore};
ghost use Rattle.sm_term.specs.TableLaws.{AddsTerms};
ghost use Rattle.sm_theory.specs.Standing.{AreLinearForms};
ghost use Rattle.sm_cc.specs.Assumed.{AreClasses, placed_equations, placed_contraries};
ghost use Rattle.sm_cc.specs.Closures.{placed_of, are_together};
ghost use Rattle.sm_cc.specs.Exact.{IsExact, placed_with};
ghost use Rattle.sm_cc.specs.Firsts.{AreFirsts, met_at, alike_at, headed_at};
ghost use Rattle.sm_cc.specs.BaseClasses.{AreBaseClasses, AreInside, AreNumberedBy, AreBelow, IsElementBelow, IsRowBelow};
ghost use Rattle.sm_cc.specs.Positions.{ArePositions};
ghost use Rattle.sm_cc.specs.RowOf.{IsFurther, AreRowsFrom};
ghost use Rattle.sm_cc.specs.Views.{ClassesValue, AreOfTwoTerms, trees_of};
ghost use Rattle.sm_pairs.specs.Longer.{IsLonger};

use crate::classes::GivenFact;
use crate::closure::Closure;
use crate::facts::placed_facts;
use crate::growing::unmerged;
use crate::heads::Heads;
use crate::keys::Met;
use crate::log::Given;
use crate::positions::Positions;
use crate::regrounding::{alike_places, headed_places};
use crate::rounds::settle;
use crate::row::{Element, Row};
use crate::rows::{numbered_rows, rows_from};
use crate::shapes::Shapes;
use sm_num::LinForm;
use sm_term::{TermId, TermTable, Terms};
use std::alloc::{AllocError, Global};

/// Classes of terms that others begin with: what is found of them needn't be found again where more
/// terms stand behind these and more is given.
#[derive(Drop)]
pub struct BaseClasses {
    pub(crate) positions: Positions,
    pub(crate) closure: Closure,
    // the first places that have the keys of forms
    pub(crate) alike: Met,
    // those that have the keys of heads with arguments
    pub(crate) headed: Met,
}

/// What the heads and the linear forms of terms are numbered by.
pub struct Numbering {
    pub(crate) heads: Heads,
    pub(crate) shapes: Shapes,
}

// One call ends a value, and not one for each field: proofs of what has it stay small.
impl Drop for Numbering {
    fn drop(self) {
        let Self {
            heads: _,
            shapes: _,
        } = self;
    }
}

/// Classes that others begin with, and what their terms are numbered by.
pub struct NumberedBase {
    pub ground: BaseClasses,
    pub numbering: Numbering,
}

// One call ends a value, and not one for each field: proofs of what has it stay small.
impl Drop for NumberedBase {
    fn drop(self) {
        let Self {
            ground: _,
            numbering: _,
        } = self;
    }
}

// The positions of terms that begin with those of a base, and the rows of the terms behind these.
#[derive(Drop)]
pub(crate) struct AddedRows {
    pub(crate) positions: Positions,
    pub(crate) rows: Vec<Row>,
}

// The first places that have keys, of forms and of heads with arguments.
#[derive(Drop)]
struct FirstPlaces {
    alike: Met,
    headed: Met,
}

impl BaseClasses {
    /// The classes of terms by all that is given of them; none where an argument of a term, or an
    /// element before it was written, isn't in the list. The forms are those of all terms of the
    /// table, as `next_lin` of `sm_theory` makes them one after the other.
    pub fn of(
        alloc: Global,
        table: &TermTable,
        forms: &[LinForm],
        terms: &Terms,
        given: &[GivenFact],
    ) -> Result<Option<NumberedBase>, AllocError>
        requires forms { AreLinearForms (trees_in table.now) forms.now }
        requires counted { length forms.now ≡ length (trees_in table.now) }
        requires before { AreBefore (length (trees_in table.now)) terms.now.list.items }
        requires given { AreOfTwoTerms (record {
          table = table.now;
          terms = terms.now.list.items;
          given = given.now;
        }) }
        ensures { IfOk result (λ o. IfSome o (λ g. AreBaseClasses (record {
          table = table.now;
          terms = terms.now.list.items;
          given = given.now;
        }) g.ground g.numbering)) }
    {
        let positions = Positions::of(alloc, table, &terms.list)?;
        let (rows, numbering) = numbered_rows(alloc, table, forms, &positions, &terms.list)?;
        let closure = placed_classes(alloc, &positions, rows, given)?;
        made_ground(alloc, positions, numbering, closure)
    }

    /// The positions of terms that begin with those of the base, and the rows of the terms behind
    /// these. The forms are those of all terms of the table.
    pub(crate) fn added_rows(
        &self,
        alloc: Global,
        numbering: &mut Numbering,
        table: &TermTable,
        forms: &[LinForm],
        terms: &[TermId],
    ) -> Result<AddedRows, AllocError>
        requires forms { AreLinearForms (trees_in table.now) forms.now }
        requires counted { length forms.now ≡ length (trees_in table.now) }
        requires before { AreBefore (length (trees_in table.now)) terms.now }
        requires led { (v : ClassesValue) × AreBaseClasses v self.now numbering.old
            × AddsTerms v.table table.now × IsLonger v.terms terms.now }
        ensures further { IsFurther numbering.old numbering.new }
        ensures positions { let trees = trees_in table.now in
            IfOk result (λ m. ArePositions trees (trees_of trees terms.now) m.positions) }
        ensures count { IfOk result (λ m.
            length self.now.closure.rows.items + length m.rows.items ≡ length terms.now) }
        ensures rows { let trees = trees_in table.now in
            let from = length self.now.closure.rows.items in IfOk result (λ m.
            AreRowsFrom table.now (trees_of trees terms.now) numbering.new from m.rows.items) }
    {
        let from = self.closure.rows.len();
        let positions = self.positions.more(alloc, table, terms, from as u64)?;
        let rows = rows_from(alloc, table, forms, &positions, numbering, terms, from)?;
        Ok(AddedRows { positions, rows })
    }
}

// The classes of places with these rows, by what is given of the terms.
fn placed_classes(
    alloc: Global,
    positions: &Positions,
    rows: Vec<Row>,
    facts: &[GivenFact],
) -> Result<Closure, AllocError>
    ensures exact { IfOk result IsExact }
    ensures given { IfOk result (λ c. placed_of c ≡ placed_with rows.items
        (placed_equations positions.now facts.now) (placed_contraries positions.now facts.now)) }
{
    let (equal, unequal) = placed_facts(alloc, positions, facts)?;
    settled(alloc, rows, equal, unequal)
}

// The classes of places with these rows, of which it is given which are equal and which aren't.
fn settled(
    alloc: Global,
    rows: Vec<Row>,
    equal: Vec<Given>,
    unequal: Vec<Given>,
) -> Result<Closure, AllocError>
    ensures exact { IfOk result IsExact }
    ensures given { IfOk result (λ c.
        placed_of c ≡ placed_with rows.items equal.items unequal.items) }
{
    let mut closure = unmerged(alloc, rows, equal, unequal)?;
    settle(alloc, &mut closure)?;
    Ok(closure)
}

// Classes for others to begin with, where the rows of their places name one another alone.
fn made_ground(
    alloc: Global,
    positions: Positions,
    numbering: Numbering,
    closure: Closure,
) -> Result<Option<NumberedBase>, AllocError>
    requires { IsExact closure }
    ensures { (v : ClassesValue) → AreBefore (length (trees_in v.table)) v.terms →
        AreClasses v positions (placed_of closure) →
        AreNumberedBy v.table (trees_of (trees_in v.table) v.terms) closure.rows.items numbering →
        IfOk result (λ o. IfSome o (λ g. AreBaseClasses v g.ground g.numbering)) }
{
    match inside_keys(alloc, &closure)? {
        Some(keys) => {
            let ground = BaseClasses {
                positions,
                closure,
                alike: keys.alike,
                headed: keys.headed,
            };
            Ok(Some(NumberedBase { ground, numbering }))
        }
        None => Ok(None),
    }
}

// The first places that have the keys of forms, and those of heads, where rows name one another
// alone.
fn inside_keys(alloc: Global, closure: &Closure) -> Result<Option<FirstPlaces>, AllocError>
    requires { IsExact closure.now }
    ensures inside { IfOk result (λ o. IfSome o (λ _. AreInside closure.now.rows.items)) }
    ensures alike { IfOk result (λ o. IfSome o (λ k. AreFirsts (alike_at closure.now)
        (are_together closure.now.roots.items) (met_at k.alike) (length closure.now.rows.items))) }
    ensures headed { IfOk result (λ o. IfSome o (λ k. AreFirsts (headed_at closure.now)
        (are_together closure.now.roots.items) (met_at k.headed) (length closure.now.rows.items))) }
{
    if !are_inside(&closure.rows) {
        return Ok(None);
    }
    let alike = alike_places(alloc, closure)?;
    let headed = headed_places(alloc, closure)?;
    Ok(Some(FirstPlaces { alike, headed }))
}

// Whether rows name one another alone.
fn are_inside(rows: &[Row]) -> bool
    ensures { IsTrue result → AreInside rows.now }
{
    let count = rows.len() as u64;
    for r in rows {
        if !is_row_below(count, r) {
            return false;
        }
    }
    true
}

// Whether what a row names stands below a bound.
fn is_row_below(bound: u64, r: &Row) -> bool
    ensures { IsTrue result → IsRowBelow bound r.now }
{
    are_below(bound, &r.arguments) && is_element_below(bound, r.element)
}

/// Whether numbers are below a bound.
pub(crate) fn are_below(bound: u64, places: &[u64]) -> bool
    ensures { IsTrue result → AreBelow bound places.now }
{
    for p in places {
        if *p >= bound {
            return false;
        }
    }
    true
}

// Whether the places that an element names are below a bound.
fn is_element_below(bound: u64, element: Option<Element>) -> bool
    ensures { IsTrue result → IsElementBelow bound element }
{
    match element {
        Some(e) => are_below(bound, &[e.index, e.written, e.other, e.before]),
        None => true,
    }
}
