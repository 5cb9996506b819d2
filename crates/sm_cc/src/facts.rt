// Given facts by the places of their terms.
ghost use Rattle.std.specs.Prelude.{◌≡◌, [], ◌∷◌, ◌++◌, length, not, if◌then◌else◌, List, IfOk, OnOk};
ghost use Rattle.sm_term.specs.Tables.{trees_in, AreBefore};
ghost use Rattle.sm_theory.specs.Standing.{AreLinearForms};
ghost use Rattle.sm_cc.specs.Views.{ClassesValue, trees_of, AreOfTwoTerms};
ghost use Rattle.sm_cc.specs.Positions.{ArePositions};
ghost use Rattle.sm_cc.specs.Assumed.{placed_fact, placed_equations, placed_contraries, AreClasses};
ghost use Rattle.sm_cc.specs.BaseClasses.{AreAllGiven, AreInside, AreKeyed};
ghost use Rattle.sm_cc.specs.Closures.{IsSound};
ghost use Rattle.sm_cc.specs.Exact.{placed_with};
ghost use Rattle.sm_cc.specs.Growing.{AreGrown};

use crate::classes::GivenFact;
use crate::ground::BaseClasses;
use crate::log::Given;
use crate::places::PlaceClasses;
use crate::positions::Positions;
use crate::row::Row;
use crate::rows::numbered_rows;
use sm_num::LinForm;
use sm_term::{TermId, TermTable};
use std::alloc::{AllocError, Global};

/// The classes of the places of terms, by all that is given of the terms.
pub(crate) fn places_of(
    alloc: Global,
    table: &TermTable,
    forms: &[LinForm],
    terms: &[TermId],
    positions: &Positions,
    facts: &[GivenFact],
) -> Result<PlaceClasses, AllocError>
    requires forms { AreLinearForms (trees_in table.now) forms.now }
    requires counted { length forms.now ≡ length (trees_in table.now) }
    requires before { AreBefore (length (trees_in table.now)) terms.now }
    requires positions { let trees = trees_in table.now in
        ArePositions trees (trees_of trees terms.now) positions.now }
    requires given { AreOfTwoTerms
        (record { table = table.now; terms = terms.now; given = facts.now }) }
    ensures { IfOk result (λ p. AreClasses
        (record { table = table.now; terms = terms.now; given = facts.now }) positions.now p) }
{
    let (rows, _) = numbered_rows(alloc, table, forms, positions, terms)?;
    let (equal, unequal) = placed_facts(alloc, positions, facts)?;
    let places = PlaceClasses::of(alloc, rows, equal, unequal)?;
    Ok(places)
}

/// The classes of places that begin with those of others and have more rows behind them, by all that
/// is given of the terms.
pub(crate) fn places_over(
    alloc: Global,
    ground: &BaseClasses,
    more: Vec<Row>,
    positions: &Positions,
    facts: &[GivenFact],
) -> Result<PlaceClasses, AllocError>
    requires sound { IsSound ground.now.closure }
    requires keyed { AreKeyed ground.now }
    requires inside { AreInside ground.now.closure.rows.items }
    requires equal { let equal = placed_equations positions.now facts.now in
        AreAllGiven ground.now.closure.equal.items equal }
    requires unequal { let unequal = placed_contraries positions.now facts.now in
        AreAllGiven ground.now.closure.unequal.items unequal }
    ensures { let equal = placed_equations positions.now facts.now in
        let unequal = placed_contraries positions.now facts.now in
        IfOk result (λ p. (rows : List Row)
        × AreGrown ground.now.closure.rows.items more.items rows
        × (p ≡ placed_with rows equal unequal)) }
{
    let (equal, unequal) = placed_facts(alloc, positions, facts)?;
    PlaceClasses::over(alloc, ground, more, equal, unequal)
}

/// The equations among given facts and the contraries, each in order.
pub(crate) fn placed_facts(
    alloc: Global,
    positions: &Positions,
    facts: &[GivenFact],
) -> Result<(Vec<Given>, Vec<Given>), AllocError>
    ensures equal { IfOk result (λ p.
        p.0.items ≡ placed_equations positions.now facts.now) }
    ensures unequal { IfOk result (λ p.
        p.1.items ≡ placed_contraries positions.now facts.now) }
{
    let mut equal = Vec::new(alloc);
    let mut unequal = Vec::new(alloc);
    for g in facts {
        note_fact(
            &mut equal,
            &mut unequal,
            g.are_equal,
            placed_fact(positions, *g),
        )?;
    }
    Ok((equal, unequal))
}

// A given fact by the places of its terms.
fn placed_fact(positions: &Positions, g: GivenFact) -> Given
    ensures { result ≡ placed_fact positions.now g }
{
    Given {
        fact: g.number,
        left: positions.place(g.left),
        right: positions.place(g.right),
    }
}

// Adds a given fact to the equations or to the contraries.
fn note_fact(
    equal: &mut Vec<Given>,
    unequal: &mut Vec<Given>,
    are_equal: bool,
    fact: Given,
) -> Result<(), AllocError>
    ensures equal { OnOk result
        (equal.new.items ≡ equal.old.items ++ (if are_equal then fact ∷ [] else [])) }
    ensures unequal { OnOk result
        (unequal.new.items ≡ unequal.old.items ++ (if not are_equal then fact ∷ [] else [])) }
{
    if are_equal {
        equal.push(fact)?;
    } else {
        unequal.push(fact)?;
    }
    Ok(())
}
