// Candidates that are affine equalities, also under a guard.
ghost use Rattle.sm_term.specs.TableLaws.{AddsTerms};

use crate::clauses::clause_of;
use crate::columns::Columns;
use crate::filter::{is_in, put_new};
use crate::guards::Guards;
use crate::rows::rows_at;
use crate::scene::{Scene, view_at};
use crate::sums::put_equality;
use crate::truth::truth_at;
use sm_affine::{Equality, equalities};
use sm_term::{Formula, TermTable};
use std::alloc::{AllocError, Global};

/// What runs show at a site, and the columns among which equalities are looked for.
#[derive(Drop)]
pub(crate) struct Sight<'s> {
    pub(crate) scene: &'s Scene<'s>,
    pub(crate) columns: &'s Columns,
}

// The fewest visits that suggest what holds under a guard.
const FEWEST: usize = 8;

// The places of all visits.
fn all_places(alloc: Global, scene: &Scene<'_>) -> Result<Vec<usize>, AllocError> {
    let mut places = Vec::new(alloc);
    for place in 0..scene.visits.list.len() {
        places.push(place)?;
    }
    Ok(places)
}

// Whether a formula holds at the visit at a place, or doesn't, where that can be told.
fn is_truth_at(
    table: &TermTable,
    scene: &Scene<'_>,
    place: usize,
    f: &Formula,
    wanted: bool,
) -> bool {
    let Some(view) = view_at(scene, place) else {
        return false;
    };
    match truth_at(table, scene, &view, 0, f) {
        Some(truth) => truth == wanted,
        None => false,
    }
}

// The places of the visits at which a formula holds, or at which it doesn't.
fn places_where(
    alloc: Global,
    table: &TermTable,
    scene: &Scene<'_>,
    f: &Formula,
    wanted: bool,
) -> Result<Vec<usize>, AllocError> {
    let mut places = Vec::new(alloc);
    for place in 0..scene.visits.list.len() {
        if is_truth_at(table, scene, place, f, wanted) {
            places.push(place)?;
        }
    }
    Ok(places)
}

// The equalities among columns that hold at the visits at some places.
fn equalities_at(
    alloc: Global,
    table: &TermTable,
    sight: &Sight<'_>,
    places: &[usize],
) -> Result<Vec<Equality>, AllocError> {
    let columns = sight.columns;
    let rows = rows_at(alloc, table, sight.scene, columns, places)?;
    equalities(alloc, &rows, columns.first, columns.terms.len())
}

// All forms of equalities among columns.
fn formulas_of(
    alloc: Global,
    table: &mut TermTable,
    columns: &Columns,
    found: &[Equality],
) -> Result<Vec<Formula>, AllocError>
    ensures { AddsTerms table.old table.new }
{
    let mut list = Vec::new(alloc);
    for equality in found {
        put_equality(alloc, table, columns, equality, &mut list)?;
    }
    Ok(list)
}

// The equalities that hold at the visits at some places, in all their forms.
fn formulas_at(
    alloc: Global,
    table: &mut TermTable,
    sight: &Sight<'_>,
    places: &[usize],
) -> Result<Vec<Formula>, AllocError>
    ensures { AddsTerms table.old table.new }
{
    let found = equalities_at(alloc, table, sight, places)?;
    formulas_of(alloc, table, sight.columns, &found)
}

/// The affine equalities of all visits.
pub(crate) fn affine_formulas(
    alloc: Global,
    table: &mut TermTable,
    sight: &Sight<'_>,
) -> Result<Vec<Formula>, AllocError>
    ensures { AddsTerms table.old table.new }
{
    let places = all_places(alloc, sight.scene)?;
    formulas_at(alloc, table, sight, &places)
}

// Puts the clauses of a guard and of formulas behind others, but for formulas that are known.
fn put_clauses_of(
    alloc: Global,
    guard: &Formula,
    wanted: bool,
    found: &[Formula],
    known: &[Formula],
    list: &mut Vec<Formula>,
) -> Result<(), AllocError> {
    for f in found {
        if !is_in(known, f) {
            let clause = clause_of(alloc, guard, !wanted, f, true)?;
            put_new(list, clause)?;
        }
    }
    Ok(())
}

// Puts the equalities of the visits at which a guard holds, or doesn't, behind others, but for
// those that are known to hold at all visits.
fn put_under(
    alloc: Global,
    table: &mut TermTable,
    sight: &Sight<'_>,
    guard: &Formula,
    wanted: bool,
    known: &[Formula],
    list: &mut Vec<Formula>,
) -> Result<(), AllocError>
    ensures { AddsTerms table.old table.new }
{
    let places = places_where(alloc, table, sight.scene, guard, wanted)?;
    if places.len() < FEWEST {
        return Ok(());
    }
    let found = formulas_at(alloc, table, sight, &places)?;
    put_clauses_of(alloc, guard, wanted, &found, known, list)
}

// Puts the equalities of the visits at which a guard holds, and of those at which it doesn't, behind
// others, but for those that are known to hold at all visits.
fn put_both_ways(
    alloc: Global,
    table: &mut TermTable,
    sight: &Sight<'_>,
    guard: &Formula,
    known: &[Formula],
    list: &mut Vec<Formula>,
) -> Result<(), AllocError>
    ensures { AddsTerms table.old table.new }
{
    put_under(alloc, table, sight, guard, true, known, list)?;
    put_under(alloc, table, sight, guard, false, known, list)
}

/// Puts equalities under the guards of loops behind others, but for those that are known to hold at
/// all visits.
pub(crate) fn put_guarded(
    alloc: Global,
    table: &mut TermTable,
    sight: &Sight<'_>,
    guards: &Guards,
    known: &[Formula],
    list: &mut Vec<Formula>,
) -> Result<(), AllocError>
    ensures { AddsTerms table.old table.new }
{
    for guard in &guards.whole {
        put_both_ways(alloc, table, sight, guard, known, list)?;
    }
    Ok(())
}
