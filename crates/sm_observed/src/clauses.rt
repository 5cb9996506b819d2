// Candidates about few values, bounds to the entry, and clauses of guards.
ghost use Rattle.sm_term.specs.TableLaws.{AddsTerms};

use crate::filter::put_new;
use crate::guards::Guards;
use crate::names::COPIES;
use crate::scene::{Scene, number_at, view_at};
use crate::terms::{literal, unless_wrong};
use sm_syntax::{Name, PerCopy};
use sm_term::{Formula, SymStore, TermError, TermId, TermTable, copy_formula, negate};
use std::alloc::{AllocError, Global};

// The fewest visits that suggest that a name has few values.
const FEWEST: usize = 8;

// How many comparisons of guards are made to clauses at most.
const MOST_COMPARISONS: usize = 32;

/// How many clauses there are at most: four of each two comparisons.
pub(crate) const MOST_CLAUSES: usize = 1984;

// One formula or another.
fn either(alloc: Global, p: Formula, q: Formula) -> Result<Formula, AllocError> {
    let first = Box::new(alloc, p)?;
    let second = Box::new(alloc, q)?;
    Ok(Formula::Or(first, second))
}

// That a formula is as it is to be.
fn wanted_form(alloc: Global, f: &Formula, wanted: bool) -> Result<Formula, AllocError> {
    if wanted {
        copy_formula(alloc, f)
    } else {
        negate(alloc, f)
    }
}

/// That one of two formulas is as it is to be.
pub(crate) fn clause_of(
    alloc: Global,
    p: &Formula,
    p_wanted: bool,
    q: &Formula,
    q_wanted: bool,
) -> Result<Formula, AllocError> {
    let first = wanted_form(alloc, p, p_wanted)?;
    let second = wanted_form(alloc, q, q_wanted)?;
    either(alloc, first, second)
}

// Puts the bounds between a name and what a copy has for it at the entry.
fn put_bounds_at(
    entered: &SymStore,
    places: &SymStore,
    x: Name,
    list: &mut Vec<Formula>,
) -> Result<(), AllocError> {
    let place = x.0 as usize;
    if let (Some(t), Some(u)) = (entered.list.get(place), places.list.get(place)) {
        put_new(list, Formula::Le(*t, *u))?;
        put_new(list, Formula::Le(*u, *t))?;
    }
    Ok(())
}

/// Puts the bounds between the names that loops write and what the copies have for them at the
/// entry.
pub(crate) fn put_bounds(
    entered: &PerCopy<SymStore>,
    places: &PerCopy<SymStore>,
    written: &[Name],
    list: &mut Vec<Formula>,
) -> Result<(), AllocError> {
    for copy in COPIES {
        for x in written {
            put_bounds_at(entered.get(copy), places.get(copy), *x, list)?;
        }
    }
    Ok(())
}

// Puts a number behind others, where it is new. Whether there are two at most then.
fn put_value(values: &mut Vec<i128>, z: i128) -> Result<bool, AllocError> {
    if values.contains(&z) {
        return Ok(true);
    }
    if values.len() >= 2 {
        return Ok(false);
    }
    values.push(z)?;
    Ok(true)
}

// The values that a term has at the visits, none where there are more than two, or one can't be
// told.
fn values_of(
    alloc: Global,
    table: &TermTable,
    scene: &Scene<'_>,
    t: TermId,
) -> Result<Option<Vec<i128>>, AllocError> {
    let mut values = Vec::new(alloc);
    for place in 0..scene.visits.list.len() {
        if let Some(view) = view_at(scene, place) {
            let Some(z) = number_at(table, scene, &view, 0, t) else {
                return Ok(None);
            };
            if !put_value(&mut values, z)? {
                return Ok(None);
            }
        }
    }
    Ok(Some(values))
}

// That a term has a value.
fn has_value(table: &mut TermTable, t: TermId, z: i128) -> Result<Formula, TermError>
    ensures { AddsTerms table.old table.new }
{
    let u = literal(table, z)?;
    Ok(Formula::Eq(t, u))
}

// That a term has one value or another.
fn has_values(
    alloc: Global,
    table: &mut TermTable,
    t: TermId,
    z: i128,
    y: i128,
) -> Result<Formula, TermError>
    ensures { AddsTerms table.old table.new }
{
    let p = has_value(table, t, z)?;
    let q = has_value(table, t, y)?;
    let f = either(alloc, p, q)?;
    Ok(f)
}

// That a term has these values, where they are one or two.
fn values_form(
    alloc: Global,
    table: &mut TermTable,
    t: TermId,
    values: &[i128],
) -> Result<Option<Formula>, AllocError>
    ensures { AddsTerms table.old table.new }
{
    match values {
        [z] => unless_wrong(has_value(table, t, *z)),
        [z, y] => {
            let least = (*z).min(*y);
            let most = (*z).max(*y);
            unless_wrong(has_values(alloc, table, t, least, most))
        }
        _ => Ok(None),
    }
}

// Puts that a term has few values.
fn put_values(
    alloc: Global,
    table: &mut TermTable,
    scene: &Scene<'_>,
    t: TermId,
    list: &mut Vec<Formula>,
) -> Result<(), AllocError>
    ensures { AddsTerms table.old table.new }
{
    let Some(values) = values_of(alloc, table, scene, t)? else {
        return Ok(());
    };
    match values_form(alloc, table, t, &values)? {
        Some(f) => put_new(list, f),
        None => Ok(()),
    }
}

// Puts that a name has few values in a copy.
fn put_values_at(
    alloc: Global,
    table: &mut TermTable,
    scene: &Scene<'_>,
    places: &SymStore,
    x: Name,
    list: &mut Vec<Formula>,
) -> Result<(), AllocError>
    ensures { AddsTerms table.old table.new }
{
    match places.list.get(x.0 as usize) {
        Some(t) => put_values(alloc, table, scene, *t, list),
        None => Ok(()),
    }
}

// Puts that names have few values in a copy.
fn put_values_of(
    alloc: Global,
    table: &mut TermTable,
    scene: &Scene<'_>,
    places: &SymStore,
    names: &[Name],
    list: &mut Vec<Formula>,
) -> Result<(), AllocError>
    ensures { AddsTerms table.old table.new }
{
    for x in names {
        put_values_at(alloc, table, scene, places, *x, list)?;
    }
    Ok(())
}

/// Puts that the names that loops write have few values.
pub(crate) fn put_few_values(
    alloc: Global,
    table: &mut TermTable,
    scene: &Scene<'_>,
    places: &PerCopy<SymStore>,
    written: &[Name],
    list: &mut Vec<Formula>,
) -> Result<(), AllocError>
    ensures { AddsTerms table.old table.new }
{
    if scene.visits.list.len() < FEWEST {
        return Ok(());
    }
    for copy in COPIES {
        put_values_of(alloc, table, scene, places.get(copy), written, list)?;
    }
    Ok(())
}

// Puts a clause of two comparisons.
fn put_clause(
    alloc: Global,
    p: &Formula,
    p_wanted: bool,
    q: &Formula,
    q_wanted: bool,
    list: &mut Vec<Formula>,
) -> Result<(), AllocError> {
    let clause = clause_of(alloc, p, p_wanted, q, q_wanted)?;
    put_new(list, clause)
}

// Puts the four clauses of two comparisons.
fn put_pair(
    alloc: Global,
    p: &Formula,
    q: &Formula,
    list: &mut Vec<Formula>,
) -> Result<(), AllocError> {
    put_clause(alloc, p, true, q, true, list)?;
    put_clause(alloc, p, true, q, false, list)?;
    put_clause(alloc, p, false, q, true, list)?;
    put_clause(alloc, p, false, q, false, list)
}

/// Puts the clauses of two comparisons of guards each.
pub(crate) fn put_clauses(
    alloc: Global,
    guards: &Guards,
    list: &mut Vec<Formula>,
) -> Result<(), AllocError> {
    let all = guards.comparisons.as_slice();
    let count = all.len().min(MOST_COMPARISONS);
    for i in 0..count {
        for j in 0..i {
            if let (Some(p), Some(q)) = (all.get(j), all.get(i)) {
                put_pair(alloc, p, q, list)?;
            }
        }
    }
    Ok(())
}
