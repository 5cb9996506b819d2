// The numbers of columns at visits.
use crate::columns::Columns;
use crate::scene::{Scene, View, number_at, view_at};
use sm_term::TermTable;
use std::alloc::{AllocError, Global};

/// How many rows there are at most.
pub(crate) const MOST_ROWS: usize = 400;

// The numbers of the columns at a visit, None where one can't be told.
fn row_at(
    alloc: Global,
    table: &TermTable,
    scene: &Scene<'_>,
    columns: &Columns,
    view: &View<'_>,
) -> Result<Option<Vec<i128>>, AllocError> {
    let mut row = Vec::new(alloc);
    for t in &columns.terms {
        match number_at(table, scene, view, 0, *t) {
            Some(z) => row.push(z)?,
            None => return Ok(None),
        }
    }
    Ok(Some(row))
}

// The row at a place, where there is one.
fn row_at_place(
    alloc: Global,
    table: &TermTable,
    scene: &Scene<'_>,
    columns: &Columns,
    place: usize,
) -> Result<Option<Vec<i128>>, AllocError> {
    match view_at(scene, place) {
        Some(view) => row_at(alloc, table, scene, columns, &view),
        None => Ok(None),
    }
}

// Where one of so many parts of a list begins.
fn spread(i: usize, count: usize, parts: usize) -> Option<usize> {
    i.checked_mul(count)?.checked_div(parts)
}

/// The numbers of the columns at some of the visits at these places, spread.
pub(crate) fn rows_at(
    alloc: Global,
    table: &TermTable,
    scene: &Scene<'_>,
    columns: &Columns,
    places: &[usize],
) -> Result<Vec<Vec<i128>>, AllocError> {
    let count = places.len();
    let taken = count.min(MOST_ROWS);
    let mut rows = Vec::new(alloc);
    for i in 0..taken {
        if let Some(at) = spread(i, count, taken) {
            if let Some(place) = places.get(at) {
                if let Some(row) = row_at_place(alloc, table, scene, columns, *place)? {
                    rows.push(row)?;
                }
            }
        }
    }
    Ok(rows)
}
