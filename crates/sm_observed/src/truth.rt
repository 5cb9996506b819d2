// Whether formulas hold at visits.
use crate::scene::{Scene, View, are_same_arrays, number_at, view_at};
use crate::terms::{sort_at, term_at};
use sm_syntax::Sort;
use sm_term::{Formula, Term, TermId, TermTable};

// Whether two terms are equal at a visit and a cell, none where that can't be told.
fn are_equal(
    table: &TermTable,
    scene: &Scene<'_>,
    view: &View<'_>,
    cell: i128,
    t: TermId,
    u: TermId,
) -> Option<bool> {
    if sort_at(table, t)? == Sort::Arr {
        return are_same_arrays(table, view, t, u);
    }
    let a = number_at(table, scene, view, cell, t)?;
    let b = number_at(table, scene, view, cell, u)?;
    Some(a == b)
}

/// Whether a formula holds at a visit and a cell, none where that can't be told.
pub(crate) fn truth_at(
    table: &TermTable,
    scene: &Scene<'_>,
    view: &View<'_>,
    cell: i128,
    f: &Formula,
) -> Option<bool> {
    match f {
        Formula::Yes => Some(true),
        Formula::No => Some(false),
        Formula::Eq(t, u) => are_equal(table, scene, view, cell, *t, *u),
        Formula::Ne(t, u) => {
            let equal = are_equal(table, scene, view, cell, *t, *u)?;
            Some(!equal)
        }
        Formula::Le(t, u) => {
            let a = number_at(table, scene, view, cell, *t)?;
            let b = number_at(table, scene, view, cell, *u)?;
            Some(a <= b)
        }
        Formula::Lt(t, u) => {
            let a = number_at(table, scene, view, cell, *t)?;
            let b = number_at(table, scene, view, cell, *u)?;
            Some(a < b)
        }
        Formula::And(p, q) => {
            if truth_at(table, scene, view, cell, p)? {
                truth_at(table, scene, view, cell, q)
            } else {
                Some(false)
            }
        }
        Formula::Or(p, q) => {
            if truth_at(table, scene, view, cell, p)? {
                Some(true)
            } else {
                truth_at(table, scene, view, cell, q)
            }
        }
    }
}

// Whether a term speaks of a cell. What the copies enter with doesn't, and isn't gone into: such
// terms may be large.
fn has_cell(table: &TermTable, scene: &Scene<'_>, t: TermId) -> bool {
    if scene.entered.contains_key(&t.0) {
        return false;
    }
    match term_at(table, t) {
        Some(Term::Cell) => true,
        Some(Term::Read(a, i)) => has_cell(table, scene, *a) || has_cell(table, scene, *i),
        Some(Term::Neg(a)) => has_cell(table, scene, *a),
        Some(Term::Add(a, b)) => has_cell(table, scene, *a) || has_cell(table, scene, *b),
        Some(Term::Sub(a, b)) => has_cell(table, scene, *a) || has_cell(table, scene, *b),
        Some(Term::Mul(a, b)) => has_cell(table, scene, *a) || has_cell(table, scene, *b),
        _ => false,
    }
}

// Whether one of two terms speaks of a cell.
fn have_cell(table: &TermTable, scene: &Scene<'_>, t: TermId, u: TermId) -> bool {
    has_cell(table, scene, t) || has_cell(table, scene, u)
}

// Whether a formula speaks of a cell.
fn speaks_of_cell(table: &TermTable, scene: &Scene<'_>, f: &Formula) -> bool {
    match f {
        Formula::Yes | Formula::No => false,
        Formula::Eq(t, u) | Formula::Ne(t, u) => have_cell(table, scene, *t, *u),
        Formula::Le(t, u) | Formula::Lt(t, u) => have_cell(table, scene, *t, *u),
        Formula::And(p, q) | Formula::Or(p, q) => {
            speaks_of_cell(table, scene, p) || speaks_of_cell(table, scene, q)
        }
    }
}

// Whether a formula holds at a visit and a cell, where that can be told.
fn holds(table: &TermTable, scene: &Scene<'_>, view: &View<'_>, cell: i128, f: &Formula) -> bool {
    match truth_at(table, scene, view, cell, f) {
        Some(truth) => truth,
        None => false,
    }
}

// Whether a formula holds at the visit at a place, and each cell that is tried there.
fn holds_at_cells(
    table: &TermTable,
    scene: &Scene<'_>,
    view: &View<'_>,
    place: usize,
    f: &Formula,
) -> bool {
    if let Some(cells) = scene.cells.get(place) {
        for cell in cells {
            if !holds(table, scene, view, *cell, f) {
                return false;
            }
        }
    }
    true
}

// Whether a formula holds at the visit at a place, and each cell, where it speaks of cells.
fn holds_at_view(
    table: &TermTable,
    scene: &Scene<'_>,
    view: &View<'_>,
    place: usize,
    f: &Formula,
    of_cells: bool,
) -> bool {
    if of_cells {
        holds_at_cells(table, scene, view, place, f)
    } else {
        holds(table, scene, view, 0, f)
    }
}

/// Whether a formula holds at each visit, and at each cell that is tried there.
pub(crate) fn holds_at_all(table: &TermTable, scene: &Scene<'_>, f: &Formula) -> bool {
    let of_cells = speaks_of_cell(table, scene, f);
    for place in 0..scene.visits.list.len() {
        if let Some(view) = view_at(scene, place) {
            if !holds_at_view(table, scene, &view, place, f, of_cells) {
                return false;
            }
        }
    }
    true
}
