// The values that terms have at a visit.
use crate::names::COPIES;
use crate::states::LoopState;
use crate::terms::{Operation, cell_of, cells_of, number_of, term_at};
use crate::visits::{Entry, Visit, Visits};
use sm_eval::Store;
use sm_syntax::{CopyName, Decls, Name, Sort};
use sm_term::{Term, TermId, TermTable};
use std::alloc::{AllocError, Global};
use std::collections::HashMap;

/// A name of a copy.
#[derive(Clone, Copy)]
pub(crate) struct CopyCell {
    pub(crate) copy: CopyName,
    pub(crate) name: Name,
}

/// What runs show at a site: the visits, the indices at which formulas about cells are tried at
/// each of them, and the terms that the copies have there for their numbers as they enter.
pub(crate) struct Scene<'s> {
    pub(crate) inputs: &'s [Store],
    pub(crate) visits: &'s Visits,
    pub(crate) cells: Vec<Vec<i128>>,
    pub(crate) entered: HashMap<u64, CopyCell>,
}

// One call ends a value, and not one for each field: proofs of what has it stay small.
impl Drop for Scene<'_> {
    fn drop(self) {
        let Self {
            inputs: _,
            visits: _,
            cells: _,
            entered: _,
        } = self;
    }
}

/// A visit with its entry and the input of its runs.
#[derive(Clone, Copy)]
pub(crate) struct View<'s> {
    input: &'s Store,
    entry: &'s Entry,
    visit: &'s Visit,
}

// How many indices are tried at a visit at most.
const MOST_CELLS: usize = 64;

/// Whether a term is a literal.
pub(crate) fn is_literal(table: &TermTable, t: TermId) -> bool {
    match term_at(table, t) {
        Some(Term::Lit(_)) => true,
        _ => false,
    }
}

// Notes the term of a copy's number at the entry, where it is none yet, and no literal.
fn note_term(
    table: &TermTable,
    entered: &mut HashMap<u64, CopyCell>,
    t: TermId,
    cell: CopyCell,
) -> Result<(), AllocError> {
    if !is_literal(table, t) && !entered.contains_key(&t.0) {
        entered.insert(t.0, cell)?;
    }
    Ok(())
}

// Notes the terms of a copy's numbers at the entry.
fn note_copy(
    table: &TermTable,
    entered: &mut HashMap<u64, CopyCell>,
    decls: &Decls,
    state: &LoopState<'_>,
    copy: CopyName,
) -> Result<(), AllocError> {
    let terms = state.stores.get(copy).list.as_slice();
    for d in &decls.list {
        let (name, sort) = *d;
        if let (Sort::Num, Some(t)) = (sort, terms.get(name.0 as usize)) {
            note_term(table, entered, *t, CopyCell { copy, name })?;
        }
    }
    Ok(())
}

// The terms that the copies have for their numbers at the entry.
fn terms_entered(
    alloc: Global,
    table: &TermTable,
    decls: &Decls,
    state: &LoopState<'_>,
) -> Result<HashMap<u64, CopyCell>, AllocError> {
    let mut entered = HashMap::new(alloc);
    for copy in COPIES {
        note_copy(table, &mut entered, decls, state, copy)?;
    }
    Ok(entered)
}

// The indices at which formulas about cells are tried at each visit.
fn all_cells(
    alloc: Global,
    decls: &Decls,
    inputs: &[Store],
    visits: &Visits,
) -> Result<Vec<Vec<i128>>, AllocError> {
    let mut cells = Vec::new(alloc);
    for place in 0..visits.list.len() {
        cells.push(cells_at(alloc, decls, inputs, visits, place)?)?;
    }
    Ok(cells)
}

/// The scene of a site.
pub(crate) fn scene_of<'s>(
    alloc: Global,
    table: &TermTable,
    decls: &Decls,
    state: &LoopState<'_>,
    inputs: &'s [Store],
    visits: &'s Visits,
) -> Result<Scene<'s>, AllocError> {
    let cells = all_cells(alloc, decls, inputs, visits)?;
    let entered = terms_entered(alloc, table, decls, state)?;
    Ok(Scene {
        inputs,
        visits,
        cells,
        entered,
    })
}

/// The visit at a place, with its entry and input.
pub(crate) fn view_at<'s>(scene: &Scene<'s>, place: usize) -> Option<View<'s>> {
    view_of(scene.inputs, scene.visits, place)
}

// The visit at a place of those of runs from inputs, with its entry and input.
fn view_of<'s>(inputs: &'s [Store], visits: &'s Visits, place: usize) -> Option<View<'s>> {
    let visit = visits.list.get(place)?;
    let entry = visits.entries.get(visit.entry)?;
    let input = inputs.get(entry.input)?;
    Some(View {
        input,
        entry,
        visit,
    })
}

// The array that a term stands for: its store and its name.
fn array_at<'s>(table: &TermTable, view: &View<'s>, t: TermId) -> Option<(&'s Store, Name)> {
    match term_at(table, t) {
        Some(Term::Slot { copy, name }) => {
            Some((view.visit.stores.get(CopyName::of_number(*copy)), *name))
        }
        Some(Term::Start(name)) => Some((view.input, *name)),
        _ => None,
    }
}

// The cells of the array that a term stands for.
fn array_cells<'s>(table: &TermTable, view: &View<'s>, t: TermId) -> Option<&'s [(i128, i128)]> {
    let (store, name) = array_at(table, view, t)?;
    cells_of(store, name)
}

/// Whether two terms stand for the same array, none where that can't be told.
pub(crate) fn are_same_arrays(
    table: &TermTable,
    view: &View<'_>,
    t: TermId,
    u: TermId,
) -> Option<bool> {
    let cells = array_cells(table, view, t)?;
    let others = array_cells(table, view, u)?;
    Some(cells == others)
}

// The number that a term without parts has at a visit and a cell, where it has one.
fn leaf_number(view: &View<'_>, cell: i128, term: &Term) -> Option<i128> {
    match term {
        Term::Lit(z) => Some(*z),
        Term::Cell => Some(cell),
        Term::Start(name) => number_of(view.input, *name),
        Term::Slot { copy, name } => {
            number_of(view.visit.stores.get(CopyName::of_number(*copy)), *name)
        }
        _ => None,
    }
}

// The number at an index of the array that a term stands for, where both are there.
fn number_in(table: &TermTable, view: &View<'_>, t: TermId, index: Option<i128>) -> Option<i128> {
    let (store, name) = array_at(table, view, t)?;
    cell_of(store, name, index?)
}

// The sum, the difference or the product of a number and another, where that is there and the outcome
// is inside 128 bits.
fn computed(operation: Operation, y: i128, z: Option<i128>) -> Option<i128> {
    let z = z?;
    match operation {
        Operation::Add => y.checked_add(z),
        Operation::Sub => y.checked_sub(z),
        Operation::Mul => y.checked_mul(z),
        Operation::Read => None,
    }
}

/// The number that a term has at a visit and a cell, where it has one inside 128 bits.
pub(crate) fn number_at(
    table: &TermTable,
    scene: &Scene<'_>,
    view: &View<'_>,
    cell: i128,
    t: TermId,
) -> Option<i128> {
    if let Some(at) = scene.entered.get(&t.0) {
        return number_of(view.entry.stores.get(at.copy), at.name);
    }
    match term_at(table, t)? {
        Term::Read(a, i) => {
            let index = number_at(table, scene, view, cell, *i);
            number_in(table, view, *a, index)
        }
        Term::Neg(a) => {
            let z = number_at(table, scene, view, cell, *a);
            computed(Operation::Sub, 0, z)
        }
        Term::Add(a, b) => {
            let y = number_at(table, scene, view, cell, *a)?;
            let z = number_at(table, scene, view, cell, *b);
            computed(Operation::Add, y, z)
        }
        Term::Sub(a, b) => {
            let y = number_at(table, scene, view, cell, *a)?;
            let z = number_at(table, scene, view, cell, *b);
            computed(Operation::Sub, y, z)
        }
        Term::Mul(a, b) => {
            let y = number_at(table, scene, view, cell, *a)?;
            let z = number_at(table, scene, view, cell, *b);
            computed(Operation::Mul, y, z)
        }
        leaf => leaf_number(view, cell, leaf),
    }
}

// Puts the indices of an array's cells behind others, where they are new.
fn put_cells(list: &mut Vec<i128>, cells: &[(i128, i128)]) -> Result<(), AllocError> {
    for (i, _) in cells {
        if list.len() < MOST_CELLS && !list.contains(i) {
            list.push(*i)?;
        }
    }
    Ok(())
}

// Puts the indices of a store's arrays behind others, where they are new.
fn put_indices(list: &mut Vec<i128>, decls: &Decls, store: &Store) -> Result<(), AllocError> {
    for d in &decls.list {
        if let Some(cells) = cells_of(store, d.0) {
            put_cells(list, cells)?;
        }
    }
    Ok(())
}

// The indices at which formulas about cells are tried at the visit at a place.
fn cells_at(
    alloc: Global,
    decls: &Decls,
    inputs: &[Store],
    visits: &Visits,
    place: usize,
) -> Result<Vec<i128>, AllocError> {
    let mut list = vec![in alloc; -1, 0, 99]?;
    if let Some(view) = view_of(inputs, visits, place) {
        for copy in COPIES {
            put_indices(&mut list, decls, view.visit.stores.get(copy))?;
        }
        put_indices(&mut list, decls, view.input)?;
    }
    Ok(list)
}
