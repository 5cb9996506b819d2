// Moments of runs, and what a node does to them.
use crate::error::DrawingError;
use crate::running::{Bound, Leave, is_true, run_statement};
use crate::sides::{copy_stores, start_stores, store_at};
use sm_eval::Store;
use sm_syntax::{Cond, CopyName, PerCopy, Stmt};
use std::alloc::{AllocError, Global};

/// The four stores that the runs from an input have at a node. The input is named by its place.
#[derive(Drop)]
pub(crate) struct Moment {
    pub(crate) input: usize,
    pub(crate) stores: PerCopy<Store>,
}

/// The moments of the runs that come to a node.
#[derive(Drop)]
pub(crate) struct Moments {
    pub(crate) list: Vec<Moment>,
}

/// No moments.
pub(crate) fn no_moments(alloc: Global) -> Moments {
    Moments {
        list: Vec::new(alloc),
    }
}

/// A moment with the values of another.
pub(crate) fn copy_moment(alloc: Global, moment: &Moment) -> Result<Moment, AllocError> {
    Ok(Moment {
        input: moment.input,
        stores: copy_stores(alloc, &moment.stores)?,
    })
}

/// The moments at the start of the programs.
pub(crate) fn start_moments(alloc: Global, inputs: &[Store]) -> Result<Moments, AllocError> {
    let mut list = Vec::new(alloc);
    for input in 0..inputs.len() {
        let stores = start_stores(alloc, &inputs[input])?;
        list.push(Moment { input, stores })?;
    }
    Ok(Moments { list })
}

/// Whether a run went on. One that is left for want of memory stops all.
pub(crate) fn went_on(end: Result<(), Leave>) -> Result<bool, DrawingError> {
    match end {
        Ok(()) => Ok(true),
        Err(Leave::Event) => Ok(false),
        Err(Leave::Memory) => Err(DrawingError::Memory),
    }
}

/// Whether a condition holds in a store, none where it can't be computed.
pub(crate) fn truth_at(guard: &Cond, store: &Store) -> Result<Option<bool>, DrawingError> {
    match is_true(guard, store) {
        Ok(holds) => Ok(Some(holds)),
        Err(Leave::Event) => Ok(None),
        Err(Leave::Memory) => Err(DrawingError::Memory),
    }
}

/// The moments after a statement of a copy.
pub(crate) fn after_statement(
    alloc: Global,
    moments: Moments,
    copy: CopyName,
    statement: &Stmt,
    bound: &mut Bound,
) -> Result<Moments, DrawingError> {
    let Moments { list } = moments;
    let mut after = no_moments(alloc);
    for moment in list {
        put_after(&mut after, moment, copy, statement, bound)?;
    }
    Ok(after)
}

// Puts a moment after a statement of a copy behind others, where its run goes on.
fn put_after(
    after: &mut Moments,
    moment: Moment,
    copy: CopyName,
    statement: &Stmt,
    bound: &mut Bound,
) -> Result<(), DrawingError> {
    let mut moment = moment;
    if went_on(run_statement(statement, store_at(&mut moment.stores, copy), bound))? {
        after.list.push(moment)?;
        return Ok(());
    }
    Ok(())
}

/// Moments that are parted by a condition.
#[derive(Drop)]
pub(crate) struct Parted {
    pub(crate) one: Moments,
    pub(crate) other: Moments,
}

/// The moments, parted by whether a condition holds in a copy's store.
pub(crate) fn parted_by(
    alloc: Global,
    moments: Moments,
    copy: CopyName,
    guard: &Cond,
) -> Result<Parted, DrawingError> {
    let Moments { list } = moments;
    let mut both = Parted {
        one: no_moments(alloc),
        other: no_moments(alloc),
    };
    for moment in list {
        put_parted(&mut both, moment, copy, guard)?;
    }
    Ok(both)
}

// Puts a moment behind those for which a condition holds, or behind the others. Where the condition
// can't be computed, the moment is left out.
fn put_parted(
    both: &mut Parted,
    moment: Moment,
    copy: CopyName,
    guard: &Cond,
) -> Result<(), DrawingError> {
    let Some(holds) = truth_at(guard, moment.stores.get(copy))? else {
        return Ok(());
    };
    if holds {
        both.one.list.push(moment)?;
    } else {
        both.other.list.push(moment)?;
    }
    Ok(())
}
