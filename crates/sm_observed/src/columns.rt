// The numbers among which equalities are looked for.
ghost use Rattle.sm_term.specs.TableLaws.{AddsTerms};

use crate::names::COPIES;
use crate::reads::put_loop_reads;
use crate::scene::is_literal;
use crate::states::LoopState;
use sm_syntax::{Decls, Name, PerCopy, Sort};
use sm_term::{SymStore, TermId, TermTable};
use std::alloc::{AllocError, Global};

/// Terms of numbers: what the copies enter with, what their loops read, and what they have at the
/// names that the loops write, which are those from `first` on.
#[derive(Drop)]
pub(crate) struct Columns {
    pub(crate) terms: Vec<TermId>,
    pub(crate) first: usize,
}

// How many columns there are at most.
const MOST_COLUMNS: usize = 400;

/// Puts a term behind others, where it is new and they are not too many.
pub(crate) fn put_new(terms: &mut Vec<TermId>, t: TermId) -> Result<(), AllocError> {
    if terms.len() < MOST_COLUMNS && !terms.contains(&t) {
        terms.push(t)?;
    }
    Ok(())
}

// Puts the terms of all numbers with which a copy enters.
fn put_entered(
    table: &TermTable,
    terms: &mut Vec<TermId>,
    decls: &Decls,
    store: &SymStore,
) -> Result<(), AllocError> {
    for d in &decls.list {
        if let Some(t) = store.list.get(d.0.0 as usize) {
            if d.1 == Sort::Num && !is_literal(table, *t) {
                put_new(terms, *t)?;
            }
        }
    }
    Ok(())
}

// Puts the places of names in a copy.
fn put_places(
    terms: &mut Vec<TermId>,
    places: &SymStore,
    names: &[Name],
) -> Result<(), AllocError> {
    for x in names {
        if let Some(t) = places.list.get(x.0 as usize) {
            put_new(terms, *t)?;
        }
    }
    Ok(())
}

// Puts the terms of numbers with which the copies enter, and of what their loops read.
fn put_inputs(
    table: &mut TermTable,
    terms: &mut Vec<TermId>,
    decls: &Decls,
    places: &PerCopy<SymStore>,
    state: &LoopState<'_>,
) -> Result<(), AllocError>
    ensures { AddsTerms table.old table.new }
{
    for copy in COPIES {
        put_entered(table, terms, decls, state.stores.get(copy))?;
    }
    for copy in COPIES {
        put_loop_reads(table, terms, places, state, copy)?;
    }
    Ok(())
}

// Puts the places of names in each copy.
fn put_all_places(
    terms: &mut Vec<TermId>,
    places: &PerCopy<SymStore>,
    names: &[Name],
) -> Result<(), AllocError> {
    for copy in COPIES {
        put_places(terms, places.get(copy), names)?;
    }
    Ok(())
}

/// The columns of a site, where the loops write these names.
pub(crate) fn columns_of(
    alloc: Global,
    table: &mut TermTable,
    decls: &Decls,
    places: &PerCopy<SymStore>,
    state: &LoopState<'_>,
    written: &[Name],
) -> Result<Columns, AllocError>
    ensures { AddsTerms table.old table.new }
{
    let mut terms = Vec::new(alloc);
    put_inputs(table, &mut terms, decls, places, state)?;
    let first = terms.len();
    put_all_places(&mut terms, places, written)?;
    Ok(Columns { terms, first })
}
