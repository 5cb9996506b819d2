// The guards of loops as formulas over places.
ghost use Rattle.sm_term.specs.TableLaws.{AddsTerms};

use crate::forms::form_in;
use crate::names::COPIES;
use crate::states::LoopState;
use crate::terms::unless_wrong;
use sm_moves::has;
use sm_syntax::{Cond, CopyName, PerCopy};
use sm_term::{Formula, SymStore, TermTable};
use std::alloc::{AllocError, Global};

/// The guards of the loops of a state, and the comparisons in them.
#[derive(Drop)]
pub(crate) struct Guards {
    pub(crate) whole: Vec<Formula>,
    pub(crate) comparisons: Vec<Formula>,
}

// Puts the formula of a condition behind others, where it can be made.
fn put_form(
    alloc: Global,
    table: &mut TermTable,
    list: &mut Vec<Formula>,
    places: &SymStore,
    c: &Cond,
) -> Result<(), AllocError>
    ensures { AddsTerms table.old table.new }
{
    if let Some(f) = unless_wrong(form_in(alloc, table, places, c))? {
        list.push(f)?;
    }
    Ok(())
}

// Puts the comparisons of a condition behind others.
fn put_comparisons(
    alloc: Global,
    table: &mut TermTable,
    list: &mut Vec<Formula>,
    places: &SymStore,
    c: &Cond,
) -> Result<(), AllocError>
    ensures { AddsTerms table.old table.new }
{
    match c {
        Cond::Yes => Ok(()),
        Cond::No => Ok(()),
        Cond::Cmp(_, _, _) => put_form(alloc, table, list, places, c),
        Cond::Not(b) => put_comparisons(alloc, table, list, places, b),
        Cond::And(b, d) => {
            put_comparisons(alloc, table, list, places, b)?;
            put_comparisons(alloc, table, list, places, d)
        }
        Cond::Or(b, d) => {
            put_comparisons(alloc, table, list, places, b)?;
            put_comparisons(alloc, table, list, places, d)
        }
    }
}

// Adds the guard of the loop of a copy, where the loop is of the set.
fn add_guard(
    alloc: Global,
    table: &mut TermTable,
    guards: &mut Guards,
    places: &PerCopy<SymStore>,
    state: &LoopState<'_>,
    copy: CopyName,
) -> Result<(), AllocError>
    ensures { AddsTerms table.old table.new }
{
    if !has(state.set, copy) {
        return Ok(());
    }
    let Some((guard, _)) = state.rests.get(copy).first_loop() else {
        return Ok(());
    };
    let places = places.get(copy);
    put_form(alloc, table, &mut guards.whole, places, guard)?;
    put_comparisons(alloc, table, &mut guards.comparisons, places, guard)
}

/// The guards of the loops of a state.
pub(crate) fn guards_of(
    alloc: Global,
    table: &mut TermTable,
    places: &PerCopy<SymStore>,
    state: &LoopState<'_>,
) -> Result<Guards, AllocError>
    ensures { AddsTerms table.old table.new }
{
    let mut guards = Guards {
        whole: Vec::new(alloc),
        comparisons: Vec::new(alloc),
    };
    for copy in COPIES {
        add_guard(alloc, table, &mut guards, places, state, copy)?;
    }
    Ok(guards)
}
