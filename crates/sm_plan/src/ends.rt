// Nodes that open no state: at the ends of all copies, and where the facts can't be.
ghost use Rattle.std.specs.Prelude.{◌≡◌, Some, ◌∷◌, [], IfOk};
ghost use Rattle.sm_syntax.specs.trees.Copies.{of_copy};
ghost use Rattle.sm_term.specs.Assertions as formula;
ghost use Rattle.sm_term.specs.Slots.{all_at_stores};
ghost use Rattle.sm_term.specs.Tables.{trees_in, sorts_in};
ghost use Rattle.sm_term.specs.TableLaws.{ExtendsTable};
ghost use Rattle.sm_plan.specs.Copies.{each};
ghost use Rattle.sm_plan.specs.Nodes as plan;
ghost use Rattle.sm_plan.specs.Openings.{IsOpening};
ghost use Rattle.sm_plan.specs.ReadyStates.{IsStateReady};
ghost use Rattle.sm_plan.specs.Statements.{is_over};
ghost use Rattle.sm_plan.specs.Views.{rest_code, state_in};

use crate::opening::Opened;
use crate::rest::Continuation;
use crate::slots::at_stores;
use crate::state::SymState;
use crate::successors::one_formula;
use sm_syntax::PerCopy;
use sm_term::{Formula, TermTable};
use std::alloc::{AllocError, Global};

// Whether all copies are at their ends.
fn all_over(rests: &PerCopy<Continuation<'_>>) -> bool
    ensures { result ≡ each (λ c. is_over (rest_code (of_copy rests.now c))) }
{
    rests.base.is_over()
        && rests.variant_a.is_over()
        && rests.variant_b.is_over()
        && rests.candidate.is_over()
}

// What the ends of all copies ask: the target.
pub(crate) fn open_end<'a>(
    alloc: Global,
    table: &mut TermTable,
    state: SymState<'a>,
) -> Result<Option<Opened<'a>>, AllocError>
    requires { IsStateReady (sorts_in table.old) (trees_in table.old) state }
    ensures opened { let sorts = sorts_in table.old in let trees = trees_in table.old in
        IfOk result (IsOpening table.old table.new state.entry (λ facts.
        let st = state_in sorts trees facts state.entry in
        plan.where_true (each (λ c. is_over (st.rest c)))
        (plan.asks (all_at_stores st.stores st.target)))) }
    ensures widens { ExtendsTable table.old table.new }
{
    if !all_over(&state.rests) {
        return Ok(None);
    }
    let goals = at_stores(alloc, table, &state.stores, &state.target.list)?;
    Ok(Some(Opened {
        goals,
        stores: state.into_stores(),
        states: Vec::new(alloc),
    }))
}

// What is asked where the facts can't be.
pub(crate) fn open_dead<'a>(
    alloc: Global,
    table: &TermTable,
    state: SymState<'a>,
) -> Result<Option<Opened<'a>>, AllocError>
    requires { IsStateReady (sorts_in table.now) (trees_in table.now) state }
    ensures opened { IfOk result (IsOpening table.now table.now state.entry (λ facts.
        Some (plan.asks (formula.No ∷ [])))) }
{
    let goals = one_formula(alloc, Formula::No)?;
    Ok(Some(Opened {
        goals,
        stores: state.into_stores(),
        states: Vec::new(alloc),
    }))
}
