// The new values and summaries of states.
ghost use Rattle.std.specs.Prelude.{◌≡◌, ◌<◌, None, length, nat_eq, OnOk};
ghost use Rattle.std.specs.HashMap.{get};
ghost use Rattle.sm_syntax.specs.trees.Copies.{copy_named};
ghost use Rattle.sm_term.specs.SymStores.{store_in};
ghost use Rattle.sm_term.specs.Tables.{trees_in, sorts_in, tree_at, AreBefore};
ghost use Rattle.sm_plan.specs.ReadyStates.{AreStoresReady, IsStoreReady};
ghost use Rattle.sm_write.specs.Held as held;
ghost use Rattle.sm_write.specs.Held.{NamesOne, NamesHeld, NamesStore, NamesState};
ghost use Rattle.sm_write.specs.Values.{value_of};

use crate::writer::{Writer, add_term};
use sm_proof::TermLine;
use sm_syntax::{CopyName, PerCopy};
use sm_term::{SymStore, Term, TermId, TermTable};
use std::alloc::AllocError;

// Whether a term is a new value or a summary.
fn is_atom(table: &TermTable, t: TermId) -> bool
    requires { t.0 < length (trees_in table.now) }
    ensures { result ≡ held.is_atom (tree_at (trees_in table.now) t.0) }
{
    match table.get(t) {
        Term::Havoc { .. } => true,
        Term::Fun { .. } => true,
        Term::Lit(_) => false,
        Term::Start(_) => false,
        Term::Slot { .. } => false,
        Term::Cell => false,
        Term::Read(_, _) => false,
        Term::Write(_, _, _) => false,
        Term::Neg(_) => false,
        Term::Add(_, _) => false,
        Term::Sub(_, _) => false,
        Term::Mul(_, _) => false,
    }
}

// Gives a term without a number one, where a copy has it at a name, if it is a new value or a
// summary.
fn name_open(
    w: &mut Writer,
    table: &TermTable,
    copy: CopyName,
    x: u64,
    t: TermId,
) -> Result<(), AllocError>
    requires inside { t.0 < length (trees_in table.now) }
    requires open { get nat_eq w.old.names t.0 ≡ None }
    ensures { OnOk result
        (NamesOne table.now (value_of w.old) (value_of w.new) (copy_named copy) x t) }
{
    if !is_atom(table, t) {
        return Ok(());
    }
    let number = copy.number();
    add_term(
        w,
        t,
        TermLine::Cur {
            copy: number,
            name: x,
        },
    )?;
    Ok(())
}

// Gives a number to any term.
fn name_one(
    w: &mut Writer,
    table: &TermTable,
    copy: CopyName,
    x: u64,
    t: TermId,
) -> Result<(), AllocError>
    requires { t.0 < length (trees_in table.now) }
    ensures { OnOk result
        (NamesOne table.now (value_of w.old) (value_of w.new) (copy_named copy) x t) }
{
    match w.names.get(&t.0) {
        Some(_) => Ok(()),
        None => name_open(w, table, copy, x, t),
    }
}

// Gives numbers to the terms of a copy's first names.
fn name_held(
    w: &mut Writer,
    table: &TermTable,
    copy: CopyName,
    terms: &[TermId],
) -> Result<(), AllocError>
    requires { AreBefore (length (trees_in table.now)) terms.now }
    ensures { OnOk result (NamesHeld table.now (value_of w.old) (value_of w.new)
        (copy_named copy) terms.now (length terms.now)) }
{
    for x in 0..terms.len() {
        name_one(w, table, copy, x as u64, terms[x])?;
    }
    Ok(())
}

// Gives numbers to the terms of a copy's store.
fn name_store(
    w: &mut Writer,
    table: &TermTable,
    copy: CopyName,
    store: &SymStore,
) -> Result<(), AllocError>
    requires { IsStoreReady (sorts_in table.now) (trees_in table.now) store.now }
    ensures { OnOk result (NamesStore table.now (value_of w.old) (value_of w.new)
        (copy_named copy) (store_in (trees_in table.now) store.now)) }
{
    name_held(w, table, copy, store.list.as_slice())
}

/// Gives the new values and summaries in a state's stores numbers, where they have none.
pub(crate) fn name_state(
    w: &mut Writer,
    table: &TermTable,
    stores: &PerCopy<SymStore>,
) -> Result<(), AllocError>
    requires { AreStoresReady (sorts_in table.now) (trees_in table.now) stores.now }
    ensures { OnOk result (NamesState table.now (value_of w.old) (value_of w.new) stores.now) }
{
    name_store(w, table, CopyName::O, &stores.base)?;
    name_store(w, table, CopyName::A, &stores.variant_a)?;
    name_store(w, table, CopyName::B, &stores.variant_b)?;
    name_store(w, table, CopyName::M, &stores.candidate)?;
    Ok(())
}
