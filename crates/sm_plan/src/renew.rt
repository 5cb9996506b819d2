// New values for what code assigns.
ghost use Rattle.std.specs.Prelude.{◌≡◌, ℕ, true, length, IfOk, OnOk};
ghost use Rattle.sm_syntax.specs.claim.ConflictFree.{Copy};
ghost use Rattle.sm_syntax.specs.text.Conditions.{is_in};
ghost use Rattle.sm_syntax.specs.text.Sorts.{IsWellSorted};
ghost use Rattle.sm_syntax.specs.trees.Copies.{copy_named, of_copy};
ghost use Rattle.sm_syntax.specs.Assigns.{assigns};
ghost use Rattle.sm_term.specs.Rows.{names_in_list};
ghost use Rattle.sm_term.specs.Sorted.{IsDeclaredIn};
ghost use Rattle.sm_term.specs.SymStores.{store_in, IsStoreWithin};
ghost use Rattle.sm_term.specs.Tables.{trees_in, sorts_in};
ghost use Rattle.sm_term.specs.TableLaws.{AddsTerms};
ghost use Rattle.sm_plan.specs.Heads.{with_new};
ghost use Rattle.sm_plan.specs.ReadyStates.{IsStoreReady, IsStoreFull, AreStoresReady, AreStoresFull};
ghost use Rattle.sm_plan.specs.Successors.{renewed};
ghost use Rattle.sm_plan.specs.Views.{rest_code, stores_in};

use crate::copies::copy_stores;
use crate::rest::Continuation;
use crate::steps::{made, put};
use sm_syntax::{CopyName, Name, PerCopy};
use sm_term::{SymStore, Term, TermTable};
use std::alloc::{AllocError, Global};

// Gives each name of a list its new value of a node.
fn renew(
    table: &mut TermTable,
    number: u64,
    copy: CopyName,
    names: &[Name],
    store: &mut SymStore,
) -> Result<(), AllocError>
    requires declared { (x : ℕ) →
        is_in (names_in_list names.now) x ≡ true → IsDeclaredIn (sorts_in table.old) x }
    requires within { IsStoreWithin (length (trees_in table.old)) store.old }
    requires full { IsStoreFull (sorts_in table.old) store.old }
    ensures made { let old = store_in (trees_in table.old) store.old in
        let new = with_new number (copy_named copy) (is_in (names_in_list names.now)) old in
        OnOk result (store_in (trees_in table.new) store.new ≡ new) }
    ensures within { OnOk result (IsStoreWithin (length (trees_in table.new)) store.new) }
    ensures len { length store.new.list.items ≡ length store.old.list.items }
    ensures grows { AddsTerms table.old table.new }
{
    for name in names {
        let term = Term::Havoc {
            node: number,
            copy: copy.number(),
            name: *name,
        };
        let t = made(table, term)?;
        put(store, *name, t);
    }
    Ok(())
}

// Gives each name that code assigns its new value of a node, in a copy's store.
fn renew_written(
    alloc: Global,
    table: &mut TermTable,
    number: u64,
    copy: CopyName,
    done: &Continuation<'_>,
    store: &mut SymStore,
) -> Result<(), AllocError>
    requires done { IsWellSorted (sorts_in table.old) (rest_code done.now) }
    requires ready { IsStoreReady (sorts_in table.old) (trees_in table.old) store.old }
    requires full { IsStoreFull (sorts_in table.old) store.old }
    ensures made { let old = store_in (trees_in table.old) store.old in
        let new = with_new number (copy_named copy) (assigns (rest_code done.now)) old in
        OnOk result (store_in (trees_in table.new) store.new ≡ new) }
    ensures ready { OnOk result (IsStoreReady (sorts_in table.new) (trees_in table.new) store.new) }
    ensures full { OnOk result (IsStoreFull (sorts_in table.new) store.new) }
    ensures grows { AddsTerms table.old table.new }
{
    let names = done.writes(alloc)?;
    renew(table, number, copy, &names.list, store)?;
    Ok(())
}

// Gives each name that a copy's code assigns its new value of a node, in the stores of all copies.
fn renew_all(
    alloc: Global,
    table: &mut TermTable,
    number: u64,
    done: &PerCopy<Continuation<'_>>,
    stores: &mut PerCopy<SymStore>,
) -> Result<(), AllocError>
    requires done { (c : Copy) →
        IsWellSorted (sorts_in table.old) (rest_code (of_copy done.now c)) }
    requires ready { AreStoresReady (sorts_in table.old) (trees_in table.old) stores.old }
    requires full { AreStoresFull (sorts_in table.old) stores.old }
    ensures made { let old = stores_in (trees_in table.old) stores.old in
        let new = renewed number (λ c. rest_code (of_copy done.now c)) old in
        OnOk result (stores_in (trees_in table.new) stores.new ≡ new) }
    ensures ready { OnOk result
        (AreStoresReady (sorts_in table.new) (trees_in table.new) stores.new) }
    ensures full { OnOk result (AreStoresFull (sorts_in table.new) stores.new) }
    ensures grows { AddsTerms table.old table.new }
{
    let o = CopyName::O;
    renew_written(alloc, table, number, o, &done.base, &mut stores.base)?;
    let a = CopyName::A;
    renew_written(
        alloc,
        table,
        number,
        a,
        &done.variant_a,
        &mut stores.variant_a,
    )?;
    let b = CopyName::B;
    renew_written(
        alloc,
        table,
        number,
        b,
        &done.variant_b,
        &mut stores.variant_b,
    )?;
    let m = CopyName::M;
    renew_written(
        alloc,
        table,
        number,
        m,
        &done.candidate,
        &mut stores.candidate,
    )?;
    Ok(())
}

/// The stores in which each name that a copy's code assigns has a new value of a node.
pub(crate) fn renewed_stores(
    alloc: Global,
    table: &mut TermTable,
    number: u64,
    done: &PerCopy<Continuation<'_>>,
    stores: &PerCopy<SymStore>,
) -> Result<PerCopy<SymStore>, AllocError>
    requires done { (c : Copy) →
        IsWellSorted (sorts_in table.old) (rest_code (of_copy done.now c)) }
    requires ready { AreStoresReady (sorts_in table.old) (trees_in table.old) stores.now }
    requires full { AreStoresFull (sorts_in table.old) stores.now }
    ensures made { let old = stores_in (trees_in table.old) stores.now in
        let new = renewed number (λ c. rest_code (of_copy done.now c)) old in
        IfOk result (λ s. stores_in (trees_in table.new) s ≡ new) }
    ensures ready { IfOk result (λ s. AreStoresReady (sorts_in table.new) (trees_in table.new) s) }
    ensures full { IfOk result (λ s. AreStoresFull (sorts_in table.new) s) }
    ensures grows { AddsTerms table.old table.new }
{
    let mut all = copy_stores(alloc, stores)?;
    renew_all(alloc, table, number, done, &mut all)?;
    Ok(all)
}
