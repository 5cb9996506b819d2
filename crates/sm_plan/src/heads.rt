// Loops of a set of copies: their bodies and guards.
ghost use Rattle.std.specs.Prelude.{◌≡◌, ◌++◌, Bool, List, length, option_map, if◌then◌else◌, IfOk, IfSome, OnOk, Some, None};
ghost use Rattle.sm_syntax.specs.claim.ConflictFree.{Copy};
ghost use Rattle.sm_syntax.specs.claim.Syntax.{End};
ghost use Rattle.sm_syntax.specs.text.Sorts.{Sorts, IsWellSorted};
ghost use Rattle.sm_syntax.specs.trees.Copies.{copy_named, of_copy};
ghost use Rattle.sm_term.specs.Assertions as assertions;
ghost use Rattle.sm_term.specs.Formulas.{numbered, assertion_in, IsFormulaWithin};
ghost use Rattle.sm_term.specs.Symbolic as symbolic;
ghost use Rattle.sm_term.specs.SymStores.{store_in};
ghost use Rattle.sm_term.specs.Tables.{trees_in, sorts_in};
ghost use Rattle.sm_term.specs.TableLaws.{AddsTerms};
ghost use Rattle.sm_term.specs.Terms.{Tree};
ghost use Rattle.sm_plan.specs.Copies as plain;
ghost use Rattle.sm_plan.specs.Heads as heads;
ghost use Rattle.sm_plan.specs.Heads.{turned};
ghost use Rattle.sm_plan.specs.Masks.{bit_of, set_of};
ghost use Rattle.sm_plan.specs.ReadyStates.{IsFormReady, AreFormsReady, IsStoreReady};
ghost use Rattle.sm_plan.specs.Statements.{loop_body, loop_guard};
ghost use Rattle.sm_plan.specs.Views.{rest_code, forms_in};

use crate::parts::all_made;
use crate::rest::Continuation;
use crate::state::Formulas;
use sm_syntax::{CopyName, PerCopy};
use sm_term::{Formula, SymStore, TermTable, copy_formula, form_of, negate};
use std::alloc::{AllocError, Global};

// The bit of a copy.
fn bit(copy: CopyName) -> u8
    ensures { result ≡ bit_of (copy_named copy) }
{
    match copy {
        CopyName::O => 1,
        CopyName::A => 2,
        CopyName::B => 4,
        CopyName::M => 8,
    }
}

// Whether the bit of a copy is set.
pub(crate) fn has(mask: u8, copy: CopyName) -> bool
    ensures { result ≡ plain.has (set_of mask) (copy_named copy) }
{
    mask & bit(copy) == bit(copy)
}

// The body of the loop that comes next, nothing where there is none.
fn body_of<'a>(alloc: Global, rest: &Continuation<'a>) -> Result<Continuation<'a>, AllocError>
    ensures { IfOk result (λ r. rest_code r ≡ loop_body (rest_code rest.now)) }
{
    match rest.first_loop() {
        Some((_, body)) => Continuation::of(alloc, body),
        None => Ok(Continuation::empty(alloc)),
    }
}

// The body of a copy's loop where the copy's bit is set, and else nothing.
fn body_in<'a>(
    alloc: Global,
    rest: &Continuation<'a>,
    mask: u8,
    copy: CopyName,
) -> Result<Continuation<'a>, AllocError>
    ensures { IfOk result (λ r. rest_code r
        ≡ (if plain.has (set_of mask) (copy_named copy) then loop_body (rest_code rest.now)
        else End)) }
{
    if has(mask, copy) {
        body_of(alloc, rest)
    } else {
        Ok(Continuation::empty(alloc))
    }
}

/// The body of the loop of each copy whose bit is set, nothing for the others.
pub(crate) fn bodies<'a>(
    alloc: Global,
    rests: &PerCopy<Continuation<'a>>,
    mask: u8,
) -> Result<PerCopy<Continuation<'a>>, AllocError>
    ensures { (c : Copy) → IfOk result (λ p. rest_code (of_copy p c)
        ≡ (if plain.has (set_of mask) c then loop_body (rest_code (of_copy rests.now c))
        else End)) }
{
    all_made(
        body_in(alloc, &rests.base, mask, CopyName::O),
        body_in(alloc, &rests.variant_a, mask, CopyName::A),
        body_in(alloc, &rests.variant_b, mask, CopyName::B),
        body_in(alloc, &rests.candidate, mask, CopyName::M),
    )
}

// The formula of the guard of a copy's loop, where the copy's bit is set.
pub(crate) fn guard(
    alloc: Global,
    table: &mut TermTable,
    rest: &Continuation<'_>,
    store: &SymStore,
    mask: u8,
    copy: CopyName,
) -> Result<Option<Formula>, AllocError>
    requires rest { IsWellSorted (sorts_in table.old) (rest_code rest.now) }
    requires ready { IsStoreReady (sorts_in table.old) (trees_in table.old) store.now }
    ensures made { let s = store_in (trees_in table.old) store.now in
        let f = symbolic.form_of (loop_guard (rest_code rest.now)) s in IfOk result (λ o.
        option_map (λ g. assertion_in (sorts_in table.new) (trees_in table.new) (numbered g)) o
        ≡ (if plain.has (set_of mask) (copy_named copy) then Some f else None)) }
    ensures within { IfOk result (λ o.
        IfSome o (λ g. IsFormulaWithin (length (trees_in table.new)) (numbered g))) }
    ensures grows { AddsTerms table.old table.new }
{
    if !has(mask, copy) {
        return Ok(None);
    }
    match rest.first_loop() {
        Some((guard, _)) => Ok(Some(form_of(alloc, table, guard, store)?)),
        None => Ok(Some(Formula::No)),
    }
}

// A formula, or its negation.
fn fact(alloc: Global, f: &Formula, is_true: bool) -> Result<Formula, AllocError>
    ensures made { (sorts : Sorts) (trees : List Tree) →
        let form = assertion_in sorts trees (numbered f.now) in IfOk result (λ g.
        assertion_in sorts trees (numbered g)
        ≡ (if is_true then form else assertions.negate form)) }
    ensures ready { (sorts : Sorts) (trees : List Tree) →
        IsFormReady sorts trees f.now → IfOk result (IsFormReady sorts trees) }
{
    if is_true {
        copy_formula(alloc, f)
    } else {
        negate(alloc, f)
    }
}

// Puts a guard behind other formulas, or its negation.
fn put_turned(
    alloc: Global,
    list: &mut Vec<Formula>,
    guard: &Option<Formula>,
    is_turning: bool,
) -> Result<(), AllocError>
    ensures made { (sorts : Sorts) (trees : List Tree) →
        let form = option_map (λ f. assertion_in sorts trees (numbered f)) guard.now in
        OnOk result (forms_in sorts trees list.new.items
        ≡ forms_in sorts trees list.old.items ++ turned form is_turning) }
    ensures ready { (sorts : Sorts) (trees : List Tree) →
        IfSome guard.now (IsFormReady sorts trees) →
        AreFormsReady sorts trees list.old.items →
        OnOk result (AreFormsReady sorts trees list.new.items) }
{
    if let Some(f) = guard {
        list.push(fact(alloc, f, is_turning)?)?;
    }
    Ok(())
}

// The guards, each true where its copy takes a turn, and else false.
pub(crate) fn turned_guards(
    alloc: Global,
    guards: &PerCopy<Option<Formula>>,
    turning: u8,
) -> Result<Formulas, AllocError>
    ensures made { (sorts : Sorts) (trees : List Tree) → IfOk result (λ fs.
        forms_in sorts trees fs.list.items
        ≡ heads.turned_guards (heads.guard_forms sorts trees guards.now) (set_of turning)) }
    ensures ready { (sorts : Sorts) (trees : List Tree) →
        heads.AreGuardsReady sorts trees guards.now →
        IfOk result (λ fs. AreFormsReady sorts trees fs.list.items) }
{
    let mut list = Vec::new(alloc);
    put_turned(alloc, &mut list, &guards.base, has(turning, CopyName::O))?;
    put_turned(
        alloc,
        &mut list,
        &guards.variant_a,
        has(turning, CopyName::A),
    )?;
    put_turned(
        alloc,
        &mut list,
        &guards.variant_b,
        has(turning, CopyName::B),
    )?;
    put_turned(
        alloc,
        &mut list,
        &guards.candidate,
        has(turning, CopyName::M),
    )?;
    Ok(Formulas { list })
}
