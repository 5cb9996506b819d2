// Formulas with the present terms of names in place of their slots.
ghost use Rattle.std.specs.Prelude.{◌≡◌, ◌<◌, length, Some, nat_eq, slice_get, IfOk};
ghost use Rattle.std.specs.HashMap.{get};
ghost use Rattle.sm_term.specs.Formulas.{numbered, assertion_in, IsFormulaWithin};
ghost use Rattle.sm_term.specs.Slots as plain;
ghost use Rattle.sm_term.specs.Slots.{fill_term, all_at_stores};
ghost use Rattle.sm_term.specs.Tables.{trees_in, sorts_in, tree_at};
ghost use Rattle.sm_term.specs.TableLaws.{AddsTerms, ExtendsTable};
ghost use Rattle.sm_plan.specs.Filling.{AreKnown};
ghost use Rattle.sm_plan.specs.ReadyStates.{IsFormReady, AreFormsReady, AreStoresReady};
ghost use Rattle.sm_plan.specs.Views.{forms_in, stores_in};

use crate::filling::filled_term;
use crate::state::Formulas;
use sm_syntax::PerCopy;
use sm_term::{Formula, SymStore, TermId, TermTable};
use std::alloc::{AllocError, Global};
use std::collections::HashMap;
use std::rc::Rc;

// The numbers of two terms with their slots replaced.
fn filled_terms(
    alloc: Global,
    table: &mut TermTable,
    stores: &PerCopy<SymStore>,
    known: &mut HashMap<u64, TermId>,
    t: TermId,
    u: TermId,
) -> Result<(TermId, TermId), AllocError>
    requires first { t.0 < length (trees_in table.old) }
    requires second { u.0 < length (trees_in table.old) }
    requires stores { AreStoresReady (sorts_in table.old) (trees_in table.old) stores.now }
    requires known { AreKnown table.old (stores_in (trees_in table.old) stores.now)
        (get nat_eq known.old) }
    ensures first { let trees = trees_in table.old in
        let s = stores_in trees stores.now in IfOk result (λ p.
        slice_get (trees_in table.new) p.0.0 ≡ Some (fill_term s (tree_at trees t.0))) }
    ensures second { let trees = trees_in table.old in
        let s = stores_in trees stores.now in IfOk result (λ p.
        slice_get (trees_in table.new) p.1.0 ≡ Some (fill_term s (tree_at trees u.0))) }
    ensures known { let s = stores_in (trees_in table.new) stores.now in
        IfOk result (λ _. AreKnown table.new s (get nat_eq known.new)) }
    ensures grows { AddsTerms table.old table.new }
{
    let a = filled_term(alloc, table, stores, known, t)?;
    let b = filled_term(alloc, table, stores, known, u)?;
    Ok((a, b))
}

// A formula with its slots replaced.
#[cycle(filled)]
fn filled_form(
    alloc: Global,
    table: &mut TermTable,
    stores: &PerCopy<SymStore>,
    known: &mut HashMap<u64, TermId>,
    f: &Formula,
) -> Result<Formula, AllocError>
    requires form { IsFormReady (sorts_in table.old) (trees_in table.old) f.now }
    requires stores { AreStoresReady (sorts_in table.old) (trees_in table.old) stores.now }
    requires known { AreKnown table.old (stores_in (trees_in table.old) stores.now)
        (get nat_eq known.old) }
    ensures made { let sorts = sorts_in table.old in
        let trees = trees_in table.old in IfOk result (λ g.
        assertion_in (sorts_in table.new) (trees_in table.new) (numbered g)
        ≡ plain.at_stores (stores_in trees stores.now)
        (assertion_in sorts trees (numbered f.now))) }
    ensures within { IfOk result (λ g. IsFormulaWithin (length (trees_in table.new)) (numbered g)) }
    ensures known { let s = stores_in (trees_in table.new) stores.now in
        IfOk result (λ _. AreKnown table.new s (get nat_eq known.new)) }
    ensures grows { AddsTerms table.old table.new }
{
    match f {
        Formula::Yes => Ok(Formula::Yes),
        Formula::No => Ok(Formula::No),
        Formula::Eq(t, u) => {
            let (a, b) = filled_terms(alloc, table, stores, known, *t, *u)?;
            Ok(Formula::Eq(a, b))
        }
        Formula::Ne(t, u) => {
            let (a, b) = filled_terms(alloc, table, stores, known, *t, *u)?;
            Ok(Formula::Ne(a, b))
        }
        Formula::Le(t, u) => {
            let (a, b) = filled_terms(alloc, table, stores, known, *t, *u)?;
            Ok(Formula::Le(a, b))
        }
        Formula::Lt(t, u) => {
            let (a, b) = filled_terms(alloc, table, stores, known, *t, *u)?;
            Ok(Formula::Lt(a, b))
        }
        Formula::And(p, q) => {
            let (a, b) = filled_parts(alloc, table, stores, known, p, q)?;
            Ok(Formula::And(a, b))
        }
        Formula::Or(p, q) => {
            let (a, b) = filled_parts(alloc, table, stores, known, p, q)?;
            Ok(Formula::Or(a, b))
        }
    }
}

// Two formulas with their slots replaced.
#[cycle(filled)]
fn filled_parts(
    alloc: Global,
    table: &mut TermTable,
    stores: &PerCopy<SymStore>,
    known: &mut HashMap<u64, TermId>,
    p: &Formula,
    q: &Formula,
) -> Result<(Box<Formula>, Box<Formula>), AllocError>
    requires first { IsFormReady (sorts_in table.old) (trees_in table.old) p.now }
    requires second { IsFormReady (sorts_in table.old) (trees_in table.old) q.now }
    requires stores { AreStoresReady (sorts_in table.old) (trees_in table.old) stores.now }
    requires known { AreKnown table.old (stores_in (trees_in table.old) stores.now)
        (get nat_eq known.old) }
    ensures first { let sorts = sorts_in table.old in
        let trees = trees_in table.old in IfOk result (λ g.
        assertion_in (sorts_in table.new) (trees_in table.new) (numbered g.0.value)
        ≡ plain.at_stores (stores_in trees stores.now)
        (assertion_in sorts trees (numbered p.now))) }
    ensures second { let sorts = sorts_in table.old in
        let trees = trees_in table.old in IfOk result (λ g.
        assertion_in (sorts_in table.new) (trees_in table.new) (numbered g.1.value)
        ≡ plain.at_stores (stores_in trees stores.now)
        (assertion_in sorts trees (numbered q.now))) }
    ensures within { let count = length (trees_in table.new) in
        IfOk result (λ g. IsFormulaWithin count (numbered g.0.value)
        × IsFormulaWithin count (numbered g.1.value)) }
    ensures known { let s = stores_in (trees_in table.new) stores.now in
        IfOk result (λ _. AreKnown table.new s (get nat_eq known.new)) }
    ensures grows { AddsTerms table.old table.new }
{
    let a = filled_form(alloc, table, stores, known, p)?;
    let b = filled_form(alloc, table, stores, known, q)?;
    let first = Box::new(alloc, a)?;
    let second = Box::new(alloc, b)?;
    Ok((first, second))
}

/// Formulas with each slot replaced by the present term of its copy's name, in order. Each term is
/// gone through once, however often it stands.
pub(crate) fn at_stores(
    alloc: Global,
    table: &mut TermTable,
    stores: &PerCopy<SymStore>,
    forms: &[Formula],
) -> Result<Formulas, AllocError>
    requires forms { AreFormsReady (sorts_in table.old) (trees_in table.old) forms.now }
    requires stores { AreStoresReady (sorts_in table.old) (trees_in table.old) stores.now }
    ensures made { let sorts = sorts_in table.old in
        let trees = trees_in table.old in IfOk result (λ fs.
        forms_in (sorts_in table.new) (trees_in table.new) fs.list.items
        ≡ all_at_stores (stores_in trees stores.now) (forms_in sorts trees forms.now)) }
    ensures ready { IfOk result (λ fs.
        AreFormsReady (sorts_in table.new) (trees_in table.new) fs.list.items) }
    ensures widens { ExtendsTable table.old table.new }
{
    let mut known = HashMap::new(alloc);
    let mut list = Vec::new(alloc);
    for form in forms {
        list.push(filled_form(alloc, table, stores, &mut known, form)?)?;
    }
    Ok(Formulas { list })
}

// Formulas with each slot replaced, for states that share them.
pub(crate) fn shared_at(
    alloc: Global,
    table: &mut TermTable,
    stores: &PerCopy<SymStore>,
    forms: &Formulas,
) -> Result<Rc<Formulas>, AllocError>
    requires forms { AreFormsReady (sorts_in table.old) (trees_in table.old) forms.now.list.items }
    requires stores { AreStoresReady (sorts_in table.old) (trees_in table.old) stores.now }
    ensures made { let sorts = sorts_in table.old in
        let trees = trees_in table.old in IfOk result (λ fs.
        forms_in (sorts_in table.new) (trees_in table.new) fs.value.list.items
        ≡ all_at_stores (stores_in trees stores.now) (forms_in sorts trees forms.now.list.items)) }
    ensures ready { IfOk result (λ fs.
        AreFormsReady (sorts_in table.new) (trees_in table.new) fs.value.list.items) }
    ensures widens { ExtendsTable table.old table.new }
{
    let filled = at_stores(alloc, table, stores, &forms.list)?;
    Ok(Rc::new(alloc, filled)?)
}
