// A term with the present terms of names in place of its slots.
ghost use Rattle.std.specs.Prelude.{◌≡◌, ◌<◌, ◌⊎◌, length, Some, None, nat_eq, slice_get, IfOk, IfErr};
ghost use Rattle.std.specs.HashMap.{get};
ghost use Rattle.sm_term.specs.Slots.{fill_term};
ghost use Rattle.sm_term.specs.Tables.{trees_in, sorts_in, tree_at};
ghost use Rattle.sm_term.specs.TableLaws.{AddsTerms};
ghost use Rattle.sm_syntax.specs.claim.ConflictFree.{copy_of};
ghost use Rattle.sm_syntax.specs.trees.Copies.{of_copy};
ghost use Rattle.sm_plan.specs.Filling.{AreKnown, IsFilling, IsFound, ArePartsKnown, IsSummary, at_name};
ghost use Rattle.sm_plan.specs.ReadyStates.{AreStoresReady};
ghost use Rattle.sm_plan.specs.Views.{stores_in};

use crate::steps::made;
use sm_syntax::{CopyName, Name, Outputs, PerCopy, copy_outputs};
use sm_term::{BodyId, SymStore, Term, TermId, TermTable, Terms};
use std::alloc::{AllocError, Global};
use std::collections::HashMap;

// A term with its slots replaced: one that is there, or a new one, or a part of the term that isn't
// known yet.
#[derive(Drop)]
pub(crate) enum Filling {
    There(TermId),
    Made(Term),
    Part(u64),
}

// The number of a term with its slots replaced, or a part of the term that isn't known yet.
#[derive(Drop)]
pub(crate) enum Found {
    Number(TermId),
    Part(u64),
}

// The numbers of parts, or the first that isn't known yet.
#[derive(Drop)]
pub(crate) enum Parts {
    Known(Terms),
    Unknown(u64),
}

// The numbers of two terms, or the first that isn't known.
fn pair(known: &HashMap<u64, TermId>, t: TermId, u: TermId) -> Result<(TermId, TermId), u64>
    ensures ok { IfOk result (λ p. (get nat_eq known.now t.0 ≡ Some p.0)
        × (get nat_eq known.now u.0 ≡ Some p.1)) }
    ensures err { IfErr result (λ n. ((n ≡ t.0) ⊎ (n ≡ u.0)) × (get nat_eq known.now n ≡ None)) }
{
    match known.get(&t.0) {
        Some(a) => match known.get(&u.0) {
            Some(b) => Ok((*a, *b)),
            None => Err(u.0),
        },
        None => Err(t.0),
    }
}

// The numbers of all parts, or the first that isn't known.
fn all_known(
    alloc: Global,
    known: &HashMap<u64, TermId>,
    parts: &[TermId],
) -> Result<Parts, AllocError>
    ensures { IfOk result (λ p. ArePartsKnown (get nat_eq known.now) parts.now p) }
{
    let mut list = Vec::new(alloc);
    for part in parts {
        match known.get(&part.0) {
            Some(t) => list.push(*t)?,
            None => return Ok(Parts::Unknown(part.0)),
        }
    }
    Ok(Parts::Known(Terms { list }))
}

// A summary with its arguments replaced.
fn summary(
    alloc: Global,
    known: &HashMap<u64, TermId>,
    body: BodyId,
    name: Name,
    from: &Outputs,
    args: &Terms,
) -> Result<Filling, AllocError>
    ensures { IfOk result (λ f. IsSummary (get nat_eq known.now) body name from.now args.now f) }
{
    match all_known(alloc, known, &args.list)? {
        Parts::Known(args) => {
            let from = copy_outputs(alloc, from)?;
            Ok(Filling::Made(Term::Fun {
                body,
                name,
                from,
                args,
            }))
        }
        Parts::Unknown(p) => Ok(Filling::Part(p)),
    }
}

// What a copy has at a name.
fn at_slot(stores: &PerCopy<SymStore>, copy: u8, name: Name) -> Filling
    ensures { result
        ≡ at_name (slice_get (of_copy stores.now (copy_of copy)).list.items name.0) name }
{
    let store = stores.get(CopyName::of_number(copy));
    match store.list.get(name.0 as usize) {
        Some(t) => Filling::There(*t),
        None => Filling::Made(Term::Start(name)),
    }
}

// A term with its slots replaced, from its parts with theirs.
fn filling_of(
    alloc: Global,
    table: &TermTable,
    stores: &PerCopy<SymStore>,
    known: &HashMap<u64, TermId>,
    t: TermId,
) -> Result<Filling, AllocError>
    requires inside { t.0 < length (trees_in table.now) }
    requires stores { AreStoresReady (sorts_in table.now) (trees_in table.now) stores.now }
    requires known { AreKnown table.now (stores_in (trees_in table.now) stores.now)
        (get nat_eq known.now) }
    ensures { let s = stores_in (trees_in table.now) stores.now in
        IfOk result (λ f. IsFilling table.now s (get nat_eq known.now) t.0 f) }
{
    // Each term is well sorted.
    let _count = table.len();
    match table.get(t) {
        Term::Lit(_) => Ok(Filling::There(t)),
        Term::Start(_) => Ok(Filling::There(t)),
        Term::Havoc { .. } => Ok(Filling::There(t)),
        Term::Cell => Ok(Filling::There(t)),
        Term::Slot { copy, name } => Ok(at_slot(stores, *copy, *name)),
        Term::Read(a, i) => match pair(known, *a, *i) {
            Ok((b, j)) => Ok(Filling::Made(Term::Read(b, j))),
            Err(p) => Ok(Filling::Part(p)),
        },
        Term::Write(a, i, e) => match pair(known, *a, *i) {
            Ok((b, j)) => match known.get(&e.0) {
                Some(d) => Ok(Filling::Made(Term::Write(b, j, *d))),
                None => Ok(Filling::Part(e.0)),
            },
            Err(p) => Ok(Filling::Part(p)),
        },
        Term::Neg(a) => match known.get(&a.0) {
            Some(b) => Ok(Filling::Made(Term::Neg(*b))),
            None => Ok(Filling::Part(a.0)),
        },
        Term::Add(a, i) => match pair(known, *a, *i) {
            Ok((b, j)) => Ok(Filling::Made(Term::Add(b, j))),
            Err(p) => Ok(Filling::Part(p)),
        },
        Term::Sub(a, i) => match pair(known, *a, *i) {
            Ok((b, j)) => Ok(Filling::Made(Term::Sub(b, j))),
            Err(p) => Ok(Filling::Part(p)),
        },
        Term::Mul(a, i) => match pair(known, *a, *i) {
            Ok((b, j)) => Ok(Filling::Made(Term::Mul(b, j))),
            Err(p) => Ok(Filling::Part(p)),
        },
        Term::Fun {
            body,
            name,
            from,
            args,
        } => summary(alloc, known, *body, *name, from, args),
    }
}

// The number of a term with its slots replaced, from those of its parts.
fn number_of(
    alloc: Global,
    table: &mut TermTable,
    stores: &PerCopy<SymStore>,
    known: &HashMap<u64, TermId>,
    t: TermId,
) -> Result<Found, AllocError>
    requires inside { t.0 < length (trees_in table.old) }
    requires stores { AreStoresReady (sorts_in table.old) (trees_in table.old) stores.now }
    requires known { AreKnown table.old (stores_in (trees_in table.old) stores.now)
        (get nat_eq known.now) }
    ensures number { let s = stores_in (trees_in table.new) stores.now in
        IfOk result (λ f. IsFound table.new s (get nat_eq known.now) t.0 f) }
    ensures grows { AddsTerms table.old table.new }
{
    match filling_of(alloc, table, stores, known, t)? {
        Filling::There(id) => Ok(Found::Number(id)),
        Filling::Made(term) => Ok(Found::Number(made(table, term)?)),
        Filling::Part(p) => Ok(Found::Part(p)),
    }
}

/// The number of a term with its slots replaced. Each term under it is gone through once, and what
/// is known of terms grows.
pub(crate) fn filled_term(
    alloc: Global,
    table: &mut TermTable,
    stores: &PerCopy<SymStore>,
    known: &mut HashMap<u64, TermId>,
    t: TermId,
) -> Result<TermId, AllocError>
    requires inside { t.0 < length (trees_in table.old) }
    requires stores { AreStoresReady (sorts_in table.old) (trees_in table.old) stores.now }
    requires known { AreKnown table.old (stores_in (trees_in table.old) stores.now)
        (get nat_eq known.old) }
    ensures made { let trees = trees_in table.old in let s = stores_in trees stores.now in
        IfOk result (λ id.
        slice_get (trees_in table.new) id.0 ≡ Some (fill_term s (tree_at trees t.0))) }
    ensures known { let s = stores_in (trees_in table.new) stores.now in
        IfOk result (λ _. AreKnown table.new s (get nat_eq known.new)) }
    ensures grows { AddsTerms table.old table.new }
{
    match known.get(&t.0) {
        Some(id) => Ok(*id),
        None => walked(alloc, table, stores, known, t),
    }
}

// The filled term of a term that isn't known yet.
fn walked(
    alloc: Global,
    table: &mut TermTable,
    stores: &PerCopy<SymStore>,
    known: &mut HashMap<u64, TermId>,
    t: TermId,
) -> Result<TermId, AllocError>
    requires inside { t.0 < length (trees_in table.old) }
    requires stores { AreStoresReady (sorts_in table.old) (trees_in table.old) stores.now }
    requires known { AreKnown table.old (stores_in (trees_in table.old) stores.now)
        (get nat_eq known.old) }
    requires open { get nat_eq known.old t.0 ≡ None }
    ensures made { let trees = trees_in table.old in let s = stores_in trees stores.now in
        IfOk result (λ id.
        slice_get (trees_in table.new) id.0 ≡ Some (fill_term s (tree_at trees t.0))) }
    ensures known { let s = stores_in (trees_in table.new) stores.now in
        IfOk result (λ _. AreKnown table.new s (get nat_eq known.new)) }
    ensures grows { AddsTerms table.old table.new }
{
    // terms that wait for a part, each a part of the one before it
    let mut waiting = Vec::new(alloc);
    let mut next = t.0;
    'walk: loop {
        match number_of(alloc, table, stores, known, TermId(next))? {
            Found::Part(p) => {
                waiting.push(next)?;
                next = p;
            }
            Found::Number(id) => {
                known.insert(next, id)?;
                match waiting.pop() {
                    Some(n) => next = n,
                    None => return Ok(id),
                }
            }
        }
    }
}
