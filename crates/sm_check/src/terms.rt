// Terms that lines make.
ghost use Rattle.std.specs.Prelude.{◌≡◌, ◌<◌, ◌≤◌, ◌^◌, true, length, List, Ok, None, slice_get, IfOk, IfSome};
ghost use Rattle.sm_syntax.specs.claim.ConflictFree.{copy_of};
ghost use Rattle.sm_term.specs.Terms.{Tree};
ghost use Rattle.sm_term.specs.Fitting.{term_fits};
ghost use Rattle.sm_term.specs.Sorted.{IsDeclaredIn};
ghost use Rattle.sm_term.specs.SymStores.{store_in, IsStoreWithin};
ghost use Rattle.sm_term.specs.Tables.{trees_in, sorts_in, codes_in, tree_in, tree_at, AreBefore, IsTermWithin};
ghost use Rattle.sm_term.specs.TableLaws.{AddsTerms};
ghost use Rattle.sm_theory.specs.Facts.{BranchFact};
ghost use Rattle.sm_theory.specs.Views.{AllStand};
ghost use Rattle.sm_plan.specs.ReadyStates.{AreStoresReady};
ghost use Rattle.sm_term.specs.Heads.{arguments_of};
ghost use Rattle.sm_plan.specs.Views.{stores_in};
ghost use Rattle.sm_proof.specs.declared.word.Head.TheVariants as head;
ghost use Rattle.sm_proof.specs.declared.word.Word.TheVariants.{First};
ghost use Rattle.sm_proof.specs.FieldRanges.{IsTermLineWithin};
ghost use Rattle.sm_proof.specs.Named.{tested_or, found_or};
ghost use Rattle.sm_proof.specs.Passing.{Pending, of_name, present_term, term_made, with_tree};
ghost use Rattle.sm_check.specs.Tells.{Tells};
ghost use Rattle.sm_check.specs.TermsMade.{IsTerm, is_new, new_term, pair_of};
ghost use Rattle.sm_check.specs.Pending.{DueStands, IsDueReady};
ghost use Rattle.sm_check.specs.Walks.{terms_in, AreNumbered};

use crate::fault::LineFault;
use crate::forms::term_at;
use crate::of_facts::of_fact;
use crate::pending::Due;
use sm_euf::argument_of;
use sm_proof::{Head, TermLine, Word};
use sm_syntax::{CopyName, Name, PerCopy};
use sm_term::{SymStore, Term, TermError, TermId, TermTable};
use sm_theory::Branch;

// The term that a line makes, where something is due.
pub(crate) fn made_term(
    table: &mut TermTable,
    declared: u64,
    terms: &[TermId],
    due: &Due<'_>,
    path: &Branch,
    line: &TermLine,
) -> Result<TermId, LineFault>
    requires numbered { AreNumbered (sorts_in table.old) declared }
    requires terms { AreBefore (length (trees_in table.old)) terms.now }
    requires due { IsDueReady (sorts_in table.old) (trees_in table.old) due.now }
    requires line { IsTermLineWithin line.now }
    ensures tells { let sorts = sorts_in table.old in let trees = trees_in table.old in
        (facts : List BranchFact) (first : Pending) →
        AllStand sorts trees path.now.list.items facts → DueStands sorts trees facts due.now first →
        Tells (IsTerm (trees_in table.new)) result
        (term_made sorts (terms_in trees terms.now) first line.now) }
    ensures within { IfOk result (λ t. t.0 < length (trees_in table.new)) }
    ensures grows { AddsTerms table.old table.new }
{
    match line {
        TermLine::Cur { copy, name } => current(table, declared, due, *copy, *name),
        TermLine::Of { fact, side } => of_fact(table, due, path, *fact, *side),
        TermLine::Arg { term, place } => argument(table, terms, *term, *place),
        _ => put_new(table, declared, terms, line),
    }
}

// Puts the term of a line into the table that tells it by names and terms.
fn put_new(
    table: &mut TermTable,
    declared: u64,
    terms: &[TermId],
    line: &TermLine,
) -> Result<TermId, LineFault>
    requires numbered { AreNumbered (sorts_in table.old) declared }
    requires terms { AreBefore (length (trees_in table.old)) terms.now }
    requires line { IsTermLineWithin line.now }
    requires kind { is_new line.now ≡ true }
    ensures tells { let sorts = sorts_in table.old in let trees = trees_in table.old in
        (first : Pending) → Tells (IsTerm (trees_in table.new)) result
        (term_made sorts (terms_in trees terms.now) first line.now) }
    ensures within { IfOk result (λ t. t.0 < length (trees_in table.new)) }
    ensures grows { AddsTerms table.old table.new }
{
    match new_term(declared, terms, line) {
        Some(term) => put(table, term),
        None => Err(LineFault::Wrong {
            word: Word::BadNumber,
        }),
    }
}

// The term of a line that tells it by names and terms, where these are there.
fn new_term(declared: u64, terms: &[TermId], line: &TermLine) -> Option<Term>
    requires { declared ≤ 2 ^ 32 }
    ensures { result ≡ new_term declared terms.now line.now }
{
    match line {
        TermLine::Lit(z) => Some(Term::Lit(*z)),
        TermLine::Start(x) => Some(Term::Start(declared_name(declared, *x)?)),
        TermLine::Cell => Some(Term::Cell),
        TermLine::Slot { copy, name } => Some(Term::Slot {
            copy: *copy,
            name: declared_name(declared, *name)?,
        }),
        TermLine::Read(t, u) => {
            let (a, i) = pair_at(terms, *t, *u)?;
            Some(Term::Read(a, i))
        }
        TermLine::Write(t, u, v) => {
            let a = term_at(terms, *t)?;
            let (i, e) = pair_at(terms, *u, *v)?;
            Some(Term::Write(a, i, e))
        }
        TermLine::Neg(t) => Some(Term::Neg(term_at(terms, *t)?)),
        TermLine::Add(t, u) => {
            let (a, b) = pair_at(terms, *t, *u)?;
            Some(Term::Add(a, b))
        }
        TermLine::Sub(t, u) => {
            let (a, b) = pair_at(terms, *t, *u)?;
            Some(Term::Sub(a, b))
        }
        TermLine::Mul(t, u) => {
            let (a, b) = pair_at(terms, *t, *u)?;
            Some(Term::Mul(a, b))
        }
        _ => None,
    }
}

// Puts a term into the table, whose sorts must fit.
fn put(table: &mut TermTable, t: Term) -> Result<TermId, LineFault>
    requires { let n = length (trees_in table.old) in
        IsTermWithin (sorts_in table.old) (length (codes_in table.old)) n t }
    ensures tells { let trees = trees_in table.old in
        Tells (IsTerm (trees_in table.new)) result
        (tested_or (term_fits (sorts_in table.old) trees t) (First head.T)
        (Ok (tree_in (codes_in table.old) trees t))) }
    ensures within { IfOk result (λ id. id.0 < length (trees_in table.new)) }
    ensures grows { AddsTerms table.old table.new }
{
    match table.intern(t) {
        Ok(id) => Ok(id),
        Err(TermError::WrongSort) => Err(LineFault::Wrong {
            word: Word::First(Head::T),
        }),
        Err(TermError::Memory) => Err(LineFault::Memory),
    }
}

// The declared name with a number.
fn declared_name(declared: u64, x: u64) -> Option<Name>
    requires { declared ≤ 2 ^ 32 }
    ensures name { IfSome result (λ n. n ≡ record { 0 = x }) }
    ensures there { IfSome result (λ n. x < declared) }
    ensures missing { result ≡ None → declared ≤ x }
{
    if x < declared {
        Some(Name(x as u32))
    } else {
        None
    }
}

// Two terms that lines made.
fn pair_at(terms: &[TermId], t: u64, u: u64) -> Option<(TermId, TermId)>
    ensures { result ≡ pair_of (slice_get terms.now t) (slice_get terms.now u) }
{
    let a = term_at(terms, t)?;
    let b = term_at(terms, u)?;
    Some((a, b))
}

// The present term of a copy's name, where the name is declared.
fn current(
    table: &mut TermTable,
    declared: u64,
    due: &Due<'_>,
    copy: u8,
    x: u64,
) -> Result<TermId, LineFault>
    requires numbered { AreNumbered (sorts_in table.old) declared }
    requires due { IsDueReady (sorts_in table.old) (trees_in table.old) due.now }
    ensures tells { let sorts = sorts_in table.old in let trees = trees_in table.old in
        (facts : List BranchFact) (first : Pending) → DueStands sorts trees facts due.now first →
        Tells (IsTerm (trees_in table.new)) result
        (of_name sorts x (present_term first (copy_of copy) x)) }
    ensures within { IfOk result (λ t. t.0 < length (trees_in table.new)) }
    ensures grows { AddsTerms table.old table.new }
{
    match declared_name(declared, x) {
        Some(name) => present(table, due, copy, name),
        None => Err(LineFault::Wrong {
            word: Word::BadNumber,
        }),
    }
}

// The present term of a copy's name.
fn present(table: &mut TermTable, due: &Due<'_>, copy: u8, name: Name) -> Result<TermId, LineFault>
    requires declared { IsDeclaredIn (sorts_in table.old) name.0 }
    requires due { IsDueReady (sorts_in table.old) (trees_in table.old) due.now }
    ensures tells { let sorts = sorts_in table.old in let trees = trees_in table.old in
        (facts : List BranchFact) (first : Pending) → DueStands sorts trees facts due.now first →
        Tells (IsTerm (trees_in table.new)) result
        (Ok (present_term first (copy_of copy) name.0)) }
    ensures within { IfOk result (λ t. t.0 < length (trees_in table.new)) }
    ensures grows { AddsTerms table.old table.new }
{
    match due {
        Due::State { state, .. } => of_stores(table, &state.stores, copy, name),
        Due::Branch { stores, .. } => of_stores(table, stores.as_ref(), copy, name),
    }
}

// The present term of a copy's name by the stores.
fn of_stores(
    table: &mut TermTable,
    stores: &PerCopy<SymStore>,
    copy: u8,
    name: Name,
) -> Result<TermId, LineFault>
    requires declared { IsDeclaredIn (sorts_in table.old) name.0 }
    requires stores { AreStoresReady (sorts_in table.old) (trees_in table.old) stores.now }
    ensures tells { Tells (IsTerm (trees_in table.new)) result
        (Ok (stores_in (trees_in table.old) stores.now (copy_of copy) name.0)) }
    ensures within { IfOk result (λ t. t.0 < length (trees_in table.new)) }
    ensures grows { AddsTerms table.old table.new }
{
    in_store(table, stores.get(CopyName::of_number(copy)), name)
}

// The present term of a name by one store.
fn in_store(table: &mut TermTable, store: &SymStore, name: Name) -> Result<TermId, LineFault>
    requires declared { IsDeclaredIn (sorts_in table.old) name.0 }
    requires within { IsStoreWithin (length (trees_in table.old)) store.now }
    ensures tells { Tells (IsTerm (trees_in table.new)) result
        (Ok (store_in (trees_in table.old) store.now name.0)) }
    ensures within { IfOk result (λ t. t.0 < length (trees_in table.new)) }
    ensures grows { AddsTerms table.old table.new }
{
    match store.list.get(name.0 as usize) {
        Some(t) => Ok(*t),
        None => put(table, Term::Start(name)),
    }
}

// An argument of the term that a line made.
fn argument(table: &TermTable, terms: &[TermId], n: u64, place: u64) -> Result<TermId, LineFault>
    requires { AreBefore (length (trees_in table.now)) terms.now }
    ensures tells { let trees = trees_in table.now in
        Tells (IsTerm trees) result (with_tree (terms_in trees terms.now) n (λ (t : Tree).
        found_or (slice_get (arguments_of t) place) (First head.T) Ok)) }
    ensures within { IfOk result (λ a. a.0 < length (trees_in table.now)) }
{
    match term_at(terms, n) {
        Some(t) => argument_at(table, t, place),
        None => Err(LineFault::Wrong {
            word: Word::BadNumber,
        }),
    }
}

// An argument of a term.
fn argument_at(table: &TermTable, t: TermId, place: u64) -> Result<TermId, LineFault>
    requires { t.0 < length (trees_in table.now) }
    ensures tells { let trees = trees_in table.now in
        Tells (IsTerm trees) result
        (found_or (slice_get (arguments_of (tree_at trees t.0)) place) (First head.T) Ok) }
    ensures within { IfOk result (λ a. a.0 < length (trees_in table.now)) }
{
    match argument_of(table, t, place) {
        Some(a) => Ok(a),
        None => Err(LineFault::Wrong {
            word: Word::First(Head::T),
        }),
    }
}
