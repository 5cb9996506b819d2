// What the guards of loops suggest to keep.
ghost use Rattle.std.specs.Prelude.{◌≡◌, ◌<◌, [], ◌∷◌, ◌++◌, length, slice_get, Some, if◌then◌else◌, IfOk, OnOk};
ghost use Rattle.std.specs.List.{flat_map};
ghost use Rattle.sm_syntax.specs.claim.ConflictFree.{Copy};
ghost use Rattle.sm_syntax.specs.declared.tree.Sort.TheVariants.{Num};
ghost use Rattle.sm_syntax.specs.text.Parts.{sort_of};
ghost use Rattle.sm_syntax.specs.text.Sorts.{IsWellSortedCondition, IsWellSorted};
ghost use Rattle.sm_syntax.specs.trees.Copies.{copy_named, of_copy};
ghost use Rattle.sm_syntax.specs.trees.Programs.{declared_of};
ghost use Rattle.sm_syntax.specs.trees.Views.{condition_of};
ghost use Rattle.sm_term.specs.Assertions as plain;
ghost use Rattle.sm_term.specs.Sorted.{HasSort};
ghost use Rattle.sm_term.specs.SymStores.{store_in, IsStoreWithin};
ghost use Rattle.sm_term.specs.Tables.{TableValue, trees_in, sorts_in, tree_at};
ghost use Rattle.sm_term.specs.TableLaws.{AddsTerms};
ghost use Rattle.sm_plan.specs.Copies as sets;
ghost use Rattle.sm_plan.specs.Masks.{set_of};
ghost use Rattle.sm_plan.specs.Starts.{AreNumbered};
ghost use Rattle.sm_plan.specs.Statements.{loop_guard};
ghost use Rattle.sm_plan.specs.Views.{rest_code};
ghost use Rattle.sm_moves.specs.CopySets.{members};
ghost use Rattle.sm_template.specs.AddedForms.{AddsForms};
ghost use Rattle.sm_template.specs.Bounds.{AreBoundsReady, AddsBounds, bounds_in, places_of};
ghost use Rattle.sm_template.specs.Guards.{next_to, weaker, guard_templates};

use crate::terms::{made, slot};
use indexmap::IndexSet;
use sm_moves::has;
use sm_plan::Continuation;
use sm_syntax::{Cmp, Cond, CopyName, Decls, PerCopy};
use sm_term::{Formula, SymStore, Term, TermId, TermTable, term_of};
use std::alloc::{AllocError, Global};

// Inequalities, each once: the first term of a pair is at most the second.
pub(crate) type Bounds = IndexSet<(u64, u64)>;

// A store in which each declared name has its place in a copy.
pub(crate) fn places_of(
    alloc: Global,
    table: &mut TermTable,
    decls: &Decls,
    copy: CopyName,
) -> Result<SymStore, AllocError>
    requires declared { sorts_in table.old ≡ sort_of (declared_of decls.now) }
    requires numbered { AreNumbered (declared_of decls.now) }
    ensures store { let places = places_of (sorts_in table.old) (copy_named copy) in
        IfOk result (λ s. store_in (trees_in table.new) s ≡ places) }
    ensures within { IfOk result (λ s. IsStoreWithin (length (trees_in table.new)) s) }
    ensures grows { AddsTerms table.old table.new }
{
    let mut list = Vec::new(alloc);
    for d in &decls.list {
        list.push(slot(table, d.0, copy, d.1)?)?;
    }
    Ok(SymStore { list })
}

// Puts an inequality behind others, where it isn't there.
fn put_bound(table: &TermTable, bounds: &mut Bounds, t: TermId, u: TermId) -> Result<(), AllocError>
    requires first { t.0 < length (trees_in table.now) }
    requires second { u.0 < length (trees_in table.now) }
    requires first_sort { HasSort (sorts_in table.now) Num (tree_at (trees_in table.now) t.0) }
    requires second_sort { HasSort (sorts_in table.now) Num (tree_at (trees_in table.now) u.0) }
    ensures { let trees = trees_in table.now in
        let more = plain.Le (tree_at trees t.0) (tree_at trees u.0) in
        OnOk result (AddsBounds table.now table.now bounds.old.keys bounds.new.keys (more ∷ [])) }
{
    let _len = table.len();
    bounds.insert_full((t.0, u.0))?;
    Ok(())
}

// A number and one more.
fn next_to(table: &mut TermTable, t: TermId) -> Result<TermId, AllocError>
    requires there { t.0 < length (trees_in table.old) }
    requires sort { HasSort (sorts_in table.old) Num (tree_at (trees_in table.old) t.0) }
    ensures made { let next = next_to (tree_at (trees_in table.old) t.0) in
        IfOk result (λ id. slice_get (trees_in table.new) id.0 ≡ Some next) }
    ensures grows { AddsTerms table.old table.new }
{
    let one = made(table, Term::Lit(1))?;
    made(table, Term::Add(t, one))
}

// Puts what a comparison of two terms suggests behind others.
fn put_weaker(
    table: &mut TermTable,
    bounds: &mut Bounds,
    op: Cmp,
    t: TermId,
    u: TermId,
) -> Result<(), AllocError>
    requires first { t.0 < length (trees_in table.old) }
    requires second { u.0 < length (trees_in table.old) }
    requires first_sort { HasSort (sorts_in table.old) Num (tree_at (trees_in table.old) t.0) }
    requires second_sort { HasSort (sorts_in table.old) Num (tree_at (trees_in table.old) u.0) }
    ensures added { let trees = trees_in table.old in
        let more = weaker op (tree_at trees t.0) (tree_at trees u.0) in
        OnOk result (AddsBounds table.old table.new bounds.old.keys bounds.new.keys more) }
    ensures grows { AddsTerms table.old table.new }
{
    match op {
        Cmp::Eq => Ok(()),
        Cmp::Ne => Ok(()),
        Cmp::Lt => put_bound(table, bounds, t, u),
        Cmp::Le => {
            let next = next_to(table, u)?;
            put_bound(table, bounds, t, next)
        }
        Cmp::Gt => put_bound(table, bounds, u, t),
        Cmp::Ge => {
            let next = next_to(table, t)?;
            put_bound(table, bounds, u, next)
        }
    }
}

// Puts what a copy's guard suggests behind others.
#[cycle(put_guard)]
fn put_guard(
    table: &mut TermTable,
    bounds: &mut Bounds,
    b: &Cond,
    s: &SymStore,
    copy: CopyName,
) -> Result<(), AllocError>
    requires condition { IsWellSortedCondition (sorts_in table.old) (condition_of b.now) }
    requires within { IsStoreWithin (length (trees_in table.old)) s.now }
    requires store { let places = places_of (sorts_in table.old) (copy_named copy) in
        store_in (trees_in table.old) s.now ≡ places }
    ensures added { let more = guard_templates (condition_of b.now) (copy_named copy) in
        OnOk result (AddsBounds table.old table.new bounds.old.keys bounds.new.keys more) }
    ensures grows { AddsTerms table.old table.new }
{
    match b {
        Cond::Yes => Ok(()),
        Cond::No => Ok(()),
        Cond::Cmp(op, d, e) => {
            let t = term_of(table, d, s)?;
            let u = term_of(table, e, s)?;
            put_weaker(table, bounds, *op, t, u)
        }
        Cond::Not(c) => put_guard(table, bounds, c, s, copy),
        Cond::And(c, d) => put_guards(table, bounds, c, d, s, copy),
        Cond::Or(c, d) => put_guards(table, bounds, c, d, s, copy),
    }
}

// Puts what two conditions suggest behind others.
#[cycle(put_guard)]
fn put_guards(
    table: &mut TermTable,
    bounds: &mut Bounds,
    b: &Cond,
    c: &Cond,
    s: &SymStore,
    copy: CopyName,
) -> Result<(), AllocError>
    requires first { IsWellSortedCondition (sorts_in table.old) (condition_of b.now) }
    requires second { IsWellSortedCondition (sorts_in table.old) (condition_of c.now) }
    requires within { IsStoreWithin (length (trees_in table.old)) s.now }
    requires store { let places = places_of (sorts_in table.old) (copy_named copy) in
        store_in (trees_in table.old) s.now ≡ places }
    ensures added { let more = guard_templates (condition_of b.now) (copy_named copy)
        ++ guard_templates (condition_of c.now) (copy_named copy) in
        OnOk result (AddsBounds table.old table.new bounds.old.keys bounds.new.keys more) }
    ensures grows { AddsTerms table.old table.new }
{
    put_guard(table, bounds, b, s, copy)?;
    put_guard(table, bounds, c, s, copy)
}

// Puts what a copy's loop suggests behind others, where the copy is of the set.
fn put_loop(
    alloc: Global,
    table: &mut TermTable,
    bounds: &mut Bounds,
    decls: &Decls,
    set: u8,
    copy: CopyName,
    rest: &Continuation<'_>,
) -> Result<(), AllocError>
    requires declared { sorts_in table.old ≡ sort_of (declared_of decls.now) }
    requires numbered { AreNumbered (declared_of decls.now) }
    requires sorted { IsWellSorted (sorts_in table.old) (rest_code rest.now) }
    ensures added { let c = copy_named copy in
        let guards = guard_templates (loop_guard (rest_code rest.now)) c in
        let more = if sets.has (set_of set) c then guards else [] in
        OnOk result (AddsBounds table.old table.new bounds.old.keys bounds.new.keys more) }
    ensures grows { AddsTerms table.old table.new }
{
    if !has(set, copy) {
        return Ok(());
    }
    let Some((guard, _)) = rest.first_loop() else {
        return Ok(());
    };
    let places = places_of(alloc, table, decls, copy)?;
    put_guard(table, bounds, guard, &places, copy)
}

// Puts what the guards of the loops that the code of a set's copies begins with suggest into a set
// of inequalities that has none.
fn put_loops(
    alloc: Global,
    table: &mut TermTable,
    bounds: &mut Bounds,
    decls: &Decls,
    set: u8,
    code: &PerCopy<Continuation<'_>>,
) -> Result<(), AllocError>
    requires empty { bounds.old.keys ≡ [] }
    requires declared { sorts_in table.old ≡ sort_of (declared_of decls.now) }
    requires numbered { AreNumbered (declared_of decls.now) }
    requires sorted { (c : Copy) →
        IsWellSorted (sorts_in table.old) (rest_code (of_copy code.now c)) }
    ensures added { let code_at = λ (c : Copy). rest_code (of_copy code.now c) in
        let guards = λ (c : Copy). guard_templates (loop_guard (code_at c)) c in
        let more = flat_map guards (members (set_of set)) in
        OnOk result (AddsBounds table.old table.new [] bounds.new.keys more) }
    ensures grows { AddsTerms table.old table.new }
{
    let o = CopyName::O;
    put_loop(alloc, table, bounds, decls, set, o, &code.base)?;
    let a = CopyName::A;
    put_loop(alloc, table, bounds, decls, set, a, &code.variant_a)?;
    let b = CopyName::B;
    put_loop(alloc, table, bounds, decls, set, b, &code.variant_b)?;
    let m = CopyName::M;
    put_loop(alloc, table, bounds, decls, set, m, &code.candidate)?;
    Ok(())
}

// What the guards of the loops that the code of a set's copies begins with suggest.
pub(crate) fn bounds_of(
    alloc: Global,
    table: &mut TermTable,
    decls: &Decls,
    set: u8,
    code: &PerCopy<Continuation<'_>>,
) -> Result<Bounds, AllocError>
    requires declared { sorts_in table.old ≡ sort_of (declared_of decls.now) }
    requires numbered { AreNumbered (declared_of decls.now) }
    requires sorted { (c : Copy) →
        IsWellSorted (sorts_in table.old) (rest_code (of_copy code.now c)) }
    ensures added { let code_at = λ (c : Copy). rest_code (of_copy code.now c) in
        let guards = λ (c : Copy). guard_templates (loop_guard (code_at c)) c in
        let more = flat_map guards (members (set_of set)) in
        IfOk result (λ b. AddsBounds table.old table.new [] b.keys more) }
    ensures grows { AddsTerms table.old table.new }
{
    let mut bounds = IndexSet::new(alloc);
    put_loops(alloc, table, &mut bounds, decls, set, code)?;
    Ok(bounds)
}

// Puts inequalities behind formulas.
pub(crate) fn put_bounds(list: &mut Vec<Formula>, bounds: &[(u64, u64)]) -> Result<(), AllocError>
    ensures { (v : TableValue) → AreBoundsReady (sorts_in v) (trees_in v) bounds.now →
        let more = bounds_in (trees_in v) bounds.now in
        OnOk result (AddsForms v v list.old.items list.new.items more) }
{
    for b in bounds {
        list.push(Formula::Le(TermId(b.0), TermId(b.1)))?;
    }
    Ok(())
}
