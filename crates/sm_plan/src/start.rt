// The start of a proof.
ghost use Rattle.std.specs.Prelude.{◌≡◌, ℕ, ◌<◌, true, map, length, option_map, IfOk, IfSome, OnErr};
ghost use Rattle.std.specs.List.{range_with_len};
ghost use Rattle.sm_syntax.specs.claim.ConflictFree.{Copy};
ghost use Rattle.sm_syntax.specs.text.Parts.{sort_of, sorted_outputs};
ghost use Rattle.sm_syntax.specs.text.Sorts.{IsWellSorted, IsWellSortedCondition};
ghost use Rattle.sm_syntax.specs.trees.Copies.{of_copy};
ghost use Rattle.sm_syntax.specs.trees.Programs.{declared_of, outputs_of};
ghost use Rattle.sm_syntax.specs.trees.Views.{condition_of, code_of};
ghost use Rattle.sm_term.specs.SymStores.{store_in, IsStoreWithin};
ghost use Rattle.sm_term.specs.Tables.{trees_in, sorts_in};
ghost use Rattle.sm_term.specs.TableLaws.{AddsTerms, ExtendsTable};
ghost use Rattle.sm_plan.specs.ReadyStates.{IsStateReady, AreFormsReady, IsStoreReady};
ghost use Rattle.sm_plan.specs.SortedStates.{AreOutputsDeclared};
ghost use Rattle.sm_plan.specs.Starts.{AreNumbered};
ghost use Rattle.sm_plan.specs.States as plain;
ghost use Rattle.sm_plan.specs.Views.{rest_code, forms_in, state_in};

use crate::copies::copy_store;
use crate::kept::conjuncts;
use crate::parts::all_made;
use crate::rest::Continuation;
use crate::state::{Formulas, SymState};
use crate::steps::made;
use crate::successors::no_formulas;
use crate::targets::target;
use sm_syntax::{Block, Cond, Decls, Outputs, PerCopy};
use sm_term::{SymStore, Term, TermTable, form_of};
use std::alloc::{AllocError, Global};
use std::rc::Rc;

// The start values of the declared names.
fn start_store(alloc: Global, table: &mut TermTable, decls: &Decls) -> Result<SymStore, AllocError>
    requires declared { sorts_in table.old ≡ sort_of (declared_of decls.now) }
    requires numbered { AreNumbered (declared_of decls.now) }
    ensures store { IfOk result (λ s. store_in (trees_in table.new) s ≡ plain.start_store) }
    ensures within { IfOk result (IsStoreWithin (length (trees_in table.new))) }
    ensures len { IfOk result (λ s. length s.list.items ≡ length (declared_of decls.now)) }
    ensures grows { AddsTerms table.old table.new }
{
    let mut list = Vec::new(alloc);
    for d in &decls.list {
        list.push(made(table, Term::Start(d.0))?)?;
    }
    Ok(SymStore { list })
}

// The facts of an assumption.
fn start_facts(
    alloc: Global,
    table: &mut TermTable,
    assumed: Option<&Cond>,
    store: &SymStore,
) -> Result<Formulas, AllocError>
    requires assumed { let sorts = sorts_in table.old in
        IfSome assumed (λ b. IsWellSortedCondition sorts (condition_of b.now)) }
    requires ready { IsStoreReady (sorts_in table.old) (trees_in table.old) store.now }
    requires start { store_in (trees_in table.old) store.now ≡ plain.start_store }
    ensures made { let sorts = sorts_in table.new in IfOk result (λ fs.
        forms_in sorts (trees_in table.new) fs.list.items
        ≡ plain.start_facts (option_map (λ b. condition_of b.now) assumed.entry)) }
    ensures ready { IfOk result (λ fs.
        AreFormsReady (sorts_in table.new) (trees_in table.new) fs.list.items) }
    ensures grows { AddsTerms table.old table.new }
{
    match assumed {
        None => Ok(no_formulas(alloc)),
        Some(b) => {
            let fact = form_of(alloc, table, b, store)?;
            let facts = conjuncts(alloc, &fact)?;
            Ok(facts)
        }
    }
}

// The whole programs.
fn whole<'a>(
    alloc: Global,
    programs: &'a PerCopy<Block>,
) -> Result<PerCopy<Continuation<'a>>, AllocError>
    ensures { (c : Copy) →
        IfOk result (λ p. rest_code (of_copy p c) ≡ code_of (of_copy programs.now c)) }
{
    all_made(
        Continuation::of(alloc, &programs.base),
        Continuation::of(alloc, &programs.variant_a),
        Continuation::of(alloc, &programs.variant_b),
        Continuation::of(alloc, &programs.candidate),
    )
}

// One store for each copy.
fn four(alloc: Global, store: SymStore) -> Result<PerCopy<SymStore>, AllocError>
    ensures { (c : Copy) → IfOk result (λ p. (of_copy p c).list.items ≡ store.list.items) }
{
    all_made(
        copy_store(alloc, &store),
        copy_store(alloc, &store),
        copy_store(alloc, &store),
        Ok(store),
    )
}

// The state of whole programs with one store and the last target.
fn first_state<'a>(
    alloc: Global,
    programs: &'a PerCopy<Block>,
    store: SymStore,
    goals: Formulas,
) -> Result<SymState<'a>, AllocError>
    ensures rests { (c : Copy) → IfOk result (λ s.
        rest_code (of_copy s.rests c) ≡ code_of (of_copy programs.now c)) }
    ensures stores { (c : Copy) →
        IfOk result (λ s. (of_copy s.stores c).list.items ≡ store.list.items) }
    ensures target { IfOk result (λ s. s.target.value.list.items ≡ goals.list.items) }
    ensures is_final { IfOk result (λ s. s.is_final ≡ true) }
{
    let rests = whole(alloc, programs)?;
    let stores = four(alloc, store)?;
    let target = Rc::new(alloc, goals)?;
    Ok(SymState {
        rests,
        stores,
        target,
        is_final: true,
    })
}

/// The start of the programs of a task over a table of its declarations, and the facts of its
/// assumption. After want of memory the table has the terms that it had.
#[tactic(auto, using(crate::proofs::TablesWiden::widens_cut, crate::proofs::TablesWiden::cut_back))]
pub fn start_state<'a>(
    alloc: Global,
    table: &mut TermTable,
    decls: &Decls,
    outputs: &Outputs,
    assumed: Option<&Cond>,
    programs: &'a PerCopy<Block>,
) -> Result<(SymState<'a>, Formulas), AllocError>
    requires declared { sorts_in table.old ≡ sort_of (declared_of decls.now) }
    requires numbered { AreNumbered (declared_of decls.now) }
    requires outputs { let declared = declared_of decls.now in
        AreOutputsDeclared (sort_of declared) (sorted_outputs declared (outputs_of outputs.now)) }
    requires assumed { let sorts = sorts_in table.old in
        IfSome assumed (λ b. IsWellSortedCondition sorts (condition_of b.now)) }
    requires programs { (c : Copy) →
        IsWellSorted (sorts_in table.old) (code_of (of_copy programs.now c)) }
    ensures start { let all = sorted_outputs (declared_of decls.now) (outputs_of outputs.now) in
        let b = option_map (λ b. condition_of b.now) assumed.entry in
        let sorts = sorts_in table.new in let trees = trees_in table.new in
        IfOk result (λ p. state_in sorts trees (forms_in sorts trees p.1.list.items) p.0
        ≡ plain.start_of b all (λ c. code_of (of_copy programs.now c))) }

    // It can be gone on from.
    ensures ready { IfOk result (λ p. IsStateReady (sorts_in table.new) (trees_in table.new) p.0) }
    ensures facts { IfOk result (λ p.
        AreFormsReady (sorts_in table.new) (trees_in table.new) p.1.list.items) }

    // Each term keeps its number.
    ensures widens { ExtendsTable table.old table.new }
    ensures err { OnErr result (trees_in table.new ≡ trees_in table.old) }
{
    let len = table.len();
    match made_state(alloc, table, decls, outputs, assumed, programs) {
        Ok(made) => Ok(made),
        Err(refused) => {
            table.cut(len);
            Err(refused)
        }
    }
}

// The start and its facts, where want of memory leaves the terms that were made.
fn made_state<'a>(
    alloc: Global,
    table: &mut TermTable,
    decls: &Decls,
    outputs: &Outputs,
    assumed: Option<&Cond>,
    programs: &'a PerCopy<Block>,
) -> Result<(SymState<'a>, Formulas), AllocError>
    requires declared { sorts_in table.old ≡ sort_of (declared_of decls.now) }
    requires numbered { AreNumbered (declared_of decls.now) }
    requires outputs { let declared = declared_of decls.now in
        AreOutputsDeclared (sort_of declared) (sorted_outputs declared (outputs_of outputs.now)) }
    requires assumed { let sorts = sorts_in table.old in
        IfSome assumed (λ b. IsWellSortedCondition sorts (condition_of b.now)) }
    requires programs { (c : Copy) →
        IsWellSorted (sorts_in table.old) (code_of (of_copy programs.now c)) }
    ensures start { let all = sorted_outputs (declared_of decls.now) (outputs_of outputs.now) in
        let b = option_map (λ b. condition_of b.now) assumed.entry in
        let sorts = sorts_in table.new in let trees = trees_in table.new in
        IfOk result (λ p. state_in sorts trees (forms_in sorts trees p.1.list.items) p.0
        ≡ plain.start_of b all (λ c. code_of (of_copy programs.now c))) }
    ensures ready { IfOk result (λ p. IsStateReady (sorts_in table.new) (trees_in table.new) p.0) }
    ensures facts { IfOk result (λ p.
        AreFormsReady (sorts_in table.new) (trees_in table.new) p.1.list.items) }
    ensures widens { ExtendsTable table.old table.new }
{
    let store = start_store(alloc, table, decls)?;
    let facts = start_facts(alloc, table, assumed, &store)?;
    let goals = target(alloc, table, outputs)?;
    let state = first_state(alloc, programs, store, goals)?;
    Ok((state, facts))
}
