// The goals of a task's outputs.
ghost use Rattle.std.specs.Prelude.{◌≡◌, ◌++◌, ◌<◌, map, length, slice_get, Some, IfOk, OnOk};
ghost use Rattle.std.specs.List.{flat_map};
ghost use Rattle.sm_syntax.specs.claim.ConflictFree.{Copy, copy_of};
ghost use Rattle.sm_syntax.specs.text.Sorts.{IsAsDeclared};
ghost use Rattle.sm_syntax.specs.trees.Copies.{copy_named, of_copy};
ghost use Rattle.sm_syntax.specs.trees.Programs.{outputs_of};
ghost use Rattle.sm_term.specs.Formulas.{numbered};
ghost use Rattle.sm_term.specs.Formulas as over;
ghost use Rattle.sm_term.specs.Terms as tree;
ghost use Rattle.sm_term.specs.Tables.{trees_in, sorts_in};
ghost use Rattle.sm_term.specs.TableLaws.{AddsTerms};
ghost use Rattle.sm_plan.specs.ReadyStates.{AreFormsReady};
ghost use Rattle.sm_plan.specs.SortedStates.{AreOutputsDeclared};
ghost use Rattle.sm_plan.specs.Starts.{goals_over, with_sorts};
ghost use Rattle.sm_plan.specs.States as state;
ghost use Rattle.sm_plan.specs.Views.{forms_in};

use crate::state::Formulas;
use crate::steps::made;
use sm_syntax::{CopyName, Name, Outputs, PerCopy, Sort};
use sm_term::{Formula, Term, TermId, TermTable};
use std::alloc::{AllocError, Global};

// One formula or another.
fn either(alloc: Global, p: Formula, q: Formula) -> Result<Formula, AllocError>
    ensures { IfOk result (λ f. numbered f ≡ over.Or (numbered p) (numbered q)) }
{
    let first = Box::new(alloc, p)?;
    let second = Box::new(alloc, q)?;
    Ok(Formula::Or(first, second))
}

// Puts the goals of an output behind others.
fn put_goals(alloc: Global, list: &mut Vec<Formula>, at: &PerCopy<TermId>) -> Result<(), AllocError>
    ensures { let goals = goals_over (λ c. (of_copy at.now c).0) in
        OnOk result (map numbered list.new.items ≡ map numbered list.old.items ++ goals) }
{
    let (o, a, b, m) = (at.base, at.variant_a, at.variant_b, at.candidate);
    list.push(either(alloc, Formula::Eq(o, a), Formula::Eq(m, a))?)?;
    list.push(either(alloc, Formula::Eq(o, b), Formula::Eq(m, b))?)?;
    let last = either(alloc, Formula::Ne(a, b), Formula::Eq(m, o))?;
    list.push(either(alloc, Formula::Ne(o, a), last)?)?;
    Ok(())
}

// The place of an output's cell in a copy.
fn place(table: &mut TermTable, copy: CopyName, x: Name, sort: Sort) -> Result<TermId, AllocError>
    requires { IsAsDeclared (sorts_in table.old) x.0 sort }
    ensures made { let t = state.place (x.0, sort) (copy_named copy) in
        IfOk result (λ id. slice_get (trees_in table.new) id.0 ≡ Some t) }
    ensures grows { AddsTerms table.old table.new }
{
    let slot = Term::Slot {
        copy: copy.number(),
        name: x,
    };
    let t = made(table, slot)?;
    match sort {
        Sort::Num => Ok(t),
        Sort::Arr => {
            let i = made(table, Term::Cell)?;
            made(table, Term::Read(t, i))
        }
    }
}

// The places of an output's cell in all copies.
fn places(table: &mut TermTable, x: Name, sort: Sort) -> Result<PerCopy<TermId>, AllocError>
    requires { IsAsDeclared (sorts_in table.old) x.0 sort }
    ensures made { (c : Copy) → IfOk result (λ p.
        slice_get (trees_in table.new) (of_copy p c).0 ≡ Some (state.place (x.0, sort) c)) }
    ensures grows { AddsTerms table.old table.new }
{
    let base = place(table, CopyName::O, x, sort)?;
    let variant_a = place(table, CopyName::A, x, sort)?;
    let variant_b = place(table, CopyName::B, x, sort)?;
    let candidate = place(table, CopyName::M, x, sort)?;
    Ok(PerCopy {
        base,
        variant_a,
        variant_b,
        candidate,
    })
}

// The goals of outputs, in order.
pub(crate) fn target(
    alloc: Global,
    table: &mut TermTable,
    outputs: &Outputs,
) -> Result<Formulas, AllocError>
    requires { let sorts = sorts_in table.old in
        AreOutputsDeclared sorts (with_sorts sorts (outputs_of outputs.now)) }
    ensures made { let all = with_sorts (sorts_in table.old) (outputs_of outputs.now) in
        IfOk result (λ fs. forms_in (sorts_in table.new) (trees_in table.new) fs.list.items
        ≡ flat_map (λ o. state.keeps_goals (state.place o)) all) }
    ensures ready { IfOk result (λ fs.
        AreFormsReady (sorts_in table.new) (trees_in table.new) fs.list.items) }
    ensures grows { AddsTerms table.old table.new }
{
    let mut list = Vec::new(alloc);
    for x in &outputs.list {
        let sort = table.sort_named(*x);
        let at = places(table, *x, sort)?;
        put_goals(alloc, &mut list, &at)?;
    }
    Ok(Formulas { list })
}
