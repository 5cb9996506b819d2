// The obligations of a plan.
ghost use Rattle.std.specs.Prelude.{◌≡◌, reverse, option_map, Ok, IfOk, IfErr, IfSome, OnErr};
ghost use Rattle.sm_syntax.specs.claim.ConflictFree.{Copy, Task};
ghost use Rattle.sm_syntax.specs.text.Parts.{sort_of, sorted_outputs};
ghost use Rattle.sm_syntax.specs.text.Sorts.{IsWellSorted, IsWellSortedCondition};
ghost use Rattle.sm_syntax.specs.trees.Copies.{of_copy};
ghost use Rattle.sm_syntax.specs.trees.Programs.{declared_of, outputs_of};
ghost use Rattle.sm_syntax.specs.trees.Views.{condition_of, code_of};
ghost use Rattle.sm_term.specs.Tables.{TableValue, trees_in, sorts_in};
ghost use Rattle.sm_term.specs.TableLaws.{ExtendsTable};
ghost use Rattle.sm_plan.specs.Plans as plain;
ghost use Rattle.sm_plan.specs.ReadyStates.{IsStateReady, AreFormsReady};
ghost use Rattle.sm_plan.specs.SortedStates.{AreOutputsDeclared};
ghost use Rattle.sm_plan.specs.Starts.{AreNumbered};
ghost use Rattle.sm_plan.specs.Views.{forms_in, state_in};
ghost use Rattle.sm_expand.specs.NumberedPlans.{IsPlanReady};
ghost use Rattle.sm_expand.specs.Views.{numbered_plan, plan_in, dues_in, AreDuesReady, FaultTells};
ghost use Rattle.sm_expand.specs.Tasks.{HasParts};
ghost use Rattle.sm_expand.specs.Walks.{outcome, IsReadyWith};

use crate::cursor::start_of;
use crate::depth::is_deep;
use crate::due::Obligations;
use crate::fault::PlanFault;
use crate::nodes::take_node;
use crate::plan::Plan;
use crate::walk::{Waiting, Walk};
use sm_plan::{Formulas, SymState, start_state};
use sm_syntax::{Block, Cond, Decls, Outputs, PerCopy};
use sm_term::TermTable;
use std::alloc::{AllocError, Global};
use std::rc::Rc;

// Where the expansion of a plan begins, at a state with facts.
fn start_walk<'a, 'p>(
    alloc: Global,
    state: SymState<'a>,
    facts: Formulas,
    plan: &'p Plan,
) -> Result<Walk<'a, 'p>, AllocError>
    ensures start { (t : TableValue) → let sorts = sorts_in t in let trees = trees_in t in
        let st = state_in sorts trees (forms_in sorts trees facts.list.items) state.entry in
        IfOk result (λ w. plain.expand 0 st (plan_in sorts trees plan.now)
        ≡ outcome t w.dues.items w.nodes w.path.list.items (reverse w.waiting.items)) }
    ensures ready { (t : TableValue) → IsStateReady (sorts_in t) (trees_in t) state.entry →
        AreFormsReady (sorts_in t) (trees_in t) facts.list.items →
        IsPlanReady (sorts_in t) (trees_in t) (numbered_plan plan.now) → IfOk result (λ w.
        IsReadyWith t w.path.list.items w.dues.items (reverse w.waiting.items)) }
{
    let mut waiting = Vec::new(alloc);
    waiting.push(Waiting {
        shared: 0,
        kept: Rc::new(alloc, facts)?,
        more: Formulas {
            list: Vec::new(alloc),
        },
        state,
        cursor: start_of(plan),
    })?;
    Ok(Walk {
        nodes: 0,
        dues: Vec::new(alloc),
        path: Formulas {
            list: Vec::new(alloc),
        },
        waiting,
    })
}

// The obligations of a plan at a state.
fn expand_at(
    alloc: Global,
    table: &mut TermTable,
    state: SymState<'_>,
    facts: Formulas,
    plan: &Plan,
) -> Result<Obligations, PlanFault>
    requires state { IsStateReady (sorts_in table.old) (trees_in table.old) state }
    requires facts { AreFormsReady (sorts_in table.old) (trees_in table.old) facts.list.items }
    requires plan { IsPlanReady (sorts_in table.old) (trees_in table.old) (numbered_plan plan.now) }
    ensures ok { let sorts = sorts_in table.old in let trees = trees_in table.old in
        let st = state_in sorts trees (forms_in sorts trees facts.list.items) state.entry in
        IfOk result (λ o. plain.expand 0 st (plan_in sorts trees plan.now)
        ≡ Ok (dues_in (sorts_in table.new) (trees_in table.new) o.list.items)) }
    ensures err { let sorts = sorts_in table.old in let trees = trees_in table.old in
        let st = state_in sorts trees (forms_in sorts trees facts.list.items) state.entry in
        IfErr result (λ e. FaultTells e (plain.expand 0 st (plan_in sorts trees plan.now))) }
    ensures ready { IfOk result (λ o.
        AreDuesReady (sorts_in table.new) (trees_in table.new) o.list.items) }
    ensures widens { ExtendsTable table.old table.new }
{
    let mut walk = start_walk(alloc, state, facts, plan)?;
    while let Some(next) = walk.waiting.pop() {
        take_node(alloc, table, &mut walk, next)?;
    }
    Ok(Obligations { list: walk.dues })
}

/// The obligations of a plan for a task, over a table of the task's declarations. Too many
/// branching nodes above a node are found first, and then the first node whose rule fails. After an
/// error the table has the terms that it had.
#[tactic(auto, using(sm_plan::proofs::TablesWiden::widens_cut, sm_plan::proofs::TablesWiden::cut_back))]
pub fn expand(
    alloc: Global,
    table: &mut TermTable,
    decls: &Decls,
    outputs: &Outputs,
    assumed: Option<&Cond>,
    programs: &PerCopy<Block>,
    plan: &Plan,
) -> Result<Obligations, PlanFault>
    requires declared { sorts_in table.old ≡ sort_of (declared_of decls.now) }
    requires numbered { AreNumbered (declared_of decls.now) }
    requires outputs { let declared = declared_of decls.now in
        AreOutputsDeclared (sort_of declared) (sorted_outputs declared (outputs_of outputs.now)) }
    requires assumed { let sorts = sorts_in table.old in
        IfSome assumed (λ b. IsWellSortedCondition sorts (condition_of b.now)) }
    requires programs { (c : Copy) →
        IsWellSorted (sorts_in table.old) (code_of (of_copy programs.now c)) }
    requires plan { IsPlanReady (sorts_in table.old) (trees_in table.old) (numbered_plan plan.now) }
    ensures ok { let p = plan_in (sorts_in table.old) (trees_in table.old) plan.now in
        let all = sorted_outputs (declared_of decls.now) (outputs_of outputs.now) in
        let b = option_map (λ b. condition_of b.now) assumed.entry in
        (t : Task) → HasParts t b all (λ c. code_of (of_copy programs.now c)) →
        IfOk result (λ o. plain.obligations t p
        ≡ Ok (dues_in (sorts_in table.new) (trees_in table.new) o.list.items)) }
    ensures err { let p = plan_in (sorts_in table.old) (trees_in table.old) plan.now in
        let all = sorted_outputs (declared_of decls.now) (outputs_of outputs.now) in
        let b = option_map (λ b. condition_of b.now) assumed.entry in
        (t : Task) → HasParts t b all (λ c. code_of (of_copy programs.now c)) →
        IfErr result (λ e. FaultTells e (plain.obligations t p)) }

    // The formulas of obligations are those of the table.
    ensures ready { IfOk result (λ o.
        AreDuesReady (sorts_in table.new) (trees_in table.new) o.list.items) }

    // Each term keeps its number.
    ensures widens { ExtendsTable table.old table.new }
    ensures unchanged { OnErr result (trees_in table.new ≡ trees_in table.old) }
{
    let len = table.len();
    match expand_whole(alloc, table, decls, outputs, assumed, programs, plan) {
        Ok(dues) => Ok(dues),
        Err(fault) => {
            table.cut(len);
            Err(fault)
        }
    }
}

// The obligations of a plan for a task, where an error leaves the terms that were made.
fn expand_whole(
    alloc: Global,
    table: &mut TermTable,
    decls: &Decls,
    outputs: &Outputs,
    assumed: Option<&Cond>,
    programs: &PerCopy<Block>,
    plan: &Plan,
) -> Result<Obligations, PlanFault>
    requires declared { sorts_in table.old ≡ sort_of (declared_of decls.now) }
    requires numbered { AreNumbered (declared_of decls.now) }
    requires outputs { let declared = declared_of decls.now in
        AreOutputsDeclared (sort_of declared) (sorted_outputs declared (outputs_of outputs.now)) }
    requires assumed { let sorts = sorts_in table.old in
        IfSome assumed (λ b. IsWellSortedCondition sorts (condition_of b.now)) }
    requires programs { (c : Copy) →
        IsWellSorted (sorts_in table.old) (code_of (of_copy programs.now c)) }
    requires plan { IsPlanReady (sorts_in table.old) (trees_in table.old) (numbered_plan plan.now) }
    ensures ok { let p = plan_in (sorts_in table.old) (trees_in table.old) plan.now in
        let all = sorted_outputs (declared_of decls.now) (outputs_of outputs.now) in
        let b = option_map (λ b. condition_of b.now) assumed.entry in
        (t : Task) → HasParts t b all (λ c. code_of (of_copy programs.now c)) →
        IfOk result (λ o. plain.obligations t p
        ≡ Ok (dues_in (sorts_in table.new) (trees_in table.new) o.list.items)) }
    ensures err { let p = plan_in (sorts_in table.old) (trees_in table.old) plan.now in
        let all = sorted_outputs (declared_of decls.now) (outputs_of outputs.now) in
        let b = option_map (λ b. condition_of b.now) assumed.entry in
        (t : Task) → HasParts t b all (λ c. code_of (of_copy programs.now c)) →
        IfErr result (λ e. FaultTells e (plain.obligations t p)) }
    ensures ready { IfOk result (λ o.
        AreDuesReady (sorts_in table.new) (trees_in table.new) o.list.items) }
    ensures widens { ExtendsTable table.old table.new }
{
    if is_deep(plan, 1000) {
        return Err(PlanFault::Deep);
    }
    let (state, facts) = start_state(alloc, table, decls, outputs, assumed, programs)?;
    expand_at(alloc, table, state, facts, plan)
}
