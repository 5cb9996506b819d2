// Plans whose kept formulas are in a table, each part with the sort that it is used with.
ghost use Rattle.std.specs.Bool.{OnTrue};
ghost use Rattle.std.specs.Prelude.{◌≡◌, ◌<◌, length, map};
ghost use Rattle.sm_syntax.specs.declared.tree.Sort.TheVariants.{Num};
ghost use Rattle.sm_term.specs.Formulas.{numbered, assertion_in, IsFormulaWithin};
ghost use Rattle.sm_term.specs.Sorted.{IsFormSorted, tree_sort};
ghost use Rattle.sm_term.specs.Tables.{trees_in, sorts_in, tree_at};
ghost use Rattle.sm_expand.specs.NumberedPlans.{ArePlansReady, IsPlanReady, Over, plans_before};
ghost use Rattle.sm_expand.specs.Views.{numbered_plan};

use sm_expand::{Last, Plan};
use sm_syntax::Sort;
use sm_term::{Formula, TermId, TermTable};

// Whether two terms are in a table.
fn are_there(table: &TermTable, t: TermId, u: TermId) -> bool
    ensures left { OnTrue result (t.0 < length (trees_in table.now)) }
    ensures right { OnTrue result (u.0 < length (trees_in table.now)) }
{
    t.0 < table.len() && u.0 < table.len()
}

// Whether two terms are in a table and have one sort.
fn have_one_sort(table: &TermTable, t: TermId, u: TermId) -> bool
    ensures left { OnTrue result (t.0 < length (trees_in table.now)) }
    ensures right { OnTrue result (u.0 < length (trees_in table.now)) }
    ensures sorts { let trees = trees_in table.now in let sorts = sorts_in table.now in
        OnTrue result (tree_sort sorts (tree_at trees t.0) ≡ tree_sort sorts (tree_at trees u.0)) }
{
    if !are_there(table, t, u) {
        return false;
    }
    match (table.sort(t), table.sort(u)) {
        (Sort::Num, Sort::Num) => true,
        (Sort::Arr, Sort::Arr) => true,
        _ => false,
    }
}

// Whether two terms are numbers of a table.
fn are_numbers(table: &TermTable, t: TermId, u: TermId) -> bool
    ensures left { OnTrue result (t.0 < length (trees_in table.now)) }
    ensures right { OnTrue result (u.0 < length (trees_in table.now)) }
    ensures left_sort { let trees = trees_in table.now in
        OnTrue result (tree_sort (sorts_in table.now) (tree_at trees t.0) ≡ Num) }
    ensures right_sort { let trees = trees_in table.now in
        OnTrue result (tree_sort (sorts_in table.now) (tree_at trees u.0) ≡ Num) }
{
    if !are_there(table, t, u) {
        return false;
    }
    match (table.sort(t), table.sort(u)) {
        (Sort::Num, Sort::Num) => true,
        _ => false,
    }
}

// Whether the terms of a formula are in a table, each of the sort that it needs there.
fn is_form_ready(table: &TermTable, f: &Formula) -> bool
    ensures within { OnTrue result
        (IsFormulaWithin (length (trees_in table.now)) (numbered f.now)) }
    ensures sorted { OnTrue result (IsFormSorted (sorts_in table.now)
        (assertion_in (sorts_in table.now) (trees_in table.now) (numbered f.now))) }
{
    // The terms of a table are sorted, as its length ensures.
    let _count = table.len();
    match f {
        Formula::Yes => true,
        Formula::No => true,
        Formula::Eq(t, u) => have_one_sort(table, *t, *u),
        Formula::Ne(t, u) => have_one_sort(table, *t, *u),
        Formula::Le(t, u) => are_numbers(table, *t, *u),
        Formula::Lt(t, u) => are_numbers(table, *t, *u),
        Formula::And(p, q) => is_form_ready(table, p) && is_form_ready(table, q),
        Formula::Or(p, q) => is_form_ready(table, p) && is_form_ready(table, q),
    }
}

/// Whether the terms of each formula that a plan keeps are in a table, with their sorts, and no more than `allowed` branching nodes stand
/// above a node. It goes no deeper than that.
#[cycle(ready)]
pub fn is_plan_ready(table: &TermTable, plan: &Plan, allowed: u64) -> bool
    ensures { OnTrue result
        (IsPlanReady (sorts_in table.now) (trees_in table.now) (numbered_plan plan.now)) }
{
    match &plan.last {
        Last::Fork { yes, no, .. } => {
            if allowed == 0 {
                return false;
            }
            if !is_plan_ready(table, yes, allowed - 1) {
                return false;
            }
            is_plan_ready(table, no, allowed - 1)
        }
        Last::Loop {
            keep,
            turns,
            after,
            ..
        } => {
            if allowed == 0 {
                return false;
            }
            if !is_form_ready(table, keep) {
                return false;
            }
            if !are_plans_ready(table, turns.list.as_slice(), allowed - 1) {
                return false;
            }
            is_plan_ready(table, after, allowed - 1)
        }
        Last::Block {
            keep,
            inner,
            after,
            ..
        } => {
            if allowed == 0 {
                return false;
            }
            if !is_form_ready(table, keep) {
                return false;
            }
            if !is_plan_ready(table, inner, allowed - 1) {
                return false;
            }
            is_plan_ready(table, after, allowed - 1)
        }
        Last::Dead => true,
        Last::End => true,
    }
}

// Whether each of several plans is ready.
#[cycle(ready)]
fn are_plans_ready(table: &TermTable, plans: &[Plan], allowed: u64) -> bool
    ensures { OnTrue result (ArePlansReady (sorts_in table.now) (trees_in table.now)
        (plans_before (map numbered_plan plans.now) Over)) }
{
    for plan in plans {
        if !is_plan_ready(table, plan, allowed) {
            return false;
        }
    }
    true
}
