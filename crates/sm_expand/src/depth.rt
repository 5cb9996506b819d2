// How deep plans branch.
ghost use Rattle.std.specs.Prelude.{◌≡◌, List, map, nat_lt};
ghost use Rattle.sm_syntax.specs.text.Sorts.{Sorts};
ghost use Rattle.sm_term.specs.Terms.{Tree};
ghost use Rattle.sm_plan.specs.Plans.{branches, most_branches};
ghost use Rattle.sm_expand.specs.NumberedPlans.{plans_over, plans_before, Over};
ghost use Rattle.sm_expand.specs.Views.{numbered_plan, plan_in};

use crate::plan::{Last, Plan};

// Whether more than `allowed` branching nodes stand above a node. It goes no deeper than that.
#[cycle(depth)]
pub(crate) fn is_deep(plan: &Plan, allowed: u64) -> bool
    ensures { (sorts : Sorts) (trees : List Tree) →
        result ≡ nat_lt allowed (branches (plan_in sorts trees plan.now)) }
{
    match &plan.last {
        Last::Fork { yes, no, .. } => {
            if allowed == 0 {
                return true;
            }
            if is_deep(yes, allowed - 1) {
                return true;
            }
            is_deep(no, allowed - 1)
        }
        Last::Loop { turns, after, .. } => {
            if allowed == 0 {
                return true;
            }
            if are_deep(turns.list.as_slice(), allowed - 1) {
                return true;
            }
            is_deep(after, allowed - 1)
        }
        Last::Block { inner, after, .. } => {
            if allowed == 0 {
                return true;
            }
            if is_deep(inner, allowed - 1) {
                return true;
            }
            is_deep(after, allowed - 1)
        }
        Last::Dead => false,
        Last::End => false,
    }
}

// Whether one of several plans is so deep.
#[cycle(depth)]
fn are_deep(plans: &[Plan], allowed: u64) -> bool
    ensures { (sorts : Sorts) (trees : List Tree) → result ≡ nat_lt allowed
        (most_branches (plans_over sorts trees (plans_before (map numbered_plan plans.now) Over))) }
{
    for plan in plans {
        if is_deep(plan, allowed) {
            return true;
        }
    }
    false
}
