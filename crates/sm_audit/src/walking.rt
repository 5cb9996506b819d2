// From which nodes of a task's plan on terms can be named.
ghost use Rattle.std.specs.Prelude.{◌≡◌, List, map, IfOk};
ghost use Rattle.sm_syntax.specs.text.Parts.{sort_of, task_of};
ghost use Rattle.sm_syntax.specs.text.Sorts.{Sorts};
ghost use Rattle.sm_syntax.specs.trees.Programs.{declared_of};
ghost use Rattle.sm_term.specs.Tables.{trees_in, sorts_in};
ghost use Rattle.sm_term.specs.TableLaws.{ExtendsTable};
ghost use Rattle.sm_term.specs.Terms.{Tree};
ghost use Rattle.sm_text.specs.Tasks.{parts_of};
ghost use Rattle.sm_task.specs.Filling.{AreFilled};
ghost use Rattle.sm_plan.specs.Plans.{nodes_of};
ghost use Rattle.sm_plan.specs.SortedStates.{IsTaskSorted};
ghost use Rattle.sm_plan.specs.Starts.{AreNumbered};
ghost use Rattle.sm_plan.specs.States as plain;
ghost use Rattle.sm_plan.specs.Views.{node_in};
ghost use Rattle.sm_expand.specs.NumberedPlans.{IsPlanReady};
ghost use Rattle.sm_expand.specs.Views.{numbered_plan, plan_in};
ghost use Rattle.sm_write.specs.PlanStates.{plan_states};
ghost use Rattle.sm_audit.specs.Since.{AreSince};

use crate::entries::no_entries;
use crate::noting::note_nodes;
use crate::refusal::Refusal;
use crate::spreading::spread;
use sm_expand::{PlacedState, Plan, start_of};
use sm_plan::{NodeRow, start_state};
use sm_syntax::{Block, PerCopy};
use sm_task::Task;
use sm_term::TermTable;
use std::alloc::Global;

/// The entries of the terms of a table, and the rows of a plan's nodes.
pub(crate) fn walk<'p>(
    alloc: Global,
    table: &mut TermTable,
    task: &Task,
    programs: &PerCopy<Block>,
    plan: &'p Plan,
) -> Result<(Vec<Option<u64>>, Vec<NodeRow<'p>>), Refusal>
    requires declared { sorts_in table.old ≡ sort_of (declared_of task.now.shared.decls) }
    requires numbered { AreNumbered (declared_of task.now.shared.decls) }
    requires sorted { let t = parts_of task.now in IsTaskSorted (sort_of t.declared) (task_of t) }
    requires filled { AreFilled (parts_of task.now) programs.now }
    requires plan { IsPlanReady (sorts_in table.old) (trees_in table.old) (numbered_plan plan.now) }
    ensures since { let p = plan_in (sorts_in table.old) (trees_in table.old) plan.now in
        let states = plan_states 0 (plain.start_state (task_of (parts_of task.now))) p in
        IfOk result (λ r. AreSince (sorts_in table.new) states (trees_in table.new) r.0.items) }
    ensures rows { (sorts : Sorts) (trees : List Tree) → IfOk result (λ r.
        map (node_in sorts trees) r.1.items ≡ nodes_of (plan_in sorts trees plan.now)) }
    ensures widens { ExtendsTable table.old table.new }
{
    let shared = &task.shared;
    let assumed = task.assumed.as_ref();
    let (state, _facts) = start_state(
        alloc,
        table,
        &shared.decls,
        &shared.outputs,
        assumed,
        programs,
    )?;
    let mut since = no_entries(alloc, table.len())?;
    let first = PlacedState {
        state,
        cursor: start_of(plan),
    };
    let rows = note_nodes(alloc, table, &mut since, first)?;
    spread(table, &mut since);
    Ok((since, rows))
}
