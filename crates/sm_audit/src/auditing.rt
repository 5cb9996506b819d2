// Plans with certificates that can be written.
ghost use Rattle.std.specs.Prelude.{◌≡◌, true, false, length, map, List, IfOk, OnErr, OnOk};
ghost use Rattle.sm_syntax.specs.text.Parts.{sort_of, task_of};
ghost use Rattle.sm_syntax.specs.trees.Programs.{declared_of};
ghost use Rattle.sm_term.specs.Tables.{trees_in, sorts_in};
ghost use Rattle.sm_term.specs.TableLaws.{ExtendsTable};
ghost use Rattle.sm_cert.specs.Views.{certificate_in};
ghost use Rattle.sm_plan.specs.SortedStates.{IsTaskSorted};
ghost use Rattle.sm_plan.specs.Starts.{AreNumbered};
ghost use Rattle.sm_plan.specs.States.{State};
ghost use Rattle.sm_task.specs.Filling.{AreFilled};
ghost use Rattle.sm_text.specs.Tasks.{parts_of};
ghost use Rattle.sm_expand.specs.NumberedPlans.{IsPlanReady};
ghost use Rattle.sm_expand.specs.Views.{numbered_plan, plan_in, dues_in, AreDuesReady};
ghost use Rattle.sm_write.specs.TreesWithin.{AreTreesWithin};
ghost use Rattle.sm_write.specs.Writable.{IsWritable, all_goals};
ghost use Rattle.sm_audit.specs.Fit.{AreGoalsFit};
ghost use Rattle.sm_audit.specs.Known.{AreRowsKnown};
ghost use Rattle.sm_audit.specs.Since.{AreSince};

use crate::asking::dues_of;
use crate::checking::check_dues;
use crate::kept::are_rows_known;
use crate::ready::is_plan_ready;
use crate::refusal::Refusal;
use crate::walking::walk;
use sm_cert::CertTree;
use sm_expand::{Due, Plan};
use sm_plan::NodeRow;
use sm_syntax::{Block, PerCopy};
use sm_task::{Task, fill_all};
use sm_term::TermTable;
use std::alloc::{AllocError, Global};

/// Whether a plan and certificates for a task can be written as a proof file, over a table of the
/// task's declarations. Nothing is asked of the plan and the certificates. After `false` and after
/// want of memory the table has the terms that it had.
pub fn is_writable(
    alloc: Global,
    table: &mut TermTable,
    task: &Task,
    plan: &Plan,
    trees: &[CertTree],
) -> Result<bool, AllocError>
    requires sorted { let t = parts_of task.now in IsTaskSorted (sort_of t.declared) (task_of t) }
    requires numbered { AreNumbered (declared_of task.now.shared.decls) }
    requires declared { sorts_in table.old ≡ sort_of (declared_of task.now.shared.decls) }

    // What `write_proof` asks.
    ensures plan { IfOk result (λ b. b ≡ true →
        IsPlanReady (sorts_in table.new) (trees_in table.new) (numbered_plan plan.now)) }
    ensures trees { IfOk result (λ b. b ≡ true →
        AreTreesWithin (length (trees_in table.new)) trees.now) }
    ensures writable { let terms = trees_in table.new in IfOk result (λ b. b ≡ true →
        IsWritable (parts_of task.now) (plan_in (sorts_in table.new) terms plan.now)
        (map (certificate_in terms) trees.now)) }

    // Each term keeps its number.
    ensures widens { ExtendsTable table.old table.new }
    ensures unchanged { IfOk result (λ b. b ≡ false → trees_in table.new ≡ trees_in table.old) }
    ensures err { OnErr result (trees_in table.new ≡ trees_in table.old) }
{
    let len = table.len();
    match check_all(alloc, table, task, plan, trees) {
        Ok(()) => Ok(true),
        Err(refusal) => {
            table.cut(len);
            answer(refusal)
        }
    }
}

// What is answered where the whole wasn't found to be writable.
fn answer(refusal: Refusal) -> Result<bool, AllocError>
    ensures { IfOk result (λ b. b ≡ false) }
{
    match refusal {
        Refusal::Unfit => Ok(false),
        Refusal::Memory => Err(AllocError),
    }
}

// Checks all that must be so of a plan and certificates that can be written. An error leaves the
// terms that were made.
fn check_all(
    alloc: Global,
    table: &mut TermTable,
    task: &Task,
    plan: &Plan,
    trees: &[CertTree],
) -> Result<(), Refusal>
    requires sorted { let t = parts_of task.now in IsTaskSorted (sort_of t.declared) (task_of t) }
    requires numbered { AreNumbered (declared_of task.now.shared.decls) }
    requires declared { sorts_in table.old ≡ sort_of (declared_of task.now.shared.decls) }
    ensures plan { OnOk result
        (IsPlanReady (sorts_in table.new) (trees_in table.new) (numbered_plan plan.now)) }
    ensures trees { OnOk result (AreTreesWithin (length (trees_in table.new)) trees.now) }
    ensures writable { let terms = trees_in table.new in OnOk result
        (IsWritable (parts_of task.now) (plan_in (sorts_in table.new) terms plan.now)
        (map (certificate_in terms) trees.now)) }
    ensures widens { ExtendsTable table.old table.new }
{
    if !is_plan_ready(table, plan, 1000) {
        return Err(Refusal::Unfit);
    }
    let programs = fill_all(alloc, task)?;
    check_asked(alloc, table, task, &programs, plan, trees)
}

// Checks a plan that is ready, and certificates for what it asks of a task with these programs.
fn check_asked(
    alloc: Global,
    table: &mut TermTable,
    task: &Task,
    programs: &PerCopy<Block>,
    plan: &Plan,
    trees: &[CertTree],
) -> Result<(), Refusal>
    requires sorted { let t = parts_of task.now in IsTaskSorted (sort_of t.declared) (task_of t) }
    requires numbered { AreNumbered (declared_of task.now.shared.decls) }
    requires declared { sorts_in table.old ≡ sort_of (declared_of task.now.shared.decls) }
    requires filled { AreFilled (parts_of task.now) programs.now }
    requires plan { IsPlanReady (sorts_in table.old) (trees_in table.old) (numbered_plan plan.now) }
    ensures trees { OnOk result (AreTreesWithin (length (trees_in table.new)) trees.now) }
    ensures writable { let terms = trees_in table.new in OnOk result
        (IsWritable (parts_of task.now) (plan_in (sorts_in table.new) terms plan.now)
        (map (certificate_in terms) trees.now)) }
    ensures widens { ExtendsTable table.old table.new }
{
    let dues = dues_of(alloc, table, task, programs, plan)?;
    let (since, rows) = walk(alloc, table, task, programs, plan)?;
    check_noted(
        alloc,
        table,
        since.as_slice(),
        rows.as_slice(),
        dues.list.as_slice(),
        trees,
    )
}

// Checks the nodes of a plan, and certificates for what it asks, by what can be named from where on.
fn check_noted(
    alloc: Global,
    table: &TermTable,
    since: &[Option<u64>],
    rows: &[NodeRow<'_>],
    dues: &[Due],
    trees: &[CertTree],
) -> Result<(), Refusal>
    requires { AreDuesReady (sorts_in table.now) (trees_in table.now) dues.now }
    ensures known { OnOk result (AreRowsKnown since.now 0 rows.now) }
    ensures fit { let sorts = sorts_in table.now in let terms = trees_in table.now in
        (states : List State) → AreSince sorts states terms since.now → OnOk result
        (AreGoalsFit sorts states terms (all_goals (dues_in sorts terms dues.now)) trees.now) }
{
    if are_rows_known(since, rows) {
        check_dues(alloc, table, since, dues, trees)
    } else {
        Err(Refusal::Unfit)
    }
}
