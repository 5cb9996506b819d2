// Proof files.
ghost use Rattle.std.specs.Prelude.{◌≡◌, ◌++◌, length, map, IfOk, OnErr, OnOk};
ghost use Rattle.sm_syntax.specs.text.Parts.{sort_of, task_of};
ghost use Rattle.sm_syntax.specs.trees.Programs.{declared_of};
ghost use Rattle.sm_term.specs.Tables.{trees_in, sorts_in};
ghost use Rattle.sm_term.specs.TableLaws.{ExtendsTable};
ghost use Rattle.sm_cert.specs.Views.{certificate_in};
ghost use Rattle.sm_plan.specs.SortedStates.{IsTaskSorted};
ghost use Rattle.sm_plan.specs.Starts.{AreNumbered};
ghost use Rattle.sm_proof.specs.Lines.{Header};
ghost use Rattle.sm_proof.specs.Verdicts.{Subject, Passes, subject_of};
ghost use Rattle.sm_task.specs.Filling.{AreFilled};
ghost use Rattle.sm_text.specs.Tasks.{parts_of};
ghost use Rattle.sm_prune.specs.UsedLines.{HasNamedLines};
ghost use Rattle.sm_expand.specs.NumberedPlans.{IsPlanReady};
ghost use Rattle.sm_expand.specs.Views.{numbered_plan, plan_in};
ghost use Rattle.sm_write.specs.Bytes.{line_text};
ghost use Rattle.sm_write.specs.TreesWithin.{AreTreesWithin};
ghost use Rattle.sm_write.specs.Underway.{IsFresh, IsWhole};
ghost use Rattle.sm_write.specs.Values.{value_of};
ghost use Rattle.sm_write.specs.Versions.{HasVersion, version_where};
ghost use Rattle.sm_write.specs.Writable.{IsWritable};

use crate::plans::write_nodes;
use crate::rereading::lean_text;
use crate::text::put_version;
use crate::writer::Writer;
use sm_cert::CertTree;
use sm_expand::{PlacedState, Plan, start_of};
use sm_plan::start_state;
use sm_syntax::{Block, PerCopy};
use sm_task::{Task, fill_all};
use sm_term::TermTable;
use std::alloc::{AllocError, Global};
use std::collections::HashMap;

// A writer that wrote nothing.
fn fresh_writer(alloc: Global) -> Writer
    ensures { (s : Subject) → IsFresh s (value_of result) }
{
    Writer {
        text: Vec::new(alloc),
        exact: false,
        names: HashMap::new(alloc),
        order: Vec::new(alloc),
        forms: 0,
        nodes: 0,
    }
}

// The file of lines, behind the version line, which is known once all lines are.
fn finished(alloc: Global, lines: &[u8], exact: bool, assumes: bool) -> Result<Vec<u8>, AllocError>
    ensures { IfOk result (λ text. text.items
        ≡ line_text (Header (version_where exact assumes)) ++ lines.now) }
{
    let mut text = Vec::new(alloc);
    put_version(&mut text, exact, assumes)?;
    text.extend_from_slice(lines)?;
    Ok(text)
}

/// The proof file of a plan for a task, over a table of the task's declarations, with a certificate
/// for each goal of the plan's obligations, in order. After want of memory the table has the terms
/// that it had.
pub fn write_proof(
    alloc: Global,
    table: &mut TermTable,
    task: &Task,
    plan: &Plan,
    trees: &[CertTree],
) -> Result<Vec<u8>, AllocError>
    requires sorted { let t = parts_of task.now in IsTaskSorted (sort_of t.declared) (task_of t) }
    requires numbered { AreNumbered (declared_of task.now.shared.decls) }
    requires declared { sorts_in table.old ≡ sort_of (declared_of task.now.shared.decls) }
    requires plan { IsPlanReady (sorts_in table.old) (trees_in table.old) (numbered_plan plan.now) }
    requires trees { AreTreesWithin (length (trees_in table.old)) trees.now }
    requires writable { let terms = trees_in table.old in IsWritable (parts_of task.now)
        (plan_in (sorts_in table.old) terms plan.now) (map (certificate_in terms) trees.now) }
    ensures passes { IfOk result (λ text. Passes (parts_of task.now) text.items) }
    ensures version { IfOk result (λ text. HasVersion (parts_of task.now) text.items) }

    // Each line that makes a term or a formula is named by a later one.
    ensures named { IfOk result (λ text. HasNamedLines text.items) }

    // Each term keeps its number.
    ensures widens { ExtendsTable table.old table.new }
    ensures err { OnErr result (trees_in table.new ≡ trees_in table.old) }
{
    let len = table.len();
    match written_proof(alloc, table, task, plan, trees) {
        Ok(text) => Ok(text),
        Err(refused) => {
            table.cut(len);
            Err(refused)
        }
    }
}

// Writes the proof. An error leaves the terms that were made.
fn written_proof(
    alloc: Global,
    table: &mut TermTable,
    task: &Task,
    plan: &Plan,
    trees: &[CertTree],
) -> Result<Vec<u8>, AllocError>
    requires sorted { let t = parts_of task.now in IsTaskSorted (sort_of t.declared) (task_of t) }
    requires numbered { AreNumbered (declared_of task.now.shared.decls) }
    requires declared { sorts_in table.old ≡ sort_of (declared_of task.now.shared.decls) }
    requires plan { IsPlanReady (sorts_in table.old) (trees_in table.old) (numbered_plan plan.now) }
    requires trees { AreTreesWithin (length (trees_in table.old)) trees.now }
    requires writable { let terms = trees_in table.old in IsWritable (parts_of task.now)
        (plan_in (sorts_in table.old) terms plan.now) (map (certificate_in terms) trees.now) }
    ensures passes { IfOk result (λ text. Passes (parts_of task.now) text.items) }
    ensures version { IfOk result (λ text. HasVersion (parts_of task.now) text.items) }
    ensures named { IfOk result (λ text. HasNamedLines text.items) }
    ensures widens { ExtendsTable table.old table.new }
{
    let mut w = fresh_writer(alloc);
    write_task(alloc, &mut w, table, task, plan, trees)?;
    let lean = lean_text(alloc, w.text.as_slice())?;
    finished(alloc, lean.as_slice(), w.exact, task.assumed.is_some())
}

// Writes the lines of a proof by a writer that wrote nothing.
fn write_task(
    alloc: Global,
    w: &mut Writer,
    table: &mut TermTable,
    task: &Task,
    plan: &Plan,
    trees: &[CertTree],
) -> Result<(), AllocError>
    requires sorted { let t = parts_of task.now in IsTaskSorted (sort_of t.declared) (task_of t) }
    requires numbered { AreNumbered (declared_of task.now.shared.decls) }
    requires declared { sorts_in table.old ≡ sort_of (declared_of task.now.shared.decls) }
    requires plan { IsPlanReady (sorts_in table.old) (trees_in table.old) (numbered_plan plan.now) }
    requires trees { AreTreesWithin (length (trees_in table.old)) trees.now }
    requires writable { let terms = trees_in table.old in IsWritable (parts_of task.now)
        (plan_in (sorts_in table.old) terms plan.now) (map (certificate_in terms) trees.now) }
    ensures written { let s = subject_of (parts_of task.now) in
        IsFresh s (value_of w.old) → OnOk result (IsWhole s (value_of w.new)) }
    ensures widens { ExtendsTable table.old table.new }
{
    let programs = fill_all(alloc, task)?;
    write_from_start(alloc, w, table, task, &programs, plan, trees)
}

// Writes the lines of a proof for a task with these programs.
fn write_from_start(
    alloc: Global,
    w: &mut Writer,
    table: &mut TermTable,
    task: &Task,
    programs: &PerCopy<Block>,
    plan: &Plan,
    trees: &[CertTree],
) -> Result<(), AllocError>
    requires sorted { let t = parts_of task.now in IsTaskSorted (sort_of t.declared) (task_of t) }
    requires numbered { AreNumbered (declared_of task.now.shared.decls) }
    requires declared { sorts_in table.old ≡ sort_of (declared_of task.now.shared.decls) }
    requires filled { AreFilled (parts_of task.now) programs.now }
    requires plan { IsPlanReady (sorts_in table.old) (trees_in table.old) (numbered_plan plan.now) }
    requires trees { AreTreesWithin (length (trees_in table.old)) trees.now }
    requires writable { let terms = trees_in table.old in IsWritable (parts_of task.now)
        (plan_in (sorts_in table.old) terms plan.now) (map (certificate_in terms) trees.now) }
    ensures written { let s = subject_of (parts_of task.now) in
        IsFresh s (value_of w.old) → OnOk result (IsWhole s (value_of w.new)) }
    ensures widens { ExtendsTable table.old table.new }
{
    let shared = &task.shared;
    let (state, _facts) = start_state(
        alloc,
        table,
        &shared.decls,
        &shared.outputs,
        task.assumed.as_ref(),
        programs,
    )?;
    let first = PlacedState {
        state,
        cursor: start_of(plan),
    };
    write_nodes(alloc, w, table, first, trees)
}
