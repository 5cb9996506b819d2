// The table of an input.
ghost use Rattle.std.specs.Prelude.{◌≡◌, ◌++◌, None, Some, map, unwrap_or, IfOk, IfErr, OnOk};
ghost use Rattle.sm_eval.specs.StoredValues.{meaning, sorts_of};
ghost use Rattle.sm_syntax.specs.claim.ConflictFree.{program_of};
ghost use Rattle.sm_syntax.specs.claim.Keeps.{Element};
ghost use Rattle.sm_syntax.specs.text.Parts.{sort_of, task_of};
ghost use Rattle.sm_syntax.specs.trees.Programs.{declared_of};
ghost use Rattle.sm_task.specs.Filling.{AreFilled};
ghost use Rattle.sm_task.specs.Tasks.{parts_of};
ghost use Rattle.sm_replay.specs.FirstBreak.{sorted_by};
ghost use Rattle.sm_replay.specs.Runs.{code_in, end_in, HaveSort, HaveSorts, Halts};
ghost use Rattle.sm_replay.specs.Sorted.{sort_fault};
ghost use Rattle.sm_explain.specs.Merging.{Grows};
ghost use Rattle.sm_explain.specs.Rows.{cell_rows};
ghost use Rattle.sm_explain.specs.Tables.{element_rows, AreOutputRows, AreRows, IsTable};

use crate::indices::indices_of;
use crate::rows::put_rows;
use sm_eval::Store;
use sm_replay::{ReplayError, ends_of};
use sm_syntax::{Block, Name, NameTable, PerCopy, Sort};
use sm_task::Task;
use std::alloc::{AllocError, Global};

/// The cells of outputs at which the ends of a task's four programs, with their holes filled,
/// differ from one another: the four values of each on a line, and the clauses of the condition
/// that fail there in words. The programs are run once from the start store, where each loop takes
/// at most this many turns each time it is met. The assumption isn't judged. Outputs stand in their
/// order, and the cells of an array by rising index.
pub fn table(
    alloc: Global,
    task: &Task,
    programs: &PerCopy<Block>,
    input: &Store,
    turns: u64,
) -> Result<Vec<u8>, ReplayError>
    requires runs { sort_fault (parts_of task.now) ≡ None }
    requires filled { AreFilled (parts_of task.now) programs.now }
    requires declared { sorts_of input.now ≡ sort_of (declared_of task.now.shared.decls) }
    ensures ok { let t = parts_of task.now in
        IfOk result (λ text. IsTable t (meaning input.now) turns text.items) }
    ensures err { let program = program_of (task_of (parts_of task.now)) in
        IfErr result (Halts program (meaning input.now) turns) }
{
    run_table(alloc, task, programs, input, turns)
}

// The table, or why a program as it is held has no end.
fn run_table(
    alloc: Global,
    task: &Task,
    programs: &PerCopy<Block>,
    input: &Store,
    turns: u64,
) -> Result<Vec<u8>, ReplayError>
    requires runs { sort_fault (parts_of task.now) ≡ None }
    requires filled { AreFilled (parts_of task.now) programs.now }
    requires declared { sorts_of input.now ≡ sort_of (declared_of task.now.shared.decls) }
    ensures ok { let t = parts_of task.now in
        IfOk result (λ text. IsTable t (meaning input.now) turns text.items) }
    ensures err { IfErr result (Halts (code_in programs.now) (meaning input.now) turns) }
{
    let ends = ends_of(alloc, programs, input, turns)?;
    Ok(table_of(alloc, &task.shared.names, &task.shared.outputs.list, &ends)?)
}

// The lines of outputs at four ends.
fn table_of(
    alloc: Global,
    names: &NameTable,
    outputs: &[Name],
    ends: &PerCopy<Store>,
) -> Result<Vec<u8>, AllocError>
    requires { HaveSorts ends.now (sorts_of ends.now.base) }
    ensures { let sorted = sorted_by (sorts_of ends.now.base) (map (λ x. x.0) outputs.now) in
        IfOk result (λ text. AreRows names.now (end_in ends.now) sorted text.items) }
{
    let mut text = Vec::new(alloc);
    for x in outputs {
        put_output(alloc, &mut text, names, ends, *x)?;
    }
    Ok(text)
}

// Puts the lines of an output at the end of a text.
fn put_output(
    alloc: Global,
    out: &mut Vec<u8>,
    names: &NameTable,
    ends: &PerCopy<Store>,
    x: Name,
) -> Result<(), AllocError>
    requires { HaveSorts ends.now (sorts_of ends.now.base) }
    ensures { let sort = unwrap_or (sorts_of ends.now.base x.0) Sort.Num in
        OnOk result (Grows (AreOutputRows names.now (end_in ends.now) x.0 sort)
        out.old.items out.new.items) }
{
    put_sorted(alloc, out, names, ends, x, ends.base.sort(x))
}

// Puts the lines of an output of a sort, none where it has no sort.
fn put_sorted(
    alloc: Global,
    out: &mut Vec<u8>,
    names: &NameTable,
    ends: &PerCopy<Store>,
    x: Name,
    sort: Option<Sort>,
) -> Result<(), AllocError>
    requires { HaveSort ends.now x.0 sort }
    ensures { OnOk result
        (Grows (AreOutputRows names.now (end_in ends.now) x.0 (unwrap_or sort Sort.Num))
        out.old.items out.new.items) }
{
    match sort {
        None => Ok(()),
        Some(Sort::Num) => put_number(out, names, ends, x),
        Some(Sort::Arr) => put_array(alloc, out, names, ends, x),
    }
}

// Puts the lines of a number variable.
fn put_number(
    out: &mut Vec<u8>,
    names: &NameTable,
    ends: &PerCopy<Store>,
    x: Name,
) -> Result<(), AllocError>
    requires { HaveSort ends.now x.0 (Some Sort.Num) }
    ensures { OnOk result
        (Grows (AreOutputRows names.now (end_in ends.now) x.0 Sort.Num)
        out.old.items out.new.items) }
{
    put_rows(out, names, ends, x, None)?;
    Ok(())
}

// Puts the lines of an array.
fn put_array(
    alloc: Global,
    out: &mut Vec<u8>,
    names: &NameTable,
    ends: &PerCopy<Store>,
    a: Name,
) -> Result<(), AllocError>
    requires { HaveSort ends.now a.0 (Some Sort.Arr) }
    ensures { OnOk result
        (Grows (AreOutputRows names.now (end_in ends.now) a.0 Sort.Arr)
        out.old.items out.new.items) }
{
    let indices = indices_of(alloc, ends, a)?;
    put_elements(out, names, ends, a, &indices)?;
    Ok(())
}

// Puts the lines of an array's cells at some indices.
fn put_elements(
    out: &mut Vec<u8>,
    names: &NameTable,
    ends: &PerCopy<Store>,
    a: Name,
    indices: &[i128],
) -> Result<(), AllocError>
    requires { HaveSort ends.now a.0 (Some Sort.Arr) }
    ensures { OnOk result (out.new.items
        ≡ out.old.items ++ element_rows names.now (end_in ends.now) a.0 indices.now) }
{
    for i in indices {
        put_element(out, names, ends, a, i)?;
    }
    Ok(())
}

// Puts the lines of an array's cell.
fn put_element(
    out: &mut Vec<u8>,
    names: &NameTable,
    ends: &PerCopy<Store>,
    a: Name,
    i: &i128,
) -> Result<(), AllocError>
    requires { HaveSort ends.now a.0 (Some Sort.Arr) }
    ensures { OnOk result (out.new.items
        ≡ out.old.items ++ cell_rows names.now (end_in ends.now) (Element a.0 i.now)) }
{
    put_rows(out, names, ends, a, Some(*i))?;
    Ok(())
}
