// The start of a proof.
ghost use Rattle.std.specs.Prelude.{◌≡◌, ◌≤◌, ◌^◌, length, List, IfOk};
ghost use Rattle.sm_syntax.specs.text.Sorts.{Sorts};
ghost use Rattle.sm_syntax.specs.trees.Programs.{declared_of};
ghost use Rattle.sm_term.specs.Tables.{sorts_in};
ghost use Rattle.sm_term.specs.Terms.{Tree};
ghost use Rattle.sm_theory.specs.Facts.{as_facts};
ghost use Rattle.sm_theory.specs.Views.{AllStand};
ghost use Rattle.sm_plan.specs.ReadyStates.{AreFormsReady};
ghost use Rattle.sm_plan.specs.Starts.{AreNumbered};
ghost use Rattle.sm_plan.specs.Views.{forms_in};
ghost use Rattle.sm_proof.specs.Passing.{start_progress};
ghost use Rattle.sm_proof.specs.Verdicts.{subject_of};
ghost use Rattle.sm_task.specs.Filling.{AreFilled};
ghost use Rattle.sm_text.specs.Tasks.{parts_of};
ghost use Rattle.sm_check.specs.Checkable.{IsCheckable};
ghost use Rattle.sm_check.specs.Walks.{Walks};

use crate::due::add_forms;
use crate::pending::Due;
use crate::walk::Walk;
use sm_plan::{Formulas, start_state};
use sm_syntax::{Block, Decls, PerCopy};
use sm_task::Task;
use sm_term::TermTable;
use sm_theory::Branch;
use std::alloc::{AllocError, Global};

// The start of the proof of a task with these programs.
pub(crate) fn start<'a>(
    alloc: Global,
    task: &Task,
    programs: &'a PerCopy<Block>,
) -> Result<Walk<'a>, AllocError>
    requires filled { AreFilled (parts_of task.now) programs.now }
    requires checkable { IsCheckable (parts_of task.now) }
    ensures sorts { let s = subject_of (parts_of task.now) in
        IfOk result (λ w. sorts_in w.table ≡ s.sorts) }
    ensures walks { let s = subject_of (parts_of task.now) in
        IfOk result (λ w. Walks w (start_progress s.start)) }
{
    let shared = &task.shared;
    let mut table = TermTable::new(alloc, &shared.decls)?;
    let (state, facts) = start_state(
        alloc,
        &mut table,
        &shared.decls,
        &shared.outputs,
        task.assumed.as_ref(),
        programs,
    )?;
    let path = branch_of(alloc, &facts)?;
    // The terms of a table are sorted and apart, as its length ensures.
    table.len();
    Ok(Walk {
        table,
        declared: count_of(&shared.decls),
        nodes: 0,
        terms: Vec::new(alloc),
        forms: Vec::new(alloc),
        path,
        due: Some(Due::State { state, above: 0 }),
        waiting: Vec::new(alloc),
    })
}

// How many names are declared: one more than the last has as its number.
fn count_of(decls: &Decls) -> u64
    requires { AreNumbered (declared_of decls.now) }
    ensures count { result ≡ length (declared_of decls.now) }
    ensures fit { result ≤ 2 ^ 32 }
{
    match decls.list.last() {
        Some((name, _)) => u64::from(name.0) + 1,
        None => 0,
    }
}

// The branch of formulas.
fn branch_of(alloc: Global, forms: &Formulas) -> Result<Branch, AllocError>
    ensures { (sorts : Sorts) (trees : List Tree) →
        AreFormsReady sorts trees forms.now.list.items →
        IfOk result (λ b. AllStand sorts trees b.list.items
        (as_facts (forms_in sorts trees forms.now.list.items))) }
{
    let mut branch = Branch {
        list: Vec::new(alloc),
    };
    add_forms(alloc, &mut branch, forms)?;
    Ok(branch)
}
