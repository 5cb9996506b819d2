// The task that a seed and a size make.
ghost use Rattle.std.specs.Prelude.{◌≡◌, ◌≤◌, ◌+◌, ℕ, map, IfOk};
ghost use Rattle.std.specs.List.{range_with_len};
ghost use Rattle.sm_syntax.specs.claim.ConflictFree.{A, B};
ghost use Rattle.sm_syntax.specs.declared.tree.Sort.TheVariants.{Num};
ghost use Rattle.sm_syntax.specs.text.TaskGrammar.{with_sort};
ghost use Rattle.sm_syntax.specs.trees.Programs.{declared_of, outputs_of};
ghost use Rattle.sm_syntax.specs.trees.Views.{code_of};
ghost use Rattle.sm_text.specs.Tasks.{parts_of};
ghost use Rattle.sm_text.specs.printing.Named.{HasText};
ghost use Rattle.sm_gen.specs.Drawing.{edits, edit_count};
ghost use Rattle.sm_gen.specs.Generating.{name_of, counted, holes, generated};

use crate::building::{decls, lists, names, outputs, shared_block};
use crate::drawing::{Edit, edit_count, edits};
use sm_syntax::{CopyName, Program};
use sm_text::Task;
use std::alloc::{AllocError, Global};

/// A task that was made up, and how many holes each variant edits.
pub struct Generated {
    pub task: Task,
    pub a: u64,
    pub b: u64,
}

// One call ends a value, and not one for each field: proofs of what has it stay small.
impl Drop for Generated {
    fn drop(self) {
        let Self {
            task: _,
            a: _,
            b: _,
        } = self;
    }
}

/// The task that a seed and a size make.
pub fn generate(alloc: Global, seed: u32, size: u16) -> Result<Generated, AllocError>
    requires some { 1 ≤ size }
    requires most { size ≤ 190 }
    ensures parts { IfOk result (λ g. parts_of g.task ≡ generated seed size) }
    ensures a { IfOk result (λ g. g.a ≡ edit_count A (edits seed size)) }
    ensures b { IfOk result (λ g. g.b ≡ edit_count B (edits seed size)) }

    // So all that holds of tasks that are read holds of it.
    ensures printable { IfOk result (λ g. HasText (parts_of g.task)) }
{
    let drawn = edits(alloc, seed, size)?;
    let task = task_with(alloc, size, &drawn)?;
    Ok(Generated {
        task,
        a: edit_count(&drawn, CopyName::A),
        b: edit_count(&drawn, CopyName::B),
    })
}

// The task with these edits.
fn task_with(alloc: Global, size: u16, drawn: &[Edit]) -> Result<Task, AllocError>
    ensures { (seed : ℕ) → drawn.now ≡ edits seed size →
        IfOk result (λ t. parts_of t ≡ generated seed size) }
{
    Ok(Task {
        shared: program(alloc, size)?,
        assumed: None,
        lists: lists(alloc, drawn)?,
    })
}

// The shared program.
fn program(alloc: Global, size: u16) -> Result<Program, AllocError>
    ensures names { IfOk result (λ p. p.names ≡ map name_of (range_with_len 0 (size + 2))) }
    ensures declared { let declared = with_sort Num (range_with_len 0 (size + 2)) in
        IfOk result (λ p. declared_of p.decls ≡ declared) }
    ensures outputs { IfOk result (λ p. outputs_of p.outputs ≡ range_with_len 2 size) }
    ensures body { let code = counted (holes (range_with_len 1 size)) in
        IfOk result (λ p. code_of p.body ≡ code) }
{
    Ok(Program {
        names: names(alloc, size)?,
        decls: decls(alloc, size)?,
        outputs: outputs(alloc, size)?,
        body: shared_block(alloc, size)?,
    })
}
