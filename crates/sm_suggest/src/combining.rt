// The task that has a combination as its candidate.
ghost use Rattle.std.specs.Prelude.{◌≡◌, ◌<◌, map, option_map, length, IfOk};
ghost use Rattle.sm_syntax.specs.claim.Fill.{filling};
ghost use Rattle.sm_syntax.specs.trees.Copies.{copy_named};
ghost use Rattle.sm_syntax.specs.trees.Programs.{declared_of, outputs_of, fillings_of};
ghost use Rattle.sm_syntax.specs.trees.Views.{condition_of, code_of};
ghost use Rattle.sm_text.specs.Tasks.{lists_of, parts_of, program_parts};
ghost use Rattle.sm_suggest.specs.Combinations.{chosen, combination, combination_count};

use crate::choosing::choices;
use sm_moves::filling_at;
use sm_syntax::{
    Block, Cond, CopyName, Filling, Fillings, PerCopy, Program, copy_block, copy_cond, copy_decls,
    copy_outputs,
};
use sm_task::{Task, holes_of};
use std::alloc::{AllocError, Global};

/// The task with the fillings of combination k as its candidate's, and all else as it was.
pub fn combine_fillings(alloc: Global, task: &Task, k: u64) -> Result<Task, AllocError>
    requires { k < combination_count (parts_of task.now) }
    ensures { IfOk result (λ u. parts_of u ≡ combination (parts_of task.now) k) }
{
    let holes = holes_of(alloc, &task.shared.body)?;
    let copies = choices(alloc, holes.len(), k)?;
    let candidate = chosen(alloc, &task.lists, &holes, &copies)?;
    Ok(Task {
        shared: copy_program(alloc, &task.shared)?,
        assumed: copy_assumed(alloc, &task.assumed)?,
        lists: with_candidate(alloc, &task.lists, candidate)?,
    })
}

// An equal program.
fn copy_program(alloc: Global, program: &Program) -> Result<Program, AllocError>
    ensures { IfOk result (λ p. program_parts p ≡ program_parts program.now) }
{
    Ok(Program {
        names: program.names.copy(alloc)?,
        decls: copy_decls(alloc, &program.decls)?,
        outputs: copy_outputs(alloc, &program.outputs)?,
        body: copy_block(alloc, &program.body)?,
    })
}

// An equal assumption.
fn copy_assumed(alloc: Global, assumed: &Option<Cond>) -> Result<Option<Cond>, AllocError>
    ensures { IfOk result (λ a. option_map condition_of a ≡ option_map condition_of assumed.now) }
{
    match assumed {
        None => Ok(None),
        Some(b) => Ok(Some(copy_cond(alloc, b)?)),
    }
}

// The fillings of the base and of the variants, with a candidate.
fn with_candidate(
    alloc: Global,
    lists: &PerCopy<Fillings>,
    candidate: Fillings,
) -> Result<PerCopy<Fillings>, AllocError>
    ensures base { IfOk result (λ l. fillings_of l.base ≡ fillings_of lists.now.base) }
    ensures a { IfOk result (λ l. fillings_of l.variant_a ≡ fillings_of lists.now.variant_a) }
    ensures b { IfOk result (λ l. fillings_of l.variant_b ≡ fillings_of lists.now.variant_b) }
    ensures candidate { IfOk result (λ l. fillings_of l.candidate ≡ fillings_of candidate) }
{
    Ok(PerCopy {
        base: copy_fillings(alloc, &lists.base)?,
        variant_a: copy_fillings(alloc, &lists.variant_a)?,
        variant_b: copy_fillings(alloc, &lists.variant_b)?,
        candidate,
    })
}

// Equal fillings.
fn copy_fillings(alloc: Global, fillings: &Fillings) -> Result<Fillings, AllocError>
    ensures { IfOk result (λ f. fillings_of f ≡ fillings_of fillings.now) }
{
    let mut list = Vec::new(alloc);
    for f in &fillings.list {
        list.push(Filling {
            hole: f.hole,
            block: copy_block(alloc, &f.block)?,
        })?;
    }
    Ok(Fillings { list })
}

// Each hole with the filling that its copy has for it.
fn chosen(
    alloc: Global,
    lists: &PerCopy<Fillings>,
    holes: &[u32],
    copies: &[CopyName],
) -> Result<Fillings, AllocError>
    requires { length copies.now ≡ length holes.now }
    ensures { let of_holes = map copy_named copies.now in
        IfOk result (λ f. fillings_of f ≡ chosen (lists_of lists.now) holes.now of_holes) }
{
    let mut list = Vec::new(alloc);
    for i in 0..holes.len() {
        let hole = holes[i];
        list.push(Filling {
            hole,
            block: copy_filling(alloc, lists.get(copies[i]), hole)?,
        })?;
    }
    Ok(Fillings { list })
}

// The statements that a list has for a hole, none where it doesn't fill it.
fn copy_filling(alloc: Global, fillings: &Fillings, hole: u32) -> Result<Block, AllocError>
    ensures { IfOk result (λ b. code_of b ≡ filling (fillings_of fillings.now) hole) }
{
    match filling_at(fillings, hole) {
        Some(block) => copy_block(alloc, block),
        None => Ok(Block {
            list: Vec::new(alloc),
        }),
    }
}
