// The conditions on a task, in order.
ghost use Rattle.std.specs.Prelude.{◌≡◌, ◌≤◌, [], length};
ghost use Rattle.sm_syntax.specs.text.Conditions.{DoubleHole, HoleInFilling, UnknownHole, MissingFilling, ListOf, at_hole, holes_of, holes_inside, filled_holes, first_repeated, first_outside, double_hole, hole_in_filling, unknown_hole};
ghost use Rattle.sm_syntax.specs.text.Conditions.{missing_filling, program_fault, ill_formed, ill_assumed, first_refusal};
ghost use Rattle.sm_syntax.specs.claim.ConflictFree.{program_of};
ghost use Rattle.sm_syntax.specs.trees.Copies.{copy_named};
ghost use Rattle.sm_syntax.specs.text.Parts.{task_of};
ghost use Rattle.sm_syntax.specs.trees.Views.{code_of};
ghost use Rattle.sm_task.specs.Checks.{ReportsRefusal, section_of};
ghost use Rattle.sm_task.specs.Filling.{AreFilled};
ghost use Rattle.sm_text.specs.Tasks.{lists_of, parts_of};

use crate::error::TaskError;
use crate::filling::fill_all;
use crate::holes::{filled_holes, first_outside, first_repeated, holes_inside, holes_of};
use sm_syntax::{Block, CopyName, PerCopy, well_formed_block, well_formed_cond};
use sm_text::Task;
use std::alloc::Global;

// The number by which an error names the shared program, after those of the four copies.
const SHARED: u8 = 4;

// Whether a task meets the six conditions. The error is the first that fails.
#[tactic(auto, using(crate::proofs::Refusals::checks), unfolding(sm_syntax::specs::text::Conditions::first_refusal))]
pub(crate) fn check_conditions(alloc: Global, task: &Task) -> Result<(), TaskError>
    ensures { ReportsRefusal result (first_refusal (parts_of task.now)) }
{
    let holes = holes_of(alloc, &task.shared.body)?;
    check_double_holes(alloc, task, &holes)?;
    check_holes_in_fillings(alloc, task)?;
    check_unknown_holes(alloc, task, &holes)?;
    check_missing_fillings(alloc, task, &holes)?;
    check_programs(alloc, task)?;
    check_assumption(alloc, task)
}

// 1. A section has no hole a second time.
#[tactic(auto, using(crate::proofs::Refusals::checks), unfolding(sm_syntax::specs::text::Conditions::double_hole))]
fn check_double_holes(alloc: Global, task: &Task, holes: &[u32]) -> Result<(), TaskError>
    requires { holes.now ≡ holes_of (code_of task.now.shared.body) }
    ensures { ReportsRefusal result (double_hole (parts_of task.now)) }
{
    check_repeated(alloc, SHARED, holes)?;
    check_filled_once(alloc, task, CopyName::O)?;
    check_filled_once(alloc, task, CopyName::A)?;
    check_filled_once(alloc, task, CopyName::B)?;
    check_filled_once(alloc, task, CopyName::M)
}

#[tactic(auto, using(crate::proofs::Refusals::same_section))]
fn check_filled_once(alloc: Global, task: &Task, copy: CopyName) -> Result<(), TaskError>
    ensures { let c = copy_named copy in
        let hole = first_repeated [] (filled_holes (lists_of task.now.lists c)) in
        ReportsRefusal result (at_hole DoubleHole (ListOf c) hole) }
{
    check_repeated(
        alloc,
        copy.number(),
        &filled_holes(alloc, task.lists.get(copy))?,
    )
}

#[tactic(auto, using(crate::proofs::Refusals::same_number))]
fn check_repeated(alloc: Global, list: u8, holes: &[u32]) -> Result<(), TaskError>
    requires { list ≤ 4 }
    ensures { ReportsRefusal result
        (at_hole DoubleHole (section_of list) (first_repeated [] holes.now)) }
{
    match first_repeated(alloc, holes)? {
        None => Ok(()),
        Some(hole) => Err(TaskError::DoubleHole { list, hole }),
    }
}

// 2. No filling has a hole.
#[tactic(auto, using(crate::proofs::Refusals::checks), unfolding(sm_syntax::specs::text::Conditions::hole_in_filling))]
fn check_holes_in_fillings(alloc: Global, task: &Task) -> Result<(), TaskError>
    ensures { ReportsRefusal result (hole_in_filling (parts_of task.now)) }
{
    check_inside(alloc, task, CopyName::O)?;
    check_inside(alloc, task, CopyName::A)?;
    check_inside(alloc, task, CopyName::B)?;
    check_inside(alloc, task, CopyName::M)
}

fn check_inside(alloc: Global, task: &Task, copy: CopyName) -> Result<(), TaskError>
    ensures { let c = copy_named copy in
        let hole = first_outside [] (holes_inside (lists_of task.now.lists c)) in
        ReportsRefusal result (at_hole HoleInFilling (ListOf c) hole) }
{
    match first_outside(alloc, &[], &holes_inside(alloc, task.lists.get(copy))?)? {
        None => Ok(()),
        Some(hole) => Err(TaskError::HoleInFilling {
            list: copy.number(),
            hole,
        }),
    }
}

// 3. The shared program has each hole that is filled.
#[tactic(auto, using(crate::proofs::Refusals::checks), unfolding(sm_syntax::specs::text::Conditions::unknown_hole))]
fn check_unknown_holes(alloc: Global, task: &Task, holes: &[u32]) -> Result<(), TaskError>
    requires { holes.now ≡ holes_of (code_of task.now.shared.body) }
    ensures { ReportsRefusal result (unknown_hole (parts_of task.now)) }
{
    check_known(alloc, task, CopyName::O, holes)?;
    check_known(alloc, task, CopyName::A, holes)?;
    check_known(alloc, task, CopyName::B, holes)?;
    check_known(alloc, task, CopyName::M, holes)
}

fn check_known(alloc: Global, task: &Task, copy: CopyName, holes: &[u32]) -> Result<(), TaskError>
    ensures { let c = copy_named copy in
        let hole = first_outside holes.now (filled_holes (lists_of task.now.lists c)) in
        ReportsRefusal result (at_hole UnknownHole (ListOf c) hole) }
{
    match first_outside(alloc, holes, &filled_holes(alloc, task.lists.get(copy))?)? {
        None => Ok(()),
        Some(hole) => Err(TaskError::UnknownHole {
            list: copy.number(),
            hole,
        }),
    }
}

// 4. Each list fills each hole of the shared program.
#[tactic(auto, using(crate::proofs::Refusals::checks), unfolding(sm_syntax::specs::text::Conditions::missing_filling))]
fn check_missing_fillings(alloc: Global, task: &Task, holes: &[u32]) -> Result<(), TaskError>
    requires { holes.now ≡ holes_of (code_of task.now.shared.body) }
    ensures { ReportsRefusal result (missing_filling (parts_of task.now)) }
{
    check_filled(alloc, task, CopyName::O, holes)?;
    check_filled(alloc, task, CopyName::A, holes)?;
    check_filled(alloc, task, CopyName::B, holes)?;
    check_filled(alloc, task, CopyName::M, holes)
}

fn check_filled(alloc: Global, task: &Task, copy: CopyName, holes: &[u32]) -> Result<(), TaskError>
    ensures { let c = copy_named copy in
        let hole = first_outside (filled_holes (lists_of task.now.lists c)) holes.now in
        ReportsRefusal result (at_hole MissingFilling (ListOf c) hole) }
{
    match first_outside(alloc, &filled_holes(alloc, task.lists.get(copy))?, holes)? {
        None => Ok(()),
        Some(hole) => Err(TaskError::MissingFilling {
            list: copy.number(),
            hole,
        }),
    }
}

// 5. Each filled program is well formed. With no hole twice, the four are no larger than the text.
#[tactic(auto, using(crate::proofs::Refusals::checks), unfolding(sm_syntax::specs::text::Conditions::ill_formed))]
fn check_programs(alloc: Global, task: &Task) -> Result<(), TaskError>
    ensures { ReportsRefusal result (ill_formed (parts_of task.now)) }
{
    let programs = fill_all(alloc, task)?;
    check_program(alloc, task, &programs, CopyName::O)?;
    check_program(alloc, task, &programs, CopyName::A)?;
    check_program(alloc, task, &programs, CopyName::B)?;
    check_program(alloc, task, &programs, CopyName::M)
}

fn check_program(
    alloc: Global,
    task: &Task,
    programs: &PerCopy<Block>,
    copy: CopyName,
) -> Result<(), TaskError>
    requires { AreFilled (parts_of task.now) programs.now }
    ensures { let t = parts_of task.now in
        let code = program_of (task_of t) (copy_named copy) in
        ReportsRefusal result (program_fault t.declared t.outputs code) }
{
    let shared = &task.shared;
    well_formed_block(alloc, &shared.decls, &shared.outputs, programs.get(copy))?;
    Ok(())
}

// 6. The assumption is well formed.
#[tactic(auto, unfolding(sm_syntax::specs::text::Conditions::ill_assumed))]
fn check_assumption(alloc: Global, task: &Task) -> Result<(), TaskError>
    ensures { let t = parts_of task.now in
        ReportsRefusal result (ill_assumed t.declared t.assumed) }
{
    match &task.assumed {
        None => Ok(()),
        Some(c) => {
            well_formed_cond(alloc, &task.shared.decls, c)?;
            Ok(())
        }
    }
}
