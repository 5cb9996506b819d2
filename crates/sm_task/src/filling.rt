// The programs of the copies.
ghost use Rattle.std.specs.Prelude.{◌≡◌, ◌<◌, map, IfOk, OnOk, IfSome, IfNone};
ghost use Rattle.sm_syntax.specs.claim.ConflictFree.{copy_of, program_of};
ghost use Rattle.sm_syntax.specs.trees.Copies.{copy_named};
ghost use Rattle.sm_syntax.specs.claim.Fill.{filling, fill};
ghost use Rattle.sm_syntax.specs.text.Parts.{task_of};
ghost use Rattle.sm_syntax.specs.trees.Programs.{declared_of, outputs_of, fillings_of};
ghost use Rattle.sm_syntax.specs.claim.Syntax.{Code, End, append};
ghost use Rattle.sm_syntax.specs.trees.Views.{sequence, statement_of, code_of};
ghost use Rattle.sm_task.specs.Filling.{AreFilled};
ghost use Rattle.sm_text.specs.Tasks.{parts_of};

use sm_syntax::{
    Block, CopyName, Fillings, PerCopy, Program, Stmt, copy_cond, copy_decls, copy_expr,
    copy_outputs, copy_stmt,
};
use sm_text::Task;
use std::alloc::{AllocError, Global};

/// The program of a copy, by the copy's number from 0 for the base to 3 for the candidate: the
/// shared program, where each hole is replaced by the statements that the copy has for it. A hole
/// that the copy doesn't fill is left out.
pub fn fill(alloc: Global, task: &Task, copy: u8) -> Result<Program, AllocError>
    requires { copy < 4 }
    ensures body { let code = program_of (task_of (parts_of task.now)) (copy_of copy) in
        IfOk result (λ p. code_of p.body ≡ code) }
    ensures names { IfOk result (λ p. p.names ≡ task.now.shared.names) }
    ensures declared { IfOk result (λ p. declared_of p.decls ≡ declared_of task.now.shared.decls) }
    ensures outputs { IfOk result (λ p. outputs_of p.outputs ≡ outputs_of task.now.shared.outputs) }
{
    Ok(Program {
        names: task.shared.names.copy(alloc)?,
        decls: copy_decls(alloc, &task.shared.decls)?,
        outputs: copy_outputs(alloc, &task.shared.outputs)?,
        body: fill_copy(alloc, task, CopyName::of_number(copy))?,
    })
}

/// The statements of each copy's program. Names, declarations and outputs are those of the task.
#[tactic(auto, using(crate::proofs::Filled::of_four))]
pub fn fill_all(alloc: Global, task: &Task) -> Result<PerCopy<Block>, AllocError>
    ensures { IfOk result (AreFilled (parts_of task.now)) }
{
    Ok(PerCopy {
        base: fill_copy(alloc, task, CopyName::O)?,
        variant_a: fill_copy(alloc, task, CopyName::A)?,
        variant_b: fill_copy(alloc, task, CopyName::B)?,
        candidate: fill_copy(alloc, task, CopyName::M)?,
    })
}

// the statements of a copy's program
fn fill_copy(alloc: Global, task: &Task, copy: CopyName) -> Result<Block, AllocError>
    ensures { let code = program_of (task_of (parts_of task.now)) (copy_named copy) in
        IfOk result (λ b. code_of b ≡ code) }
{
    fill_block(alloc, task.lists.get(copy), &task.shared.body)
}

// the filling of a hole
fn filling_at(fillings: &Fillings, hole: u32) -> Option<&Block>
    ensures some { IfSome result (λ b. code_of b.now ≡ filling (fillings_of fillings.now) hole) }
    ensures none { IfNone result (filling (fillings_of fillings.now) hole ≡ End) }
{
    for f in &fillings.list {
        if f.hole == hole {
            return Some(&f.block);
        }
    }
    None
}

// the block with each hole replaced by its filling
#[cycle(fill)]
fn fill_block(alloc: Global, fillings: &Fillings, block: &Block) -> Result<Block, AllocError>
    ensures { IfOk result (λ c. code_of c ≡ fill (fillings_of fillings.now) (code_of block.now)) }
{
    let mut list = Vec::new(alloc);
    for s in &block.list {
        fill_statement(alloc, fillings, s, &mut list)?;
    }
    Ok(Block { list })
}

// puts the statement at the end of a list, with its holes filled
#[cycle(fill)]
fn fill_statement(
    alloc: Global,
    fillings: &Fillings,
    s: &Stmt,
    out: &mut Vec<Stmt>,
) -> Result<(), AllocError>
    ensures { let fs = fillings_of fillings.now in
        OnOk result ((k : Code) → sequence (map statement_of out.new.items) (fill fs k)
        ≡ sequence (map statement_of out.old.items) (fill fs (statement_of s.now k))) }
{
    match s {
        Stmt::Skip => put(out, Stmt::Skip),
        Stmt::Assign(x, e) => put(out, Stmt::Assign(*x, copy_expr(alloc, e)?)),
        Stmt::Store(a, i, e) => {
            let index = copy_expr(alloc, i)?;
            put(out, Stmt::Store(*a, index, copy_expr(alloc, e)?))
        }
        Stmt::If(b, c, d) => {
            let then = fill_block(alloc, fillings, c)?;
            let other = fill_block(alloc, fillings, d)?;
            put(out, Stmt::If(copy_cond(alloc, b)?, then, other))
        }
        Stmt::While(b, c) => {
            let body = fill_block(alloc, fillings, c)?;
            put(out, Stmt::While(copy_cond(alloc, b)?, body))
        }
        Stmt::Hole(h) => match filling_at(fillings, *h) {
            Some(block) => append_block(alloc, block, out),
            None => Ok(()),
        },
    }
}

// puts a copy of the block's statements at the end of a list
fn append_block(alloc: Global, block: &Block, out: &mut Vec<Stmt>) -> Result<(), AllocError>
    ensures { OnOk result ((k : Code) → sequence (map statement_of out.new.items) k
        ≡ sequence (map statement_of out.old.items) (append (code_of block.now) k)) }
{
    for s in &block.list {
        put(out, copy_stmt(alloc, s)?)?;
    }
    Ok(())
}

// puts the statement at the end of a list
#[tactic(auto, using(sm_syntax::proofs::Blocks::pushes))]
fn put(out: &mut Vec<Stmt>, s: Stmt) -> Result<(), AllocError>
    ensures { OnOk result ((k : Code) → sequence (map statement_of out.new.items) k
        ≡ sequence (map statement_of out.old.items) (statement_of s k)) }
{
    out.push(s)?;
    Ok(())
}
