// Loops, and terms that stand for what they leave.
ghost use Rattle.std.specs.Prelude.{IfOk};
ghost use Rattle.std.specs.Bool.{OnTrue};
ghost use Rattle.sm_syntax.specs.text.Parts.{sort_of};
ghost use Rattle.sm_syntax.specs.text.Sorts.{IsWellSorted};
ghost use Rattle.sm_syntax.specs.trees.Programs.{declared_of};
ghost use Rattle.sm_syntax.specs.trees.Views.{code_of};

use crate::refusal::Refusal;
use sm_syntax::{
    Block, Cmp, Cond, Decls, Expr, Name, Outputs, Stmt, SyntaxError, well_formed_block,
    well_sorted_is_all,
};
use std::alloc::{AllocError, Global};

/// The loop `while (x < y) { x = x + step; }`.
pub fn counting_loop(alloc: Global, x: Name, y: Name, step: i128) -> Result<Block, AllocError> {
    let one = Box::new(alloc, Expr::Var(x))?;
    let other = Box::new(alloc, Expr::Num(step))?;
    let mut body = Vec::new(alloc);
    body.push(Stmt::Assign(x, Expr::Add(one, other)))?;
    let guard = Cond::Cmp(Cmp::Lt, Expr::Var(x), Expr::Var(y));
    let mut list = Vec::new(alloc);
    list.push(Stmt::While(guard, Block { list: body }))?;
    Ok(Block { list })
}

/// Whether each name of a block stands as it is declared.
pub fn is_well_sorted(alloc: Global, decls: &Decls, block: &Block) -> Result<bool, AllocError>
    ensures { let sorts = sort_of (declared_of decls.now) in
        IfOk result (λ good. OnTrue good (IsWellSorted sorts (code_of block.now))) }
{
    let outputs = Outputs {
        list: Vec::new(alloc),
    };
    // Code is well sorted where each of its names is.
    well_sorted_is_all();
    match well_formed_block(alloc, decls, &outputs, block) {
        Ok(()) => Ok(true),
        Err(SyntaxError::Memory) => Err(AllocError),
        Err(_) => Ok(false),
    }
}
