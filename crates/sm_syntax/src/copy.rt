// Copies of trees and of lists of names.
ghost use Rattle.std.specs.Prelude.{◌≡◌, IfOk};
ghost use Rattle.sm_syntax.specs.trees.Programs.{declared_of, outputs_of};
ghost use Rattle.sm_syntax.specs.trees.Views.{expression_of, condition_of, statement_of, code_of};

use crate::program::{Decls, Outputs};
use crate::tree::{Block, Cond, Expr, Stmt};
use std::alloc::{AllocError, Global};

/// An equal expression.
#[cycle(copy_expression)]
pub fn copy_expr(alloc: Global, e: &Expr) -> Result<Expr, AllocError>
    ensures { IfOk result (λ c. expression_of c ≡ expression_of e.now) }
{
    match e {
        Expr::Num(n) => Ok(Expr::Num(*n)),
        Expr::Var(x) => Ok(Expr::Var(*x)),
        Expr::Read(a, i) => Ok(Expr::Read(*a, boxed_expr(alloc, i)?)),
        Expr::Neg(d) => Ok(Expr::Neg(boxed_expr(alloc, d)?)),
        Expr::Add(d, e) => Ok(Expr::Add(boxed_expr(alloc, d)?, boxed_expr(alloc, e)?)),
        Expr::Sub(d, e) => Ok(Expr::Sub(boxed_expr(alloc, d)?, boxed_expr(alloc, e)?)),
        Expr::Mul(d, e) => Ok(Expr::Mul(boxed_expr(alloc, d)?, boxed_expr(alloc, e)?)),
    }
}

#[cycle(copy_expression)]
fn boxed_expr(alloc: Global, e: &Expr) -> Result<Box<Expr>, AllocError>
    ensures { IfOk result (λ c. expression_of c.value ≡ expression_of e.now) }
{
    Ok(Box::new(alloc, copy_expr(alloc, e)?)?)
}

/// An equal condition.
#[cycle(copy_condition)]
pub fn copy_cond(alloc: Global, b: &Cond) -> Result<Cond, AllocError>
    ensures { IfOk result (λ c. condition_of c ≡ condition_of b.now) }
{
    match b {
        Cond::Yes => Ok(Cond::Yes),
        Cond::No => Ok(Cond::No),
        Cond::Cmp(op, d, e) => Ok(Cond::Cmp(*op, copy_expr(alloc, d)?, copy_expr(alloc, e)?)),
        Cond::Not(c) => Ok(Cond::Not(boxed_cond(alloc, c)?)),
        Cond::And(c, d) => Ok(Cond::And(boxed_cond(alloc, c)?, boxed_cond(alloc, d)?)),
        Cond::Or(c, d) => Ok(Cond::Or(boxed_cond(alloc, c)?, boxed_cond(alloc, d)?)),
    }
}

#[cycle(copy_condition)]
fn boxed_cond(alloc: Global, b: &Cond) -> Result<Box<Cond>, AllocError>
    ensures { IfOk result (λ c. condition_of c.value ≡ condition_of b.now) }
{
    Ok(Box::new(alloc, copy_cond(alloc, b)?)?)
}

/// An equal statement.
#[cycle(copy_statement)]
pub fn copy_stmt(alloc: Global, s: &Stmt) -> Result<Stmt, AllocError>
    ensures { IfOk result (λ c. statement_of c ≡ statement_of s.now) }
{
    match s {
        Stmt::Skip => Ok(Stmt::Skip),
        Stmt::Assign(x, e) => Ok(Stmt::Assign(*x, copy_expr(alloc, e)?)),
        Stmt::Store(a, i, e) => Ok(Stmt::Store(*a, copy_expr(alloc, i)?, copy_expr(alloc, e)?)),
        Stmt::If(b, c, d) => {
            let then = copy_block(alloc, c)?;
            let other = copy_block(alloc, d)?;
            Ok(Stmt::If(copy_cond(alloc, b)?, then, other))
        }
        Stmt::While(b, c) => Ok(Stmt::While(copy_cond(alloc, b)?, copy_block(alloc, c)?)),
        Stmt::Hole(h) => Ok(Stmt::Hole(*h)),
    }
}

/// An equal block.
#[cycle(copy_statement)]
pub fn copy_block(alloc: Global, b: &Block) -> Result<Block, AllocError>
    ensures { IfOk result (λ c. code_of c ≡ code_of b.now) }
{
    let mut list = Vec::new(alloc);
    for s in &b.list {
        list.push(copy_stmt(alloc, s)?)?;
    }
    Ok(Block { list })
}

/// Equal declarations.
pub fn copy_decls(alloc: Global, decls: &Decls) -> Result<Decls, AllocError>
    ensures { IfOk result (λ c. declared_of c ≡ declared_of decls.now) }
{
    let list = Vec::from_slice(alloc, &decls.list)?;
    Ok(Decls { list })
}

/// Equal outputs.
pub fn copy_outputs(alloc: Global, outputs: &Outputs) -> Result<Outputs, AllocError>
    ensures { IfOk result (λ c. outputs_of c ≡ outputs_of outputs.now) }
{
    let list = Vec::from_slice(alloc, &outputs.list)?;
    Ok(Outputs { list })
}
