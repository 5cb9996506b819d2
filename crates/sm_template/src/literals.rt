// The literals of a task's fillings.
ghost use Rattle.std.specs.Prelude.{◌≡◌, IfOk, OnOk};
ghost use Rattle.sm_syntax.specs.claim.ConflictFree.{Copy};
ghost use Rattle.sm_syntax.specs.claim.Syntax.{End};
ghost use Rattle.sm_syntax.specs.text.Parts.{Parts};
ghost use Rattle.sm_syntax.specs.trees.Copies.{of_copy};
ghost use Rattle.sm_syntax.specs.trees.Programs.{fillings_of};
ghost use Rattle.sm_syntax.specs.trees.Views.{expression_of, condition_of, statement_of, code_of};
ghost use Rattle.sm_template.specs.FirstLiterals.{with_literal, with_literals};
ghost use Rattle.sm_template.specs.Literals.{literals_in, literals_tested, literals_used, literals_filled};
ghost use Rattle.sm_template.specs.Literals as plain;

use sm_syntax::{Block, Cond, Expr, Fillings, PerCopy, Stmt};
use std::alloc::{AllocError, Global};

// Takes a literal, where it is above 0 and new, and there are fewer than eight.
fn add_literal(list: &mut Vec<i128>, z: i128) -> Result<(), AllocError>
    ensures { OnOk result (list.new.items ≡ with_literal list.old.items z) }
{
    if z > 0 && list.len() < 8 && !list.contains(&z) {
        list.push(z)?;
    }
    Ok(())
}

// Takes those of an expression.
#[tactic(auto, using(crate::proofs::LiteralsLemmas::taken))]
fn add_expr(list: &mut Vec<i128>, e: &Expr) -> Result<(), AllocError>
    ensures { OnOk result
        (list.new.items ≡ with_literals list.old.items (literals_in (expression_of e.now))) }
{
    match e {
        Expr::Num(z) => add_literal(list, *z),
        Expr::Var(_) => Ok(()),
        Expr::Read(_, i) => add_expr(list, i),
        Expr::Neg(d) => add_expr(list, d),
        Expr::Add(d, f) | Expr::Sub(d, f) | Expr::Mul(d, f) => {
            add_expr(list, d)?;
            add_expr(list, f)
        }
    }
}

// Takes those of a condition.
#[tactic(auto, using(crate::proofs::LiteralsLemmas::taken))]
fn add_cond(list: &mut Vec<i128>, b: &Cond) -> Result<(), AllocError>
    ensures { OnOk result
        (list.new.items ≡ with_literals list.old.items (literals_tested (condition_of b.now))) }
{
    match b {
        Cond::Yes | Cond::No => Ok(()),
        Cond::Cmp(_, d, e) => {
            add_expr(list, d)?;
            add_expr(list, e)
        }
        Cond::Not(c) => add_cond(list, c),
        Cond::And(c, d) | Cond::Or(c, d) => {
            add_cond(list, c)?;
            add_cond(list, d)
        }
    }
}

// Takes those of a block.
#[cycle(add_block)]
#[tactic(auto, using(crate::proofs::LiteralsLemmas::taken))]
fn add_block(list: &mut Vec<i128>, b: &Block) -> Result<(), AllocError>
    ensures { OnOk result
        (list.new.items ≡ with_literals list.old.items (literals_used (code_of b.now))) }
{
    for s in &b.list {
        add_stmt(list, s)?;
    }
    Ok(())
}

// Takes those of a statement.
#[cycle(add_block)]
#[tactic(auto, using(crate::proofs::LiteralsLemmas::taken))]
fn add_stmt(list: &mut Vec<i128>, s: &Stmt) -> Result<(), AllocError>
    ensures { OnOk result
        (list.new.items ≡ with_literals list.old.items (literals_used (statement_of s.now End))) }
{
    match s {
        Stmt::Skip | Stmt::Hole(_) => Ok(()),
        Stmt::Assign(_, e) => add_expr(list, e),
        Stmt::Store(_, i, e) => {
            add_expr(list, i)?;
            add_expr(list, e)
        }
        Stmt::If(b, c, d) => {
            add_cond(list, b)?;
            add_block(list, c)?;
            add_block(list, d)
        }
        Stmt::While(b, c) => {
            add_cond(list, b)?;
            add_block(list, c)
        }
    }
}

// Takes those of the fillings of a copy.
fn add_fillings(list: &mut Vec<i128>, fillings: &Fillings) -> Result<(), AllocError>
    ensures { let more = literals_filled (fillings_of fillings.now) in
        OnOk result (list.new.items ≡ with_literals list.old.items more) }
{
    for f in &fillings.list {
        add_block(list, &f.block)?;
    }
    Ok(())
}

// The first literals of the fillings of all copies.
pub(crate) fn literals_of(
    alloc: Global,
    fillings: &PerCopy<Fillings>,
) -> Result<Vec<i128>, AllocError>
    ensures { (t : Parts) → ((c : Copy) → t.fillings c ≡ fillings_of (of_copy fillings.now c)) →
        IfOk result (λ l. l.items ≡ plain.literals_of t) }
{
    let mut list = Vec::new(alloc);
    add_fillings(&mut list, &fillings.base)?;
    add_fillings(&mut list, &fillings.variant_a)?;
    add_fillings(&mut list, &fillings.variant_b)?;
    add_fillings(&mut list, &fillings.candidate)?;
    Ok(list)
}
