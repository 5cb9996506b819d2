// The terms that the loops of a site read of arrays.
ghost use Rattle.sm_term.specs.TableLaws.{AddsTerms};

use crate::columns::put_new;
use crate::forms::term_in;
use crate::states::LoopState;
use crate::terms::unless_wrong;
use sm_moves::has;
use sm_syntax::{Block, Cond, CopyName, Expr, PerCopy, Stmt};
use sm_term::{SymStore, TermId, TermTable};
use std::alloc::AllocError;

// Whether an expression reads an array.
fn has_read(e: &Expr) -> bool {
    match e {
        Expr::Num(_) | Expr::Var(_) => false,
        Expr::Read(_, _) => true,
        Expr::Neg(d) => has_read(d),
        Expr::Add(d, f) | Expr::Sub(d, f) | Expr::Mul(d, f) => has_read(d) || has_read(f),
    }
}

// Puts the term of an expression, where it can be made.
fn put_term(
    table: &mut TermTable,
    terms: &mut Vec<TermId>,
    places: &SymStore,
    e: &Expr,
) -> Result<(), AllocError>
    ensures { AddsTerms table.old table.new }
{
    match unless_wrong(term_in(table, places, e))? {
        Some(t) => put_new(terms, t),
        None => Ok(()),
    }
}

// Puts the reads of an expression whose indices read nothing.
fn put_reads(
    table: &mut TermTable,
    terms: &mut Vec<TermId>,
    places: &SymStore,
    e: &Expr,
) -> Result<(), AllocError>
    ensures { AddsTerms table.old table.new }
{
    match e {
        Expr::Num(_) => Ok(()),
        Expr::Var(_) => Ok(()),
        Expr::Read(_, i) => {
            if has_read(i) {
                put_reads(table, terms, places, i)
            } else {
                put_term(table, terms, places, e)
            }
        }
        Expr::Neg(d) => put_reads(table, terms, places, d),
        Expr::Add(d, f) => {
            put_reads(table, terms, places, d)?;
            put_reads(table, terms, places, f)
        }
        Expr::Sub(d, f) => {
            put_reads(table, terms, places, d)?;
            put_reads(table, terms, places, f)
        }
        Expr::Mul(d, f) => {
            put_reads(table, terms, places, d)?;
            put_reads(table, terms, places, f)
        }
    }
}

// Puts the reads of a condition.
fn put_guard_reads(
    table: &mut TermTable,
    terms: &mut Vec<TermId>,
    places: &SymStore,
    c: &Cond,
) -> Result<(), AllocError>
    ensures { AddsTerms table.old table.new }
{
    match c {
        Cond::Yes => Ok(()),
        Cond::No => Ok(()),
        Cond::Cmp(_, d, e) => {
            put_reads(table, terms, places, d)?;
            put_reads(table, terms, places, e)
        }
        Cond::Not(b) => put_guard_reads(table, terms, places, b),
        Cond::And(b, d) => {
            put_guard_reads(table, terms, places, b)?;
            put_guard_reads(table, terms, places, d)
        }
        Cond::Or(b, d) => {
            put_guard_reads(table, terms, places, b)?;
            put_guard_reads(table, terms, places, d)
        }
    }
}

// Puts the reads of a block.
#[cycle(reads)]
fn put_block_reads(
    table: &mut TermTable,
    terms: &mut Vec<TermId>,
    places: &SymStore,
    b: &Block,
) -> Result<(), AllocError>
    ensures { AddsTerms table.old table.new }
{
    for s in &b.list {
        put_statement_reads(table, terms, places, s)?;
    }
    Ok(())
}

// Puts the reads of a statement.
#[cycle(reads)]
fn put_statement_reads(
    table: &mut TermTable,
    terms: &mut Vec<TermId>,
    places: &SymStore,
    s: &Stmt,
) -> Result<(), AllocError>
    ensures { AddsTerms table.old table.new }
{
    match s {
        Stmt::Skip => Ok(()),
        Stmt::Hole(_) => Ok(()),
        Stmt::Assign(_, e) => put_reads(table, terms, places, e),
        Stmt::Store(_, i, e) => {
            put_reads(table, terms, places, i)?;
            put_reads(table, terms, places, e)
        }
        Stmt::If(c, d, e) => {
            put_guard_reads(table, terms, places, c)?;
            put_block_reads(table, terms, places, d)?;
            put_block_reads(table, terms, places, e)
        }
        Stmt::While(c, d) => {
            put_guard_reads(table, terms, places, c)?;
            put_block_reads(table, terms, places, d)
        }
    }
}

/// Puts the reads of the loop of a copy, where it is of the set.
pub(crate) fn put_loop_reads(
    table: &mut TermTable,
    terms: &mut Vec<TermId>,
    places: &PerCopy<SymStore>,
    state: &LoopState<'_>,
    copy: CopyName,
) -> Result<(), AllocError>
    ensures { AddsTerms table.old table.new }
{
    if !has(state.set, copy) {
        return Ok(());
    }
    let Some((guard, body)) = state.rests.get(copy).first_loop() else {
        return Ok(());
    };
    let places = places.get(copy);
    put_guard_reads(table, terms, places, guard)?;
    put_block_reads(table, terms, places, body)
}
