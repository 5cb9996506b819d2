// Expressions and conditions over places, as far as the places are there.
ghost use Rattle.sm_term.specs.TableLaws.{AddsTerms};

use crate::terms::{Operation, joined, literal, negated, term_for};
use sm_syntax::{Cmp, Cond, Expr};
use sm_term::{Formula, SymStore, TermError, TermId, TermTable, negate};
use std::alloc::Global;

/// The term of an expression, where each name has what the store has for it.
#[cycle(term_in)]
pub(crate) fn term_in(
    table: &mut TermTable,
    places: &SymStore,
    e: &Expr,
) -> Result<TermId, TermError>
    ensures { AddsTerms table.old table.new }
{
    match e {
        Expr::Num(z) => literal(table, *z),
        Expr::Var(x) => term_for(places, *x),
        Expr::Read(a, i) => {
            let index = term_in(table, places, i)?;
            let array = term_for(places, *a)?;
            joined(table, Operation::Read, array, index)
        }
        Expr::Neg(d) => {
            let t = term_in(table, places, d)?;
            negated(table, t)
        }
        Expr::Add(d, f) => joined_in(table, places, Operation::Add, d, f),
        Expr::Sub(d, f) => joined_in(table, places, Operation::Sub, d, f),
        Expr::Mul(d, f) => joined_in(table, places, Operation::Mul, d, f),
    }
}

// The term of what two expressions make.
#[cycle(term_in)]
fn joined_in(
    table: &mut TermTable,
    places: &SymStore,
    operation: Operation,
    d: &Expr,
    f: &Expr,
) -> Result<TermId, TermError>
    ensures { AddsTerms table.old table.new }
{
    let t = term_in(table, places, d)?;
    let u = term_in(table, places, f)?;
    joined(table, operation, t, u)
}

// The formula of a comparison of two terms.
fn comparison(op: Cmp, t: TermId, u: TermId) -> Formula {
    match op {
        Cmp::Eq => Formula::Eq(t, u),
        Cmp::Ne => Formula::Ne(t, u),
        Cmp::Lt => Formula::Lt(t, u),
        Cmp::Le => Formula::Le(t, u),
        Cmp::Gt => Formula::Lt(u, t),
        Cmp::Ge => Formula::Le(u, t),
    }
}

/// The formula of a condition, where each name has what the store has for it.
#[cycle(form_in)]
pub(crate) fn form_in(
    alloc: Global,
    table: &mut TermTable,
    places: &SymStore,
    c: &Cond,
) -> Result<Formula, TermError>
    ensures { AddsTerms table.old table.new }
{
    match c {
        Cond::Yes => Ok(Formula::Yes),
        Cond::No => Ok(Formula::No),
        Cond::Cmp(op, d, e) => {
            let t = term_in(table, places, d)?;
            let u = term_in(table, places, e)?;
            Ok(comparison(*op, t, u))
        }
        Cond::Not(b) => {
            let f = form_in(alloc, table, places, b)?;
            let g = negate(alloc, &f)?;
            Ok(g)
        }
        Cond::And(b, d) => {
            let p = boxed_in(alloc, table, places, b)?;
            let q = boxed_in(alloc, table, places, d)?;
            Ok(Formula::And(p, q))
        }
        Cond::Or(b, d) => {
            let p = boxed_in(alloc, table, places, b)?;
            let q = boxed_in(alloc, table, places, d)?;
            Ok(Formula::Or(p, q))
        }
    }
}

// The formula of a condition, in a box.
#[cycle(form_in)]
fn boxed_in(
    alloc: Global,
    table: &mut TermTable,
    places: &SymStore,
    c: &Cond,
) -> Result<Box<Formula>, TermError>
    ensures { AddsTerms table.old table.new }
{
    let f = form_in(alloc, table, places, c)?;
    let boxed = Box::new(alloc, f)?;
    Ok(boxed)
}
