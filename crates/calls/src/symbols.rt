// Expressions and conditions of programs, and their terms and formulas from the start of each name.
ghost use Rattle.std.specs.Bool.{OnTrue};
ghost use Rattle.sm_syntax.specs.text.Sorts.{IsAsDeclared, IsWellSortedExpression, IsWellSortedCondition};
ghost use Rattle.sm_syntax.specs.trees.Views.{expression_of, condition_of};
ghost use Rattle.sm_term.specs.Tables.{sorts_in};
ghost use Rattle.sm_text.specs.parsing.Prefix.{AreTokensOf};

use crate::fact::put_on;
use crate::printed::Printed;
use crate::refusal::Refusal;
use crate::scene::Scene;
use sm_syntax::{Block, Cond, Expr, Name, NameTable, Sort, Stmt};
use sm_term::{Formula, SymStore, TermId, form_of, term_of};
use sm_text::{TextError, Tokens, parse_block, tokens};
use std::alloc::Global;

// The greatest number of names that a text may use.
const MOST_NAMES: usize = 100;

/// Prints the number of the term of an expression, which is put into the table.
pub fn expression_answer(
    alloc: Global,
    scene: &mut Scene,
    text: &str,
    out: &mut Printed,
) -> Result<(), Refusal> {
    let id = read_expression(alloc, scene, text)?;
    write!(out, "{}", id.0);
    Ok(())
}

// Puts the term of the expression of a text into the table.
fn read_expression(alloc: Global, scene: &mut Scene, text: &str) -> Result<TermId, Refusal> {
    match &read_equation(alloc, scene, text)? {
        Cond::Cmp(_, e, _) => intern_expression(alloc, scene, e),
        _ => Err(Refusal::Bad),
    }
}

// The condition that says that an expression is 0.
fn read_equation(alloc: Global, scene: &Scene, text: &str) -> Result<Cond, Refusal> {
    let compared = format!(in alloc; "{text} == 0")?;
    read_condition(alloc, scene, &compared)
}

// Puts the term of an expression into the table.
fn intern_expression(alloc: Global, scene: &mut Scene, e: &Expr) -> Result<TermId, Refusal> {
    if !is_expression_sorted(scene, e) {
        return Err(Refusal::Bad);
    }
    let starts = SymStore {
        list: Vec::new(alloc),
    };
    Ok(term_of(&mut scene.table, e, &starts)?)
}

/// Prints the formula of a condition, which is put on the branch.
pub fn condition_answer(
    alloc: Global,
    scene: &mut Scene,
    text: &str,
    out: &mut Printed,
) -> Result<(), Refusal> {
    let f = read_formula(alloc, scene, text)?;
    put_on(&mut scene.branch, f, out)
}

// The formula of the condition of a text.
fn read_formula(alloc: Global, scene: &mut Scene, text: &str) -> Result<Formula, Refusal> {
    let c = read_condition(alloc, scene, text)?;
    formula_of(alloc, scene, &c)
}

// The formula of a condition, whose terms are put into the table.
fn formula_of(alloc: Global, scene: &mut Scene, c: &Cond) -> Result<Formula, Refusal> {
    if !is_condition_sorted(scene, c) {
        return Err(Refusal::Bad);
    }
    let starts = SymStore {
        list: Vec::new(alloc),
    };
    Ok(form_of(alloc, &mut scene.table, c, &starts)?)
}

// The condition of a text, in which the names are `x0`, `x1` and so on.
fn read_condition(alloc: Global, scene: &Scene, text: &str) -> Result<Cond, Refusal> {
    let text = format!(in alloc; "{{ while ({text}) {{ }} }}")?;
    condition_of(block_of(alloc, scene, text.as_bytes())?)
}

// The condition of a block that is a loop.
fn condition_of(block: Block) -> Result<Cond, Refusal> {
    let mut list = block.list;
    match list.pop() {
        Some(Stmt::While(c, _)) => Ok(c),
        _ => Err(Refusal::Bad),
    }
}

// The block of a text over the names of a scene.
fn block_of(alloc: Global, scene: &Scene, bytes: &[u8]) -> Result<Block, Refusal> {
    let mut names = names_of(alloc, scene.decls.list.len())?;
    let cut = tokens(alloc, bytes)?;
    read_block(alloc, bytes, &cut, &mut names)
}

// So many names: `x0`, `x1` and so on.
fn names_of(alloc: Global, count: usize) -> Result<NameTable, Refusal> {
    let mut names = NameTable::new(alloc);
    for number in 0..count {
        if names.len() >= MOST_NAMES {
            return Err(Refusal::Bad);
        }
        names.add(&format!(in alloc; "x{number}")?)?;
    }
    Ok(names)
}

// The block of tokens.
fn read_block(
    alloc: Global,
    bytes: &[u8],
    cut: &Tokens,
    names: &mut NameTable,
) -> Result<Block, Refusal>
    requires { AreTokensOf bytes.now cut.now }
{
    match parse_block(alloc, bytes, cut, 0, 0, names) {
        Ok((block, _)) => Ok(block),
        Err(TextError::Memory) => Err(Refusal::Memory),
        Err(_) => Err(Refusal::Bad),
    }
}

// Whether each name of an expression stands as it is declared.
fn is_expression_sorted(scene: &Scene, e: &Expr) -> bool
    ensures { let sorts = sorts_in scene.now.table in
        OnTrue result (IsWellSortedExpression sorts (expression_of e.now)) }
{
    match e {
        Expr::Num(_) => true,
        Expr::Var(x) => stands(scene, *x, Sort::Num),
        Expr::Read(a, i) => stands(scene, *a, Sort::Arr) && is_expression_sorted(scene, i),
        Expr::Neg(d) => is_expression_sorted(scene, d),
        Expr::Add(d, f) => is_expression_sorted(scene, d) && is_expression_sorted(scene, f),
        Expr::Sub(d, f) => is_expression_sorted(scene, d) && is_expression_sorted(scene, f),
        Expr::Mul(d, f) => is_expression_sorted(scene, d) && is_expression_sorted(scene, f),
    }
}

// Whether each name of a condition stands as it is declared.
fn is_condition_sorted(scene: &Scene, c: &Cond) -> bool
    ensures { let sorts = sorts_in scene.now.table in
        OnTrue result (IsWellSortedCondition sorts (condition_of c.now)) }
{
    match c {
        Cond::Yes | Cond::No => true,
        Cond::Cmp(_, d, e) => is_expression_sorted(scene, d) && is_expression_sorted(scene, e),
        Cond::Not(b) => is_condition_sorted(scene, b),
        Cond::And(b, d) => is_condition_sorted(scene, b) && is_condition_sorted(scene, d),
        Cond::Or(b, d) => is_condition_sorted(scene, b) && is_condition_sorted(scene, d),
    }
}

// Whether a name is declared with a sort.
fn stands(scene: &Scene, x: Name, sort: Sort) -> bool
    ensures { OnTrue result (IsAsDeclared (sorts_in scene.now.table) x.0 sort) }
{
    scene.declares(x) && scene.table.sort_named(x) == sort
}
