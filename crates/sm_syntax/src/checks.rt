// Whether a program and a condition are well formed.
ghost use Rattle.std.specs.Prelude.{◌≡◌, ◌++◌, [], ◌∷◌, nat_eq, IfOk, IfErr};
ghost use Rattle.std.specs.HashMap.{get};
ghost use Rattle.sm_syntax.specs.text.Conditions.{double_name, first_output_fault, size_fault, program_fault, ill_assumed, first_sort_fault};
ghost use Rattle.sm_syntax.specs.text.Uses.{names_in, names_tested, names_used};
ghost use Rattle.sm_syntax.specs.trees.Faults.{Reports};
ghost use Rattle.sm_syntax.specs.text.Parts.{sort_of};
ghost use Rattle.sm_syntax.specs.trees.Programs.{declared_of, outputs_of};
ghost use Rattle.sm_syntax.specs.claim.Syntax.{End};
ghost use Rattle.sm_syntax.specs.trees.Views.{expression_of, condition_of, statement_of, code_of};

use crate::error::SyntaxError;
use crate::measures::{depth, depth_of_cond, nodes, nodes_of_cond};
use crate::program::{Decls, Outputs, Program};
use crate::tree::{Block, Cond, Expr, Name, Sort, Stmt};
use std::alloc::Global;
use std::collections::{HashMap, HashSet};

const MAX_NAMES: usize = 200;

const MAX_NODES: u64 = 20_000;

const MAX_DEPTH: u64 = 64;

// The sort with which each declared name is declared.
type Sorts = HashMap<u32, Sort>;

/// Whether no name is declared twice, each output is declared and stands once, each name of the
/// body stands as it is declared, and the program is within the limits of size and depth. The first
/// fault in this order is the error.
pub fn well_formed(alloc: Global, p: &Program) -> Result<(), SyntaxError>
    ensures { let outputs = outputs_of p.now.outputs in
        Reports result (program_fault (declared_of p.now.decls) outputs (code_of p.now.body)) }
{
    well_formed_block(alloc, &p.decls, &p.outputs, &p.body)
}

/// Whether a program, given by its parts, is well formed: each name of its body as it is declared,
/// within the limits.
#[tactic(auto, using(crate::proofs::Uses::conditions), unfolding(crate::specs::text::Conditions::program_fault))]
pub fn well_formed_block(
    alloc: Global,
    decls: &Decls,
    outputs: &Outputs,
    body: &Block,
) -> Result<(), SyntaxError>
    ensures { let outputs = outputs_of outputs.now in
        Reports result (program_fault (declared_of decls.now) outputs (code_of body.now)) }
{
    check_declared(alloc, decls)?;
    let sorts = sorts_of(alloc, decls)?;
    check_outputs(alloc, &sorts, outputs)?;
    check_block(&sorts, body)?;
    if decls.list.len() > MAX_NAMES {
        return Err(SyntaxError::TooMany);
    }
    check_size(nodes(body), depth(body))
}

/// Whether each name of a condition stands as it is declared, and the condition alone is within the
/// limits.
#[tactic(auto, using(crate::proofs::Uses::conditions), unfolding(crate::specs::text::Conditions::ill_assumed))]
pub fn well_formed_cond(alloc: Global, decls: &Decls, c: &Cond) -> Result<(), SyntaxError>
    ensures { Reports result (ill_assumed (declared_of decls.now) (Some (condition_of c.now))) }
{
    let sorts = sorts_of(alloc, decls)?;
    check_cond(&sorts, c)?;
    check_size(nodes_of_cond(c), depth_of_cond(c))
}

// The size and the depth of a program's code or of a condition.
#[tactic(auto, unfolding(crate::specs::text::Conditions::size_fault))]
fn check_size(nodes: u64, depth: u64) -> Result<(), SyntaxError>
    ensures { Reports result (size_fault nodes depth) }
{
    if nodes > MAX_NODES {
        return Err(SyntaxError::TooMany);
    }
    if depth > MAX_DEPTH {
        return Err(SyntaxError::TooDeep);
    }
    Ok(())
}

// The sort of each declared name.
fn sorts_of(alloc: Global, decls: &Decls) -> Result<Sorts, SyntaxError>
    ensures ok { IfOk result (λ m. get nat_eq m ≡ sort_of (declared_of decls.now)) }
    ensures err { IfErr result (λ e. e ≡ SyntaxError.Memory) }
{
    let mut sorts = HashMap::new(alloc);
    for d in &decls.list {
        if !sorts.contains_key(&d.0.0) {
            sorts.insert(d.0.0, d.1)?;
        }
    }
    Ok(sorts)
}

// The declared names: none is declared twice.
fn check_declared(alloc: Global, decls: &Decls) -> Result<(), SyntaxError>
    ensures { Reports result (double_name (declared_of decls.now)) }
{
    let mut seen = HashSet::new(alloc);
    for d in &decls.list {
        if !seen.insert(d.0.0)? {
            return Err(SyntaxError::DoubleName { name: d.0 });
        }
    }
    Ok(())
}

// The outputs: each is declared, and none stands twice.
fn check_outputs(alloc: Global, sorts: &Sorts, outputs: &Outputs) -> Result<(), SyntaxError>
    ensures { let names = outputs_of outputs.now in
        Reports result (first_output_fault (get nat_eq sorts.now) [] names) }
{
    let mut seen = HashSet::new(alloc);
    for name in &outputs.list {
        if !sorts.contains_key(&name.0) {
            return Err(SyntaxError::UnknownName { name: *name });
        }
        if !seen.insert(name.0)? {
            return Err(SyntaxError::DoubleName { name: *name });
        }
    }
    Ok(())
}

// A name that stands with a sort.
fn check_name(sorts: &Sorts, name: Name, sort: Sort) -> Result<(), SyntaxError>
    ensures { Reports result (first_sort_fault (get nat_eq sorts.now) ((name.0, sort) ∷ [])) }
{
    match sorts.get(&name.0) {
        None => Err(SyntaxError::UnknownName { name }),
        Some(declared) if *declared == sort => Ok(()),
        Some(_) => Err(SyntaxError::WrongSort { name }),
    }
}

// The names of an expression.
#[cycle(check_expr)]
#[tactic(auto, using(crate::proofs::Uses::walks))]
fn check_expr(sorts: &Sorts, e: &Expr) -> Result<(), SyntaxError>
    ensures { let names = names_in (expression_of e.now) in
        Reports result (first_sort_fault (get nat_eq sorts.now) names) }
{
    match e {
        Expr::Num(_) => Ok(()),
        Expr::Var(x) => check_name(sorts, *x, Sort::Num),
        Expr::Read(a, i) => {
            check_name(sorts, *a, Sort::Arr)?;
            check_expr(sorts, i)
        }
        Expr::Neg(d) => check_expr(sorts, d),
        Expr::Add(d, f) | Expr::Sub(d, f) | Expr::Mul(d, f) => check_two(sorts, d, f),
    }
}

// The names of two expressions, one after the other.
#[cycle(check_expr)]
#[tactic(auto, using(crate::proofs::Uses::walks))]
fn check_two(sorts: &Sorts, d: &Expr, e: &Expr) -> Result<(), SyntaxError>
    ensures { let names = names_in (expression_of d.now) ++ names_in (expression_of e.now) in
        Reports result (first_sort_fault (get nat_eq sorts.now) names) }
{
    check_expr(sorts, d)?;
    check_expr(sorts, e)
}

// The names of a condition.
#[tactic(auto, using(crate::proofs::Uses::walks))]
fn check_cond(sorts: &Sorts, c: &Cond) -> Result<(), SyntaxError>
    ensures { let names = names_tested (condition_of c.now) in
        Reports result (first_sort_fault (get nat_eq sorts.now) names) }
{
    match c {
        Cond::Yes | Cond::No => Ok(()),
        Cond::Cmp(_, d, e) => check_two(sorts, d, e),
        Cond::Not(b) => check_cond(sorts, b),
        Cond::And(b, d) | Cond::Or(b, d) => {
            check_cond(sorts, b)?;
            check_cond(sorts, d)
        }
    }
}

// The names of a block.
#[cycle(check_block)]
#[tactic(auto, using(crate::proofs::Uses::statement_walks))]
fn check_block(sorts: &Sorts, b: &Block) -> Result<(), SyntaxError>
    ensures { let names = names_used (code_of b.now) in
        Reports result (first_sort_fault (get nat_eq sorts.now) names) }
{
    for s in &b.list {
        check_stmt(sorts, s)?;
    }
    Ok(())
}

// The names of a statement.
#[cycle(check_block)]
#[tactic(auto, using(crate::proofs::Uses::statement_walks))]
fn check_stmt(sorts: &Sorts, s: &Stmt) -> Result<(), SyntaxError>
    ensures { let names = names_used (statement_of s.now End) in
        Reports result (first_sort_fault (get nat_eq sorts.now) names) }
{
    match s {
        Stmt::Skip | Stmt::Hole(_) => Ok(()),
        Stmt::Assign(x, e) => {
            check_name(sorts, *x, Sort::Num)?;
            check_expr(sorts, e)
        }
        Stmt::Store(a, i, e) => {
            check_name(sorts, *a, Sort::Arr)?;
            check_two(sorts, i, e)
        }
        Stmt::If(c, t, e) => {
            check_cond(sorts, c)?;
            check_block(sorts, t)?;
            check_block(sorts, e)
        }
        Stmt::While(c, t) => {
            check_cond(sorts, c)?;
            check_block(sorts, t)
        }
    }
}
