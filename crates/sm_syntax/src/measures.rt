// How large and how deep programs are. Each count stops at the greatest `u64`.
ghost use Rattle.std.specs.Prelude.{◌≡◌, ◌+◌, ◌-◌, ◌^◌, max, min};
ghost use Rattle.sm_syntax.specs.text.Conditions.{expression_nodes, condition_nodes, code_nodes, expression_depth, condition_depth, code_depth};
ghost use Rattle.sm_syntax.specs.claim.Syntax.{End};
ghost use Rattle.sm_syntax.specs.trees.Views.{expression_of, condition_of, statement_of, code_of};

use crate::tree::{Block, Cond, Expr, Stmt};

/// How many statements, conditions and expressions a block has.
#[cycle(nodes)]
pub fn nodes(b: &Block) -> u64
    ensures { result ≡ min (code_nodes (code_of b.now)) (2 ^ 64 - 1) }
{
    let mut sum: u64 = 0;
    for s in &b.list {
        sum = sum.saturating_add(nodes_of_stmt(s));
    }
    sum
}

#[cycle(nodes)]
fn nodes_of_stmt(s: &Stmt) -> u64
    ensures { result ≡ min (code_nodes (statement_of s.now End)) (2 ^ 64 - 1) }
{
    match s {
        Stmt::Skip | Stmt::Hole(_) => 1,
        Stmt::Assign(_, e) => nodes_of_expr(e).saturating_add(1),
        Stmt::Store(_, i, e) => nodes_of_two(i, e),
        Stmt::If(c, t, e) => nodes_of_cond(c)
            .saturating_add(nodes(t))
            .saturating_add(nodes(e))
            .saturating_add(1),
        Stmt::While(c, t) => nodes_of_cond(c).saturating_add(nodes(t)).saturating_add(1),
    }
}

// How many conditions and expressions a condition has, itself among them.
pub(crate) fn nodes_of_cond(c: &Cond) -> u64
    ensures { result ≡ min (condition_nodes (condition_of c.now)) (2 ^ 64 - 1) }
{
    match c {
        Cond::Yes | Cond::No => 1,
        Cond::Cmp(_, d, e) => nodes_of_two(d, e),
        Cond::Not(b) => nodes_of_cond(b).saturating_add(1),
        Cond::And(b, d) | Cond::Or(b, d) => nodes_of_cond(b)
            .saturating_add(nodes_of_cond(d))
            .saturating_add(1),
    }
}

// How many expressions an expression has, itself among them.
#[cycle(expression_nodes)]
fn nodes_of_expr(e: &Expr) -> u64
    ensures { result ≡ min (expression_nodes (expression_of e.now)) (2 ^ 64 - 1) }
{
    match e {
        Expr::Num(_) | Expr::Var(_) => 1,
        Expr::Read(_, d) | Expr::Neg(d) => nodes_of_expr(d).saturating_add(1),
        Expr::Add(d, f) | Expr::Sub(d, f) | Expr::Mul(d, f) => nodes_of_two(d, f),
    }
}

// One more than the nodes of two expressions.
#[cycle(expression_nodes)]
fn nodes_of_two(d: &Expr, e: &Expr) -> u64
    ensures { let both =
        expression_nodes (expression_of d.now) + expression_nodes (expression_of e.now) in
        result ≡ min (1 + both) (2 ^ 64 - 1) }
{
    nodes_of_expr(d)
        .saturating_add(nodes_of_expr(e))
        .saturating_add(1)
}

/// The depth of a block: that of its deepest statement, 0 where it has none.
#[cycle(depth)]
pub fn depth(b: &Block) -> u64
    ensures { result ≡ min (code_depth (code_of b.now)) (2 ^ 64 - 1) }
{
    let mut most: u64 = 0;
    for s in &b.list {
        most = most.max(depth_of_stmt(s));
    }
    most
}

#[cycle(depth)]
fn depth_of_stmt(s: &Stmt) -> u64
    ensures { result ≡ min (code_depth (statement_of s.now End)) (2 ^ 64 - 1) }
{
    match s {
        Stmt::Skip | Stmt::Hole(_) => 1,
        Stmt::Assign(_, e) => depth_of_expr(e).saturating_add(1),
        Stmt::Store(_, i, e) => depth_of_two(i, e),
        Stmt::If(c, t, e) => depth_of_cond(c)
            .max(depth(t).max(depth(e)))
            .saturating_add(1),
        Stmt::While(c, t) => depth_of_cond(c).max(depth(t)).saturating_add(1),
    }
}

// The depth of a condition: 1 for a constant, otherwise 1 more than its deepest part.
pub(crate) fn depth_of_cond(c: &Cond) -> u64
    ensures { result ≡ min (condition_depth (condition_of c.now)) (2 ^ 64 - 1) }
{
    match c {
        Cond::Yes | Cond::No => 1,
        Cond::Cmp(_, d, e) => depth_of_two(d, e),
        Cond::Not(b) => depth_of_cond(b).saturating_add(1),
        Cond::And(b, d) | Cond::Or(b, d) => {
            depth_of_cond(b).max(depth_of_cond(d)).saturating_add(1)
        }
    }
}

// The depth of an expression: 1 for a leaf, otherwise 1 more than its deepest part.
#[cycle(expression_depth)]
fn depth_of_expr(e: &Expr) -> u64
    ensures { result ≡ min (expression_depth (expression_of e.now)) (2 ^ 64 - 1) }
{
    match e {
        Expr::Num(_) | Expr::Var(_) => 1,
        Expr::Read(_, d) | Expr::Neg(d) => depth_of_expr(d).saturating_add(1),
        Expr::Add(d, f) | Expr::Sub(d, f) | Expr::Mul(d, f) => depth_of_two(d, f),
    }
}

// One more than the depth of the deeper of two expressions.
#[cycle(expression_depth)]
fn depth_of_two(d: &Expr, e: &Expr) -> u64
    ensures { let deeper =
        max (expression_depth (expression_of d.now)) (expression_depth (expression_of e.now)) in
        result ≡ min (1 + deeper) (2 ^ 64 - 1) }
{
    depth_of_expr(d).max(depth_of_expr(e)).saturating_add(1)
}
