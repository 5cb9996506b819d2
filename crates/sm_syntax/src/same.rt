// Whether two trees are the same.
ghost use Rattle.std.specs.Prelude.{◌≡◌, ◌↔◌, IsTrue};
ghost use Rattle.sm_syntax.specs.claim.Syntax.{End};
ghost use Rattle.sm_syntax.specs.trees.Views.{expression_of, condition_of, statement_of, code_of};

use crate::tree::{Block, Cond, Expr, Stmt};

/// Whether two expressions are the same tree.
pub fn same_expr(a: &Expr, b: &Expr) -> bool
    ensures { IsTrue result ↔ expression_of a.now ≡ expression_of b.now }
{
    match (a, b) {
        (Expr::Num(m), Expr::Num(n)) => *m == *n,
        (Expr::Var(x), Expr::Var(y)) => x.0 == y.0,
        (Expr::Read(x, i), Expr::Read(y, j)) => x.0 == y.0 && same_expr(i, j),
        (Expr::Neg(d), Expr::Neg(e)) => same_expr(d, e),
        (Expr::Add(c, d), Expr::Add(e, f)) => same_expr(c, e) && same_expr(d, f),
        (Expr::Sub(c, d), Expr::Sub(e, f)) => same_expr(c, e) && same_expr(d, f),
        (Expr::Mul(c, d), Expr::Mul(e, f)) => same_expr(c, e) && same_expr(d, f),
        _ => false,
    }
}

/// Whether two conditions are the same tree.
pub fn same_cond(a: &Cond, b: &Cond) -> bool
    ensures { IsTrue result ↔ condition_of a.now ≡ condition_of b.now }
{
    match (a, b) {
        (Cond::Yes, Cond::Yes) | (Cond::No, Cond::No) => true,
        (Cond::Cmp(m, c, d), Cond::Cmp(n, e, f)) => {
            *m == *n && same_expr(c, e) && same_expr(d, f)
        }
        (Cond::Not(c), Cond::Not(d)) => same_cond(c, d),
        (Cond::And(c, d), Cond::And(e, f)) => same_cond(c, e) && same_cond(d, f),
        (Cond::Or(c, d), Cond::Or(e, f)) => same_cond(c, e) && same_cond(d, f),
        _ => false,
    }
}

#[cycle(same_statement)]
fn same_stmt(a: &Stmt, b: &Stmt) -> bool
    ensures { IsTrue result ↔ statement_of a.now End ≡ statement_of b.now End }
{
    match (a, b) {
        (Stmt::Skip, Stmt::Skip) => true,
        (Stmt::Assign(x, d), Stmt::Assign(y, e)) => x.0 == y.0 && same_expr(d, e),
        (Stmt::Store(x, i, d), Stmt::Store(y, j, e)) => {
            x.0 == y.0 && same_expr(i, j) && same_expr(d, e)
        }
        (Stmt::If(b, c, d), Stmt::If(e, f, g)) => {
            same_cond(b, e) && same_block(c, f) && same_block(d, g)
        }
        (Stmt::While(b, c), Stmt::While(d, e)) => same_cond(b, d) && same_block(c, e),
        (Stmt::Hole(g), Stmt::Hole(h)) => *g == *h,
        _ => false,
    }
}

/// Whether two blocks are the same tree.
#[cycle(same_statement)]
pub fn same_block(a: &Block, b: &Block) -> bool
    ensures { IsTrue result ↔ code_of a.now ≡ code_of b.now }
{
    if a.list.len() != b.list.len() {
        return false;
    }
    for i in 0..a.list.len() {
        if !same_stmt(&a.list[i], &b.list[i]) {
            return false;
        }
    }
    true
}
