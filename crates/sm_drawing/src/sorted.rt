// Whether code may be run from a store: each of its names stands there with the sort that it has in
// the code.
ghost use Rattle.std.specs.Bool.{OnTrue};
ghost use Rattle.sm_eval.specs.StoredValues.{sorts_of};
ghost use Rattle.sm_syntax.specs.claim.Syntax.{End};
ghost use Rattle.sm_syntax.specs.text.Sorts.{IsAsDeclared, IsWellSorted, IsWellSortedExpression, IsWellSortedCondition};
ghost use Rattle.sm_syntax.specs.trees.Views.{expression_of, condition_of, statement_of, code_of};

use sm_eval::Store;
use sm_syntax::{Block, Cond, Expr, Name, Sort, Stmt};

/// Whether a block may be run from a store.
#[cycle(sorted)]
pub(crate) fn is_block_sorted(b: &Block, s: &Store) -> bool
    ensures { OnTrue result (IsWellSorted (sorts_of s.now) (code_of b.now)) }
{
    for t in &b.list {
        if !is_statement_sorted(t, s) {
            return false;
        }
    }
    true
}

/// Whether a statement may be run from a store.
#[cycle(sorted)]
pub(crate) fn is_statement_sorted(t: &Stmt, s: &Store) -> bool
    ensures { OnTrue result (IsWellSorted (sorts_of s.now) (statement_of t.now End)) }
{
    match t {
        Stmt::Skip => true,
        Stmt::Hole(_) => true,
        Stmt::Assign(x, e) => stands(s, *x, Sort::Num) && is_expression_sorted(e, s),
        Stmt::Store(a, i, e) => {
            stands(s, *a, Sort::Arr) && is_expression_sorted(i, s) && is_expression_sorted(e, s)
        }
        Stmt::If(c, d, e) => {
            is_condition_sorted(c, s) && is_block_sorted(d, s) && is_block_sorted(e, s)
        }
        Stmt::While(c, d) => is_condition_sorted(c, s) && is_block_sorted(d, s),
    }
}

/// Whether a condition may be computed from a store.
pub(crate) fn is_condition_sorted(c: &Cond, s: &Store) -> bool
    ensures { OnTrue result (IsWellSortedCondition (sorts_of s.now) (condition_of c.now)) }
{
    match c {
        Cond::Yes => true,
        Cond::No => true,
        Cond::Cmp(_, d, e) => is_expression_sorted(d, s) && is_expression_sorted(e, s),
        Cond::Not(b) => is_condition_sorted(b, s),
        Cond::And(b, d) => is_condition_sorted(b, s) && is_condition_sorted(d, s),
        Cond::Or(b, d) => is_condition_sorted(b, s) && is_condition_sorted(d, s),
    }
}

// Whether an expression may be computed from a store.
fn is_expression_sorted(e: &Expr, s: &Store) -> bool
    ensures { OnTrue result (IsWellSortedExpression (sorts_of s.now) (expression_of e.now)) }
{
    match e {
        Expr::Num(_) => true,
        Expr::Var(x) => stands(s, *x, Sort::Num),
        Expr::Read(a, i) => stands(s, *a, Sort::Arr) && is_expression_sorted(i, s),
        Expr::Neg(d) => is_expression_sorted(d, s),
        Expr::Add(d, f) => is_expression_sorted(d, s) && is_expression_sorted(f, s),
        Expr::Sub(d, f) => is_expression_sorted(d, s) && is_expression_sorted(f, s),
        Expr::Mul(d, f) => is_expression_sorted(d, s) && is_expression_sorted(f, s),
    }
}

// Whether a name stands in a store with a sort.
fn stands(s: &Store, x: Name, sort: Sort) -> bool
    ensures { OnTrue result (IsAsDeclared (sorts_of s.now) x.0 sort) }
{
    match s.sort(x) {
        Some(found) => found == sort,
        None => false,
    }
}
