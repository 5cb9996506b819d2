// The values of expressions and conditions.
ghost use Rattle.std.specs.Prelude.{◌≡◌};
ghost use Rattle.sm_syntax.specs.claim.Meaning.{value_of, truth_of, relation};
ghost use Rattle.sm_syntax.specs.text.Sorts.{IsWellSortedExpression, IsWellSortedCondition};
ghost use Rattle.sm_syntax.specs.claim.Stores as plain;
ghost use Rattle.sm_syntax.specs.trees.Views.{expression_of, condition_of};
ghost use Rattle.sm_num.specs.Range.{exact};
ghost use Rattle.sm_eval.specs.Events.{leaves, before, operation_event, expression_event, condition_event, answer};
ghost use Rattle.sm_eval.specs.StoredValues.{meaning, sorts_of};

use crate::error::EvalError;
use crate::store::Store;
use sm_num::{Op, add, mul, sub};
use sm_syntax::{Cmp, Cond, Expr};

/// The value of an expression, or the first operation whose exact result leaves 128 bits. Operands
/// are computed from left to right, and `-e` as 0 minus `e`.
#[cycle(value)]
pub fn value(e: &Expr, s: &Store) -> Result<i128, EvalError>
    requires { IsWellSortedExpression (sorts_of s.now) (expression_of e.now) }
    ensures { let σ = meaning s.now in
        let event = expression_event (expression_of e.now) σ in
        result ≡ answer event (plain.number (value_of (expression_of e.now) σ)) }
{
    match e {
        Expr::Num(z) => Ok(*z),
        Expr::Var(x) => Ok(s.number(*x)),
        Expr::Read(a, i) => Ok(s.cell(*a, value(i, s)?)),
        Expr::Neg(d) => compute(Op::Sub, 0, value(d, s)?),
        Expr::Add(d, e) => compute_both(Op::Add, d, e, s),
        Expr::Sub(d, e) => compute_both(Op::Sub, d, e, s),
        Expr::Mul(d, e) => compute_both(Op::Mul, d, e, s),
    }
}

// An operation on two expressions, the left one first.
#[cycle(value)]
fn compute_both(op: Op, d: &Expr, e: &Expr, s: &Store) -> Result<i128, EvalError>
    requires left { IsWellSortedExpression (sorts_of s.now) (expression_of d.now) }
    requires right { IsWellSortedExpression (sorts_of s.now) (expression_of e.now) }
    ensures { let σ = meaning s.now in
        let y = plain.number (value_of (expression_of d.now) σ) in
        let z = plain.number (value_of (expression_of e.now) σ) in
        let left = expression_event (expression_of d.now) σ in
        let right = expression_event (expression_of e.now) σ in
        result ≡ answer (operation_event op left right y z) (exact op y z) }
{
    let a = value(d, s)?;
    let b = value(e, s)?;
    compute(op, a, b)
}

// An operation on two numbers.
fn compute(op: Op, a: i128, b: i128) -> Result<i128, EvalError>
    ensures { result ≡ answer (leaves op a b) (exact op a b) }
{
    let result = match op {
        Op::Add => add(a, b),
        Op::Sub => sub(a, b),
        Op::Mul => mul(a, b),
    };
    result.ok_or(EvalError::Beyond { op, a, b })
}

/// Whether a condition is true, or the first operation whose exact result leaves 128 bits. The
/// right part of `&&` is computed only where the left one is true, and that of `||` only where it
/// is false.
pub fn truth(c: &Cond, s: &Store) -> Result<bool, EvalError>
    requires { IsWellSortedCondition (sorts_of s.now) (condition_of c.now) }
    ensures { let σ = meaning s.now in
        result ≡ answer (condition_event (condition_of c.now) σ) (truth_of (condition_of c.now) σ) }
{
    match c {
        Cond::Yes => Ok(true),
        Cond::No => Ok(false),
        Cond::Cmp(op, d, e) => compare_both(*op, d, e, s),
        Cond::Not(b) => Ok(!truth(b, s)?),
        Cond::And(b, d) => Ok(truth(b, s)? && truth(d, s)?),
        Cond::Or(b, d) => Ok(truth(b, s)? || truth(d, s)?),
    }
}

// A comparison of two expressions, the left one first.
fn compare_both(op: Cmp, d: &Expr, e: &Expr, s: &Store) -> Result<bool, EvalError>
    requires left { IsWellSortedExpression (sorts_of s.now) (expression_of d.now) }
    requires right { IsWellSortedExpression (sorts_of s.now) (expression_of e.now) }
    ensures { let σ = meaning s.now in
        let y = plain.number (value_of (expression_of d.now) σ) in
        let z = plain.number (value_of (expression_of e.now) σ) in
        let left = expression_event (expression_of d.now) σ in
        let right = expression_event (expression_of e.now) σ in
        result ≡ answer (before left right) (relation op y z) }
{
    let a = value(d, s)?;
    let b = value(e, s)?;
    Ok(compare(op, a, b))
}

// A comparison of two numbers.
fn compare(op: Cmp, a: i128, b: i128) -> bool
    ensures { result ≡ relation op a b }
{
    match op {
        Cmp::Eq => a == b,
        Cmp::Ne => a != b,
        Cmp::Lt => a < b,
        Cmp::Le => a <= b,
        Cmp::Gt => a > b,
        Cmp::Ge => a >= b,
    }
}
