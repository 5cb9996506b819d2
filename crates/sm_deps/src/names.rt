// The names of expressions and conditions.
ghost use Rattle.std.specs.Prelude.{◌≡◌, OnOk};
ghost use Rattle.sm_syntax.specs.trees.Views.{expression_of, condition_of};
ghost use Rattle.sm_deps.specs.Names.{mentions, tests};
ghost use Rattle.sm_deps.specs.Members.{members, either};

use crate::members::{NameSet, add_name};
use sm_syntax::{Cond, Expr};
use std::alloc::AllocError;

// Adds the names of an expression.
#[tactic(auto, using(crate::proofs::MembersLemmas::unions))]
pub(crate) fn add_expr(names: &mut NameSet, e: &Expr) -> Result<(), AllocError>
    ensures { let names_of_expression = mentions (expression_of e.now) in
        OnOk result (members names.new ≡ either (members names.old) names_of_expression) }
{
    match e {
        Expr::Num(_) => Ok(()),
        Expr::Var(x) => add_name(names, *x),
        Expr::Read(a, i) => {
            add_name(names, *a)?;
            add_expr(names, i)
        }
        Expr::Neg(d) => add_expr(names, d),
        Expr::Add(d, f) | Expr::Sub(d, f) | Expr::Mul(d, f) => {
            add_expr(names, d)?;
            add_expr(names, f)
        }
    }
}

// Adds the names of a condition.
#[tactic(auto, using(crate::proofs::MembersLemmas::unions))]
pub(crate) fn add_cond(names: &mut NameSet, c: &Cond) -> Result<(), AllocError>
    ensures { let names_of_condition = tests (condition_of c.now) in
        OnOk result (members names.new ≡ either (members names.old) names_of_condition) }
{
    match c {
        Cond::Yes | Cond::No => Ok(()),
        Cond::Cmp(_, d, e) => {
            add_expr(names, d)?;
            add_expr(names, e)
        }
        Cond::Not(b) => add_cond(names, b),
        Cond::And(b, d) | Cond::Or(b, d) => {
            add_cond(names, b)?;
            add_cond(names, d)
        }
    }
}
