// Expressions. A rule takes the number of groups that may still be opened.
ghost use Rattle.std.specs.Prelude.{◌≡◌, option_map, IfOk};
ghost use Rattle.sm_syntax.specs.trees.Views.{expression_of};
ghost use Rattle.sm_text.specs.rules.Answers.{Parses};
ghost use Rattle.sm_text.specs.rules.Parsers.{inside_group, next_operand};
ghost use Rattle.sm_text.specs.rules.Reading as spec;
ghost use Rattle.sm_text.specs.rules.Written.{joined_by};

use crate::rules::names::stands;
use crate::rules::reading::{FaultKind, Parsed, beside, boxed, first, followed, refusal, rest};
use sm_syntax::{Expr, Mark, Name, Symbol};
use std::alloc::{AllocError, Global};

/// How many operators a chain may have.
pub(crate) const CHAIN_LIMIT: u64 = 63;

/// An operator between two expressions.
#[derive(Clone, Copy)]
pub(crate) enum Operator {
    Plus,
    Minus,
    Times,
}

/// A chain of operators between two expressions each.
#[derive(Clone, Copy)]
pub(crate) enum ExprChain {
    Product,
    Sum,
}

/// An expression.
#[tactic(auto, unfolding(crate::specs::rules::Reading::expression))]
pub(crate) fn expression(alloc: Global, groups: u64, symbols: &[Symbol]) -> Parsed<'_, Expr>
    ensures { Parses expression_of result (spec.expression groups symbols.now) }
{
    chained(alloc, groups, ExprChain::Sum, symbols)
}

/// The inside of a group, whose first sign stands here, and the sign that closes it.
#[cycle(expressions)]
fn group(alloc: Global, groups: u64, close: Mark, symbols: &[Symbol]) -> Parsed<'_, Expr>
    ensures { Parses expression_of result (inside_group (spec.inner_sum groups) close symbols.now) }
{
    if groups == 0 {
        return Err(refusal(FaultKind::Nested, symbols));
    }
    let (value, after) = chained(alloc, groups - 1, ExprChain::Sum, rest(symbols))?;
    followed(value, close, after)
}

/// The index of an element, after the name of its array.
#[cycle(expressions)]
#[tactic(auto, unfolding(crate::specs::rules::Reading::index))]
pub(crate) fn index(alloc: Global, groups: u64, symbols: &[Symbol]) -> Parsed<'_, Expr>
    ensures { Parses expression_of result (spec.index (spec.inner_sum groups) symbols.now) }
{
    group(alloc, groups, Mark::CloseSquare, symbols)
}

/// An element or a variable, after its name.
#[cycle(expressions)]
#[tactic(auto, unfolding(crate::specs::rules::Reading::named))]
fn named(alloc: Global, groups: u64, name: Name, symbols: &[Symbol]) -> Parsed<'_, Expr>
    ensures { Parses expression_of result (spec.named (spec.inner_sum groups) name symbols.now) }
{
    if stands(Mark::OpenSquare, first(symbols)) {
        let (index, after) = index(alloc, groups, symbols)?;
        Ok((Expr::Read(name, Box::new(alloc, index)?), after))
    } else {
        Ok((Expr::Var(name), symbols))
    }
}

/// An expression in parentheses.
#[cycle(expressions)]
#[tactic(auto, unfolding(crate::specs::rules::Reading::parenthesized))]
fn parenthesized(alloc: Global, groups: u64, symbols: &[Symbol]) -> Parsed<'_, Expr>
    ensures { Parses expression_of result (spec.parenthesized (spec.inner_sum groups) symbols.now) }
{
    group(alloc, groups, Mark::CloseRound, symbols)
}

/// A number, a name, an element, or an expression in parentheses.
#[cycle(expressions)]
#[tactic(auto, unfolding(crate::specs::rules::Reading::atom))]
fn atom(alloc: Global, groups: u64, symbols: &[Symbol]) -> Parsed<'_, Expr>
    ensures { Parses expression_of result (spec.atom (spec.inner_sum groups) symbols.now) }
{
    match first(symbols) {
        Some(Symbol::Number(value)) => Ok((Expr::Num(value), rest(symbols))),
        Some(Symbol::Name(name)) => named(alloc, groups, name, rest(symbols)),
        Some(Symbol::Mark(mark)) => {
            if mark == Mark::OpenRound {
                parenthesized(alloc, groups, symbols)
            } else {
                Err(refusal(FaultKind::Expected, symbols))
            }
        }
        None => Err(refusal(FaultKind::Expected, symbols)),
    }
}

/// An atom, or one after a minus sign.
#[cycle(expressions)]
#[tactic(auto, unfolding(crate::specs::rules::Reading::unary))]
fn unary(alloc: Global, groups: u64, symbols: &[Symbol]) -> Parsed<'_, Expr>
    ensures { Parses expression_of result (spec.unary (spec.inner_sum groups) symbols.now) }
{
    if stands(Mark::Minus, first(symbols)) {
        let (value, after) = atom(alloc, groups, rest(symbols))?;
        Ok((Expr::Neg(Box::new(alloc, value)?), after))
    } else {
        atom(alloc, groups, symbols)
    }
}

/// The operator of a chain that stands there.
fn operator_of(chain: ExprChain, symbol: Option<Symbol>) -> Option<Operator>
    ensures { option_map joined_by result ≡ spec.expression_operators chain symbol }
{
    match chain {
        ExprChain::Product => {
            if stands(Mark::Star, symbol) {
                Some(Operator::Times)
            } else {
                None
            }
        }
        ExprChain::Sum => {
            if stands(Mark::Plus, symbol) {
                Some(Operator::Plus)
            } else if stands(Mark::Minus, symbol) {
                Some(Operator::Minus)
            } else {
                None
            }
        }
    }
}

/// The expression that an operator makes of two.
fn join(alloc: Global, operator: Operator, left: Expr, right: Expr) -> Result<Expr, AllocError>
    ensures { IfOk result (λ e.
        expression_of e ≡ joined_by operator (expression_of left) (expression_of right)) }
{
    let (left, right) = boxed(alloc, left, right)?;
    Ok(match operator {
        Operator::Plus => Expr::Add(left, right),
        Operator::Minus => Expr::Sub(left, right),
        Operator::Times => Expr::Mul(left, right),
    })
}

/// What stands between the operators of a chain.
#[cycle(expressions)]
fn operand(alloc: Global, groups: u64, chain: ExprChain, symbols: &[Symbol]) -> Parsed<'_, Expr>
    ensures { Parses expression_of result
        (spec.expression_operand (spec.inner_sum groups) chain symbols.now) }
{
    match chain {
        ExprChain::Product => unary(alloc, groups, symbols),
        ExprChain::Sum => chained(alloc, groups, ExprChain::Product, symbols),
    }
}

/// What stands behind the operator of a chain, where `room` operators may still stand there.
#[cycle(expressions)]
fn next_operand(
    alloc: Global,
    groups: u64,
    chain: ExprChain,
    room: u64,
    symbols: &[Symbol],
) -> Parsed<'_, Expr>
    ensures { Parses expression_of result
        (next_operand (spec.expression_operand (spec.inner_sum groups) chain) room symbols.now) }
{
    if room == 0 {
        return Err(refusal(FaultKind::Nested, symbols));
    }
    operand(alloc, groups, chain, rest(symbols))
}

/// A chain, grouped to the left.
#[cycle(expressions)]
fn chained(alloc: Global, groups: u64, chain: ExprChain, symbols: &[Symbol]) -> Parsed<'_, Expr>
    ensures { Parses expression_of result
        (spec.expression_chain (spec.inner_sum groups) chain symbols.now) }
{
    let (mut left, mut after) = operand(alloc, groups, chain, symbols)?;
    let mut room = CHAIN_LIMIT;
    'operators: while let Some(operator) = operator_of(chain, first(after)) {
        let (sides, behind) = beside(left, next_operand(alloc, groups, chain, room, after))?;
        left = join(alloc, operator, sides.0, sides.1)?;
        room -= 1;
        after = behind;
    }
    Ok((left, after))
}
