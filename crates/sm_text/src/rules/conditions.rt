// Conditions. A rule takes the number of groups that may still be opened.
ghost use Rattle.std.specs.Prelude.{◌≡◌, if◌then◌else◌, Some, None, IfOk};
ghost use Rattle.sm_syntax.specs.trees.Views.{condition_of};
ghost use Rattle.sm_text.specs.rules.Answers.{Parses};
ghost use Rattle.sm_text.specs.rules.Parsers.{inside_group, next_operand};
ghost use Rattle.sm_text.specs.rules.Reading as spec;
ghost use Rattle.sm_text.specs.rules.Written.{connected_by};

use crate::rules::expressions::{CHAIN_LIMIT, expression};
use crate::rules::names::stands;
use crate::rules::reading::{FaultKind, Parsed, beside, boxed, first, followed, refusal, rest};
use sm_syntax::{Cmp, Cond, Mark, Symbol};
use std::alloc::{AllocError, Global};

/// A chain of operators between two conditions each.
#[derive(Clone, Copy)]
pub(crate) enum CondChain {
    Conjunction,
    Disjunction,
}

/// A condition.
#[tactic(auto, unfolding(crate::specs::rules::Reading::condition))]
pub(crate) fn condition(alloc: Global, groups: u64, symbols: &[Symbol]) -> Parsed<'_, Cond>
    ensures { Parses condition_of result (spec.condition groups symbols.now) }
{
    chained(alloc, groups, CondChain::Disjunction, symbols)
}

/// The condition in parentheses after `if` or `while`.
#[tactic(auto, unfolding(crate::specs::rules::Reading::guard, crate::specs::rules::Parsers::grouped))]
pub(crate) fn guard(alloc: Global, groups: u64, symbols: &[Symbol]) -> Parsed<'_, Cond>
    ensures { Parses condition_of result (spec.guard groups symbols.now) }
{
    if stands(Mark::OpenRound, first(symbols)) {
        group(alloc, groups, Mark::CloseRound, symbols)
    } else {
        Err(refusal(FaultKind::Expected, symbols))
    }
}

/// The comparison that stands there.
fn comparison_of(symbol: Option<Symbol>) -> Option<Cmp>
    ensures { result ≡ spec.comparison_of symbol }
{
    if stands(Mark::Equal, symbol) {
        Some(Cmp::Eq)
    } else if stands(Mark::Unequal, symbol) {
        Some(Cmp::Ne)
    } else if stands(Mark::Less, symbol) {
        Some(Cmp::Lt)
    } else if stands(Mark::AtMost, symbol) {
        Some(Cmp::Le)
    } else if stands(Mark::Greater, symbol) {
        Some(Cmp::Gt)
    } else if stands(Mark::AtLeast, symbol) {
        Some(Cmp::Ge)
    } else {
        None
    }
}

/// The sign of a comparison.
#[tactic(auto, unfolding(crate::specs::rules::Reading::comparison_sign))]
fn comparison(symbols: &[Symbol]) -> Parsed<'_, Cmp>
    ensures { Parses (λ x. x) result (spec.comparison_sign symbols.now) }
{
    match comparison_of(first(symbols)) {
        Some(sign) => Ok((sign, rest(symbols))),
        None => Err(refusal(FaultKind::Expected, symbols)),
    }
}

/// A comparison of two expressions.
#[tactic(auto, unfolding(crate::specs::rules::Reading::compared))]
fn compared(alloc: Global, groups: u64, symbols: &[Symbol]) -> Parsed<'_, Cond>
    ensures { Parses condition_of result (spec.compared (spec.expression groups) symbols.now) }
{
    let (left, after) = expression(alloc, groups, symbols)?;
    let (front, after) = beside(left, comparison(after))?;
    let (sides, after) = beside(front, expression(alloc, groups, after))?;
    let ((left, sign), right) = sides;
    Ok((Cond::Cmp(sign, left, right), after))
}

/// The inside of a group, whose first sign stands here, and the sign that closes it.
#[cycle(conditions)]
fn group(alloc: Global, groups: u64, close: Mark, symbols: &[Symbol]) -> Parsed<'_, Cond>
    ensures { Parses condition_of result
        (inside_group (spec.inner_condition groups) close symbols.now) }
{
    if groups == 0 {
        return Err(refusal(FaultKind::Nested, symbols));
    }
    let (test, after) = chained(alloc, groups - 1, CondChain::Disjunction, rest(symbols))?;
    followed(test, close, after)
}

/// A condition in square brackets.
#[cycle(conditions)]
#[tactic(auto, unfolding(crate::specs::rules::Reading::bracketed))]
fn bracketed(alloc: Global, groups: u64, symbols: &[Symbol]) -> Parsed<'_, Cond>
    ensures { Parses condition_of result
        (spec.bracketed (spec.inner_condition groups) symbols.now) }
{
    group(alloc, groups, Mark::CloseSquare, symbols)
}

/// A constant, a comparison, or a condition in square brackets.
#[cycle(conditions)]
#[tactic(auto, unfolding(crate::specs::rules::Reading::simple_test))]
fn test(alloc: Global, groups: u64, symbols: &[Symbol]) -> Parsed<'_, Cond>
    ensures { Parses condition_of result
        (spec.simple_test (spec.inner_condition groups) (spec.expression groups) symbols.now) }
{
    let symbol = first(symbols);
    if stands(Mark::True, symbol) {
        Ok((Cond::Yes, rest(symbols)))
    } else if stands(Mark::False, symbol) {
        Ok((Cond::No, rest(symbols)))
    } else if stands(Mark::OpenSquare, symbol) {
        bracketed(alloc, groups, symbols)
    } else {
        compared(alloc, groups, symbols)
    }
}

/// A test, or one after an exclamation mark.
#[cycle(conditions)]
#[tactic(auto, unfolding(crate::specs::rules::Reading::literal))]
fn literal(alloc: Global, groups: u64, symbols: &[Symbol]) -> Parsed<'_, Cond>
    ensures { Parses condition_of result
        (spec.literal (spec.inner_condition groups) (spec.expression groups) symbols.now) }
{
    if stands(Mark::Bang, first(symbols)) {
        let (denied, after) = test(alloc, groups, rest(symbols))?;
        Ok((Cond::Not(Box::new(alloc, denied)?), after))
    } else {
        test(alloc, groups, symbols)
    }
}

/// Whether the operator of a chain stands there.
fn goes_on(chain: CondChain, symbol: Option<Symbol>) -> bool
    ensures { spec.condition_operators chain symbol ≡
        (if result then Some (connected_by chain) else None) }
{
    match chain {
        CondChain::Conjunction => stands(Mark::Both, symbol),
        CondChain::Disjunction => stands(Mark::Either, symbol),
    }
}

/// The condition that the operator of a chain makes of two.
fn join(alloc: Global, chain: CondChain, left: Cond, right: Cond) -> Result<Cond, AllocError>
    ensures { IfOk result (λ b.
        condition_of b ≡ connected_by chain (condition_of left) (condition_of right)) }
{
    let (left, right) = boxed(alloc, left, right)?;
    Ok(match chain {
        CondChain::Conjunction => Cond::And(left, right),
        CondChain::Disjunction => Cond::Or(left, right),
    })
}

/// What stands between the operators of a chain.
#[cycle(conditions)]
fn operand(alloc: Global, groups: u64, chain: CondChain, symbols: &[Symbol]) -> Parsed<'_, Cond>
    ensures { Parses condition_of result
        (spec.condition_operand
        (spec.inner_condition groups) (spec.expression groups) chain symbols.now) }
{
    match chain {
        CondChain::Conjunction => literal(alloc, groups, symbols),
        CondChain::Disjunction => chained(alloc, groups, CondChain::Conjunction, symbols),
    }
}

/// What stands behind the operator of a chain, where `room` operators may still stand there.
#[cycle(conditions)]
fn next_operand(
    alloc: Global,
    groups: u64,
    chain: CondChain,
    room: u64,
    symbols: &[Symbol],
) -> Parsed<'_, Cond>
    ensures { Parses condition_of result
        (next_operand
        (spec.condition_operand (spec.inner_condition groups) (spec.expression groups) chain)
        room symbols.now) }
{
    if room == 0 {
        return Err(refusal(FaultKind::Nested, symbols));
    }
    operand(alloc, groups, chain, rest(symbols))
}

/// A chain, grouped to the left.
#[cycle(conditions)]
fn chained(alloc: Global, groups: u64, chain: CondChain, symbols: &[Symbol]) -> Parsed<'_, Cond>
    ensures { Parses condition_of result
        (spec.condition_chain
        (spec.inner_condition groups) (spec.expression groups) chain symbols.now) }
{
    let (mut left, mut after) = operand(alloc, groups, chain, symbols)?;
    let mut room = CHAIN_LIMIT;
    'operators: while goes_on(chain, first(after)) {
        let (sides, behind) = beside(left, next_operand(alloc, groups, chain, room, after))?;
        left = join(alloc, chain, sides.0, sides.1)?;
        room -= 1;
        after = behind;
    }
    Ok((left, after))
}
