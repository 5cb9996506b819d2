// Statements and blocks. A rule takes the number of groups that may still be opened.
ghost use Rattle.std.specs.Prelude.{◌≡◌, ◌≤◌};
ghost use Rattle.sm_syntax.specs.trees.Views.{statement_of, code_of};
ghost use Rattle.sm_text.specs.rules.Answers.{Parses};
ghost use Rattle.sm_syntax.specs.declared.symbol.Mark.TheVariants.{CloseCurly};
ghost use Rattle.sm_text.specs.rules.Parsers.{inside_group};
ghost use Rattle.sm_text.specs.rules.Reading as spec;
ghost use Rattle.sm_text.specs.rules.Written.{statements_before};

use crate::rules::conditions::guard;
use crate::rules::expressions::{expression, index};
use crate::rules::names::{begins_statement, hole, nothing, stands};
use crate::rules::reading::{FaultKind, Parsed, beside, expect, first, followed, refusal, rest};
use sm_syntax::{Block, Mark, Name, Stmt, Symbol};
use std::alloc::Global;

/// An assignment to a name that was read.
#[tactic(auto, unfolding(crate::specs::rules::Reading::assignment))]
fn assignment(alloc: Global, groups: u64, name: Name, symbols: &[Symbol]) -> Parsed<'_, Stmt>
    ensures { Parses statement_of result (spec.assignment groups name symbols.now) }
{
    let after = expect(Mark::Becomes, symbols)?;
    let (value, after) = expression(alloc, groups, after)?;
    let (written, after) = followed(value, Mark::Semicolon, after)?;
    Ok((Stmt::Assign(name, written), after))
}

/// A write to an element of the array whose name was read.
#[tactic(auto, unfolding(crate::specs::rules::Reading::write))]
fn write_element(alloc: Global, groups: u64, name: Name, symbols: &[Symbol]) -> Parsed<'_, Stmt>
    ensures { Parses statement_of result (spec.write groups name symbols.now) }
{
    let (place, after) = index(alloc, groups, symbols)?;
    let (left, after) = followed(place, Mark::Becomes, after)?;
    let (sides, after) = beside(left, expression(alloc, groups, after))?;
    let (written, after) = followed(sides, Mark::Semicolon, after)?;
    Ok((Stmt::Store(name, written.0, written.1), after))
}

/// A statement after the name that it begins with.
#[tactic(auto, unfolding(crate::specs::rules::Reading::changed))]
fn changed(alloc: Global, groups: u64, name: Name, symbols: &[Symbol]) -> Parsed<'_, Stmt>
    ensures { Parses statement_of result (spec.changed groups name symbols.now) }
{
    if stands(Mark::OpenSquare, first(symbols)) {
        write_element(alloc, groups, name, symbols)
    } else {
        assignment(alloc, groups, name, symbols)
    }
}

/// A branch, after its word.
#[cycle(statements)]
#[tactic(auto, unfolding(crate::specs::rules::Reading::branch))]
fn branch(alloc: Global, groups: u64, symbols: &[Symbol]) -> Parsed<'_, Stmt>
    requires { groups ≤ 64 }
    ensures { Parses statement_of result (spec.branch groups (spec.block groups) symbols.now) }
{
    let (test, after) = guard(alloc, groups, symbols)?;
    let (first, after) = beside(test, block(alloc, groups, after))?;
    let (front, after) = followed(first, Mark::Else, after)?;
    let (parts, after) = beside(front, block(alloc, groups, after))?;
    let ((test, yes), no) = parts;
    Ok((Stmt::If(test, yes, no), after))
}

/// A loop, after its word.
#[cycle(statements)]
#[tactic(auto, unfolding(crate::specs::rules::Reading::repeated))]
fn repeated(alloc: Global, groups: u64, symbols: &[Symbol]) -> Parsed<'_, Stmt>
    requires { groups ≤ 64 }
    ensures { Parses statement_of result (spec.repeated groups (spec.block groups) symbols.now) }
{
    let (test, after) = guard(alloc, groups, symbols)?;
    let (parts, after) = beside(test, block(alloc, groups, after))?;
    Ok((Stmt::While(parts.0, parts.1), after))
}

/// A statement that begins with a mark.
#[cycle(statements)]
fn statement_at(alloc: Global, groups: u64, mark: Mark, symbols: &[Symbol]) -> Parsed<'_, Stmt>
    requires { groups ≤ 64 }
    ensures { Parses statement_of result
        (spec.statement_at groups (spec.block groups) mark symbols.now) }
{
    if mark == Mark::Skip {
        nothing(rest(symbols))
    } else if mark == Mark::Question {
        hole(rest(symbols))
    } else if mark == Mark::If {
        branch(alloc, groups, rest(symbols))
    } else if mark == Mark::While {
        repeated(alloc, groups, rest(symbols))
    } else {
        Err(refusal(FaultKind::Expected, symbols))
    }
}

/// A statement.
#[cycle(statements)]
#[tactic(auto, unfolding(crate::specs::rules::Reading::statement))]
fn statement(alloc: Global, groups: u64, symbols: &[Symbol]) -> Parsed<'_, Stmt>
    requires { groups ≤ 64 }
    ensures { Parses statement_of result (spec.statement groups (spec.block groups) symbols.now) }
{
    match first(symbols) {
        Some(Symbol::Name(name)) => changed(alloc, groups, name, rest(symbols)),
        Some(Symbol::Mark(mark)) => statement_at(alloc, groups, mark, symbols),
        _ => Err(refusal(FaultKind::Expected, symbols)),
    }
}

/// All statements up to the end of a block.
#[cycle(statements)]
fn statements(alloc: Global, groups: u64, symbols: &[Symbol]) -> Parsed<'_, Vec<Stmt>>
    requires { groups ≤ 64 }
    ensures { Parses (λ x. statements_before x.items) result
        (spec.more_statements groups (spec.block groups) (λ k. k) symbols.now) }
{
    let mut list = Vec::new(alloc);
    let mut after = symbols;
    'statements: while begins_statement(first(after)) {
        let (one, behind) = statement(alloc, groups, after)?;
        list.push(one)?;
        after = behind;
    }
    Ok((list, after))
}

/// The inside of a block, as a block.
#[cycle(statements)]
#[tactic(auto, unfolding(crate::specs::rules::Reading::statements))]
fn code(alloc: Global, groups: u64, symbols: &[Symbol]) -> Parsed<'_, Block>
    requires { groups ≤ 64 }
    ensures { Parses code_of result (spec.statements groups (spec.block groups) symbols.now) }
{
    let (list, after) = statements(alloc, groups, symbols)?;
    Ok((Block { list }, after))
}

/// The inside of a block, whose first sign stands here, and the sign that closes it.
#[cycle(statements)]
fn group(alloc: Global, groups: u64, symbols: &[Symbol]) -> Parsed<'_, Block>
    requires { groups ≤ 64 }
    ensures { Parses code_of result
        (inside_group (spec.inner_block groups) CloseCurly symbols.now) }
{
    if groups == 0 {
        return Err(refusal(FaultKind::Nested, symbols));
    }
    let (body, after) = code(alloc, groups - 1, rest(symbols))?;
    followed(body, Mark::CloseCurly, after)
}

/// A block.
#[cycle(statements)]
#[tactic(auto, unfolding(crate::specs::rules::Reading::block, crate::specs::rules::Reading::braced, crate::specs::rules::Parsers::grouped))]
pub(crate) fn block(alloc: Global, groups: u64, symbols: &[Symbol]) -> Parsed<'_, Block>
    requires { groups ≤ 64 }
    ensures { Parses code_of result (spec.block groups symbols.now) }
{
    if stands(Mark::OpenCurly, first(symbols)) {
        group(alloc, groups, symbols)
    } else {
        Err(refusal(FaultKind::Expected, symbols))
    }
}
