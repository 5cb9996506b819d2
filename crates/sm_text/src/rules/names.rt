// The rules of names, declarations, outputs and holes. Each gives what the front of the symbols
// stands for, and the symbols after it.
ghost use Rattle.std.specs.Prelude.{◌≡◌, ◌++◌, OnOk};
ghost use Rattle.sm_syntax.specs.trees.Views.{statement_of};
ghost use Rattle.sm_text.specs.rules.Answers.{Parses};
ghost use Rattle.sm_text.specs.rules.Parsers.{stands};
ghost use Rattle.sm_text.specs.rules.Reading as spec;
ghost use Rattle.sm_syntax.specs.text.TaskGrammar.{with_sort};
ghost use Rattle.sm_syntax.specs.trees.Programs.{declared_of, outputs_of};
ghost use Rattle.sm_text.specs.rules.Written.{numbers_of, entries_of, declaration_of};

use crate::rules::reading::{FaultKind, Parsed, expect, first, refusal, rest};
use sm_syntax::{Decls, Mark, Name, Outputs, Sort, Stmt, Symbol};
use std::alloc::{AllocError, Global};

/// How many groups may be open at once.
pub(crate) const GROUP_LIMIT: u64 = 64;

/// A declaration: a sort and the names.
#[derive(Drop)]
pub(crate) struct Declared {
    pub sort: Sort,
    pub names: Vec<Name>,
}

/// Whether this mark stands there.
pub(crate) fn stands(mark: Mark, symbol: Option<Symbol>) -> bool
    ensures { result ≡ stands mark symbol }
{
    match symbol {
        Some(Symbol::Mark(found)) => found == mark,
        _ => false,
    }
}

/// Whether a name stands there.
pub(crate) fn is_name(symbol: Option<Symbol>) -> bool
    ensures { result ≡ spec.begins_name symbol }
{
    matches!(symbol, Some(Symbol::Name(_)))
}

/// A name.
#[tactic(auto, unfolding(crate::specs::rules::Reading::name))]
pub(crate) fn name(symbols: &[Symbol]) -> Parsed<'_, Name>
    ensures { Parses (λ x. x) result (spec.name symbols.now) }
{
    match first(symbols) {
        Some(Symbol::Name(name)) => Ok((name, rest(symbols))),
        _ => Err(refusal(FaultKind::Expected, symbols)),
    }
}

/// A comma and a name.
#[tactic(auto, unfolding(crate::specs::rules::Reading::next_name))]
pub(crate) fn next_name(symbols: &[Symbol]) -> Parsed<'_, Name>
    ensures { Parses (λ x. x) result (spec.next_name symbols.now) }
{
    name(expect(Mark::Comma, symbols)?)
}

/// The number of a hole, if this number may be one.
pub(crate) fn hole_of(value: i128) -> Option<u32>
    ensures { result ≡ spec.hole_of value }
{
    if 1 <= value && value <= 999 {
        Some(value as u32)
    } else {
        None
    }
}

/// The number of a hole.
#[tactic(auto, unfolding(crate::specs::rules::Reading::hole_number))]
pub(crate) fn hole_number(symbols: &[Symbol]) -> Parsed<'_, u32>
    ensures { Parses (λ x. x) result (spec.hole_number symbols.now) }
{
    if let Some(Symbol::Number(value)) = first(symbols) {
        if let Some(hole) = hole_of(value) {
            return Ok((hole, rest(symbols)));
        }
    }
    Err(refusal(FaultKind::Expected, symbols))
}

/// A hole statement, after its question mark.
#[tactic(auto, unfolding(crate::specs::rules::Reading::hole))]
pub(crate) fn hole(symbols: &[Symbol]) -> Parsed<'_, Stmt>
    ensures { Parses statement_of result (spec.hole symbols.now) }
{
    let (hole, after) = hole_number(symbols)?;
    let after = expect(Mark::Semicolon, after)?;
    Ok((Stmt::Hole(hole), after))
}

/// `skip;`, after its word.
#[tactic(auto, unfolding(crate::specs::rules::Reading::nothing))]
pub(crate) fn nothing(symbols: &[Symbol]) -> Parsed<'_, Stmt>
    ensures { Parses statement_of result (spec.nothing symbols.now) }
{
    let after = expect(Mark::Semicolon, symbols)?;
    Ok((Stmt::Skip, after))
}

/// Names with commas between them.
#[tactic(auto, unfolding(crate::specs::rules::Reading::names))]
pub(crate) fn names(alloc: Global, symbols: &[Symbol]) -> Parsed<'_, Vec<Name>>
    ensures { Parses (λ x. numbers_of x.items) result (spec.names symbols.now) }
{
    let (one, after) = name(symbols)?;
    let mut list = Vec::new(alloc);
    list.push(one)?;
    more_names(list, after)
}

/// The names after those that were read.
pub(crate) fn more_names(mut list: Vec<Name>, symbols: &[Symbol]) -> Parsed<'_, Vec<Name>>
    ensures { Parses (λ x. numbers_of x.items) result
        (spec.more_names (numbers_of list.items) symbols.now) }
{
    let mut after = symbols;
    'names: while stands(Mark::Comma, first(after)) {
        let (one, behind) = next_name(after)?;
        list.push(one)?;
        after = behind;
    }
    Ok((list, after))
}

/// Names up to the semicolon after them.
#[tactic(auto, unfolding(crate::specs::rules::Reading::names_to_end))]
pub(crate) fn names_to_end(alloc: Global, symbols: &[Symbol]) -> Parsed<'_, Vec<Name>>
    ensures { Parses (λ x. numbers_of x.items) result (spec.names_to_end symbols.now) }
{
    let (list, after) = names(alloc, symbols)?;
    let after = expect(Mark::Semicolon, after)?;
    Ok((list, after))
}

/// The names of a declaration, after its word.
#[tactic(auto, unfolding(crate::specs::rules::Reading::declared))]
pub(crate) fn declared_names(alloc: Global, sort: Sort, symbols: &[Symbol]) -> Parsed<'_, Declared>
    ensures { Parses declaration_of result (spec.declared sort symbols.now) }
{
    let (names, after) = names_to_end(alloc, symbols)?;
    Ok((Declared { sort, names }, after))
}

/// A declaration that begins with a mark.
pub(crate) fn declaration_at(alloc: Global, mark: Mark, symbols: &[Symbol]) -> Parsed<'_, Declared>
    ensures { Parses declaration_of result (spec.declaration_at mark symbols.now) }
{
    if mark == Mark::Var {
        declared_names(alloc, Sort::Num, rest(symbols))
    } else if mark == Mark::Array {
        declared_names(alloc, Sort::Arr, rest(symbols))
    } else {
        Err(refusal(FaultKind::Expected, symbols))
    }
}

/// A declaration.
#[tactic(auto, unfolding(crate::specs::rules::Reading::declaration))]
pub(crate) fn declaration(alloc: Global, symbols: &[Symbol]) -> Parsed<'_, Declared>
    ensures { Parses declaration_of result (spec.declaration symbols.now) }
{
    match first(symbols) {
        Some(Symbol::Mark(mark)) => declaration_at(alloc, mark, symbols),
        _ => Err(refusal(FaultKind::Expected, symbols)),
    }
}

/// Declares the names with a sort, after the others.
pub(crate) fn declare(
    list: &mut Vec<(Name, Sort)>,
    names: &[Name],
    sort: Sort,
) -> Result<(), AllocError>
    ensures { OnOk result
        (entries_of list.new.items
        ≡ entries_of list.old.items ++ with_sort sort (numbers_of names.now)) }
{
    'names: for name in names {
        list.push((*name, sort))?;
    }
    Ok(())
}

/// Whether a declaration begins there.
pub(crate) fn begins_declaration(symbol: Option<Symbol>) -> bool
    ensures { result ≡ spec.begins_declaration symbol }
{
    stands(Mark::Var, symbol) || stands(Mark::Array, symbol)
}

/// All declarations.
#[tactic(auto, unfolding(crate::specs::rules::Reading::declarations))]
pub(crate) fn declarations(alloc: Global, symbols: &[Symbol]) -> Parsed<'_, Decls>
    ensures { Parses declared_of result (spec.declarations symbols.now) }
{
    let mut list = Vec::new(alloc);
    let mut after = symbols;
    'declarations: while begins_declaration(first(after)) {
        let (one, behind) = declaration(alloc, after)?;
        declare(&mut list, &one.names, one.sort)?;
        after = behind;
    }
    Ok((Decls { list }, after))
}

/// The outputs.
#[tactic(auto, unfolding(crate::specs::rules::Reading::outputs))]
pub(crate) fn outputs(alloc: Global, symbols: &[Symbol]) -> Parsed<'_, Outputs>
    ensures { Parses outputs_of result (spec.outputs symbols.now) }
{
    let after = expect(Mark::Output, symbols)?;
    let (list, after) = names_to_end(alloc, after)?;
    Ok((Outputs { list }, after))
}

/// Whether a statement begins there.
pub(crate) fn begins_statement(symbol: Option<Symbol>) -> bool
    ensures { result ≡ spec.begins_statement symbol }
{
    is_name(symbol)
        || stands(Mark::Skip, symbol)
        || stands(Mark::Question, symbol)
        || stands(Mark::If, symbol)
        || stands(Mark::While, symbol)
}
