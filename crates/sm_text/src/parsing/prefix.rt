// The front of a text, and a block in it, read by the tokens alone that they have.
ghost use Rattle.std.specs.Prelude.{◌≡◌, ◌<◌, ◌≤◌, ◌+◌, ◌-◌, ◌^◌, ℕ, if◌then◌else◌, List, length, option_map, take, IfOk, IfErr, OnErr};
ghost use Rattle.std.specs.List.{AllByRecursion};
ghost use Rattle.sm_syntax.specs.declared.symbol.Mark.TheVariants.{OpenCurly, CloseCurly};
ghost use Rattle.sm_syntax.specs.claim.Syntax.{Code};
ghost use Rattle.sm_syntax.specs.trees.Programs.{declared_of};
ghost use Rattle.sm_syntax.specs.trees.Views.{condition_of, code_of};
ghost use Rattle.sm_text.specs.rules.Answers.{Fails};
ghost use Rattle.sm_text.specs.parsing.BlockTokens.{IsFirstBlock, IsGroup, is_mark, token_symbols};
ghost use Rattle.sm_text.specs.parsing.Fragments.{HasBlockText, HasProgramText};
ghost use Rattle.sm_text.specs.resolving.NameCounts as spec;
ghost use Rattle.sm_text.specs.printing.Named.{IsUsedIn};
ghost use Rattle.sm_text.specs.parsing.Places.{IsRefusal, whole_text, text_from};
ghost use Rattle.sm_text.specs.parsing.Prefix.{AreTokensOf, AreHeads, SpellsHead, IsHeadReadAs, IsNamedHead, AssumesDeclared, SpellsBlockAt, IsBlockReadAs, AreBlocks};
ghost use Rattle.sm_text.specs.rules.Reading as grammar;
ghost use Rattle.sm_text.specs.resolving.TokenTexts.{IsTokenOf};
ghost use Rattle.sm_text.specs.Tasks.{HeadParts, head_parts, program_parts};

use crate::error::TextError;
use crate::lexing::token_list::Tokens;
use crate::parsing::text::refused;
use crate::resolving::resolve::{sign_of, symbols_after};
use crate::rules::names::GROUP_LIMIT;
use crate::rules::reading::{Fault, ReadError};
use crate::rules::sections::head;
use crate::rules::statements::block;
use sm_syntax::{Block, Cond, Mark, NameTable, Program, Symbol, Token};
use std::alloc::Global;

/// Reads the front of a task from the tokens of its text: a program, what is assumed, and the
/// number of the token after them. What stands after them doesn't matter, and the program has
/// the names of its own tokens alone. A text that doesn't begin with a head is refused at the
/// first fault in it, as by `read_task`.
pub fn parse_head(
    alloc: Global,
    bytes: &[u8],
    tokens: &Tokens,
) -> Result<(Program, Option<Cond>, u64), TextError>
    requires { AreTokensOf bytes.now tokens.now }
    ensures ok { IfOk result (λ r. SpellsHead bytes.now r.2 (head_parts r.0 r.1)) }
    // Each of its names has a text. Some text spells its program, where all that it assumes is
    // declared: else a name of the assumption alone stands in the program's table.
    ensures named { IfOk result (λ r. IsNamedHead (head_parts r.0 r.1)) }
    ensures printable { IfOk result (λ r.
        AssumesDeclared (declared_of r.0.decls) (option_map condition_of r.1) →
        HasProgramText (program_parts r.0)) }
    // Each head is read, whatever stands after it, so no head is the beginning of another.
    ensures only { (n : ℕ) (h : HeadParts) → SpellsHead bytes.now n h → IsHeadReadAs n h result }
    // A refusal is the first fault of the text, and names its kind and its place.
    ensures place { IfErr result (IsRefusal AreHeads (whole_text bytes.now)) }
{
    let mut names = NameTable::new(alloc);
    let symbols = symbols_after(alloc, bytes, &tokens.list, &mut names)?;
    match head(alloc, names, &symbols) {
        Ok((front, after)) => {
            let used = symbols.len() - after.len();
            let (mut program, assumed) = front;
            program.names.cut(count_names(0, &symbols[..used]));
            Ok((program, assumed, used as u64))
        }
        Err(ReadError::Fault(fault)) => Err(refused(bytes, tokens, fault)),
        Err(ReadError::Memory) => Err(TextError::Memory),
    }
}

/// Reads the block that begins at token number `at` of a text, where `groups` groups stand open
/// before it, and gives the number of the token after it. Names of the block that aren't in the
/// table go after those that are; after a refusal the table is as it was. More than 64 open
/// groups nest too deep, the block's own among them. Where no block stands, the text is refused
/// at the first fault from `at` on, as by `read_task`. Want of memory stands also for a table
/// without room. The time grows with the block's own tokens: those up to the curly brace that
/// closes the one at `at`, or all after it where none does.
pub fn parse_block(
    alloc: Global,
    bytes: &[u8],
    tokens: &Tokens,
    at: u64,
    groups: u64,
    names: &mut NameTable,
) -> Result<(Block, u64), TextError>
    requires cut { AreTokensOf bytes.now tokens.now }
    requires within { at ≤ length tokens.now.list.items }
    ensures ok { IfOk result (λ r.
        SpellsBlockAt bytes.now at groups names.old r.1 names.new (code_of r.0)) }
    // Some text spells the block under the names, and each of its names has a text.
    ensures printable { IfOk result (λ r. HasBlockText names.new (code_of r.0)) }
    ensures named { IfOk result (λ r. IsUsedIn (length names.new) (code_of r.0)) }
    // Each block is read, whatever stands after it, so no block is the beginning of another.
    ensures only { (n : ℕ) (after : List (List ℕ)) (c : Code) →
        SpellsBlockAt bytes.now at groups names.old n after c →
        IsBlockReadAs n c result }
    // A refusal is the first fault from there on, and names its kind and its place.
    ensures place { IfErr result (IsRefusal (AreBlocks groups) (text_from bytes.now at names.old)) }
    ensures unchanged { OnErr result (names.new ≡ names.old) }
{
    let count = names.len();
    let result = block_at(alloc, bytes, tokens, at as usize, groups, names);
    if result.is_err() {
        names.cut(count);
    }
    result
}

// the block, where the table is left with more names after a refusal
fn block_at(
    alloc: Global,
    bytes: &[u8],
    tokens: &Tokens,
    at: usize,
    groups: u64,
    names: &mut NameTable,
) -> Result<(Block, u64), TextError>
    requires cut { AreTokensOf bytes.now tokens.now }
    requires within { at ≤ length tokens.now.list.items }
    ensures ok { IfOk result (λ r.
        SpellsBlockAt bytes.now at groups names.old r.1 names.new (code_of r.0)) }
    ensures printable { IfOk result (λ r. HasBlockText names.new (code_of r.0)) }
    ensures named { IfOk result (λ r. IsUsedIn (length names.new) (code_of r.0)) }
    ensures only { (n : ℕ) (after : List (List ℕ)) (c : Code) →
        SpellsBlockAt bytes.now at groups names.old n after c →
        IsBlockReadAs n c result }
    ensures place { IfErr result (IsRefusal (AreBlocks groups) (text_from bytes.now at names.old)) }
    ensures kept { OnErr result (take (length names.old) names.new ≡ names.old) }
{
    match first_block(alloc, bytes, &tokens.list[at..], groups, names) {
        Ok((block, left)) => Ok((block, (tokens.list.len() - left) as u64)),
        Err(ReadError::Fault(fault)) => Err(refused(bytes, tokens, fault)),
        Err(ReadError::Memory) => Err(TextError::Memory),
    }
}

// The block that tokens begin with, and how many stand after it. It is read by its own tokens
// alone: no block is refused after the brace that closes it, so what these tell holds whatever
// stands after them.
fn first_block(
    alloc: Global,
    bytes: &[u8],
    tokens: &[Token],
    groups: u64,
    names: &mut NameTable,
) -> Result<(Block, usize), ReadError>
    requires { AllByRecursion (IsTokenOf bytes.now) tokens.now }
    ensures ok { IfOk result (λ r.
        IsFirstBlock bytes.now names.old groups tokens.now names.new (code_of r.0) r.1) }
    ensures fault { IfErr result (λ e.
        Fails e (grammar.block (64 - groups) (token_symbols bytes.now names.old tokens.now))) }
    ensures kept { OnErr result (take (length names.old) names.new ≡ names.old) }
{
    let end = block_end(bytes, tokens);
    let behind = tokens.len() - end;
    match block_of(alloc, bytes, &tokens[..end], groups, names) {
        Ok((block, left)) => Ok((block, left + behind)),
        Err(ReadError::Fault(fault)) => Err(ReadError::Fault(Fault {
            kind: fault.kind,
            left: fault.left + behind,
        })),
        Err(ReadError::Memory) => Err(ReadError::Memory),
    }
}

// the block that tokens begin with, and how many stand after it, by the symbols of them all
fn block_of(
    alloc: Global,
    bytes: &[u8],
    tokens: &[Token],
    groups: u64,
    names: &mut NameTable,
) -> Result<(Block, usize), ReadError>
    requires { AllByRecursion (IsTokenOf bytes.now) tokens.now }
    ensures ok { IfOk result (λ r.
        IsFirstBlock bytes.now names.old groups tokens.now names.new (code_of r.0) r.1) }
    ensures fault { IfErr result (λ e.
        Fails e (grammar.block (64 - groups) (token_symbols bytes.now names.old tokens.now))) }
    ensures kept { OnErr result (take (length names.old) names.new ≡ names.old) }
{
    let count = names.len();
    let symbols = symbols_after(alloc, bytes, tokens, names)?;
    let (block, after) = block(alloc, GROUP_LIMIT.saturating_sub(groups), &symbols)?;
    let used = symbols.len() - after.len();
    names.cut(count_names(count, &symbols[..used]));
    Ok((block, after.len()))
}

// how many tokens there are up to the curly brace that closes the first, or all where none does
fn block_end(bytes: &[u8], tokens: &[Token]) -> usize
    requires { AllByRecursion (IsTokenOf bytes.now) tokens.now }
    ensures { IsGroup bytes.now tokens.now result }
{
    let mut depth: usize = 0;
    for (index, token) in tokens.iter().enumerate() {
        depth = depth_behind(depth, sign_of(bytes, *token));
        if depth == 0 {
            return index + 1;
        }
    }
    tokens.len()
}

// how many curly braces are open after a sign, where `depth` are before it
fn depth_behind(depth: usize, sign: Option<Mark>) -> usize
    requires { depth + 1 < 2 ^ 64 }
    ensures { result ≡
        (if is_mark OpenCurly sign then depth + 1 else depth)
        - (if is_mark CloseCurly sign then 1 else 0) }
{
    match sign {
        Some(Mark::OpenCurly) => depth + 1,
        Some(Mark::CloseCurly) => depth.saturating_sub(1),
        _ => depth,
    }
}

// how many names there are with those of the symbols, where each new name has the next number
fn count_names(before: usize, symbols: &[Symbol]) -> usize
    ensures { result ≡ spec.names_counted before symbols.now }
{
    let mut count = before;
    for symbol in symbols {
        if let Symbol::Name(name) = *symbol {
            if name.0 as usize == count {
                count += 1;
            }
        }
    }
    count
}
