// Where a hole of the shared program stands in the text of a task.
ghost use Rattle.std.specs.Prelude.{◌≡◌, ◌^◌, ◌<◌, ◌≤◌, ℕ, true, false, Some, length, slice_get, IfOk, IfNone, IfSome};
ghost use Rattle.sm_syntax.specs.text.Symbols.{symbols_of};
ghost use Rattle.sm_syntax.specs.text.Tokens.{lexed};
ghost use Rattle.sm_task.specs.Tasks.{parts_of};
ghost use Rattle.sm_why.specs.Sites.{begins_hole, is_hole_number, is_question, IsHoleOffset, IsSite, BeginsAt};

use crate::needing::deciding_hole;
use sm_syntax::{Mark, Name, Symbol, Token};
use sm_task::{Task, holes_of};
use sm_text::{symbols, tokens};
use std::alloc::{AllocError, Global};

/// The offset in a task's text of a hole of its shared program, of which there are fewer than 2^32
/// bytes: the last hole that writes what an output needs behind it. Where none does, it is the last
/// of all, and where there is none, the end of the text. Which hole it is isn't stated.
pub(crate) fn site_of(
    alloc: Global,
    task: &Task,
    text: &[u8],
    output: Option<Name>,
) -> Result<usize, AllocError>
    requires { length text.now < 2 ^ 32 }
    ensures site { IfOk result (IsSite text.now (parts_of task.now)) }
    ensures inside { IfOk result (λ offset. offset ≤ length text.now) }
{
    let holes = holes_of(alloc, &task.shared.body)?;
    if holes.is_empty() {
        return Ok(text.len());
    }
    let chosen = match output {
        Some(x) => deciding_hole(alloc, task, &holes, x)?,
        None => 0,
    };
    let hole = hole_at(&holes, chosen);
    hole_offset(alloc, text, hole)
}

// The hole at a place, or the last where there are no more.
fn hole_at(holes: &[u32], place: usize) -> u32
    requires { 0 < length holes.now }
    ensures { (k : ℕ) × (slice_get holes.now k ≡ Some result) }
{
    let k = place.min(holes.len() - 1);
    holes[k]
}

// Where the first token of a text that begins a hole stands, or the end of the text.
fn hole_offset(alloc: Global, text: &[u8], hole: u32) -> Result<usize, AllocError>
    requires { length text.now < 2 ^ 32 }
    ensures offset { IfOk result (IsHoleOffset text.now hole) }
    ensures inside { IfOk result (λ offset. offset ≤ length text.now) }
{
    let cut = tokens(alloc, text)?;
    let read = symbols(alloc, text, &cut.list)?;
    match first_token(&read.list, hole) {
        Some(k) => Ok(offset_at(text, &cut.list, k, hole)),
        None => Ok(text.len()),
    }
}

// Where a token that begins a hole stands.
fn offset_at(text: &[u8], tokens: &[Token], k: usize, hole: u32) -> usize
    requires cut { tokens.now ≡ (lexed text.now).0 }
    requires begins { begins_hole (symbols_of text.now) hole k ≡ true }
    requires first { (j : ℕ) → j < k → begins_hole (symbols_of text.now) hole j ≡ false }
    ensures offset { BeginsAt text.now hole result }
    ensures inside { result ≤ length text.now }
{
    place_at(tokens, k)
}

// The place of a token.
fn place_at(tokens: &[Token], k: usize) -> usize
    requires { k < length tokens.now }
    ensures { (t : Token) × (slice_get tokens.now k ≡ Some t) × (result ≡ t.place) }
{
    tokens[k].place as usize
}

// The first place among symbols at which a hole begins.
fn first_token(symbols: &[Symbol], hole: u32) -> Option<usize>
    ensures some { IfSome result (λ k. begins_hole symbols.now hole k ≡ true) }
    ensures first { IfSome result (λ k.
        (j : ℕ) → j < k → begins_hole symbols.now hole j ≡ false) }
    ensures none { IfNone result ((j : ℕ) → j < length symbols.now →
        begins_hole symbols.now hole j ≡ false) }
{
    for k in 0..symbols.len() {
        if begins_hole(symbols, k, hole) {
            return Some(k);
        }
    }
    None
}

// Whether a hole begins at a place among symbols.
fn begins_hole(symbols: &[Symbol], k: usize, hole: u32) -> bool
    requires { k < length symbols.now }
    ensures { result ≡ begins_hole symbols.now hole k }
{
    is_question(symbol_at(symbols, k)) && is_hole_number(hole, symbol_at(symbols, k + 1))
}

// The symbol at a place, where there are so many.
fn symbol_at(symbols: &[Symbol], k: usize) -> Option<Symbol>
    ensures { result ≡ slice_get symbols.now k }
{
    symbols.get(k).copied()
}

// Whether a symbol is `?`.
fn is_question(symbol: Option<Symbol>) -> bool
    ensures { result ≡ is_question symbol }
{
    match symbol {
        None => false,
        Some(Symbol::Mark(mark)) => mark == Mark::Question,
        Some(Symbol::Number(_)) => false,
        Some(Symbol::Name(_)) => false,
    }
}

// Whether a symbol is the number of a hole.
fn is_hole_number(hole: u32, symbol: Option<Symbol>) -> bool
    ensures { result ≡ is_hole_number hole symbol }
{
    match symbol {
        None => false,
        Some(Symbol::Mark(_)) => false,
        Some(Symbol::Number(n)) => n == hole as i128,
        Some(Symbol::Name(_)) => false,
    }
}
