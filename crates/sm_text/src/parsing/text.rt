// A whole text, read as a task.
ghost use Rattle.std.specs.Prelude.{◌≡◌, ◌<◌, ◌≤◌, ◌^◌, Some, None, length, IfOk, IfErr, IfSome};
ghost use Rattle.sm_syntax.specs.text.Parts.{Parts};
ghost use Rattle.sm_syntax.specs.text.Spells.{IsInGrammar};
ghost use Rattle.sm_text.specs.parsing.ErrorPlaces.{IsErrorOf, IsPlaceWith};
ghost use Rattle.sm_text.specs.parsing.Places.{AreTasks, IsRefusal, whole_text};
ghost use Rattle.sm_text.specs.parsing.Text.{IsTaskReadAs, lexical_fault, rule_fault};
ghost use Rattle.sm_text.specs.Tasks.{parts_of};

use crate::error::TextError;
use crate::lexing::lexer::tokens;
use crate::lexing::token_list::Tokens;
use crate::resolving::resolve::symbols;
use crate::rules::reading::{Fault, FaultKind, ReadError};
use crate::rules::sections::whole;
use crate::task::Task;
use sm_syntax::{LexFault, LexKind, Token};
use std::alloc::{AllocError, Global};

/// Reads a text of fewer than 2^32 bytes as a task by the grammar alone, whatever the conditions on
/// tasks say. A text that isn't read is refused at the first fault in it: a lexical one, a token
/// that no task has after those before it (`Expected`, also at the end of the text), or a token
/// that nests too deep (`Nested`). Whether a task has a token there is a matter of the grammar
/// alone, whatever nests too deep after it.
pub fn read_task(alloc: Global, bytes: &[u8]) -> Result<Task, TextError>
    requires { length bytes.now < 2 ^ 32 }
    ensures ok { IfOk result (λ t. IsInGrammar bytes.now (parts_of t)) }
    // Each text in the grammar is read, where nothing in it nests too deep.
    ensures only { (t : Parts) → IsInGrammar bytes.now t → IsTaskReadAs t result }
    // A refusal is the first fault of the text, and names its kind and its place.
    ensures place { IfErr result (IsRefusal AreTasks (whole_text bytes.now)) }
{
    let tokens = tokens(alloc, bytes)?;
    let symbols = symbols(alloc, bytes, &tokens.list)?;
    match whole(alloc, symbols.names, &symbols.list) {
        Ok(task) => match tokens.fault {
            None => Ok(task),
            Some(fault) => Err(lexical_error(fault)),
        },
        Err(ReadError::Fault(fault)) => Err(refused(bytes, &tokens, fault)),
        Err(ReadError::Memory) => Err(TextError::Memory),
    }
}

/// The error of a rule that doesn't go on.
pub(crate) fn refused(bytes: &[u8], tokens: &Tokens, fault: Fault) -> TextError
    ensures { IsErrorOf fault tokens.now (length bytes.now) result }
{
    match (place_of(fault, &tokens.list), tokens.fault) {
        (Some(place), _) => rule_error(fault.kind, place),
        (None, Some(lexical)) => lexical_error(lexical),
        (None, None) => rule_error(fault.kind, bytes.len() as u64),
    }
}

// the place of the token at which a rule doesn't go on, if that is no end of the tokens
fn place_of(fault: Fault, tokens: &[Token]) -> Option<u64>
    ensures some { IfSome result (IsPlaceWith fault.left tokens.now) }
    ensures none { result ≡ None → fault.left ≤ length tokens.now → fault.left ≡ 0 }
{
    let index = tokens.len().checked_sub(fault.left)?;
    Some(tokens.get(index)?.place)
}

// the error of a rule that doesn't go on at a place
fn rule_error(kind: FaultKind, place: u64) -> TextError
    ensures { result ≡ rule_fault kind place }
{
    match kind {
        FaultKind::Expected => TextError::Expected { place },
        FaultKind::Nested => TextError::Nested { place },
    }
}

/// The error of a place at which no token stands.
pub(crate) fn lexical_error(fault: LexFault) -> TextError
    ensures { lexical_fault result ≡ Some fault }
{
    match fault.kind {
        LexKind::BadByte => TextError::BadByte { place: fault.place },
        LexKind::BadToken => TextError::BadToken { place: fault.place },
        LexKind::WideNumber => TextError::WideNumber { place: fault.place },
    }
}
