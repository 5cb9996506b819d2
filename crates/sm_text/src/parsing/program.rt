// A whole text, read as a program.
ghost use Rattle.std.specs.Prelude.{◌<◌, ◌^◌, length, IfOk, IfErr};
ghost use Rattle.sm_text.specs.rules.Answers.{Gives};
ghost use Rattle.sm_text.specs.parsing.Fragments.{HasProgramText, IsNamedProgram, IsProgramReadAs, SpellsProgram};
ghost use Rattle.sm_text.specs.parsing.Places.{ArePrograms, IsRefusal, whole_text};
ghost use Rattle.sm_text.specs.parsing.Program as spec;
ghost use Rattle.sm_text.specs.Tasks.{ProgramParts, program_parts};

use crate::error::TextError;
use crate::lexing::lexer::tokens;
use crate::parsing::text::{lexical_error, refused};
use crate::resolving::resolve::symbols;
use crate::rules::names::{declarations, outputs};
use crate::rules::reading::{FaultKind, ReadError, beside, first, refusal};
use crate::rules::sections::shared;
use sm_syntax::{NameTable, Program, Symbol};
use std::alloc::Global;

/// A program with the table of its names, and the symbols after it.
#[tactic(auto, unfolding(crate::specs::parsing::Program::program))]
fn program(
    alloc: Global,
    names: NameTable,
    symbols: &[Symbol],
) -> Result<(Program, &[Symbol]), ReadError>
    ensures { Gives (λ x. (program_parts x.0, x.1.now)) result (spec.program names symbols.now) }
{
    let (declared, after) = beside(names, declarations(alloc, symbols))?;
    let (front, after) = beside(declared, outputs(alloc, after))?;
    let (parts, after) = beside(front, shared(alloc, after))?;
    let (((names, decls), outputs), body) = parts;
    let program = Program {
        names,
        decls,
        outputs,
        body,
    };
    Ok((program, after))
}

/// A whole program, with no symbol after it.
fn whole_program(alloc: Global, names: NameTable, symbols: &[Symbol]) -> Result<Program, ReadError>
    ensures { Gives program_parts result (spec.whole_program names symbols.now) }
{
    match program(alloc, names, symbols) {
        Ok((program, after)) => match first(after) {
            None => Ok(program),
            Some(_) => Err(refusal(FaultKind::Expected, after)),
        },
        Err(error) => Err(error),
    }
}

/// Reads a text of fewer than 2^32 bytes as a program: declarations, outputs and a shared block
/// alone. Any other text is refused at its first fault, as by `read_task`.
pub fn parse_program(alloc: Global, bytes: &[u8]) -> Result<Program, TextError>
    requires { length bytes.now < 2 ^ 32 }
    ensures ok { IfOk result (λ p. SpellsProgram bytes.now (program_parts p)) }
    // Some text spells the program, and each of its names has a text.
    ensures printable { IfOk result (λ p. HasProgramText (program_parts p)) }
    ensures named { IfOk result (λ p. IsNamedProgram (program_parts p)) }
    // Each text that spells a program is read, and a text spells at most one.
    ensures only { (p : ProgramParts) → SpellsProgram bytes.now p → IsProgramReadAs p result }
    // A refusal is the first fault of the text, and names its kind and its place.
    ensures place { IfErr result (IsRefusal ArePrograms (whole_text bytes.now)) }
{
    let tokens = tokens(alloc, bytes)?;
    let symbols = symbols(alloc, bytes, &tokens.list)?;
    match whole_program(alloc, symbols.names, &symbols.list) {
        Ok(program) => match tokens.fault {
            None => Ok(program),
            Some(fault) => Err(lexical_error(fault)),
        },
        Err(ReadError::Fault(fault)) => Err(refused(bytes, &tokens, fault)),
        Err(ReadError::Memory) => Err(TextError::Memory),
    }
}
