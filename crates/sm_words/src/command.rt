// What `clap` knows of the commands.
ghost use Rattle.std.specs.Prelude.{◌≡◌, false, map, IfOk};
ghost use Rattle.clap.specs.Words.{app_of, new_app, rule_of};
ghost use Rattle.sm_words.specs.Command.{command_of, rule_by, with_rules};

use crate::about::About;
use clap::{Arg, ArgAction, Command};
use std::alloc::{AllocError, Global};

/// The commands.
#[derive(Clone, Copy)]
pub enum Verb {
    Check,
    Verify,
    Replay,
    Print,
    Suggest,
    Gen,
    Explain,
    Batch,
    Trim,
    About(About),
}

/// An argument of a command.
#[derive(Clone, Copy)]
pub enum Argument {
    /// A word that has to be there.
    Required(&'static str),
    /// A word that may be there.
    Optional(&'static str),
    /// An option with a value.
    Valued(&'static str),
    /// An option without a value.
    Flag(&'static str),
}

// The arguments of each command that has some, in the order in which `clap` is told of them.
const CHECK: [Argument; 9] = [
    Argument::Required("TASK"),
    Argument::Required("PROOF"),
    Argument::Valued("steps"),
    Argument::Valued("turns"),
    Argument::Valued("workers"),
    Argument::Flag("exact"),
    Argument::Valued("seconds"),
    Argument::Flag("deeper"),
    Argument::Flag("why"),
];

const VERIFY: [Argument; 3] = [
    Argument::Required("TASK"),
    Argument::Required("PROOF"),
    Argument::Valued("workers"),
];

const REPLAY: [Argument; 4] = [
    Argument::Required("TASK"),
    Argument::Required("INPUT"),
    Argument::Valued("turns"),
    Argument::Valued("workers"),
];

const PRINT: [Argument; 2] = [Argument::Required("TASK"), Argument::Valued("copy")];

const SUGGEST: [Argument; 6] = [
    Argument::Required("TASK"),
    Argument::Valued("steps"),
    Argument::Valued("turns"),
    Argument::Valued("workers"),
    Argument::Flag("exact"),
    Argument::Valued("seconds"),
];

const GEN: [Argument; 7] = [
    Argument::Required("SEED"),
    Argument::Required("SIZE"),
    Argument::Valued("steps"),
    Argument::Valued("turns"),
    Argument::Valued("workers"),
    Argument::Flag("exact"),
    Argument::Valued("seconds"),
];

const EXPLAIN: [Argument; 3] = [
    Argument::Required("TASK"),
    Argument::Optional("INPUT"),
    Argument::Valued("turns"),
];

const BATCH: [Argument; 6] = [
    Argument::Required("LIST"),
    Argument::Valued("cache"),
    Argument::Valued("steps"),
    Argument::Valued("turns"),
    Argument::Valued("workers"),
    Argument::Flag("exact"),
];

const TRIM: [Argument; 3] = [
    Argument::Required("TASK"),
    Argument::Required("PROOF"),
    Argument::Required("OUT"),
];

/// What `clap` knows of a command.
pub fn command_of<'a>(alloc: Global, verb: Verb) -> Result<Command<'a>, AllocError>
    ensures { IfOk result (λ c. app_of c ≡ command_of verb) }
{
    match verb {
        Verb::Check => command_with(alloc, "check", &CHECK),
        Verb::Verify => command_with(alloc, "verify", &VERIFY),
        Verb::Replay => command_with(alloc, "replay", &REPLAY),
        Verb::Print => command_with(alloc, "print", &PRINT),
        Verb::Suggest => command_with(alloc, "suggest", &SUGGEST),
        Verb::Gen => command_with(alloc, "gen", &GEN),
        Verb::Explain => command_with(alloc, "explain", &EXPLAIN),
        Verb::Batch => command_with(alloc, "batch", &BATCH),
        Verb::Trim => command_with(alloc, "trim", &TRIM),
        Verb::About(About::Help) => command_with(alloc, "help", &[]),
        Verb::About(About::Version) => command_with(alloc, "version", &[]),
    }
}

// A command with its arguments in turn.
fn command_with<'a>(
    alloc: Global,
    word: &'static str,
    arguments: &[Argument],
) -> Result<Command<'a>, AllocError>
    ensures { IfOk result (λ c.
        app_of c ≡ with_rules (new_app word.now) (map rule_by arguments.now)) }
{
    let mut command = Command::new(alloc, word);
    for argument in arguments {
        command = command.arg(arg_of(alloc, *argument))?;
    }
    Ok(command)
}

// What `clap` knows of an argument.
fn arg_of<'a>(alloc: Global, argument: Argument) -> Arg<'a>
    ensures rule { rule_of result ≡ rule_by argument }
    ensures local { result.global ≡ false }
{
    match argument {
        Argument::Required(id) => Arg::new(alloc, id).required(true).action(ArgAction::Set),
        Argument::Optional(id) => Arg::new(alloc, id).action(ArgAction::Set),
        Argument::Valued(id) => Arg::new(alloc, id).long(id).action(ArgAction::Set),
        Argument::Flag(id) => Arg::new(alloc, id).long(id).action(ArgAction::SetTrue),
    }
}
