// What the words ask for.
ghost use Rattle.std.specs.Prelude.{◌≡◌, ◌≢◌, [], ◌∷◌, Some, map, ℕ, List, codes, IfOk, IsErrOf};
ghost use Rattle.std.specs.String.{string_bytes};
ghost use Rattle.clap.specs.Words.{first_value, found_of, kind_of};
ghost use Rattle.sm_words.specs.Lines.{line_of};
ghost use Rattle.sm_words.specs.Views.{asked_in, IsWithin};
ghost use Rattle.sm_words.specs.Words.{asked, asked_by, argument_text, usage_line, usage_line_of, verb_of, word_faults, HasRequired, IsRefused, IsUsage, Words};
ghost use Rattle.sm_words.specs.declared.words.WordsError.TheVariants.{Memory};

use crate::about::About;
use crate::command::{Verb, command_of};
use crate::effort::Effort;
use crate::lines::line;
use crate::requests::{
    batch_request, check_request, explain_request, gen_request, print_request, replay_request,
    suggest_request, trim_request, verify_request,
};
use clap::error::ErrorKind;
use clap::{ArgMatches, Error};
use sm_syntax::CopyName;
use std::alloc::{AllocError, Global};
use thiserror::Error as ErrorText;

/// What the words ask for. Files are named as the words name them.
#[derive(Clone, Copy)]
pub enum Request<'a> {
    /// The decision on a task, whose proof is written to a file.
    Check {
        task: &'a str,
        proof: &'a str,
        effort: Effort,
    },
    /// Whether a proof passes for a task, with `workers` workers.
    Verify {
        task: &'a str,
        proof: &'a str,
        workers: u32,
    },
    /// What a task's programs do from an input, with at most `turns` turns for a loop.
    Replay {
        task: &'a str,
        input: &'a str,
        turns: u64,
    },
    /// The canonical text of a task, or of the program of one of its copies.
    Print {
        task: &'a str,
        copy: Option<CopyName>,
    },
    /// The first combination of a task's fillings that the decision accepts.
    Suggest {
        task: &'a str,
        effort: Effort,
    },
    /// The decision on the task that a seed and a size make.
    Gen {
        seed: u32,
        size: u16,
        effort: Effort,
    },
    /// Why a task is refused, or its programs; where there is an input, what they do from it.
    Explain {
        task: &'a str,
        input: Option<&'a str>,
        turns: u64,
    },
    /// The decision on each task that a list names, where what is accepted of up to `cache` tasks is
    /// kept.
    Batch {
        list: &'a str,
        cache: u32,
        effort: Effort,
    },
    /// The proof in a file without lines that nobody uses, which is written to another file.
    Trim {
        task: &'a str,
        proof: &'a str,
        out: &'a str,
    },
    /// What the program says of itself.
    About(About),
}

/// Why words ask for nothing.
#[derive(Clone, Copy, Debug, PartialEq, Eq, ErrorText)]
pub enum WordsError {
    #[error("no command takes these words")]
    Usage,
    #[error("out of memory")]
    Memory,
}

impl From<AllocError> for WordsError {
    ghost from_gives = { λ _ e. e ≡ Memory };

    fn from(_error: AllocError) -> WordsError {
        WordsError::Memory
    }
}

/// What the words ask for; Usage where no command takes them.
pub fn read_words<'a>(alloc: Global, words: &'a [String]) -> Result<Request<'a>, WordsError>
    ensures ok { IfOk result (λ r. asked (map string_bytes words.entry.now) ≡ Some (asked_in r)) }
    ensures usage { IsErrOf result WordsError.Usage → IsUsage (map string_bytes words.entry.now) }
    ensures within { IfOk result IsWithin }
{
    match words {
        [word, ..] => match verb_of(word.as_str()) {
            Some(verb) => request_by(alloc, verb, words),
            None => Err(WordsError::Usage),
        },
        [] => Err(WordsError::Usage),
    }
}

/// The line on words that no command takes.
pub fn usage_line(alloc: Global, words: &[String]) -> Result<Vec<u8>, AllocError>
    ensures { IfOk result (λ text. text.items ≡ usage_line (map string_bytes words.now)) }
{
    match words {
        [word, ..] => usage_line_of(alloc, verb_of(word.as_str())),
        [] => line(alloc, "Usage", &[]),
    }
}

// The line on words that no command takes, by the command that the first of them names.
fn usage_line_of(alloc: Global, verb: Option<Verb>) -> Result<Vec<u8>, AllocError>
    ensures { IfOk result (λ text. text.items ≡ usage_line_of verb) }
{
    match verb {
        Some(verb) => line(alloc, "Usage", &[word_of(verb)]),
        None => line(alloc, "Usage", &[]),
    }
}

// The word that names a command.
fn word_of(verb: Verb) -> &'static str
    ensures { line_of (codes "Usage") (result.now ∷ []) ≡ usage_line_of (Some verb) }
{
    match verb {
        Verb::Check => "check",
        Verb::Verify => "verify",
        Verb::Replay => "replay",
        Verb::Print => "print",
        Verb::Suggest => "suggest",
        Verb::Gen => "gen",
        Verb::Explain => "explain",
        Verb::Batch => "batch",
        Verb::Trim => "trim",
        Verb::About(About::Help) => "help",
        Verb::About(About::Version) => "version",
    }
}

// The command that a word names.
fn verb_of(word: &str) -> Option<Verb>
    ensures { result ≡ verb_of word.now }
{
    match word {
        "check" => Some(Verb::Check),
        "verify" => Some(Verb::Verify),
        "replay" => Some(Verb::Replay),
        "print" => Some(Verb::Print),
        "suggest" => Some(Verb::Suggest),
        "gen" => Some(Verb::Gen),
        "explain" => Some(Verb::Explain),
        "batch" => Some(Verb::Batch),
        "trim" => Some(Verb::Trim),
        "help" => Some(Verb::About(About::Help)),
        "version" => Some(Verb::About(About::Version)),
        _ => None,
    }
}

// What a command asks for by its words.
fn request_by<'a>(alloc: Global, verb: Verb, words: &'a [String]) -> Result<Request<'a>, WordsError>
    ensures ok { let given = map string_bytes words.entry.now in
        IfOk result (λ r. (word_faults verb given ≡ [])
        × (asked_by verb given ≡ Some (asked_in r))) }
    ensures usage { IsErrOf result WordsError.Usage →
        IsRefused (Some verb) (map string_bytes words.entry.now) }
    ensures within { IfOk result IsWithin }
{
    let matches = matches_of(alloc, verb, words)?;
    request_in(verb, &matches)
}

// What a command asks for by the texts that its words give, where it takes them.
fn request_in<'a>(verb: Verb, matches: &ArgMatches<'a>) -> Result<Request<'a>, WordsError>
    requires { HasRequired verb (first_value (found_of matches.now)) }
    ensures ok { (given : Words) → word_faults verb given ≡ [] →
        ((id : List ℕ) → first_value (found_of matches.now) id ≡ argument_text verb id given) →
        IfOk result (λ r. (word_faults verb given ≡ [])
        × (asked_by verb given ≡ Some (asked_in r))) }
    ensures usage { (given : Words) → word_faults verb given ≡ [] →
        ((id : List ℕ) → first_value (found_of matches.now) id ≡ argument_text verb id given) →
        IsErrOf result WordsError.Usage → IsRefused (Some verb) given }
    ensures within { IfOk result IsWithin }
{
    match verb {
        Verb::Check => check_request(matches),
        Verb::Verify => verify_request(matches),
        Verb::Replay => replay_request(matches),
        Verb::Print => print_request(matches),
        Verb::Suggest => suggest_request(matches),
        Verb::Gen => gen_request(matches),
        Verb::Explain => explain_request(matches),
        Verb::Batch => batch_request(matches),
        Verb::Trim => trim_request(matches),
        Verb::About(about) => Ok(Request::About(about)),
    }
}

// The matches of a command on words that it takes.
fn matches_of<'a>(
    alloc: Global,
    verb: Verb,
    words: &'a [String],
) -> Result<ArgMatches<'a>, WordsError>
    ensures taken { IfOk result (λ _. word_faults verb (map string_bytes words.entry.now) ≡ []) }
    ensures texts { IfOk result (λ m. (id : List ℕ) →
        first_value (found_of m) id ≡ argument_text verb id (map string_bytes words.entry.now)) }
    ensures required { IfOk result (λ m. HasRequired verb (first_value (found_of m))) }
    ensures usage { IsErrOf result WordsError.Usage →
        word_faults verb (map string_bytes words.entry.now) ≢ [] }
{
    let command = command_of(alloc, verb)?;
    match command.try_get_matches_from(words) {
        Ok(matches) => Ok(matches),
        Err(error) => Err(refusal_of(&error)),
    }
}

fn refusal_of(error: &Error) -> WordsError
    ensures { result ≡ WordsError.Usage → kind_of error.now ≢ ErrorKind.OutOfMemory }
{
    match error.kind() {
        ErrorKind::OutOfMemory => WordsError::Memory,
        _ => WordsError::Usage,
    }
}
