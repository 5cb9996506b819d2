// Numbers, flags and names of copies among the words.
ghost use Rattle.std.specs.Prelude.{◌≡◌, ◌<◌, ◌≤◌, Some, None, option_map, IfOk, IfErr};
ghost use Rattle.clap.specs.Words.{first_value, found_of};
ghost use Rattle.sm_words.specs.Numbers.{copy_by, copy_of_word, effort_by, is_given, seed_by, cache_by, seconds_by, size_by, steps_by, turns_by, workers_by};
ghost use Rattle.sm_words.specs.Views.{HasWorkers};

use crate::effort::Effort;
use crate::numbers::{number_or, spelled};
use crate::words::WordsError;
use clap::ArgMatches;
use sm_syntax::CopyName;

/// How much a search may do.
pub fn effort_in(matches: &ArgMatches<'_>) -> Result<Effort, WordsError>
    ensures ok { let given = first_value (found_of matches.now) in
        IfOk result (λ e. effort_by given ≡ Some e) }
    ensures usage { let given = first_value (found_of matches.now) in
        IfErr result (λ _. effort_by given ≡ None) }
    ensures workers { IfOk result HasWorkers }
{
    let steps = steps_by(matches.get_str("steps"))?;
    let turns = turns_by(matches.get_str("turns"))?;
    let workers = workers_by(matches.get_str("workers"))?;
    let seconds = seconds_by(matches.get_str("seconds"))?;
    let exact = is_given(matches.get_str("exact"));
    let deeper = is_given(matches.get_str("deeper"));
    let why = is_given(matches.get_str("why"));
    Ok(Effort {
        steps,
        turns,
        workers,
        seconds,
        exact,
        deeper,
        why,
    })
}

/// The seed of a task that is made up.
pub fn seed_by(text: Option<&str>) -> Result<u32, WordsError>
    ensures ok { IfOk result (λ n. seed_by (option_map (λ t. t.now) text.entry) ≡ Some n) }
    ensures usage { IfErr result (λ _. seed_by (option_map (λ t. t.now) text.entry) ≡ None) }
{
    match spelled(0, 2147483647, text) {
        Some(seed) => Ok(seed as u32),
        None => Err(WordsError::Usage),
    }
}

/// Its size.
pub fn size_by(text: Option<&str>) -> Result<u16, WordsError>
    ensures ok { IfOk result (λ n. size_by (option_map (λ t. t.now) text.entry) ≡ Some n) }
    ensures range { IfOk result (λ n. (1 ≤ n) × (n ≤ 190)) }
    ensures usage { IfErr result (λ _. size_by (option_map (λ t. t.now) text.entry) ≡ None) }
{
    match spelled(1, 190, text) {
        Some(size) => Ok(size as u16),
        None => Err(WordsError::Usage),
    }
}

// How many steps a walk may take.
fn steps_by(text: Option<&str>) -> Result<u64, WordsError>
    ensures ok { IfOk result (λ n. steps_by (option_map (λ t. t.now) text.entry) ≡ Some n) }
    ensures usage { IfErr result (λ _. steps_by (option_map (λ t. t.now) text.entry) ≡ None) }
{
    match number_or(100000, 1, 10000000, text) {
        Some(steps) => Ok(steps),
        None => Err(WordsError::Usage),
    }
}

/// How many turns a loop may take.
pub fn turns_by(text: Option<&str>) -> Result<u64, WordsError>
    ensures ok { IfOk result (λ n. turns_by (option_map (λ t. t.now) text.entry) ≡ Some n) }
    ensures usage { IfErr result (λ _. turns_by (option_map (λ t. t.now) text.entry) ≡ None) }
{
    match number_or(10000, 1, 1000000, text) {
        Some(turns) => Ok(turns),
        None => Err(WordsError::Usage),
    }
}

/// How many workers run jobs.
pub fn workers_by(text: Option<&str>) -> Result<u32, WordsError>
    ensures ok { IfOk result (λ n. workers_by (option_map (λ t. t.now) text.entry) ≡ Some n) }
    ensures range { IfOk result (λ n. (0 < n) × (n ≤ 64)) }
    ensures usage { IfErr result (λ _. workers_by (option_map (λ t. t.now) text.entry) ≡ None) }
{
    match number_or(1, 1, 64, text) {
        Some(workers) => Ok(workers as u32),
        None => Err(WordsError::Usage),
    }
}

// After how many seconds a search stops.
fn seconds_by(text: Option<&str>) -> Result<Option<u32>, WordsError>
    ensures ok { IfOk result (λ n. seconds_by (option_map (λ t. t.now) text.entry) ≡ Some n) }
    ensures usage { IfErr result (λ _. seconds_by (option_map (λ t. t.now) text.entry) ≡ None) }
{
    match text {
        Some(text) => match spelled(1, 1000000, Some(text)) {
            Some(seconds) => Ok(Some(seconds as u32)),
            None => Err(WordsError::Usage),
        },
        None => Ok(None),
    }
}

// Whether a flag is given, by the text that `clap` has for it.
fn is_given(text: Option<&str>) -> bool
    ensures { result ≡ is_given (option_map (λ t. t.now) text.entry) }
{
    match text {
        Some(text) => text == "true",
        None => false,
    }
}

/// Of how many tasks the accepting answers are kept.
pub fn cache_by(text: Option<&str>) -> Result<u32, WordsError>
    ensures ok { IfOk result (λ n. cache_by (option_map (λ t. t.now) text.entry) ≡ Some n) }
    ensures range { IfOk result (λ n. (0 < n) × (n ≤ 1000)) }
    ensures usage { IfErr result (λ _. cache_by (option_map (λ t. t.now) text.entry) ≡ None) }
{
    match number_or(64, 1, 1000, text) {
        Some(most) => Ok(most as u32),
        None => Err(WordsError::Usage),
    }
}

/// The copy whose program is printed, where the option names one.
pub fn copy_by(text: Option<&str>) -> Result<Option<CopyName>, WordsError>
    ensures ok { IfOk result (λ c. copy_by (option_map (λ t. t.now) text.entry) ≡ Some c) }
    ensures usage { IfErr result (λ _. copy_by (option_map (λ t. t.now) text.entry) ≡ None) }
{
    match text {
        Some(text) => match copy_of_word(text) {
            Some(copy) => Ok(Some(copy)),
            None => Err(WordsError::Usage),
        },
        None => Ok(None),
    }
}

// The copy that a word names.
fn copy_of_word(word: &str) -> Option<CopyName>
    ensures { result ≡ copy_of_word word.now }
{
    match word {
        "base" => Some(CopyName::O),
        "a" => Some(CopyName::A),
        "b" => Some(CopyName::B),
        "candidate" => Some(CopyName::M),
        _ => None,
    }
}
