// What each command asks for, by the texts that its words give.
ghost use Rattle.std.specs.Prelude.{◌≡◌, ◌⊎◌, true, Some, None, is_some, codes, IfOk, IsErrOf};
ghost use Rattle.clap.specs.Words.{first_value, found_of};
ghost use Rattle.sm_words.specs.Numbers.{cache_by, copy_by, effort_by, seed_by, size_by, turns_by, workers_by, HasBadNumber};
ghost use Rattle.sm_words.specs.Views.{asked_in, IsWithin};
ghost use Rattle.sm_words.specs.Words.{check_by, verify_by, replay_by, print_by, suggest_by, gen_by, batch_by, explain_by, trim_by};

use crate::options::{cache_by, copy_by, effort_in, seed_by, size_by, turns_by, workers_by};
use crate::words::{Request, WordsError};
use clap::ArgMatches;

/// What `check` asks for.
pub fn check_request<'a>(matches: &ArgMatches<'a>) -> Result<Request<'a>, WordsError>
    requires task { is_some (first_value (found_of matches.now) (codes "TASK")) ≡ true }
    requires proof { is_some (first_value (found_of matches.now) (codes "PROOF")) ≡ true }
    ensures ok { let given = first_value (found_of matches.now) in IfOk result (λ r.
        check_by (given (codes "TASK")) (given (codes "PROOF")) (effort_by given)
        ≡ Some (asked_in r)) }
    ensures usage { let given = first_value (found_of matches.now) in
        IsErrOf result WordsError.Usage → (given (codes "TASK") ≡ given (codes "PROOF"))
        ⊎ (effort_by given ≡ None) }
    ensures within { IfOk result IsWithin }
{
    let effort = effort_in(matches)?;
    let task = text_in(matches, "TASK");
    let proof = text_in(matches, "PROOF");
    if task == proof {
        return Err(WordsError::Usage);
    }
    Ok(Request::Check {
        task,
        proof,
        effort,
    })
}

/// What `gen` asks for.
pub fn gen_request<'a>(matches: &ArgMatches<'a>) -> Result<Request<'a>, WordsError>
    ensures ok { let given = first_value (found_of matches.now) in IfOk result (λ r.
        gen_by (given (codes "SEED")) (given (codes "SIZE")) (effort_by given)
        ≡ Some (asked_in r)) }
    ensures usage { let given = first_value (found_of matches.now) in
        IsErrOf result WordsError.Usage → (seed_by (given (codes "SEED")) ≡ None)
        ⊎ ((size_by (given (codes "SIZE")) ≡ None)
        ⊎ (effort_by given ≡ None)) }
    ensures within { IfOk result IsWithin }
{
    let seed = seed_by(matches.get_str("SEED"))?;
    let size = size_by(matches.get_str("SIZE"))?;
    let effort = effort_in(matches)?;
    Ok(Request::Gen { seed, size, effort })
}

/// What `verify` asks for.
pub fn verify_request<'a>(matches: &ArgMatches<'a>) -> Result<Request<'a>, WordsError>
    requires task { is_some (first_value (found_of matches.now) (codes "TASK")) ≡ true }
    requires proof { is_some (first_value (found_of matches.now) (codes "PROOF")) ≡ true }
    ensures ok { let given = first_value (found_of matches.now) in IfOk result (λ r.
        verify_by (given (codes "TASK")) (given (codes "PROOF")) (given (codes "workers"))
        ≡ Some (asked_in r)) }
    ensures usage { let given = first_value (found_of matches.now) in
        IsErrOf result WordsError.Usage → workers_by (given (codes "workers")) ≡ None }
    ensures within { IfOk result IsWithin }
{
    let workers = workers_by(matches.get_str("workers"))?;
    Ok(Request::Verify {
        task: text_in(matches, "TASK"),
        proof: text_in(matches, "PROOF"),
        workers,
    })
}

/// What `replay` asks for; its workers change nothing.
pub fn replay_request<'a>(matches: &ArgMatches<'a>) -> Result<Request<'a>, WordsError>
    requires task { is_some (first_value (found_of matches.now) (codes "TASK")) ≡ true }
    requires input { is_some (first_value (found_of matches.now) (codes "INPUT")) ≡ true }
    ensures ok { let given = first_value (found_of matches.now) in IfOk result (λ r.
        replay_by (given (codes "TASK")) (given (codes "INPUT"))
        (given (codes "turns")) (given (codes "workers")) ≡ Some (asked_in r)) }
    ensures usage { let given = first_value (found_of matches.now) in
        IsErrOf result WordsError.Usage →
        HasBadNumber (given (codes "turns")) (given (codes "workers")) }
    ensures within { IfOk result IsWithin }
{
    let turns = turns_by(matches.get_str("turns"))?;
    let _workers = workers_by(matches.get_str("workers"))?;
    Ok(Request::Replay {
        task: text_in(matches, "TASK"),
        input: text_in(matches, "INPUT"),
        turns,
    })
}

/// What `print` asks for.
pub fn print_request<'a>(matches: &ArgMatches<'a>) -> Result<Request<'a>, WordsError>
    requires { is_some (first_value (found_of matches.now) (codes "TASK")) ≡ true }
    ensures ok { let given = first_value (found_of matches.now) in IfOk result (λ r.
        print_by (given (codes "TASK")) (given (codes "copy")) ≡ Some (asked_in r)) }
    ensures usage { let given = first_value (found_of matches.now) in
        IsErrOf result WordsError.Usage → copy_by (given (codes "copy")) ≡ None }
    ensures within { IfOk result IsWithin }
{
    let copy = copy_by(matches.get_str("copy"))?;
    Ok(Request::Print {
        task: text_in(matches, "TASK"),
        copy,
    })
}

/// What `suggest` asks for.
pub fn suggest_request<'a>(matches: &ArgMatches<'a>) -> Result<Request<'a>, WordsError>
    requires { is_some (first_value (found_of matches.now) (codes "TASK")) ≡ true }
    ensures ok { let given = first_value (found_of matches.now) in IfOk result (λ r.
        suggest_by (given (codes "TASK")) (effort_by given) ≡ Some (asked_in r)) }
    ensures usage { let given = first_value (found_of matches.now) in
        IsErrOf result WordsError.Usage → effort_by given ≡ None }
    ensures within { IfOk result IsWithin }
{
    let effort = effort_in(matches)?;
    Ok(Request::Suggest {
        task: text_in(matches, "TASK"),
        effort,
    })
}

/// What `explain` asks for.
pub fn explain_request<'a>(matches: &ArgMatches<'a>) -> Result<Request<'a>, WordsError>
    requires { is_some (first_value (found_of matches.now) (codes "TASK")) ≡ true }
    ensures ok { let given = first_value (found_of matches.now) in IfOk result (λ r.
        explain_by (given (codes "TASK")) (given (codes "INPUT")) (given (codes "turns"))
        ≡ Some (asked_in r)) }
    ensures usage { let given = first_value (found_of matches.now) in
        IsErrOf result WordsError.Usage → turns_by (given (codes "turns")) ≡ None }
    ensures within { IfOk result IsWithin }
{
    let turns = turns_by(matches.get_str("turns"))?;
    Ok(Request::Explain {
        task: text_in(matches, "TASK"),
        input: matches.get_str("INPUT"),
        turns,
    })
}

/// What `batch` asks for.
pub fn batch_request<'a>(matches: &ArgMatches<'a>) -> Result<Request<'a>, WordsError>
    requires { is_some (first_value (found_of matches.now) (codes "LIST")) ≡ true }
    ensures ok { let given = first_value (found_of matches.now) in IfOk result (λ r.
        batch_by (given (codes "LIST")) (given (codes "cache")) (effort_by given)
        ≡ Some (asked_in r)) }
    ensures usage { let given = first_value (found_of matches.now) in
        IsErrOf result WordsError.Usage →
        (cache_by (given (codes "cache")) ≡ None) ⊎ (effort_by given ≡ None) }
    ensures within { IfOk result IsWithin }
{
    let cache = cache_by(matches.get_str("cache"))?;
    let effort = effort_in(matches)?;
    Ok(Request::Batch {
        list: text_in(matches, "LIST"),
        cache,
        effort,
    })
}

/// What `trim` asks for.
pub fn trim_request<'a>(matches: &ArgMatches<'a>) -> Result<Request<'a>, WordsError>
    requires task { is_some (first_value (found_of matches.now) (codes "TASK")) ≡ true }
    requires proof { is_some (first_value (found_of matches.now) (codes "PROOF")) ≡ true }
    requires out { is_some (first_value (found_of matches.now) (codes "OUT")) ≡ true }
    ensures ok { let given = first_value (found_of matches.now) in IfOk result (λ r.
        trim_by (given (codes "TASK")) (given (codes "PROOF")) (given (codes "OUT"))
        ≡ Some (asked_in r)) }
    ensures usage { let given = first_value (found_of matches.now) in
        IsErrOf result WordsError.Usage → (given (codes "TASK") ≡ given (codes "OUT"))
        ⊎ (given (codes "PROOF") ≡ given (codes "OUT")) }
    ensures within { IfOk result IsWithin }
{
    let task = text_in(matches, "TASK");
    let proof = text_in(matches, "PROOF");
    let out = text_in(matches, "OUT");
    if task == out {
        return Err(WordsError::Usage);
    }
    if proof == out {
        return Err(WordsError::Usage);
    }
    Ok(Request::Trim { task, proof, out })
}

// The text of a word that has to be there.
fn text_in<'a>(matches: &ArgMatches<'a>, id: &str) -> &'a str
    requires { is_some (first_value (found_of matches.now) id.now) ≡ true }
    ensures { first_value (found_of matches.now) id.now ≡ Some result.now }
{
    match matches.get_str(id) {
        Some(text) => text,
        None => unreachable!(),
    }
}
