//! Cases as data: runs the top call on each case of the files that its words name, over files and
//! output in memory, and prints what came.
//!
//! - A file is a JSON array of cases. A case has a `name`, the `words` of the program, and the
//!   `files` that it finds, by their names.
//! - `shelf` and `sink` are the numbers of the calls that fail, from 0.
//! - `then` is a second run with words of its own, over the same files. With a `mark` it comes
//!   where the first answer has that text, and what follows the text is the file `i`.
//! - `after` names the files that are printed afterwards.
//! - `alike` names those of which is printed, with each other choice, whether they hold what they
//!   hold with the first.
//! - `meet` is `trials`, `obligations` or `certificates`, and asks whether two of these ran at once.
//! - `seconds` is how many of them were over when the program began, and it takes none.
//!
//! A word and a file's content is a part or an array of parts. A part is a text, `{"times": n,
//! "text": ".."}`, `{"hex": ".."}` for bytes that are no text, or `{"each": [..]}`, of which one
//! text is chosen. The case runs once for each choice, and what is chosen first changes fastest.
#![tactic(auto)]

mod case;
mod content;
mod fault;
mod meeting;
mod report;

use crate::fault::Fault;
use serde_json::Value;
use sm_io::{OutSink, put_all};
use std::alloc::Global;
use std::{env, fs};

fn main(rt: HostRuntime) -> Result<(), Fault> {
    let mut out = OutSink::new(&rt);
    let mut names = env::args(&rt).or(Err(Fault::System))?;
    let _program = names.next();
    for name in names {
        let text = fs::read_to_string(&rt, &name).or(Err(Fault::System))?;
        let cases = cases_of(rt.alloc(), &text)?;
        for case in &cases {
            put_all(&mut out, &case::report(&rt, rt.alloc(), case)?)?;
        }
    }
    Ok(())
}

// The cases of a file.
fn cases_of(alloc: Global, text: &str) -> Result<Vec<Value>, Fault> {
    match Value::from_str(alloc, text) {
        Ok(Value::Array(cases)) => Ok(cases),
        _ => Err(Fault::Form("a file of cases is an array")),
    }
}
