// One case, and what comes of it.

use crate::content::bytes_of;
use crate::fault::Fault;
use crate::meeting::Meeting;
use crate::report::Report;
use serde_json::Value;
use sm_commands::safemerge;
use sm_io::{MemShelf, MemSink};
use std::alloc::Global;
use std::thread::Threads;

/// How many choices of a case's texts are tried.
const MOST_CHOICES: u64 = 1000;

/// The case's name, and what comes of each choice of its texts.
pub fn report<R: Threads + Sync>(rt: &R, alloc: Global, case: &Value) -> Result<Vec<u8>, Fault> {
    let mut report = Report::new(alloc);
    report.put_line("# ", text_of(case, "name")?);
    let mut first = MemShelf::new(alloc);
    if run_choice(rt, alloc, case, 0, &mut first, &mut report)? {
        for number in 1..MOST_CHOICES {
            let mut shelf = MemShelf::new(alloc);
            if !run_choice(rt, alloc, case, number, &mut shelf, &mut report)? {
                break;
            }
            add_alike(case, &first, &shelf, &mut report)?;
        }
    }
    report.end()
}

// Runs the case with a choice of its texts, over an empty shelf, and adds what comes. Answers
// whether there is such a choice.
fn run_choice<R: Threads + Sync>(
    rt: &R,
    alloc: Global,
    case: &Value,
    number: u64,
    shelf: &mut MemShelf,
    report: &mut Report,
) -> Result<bool, Fault> {
    let mut choice = number;
    let words = words_of(alloc, case, &mut choice)?;
    fill(alloc, case, &mut choice, shelf)?;
    if choice > 0 {
        return Ok(false);
    }
    if number > 0 {
        report.put_number(alloc, "choice ", number);
    }
    let out = run(rt, alloc, case, &words, shelf, report)?;
    if let Some(then) = case.get("then") {
        run_then(rt, alloc, then, out.bytes(), shelf, report)?;
    }
    add_files(case, shelf, report)?;
    Ok(true)
}

// Runs the top call, and adds its status and what it printed, and whether jobs met.
fn run<R: Threads + Sync>(
    rt: &R,
    alloc: Global,
    case: &Value,
    words: &[String],
    shelf: &mut MemShelf,
    report: &mut Report,
) -> Result<MemSink, Fault> {
    let meeting = Meeting::of(case)?;
    let mut out = MemSink::new(alloc);
    if let Some(call) = case.get("sink").and_then(Value::as_u64) {
        out.fail_at(call)?;
    }
    let status = safemerge(rt, alloc, &meeting, words, shelf, &mut out).number();
    report.put_number(alloc, "status ", status as u64);
    report.put(out.bytes());
    report.put(meeting.report().as_bytes());
    Ok(out)
}

// The second run, over the same files. Where it has a mark, it runs where the first printed that
// text, and its input is what stands behind it.
fn run_then<R: Threads + Sync>(
    rt: &R,
    alloc: Global,
    then: &Value,
    printed: &[u8],
    shelf: &mut MemShelf,
    report: &mut Report,
) -> Result<(), Fault> {
    if let Some(mark) = then.get("mark").and_then(Value::as_str) {
        let Some(input) = behind(printed, mark) else {
            return Ok(());
        };
        shelf.hold("i", input.as_bytes())?;
    }
    let words = words_of(alloc, then, &mut 0)?;
    run(rt, alloc, then, &words, shelf, report)?;
    Ok(())
}

// What stands behind the first mark in what was printed.
fn behind<'a>(printed: &'a [u8], mark: &str) -> Option<&'a str> {
    let text = std::str::from_utf8(printed).ok()?;
    let (_front, input) = text.split_once(mark)?;
    Some(input)
}

// The text that stands under a key.
fn text_of<'a>(case: &'a Value, key: &str) -> Result<&'a str, Fault> {
    let text = case.get(key).and_then(Value::as_str);
    text.ok_or(Fault::Form("a text is missing"))
}

// The names that stand under a key, or none where it has no list.
fn names_of<'a>(case: &'a Value, key: &str) -> &'a [Value] {
    match case.get(key).and_then(Value::as_array) {
        Some(names) => names.as_slice(),
        None => &[],
    }
}

// The name of a file.
fn name_of(name: &Value) -> Result<&str, Fault> {
    name.as_str().ok_or(Fault::Form("a file has no name"))
}

// The words of a run.
fn words_of(alloc: Global, case: &Value, choice: &mut u64) -> Result<Vec<String>, Fault> {
    let list = case.get("words").and_then(Value::as_array);
    let mut words = Vec::new(alloc);
    for word in list.ok_or(Fault::Form("words are missing"))? {
        words.push(word_of(alloc, word, choice)?)?;
    }
    Ok(words)
}

// One word of a run.
fn word_of(alloc: Global, word: &Value, choice: &mut u64) -> Result<String, Fault> {
    match String::from_utf8(bytes_of(alloc, word, choice)?) {
        Ok(word) => Ok(word),
        Err(_) => Err(Fault::Form("a word is no text")),
    }
}

// Puts the case's files on a shelf, of which one call may fail.
fn fill(alloc: Global, case: &Value, choice: &mut u64, shelf: &mut MemShelf) -> Result<(), Fault> {
    if let Some(files) = case.get("files").and_then(Value::as_object) {
        for (name, content) in files.iter() {
            let bytes = bytes_of(alloc, content, choice)?;
            shelf.hold(name, &bytes)?;
        }
    }
    if let Some(call) = case.get("shelf").and_then(Value::as_u64) {
        shelf.fail_at(call)?;
    }
    Ok(())
}

// Adds the files that the case asks for.
fn add_files(case: &Value, shelf: &MemShelf, report: &mut Report) -> Result<(), Fault> {
    for name in names_of(case, "after") {
        let name = name_of(name)?;
        report.put_line("file ", name);
        if let Some(bytes) = shelf.bytes(name) {
            report.put(bytes);
            report.put(b"\n");
        }
    }
    Ok(())
}

// Adds whether files that the case asks for hold what they hold with the first choice.
fn add_alike(
    case: &Value,
    first: &MemShelf,
    shelf: &MemShelf,
    report: &mut Report,
) -> Result<(), Fault> {
    for name in names_of(case, "alike") {
        let name = name_of(name)?;
        let is_alike = shelf.bytes(name) == first.bytes(name);
        report.put_line(if is_alike { "alike " } else { "unlike " }, name);
    }
    Ok(())
}
