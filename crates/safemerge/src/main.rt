//! The program SafeMerge: it hands its words, the real files, the real output and a clock to `safemerge`
//! of the crate `sm_commands`, and ends with the status that this answers.
#![tactic(auto)]

mod watch;

use crate::watch::Watch;
use sm_commands::{Status, safemerge};
use sm_io::{FileShelf, OutSink};
use std::alloc::Global;
use std::process::ExitCode;
use std::rt::Env;
use std::{env, io};

/// The status where the words can't be had, for another cause than want of memory.
const NO_WORDS: u8 = 9;

fn main(rt: HostRuntime) -> ExitCode {
    let gate = Watch::new(&rt);
    let words = match own_words(&rt) {
        Ok(words) => words,
        Err(error) if error.kind() == io::ErrorKind::OutOfMemory => {
            return ExitCode::from(Status::Memory.number());
        }
        Err(_) => return ExitCode::from(NO_WORDS),
    };
    let mut shelf = FileShelf::new(&rt);
    let mut out = OutSink::new(&rt);
    ExitCode::from(safemerge(&rt, rt.alloc(), &gate, &words, &mut shelf, &mut out).number())
}

// The words that the program was given, without its name.
fn own_words<R: Env + Alloc<A = Global>>(rt: &R) -> io::Result<Vec<String>> {
    let mut words = env::args(rt)?;
    let _name = words.next();
    Ok(words.collect(rt.alloc())?)
}
