//! What the words that the program is given ask for.
//!
//! - `read_words` gives what the words ask for, as `clap`'s own definitions of the commands and
//!   the rules for numbers and for names of copies have it. It answers `Usage` only where no command takes the words, and
//!   they then ask for nothing. What it gives has 1 to 64 workers, and a size from 1 to 190.
//! - `usage_line` is the line on words that no command takes, and `line` one of any words.
//! - `about_text` is what the program says of itself.
//!
//! It opens no file: these are named as the words name them. Read `specs/Words.antt` first, then
//! `specs/Numbers.antt`, `specs/Command.antt`, `specs/Lines.antt` and `specs/About.antt`; `specs/Views.antt` says what
//! a request stands for. `proofs/ExactExamples.antt` has a flag worked on words that are written out.
#![tactic(auto)]

mod about;
mod command;
mod effort;
mod lines;
mod numbers;
mod options;
mod requests;
mod words;

pub use about::{About, about_text};
pub use effort::Effort;
pub use lines::line;
pub use words::{Request, WordsError, read_words, usage_line};
