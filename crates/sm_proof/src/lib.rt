//! Proof files: their lines, and when a file passes for a task.
//!
//! - A file that passes for a task whose names stand as they are declared makes the task free of
//!   conflicts, whoever wrote it.
//! - Where a file passes, no proper front of it does.
//! - Each line has one text, and no other bytes are read as it.
//! - `line_from` reads a line: Ok, BadLine and BadNumber come exactly where the table of lines says
//!   so, and want of memory alone is free. An Ok line is within its fields.
//! - `line_with` does the same where lines `exact` may stand or may not: version 3 alone has them.
//!   `may_stand` tells it of a line that was read.
//! - `read_line` does the same as `line_from` to what stands before the first line feed; Truncated
//!   comes exactly where there is none.
//!
//! Read `specs/Lines.antt` first, then `specs/Spelling.antt`, `specs/Reading.antt`,
//! `specs/Versions.antt`, `specs/Passing.antt`, `specs/Verdicts.antt` and `specs/Laws.antt`.
//! `specs/Cases.antt` has verdicts to check by hand.
#![tactic(auto)]

mod error;
mod fields;
mod find;
mod heads;
mod kind;
mod laws;
mod line;
mod lines;
mod number;
mod read;
mod spelling_laws;
mod split;
mod versions;
mod word;

pub use error::LineError;
pub use heads::line_head;
pub use kind::{FormKind, TermKind};
pub use laws::{cases_come_out, pass_is_free, prefixes_fail};
pub use line::{FormLine, Line, NodeLine, TermLine};
pub use read::{line_from, line_with, read_line};
pub use spelling_laws::{exact_begins, read_is_spelled, read_refuses, spelled_reads_back};
pub use versions::may_stand;
pub use word::{Head, Word};
