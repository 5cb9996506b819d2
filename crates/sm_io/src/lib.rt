//! Files and standard output behind two traits, so that every fault's cause can be stated.
//!
//! - A `Shelf` is files by name, and a `Sink` takes bytes in order. A fault comes only where a
//!   count of faults rose in that call, or where the shelf tells that no file has the name. Without
//!   a fault a call leaves the counts as they were. Want of memory may come at any time.
//! - `read_all` gives all bytes of a file that the shelf tells, and never more than the limit. It
//!   says that a file is too long only where it is.
//! - `put_all` and `append_all` write all bytes. After an error they wrote a proper prefix.
//! - `MemShelf` and `MemSink` tell all that they hold. They fail at the calls that they were given,
//!   and otherwise only where no file has the name.
//! - Each read that succeeds is kept in `given`, for proofs alone: which file, from where, and which
//!   bytes. `read_all` reads a file in one pass from its start to its end, and gives what these
//!   reads gave, of a shelf that tells nothing too.
//! - `FileShelf` and `OutSink` are real files and standard output. They tell nothing, so that they
//!   read and write the bytes that they should is tested, and not proved. A file that is read piece
//!   after piece stays open, so that no two files are read as one.
//! - `read_all` makes no further read once more than the limit came. No contract counts the reads:
//!   a case shows it, over a shelf whose next call would fail.
//!
//! Read `specs/Files.antt` first, then `specs/Reads.antt`, `specs/Causes.antt` and
//! `specs/Sinks.antt`.
#![tactic(auto)]

mod calls;
mod error;
mod faults;
mod file_shelf;
mod mem_shelf;
mod mem_sink;
mod out_sink;
mod put;
mod read;
mod read_log;
mod shelf;
mod sink;

pub use error::{IoError, ReadError};
pub use file_shelf::FileShelf;
pub use mem_shelf::MemShelf;
pub use mem_sink::MemSink;
pub use out_sink::OutSink;
pub use put::{append_all, put_all};
pub use read::read_all;
pub use shelf::Shelf;
pub use sink::Sink;
