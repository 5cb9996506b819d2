// A shelf of real files.
ghost use Rattle.std.specs.Prelude.{◌≡◌, ◌≤◌, ◌<◌, ℕ, [], IfOk, length};
ghost use Rattle.sm_io.specs.Files.{untold};

use crate::error::IoError;
use crate::faults::count_fault;
use crate::read_log::{Gave, ReadLog};
use crate::shelf::Shelf;
use std::fs::{OpenFile, OpenOptions};
use std::io::{Read, Seek, SeekFrom, Write};
use std::rt::Files;
use std::{fs, io};

/// The files of the system, by their paths. It tells nothing of them: which bytes it reads and
/// writes is trusted.
///
/// The file that was read last stays open, so that reads of one name, piece after piece, are of one
/// file, even if another takes the name meanwhile. A read at place 0 opens the name anew. A read at
/// any other place is of the kept file if that was opened by this name, and of one opened now if
/// not. The kept file is closed at its end (a read of no bytes), after an error, where another is
/// opened, and where its name is written to. A read that goes on where the last one ended seeks
/// nothing, so that pipes can be read; opening a FIFO waits until something opens it for writing.
///
/// The file that was started last stays open too, and `append` to its name goes on in it where the
/// last one ended, even if another file takes the name meanwhile. So a FIFO that is started, and
/// waits then until something opens it for reading, gets the whole text. It is closed where another
/// is started, where its name is read, and with the shelf. `append` to any other name opens that
/// name anew, and adds to the end of the file that is there.
///
/// Each `append` to the started file is one write, and what the file has behind that is cut off.
/// So where two shelves start one name and then append a text each, which the system takes at once,
/// the file is left with the text of one of them, or with a front of the longer text, as long as
/// the shorter one: that one was written, then the longer one, and then what stood behind was cut
/// off. Two equal texts leave that text. A text that the system takes in parts, as on a disk that
/// is full or past 2 GiB, may be mixed with the other.
#[derive(Drop)]
pub struct FileShelf<'a, R: Files + AllocGlobal> {
    rt: &'a R,
    kept: Option<KeptFile<R::File>>,
    started: Option<KeptFile<R::File>>,
    read_faults: u64,
    write_faults: u64,
    log: ReadLog,
}

// A file that is open, the name that it was opened by, and the place where it stands.
#[derive(Drop)]
struct KeptFile<F> {
    name: String,
    file: F,
    place: u64,
}

impl<'a, R: Files + AllocGlobal> FileShelf<'a, R> {
    /// The files of the system, none of them open, with no fault so far.
    pub fn new(rt: &'a R) -> FileShelf<'a, R>
        ensures read_faults { ⟦<FileShelf<'a, R> as Shelf>⟧.read_faults result ≡ 0 }
        ensures write_faults { ⟦<FileShelf<'a, R> as Shelf>⟧.write_faults result ≡ 0 }
        ensures given { ⟦<FileShelf<'a, R> as Shelf>⟧.given result ≡ [] }
    {
        FileShelf {
            rt,
            kept: None,
            started: None,
            read_faults: 0,
            write_faults: 0,
            log: ReadLog::new(),
        }
    }
}

impl<R: Files + AllocGlobal> Shelf for FileShelf<'_, R> {
    ghost file = { λ _ _. untold };

    ghost given = { λ shelf. shelf.log.reads };

    ghost read_faults = { λ shelf. shelf.read_faults };

    ghost write_faults = { λ shelf. shelf.write_faults };

    fn read_at(&mut self, name: &str, place: u64, buf: &mut [u8]) -> Result<usize, IoError> {
        close(&mut self.started, name);
        match read_from(self.rt, &mut self.kept, name, place, buf) {
            Ok(count) => {
                self.log = self.log.with(&Gave {
                    name,
                    place,
                    bytes: &buf[..count],
                });
                Ok(count)
            }
            Err(error) => Err(count_fault(&error, &mut self.read_faults)),
        }
    }

    fn start(&mut self, name: &str) -> Result<(), IoError> {
        close(&mut self.kept, name);
        self.started = None;
        match start_file(self.rt, name) {
            Ok(open) => {
                self.started = Some(open);
                Ok(())
            }
            Err(error) => Err(count_fault(&error, &mut self.write_faults)),
        }
    }

    fn append(&mut self, name: &str, bytes: &[u8]) -> Result<usize, IoError> {
        close(&mut self.kept, name);
        match append_to(self.rt, &mut self.started, name, bytes) {
            Ok(count) => Ok(count),
            Err(error) => Err(count_fault(&error, &mut self.write_faults)),
        }
    }
}

// Reads from the kept file, or from one opened now, and keeps it unless it's at its end.
fn read_from<R: Files + AllocGlobal>(
    rt: &R,
    kept: &mut Option<KeptFile<R::File>>,
    name: &str,
    place: u64,
    buf: &mut [u8],
) -> io::Result<usize>
    ensures { IfOk result (λ n. n ≤ length buf.new) }
{
    let mut open = match kept.take() {
        Some(open) if place > 0 && open.name.as_str() == name => open,
        _ => open_file(rt, name)?,
    };
    if open.place != place {
        open.file.seek(SeekFrom::Start(place))?;
    }
    let count = open.file.read(buf)?;
    if count > 0 {
        open.place = place.saturating_add(count as u64);
        *kept = Some(open);
    }
    Ok(count)
}

// Opens a file for reading, from its start on.
fn open_file<R: Files + AllocGlobal>(rt: &R, name: &str) -> io::Result<KeptFile<R::File>> {
    Ok(KeptFile {
        name: String::from_str(rt.alloc(), name)?,
        file: fs::open(rt, name)?,
        place: 0,
    })
}

// Makes the file empty, or makes it, and leaves it open for writing.
fn start_file<R: Files + AllocGlobal>(rt: &R, name: &str) -> io::Result<KeptFile<R::File>> {
    Ok(KeptFile {
        name: String::from_str(rt.alloc(), name)?,
        file: fs::create(rt, name)?,
        place: 0,
    })
}

// Closes the open file if it has the name.
fn close<F: Drop>(open: &mut Option<KeptFile<F>>, name: &str) {
    if let Some(file) = open
        && file.name.as_str() == name
    {
        *open = None;
    }
}

// Writes on in the started file if that has the name, and else to the end of the file that has it.
// An absent file is an error.
fn append_to<R: Files + AllocGlobal>(
    rt: &R,
    started: &mut Option<KeptFile<R::File>>,
    name: &str,
    bytes: &[u8],
) -> io::Result<usize>
    ensures bound { IfOk result (λ n. n ≤ length bytes.now) }
    ensures some { 0 < length bytes.now → IfOk result (λ n. 0 < n) }
{
    match started {
        Some(open) if open.name.as_str() == name => write_on(open, bytes),
        _ => {
            let mut file = OpenOptions::new().append(true).open(rt, name)?;
            write_some(&mut file, bytes)
        }
    }
}

// Writes from the file's place on, and cuts off what the file has behind that.
fn write_on<F: Write + OpenFile>(open: &mut KeptFile<F>, bytes: &[u8]) -> io::Result<usize>
    ensures bound { IfOk result (λ n. n ≤ length bytes.now) }
    ensures some { 0 < length bytes.now → IfOk result (λ n. 0 < n) }
{
    let count = write_some(&mut open.file, bytes)?;
    open.place = open.place.saturating_add(count as u64);
    if open.file.metadata()?.len() > open.place {
        open.file.set_len(open.place)?;
    }
    Ok(count)
}

// Writes some of the bytes where there are any; that none of them is taken is an error.
fn write_some<F: Write>(file: &mut F, bytes: &[u8]) -> io::Result<usize>
    ensures bound { IfOk result (λ n. n ≤ length bytes.now) }
    ensures some { 0 < length bytes.now → IfOk result (λ n. 0 < n) }
{
    let count = file.write(bytes)?;
    if count == 0 && !bytes.is_empty() {
        return Err(io::Error::from(io::ErrorKind::WriteZero));
    }
    Ok(count)
}
