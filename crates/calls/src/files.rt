// Real files and a pipe.
use crate::printed::Printed;
use crate::refusal::{Refusal, told};
use crate::word::{natural, put_text, two};
use sm_io::{FileShelf, Shelf, append_all, read_all};
use std::alloc::Global;
use std::fmt::Display;
use std::io::{PipeReader, Write};
use std::os::fd::AsRawFd;
use std::rt::Files;
use std::{fs, io};

// The greatest size of a piece.
const MOST_BYTES: u64 = 4096;

// How many pieces are read of a pipe.
const MOST_PIECES: u64 = 1000;

/// Prints what a command on files answers.
pub fn file_answer<R: Files + AllocGlobal>(
    rt: &R,
    shelf: &mut FileShelf<'_, R>,
    text: &str,
    out: &mut Printed,
) -> Result<(), Refusal> {
    let (word, text) = two(text)?;
    match word {
        "whole" => put_whole(rt.alloc(), shelf, text, out),
        "read" => put_part(rt.alloc(), shelf, text, out),
        "pipe" => put_pipe(rt, shelf, text, out),
        "start" => put_done(out, shelf.start(text)),
        "remove" => put_done(out, fs::remove_file(rt, text)),
        _ => {
            let (name, text) = two(text)?;
            change(rt, shelf, word, name, text, out)
        }
    }
}

// Makes, changes or renames a file, by its name and a text.
fn change<R: Files + AllocGlobal>(
    rt: &R,
    shelf: &mut FileShelf<'_, R>,
    word: &str,
    name: &str,
    text: &str,
    out: &mut Printed,
) -> Result<(), Refusal> {
    match word {
        "append" => put_done(out, append_all(shelf, name, text.as_bytes())),
        "write" => put_done(out, fs::write(rt, name, text)),
        "rename" => put_done(out, fs::rename(rt, name, text)),
        _ => Err(Refusal::Bad),
    }
}

// Prints that something is done, or why it isn't.
fn put_done<E: Display + Drop>(out: &mut Printed, tried: Result<(), E>) -> Result<(), Refusal> {
    match tried {
        Ok(()) => {
            out.put("done");
            Ok(())
        }
        Err(error) => Err(told(out, error)),
    }
}

// Prints the whole of a file that has at most so many bytes.
fn put_whole<H: Shelf>(
    alloc: Global,
    shelf: &mut H,
    text: &str,
    out: &mut Printed,
) -> Result<(), Refusal> {
    let (limit, name) = two(text)?;
    match read_all(alloc, shelf, name, natural(limit)?) {
        Ok(bytes) => put_text(out, &bytes),
        Err(error) => Err(told(out, error)),
    }
}

// Prints a part of a file: its name, a place and a size.
fn put_part<H: Shelf>(
    alloc: Global,
    shelf: &mut H,
    text: &str,
    out: &mut Printed,
) -> Result<(), Refusal> {
    let (name, numbers) = two(text)?;
    let (place, size) = two(numbers)?;
    put_piece(alloc, shelf, name, natural(place)?, natural(size)?, out)?;
    Ok(())
}

// Prints how much of a piece was read, and what the piece holds then; answers how much it was.
fn put_piece<H: Shelf>(
    alloc: Global,
    shelf: &mut H,
    name: &str,
    place: u64,
    size: u64,
    out: &mut Printed,
) -> Result<usize, Refusal> {
    if size > MOST_BYTES {
        return Err(Refusal::Bad);
    }
    let mut piece = vec![in alloc; b'-'; size as usize]?;
    match shelf.read_at(name, place, &mut piece) {
        Ok(count) => {
            put_read(out, count, &piece)?;
            Ok(count)
        }
        Err(error) => Err(told(out, error)),
    }
}

// Prints how much of a piece was read, and what the piece holds.
fn put_read(out: &mut Printed, count: usize, piece: &[u8]) -> Result<(), Refusal> {
    write!(out, "{count} [");
    put_text(out, piece)?;
    out.put("]");
    Ok(())
}

// Prints what is read of a pipe that holds a text, in pieces of a size.
fn put_pipe<R: Files + AllocGlobal>(
    rt: &R,
    shelf: &mut FileShelf<'_, R>,
    text: &str,
    out: &mut Printed,
) -> Result<(), Refusal> {
    let (size, bytes) = two(text)?;
    let size = natural(size)?;
    match filled_pipe(rt, bytes) {
        Ok(reader) => {
            let name = format!(in rt.alloc(); "/dev/fd/{}", reader.as_raw_fd())?;
            put_pieces(rt.alloc(), shelf, &name, size, out)
        }
        Err(error) => Err(told(out, error)),
    }
}

// A pipe that holds a text, and ends with it.
fn filled_pipe<R: Files>(rt: &R, text: &str) -> io::Result<PipeReader> {
    let (reader, mut writer) = io::pipe(rt)?;
    writer.write_all(text.as_bytes())?;
    Ok(reader)
}

// Prints a file piece by piece, to the first that is empty.
fn put_pieces<H: Shelf>(
    alloc: Global,
    shelf: &mut H,
    name: &str,
    size: u64,
    out: &mut Printed,
) -> Result<(), Refusal> {
    let mut place = 0u64;
    for _ in 0..MOST_PIECES {
        let count = put_piece(alloc, shelf, name, place, size, out)?;
        if count == 0 {
            break;
        }
        out.put(", ");
        place = place.saturating_add(count as u64);
    }
    Ok(())
}
