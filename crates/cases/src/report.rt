// Bytes that are put together.

use crate::fault::Fault;
use std::alloc::Global;

/// Bytes that are put together. Once memory is wanting they take no more.
#[derive(Drop)]
pub struct Report {
    bytes: Vec<u8>,
    is_whole: bool,
}

impl Report {
    /// Nothing so far.
    pub fn new(alloc: Global) -> Report {
        Report {
            bytes: Vec::new(alloc),
            is_whole: true,
        }
    }

    /// Adds bytes.
    pub fn put(&mut self, bytes: &[u8]) {
        if self.is_whole {
            self.is_whole = self.bytes.extend_from_slice(bytes).is_ok();
        }
    }

    /// Adds a line: a word, and what stands behind it.
    pub fn put_line(&mut self, word: &str, rest: &str) {
        self.put(word.as_bytes());
        self.put(rest.as_bytes());
        self.put(b"\n");
    }

    /// Adds a line: a word, and a number behind it.
    pub fn put_number(&mut self, alloc: Global, word: &str, number: u64) {
        match format!(in alloc; "{number}") {
            Ok(digits) => self.put_line(word, &digits),
            Err(_) => self.is_whole = false,
        }
    }

    /// The bytes, where memory sufficed for all.
    pub fn end(self) -> Result<Vec<u8>, Fault> {
        if self.is_whole {
            Ok(self.bytes)
        } else {
            Err(Fault::Memory)
        }
    }
}
