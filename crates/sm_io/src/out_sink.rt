// Standard output as a sink.
ghost use Rattle.std.specs.Prelude.{◌≡◌, ◌<◌, ◌≤◌, None, IfOk, length};

use crate::error::IoError;
use crate::faults::count_fault;
use crate::sink::Sink;
use std::io;

/// Standard output. It tells nothing of the bytes that it took: which it writes is trusted.
#[derive(Drop)]
pub struct OutSink<'a, R: Print> {
    rt: &'a R,
    faults: u64,
}

impl<'a, R: Print> OutSink<'a, R> {
    /// Standard output, with no fault so far.
    pub fn new(rt: &'a R) -> OutSink<'a, R>
        ensures { ⟦<OutSink<'a, R> as Sink>⟧.faults result ≡ 0 }
    {
        OutSink { rt, faults: 0 }
    }
}

impl<R: Print> Sink for OutSink<'_, R> {
    ghost taken = { λ _. None };

    ghost faults = { λ sink. sink.faults };

    fn put(&mut self, bytes: &[u8]) -> Result<usize, IoError> {
        match write_to(self.rt, bytes) {
            Ok(count) => Ok(count),
            Err(error) => Err(count_fault(&error, &mut self.faults)),
        }
    }
}

fn write_to<R: Print>(rt: &R, bytes: &[u8]) -> io::Result<usize>
    ensures bound { IfOk result (λ n. n ≤ length bytes.now) }
    ensures some { 0 < length bytes.now → IfOk result (λ n. 0 < n) }
{
    let count = rt.write_some(bytes)?;
    if count == 0 && !bytes.is_empty() {
        return Err(io::Error::from(io::ErrorKind::WriteZero));
    }
    Ok(count)
}
