// Lines by their bytes.
ghost use Rattle.std.specs.Prelude.{◌≡◌, ◌+◌, ◌<◌, ◌++◌, [], ◌∷◌, length, take, Decides, IfOk, IfSome, None};
ghost use Rattle.sm_proof.specs.Verdicts.{lines_in};
ghost use Rattle.sm_check.specs.LineEnds.{HasNoEnd, ended_in};

use memchr::memchr;
use std::alloc::{AllocError, Global};

/// Lines that aren't read yet, each with its line feed.
#[derive(Drop)]
pub(crate) struct RawLines {
    pub(crate) bytes: Vec<u8>,
    /// How many there are.
    pub(crate) count: u64,
    ghost ended: { (lines_in bytes.items).rest ≡ [] },
    ghost counted: { count ≡ length (ended_in bytes.items) },
}

impl RawLines {
    /// None.
    pub(crate) fn new(alloc: Global) -> RawLines
        ensures { result.bytes.items ≡ [] }
    {
        RawLines {
            bytes: Vec::new(alloc),
            count: 0,
        }
    }

    /// Whether there is none.
    pub(crate) fn is_empty(&self) -> bool
        ensures { Decides result (self.now.bytes.items ≡ []) }
    {
        self.bytes.is_empty()
    }

    /// These lines, and one behind them.
    pub(crate) fn with_line(self, line: &[u8]) -> Result<RawLines, AllocError>
        requires { HasNoEnd line.now }
        ensures { IfOk result (λ lines.
            ended_in lines.bytes.items ≡ ended_in self.bytes.items ++ line.now ∷ []) }
    {
        let mut bytes = self.bytes;
        bytes.extend_from_slice(line)?;
        bytes.push(b'\n')?;
        let count = self.count + 1;
        Ok(RawLines { bytes, count })
    }

    /// These lines, and so many behind them.
    pub(crate) fn with_run(self, run: &[u8], more: u64) -> Result<RawLines, AllocError>
        requires ended { (lines_in run.now).rest ≡ [] }
        requires counted { more ≡ length (ended_in run.now) }
        ensures { IfOk result (λ lines.
            ended_in lines.bytes.items ≡ ended_in self.bytes.items ++ ended_in run.now) }
    {
        let mut bytes = self.bytes;
        bytes.extend_from_slice(run)?;
        let count = self.count + more;
        Ok(RawLines { bytes, count })
    }
}

/// The first line of bytes that has an end, and what is behind that.
pub(crate) fn first_line(bytes: &[u8]) -> Option<(&[u8], &[u8])>
    ensures some { IfSome result (λ r. (ended_in bytes.now ≡ r.0.now ∷ ended_in r.1.now)
        × (length r.1.now < length bytes.now)) }
    ensures none { result ≡ None → ended_in bytes.now ≡ [] }
{
    match line_end(bytes) {
        Some(end) => Some((&bytes[..end], &bytes[end + 1..])),
        None => None,
    }
}

/// How many bytes stand before the first line end.
pub(crate) fn line_end(bytes: &[u8]) -> Option<usize>
    ensures some { IfSome result (λ n. (n < length bytes.now) × HasNoEnd (take n bytes.now)
        × (take (n + 1) bytes.now ≡ take n bytes.now ++ 10 ∷ [])) }
    ensures none { result ≡ None → HasNoEnd bytes.now }
{
    memchr(b'\n', bytes)
}
