// The line of a proof file that has no end yet.
ghost use Rattle.std.specs.Prelude.{◌≡◌, ◌++◌, ℕ, List, [], Decides, OnOk};
ghost use Rattle.sm_check.specs.LineEnds.{HasNoEnd, Keeps, ended_in};

use std::alloc::{AllocError, Global};

/// How many bytes a line may have.
pub(crate) const LONGEST: usize = 4096;

/// What is kept of a line that has no end yet: its bytes, or that they are too many for a line.
#[derive(Drop)]
pub(crate) struct Unfinished {
    pub(crate) bytes: Vec<u8>,
    pub(crate) is_too_long: bool,
    pub(crate) ghost no_end: { ended_in bytes.items ≡ [] },
}

impl Unfinished {
    /// Nothing.
    pub(crate) fn new(alloc: Global) -> Unfinished
        ensures { Keeps result.is_too_long result.bytes.items [] }
    {
        Unfinished {
            bytes: Vec::new(alloc),
            is_too_long: false,
        }
    }

    /// Whether it has no byte.
    pub(crate) fn is_empty(&self) -> bool
        ensures { (bytes : List ℕ) → Keeps self.now.is_too_long self.now.bytes.items bytes →
            Decides result (bytes ≡ []) }
    {
        !self.is_too_long && self.bytes.is_empty()
    }

    /// The bytes that are kept.
    pub(crate) fn line(&self) -> &[u8]
        ensures bytes { result.now ≡ self.now.bytes.items }
        ensures no_end { HasNoEnd result.now }
    {
        &self.bytes
    }

    /// It goes on by more bytes. Past 4,096 no more are kept.
    pub(crate) fn add(&mut self, more: &[u8]) -> Result<(), AllocError>
        requires { HasNoEnd more.now }
        ensures { (bytes : List ℕ) → Keeps self.old.is_too_long self.old.bytes.items bytes →
            OnOk result
            (Keeps self.new.is_too_long self.new.bytes.items (bytes ++ more.now)) }
    {
        if self.is_too_long {
            return Ok(());
        }
        if self.bytes.len() + more.len() > LONGEST {
            self.is_too_long = true;
            return Ok(());
        }
        self.bytes.extend_from_slice(more)
    }
}
