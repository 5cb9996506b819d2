// What the reads of a shelf gave. It stands in proofs alone, and takes no memory.
ghost use Rattle.std.specs.Prelude.{◌≡◌, List, [], ◌∷◌, ◌++◌};
ghost use Rattle.std.specs.Borrow.{ftrue};
ghost use Rattle.sm_io.specs.Reads.{Read};

use std::marker::Model;

#[derive(Drop)]
pub struct ReadLog {
    pub ghost reads: { List Read },
}

impl Model for ReadLog {
    // It owns nothing.
    ghost also_owns = { λ _. ftrue };
}

// A read: the name of its file, the place from which it was asked for, and what it gave.
#[derive(Clone, Copy)]
pub struct Gave<'a> {
    pub name: &'a str,
    pub place: u64,
    pub bytes: &'a [u8],
}

impl ReadLog {
    ghost use Rattle.sm_io.specs.Logged.{read_of};

    pub fn new() -> ReadLog
        ensures { result.reads ≡ [] }
    {
        ReadLog {}
    }

    // The log with one more read.
    pub fn with(&self, _read: &Gave<'_>) -> ReadLog
        ensures { result.reads ≡ self.now.reads ++ read_of _read.now ∷ [] }
    {
        ReadLog {}
    }
}
