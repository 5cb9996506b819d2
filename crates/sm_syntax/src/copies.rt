// The four copies, and one of something for each.
ghost use Rattle.std.specs.Prelude.{◌≡◌};
ghost use Rattle.sm_syntax.specs.claim.ConflictFree.{copy_of};
ghost use Rattle.sm_syntax.specs.trees.Copies.{copy_named, letter_of, number_of, of_copy};

/// The four programs of a task: the base O, the variants A and B, and the candidate M.
#[derive(Clone, Copy, PartialEq, Eq)]
pub enum CopyName {
    O,
    A,
    B,
    M,
}

impl CopyName {
    /// The copy with a number: 0 for the base, 1 and 2 for the variants, and 3, or any greater one,
    /// for the candidate.
    pub fn of_number(number: u8) -> CopyName
        ensures { copy_named result ≡ copy_of number }
    {
        match number {
            0 => CopyName::O,
            1 => CopyName::A,
            2 => CopyName::B,
            _ => CopyName::M,
        }
    }

    /// The copy's number.
    pub fn number(self) -> u8
        ensures { result ≡ number_of (copy_named self) }
    {
        match self {
            CopyName::O => 0,
            CopyName::A => 1,
            CopyName::B => 2,
            CopyName::M => 3,
        }
    }

    /// The copy's letter.
    pub fn letter(self) -> &'static str
        ensures { result.now ≡ letter_of (copy_named self) }
    {
        match self {
            CopyName::O => "O",
            CopyName::A => "A",
            CopyName::B => "B",
            CopyName::M => "M",
        }
    }
}

/// One of something for each copy.
pub struct PerCopy<T> {
    pub base: T,
    pub variant_a: T,
    pub variant_b: T,
    pub candidate: T,
}

// One call ends a value, and not one for each field: proofs of what has it stay small.
impl<T: Drop> Drop for PerCopy<T> {
    fn drop(self) {
        let Self {
            base: _,
            variant_a: _,
            variant_b: _,
            candidate: _,
        } = self;
    }
}

impl<T> PerCopy<T> {
    /// That of a copy.
    pub fn get(&self, copy: CopyName) -> &T
        ensures { result.now ≡ of_copy self.now (copy_named copy) }
    {
        match copy {
            CopyName::O => &self.base,
            CopyName::A => &self.variant_a,
            CopyName::B => &self.variant_b,
            CopyName::M => &self.candidate,
        }
    }
}
