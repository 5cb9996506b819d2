// What files are to a caller.
ghost use Rattle.std.specs.Prelude.{◌≡◌, ◌≢◌, ◌<◌, ◌≤◌, ◌⊎◌, ◌++◌, ℕ, List, [], ◌∷◌, length, take, IfOk, OnOk, OnErr, IsErr, IsErrOf};
ghost use Rattle.sm_io.specs.Files.{Known, absent, emptied, longer, WhereHeld, ReadsFrom};
ghost use Rattle.sm_io.specs.Causes.{HasCause, HasReadCause};
ghost use Rattle.sm_io.specs.Reads.{Read};

use crate::error::IoError;

/// Files by name, each a list of bytes. A shelf may leave untold what its files hold.
pub trait Shelf {
    // what is told of the file with a name
    ghost file: { Self → List ℕ → Known };

    // what its reads gave so far, in order, whether it tells of its files or not
    ghost given: { Self → List Read };

    // how often a read answered a fault of its own
    ghost read_faults: { Self → ℕ };

    // how often `start` or `append` answered one
    ghost write_faults: { Self → ℕ };

    /// Reads bytes from `place` on into the front of `buf`, and answers how many. It may read fewer
    /// than there is room for, and answers 0 only at the end. What it gave is kept in `given`.
    fn read_at(&mut self, name: &str, place: u64, buf: &mut [u8]) -> Result<usize, IoError>
        ensures bound { IfOk result (λ n. n ≤ length buf.new) }
        ensures bytes { WhereHeld (file self.old name.now)
            (λ bytes. IfOk result (λ n. ReadsFrom bytes place n buf.new)) }
        ensures absent { file self.old name.now ≡ absent → IsErr result }
        ensures same { (other : List ℕ) → file self.new other ≡ file self.old other }

        ensures cause { HasReadCause (file self.old name.now) (read_faults self.old)
            (read_faults self.new) (IsErrOf result IoError.Fault) }
        ensures writes { write_faults self.new ≡ write_faults self.old }

        ensures gives { IfOk result (λ n.
            given self.new ≡ given self.old ++ (name.now, place, take n buf.new) ∷ []) }
        ensures gives_none { IsErr result → given self.new ≡ given self.old };

    /// Makes the file empty, and makes it if there is none.
    fn start(&mut self, name: &str) -> Result<(), IoError>
        ensures ok { OnOk result (file self.new name.now ≡ emptied (file self.old name.now)) }
        ensures err { OnErr result ((file self.new name.now ≡ file self.old name.now)
            ⊎ (file self.new name.now ≡ emptied (file self.old name.now))) }
        ensures others { (other : List ℕ) → other ≢ name.now →
            file self.new other ≡ file self.old other }

        ensures cause { HasCause (write_faults self.old) (write_faults self.new)
            (IsErrOf result IoError.Fault) }
        ensures reads { read_faults self.new ≡ read_faults self.old }
        ensures keeps { given self.new ≡ given self.old };

    /// Adds the first of `bytes` to the file's end, and answers how many. It may add fewer than
    /// there are, but at least one of them.
    fn append(&mut self, name: &str, bytes: &[u8]) -> Result<usize, IoError>
        ensures bound { IfOk result (λ n. n ≤ length bytes.now) }
        ensures some { 0 < length bytes.now → IfOk result (λ n. 0 < n) }
        ensures ok { IfOk result (λ n.
            file self.new name.now ≡ longer (file self.old name.now) (take n bytes.now)) }
        ensures absent { file self.old name.now ≡ absent → IsErr result }
        ensures err { OnErr result (file self.new name.now ≡ file self.old name.now) }
        ensures others { (other : List ℕ) → other ≢ name.now →
            file self.new other ≡ file self.old other }

        ensures cause { HasReadCause (file self.old name.now) (write_faults self.old)
            (write_faults self.new) (IsErrOf result IoError.Fault) }
        ensures reads { read_faults self.new ≡ read_faults self.old }
        ensures keeps { given self.new ≡ given self.old };
}
