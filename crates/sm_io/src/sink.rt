// What takes output.
ghost use Rattle.std.specs.Prelude.{◌≡◌, ◌<◌, ◌≤◌, ℕ, List, Option, length, take, IfOk, OnErr, IsErrOf};
ghost use Rattle.sm_io.specs.Causes.{HasCause};
ghost use Rattle.sm_io.specs.Sinks.{Adds};

use crate::error::IoError;

/// What takes bytes in order. A sink may leave untold which bytes it took.
pub trait Sink {
    // the bytes that it took, where it tells them
    ghost taken: { Self → Option (List ℕ) };

    // how often it answered a fault
    ghost faults: { Self → ℕ };

    /// Takes the first of `bytes`, and answers how many. It may take fewer than there are, but at
    /// least one of them.
    fn put(&mut self, bytes: &[u8]) -> Result<usize, IoError>
        ensures bound { IfOk result (λ n. n ≤ length bytes.now) }
        ensures some { 0 < length bytes.now → IfOk result (λ n. 0 < n) }
        ensures ok { IfOk result (λ n. Adds (taken self.old) (taken self.new) (take n bytes.now)) }
        ensures err { OnErr result (taken self.new ≡ taken self.old) }

        ensures cause { HasCause (faults self.old) (faults self.new)
            (IsErrOf result IoError.Fault) };
}
