// A sink in memory.
ghost use Rattle.std.specs.Prelude.{◌≡◌, ◌↔◌, ◌<◌, ◌≤◌, ◌+◌, ◌-◌, ◌^◌, ◌++◌, [], ◌∷◌, Some, min, length, take, IfOk, IfErr, OnOk, OnErr, IsErrOf, IsOkUnless};
ghost use Rattle.sm_io.specs.Causes.{HasCause};
ghost use Rattle.sm_io.specs.Sinks.{Adds};

use crate::calls::Calls;
use crate::error::IoError;
use crate::sink::Sink;
use std::alloc::Global;

/// A sink that keeps all bytes in memory, and tells them. Calls of `put` are counted from 0, and
/// those whose numbers were given fail.
#[derive(Drop)]
pub struct MemSink {
    bytes: Vec<u8>,
    calls: Calls,
    faults: u64,
}

impl MemSink {
    ghost use Rattle.sm_io.specs.MemSink.{taken_by, failing_puts, puts_of, faults_of};

    /// A sink that took nothing, and of which no call is to fail.
    pub fn new(alloc: Global) -> MemSink
        ensures taken { taken_by result ≡ Some [] }
        ensures failing { failing_puts result ≡ [] }
        ensures calls { puts_of result ≡ 0 }
        ensures faults { faults_of result ≡ 0 }
    {
        MemSink {
            bytes: Vec::new(alloc),
            calls: Calls::new(alloc),
            faults: 0,
        }
    }

    /// Lets the call of `put` with this number fail. The first has number 0.
    pub fn fail_at(&mut self, call: u64) -> Result<(), IoError>
        ensures ok { OnOk result (failing_puts self.new ≡ failing_puts self.old ++ call ∷ []) }
        ensures err { OnErr result (failing_puts self.new ≡ failing_puts self.old) }
        ensures memory { IsOkUnless result IoError.Memory }

        ensures taken { taken_by self.new ≡ taken_by self.old }
        ensures calls { puts_of self.new ≡ puts_of self.old }
        ensures faults { faults_of self.new ≡ faults_of self.old }
    {
        self.calls.fail_at(call)
    }

    /// All bytes that it took.
    pub fn bytes(&self) -> &[u8]
        ensures { Some result.now ≡ taken_by self.now }
    {
        self.bytes.as_slice()
    }
}

impl Sink for MemSink {
    ghost use Rattle.sm_io.specs.MemSink.{taken_by, failing_puts, puts_of, faults_of, IsFailingPut};

    ghost taken = { taken_by };

    ghost faults = { faults_of };

    fn put(&mut self, bytes: &[u8]) -> Result<usize, IoError>
        ensures bound { IfOk result (λ n. n ≤ length bytes.now) }
        ensures some { 0 < length bytes.now → IfOk result (λ n. 0 < n) }
        ensures ok { IfOk result (λ n.
            Adds (taken_by self.old) (taken_by self.new) (take n bytes.now)) }
        ensures err { OnErr result (taken_by self.new ≡ taken_by self.old) }
        ensures cause { HasCause (faults_of self.old) (faults_of self.new)
            (IsErrOf result IoError.Fault) }

        // A fault comes exactly at the calls that were given.
        ensures fails { IsErrOf result IoError.Fault ↔ IsFailingPut self.old }
        ensures counted { puts_of self.new ≡ min (puts_of self.old + 1) (2 ^ 64 - 1) }
        ensures failing { failing_puts self.new ≡ failing_puts self.old }
    {
        if self.calls.next_fails() {
            self.faults = self.faults.saturating_add(1);
            return Err(IoError::Fault);
        }
        self.bytes.extend_from_slice(bytes)?;
        Ok(bytes.len())
    }
}
