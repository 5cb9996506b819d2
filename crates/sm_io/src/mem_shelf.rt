// A shelf of files in memory.
ghost use Rattle.std.specs.Prelude.{◌≡◌, ◌≢◌, ◌↔◌, ◌<◌, ◌≤◌, ◌+◌, ◌-◌, ◌^◌, ◌++◌, ◌⊎◌, ℕ, List, [], ◌∷◌, min, length, take, IfOk, OnOk, OnErr, IsErr, IsErrOf, IsOkUnless, option_copied};
ghost use Rattle.sm_io.specs.Files.{absent, holds, emptied, longer, known_of, WhereHeld, ReadsFrom};
ghost use Rattle.sm_io.specs.Causes.{HasCause, HasReadCause};

use crate::calls::Calls;
use crate::error::IoError;
use crate::read_log::{Gave, ReadLog};
use crate::shelf::Shelf;
use std::alloc::Global;
use std::collections::BTreeMap;

/// A shelf of files in memory, which tells all that they hold. Calls of `Shelf` are counted from 0,
/// and those whose numbers were given fail.
pub struct MemShelf {
    alloc: Global,
    files: BTreeMap<String, Vec<u8>>,
    calls: Calls,
    read_faults: u64,
    write_faults: u64,
    log: ReadLog,
}

// One call ends a value, and not one for each field: proofs of what has it stay small.
impl Drop for MemShelf {
    fn drop(self) {
        let Self {
            alloc: _,
            files: _,
            calls: _,
            read_faults: _,
            write_faults: _,
            log: _,
        } = self;
    }
}

impl MemShelf {
    ghost use Rattle.sm_io.specs.MemShelf.{file_in, failing_calls, calls_of, read_faults_of};
    ghost use Rattle.sm_io.specs.MemShelf.{write_faults_of, given_by, SameFiles, SameCounts};

    /// A shelf with no files, of which no call is to fail.
    pub fn new(alloc: Global) -> MemShelf
        ensures empty { (name : List ℕ) → file_in result name ≡ absent }
        ensures failing { failing_calls result ≡ [] }
        ensures calls { calls_of result ≡ 0 }
        ensures read_faults { read_faults_of result ≡ 0 }
        ensures write_faults { write_faults_of result ≡ 0 }
        ensures given { given_by result ≡ [] }
    {
        MemShelf {
            alloc,
            files: BTreeMap::new(alloc),
            calls: Calls::new(alloc),
            read_faults: 0,
            write_faults: 0,
            log: ReadLog::new(),
        }
    }

    /// Lets the file with this name hold these bytes, whether there was one or not.
    pub fn hold(&mut self, name: &str, bytes: &[u8]) -> Result<(), IoError>
        ensures ok { OnOk result (file_in self.new name.now ≡ holds bytes.now) }
        ensures others { (other : List ℕ) → other ≢ name.now →
            file_in self.new other ≡ file_in self.old other }
        ensures err { OnErr result (SameFiles self.old self.new) }
        ensures memory { IsOkUnless result IoError.Memory }

        ensures failing { failing_calls self.new ≡ failing_calls self.old }
        ensures counts { SameCounts self.old self.new }
        ensures keeps { given_by self.new ≡ given_by self.old }
    {
        let name = String::from_str(self.alloc, name)?;
        let bytes = Vec::from_slice(self.alloc, bytes)?;
        self.files.insert(name, bytes)?;
        Ok(())
    }

    /// Lets the call with this number fail. The first call of `Shelf` has number 0; `hold` and
    /// `fail_at` have none.
    pub fn fail_at(&mut self, call: u64) -> Result<(), IoError>
        ensures ok { OnOk result (failing_calls self.new ≡ failing_calls self.old ++ call ∷ []) }
        ensures err { OnErr result (failing_calls self.new ≡ failing_calls self.old) }
        ensures memory { IsOkUnless result IoError.Memory }

        ensures files { SameFiles self.old self.new }
        ensures counts { SameCounts self.old self.new }
        ensures keeps { given_by self.new ≡ given_by self.old }
    {
        self.calls.fail_at(call)
    }

    /// The bytes of the file with this name.
    pub fn bytes(&self, name: &str) -> Option<&[u8]>
        ensures { known_of (option_copied result) ≡ file_in self.now name.now }
    {
        match self.files.get(name) {
            Some(bytes) => Some(bytes.as_slice()),
            None => None,
        }
    }
}

// Copies what stands in `bytes` from `place` on to the front of `buf`, as much as there is room
// for, and answers how much.
fn copy_from(bytes: &[u8], place: u64, buf: &mut [u8]) -> usize
    ensures bound { result ≤ length buf.new }
    ensures read { ReadsFrom bytes.now place result buf.new }
{
    if place >= bytes.len() as u64 {
        return 0;
    }
    let rest = &bytes[place as usize..];
    let count = rest.len().min(buf.len());
    buf[..count].copy_from_slice(&rest[..count]);
    count
}

impl Shelf for MemShelf {
    ghost use Rattle.sm_io.specs.MemShelf.{file_in, failing_calls, calls_of, read_faults_of};
    ghost use Rattle.sm_io.specs.MemShelf.{write_faults_of, given_by, IsFailing, SameFiles};

    ghost file = { file_in };

    ghost given = { given_by };

    ghost read_faults = { read_faults_of };

    ghost write_faults = { write_faults_of };

    fn read_at(&mut self, name: &str, place: u64, buf: &mut [u8]) -> Result<usize, IoError>
        ensures bound { IfOk result (λ n. n ≤ length buf.new) }
        ensures bytes { WhereHeld (file_in self.old name.now)
            (λ bytes. IfOk result (λ n. ReadsFrom bytes place n buf.new)) }
        ensures absent { file_in self.old name.now ≡ absent → IsErr result }
        ensures same { (other : List ℕ) → file_in self.new other ≡ file_in self.old other }
        ensures cause { HasReadCause (file_in self.old name.now) (read_faults_of self.old)
            (read_faults_of self.new) (IsErrOf result IoError.Fault) }
        ensures writes { write_faults_of self.new ≡ write_faults_of self.old }
        ensures gives { IfOk result (λ n.
            given_by self.new ≡ given_by self.old ++ (name.now, place, take n buf.new) ∷ []) }
        ensures gives_none { IsErr result → given_by self.new ≡ given_by self.old }

        // Every error is a fault, and one comes exactly at the calls that were given and where no
        // file has the name.
        ensures fails { IsErrOf result IoError.Fault
            ↔ (IsFailing self.old ⊎ (file_in self.old name.now ≡ absent)) }
        ensures err { IsErr result → IsErrOf result IoError.Fault }
        ensures counted { calls_of self.new ≡ min (calls_of self.old + 1) (2 ^ 64 - 1) }
        ensures failing { failing_calls self.new ≡ failing_calls self.old }
    {
        if self.calls.next_fails() {
            self.read_faults = self.read_faults.saturating_add(1);
            return Err(IoError::Fault);
        }
        let Some(bytes) = self.bytes(name) else {
            return Err(IoError::Fault);
        };
        let count = copy_from(bytes, place, buf);
        self.log = self.log.with(&Gave {
            name,
            place,
            bytes: &buf[..count],
        });
        Ok(count)
    }

    fn start(&mut self, name: &str) -> Result<(), IoError>
        ensures ok { OnOk result (file_in self.new name.now ≡ emptied (file_in self.old name.now)) }
        ensures err { OnErr result ((file_in self.new name.now ≡ file_in self.old name.now)
            ⊎ (file_in self.new name.now ≡ emptied (file_in self.old name.now))) }
        ensures others { (other : List ℕ) → other ≢ name.now →
            file_in self.new other ≡ file_in self.old other }
        ensures cause { HasCause (write_faults_of self.old) (write_faults_of self.new)
            (IsErrOf result IoError.Fault) }
        ensures reads { read_faults_of self.new ≡ read_faults_of self.old }
        ensures keeps { given_by self.new ≡ given_by self.old }

        // A fault comes exactly at the calls that were given, and an error changes no file.
        ensures fails { IsErrOf result IoError.Fault ↔ IsFailing self.old }
        ensures unchanged { OnErr result (SameFiles self.old self.new) }
        ensures counted { calls_of self.new ≡ min (calls_of self.old + 1) (2 ^ 64 - 1) }
        ensures failing { failing_calls self.new ≡ failing_calls self.old }
    {
        if self.calls.next_fails() {
            self.write_faults = self.write_faults.saturating_add(1);
            return Err(IoError::Fault);
        }
        self.hold(name, &[])
    }

    fn append(&mut self, name: &str, bytes: &[u8]) -> Result<usize, IoError>
        ensures bound { IfOk result (λ n. n ≤ length bytes.now) }
        ensures some { 0 < length bytes.now → IfOk result (λ n. 0 < n) }
        ensures ok { IfOk result (λ n.
            file_in self.new name.now ≡ longer (file_in self.old name.now) (take n bytes.now)) }
        ensures absent { file_in self.old name.now ≡ absent → IsErr result }
        ensures err { OnErr result (file_in self.new name.now ≡ file_in self.old name.now) }
        ensures others { (other : List ℕ) → other ≢ name.now →
            file_in self.new other ≡ file_in self.old other }
        ensures cause { HasReadCause (file_in self.old name.now) (write_faults_of self.old)
            (write_faults_of self.new) (IsErrOf result IoError.Fault) }
        ensures reads { read_faults_of self.new ≡ read_faults_of self.old }
        ensures keeps { given_by self.new ≡ given_by self.old }

        // A fault comes exactly at the calls that were given and where no file has the name.
        ensures fails { IsErrOf result IoError.Fault
            ↔ (IsFailing self.old ⊎ (file_in self.old name.now ≡ absent)) }
        ensures counted { calls_of self.new ≡ min (calls_of self.old + 1) (2 ^ 64 - 1) }
        ensures failing { failing_calls self.new ≡ failing_calls self.old }
    {
        if self.calls.next_fails() {
            self.write_faults = self.write_faults.saturating_add(1);
            return Err(IoError::Fault);
        }
        let Some(held) = self.files.get_mut(name) else {
            return Err(IoError::Fault);
        };
        held.extend_from_slice(bytes)?;
        Ok(bytes.len())
    }
}
