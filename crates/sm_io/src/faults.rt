// Errors of the system, which are counted as faults.
ghost use Rattle.std.specs.Prelude.{◌≡◌};
ghost use Rattle.sm_io.specs.Causes.{HasCause};

use crate::error::IoError;
use std::io;

// What an error of the system is to a caller. Any but want of memory is a fault, and is counted.
pub fn count_fault(error: &io::Error, faults: &mut u64) -> IoError
    ensures { HasCause faults.old faults.new (result ≡ IoError.Fault) }
{
    if error.kind() == io::ErrorKind::OutOfMemory {
        return IoError::Memory;
    }
    *faults = faults.saturating_add(1);
    IoError::Fault
}
