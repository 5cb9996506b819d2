// All of some bytes, put into a sink or behind a file.
ghost use Rattle.std.specs.Prelude.{◌≡◌, ◌≢◌, ◌<◌, ℕ, List, length, take, OnOk, OnErr, IsErr, IsErrOf};
ghost use Rattle.sm_io.specs.Files.{absent, longer};
ghost use Rattle.sm_io.specs.Causes.{HasCause, HasReadCause};
ghost use Rattle.sm_io.specs.Sinks.{Adds};

use crate::error::IoError;
use crate::shelf::Shelf;
use crate::sink::Sink;

/// Puts all bytes. After an error the sink took fewer than all of them.
pub fn put_all<K: Sink>(out: &mut K, bytes: &[u8]) -> Result<(), IoError>
    ensures ok { OnOk result (Adds (K.taken out.old) (K.taken out.new) bytes.now) }
    ensures err { OnErr result ((n : ℕ) × (n < length bytes.now)
        × Adds (K.taken out.old) (K.taken out.new) (take n bytes.now)) }

    ensures cause { HasCause (K.faults out.old) (K.faults out.new) (IsErrOf result IoError.Fault) }
{
    let mut done = 0;
    while done < bytes.len() {
        done += out.put(&bytes[done..])?;
    }
    Ok(())
}

/// Adds all bytes to the file's end. After an error it added fewer than all of them.
pub fn append_all<H: Shelf>(shelf: &mut H, name: &str, bytes: &[u8]) -> Result<(), IoError>
    ensures ok { OnOk result
        (H.file shelf.new name.now ≡ longer (H.file shelf.old name.now) bytes.now) }
    ensures err { OnErr result ((n : ℕ) × (n < length bytes.now)
        × (H.file shelf.new name.now ≡ longer (H.file shelf.old name.now) (take n bytes.now))) }
    ensures absent { H.file shelf.old name.now ≡ absent → 0 < length bytes.now → IsErr result }
    ensures others { (other : List ℕ) → other ≢ name.now →
        H.file shelf.new other ≡ H.file shelf.old other }

    ensures cause { HasReadCause (H.file shelf.old name.now) (H.write_faults shelf.old)
        (H.write_faults shelf.new) (IsErrOf result IoError.Fault) }
    ensures reads { H.read_faults shelf.new ≡ H.read_faults shelf.old }
    ensures keeps { H.given shelf.new ≡ H.given shelf.old }
{
    let mut done = 0;
    while done < bytes.len() {
        done += shelf.append(name, &bytes[done..])?;
    }
    Ok(())
}
