// The file of a proof that is written.
ghost use Rattle.std.specs.Prelude.{◌≡◌, ◌≢◌, ℕ, List, OnOk, OnErr, IsErrOf};
ghost use Rattle.sm_io.specs.Causes.{HasCause};
ghost use Rattle.sm_io.specs.Files.{emptied, longer};
ghost use Rattle.sm_answers.specs.ProofFile.{IsBegun};

use sm_io::{IoError, Shelf, append_all};

/// Empties the file, or makes it, and gives it these bytes. After an error it is as it was, or
/// empty, or has some of the first of them.
pub fn write_file<H: Shelf>(shelf: &mut H, name: &str, bytes: &[u8]) -> Result<(), IoError>
    ensures ok { OnOk result (H.file shelf.new name.now
        ≡ longer (emptied (H.file shelf.old name.now)) bytes.now) }
    ensures err { OnErr result
        (IsBegun bytes.now (H.file shelf.old name.now) (H.file shelf.new name.now)) }
    ensures others { (other : List ℕ) → other ≢ name.now →
        H.file shelf.new other ≡ H.file shelf.old other }

    ensures cause { HasCause (H.write_faults shelf.old) (H.write_faults shelf.new)
        (IsErrOf result IoError.Fault) }
    ensures reads { H.read_faults shelf.new ≡ H.read_faults shelf.old }
    ensures keeps { H.given shelf.new ≡ H.given shelf.old }
{
    shelf.start(name)?;
    append_all(shelf, name, bytes)
}
