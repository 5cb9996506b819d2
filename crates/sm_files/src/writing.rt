// What becomes of an answer once its proof was to be written.
ghost use Rattle.std.specs.Prelude.{◌≡◌, ◌≢◌, ◌⊎◌, List, ℕ, codes, IfOk, OnErr};
ghost use Rattle.sm_io.specs.Causes.{HasCause};
ghost use Rattle.sm_io.specs.Files.{emptied, longer};
ghost use Rattle.sm_answers.specs.ProofFile.{IsBegun};
ghost use Rattle.sm_answers.specs.Status.{Says};

use sm_answers::{Reply, Status, write_file};
use sm_io::{IoError, Shelf};
use sm_words::line;
use std::alloc::{AllocError, Global};

/// The answer to a task that is accepted, once its proof was to be written to a file: that answer, or
/// that the file couldn't be written whole. `AllocError` where the shelf says that memory is wanting.
pub fn write_proof<H: Shelf>(
    alloc: Global,
    shelf: &mut H,
    reply: Reply,
    name: &str,
    text: &[u8],
) -> Result<Reply, AllocError>
    ensures answers { IfOk result (λ r.
        (Says reply.status reply.text.items r.status r.text.items
        × (H.file shelf.new name.now ≡ longer (emptied (H.file shelf.old name.now)) text.now))
        ⊎ (Says Status.WriteFault (codes "WriteFault\n") r.status r.text.items
        × IsBegun text.now (H.file shelf.old name.now) (H.file shelf.new name.now))) }
    ensures begun { OnErr result
        (IsBegun text.now (H.file shelf.old name.now) (H.file shelf.new name.now)) }
    ensures others { (other : List ℕ) → other ≢ name.now →
        H.file shelf.new other ≡ H.file shelf.old other }
    ensures writes { reply.status ≢ Status.WriteFault → IfOk result (λ r.
        HasCause (H.write_faults shelf.old) (H.write_faults shelf.new)
        (r.status ≡ Status.WriteFault)) }
    ensures quiet { OnErr result (H.write_faults shelf.new ≡ H.write_faults shelf.old) }
    ensures reads { H.read_faults shelf.new ≡ H.read_faults shelf.old }
    ensures keeps { H.given shelf.new ≡ H.given shelf.old }
{
    let failed = line(alloc, "WriteFault", &[])?;
    match write_file(shelf, name, text) {
        Ok(()) => Ok(reply),
        Err(IoError::Fault) => Ok(Reply {
            status: Status::WriteFault,
            text: failed,
        }),
        Err(IoError::Memory) => Err(AllocError),
    }
}
