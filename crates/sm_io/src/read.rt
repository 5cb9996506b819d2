// A file that is read whole.
ghost use Rattle.std.specs.Prelude.{◌≡◌, ◌<◌, ◌≤◌, ◌⊎◌, ℕ, List, length, vec_len, IfOk, IsErr, IsErrOf};
ghost use Rattle.sm_io.specs.Files.{absent, WhereHeld};
ghost use Rattle.sm_io.specs.Causes.{HasReadCause};
ghost use Rattle.sm_io.specs.Reads.{ReadsOn, ReadsWhole};

use crate::error::ReadError;
use crate::shelf::Shelf;
use std::alloc::{AllocError, Global};

/// How many bytes a file is asked for at once.
const PIECE: usize = 65536;

/// Reads the whole file, which may have `limit` bytes. It reads until a read gives no bytes, or
/// until more than `limit` came, each time where the last read ended, and makes no other read. A
/// file that grows or shrinks meanwhile may be read in part.
pub fn read_all<H: Shelf>(
    alloc: Global,
    shelf: &mut H,
    name: &str,
    limit: u64,
) -> Result<Vec<u8>, ReadError>
    ensures bytes { WhereHeld (H.file shelf.old name.now)
        (λ bytes. IfOk result (λ read. read.items ≡ bytes)) }
    ensures within { IfOk result (λ read. vec_len read ≤ limit) }
    ensures too_long { IsErrOf result ReadError.TooLong →
        WhereHeld (H.file shelf.old name.now) (λ bytes. limit < length bytes) }
    ensures absent { H.file shelf.old name.now ≡ absent →
        IsErrOf result ReadError.Fault ⊎ IsErrOf result ReadError.Memory }
    ensures same { (other : List ℕ) → H.file shelf.new other ≡ H.file shelf.old other }

    ensures cause { HasReadCause (H.file shelf.old name.now) (H.read_faults shelf.old)
        (H.read_faults shelf.new) (IsErrOf result ReadError.Fault) }
    ensures writes { H.write_faults shelf.new ≡ H.write_faults shelf.old }

    ensures whole { IfOk result (λ read.
        ReadsWhole name.now (H.given shelf.old) (H.given shelf.new) read.items) }
    ensures part { IsErr result → (bytes : List ℕ)
        × ReadsOn name.now (H.given shelf.old) (H.given shelf.new) bytes }
    ensures over { IsErrOf result ReadError.TooLong → (bytes : List ℕ) × (limit < length bytes)
        × ReadsOn name.now (H.given shelf.old) (H.given shelf.new) bytes }
{
    let mut piece = blank_piece(alloc)?;
    read_by(alloc, shelf, name, limit, &mut piece)
}

// A function of its own, so that no proof computes a list of that many zeros.
fn blank_piece(alloc: Global) -> Result<Vec<u8>, AllocError>
    ensures { IfOk result (λ piece. 0 < vec_len piece) }
{
    vec![in alloc; 0; PIECE]
}

// Reads the whole file in pieces as long as the one lent.
fn read_by<H: Shelf>(
    alloc: Global,
    shelf: &mut H,
    name: &str,
    limit: u64,
    piece: &mut [u8],
) -> Result<Vec<u8>, ReadError>
    requires { 0 < length piece.old }
    ensures bytes { WhereHeld (H.file shelf.old name.now)
        (λ bytes. IfOk result (λ read. read.items ≡ bytes)) }
    ensures within { IfOk result (λ read. vec_len read ≤ limit) }
    ensures too_long { IsErrOf result ReadError.TooLong →
        WhereHeld (H.file shelf.old name.now) (λ bytes. limit < length bytes) }
    ensures absent { H.file shelf.old name.now ≡ absent →
        IsErrOf result ReadError.Fault ⊎ IsErrOf result ReadError.Memory }
    ensures same { (other : List ℕ) → H.file shelf.new other ≡ H.file shelf.old other }

    ensures cause { HasReadCause (H.file shelf.old name.now) (H.read_faults shelf.old)
        (H.read_faults shelf.new) (IsErrOf result ReadError.Fault) }
    ensures writes { H.write_faults shelf.new ≡ H.write_faults shelf.old }

    ensures whole { IfOk result (λ read.
        ReadsWhole name.now (H.given shelf.old) (H.given shelf.new) read.items) }
    ensures part { IsErr result → (bytes : List ℕ)
        × ReadsOn name.now (H.given shelf.old) (H.given shelf.new) bytes }
    ensures over { IsErrOf result ReadError.TooLong → (bytes : List ℕ) × (limit < length bytes)
        × ReadsOn name.now (H.given shelf.old) (H.given shelf.new) bytes }
{
    let mut bytes = Vec::new(alloc);
    loop {
        let place = bytes.len() as u64;
        let count = shelf.read_at(name, place, piece)?;
        if count == 0 {
            return Ok(bytes);
        }
        if count as u64 > limit - place {
            return Err(ReadError::TooLong);
        }
        bytes.extend_from_slice(&piece[..count])?;
    }
}
