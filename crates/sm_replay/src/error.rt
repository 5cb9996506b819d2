// Why an input isn't read, and why the programs of a task have no ends.
ghost use Rattle.std.specs.Prelude.{◌≡◌};
ghost use Rattle.sm_replay.specs.declared.error.InputError.TheVariants as input;
ghost use Rattle.sm_replay.specs.declared.error.ReplayError.TheVariants as replay;

use sm_num::Op;
use sm_syntax::Name;
use std::alloc::{AllocError, AllocFailed};
use thiserror::Error;

/// Why bytes are no input.
#[derive(Clone, Copy, Debug, PartialEq, Eq, Error)]
pub enum InputError {
    #[error("the input can't be read as JSON")]
    BadJson,
    #[error("the input is no object")]
    NotObject,
    #[error("a key is no declared name")]
    UnknownKey,
    /// A number that is no whole number of 128 bits, or an array that is no object.
    #[error("a value of the name with number {} is none of its sort", name.0)]
    BadValue { name: Name },
    /// An index that is no whole number of 128 bits.
    #[error("an index of the name with number {} is no number", name.0)]
    BadIndex { name: Name },
    #[error("out of memory")]
    Memory,
}

impl From<AllocError> for InputError {
    ghost from_gives = { λ _ e. e ≡ input.Memory };

    fn from(_e: AllocError) -> InputError {
        InputError::Memory
    }
}

/// Why the programs of a task have no ends that can be judged. Copies are numbered from 0 for the
/// base to 3 for the candidate.
#[derive(Clone, Copy, Debug, PartialEq, Eq, Error)]
pub enum ReplayError {
    /// A loop of the copy whose guard holds after the greatest number of turns.
    #[error("a loop of copy {copy} takes too many turns")]
    OutOfTurns { copy: u8 },
    /// The operation of the copy, with its operands, whose exact result leaves 128 bits.
    #[error("in copy {copy} {op:?} of {a} and {b} leaves 128 bits")]
    Beyond { copy: u8, op: Op, a: i128, b: i128 },
    /// The operation of the assumption, with its operands, whose exact result leaves 128 bits.
    #[error("in the assumption {op:?} of {a} and {b} leaves 128 bits")]
    BeyondAssumed { op: Op, a: i128, b: i128 },
    #[error("out of memory")]
    Memory,
}

impl From<AllocError> for ReplayError {
    ghost from_gives = { λ _ e. e ≡ replay.Memory };

    fn from(_e: AllocError) -> ReplayError {
        ReplayError::Memory
    }
}
