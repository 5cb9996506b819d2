// Why a command ends early.
ghost use Rattle.std.specs.Prelude.{◌≡◌};
ghost use Rattle.sm_answers.specs.declared.exit.Exit.TheVariants.{Memory};

use crate::status::Reply;
use std::alloc::AllocError;

/// Why there is nothing to go on with: the answer is known, or memory is wanting.
#[derive(Drop)]
pub enum Exit {
    Answer(Reply),
    Memory,
}

impl From<AllocError> for Exit {
    ghost from_gives = { λ _ e. e ≡ Memory };

    fn from(_error: AllocError) -> Exit {
        Exit::Memory
    }
}
