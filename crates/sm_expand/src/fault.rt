// Why a plan has no obligations.
ghost use Rattle.std.specs.Prelude.{◌≡◌};
ghost use Rattle.sm_expand.specs.declared.fault.PlanFault.TheVariants.{Memory};

use std::alloc::{AllocError, AllocFailed};
use thiserror::Error;

/// Why a plan has no obligations. Nodes are numbered in preorder from 0.
#[derive(Clone, Copy, Debug, PartialEq, Eq, Error)]
pub enum PlanFault {
    /// The first node whose rule fails, and the number of the rule: 1 to 5 for `Step`, `Abs`,
    /// `Fork`, `Loop` and `Block`, 6 for `Dead` and 7 for `End`.
    #[error("node {node} breaks rule {rule}")]
    Wrong { node: u64, rule: u8 },
    /// More than 1,000 branching nodes stand above a node.
    #[error("more than 1000 branching nodes stand above a node")]
    Deep,
    #[error("out of memory")]
    Memory,
}

impl From<AllocError> for PlanFault {
    ghost from_gives = { λ _ e. e ≡ Memory };

    fn from(_e: AllocError) -> PlanFault {
        PlanFault::Memory
    }
}

impl<T: Drop> From<AllocFailed<T>> for PlanFault {
    ghost from_gives = { λ _ e. e ≡ Memory };

    fn from(_e: AllocFailed<T>) -> PlanFault {
        PlanFault::Memory
    }
}
