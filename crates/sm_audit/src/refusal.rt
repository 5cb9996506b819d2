// Why a plan with certificates isn't found to be writable.
ghost use Rattle.std.specs.Prelude.{◌≡◌};

use sm_cert::CertFault;
use sm_expand::PlanFault;
use std::alloc::{AllocError, AllocFailed};

/// Why a plan with certificates isn't found to be writable.
#[derive(Clone, Copy)]
pub(crate) enum Refusal {
    /// Something of it doesn't fit.
    Unfit,
    /// Want of memory.
    Memory,
}

impl From<AllocError> for Refusal {
    fn from(_e: AllocError) -> Refusal {
        Refusal::Memory
    }
}

impl<T: Drop> From<AllocFailed<T>> for Refusal {
    fn from(_e: AllocFailed<T>) -> Refusal {
        Refusal::Memory
    }
}

impl From<PlanFault> for Refusal {
    fn from(e: PlanFault) -> Refusal {
        match e {
            PlanFault::Wrong { .. } => Refusal::Unfit,
            PlanFault::Deep => Refusal::Unfit,
            PlanFault::Memory => Refusal::Memory,
        }
    }
}

impl From<CertFault> for Refusal {
    fn from(e: CertFault) -> Refusal {
        match e {
            CertFault::Wrong { .. } => Refusal::Unfit,
            CertFault::Deep => Refusal::Unfit,
            CertFault::Memory => Refusal::Memory,
        }
    }
}
