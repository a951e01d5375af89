//! Why a stage ends early, and why nothing is compiled.
ghost use Rattle.std.specs.Prelude.{◌≡◌};
ghost use Rattle.cu_front.specs.declared.fault.StageFault.TheVariants.{NoMemory};

use crate::refusal::Refusal;
use std::alloc::AllocError;

/// Why a stage ends early: a text or a program is refused, or there is no
/// memory left.
#[derive(Drop)]
pub(crate) enum StageFault {
    Refused(Refusal),
    NoMemory,
}

impl From<AllocError> for StageFault {
    ghost from_gives = { λ _ fault. fault ≡ NoMemory };

    fn from(_error: AllocError) -> StageFault {
        StageFault::NoMemory
    }
}

/// Why modules and a goal aren't compiled.
#[derive(Debug, Drop)]
pub enum CompileFault {
    Refused(Refusal),
    /// The library failed, and its count of faults rose.
    Fetch,
    NoMemory,
}
