//! Why a text has no layout.
ghost use Rattle.std.specs.Prelude.{◌≡◌};
ghost use Rattle.cu_layout.specs.declared.fault.TooDeep.TheVariants.{NoMemory};

use cu_names::Place;
use std::alloc::{AllocError, AllocFailed};
use thiserror::Error;

/// More than 256 blocks, brackets and keywords stand open at once.
#[derive(Clone, Copy, Debug, PartialEq, Eq, Error)]
pub enum TooDeep {
    /// The token that opens the 257th, or before which a block opens as the
    /// 257th.
    #[error("too much stands open at {0:?}")]
    At(Place),
    #[error("out of memory")]
    NoMemory,
}

impl From<AllocError> for TooDeep {
    ghost from_gives = { λ _ fault. fault ≡ NoMemory };

    fn from(_error: AllocError) -> TooDeep {
        TooDeep::NoMemory
    }
}

impl<T: Drop> From<AllocFailed<T>> for TooDeep {
    ghost from_gives = { λ _ fault. fault ≡ NoMemory };

    fn from(_failed: AllocFailed<T>) -> TooDeep {
        TooDeep::NoMemory
    }
}
