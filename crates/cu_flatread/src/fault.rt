//! Why a text is not read.
ghost use Rattle.std.specs.Prelude.{◌≡◌};
ghost use Rattle.cu_flatread.specs.declared.fault.BadFlat.TheVariants.{NoMemory};

use std::alloc::{AllocError, AllocFailed};
use thiserror::Error;

/// Why a text is not read.
#[derive(Clone, Copy, Debug, PartialEq, Eq, Error)]
pub enum BadFlat {
    /// The offset of the first byte up to and with which no text of a module in
    /// FlatCurry begins, or the length of bytes that end before the text does.
    #[error("no module in FlatCurry goes on at byte {0}")]
    At(usize),
    #[error("out of memory")]
    NoMemory,
}

impl From<AllocError> for BadFlat {
    ghost from_gives = { λ _ fault. fault ≡ NoMemory };

    fn from(_error: AllocError) -> BadFlat {
        BadFlat::NoMemory
    }
}

impl<T: Drop> From<AllocFailed<T>> for BadFlat {
    ghost from_gives = { λ _ fault. fault ≡ NoMemory };

    fn from(_failed: AllocFailed<T>) -> BadFlat {
        BadFlat::NoMemory
    }
}
