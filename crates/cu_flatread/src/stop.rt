//! Why reading breaks off.
ghost use Rattle.std.specs.Prelude.{◌≡◌};
ghost use Rattle.cu_flatread.specs.declared.stop.Stop.TheVariants.{NoMemory};

use std::alloc::{AllocError, AllocFailed};

/// Why reading breaks off.
#[derive(Clone, Copy)]
pub(crate) enum Stop {
    /// No text goes on where so many bytes are left.
    At(usize),
    /// Memory ran out.
    NoMemory,
}

impl From<AllocError> for Stop {
    ghost from_gives = { λ _ stop. stop ≡ NoMemory };

    fn from(_error: AllocError) -> Stop {
        Stop::NoMemory
    }
}

impl<T: Drop> From<AllocFailed<T>> for Stop {
    ghost from_gives = { λ _ stop. stop ≡ NoMemory };

    fn from(_failed: AllocFailed<T>) -> Stop {
        Stop::NoMemory
    }
}
