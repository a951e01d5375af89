//! Why bytes aren't read.
ghost use Rattle.std.specs.Prelude.{◌≡◌};
ghost use Rattle.cu_prooftext.specs.declared.fault.Fault.TheVariants.{NoMemory};

use std::alloc::{AllocError, AllocFailed};

/// Why the text of a proof, or a file, isn't read.
#[derive(Clone, Copy, Debug, Drop, PartialEq, Eq)]
pub enum ProofFault {
    /// The bytes are no text of a proof, or no file: the offset of the first
    /// byte up to and with which none begins, or the number of the bytes where
    /// they end unfinished.
    BadProof(usize),
    /// An allocation failure.
    NoMemory,
}

/// Why a part of a text isn't read.
#[derive(Clone, Copy, Debug, Drop, PartialEq, Eq)]
pub(crate) enum Fault {
    /// How many bytes are left where the fault is, the byte at fault among
    /// them; 0 where the bytes end unfinished.
    Left(usize),
    /// An allocation failure.
    NoMemory,
}

impl From<AllocError> for Fault {
    ghost from_gives = { λ _ e. e ≡ NoMemory };

    fn from(_error: AllocError) -> Fault {
        Fault::NoMemory
    }
}

impl<T: Drop> From<AllocFailed<T>> for Fault {
    ghost from_gives = { λ _ e. e ≡ NoMemory };

    fn from(_error: AllocFailed<T>) -> Fault {
        Fault::NoMemory
    }
}
