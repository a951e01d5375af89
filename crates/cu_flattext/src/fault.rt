//! Why printing breaks off.
ghost use Rattle.std.specs.Prelude.{◌≡◌};

use std::alloc::AllocError;
use thiserror::Error;

/// Why printing broke off.
#[derive(Debug, Drop, Error)]
pub enum PrintFault {
    /// The output failed.
    #[error("the output failed")]
    Write,
    /// Memory ran out.
    #[error("out of memory")]
    NoMemory,
}

impl From<AllocError> for PrintFault {
    ghost use Rattle.cu_flattext.specs.declared.fault.PrintFault.TheVariants.{NoMemory};

    ghost from_gives = { λ _ fault. fault ≡ NoMemory };

    fn from(_error: AllocError) -> PrintFault {
        PrintFault::NoMemory
    }
}
