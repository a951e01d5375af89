//! Why a search breaks off.
ghost use Rattle.std.specs.Prelude.{◌≡◌};

use std::alloc::AllocError;
use thiserror::Error;

/// Why a search broke off.
#[derive(Debug, Drop, Error)]
pub enum SearchFault {
    /// The output failed.
    #[error("the output failed")]
    Write,
    /// Memory ran out.
    #[error("out of memory")]
    NoMemory,
}

impl From<AllocError> for SearchFault {
    ghost use Rattle.cu_search.specs.declared.fault.SearchFault.TheVariants.{NoMemory};

    ghost from_gives = { λ _ fault. fault ≡ NoMemory };

    fn from(_error: AllocError) -> SearchFault {
        SearchFault::NoMemory
    }
}
