//! Why a run breaks off.
ghost use Rattle.std.specs.Prelude.{◌≡◌};
ghost use Rattle.cu_cmd.specs.Inside.Runs.{fault_of_print, fault_of_search, status_after};
ghost use Rattle.cu_cmd.specs.declared.fault.RunFault.TheVariants.{NoMemory};

use crate::status::Status;
use cu_flattext::PrintFault;
use cu_search::SearchFault;
use std::alloc::AllocError;

/// Why a run breaks off.
#[derive(Clone, Copy, PartialEq, Eq)]
pub(crate) enum RunFault {
    /// The library failed.
    Read,
    /// The output failed.
    Write,
    NoMemory,
}

impl From<AllocError> for RunFault {
    ghost from_gives = { λ _ fault. fault ≡ NoMemory };

    fn from(_error: AllocError) -> RunFault {
        RunFault::NoMemory
    }
}

impl From<SearchFault> for RunFault {
    ghost from_gives = { λ error fault. fault ≡ fault_of_search error };

    fn from(error: SearchFault) -> RunFault {
        match error {
            SearchFault::Write => RunFault::Write,
            SearchFault::NoMemory => RunFault::NoMemory,
        }
    }
}

impl From<PrintFault> for RunFault {
    ghost from_gives = { λ error fault. fault ≡ fault_of_print error };

    fn from(error: PrintFault) -> RunFault {
        match error {
            PrintFault::Write => RunFault::Write,
            PrintFault::NoMemory => RunFault::NoMemory,
        }
    }
}

/// The status of a run that came to this.
pub(crate) fn status_after(outcome: Result<Status, RunFault>) -> Status
    ensures { result ≡ status_after outcome }
{
    match outcome {
        Ok(status) => status,
        Err(RunFault::Read) => Status::ReadFault,
        Err(RunFault::Write) => Status::WriteFault,
        Err(RunFault::NoMemory) => Status::NoMemory,
    }
}
