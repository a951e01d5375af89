//! What is wrong with the names of modules.
ghost use Rattle.std.specs.Prelude.{◌≡◌};
ghost use Rattle.cu_modules.specs.declared.scope_fault.ScopeFault.TheVariants.{NoMemory};

use cu_names::{NameId, Place};
use std::alloc::{AllocError, AllocFailed};
use thiserror::Error;

/// What is wrong with a name of a module or a goal, with the place and the text
/// of its token.
#[derive(Debug, Drop, Error)]
pub enum ScopeFault {
    /// An import or export list names what isn't there.
    #[error("not exported: the name at {}:{}", .0.line, .0.column)]
    NotExported(Place, NameId),
    /// The name means nothing, or a signature or a fixity has no declaration.
    #[error("unknown name at {}:{}", .0.line, .0.column)]
    UnknownName(Place, NameId),
    /// The name means two entities or more.
    #[error("ambiguous name at {}:{}", .0.line, .0.column)]
    Ambiguous(Place, NameId),
    /// The name is declared a second time in one scope.
    #[error("second declaration at {}:{}", .0.line, .0.column)]
    Duplicate(Place, NameId),
    #[error("out of memory")]
    NoMemory,
}

impl From<AllocError> for ScopeFault {
    ghost from_gives = { λ _ fault. fault ≡ NoMemory };

    fn from(_error: AllocError) -> ScopeFault {
        ScopeFault::NoMemory
    }
}

impl<T: Drop> From<AllocFailed<T>> for ScopeFault {
    ghost from_gives = { λ _ fault. fault ≡ NoMemory };

    fn from(_failed: AllocFailed<T>) -> ScopeFault {
        ScopeFault::NoMemory
    }
}
