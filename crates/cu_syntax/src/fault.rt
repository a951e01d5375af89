//! Why tokens are no module or goal.
ghost use Rattle.std.specs.Prelude.{◌≡◌};
ghost use Rattle.cu_syntax.specs.declared.fault.ParseFault.TheVariants.{NoMemory};

use std::alloc::{AllocError, AllocFailed};
use thiserror::Error;

/// Why tokens are no module or goal. Lines count from 1, and an item's line is
/// that of its first token that layout didn't put in; where it has none, that
/// of the last such token before it, or 1.
#[derive(Clone, Copy, Debug, PartialEq, Eq, Error)]
pub enum ParseFault {
    /// The line of the first item, or the goal, that the grammar doesn't match.
    #[error("syntax error in the item at line {0}")]
    Syntax(u32),
    /// The line of the first item, or the goal, that has more than 4,096
    /// tokens. A string counts as one more for each of its characters.
    #[error("the item at line {0} has more than 4096 tokens")]
    TooLong(u32),
    #[error("out of memory")]
    NoMemory,
}

impl From<AllocError> for ParseFault {
    ghost from_gives = { λ _ fault. fault ≡ NoMemory };

    fn from(_error: AllocError) -> ParseFault {
        ParseFault::NoMemory
    }
}

impl<T: Drop> From<AllocFailed<T>> for ParseFault {
    ghost from_gives = { λ _ fault. fault ≡ NoMemory };

    fn from(_failed: AllocFailed<T>) -> ParseFault {
        ParseFault::NoMemory
    }
}
