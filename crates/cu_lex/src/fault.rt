//! Why a text has no tokens.
ghost use Rattle.std.specs.Prelude.{◌≡◌};
ghost use Rattle.cu_lex.specs.declared.fault.LexFault.TheVariants.{NoMemory};

use cu_names::Place;
use std::alloc::{AllocError, AllocFailed};
use thiserror::Error;

/// Why a text has no tokens.
#[derive(Clone, Copy, Debug, PartialEq, Eq, Error)]
pub enum LexFault {
    /// The text has more than 16,777,216 bytes.
    #[error("the text has more than 16777216 bytes")]
    SourceTooBig,
    /// The offset of the first byte that no UTF-8 text has there, or the
    /// length of a text that ends inside a character.
    #[error("byte {0} is not UTF-8")]
    NotUtf8(usize),
    /// The place where no token begins.
    #[error("no token at {0:?}")]
    BadToken(Place),
    /// The start of an Int literal that is too large, or the backslash of an
    /// escape that stands for no character.
    #[error("literal out of range at {0:?}")]
    LiteralRange(Place),
    #[error("out of memory")]
    NoMemory,
}

impl From<AllocError> for LexFault {
    ghost from_gives = { λ _ fault. fault ≡ NoMemory };

    fn from(_error: AllocError) -> LexFault {
        LexFault::NoMemory
    }
}

impl<T: Drop> From<AllocFailed<T>> for LexFault {
    ghost from_gives = { λ _ fault. fault ≡ NoMemory };

    fn from(_failed: AllocFailed<T>) -> LexFault {
        LexFault::NoMemory
    }
}
