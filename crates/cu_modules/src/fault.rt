//! Why the modules of a root aren't read.
ghost use Rattle.std.specs.Prelude.{◌≡◌};
ghost use Rattle.cu_modules.specs.declared.fault.OrderFault.TheVariants.{NoMemory};

use cu_names::{NameId, Place};
use std::alloc::{AllocError, AllocFailed};
use thiserror::Error;

/// Why the modules that a root reaches aren't read. A module is told by the name
/// by which it was looked for.
#[derive(Debug, Drop, Error)]
pub enum OrderFault {
    /// The library holds no module of this name.
    #[error("there is no such module")]
    MissingModule(NameId),
    /// The module's text has more than 16,777,216 bytes.
    #[error("the text has more than 16777216 bytes")]
    SourceTooBig(NameId),
    /// The offset of the first byte of a module's text that no UTF-8 text has
    /// there, or the length of a text that ends inside a character.
    #[error("byte {1} is not UTF-8")]
    NotUtf8(NameId, usize),
    /// The place where no token begins.
    #[error("no token at {}:{}", .0.line, .0.column)]
    BadToken(Place),
    /// The start of a literal that is too large.
    #[error("literal out of range at {}:{}", .0.line, .0.column)]
    LiteralRange(Place),
    /// The token at which blocks nest too deep.
    #[error("blocks nest too deep at {}:{}", .0.line, .0.column)]
    TooDeep(Place),
    /// The line of the first item that has more than 4,096 tokens.
    #[error("the item at line {1} has more than 4096 tokens")]
    TooLong(NameId, u32),
    /// The line of the first item that the grammar doesn't match.
    #[error("syntax error in the item at line {1}")]
    Syntax(NameId, u32),
    /// The header of this module has another name.
    #[error("the header has another name")]
    HeaderName(NameId),
    /// The modules of a cycle of imports, each once, from the one that was met
    /// again.
    #[error("imports form a cycle")]
    ImportCycle(Vec<NameId>),
    /// The module that would be the 1,001st to be fetched.
    #[error("more than 1000 modules")]
    TooManyModules(NameId),
    /// The library failed, and its count of faults rose.
    #[error("the library failed")]
    Fetch,
    #[error("out of memory")]
    NoMemory,
}

impl From<AllocError> for OrderFault {
    ghost from_gives = { λ _ fault. fault ≡ NoMemory };

    fn from(_error: AllocError) -> OrderFault {
        OrderFault::NoMemory
    }
}

impl<T: Drop> From<AllocFailed<T>> for OrderFault {
    ghost from_gives = { λ _ fault. fault ≡ NoMemory };

    fn from(_failed: AllocFailed<T>) -> OrderFault {
        OrderFault::NoMemory
    }
}
