//! What is wrong with the types of modules and goals.
ghost use Rattle.std.specs.Prelude.{◌≡◌};
ghost use Rattle.cu_declared.specs.declared.fault.TypeArity.TheVariants as arity;
ghost use Rattle.cu_declared.specs.declared.fault.TypeNameFault.TheVariants as answer;

use cu_names::{NameId, Place};
use std::alloc::AllocError;
use thiserror::Error;

/// What is wrong with the types of modules.
#[derive(Debug, Drop, Error)]
pub enum TypeNameFault {
    /// The name of a type, at its place, has a wrong number of arguments.
    #[error("wrong number of arguments of the type at {}:{}", .0.line, .0.column)]
    TypeArity(Place),
    /// The synonym of this name leads to itself.
    #[error("a synonym leads to itself")]
    SynonymCycle(NameId),
    #[error("out of memory")]
    NoMemory,
}

impl From<AllocError> for TypeNameFault {
    ghost from_gives = { λ _ fault. fault ≡ answer.NoMemory };

    fn from(_error: AllocError) -> TypeNameFault {
        TypeNameFault::NoMemory
    }
}

/// What is wrong with the types of a goal.
#[derive(Debug, Drop, Error)]
pub enum TypeArity {
    /// The name of a type, at its place, has a wrong number of arguments.
    #[error("wrong number of arguments of the type at {}:{}", .0.line, .0.column)]
    At(Place),
    #[error("out of memory")]
    NoMemory,
}

impl From<AllocError> for TypeArity {
    ghost from_gives = { λ _ fault. fault ≡ arity.NoMemory };

    fn from(_error: AllocError) -> TypeArity {
        TypeArity::NoMemory
    }
}
