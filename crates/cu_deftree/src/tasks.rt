//! What is to be lowered, and how many expressions may still be made.
ghost use Rattle.std.specs.Prelude.{◌≡◌, ◌+◌};
ghost use Rattle.cu_deftree.specs.Inside.Tasks.{Spends, mode_of};
ghost use Rattle.cu_deftree.specs.declared.tasks.Stop.TheVariants.{NoMemory};

use crate::names::Names;
use crate::rows::Row;
use cu_kernel::{Mode, Pattern, Term};
use std::alloc::{AllocError, AllocFailed};

/// Why a term or a clause matrix isn't lowered.
#[derive(Clone, Copy)]
pub(crate) enum Stop {
    /// The body of a function would be of more expressions than are left of
    /// its 65,536.
    TooBig,
    /// There is no memory left.
    NoMemory,
}

impl From<AllocError> for Stop {
    ghost from_gives = { λ _ stop. stop ≡ NoMemory };

    fn from(_error: AllocError) -> Stop {
        Stop::NoMemory
    }
}

impl<T: Drop> From<AllocFailed<T>> for Stop {
    ghost from_gives = { λ _ stop. stop ≡ NoMemory };

    fn from(_failed: AllocFailed<T>) -> Stop {
        Stop::NoMemory
    }
}

/// What the variables around a term are called, and the number of the next
/// variable that is bound.
#[derive(Clone, Copy)]
pub(crate) struct Scope<'a> {
    pub(crate) names: &'a Names<'a>,
    pub(crate) next: u32,
}

/// A clause matrix: rows over positions. With it goes the number of the next
/// variable that is bound.
#[derive(Clone, Copy)]
pub(crate) struct Matrix<'a> {
    pub(crate) positions: &'a [u32],
    pub(crate) next: u32,
    pub(crate) rows: &'a [Row<'a>],
}

/// What the rows of a clause matrix are made from.
#[derive(Clone, Copy)]
pub(crate) enum Manner {
    /// The rules of a function, of which each that matches counts.
    Rules,
    /// The alternatives of a case distinction, of which the first that
    /// matches counts.
    Alternatives(Mode),
}

/// A position of a clause matrix.
#[derive(Clone, Copy)]
pub(crate) struct Column<'a> {
    pub(crate) matrix: &'a Matrix<'a>,
    pub(crate) position: usize,
}

/// What the branches of a case distinction on a column are made from.
#[derive(Clone, Copy)]
pub(crate) struct Branching<'a> {
    pub(crate) column: Column<'a>,
    /// What the rows of the column's matrix are made from.
    pub(crate) manner: Manner,
    /// Whether rows that demand nothing in the column go on into each branch.
    pub(crate) has_variables: bool,
}

/// The parts of a term that binds a variable to the value of another.
#[derive(Clone, Copy)]
pub(crate) struct LetTerm<'a> {
    pub(crate) variable: u32,
    pub(crate) value: &'a Term,
    pub(crate) body: &'a Term,
}

/// The parts of a term that is a case distinction.
#[derive(Clone, Copy)]
pub(crate) struct CaseTerm<'a> {
    pub(crate) mode: Mode,
    pub(crate) scrutinee: &'a Term,
    pub(crate) alternatives: &'a [(Pattern, Term)],
}

/// What is to be lowered.
#[derive(Clone, Copy)]
pub(crate) enum Task<'a> {
    /// A term in its scope.
    Term(Scope<'a>, &'a Term),
    /// A clause matrix.
    Rows(Manner, Matrix<'a>),
}

impl Manner {
    /// The mode of the case distinctions that a clause matrix becomes.
    pub(crate) fn mode(self) -> Mode
        ensures { result ≡ mode_of self }
    {
        match self {
            Manner::Rules => Mode::Flex,
            Manner::Alternatives(mode) => mode,
        }
    }
}

/// Takes expressions from those that may still be made.
pub(crate) fn spend(left: &mut u32, count: u32) -> Result<(), Stop>
    ensures { Spends count left.old left.new result }
{
    if *left < count {
        return Err(Stop::TooBig);
    }
    *left -= count;
    Ok(())
}
