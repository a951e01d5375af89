//! Unification: a most general solution of equations between types, or two
//! types that the equations make equal and that can't be the same.
ghost use Rattle.std.specs.Prelude.{◌≡◌, IfErr, IfOk, List, MatchResult, OnOk, map};
ghost use Rattle.cu_types.specs.Inside.Reading.{IsReader, Stand, shapes};
ghost use Rattle.cu_types.specs.Meaning.{Clashes, HasPlaces, IsUnifyFault, equation_of, place_in, subst_of, types_of_subst};
ghost use Rattle.cu_types.specs.Table.{IsTable, shape_of};
ghost use Rattle.cu_types.specs.Unification as made;
ghost use Rattle.cu_types.specs.Unification.{IsMostGeneral};

use crate::pair::Pair;
use crate::reader::Reader;
use crate::solve::{Solved, solve};
use crate::{Equation, Node};
use indexmap::IndexMap;
use std::alloc::{AllocError, Global};
use thiserror::Error;

/// A substitution: a type for each type variable. Its types stand in a table,
/// with one entry for all types that the equations make equal.
#[derive(Drop)]
pub struct Subst {
    /// The variables that have a type, each with a number by which the type's
    /// place is found.
    pub(crate) variables: IndexMap<u32, usize>,
    /// The places in the table of the types of variables, by these numbers.
    pub(crate) places: Vec<usize>,
    /// The table of types. The arguments of each stand before it.
    pub(crate) types: Vec<Node>,
}

/// Two types that equations make equal, and that no substitution makes the
/// same.
#[derive(Debug, Drop)]
pub struct Clash {
    /// A table of types. The arguments of each stand before it.
    pub types: Vec<Node>,
    /// The place of one of the two types in the table.
    pub left: usize,
    /// The place of the other type in the table.
    pub right: usize,
}

/// Why there is no solution.
#[derive(Debug, Drop, Error)]
pub enum UnifyFault {
    /// The equations have no common solution.
    #[error("the types are not the same")]
    Clash(Clash),
    /// There is no memory left.
    #[error("no memory left")]
    NoMemory,
}

impl Subst {
    /// The table of types.
    pub fn types(&self) -> &[Node]
        ensures { map shape_of result.now ≡ types_of_subst self.now }
    {
        self.types.as_slice()
    }

    /// The place of a variable's type in the table. A variable that has none
    /// stands for itself.
    pub fn place(&self, x: u32) -> Option<usize>
        ensures { result ≡ place_in self.now x }
    {
        match self.variables.get(&x) {
            Some(number) => self.places.get(*number).copied(),
            None => None,
        }
    }
}

impl Reader {
    /// Reads the types of equations, and gives the equations as pairs of
    /// places.
    fn read_all(&mut self, alloc: Global, equations: &[Equation]) -> Result<Vec<Pair>, AllocError>
        requires { IsReader self.old }
        ensures reader { OnOk result (IsReader self.new) }
        ensures read { IfOk result (λ pairs. Stand (shapes self.new) pairs.items
            (map equation_of equations.now)) }
    {
        let mut pairs = Vec::new(alloc);
        for equation in equations {
            let left = self.read(alloc, &equation.left)?;
            let right = self.read(alloc, &equation.right)?;
            pairs.push(Pair { left, right })?;
        }
        Ok(pairs)
    }
}

/// Solves equations that are read, each as a pair of places, unless memory runs
/// out.
pub(crate) fn solved(
    alloc: Global,
    reader: Reader,
    pairs: Vec<Pair>,
) -> Result<Result<Subst, Clash>, AllocError>
    requires reader { IsReader reader }
    requires stand { (equations : List made.Equation)
        × Stand (shapes reader) pairs.items equations }
    ensures { IfOk result (λ outcome. (equations : List made.Equation)
        → Stand (shapes reader) pairs.items equations
        → MatchResult outcome
        (λ s. IsMostGeneral (subst_of s) equations × IsTable (types_of_subst s) × HasPlaces s)
        (Clashes equations)) }
{
    let Reader {
        nodes,
        variables,
        added,
    } = reader;
    drop(added);
    match solve(alloc, nodes, pairs)? {
        Solved::Solution(places, types) => Ok(Ok(Subst {
            variables,
            places,
            types,
        })),
        Solved::Clash(types, pair) => Ok(Err(Clash {
            types,
            left: pair.left,
            right: pair.right,
        })),
    }
}

/// Solves equations between types, unless memory runs out.
fn unified(alloc: Global, equations: &[Equation]) -> Result<Result<Subst, Clash>, AllocError>
    ensures { IfOk result (λ outcome. MatchResult outcome
        (λ s. IsMostGeneral (subst_of s) (map equation_of equations.now)
        × IsTable (types_of_subst s) × HasPlaces s)
        (Clashes (map equation_of equations.now))) }
{
    let mut reader = Reader::new(alloc);
    let pairs = reader.read_all(alloc, equations)?;
    let outcome = solved(alloc, reader, pairs)?;
    Ok(outcome)
}

/// A most general solution of equations between types, if they have one. The
/// time that it takes is nearly in proportion to the size of the equations, and
/// so is the size of the types that it gives.
pub fn unify(alloc: Global, equations: &[Equation]) -> Result<Subst, UnifyFault>
    ensures solution { IfOk result (λ s.
        IsMostGeneral (subst_of s) (map equation_of equations.now)) }
    ensures table { IfOk result (λ s. IsTable (types_of_subst s)) }
    ensures places { IfOk result HasPlaces }
    ensures fault { IfErr result (IsUnifyFault (map equation_of equations.now)) }
{
    match unified(alloc, equations) {
        Ok(Ok(solution)) => Ok(solution),
        Ok(Err(clash)) => Err(UnifyFault::Clash(clash)),
        Err(_) => Err(UnifyFault::NoMemory),
    }
}
