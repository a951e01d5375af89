//! Type inference: a most general type for each function of a program, or why
//! there is none.
ghost use Rattle.std.specs.Prelude.{◌≡◌, ◌<◌, ℕ, IfErr, IfOk, IsTrue, MatchResult, length, map, replicate};
ghost use Rattle.cu_kernel.specs.Captures.{are_rising};
ghost use Rattle.cu_kernel.specs.Kernel.{program_of};
ghost use Rattle.cu_kernel.specs.TypeExpr as type;
ghost use Rattle.cu_lift.specs.Groups.{AreGroups, lists_of, numbers};
ghost use Rattle.cu_types.specs.Inference.{IsInferred, PrincipallyTyped};
ghost use Rattle.cu_types.specs.Inside.Grouping.{AreWithin, HasNoMembers, IsInference, IsKnown};
ghost use Rattle.cu_types.specs.Inside.Inferring.{Ended, Stepped};
ghost use Rattle.cu_types.specs.Inside.Knowing.{kept_type};
ghost use Rattle.cu_types.specs.TypeFaults.{IsTypeFault};
ghost use Rattle.cu_types.specs.declared.known.Known.TheVariants as kind;

use crate::builtin::{constructor_types, values_place};
use crate::functional::is_functional;
use crate::group::{Inference, Outcome};
use crate::known::Known;
use crate::synonyms::synonym_types;
use crate::{Clash, Interface, Node, SharedType};
use cu_kernel::{FunId, Program};
use cu_lift::groups;
use std::alloc::{AllocError, Global};
use thiserror::Error;

/// Why inference gives no interface. A function stands for its dependency group, of
/// which it is the first in program order.
#[derive(Debug, Drop, Error)]
pub enum TypeFault {
    /// The rules of the group make two types equal that can't be the same.
    #[error("the types are not the same")]
    TypeClash(FunId, Clash),
    /// The rules of the group have types, but not the declared ones.
    #[error("the declared type is too general")]
    Signature(FunId),
    /// The goal, or a variable of it, is of a type that holds functions.
    #[error("the goal holds functions")]
    GoalFunctional,
    /// There is no memory left, or no number for a type variable.
    #[error("no memory left")]
    NoMemory,
}

/// A type variable by itself, for a function of which no type is known.
fn unknown(alloc: Global) -> Result<SharedType, AllocError>
    ensures { IfOk result (λ shared. shared ≡ type.Variable 0) }
{
    let mut types = Vec::new(alloc);
    types.push(Node::Variable(0))?;
    Ok(SharedType::new(types, 0))
}

impl Known {
    /// The type that is known of the function.
    fn kept(self, alloc: Global) -> Result<SharedType, AllocError>
        ensures { IfOk result (λ shared. shared ≡ kept_type self) }
    {
        match self {
            Known::Nothing => unknown(alloc),
            Known::Typed(shared) => Ok(shared),
            Known::Member(_) => unknown(alloc),
        }
    }
}

/// The types that are known of functions.
fn kept_types(alloc: Global, known: Vec<Known>) -> Result<Vec<SharedType>, AllocError>
    ensures { IfOk result (λ types. types.items ≡ map kept_type known.items) }
{
    let mut types = Vec::new(alloc);
    for own in known {
        let shared = own.kept(alloc)?;
        types.push(shared)?;
    }
    Ok(types)
}

/// What is known of so many functions at first: nothing.
fn nothing_known(alloc: Global, count: usize) -> Result<Vec<Known>, AllocError>
    ensures { IfOk result (λ known. known.items ≡ replicate count kind.Nothing) }
{
    let mut known = Vec::new(alloc);
    for index in 0..count {
        known.push(Known::Nothing)?;
    }
    Ok(known)
}

impl Inference<'_> {
    /// Gives the functions of a group their types, or tells why there are
    /// none.
    fn step(&self, known: &mut [Known], group: &[FunId]) -> Result<Option<TypeFault>, AllocError>
        requires tables { IsInference self.now }
        requires within { AreWithin group.now (length known.old) }
        requires some { 0 < length group.now }
        ensures { IfOk result (λ fault. HasNoMembers known.old
            → IsTrue (are_rising (numbers group.now))
            → Stepped self.now.program.now known.old known.new group.now fault) }
    {
        let outcome = self.infer_group(known, group)?;
        match outcome {
            Outcome::Typed => Ok(None),
            Outcome::Clash(clash) => Ok(Some(TypeFault::TypeClash(group[0], clash))),
            Outcome::Broken => Ok(Some(TypeFault::Signature(group[0]))),
        }
    }

    /// Gives the functions of all groups their types, or tells why there are
    /// none.
    fn all(
        &self,
        known: &mut [Known],
        groups: &[Vec<FunId>],
    ) -> Result<Option<TypeFault>, AllocError>
        requires tables { IsInference self.now }
        requires groups { AreGroups (program_of self.now.program.now) (lists_of groups.now) }
        requires known { IsKnown self.now.program.now (lists_of groups.now) 0 known.old }
        ensures { IfOk result (λ fault.
            Ended self.now.program.now (lists_of groups.now) known.new fault) }
    {
        for group in groups {
            let found = self.step(known, group.as_slice())?;
            let Some(fault) = found else {
                continue;
            };
            return Ok(Some(fault));
        }
        Ok(None)
    }
}

/// The types of a program's functions, or why there are none, unless memory
/// runs out.
fn principal(
    alloc: Global,
    program: &Program,
) -> Result<Result<Vec<SharedType>, TypeFault>, AllocError>
    ensures { IfOk result (λ outcome. MatchResult outcome
        (λ types. PrincipallyTyped program.now types.items) (IsTypeFault program.now)) }
{
    let rows = groups(alloc, program)?;
    let synonyms = synonym_types(alloc, program)?;
    let constructors = constructor_types(alloc, program, synonyms.as_slice())?;
    let inference = Inference {
        alloc,
        program,
        synonyms: synonyms.as_slice(),
        constructors: constructors.as_slice(),
        values: values_place(program),
    };
    let mut known = nothing_known(alloc, program.functions().len())?;
    let found = inference.all(known.as_mut_slice(), rows.as_slice())?;
    match found {
        None => {
            let types = kept_types(alloc, known)?;
            Ok(Ok(types))
        }
        Some(fault) => Ok(Err(fault)),
    }
}

/// The types of a program's functions, where its goal is data.
fn data_types(
    alloc: Global,
    program: &Program,
    types: Vec<SharedType>,
) -> Result<Result<Interface, TypeFault>, AllocError>
    ensures { IfOk result (λ outcome. PrincipallyTyped program.now types.items
        → MatchResult outcome (IsInferred program.now) (IsTypeFault program.now)) }
{
    let functional = is_functional(alloc, program, types.as_slice())?;
    if functional {
        return Ok(Err(TypeFault::GoalFunctional));
    }
    Ok(Ok(Interface::new(types)))
}

/// The types of a program's functions, where its goal is data, or why there are
/// none, unless memory runs out.
fn inferred(alloc: Global, program: &Program) -> Result<Result<Interface, TypeFault>, AllocError>
    ensures { IfOk result (λ outcome.
        MatchResult outcome (IsInferred program.now) (IsTypeFault program.now)) }
{
    let outcome = principal(alloc, program)?;
    match outcome {
        Ok(types) => data_types(alloc, program, types),
        Err(fault) => Ok(Err(fault)),
    }
}

/// The types of a program's functions, group by group, each group after those
/// that it calls: a declared function has its declared type, and others have
/// the most general types that their rules allow. The variables of each type
/// are numbered from 0 in the order in which they come first.
///
/// Where there is memory, no other answer would do: a program has one interface
/// at most (`interfaces_agree`), none beside a fault (`answers_exclude`), and
/// faults of one kind and one group (`faults_agree`).
///
/// Type variables have numbers below 2^32, and types are as large as memory
/// allows: where either runs out, the answer is `NoMemory`.
///
/// Nothing is asked of the program. Where a type's name has a wrong number of
/// arguments, or a synonym leads to itself, `expanded` says what is taken; the
/// front end refuses such modules before.
pub fn infer(alloc: Global, program: &Program) -> Result<Interface, TypeFault>
    ensures types { IfOk result (IsInferred program.now) }
    ensures fault { IfErr result (IsTypeFault program.now) }
{
    match inferred(alloc, program) {
        Ok(Ok(interface)) => Ok(interface),
        Ok(Err(fault)) => Err(fault),
        Err(_) => Err(TypeFault::NoMemory),
    }
}
