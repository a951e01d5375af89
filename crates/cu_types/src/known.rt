//! What is known of functions while the types of a group are inferred.
ghost use Rattle.std.specs.Prelude.{◌≡◌, ◌+◌, [], IfOk, Some, slice_get, slice_index_or};
ghost use Rattle.cu_types.specs.declared.known.Known.TheVariants as kind;
ghost use Rattle.cu_kernel.specs.TypeExpr as type;
ghost use Rattle.cu_types.specs.Equations as asked;
ghost use Rattle.cu_types.specs.Inside.Grouping.{numbers_of};
ghost use Rattle.cu_types.specs.Inside.Knowing.{scheme_known, scheme_of};

use crate::SharedType;
use cu_kernel::{ConId, FunId, Program};
use std::alloc::AllocError;

/// A function of the group that is inferred. Its parameters have the type
/// variables from `first` on, its result has the next one, and its declared
/// type has those after that.
#[derive(Drop)]
pub(crate) struct Member {
    /// How many parameters the function has.
    pub(crate) arity: u32,
    /// How many of the parameters, the first ones, are variables that the
    /// function captured as a local one.
    pub(crate) captured: u32,
    /// The type of the other parameters and of the result, if it is declared.
    pub(crate) declared: Option<SharedType>,
    /// The type variable of the first parameter.
    pub(crate) first: u32,
}

/// What is known of a function.
#[derive(Drop)]
pub(crate) enum Known {
    /// The function's group wasn't visited yet.
    Nothing,
    /// The function's type, of which each use has an instance.
    Typed(SharedType),
    /// The function is of the group that is being inferred.
    Member(Member),
}

/// The type of a head, as terms use it.
#[derive(Clone, Copy)]
pub(crate) enum Scheme<'s> {
    /// A type variable of its own at each use.
    Unknown,
    /// The type of functions of so many type variables, from a number on, to
    /// the next one, which is the same type at each use.
    Monomorphic(u32, u32),
    /// A type of which each use has an instance, after so many type variables,
    /// from a number on, which are the same at each use.
    Polymorphic(u32, u32, &'s SharedType),
}

/// What is known of the heads of terms.
#[derive(Clone, Copy)]
pub(crate) struct Signing<'p> {
    /// The program.
    pub(crate) program: &'p Program,
    /// The types of the program's constructors.
    pub(crate) constructors: &'p [SharedType],
    /// What is known of the program's functions.
    pub(crate) known: &'p [Known],
    /// The place of the data type that set functions give, if there is one.
    pub(crate) values: Option<usize>,
}

/// Where the type variables of a function of the group begin, and how many
/// parameters it has.
#[derive(Clone, Copy)]
pub(crate) struct Numbers {
    /// The type variable of the first parameter.
    pub(crate) first: u32,
    /// How many parameters the function has.
    pub(crate) arity: u32,
}

/// How many parameters a function has.
pub(crate) fn arity_of(program: &Program, f: FunId) -> u32
    ensures { result ≡ asked.arity_of (slice_get program.now.functions f.0) }
{
    match program.functions().get(f.0) {
        Some(function) => function.arity,
        None => 0,
    }
}

impl Member {
    /// The type variable of the function's result. Where the numbers run out it
    /// is an allocation failure.
    pub(crate) fn right(&self) -> Result<u32, AllocError>
        ensures { IfOk result (λ right. right ≡ self.now.first + self.now.arity) }
    {
        match self.first.checked_add(self.arity) {
            Some(right) => Ok(right),
            None => Err(AllocError),
        }
    }

    /// The function's type, as a term of its own group sees it.
    fn scheme(&self) -> Scheme<'_>
        ensures { scheme_of result ≡ scheme_known (Some (kind.Member self.now)) }
    {
        match &self.declared {
            Some(declared) => {
                Scheme::Polymorphic(self.first, self.captured.min(self.arity), declared)
            }
            None => Scheme::Monomorphic(self.first, self.arity),
        }
    }
}

impl Known {
    /// The type of the function, as a term of the group sees it.
    fn scheme(&self) -> Scheme<'_>
        ensures { scheme_of result ≡ scheme_known (Some self.now) }
    {
        match self {
            Known::Nothing => Scheme::Unknown,
            Known::Typed(shared) => Scheme::Polymorphic(0, 0, shared),
            Known::Member(member) => member.scheme(),
        }
    }
}

impl Known {
    /// The type variables of the function, if it is of the group.
    fn numbers(&self) -> Option<Numbers>
        ensures { result ≡ numbers_of (Some self.now) }
    {
        match self {
            Known::Nothing => None,
            Known::Typed(_) => None,
            Known::Member(member) => Some(Numbers {
                first: member.first,
                arity: member.arity,
            }),
        }
    }
}

/// The type variables of a function, where it is of the group.
pub(crate) fn numbers_at(known: &[Known], f: FunId) -> Option<Numbers>
    ensures { result ≡ numbers_of (slice_get known.now f.0) }
{
    match known.get(f.0) {
        Some(own) => own.numbers(),
        None => None,
    }
}

impl<'p> Signing<'p> {
    /// The type of a function.
    pub(crate) fn function(&self, f: FunId) -> Scheme<'p>
        ensures { scheme_of result ≡ scheme_known (slice_get self.now.known.now f.0) }
    {
        match self.known.get(f.0) {
            Some(known) => known.scheme(),
            None => Scheme::Unknown,
        }
    }

    /// The type of a constructor.
    pub(crate) fn constructor(&self, c: ConId) -> Scheme<'p>
        ensures { scheme_of result
            ≡ asked.Polymorphic []
            (slice_index_or self.now.constructors.now c.0 (type.Variable 0)) }
    {
        match self.constructors.get(c.0) {
            Some(shared) => Scheme::Polymorphic(0, 0, shared),
            None => Scheme::Unknown,
        }
    }

    /// How many parameters a function has.
    pub(crate) fn arity(&self, f: FunId) -> u32
        ensures { result ≡ asked.arity_of (slice_get self.now.program.now.functions f.0) }
    {
        arity_of(self.program, f)
    }
}
