//! The types of constructors and of what is built in.
ghost use Rattle.std.specs.Prelude.{◌≡◌, ◌<◌, ◌++◌, [], ℕ, IfOk, OnOk, Some, length, map, option_map, slice_get};
ghost use Rattle.cu_calculus.specs.declared.ConId.{ConId};
ghost use Rattle.cu_kernel.specs.Kernel.{constructor_at};
ghost use Rattle.cu_kernel.specs.KernelOf.{constructor_meaning, type_meaning};
ghost use Rattle.cu_kernel.specs.TypeExpr as type;
ghost use Rattle.cu_kernel.specs.TypesOf.{type_of};
ghost use Rattle.cu_types.specs.BuiltInTypes.{arrows, bool, constructor_type, data_type, external_type, values, variables_from};
ghost use Rattle.cu_types.specs.Inside.Building.{made_type, made_types, signature_type, simple_type};
ghost use Rattle.cu_types.specs.Inside.Knowing.{values_at};
ghost use Rattle.cu_types.specs.Inside.Reading.{AllRead, IsReader, Reads, shapes};
ghost use Rattle.cu_types.specs.Synonyms.{bodies, expanded_by};
ghost use Rattle.cu_types.specs.Table.{at, trees};

use crate::reader::Reader;
use crate::{SharedType, TypeHead};
use cu_calculus::Primitive;
use cu_kernel::{ConId, Constructor, DataType, Program, TypeId, TypeName, TypeTerm};
use std::alloc::{AllocError, Global};

/// A type that stands in the types of built-in operations.
#[derive(Clone, Copy)]
pub(crate) enum Simple {
    /// Any type, the same one wherever it stands.
    Any,
    /// A data type without arguments, by its place among the program's types.
    Data(usize),
}

/// What a built-in operation takes and gives.
#[derive(Clone, Copy)]
pub(crate) enum Signature {
    /// The operation takes nothing: it is a value of this type.
    Value(Simple),
    /// The operation takes an argument, and gives a result.
    Unary(Simple, Simple),
    /// The operation takes two arguments of one type, and gives a result.
    Binary(Simple, Simple),
}

/// The type of `True`.
fn truth_type(program: &Program) -> Simple
    ensures { simple_type result ≡ bool program.now }
{
    match program.constructor(program.special().truth) {
        Some(placed) => Simple::Data(placed.of_type.0),
        None => Simple::Any,
    }
}

/// The place of the type of what set functions give, where there is one.
pub(crate) fn values_place(program: &Program) -> Option<usize>
    ensures { values_at result ≡ values program.now }
{
    match program.special().values {
        Some(constructor) => type_place(program, constructor),
        None => None,
    }
}

/// The place of a constructor's type, where the program has the constructor.
fn type_place(program: &Program, constructor: ConId) -> Option<usize>
    ensures { result ≡ option_map (λ placed. placed.of_type)
        (constructor_at program.now.types constructor) }
{
    match program.constructor(constructor) {
        Some(placed) => Some(placed.of_type.0),
        None => None,
    }
}

/// What a built-in operation takes and gives.
fn signature_of(program: &Program, operation: Primitive) -> Signature
    ensures { signature_type result ≡ external_type program.now operation }
{
    let truth = truth_type(program);
    let int = Simple::Data(16);
    let char = Simple::Data(17);
    match operation {
        Primitive::Add => Signature::Binary(int, int),
        Primitive::Sub => Signature::Binary(int, int),
        Primitive::Mul => Signature::Binary(int, int),
        Primitive::Div => Signature::Binary(int, int),
        Primitive::Mod => Signature::Binary(int, int),
        Primitive::Less => Signature::Binary(int, truth),
        Primitive::AtMost => Signature::Binary(int, truth),
        Primitive::Greater => Signature::Binary(int, truth),
        Primitive::AtLeast => Signature::Binary(int, truth),
        Primitive::Equal => Signature::Binary(Simple::Any, truth),
        Primitive::Unify => Signature::Binary(Simple::Any, truth),
        Primitive::And => Signature::Binary(truth, truth),
        Primitive::Ord => Signature::Unary(char, int),
        Primitive::Chr => Signature::Unary(int, char),
        Primitive::Failed => Signature::Value(Simple::Any),
    }
}

impl Reader {
    /// Adds the type of functions from one type to another.
    fn arrow(&mut self, alloc: Global, left: usize, right: usize) -> Result<usize, AllocError>
        requires reader { IsReader self.old }
        requires left { left < length (shapes self.old) }
        requires right { right < length (shapes self.old) }
        ensures reader { OnOk result (IsReader self.new) }
        ensures read { IfOk result (Reads (shapes self.old) (shapes self.new) (type.Arrow
            (at (trees (shapes self.old)) left) (at (trees (shapes self.old)) right))) }
    {
        let mut arguments = Vec::new(alloc);
        arguments.push(left)?;
        arguments.push(right)?;
        let place = self.apply(TypeHead::Arrow, arguments)?;
        Ok(place)
    }

    /// Adds a type that stands in the types of built-in operations.
    fn simple(&mut self, alloc: Global, simple: Simple) -> Result<usize, AllocError>
        requires { IsReader self.old }
        ensures reader { OnOk result (IsReader self.new) }
        ensures read { IfOk result (Reads (shapes self.old) (shapes self.new)
            (simple_type simple)) }
    {
        match simple {
            Simple::Any => {
                let place = self.variable(0)?;
                Ok(place)
            }
            Simple::Data(data_type) => {
                let head = TypeHead::Named(TypeName::Data(TypeId(data_type)));
                let place = self.apply(head, Vec::new(alloc))?;
                Ok(place)
            }
        }
    }

    /// Adds the type of functions that take one argument.
    fn unary(&mut self, alloc: Global, argument: Simple, value: Simple) -> Result<usize, AllocError>
        requires { IsReader self.old }
        ensures reader { OnOk result (IsReader self.new) }
        ensures read { IfOk result (Reads (shapes self.old) (shapes self.new)
            (type.Arrow (simple_type argument) (simple_type value))) }
    {
        let right = self.simple(alloc, value)?;
        let left = self.simple(alloc, argument)?;
        let place = self.arrow(alloc, left, right)?;
        Ok(place)
    }

    /// Adds the type of functions that take two arguments of one type.
    fn binary(
        &mut self,
        alloc: Global,
        argument: Simple,
        value: Simple,
    ) -> Result<usize, AllocError>
        requires { IsReader self.old }
        ensures reader { OnOk result (IsReader self.new) }
        ensures read { IfOk result (Reads (shapes self.old) (shapes self.new)
            (type.Arrow (simple_type argument)
            (type.Arrow (simple_type argument) (simple_type value)))) }
    {
        let right = self.unary(alloc, argument, value)?;
        let left = self.simple(alloc, argument)?;
        let place = self.arrow(alloc, left, right)?;
        Ok(place)
    }

    /// Adds the type of a built-in operation.
    fn signature(&mut self, alloc: Global, signature: Signature) -> Result<usize, AllocError>
        requires { IsReader self.old }
        ensures reader { OnOk result (IsReader self.new) }
        ensures read { IfOk result (Reads (shapes self.old) (shapes self.new)
            (signature_type signature)) }
    {
        match signature {
            Signature::Value(value) => {
                let place = self.simple(alloc, value)?;
                Ok(place)
            }
            Signature::Unary(argument, value) => {
                let place = self.unary(alloc, argument, value)?;
                Ok(place)
            }
            Signature::Binary(argument, value) => {
                let place = self.binary(alloc, argument, value)?;
                Ok(place)
            }
        }
    }

    /// Adds the type variables below a number, in order.
    fn variables_below(&mut self, alloc: Global, count: u32) -> Result<Vec<usize>, AllocError>
        requires { IsReader self.old }
        ensures reader { OnOk result (IsReader self.new) }
        ensures read { IfOk result (λ places. AllRead (shapes self.old) (shapes self.new)
            (variables_from 0 count) places.items) }
    {
        let mut places = Vec::new(alloc);
        for x in 0..count {
            let place = self.variable(x)?;
            places.push(place)?;
        }
        Ok(places)
    }

    /// Adds the type of a data type on its parameters.
    fn parameterized(
        &mut self,
        alloc: Global,
        of_type: TypeId,
        arity: u32,
    ) -> Result<usize, AllocError>
        requires { IsReader self.old }
        ensures reader { OnOk result (IsReader self.new) }
        ensures read { IfOk result (Reads (shapes self.old) (shapes self.new)
            (data_type of_type.0 (variables_from 0 arity))) }
    {
        let places = self.variables_below(alloc, arity)?;
        let place = self.apply(TypeHead::Named(TypeName::Data(of_type)), places)?;
        Ok(place)
    }

    /// Adds types with synonyms expanded, where it is told what these stand
    /// for.
    fn expand_terms(
        &mut self,
        alloc: Global,
        synonyms: &[SharedType],
        terms: &[TypeTerm],
    ) -> Result<Vec<usize>, AllocError>
        requires { IsReader self.old }
        ensures reader { OnOk result (IsReader self.new) }
        ensures read { IfOk result (λ places. AllRead (shapes self.old) (shapes self.new)
            (map (λ t. expanded_by (at synonyms.now) (type_of t)) terms.now) places.items) }
    {
        let mut places = Vec::new(alloc);
        for term in terms {
            let place = self.expand(alloc, synonyms, term)?;
            places.push(place)?;
        }
        Ok(places)
    }

    /// Adds the type of functions that take arguments of these types, one after
    /// another.
    fn functions(
        &mut self,
        alloc: Global,
        arguments: Vec<usize>,
        value: usize,
    ) -> Result<usize, AllocError>
        requires reader { IsReader self.old }
        requires arguments { (k a : ℕ) → slice_get arguments.items k ≡ Some a
            → a < length (shapes self.old) }
        requires value { value < length (shapes self.old) }
        ensures reader { OnOk result (IsReader self.new) }
        ensures read { IfOk result (Reads (shapes self.old) (shapes self.new)
            (arrows (map (at (trees (shapes self.old))) arguments.items)
            (at (trees (shapes self.old)) value))) }
    {
        let mut left = arguments;
        let mut whole = value;
        while let Some(argument) = left.pop() {
            whole = self.arrow(alloc, argument, whole)?;
        }
        Ok(whole)
    }
}

/// The type of a constructor.
fn constructor_type(
    alloc: Global,
    synonyms: &[SharedType],
    of_type: TypeId,
    arity: u32,
    constructor: &Constructor,
) -> Result<SharedType, AllocError>
    ensures { IfOk result (λ shared. shared
        ≡ made_type (at synonyms.now) of_type.0 arity (constructor_meaning constructor.now)) }
{
    let mut reader = Reader::new(alloc);
    let places = reader.expand_terms(alloc, synonyms, constructor.fields.as_slice())?;
    let value = reader.parameterized(alloc, of_type, arity)?;
    let place = reader.functions(alloc, places, value)?;
    Ok(reader.into_shared(place))
}

/// Adds the types of the constructors of one data type.
fn push_constructors(
    alloc: Global,
    found: &mut Vec<SharedType>,
    synonyms: &[SharedType],
    of_type: TypeId,
    data_type: &DataType,
) -> Result<(), AllocError>
    ensures { OnOk result (found.new.items ≡ found.old.items
        ++ map (λ c. made_type (at synonyms.now) of_type.0 data_type.now.arity
        (constructor_meaning c)) data_type.now.constructors.items) }
{
    for constructor in &data_type.constructors {
        let shared = constructor_type(alloc, synonyms, of_type, data_type.arity, constructor)?;
        found.push(shared)?;
    }
    Ok(())
}

/// The types of the constructors of all of these data types.
fn made_types(
    alloc: Global,
    synonyms: &[SharedType],
    types: &[DataType],
) -> Result<Vec<SharedType>, AllocError>
    ensures { IfOk result (λ found. found.items
        ≡ made_types (at synonyms.now) 0 (map type_meaning types.now)) }
{
    let mut found = Vec::new(alloc);
    for (place, data_type) in types.iter().enumerate() {
        push_constructors(alloc, &mut found, synonyms, TypeId(place), data_type)?;
    }
    Ok(found)
}

/// The types of a program's constructors, by their numbers.
pub(crate) fn constructor_types(
    alloc: Global,
    program: &Program,
    synonyms: &[SharedType],
) -> Result<Vec<SharedType>, AllocError>
    requires { at synonyms.now ≡ bodies program.now (length program.now.synonyms) }
    ensures { IfOk result (λ types. (c : ConId)
        → at types.items c.0 ≡ constructor_type program.now c) }
{
    let types = made_types(alloc, synonyms, program.types())?;
    Ok(types)
}

/// The type of a built-in operation.
pub(crate) fn external_type(
    alloc: Global,
    program: &Program,
    operation: Primitive,
) -> Result<SharedType, AllocError>
    ensures { IfOk result (λ shared. shared ≡ external_type program.now operation) }
{
    let mut reader = Reader::new(alloc);
    let place = reader.signature(alloc, signature_of(program, operation))?;
    Ok(reader.into_shared(place))
}
