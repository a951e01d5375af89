//! Equations that are asked for, as pairs of places in a table of types.
ghost use Rattle.std.specs.Prelude.{◌≡◌, ◌<◌, ◌+◌, ◌^◌, [], IfOk, OnOk, length};
ghost use Rattle.cu_kernel.specs.TypeExpr.{TypeExpr};
ghost use Rattle.cu_kernel.specs.TypeExpr as type;
ghost use Rattle.cu_types.specs.Equations as asked;
ghost use Rattle.cu_types.specs.Equations.{Asked, asking, asking_same, renamed, scheme_asks, taking};
ghost use Rattle.cu_types.specs.Inside.Asking.{Adds, Asks, IsAsking, StandsAt};
ghost use Rattle.cu_types.specs.Inside.Knowing.{scheme_of, values_at};
ghost use Rattle.cu_types.specs.Inside.Reading.{IsReader, shapes};
ghost use Rattle.cu_types.specs.BuiltInTypes.{arrows, data_type, literal_type, variables_from};
ghost use Rattle.cu_types.specs.Table.{at, trees};

use crate::known::Scheme;
use crate::pair::Pair;
use crate::reader::Reader;
use crate::replacing::Replacing;
use crate::{SharedType, TypeHead};
use cu_kernel::{Lit, TypeId, TypeName};
use std::alloc::{AllocError, Global};

/// So many type variables, from a number on.
#[derive(Clone, Copy)]
pub(crate) struct VariableRange {
    /// The number of the first variable.
    pub(crate) first: u32,
    /// How many variables there are.
    pub(crate) count: u32,
}

/// Equations that are asked for, with the table of the types in them and the
/// next type variable.
#[derive(Drop)]
pub(crate) struct Asking {
    /// The table of types.
    pub(crate) reader: Reader,
    /// The places in the table of both sides of each equation.
    pub(crate) pairs: Vec<Pair>,
    /// The number from which on no type variable is taken.
    pub(crate) next: u32,
}

/// The place of a literal's type among the program's types.
fn literal_place(literal: Lit) -> usize
    ensures { data_type result [] ≡ literal_type literal }
{
    match literal {
        Lit::Int(_) => 16,
        Lit::Char(_) => 17,
    }
}

impl Asking {
    /// No equations, where the type variables below a number are taken.
    pub(crate) fn new(alloc: Global, next: u32) -> Asking
        ensures reader { IsReader result.reader }
        ensures asked { IsAsking result (record { next = next; equations = [] }) }
    {
        Asking {
            reader: Reader::new(alloc),
            pairs: Vec::new(alloc),
            next,
        }
    }

    /// Takes so many type variables. Gives the first one. Where the numbers run
    /// out it is an allocation failure.
    pub(crate) fn take(&mut self, count: u32) -> Result<u32, AllocError>
        requires { IsReader self.old.reader }
        ensures first { IfOk result (λ first. first ≡ self.old.next) }
        ensures same { self.new.reader ≡ self.old.reader }
        ensures asks { OnOk result (Asks self.old self.new (taking count)) }
    {
        let first = self.next;
        let Some(next) = first.checked_add(count) else {
            return Err(AllocError);
        };
        self.next = next;
        Ok(first)
    }

    /// The place of a type variable.
    pub(crate) fn variable(&mut self, x: u32) -> Result<usize, AllocError>
        requires { IsReader self.old.reader }
        ensures { IfOk result (Adds self.old self.new (type.Variable x)) }
    {
        self.reader.variable(x)
    }

    /// Asks that the types at two places are the same.
    pub(crate) fn ask(&mut self, left: usize, right: usize) -> Result<(), AllocError>
        ensures same { self.new.reader ≡ self.old.reader }
        ensures asks { OnOk result ((s t : TypeExpr) → IsReader self.old.reader
            → StandsAt self.old left s → StandsAt self.old right t
            → Asks self.old self.new (asking s t)) }
    {
        self.pairs.push(Pair { left, right })?;
        Ok(())
    }

    /// Asks that two type variables are the same.
    pub(crate) fn same(&mut self, x: u32, y: u32) -> Result<(), AllocError>
        requires { IsReader self.old.reader }
        ensures { OnOk result (Asks self.old self.new (asking_same x y)) }
    {
        let left = self.variable(x)?;
        let right = self.variable(y)?;
        self.ask(left, right)?;
        Ok(())
    }

    /// Adds the type of a literal.
    fn literal_type(&mut self, alloc: Global, literal: Lit) -> Result<usize, AllocError>
        requires { IsReader self.old.reader }
        ensures { IfOk result (Adds self.old self.new (literal_type literal)) }
    {
        let head = TypeHead::Named(TypeName::Data(TypeId(literal_place(literal))));
        self.reader.apply(head, Vec::new(alloc))
    }

    /// Asks that the type of a literal is this type variable.
    pub(crate) fn literal(&mut self, alloc: Global, literal: Lit, t: u32) -> Result<(), AllocError>
        requires { IsReader self.old.reader }
        ensures { OnOk result (Asks self.old self.new
            (asking (literal_type literal) (type.Variable t))) }
    {
        let left = self.literal_type(alloc, literal)?;
        let right = self.variable(t)?;
        self.ask(left, right)?;
        Ok(())
    }

    /// Adds the type of functions from one type to another.
    fn arrow(&mut self, alloc: Global, left: usize, right: usize) -> Result<usize, AllocError>
        requires reader { IsReader self.old.reader }
        requires left { left < length (shapes self.old.reader) }
        requires right { right < length (shapes self.old.reader) }
        ensures { IfOk result (Adds self.old self.new (type.Arrow
            (at (trees (shapes self.old.reader)) left)
            (at (trees (shapes self.old.reader)) right))) }
    {
        let mut arguments = Vec::new(alloc);
        arguments.push(left)?;
        arguments.push(right)?;
        let place = self.reader.apply(TypeHead::Arrow, arguments)?;
        Ok(place)
    }

    /// Adds the type of functions from a type variable to the type at a place.
    fn taking_variable(&mut self, alloc: Global, x: u32, place: usize) -> Result<usize, AllocError>
        requires reader { IsReader self.old.reader }
        requires within { place < length (shapes self.old.reader) }
        ensures { IfOk result (Adds self.old self.new (type.Arrow (type.Variable x)
            (at (trees (shapes self.old.reader)) place))) }
    {
        let left = self.variable(x)?;
        let whole = self.arrow(alloc, left, place)?;
        Ok(whole)
    }

    /// Adds the type of functions of these type variables to the type at a
    /// place.
    pub(crate) fn arrows(
        &mut self,
        alloc: Global,
        variables: VariableRange,
        place: usize,
    ) -> Result<usize, AllocError>
        requires reader { IsReader self.old.reader }
        requires within { place < length (shapes self.old.reader) }
        requires fits { variables.first + variables.count < 2 ^ 32 }
        ensures { IfOk result (Adds self.old self.new
            (arrows (variables_from variables.first variables.count)
            (at (trees (shapes self.old.reader)) place))) }
    {
        let mut whole = place;
        let mut left = variables.count;
        while left > 0 {
            left -= 1;
            whole = self.taking_variable(alloc, variables.first + left, whole)?;
        }
        Ok(whole)
    }

    /// Asks that the type of functions from one type variable to another is a
    /// third one.
    pub(crate) fn function(
        &mut self,
        alloc: Global,
        x: u32,
        y: u32,
        whole: u32,
    ) -> Result<(), AllocError>
        requires { IsReader self.old.reader }
        ensures { OnOk result (Asks self.old self.new (asking
            (type.Arrow (type.Variable x) (type.Variable y)) (type.Variable whole))) }
    {
        let right = self.variable(y)?;
        let arrow = self.taking_variable(alloc, x, right)?;
        let place = self.variable(whole)?;
        self.ask(arrow, place)?;
        Ok(())
    }

    /// Adds an instance of a type, whose variables have the numbers from this
    /// one on.
    pub(crate) fn instance(
        &mut self,
        alloc: Global,
        shared: &SharedType,
        next: u32,
    ) -> Result<usize, AllocError>
        requires { IsReader self.old.reader }
        ensures { IfOk result (Adds self.old self.new (renamed next shared.now)) }
    {
        let place = self.reader.add(alloc, shared, Replacing::Shift(next))?;
        Ok(place)
    }

    /// Adds the type of functions of these type variables to the type at a
    /// place, where the numbers don't run out.
    pub(crate) fn arrows_to(
        &mut self,
        alloc: Global,
        variables: VariableRange,
        place: usize,
    ) -> Result<usize, AllocError>
        requires reader { IsReader self.old.reader }
        requires within { place < length (shapes self.old.reader) }
        ensures { IfOk result (Adds self.old self.new
            (arrows (variables_from variables.first variables.count)
            (at (trees (shapes self.old.reader)) place))) }
    {
        match variables.first.checked_add(variables.count) {
            Some(_) => {
                let whole = self.arrows(alloc, variables, place)?;
                Ok(whole)
            }
            None => Err(AllocError),
        }
    }

    /// Asks that the type of functions of these type variables to the next one
    /// is the type at a place.
    fn fixed(
        &mut self,
        alloc: Global,
        variables: VariableRange,
        whole: usize,
    ) -> Result<(), AllocError>
        requires { IsReader self.old.reader }
        ensures { OnOk result ((t : TypeExpr) → StandsAt self.old whole t → Asks self.old self.new
            (asking (arrows (variables_from variables.first variables.count)
            (type.Variable (variables.first + variables.count))) t)) }
    {
        let Some(last) = variables.first.checked_add(variables.count) else {
            return Err(AllocError);
        };
        let right = self.variable(last)?;
        let left = self.arrows_to(alloc, variables, right)?;
        self.ask(left, whole)?;
        Ok(())
    }

    /// Asks that an instance of a type, after these type variables, is the type
    /// at a place.
    fn general(
        &mut self,
        alloc: Global,
        variables: VariableRange,
        shared: &SharedType,
        whole: usize,
    ) -> Result<(), AllocError>
        requires { IsReader self.old.reader }
        ensures { OnOk result ((t : TypeExpr) → StandsAt self.old whole t → Asks self.old self.new
            (scheme_asks (asked.Polymorphic
            (variables_from variables.first variables.count) shared.now) t)) }
    {
        let found = shared.breadth(alloc)?;
        let Ok(taken) = u32::try_from(found) else {
            return Err(AllocError);
        };
        let next = self.take(taken)?;
        let right = self.instance(alloc, shared, next)?;
        let left = self.arrows_to(alloc, variables, right)?;
        self.ask(left, whole)?;
        Ok(())
    }

    /// Asks that a new type variable is the type at a place.
    fn unknown(&mut self, whole: usize) -> Result<(), AllocError>
        requires { IsReader self.old.reader }
        ensures { OnOk result ((t : TypeExpr) → StandsAt self.old whole t → Asks self.old self.new
            (scheme_asks (asked.Polymorphic [] (type.Variable 0)) t)) }
    {
        let next = self.take(1)?;
        let left = self.variable(next)?;
        self.ask(left, whole)?;
        Ok(())
    }

    /// Asks that the type of a head is the type at a place.
    pub(crate) fn scheme(
        &mut self,
        alloc: Global,
        scheme: Scheme<'_>,
        whole: usize,
    ) -> Result<(), AllocError>
        requires { IsReader self.old.reader }
        ensures { OnOk result ((t : TypeExpr) → StandsAt self.old whole t → Asks self.old self.new
            (scheme_asks (scheme_of scheme.entry) t)) }
    {
        match scheme {
            Scheme::Unknown => self.unknown(whole),
            Scheme::Monomorphic(first, count) => {
                self.fixed(alloc, VariableRange { first, count }, whole)
            }
            Scheme::Polymorphic(first, count, shared) => {
                self.general(alloc, VariableRange { first, count }, shared, whole)
            }
        }
    }

    /// Adds the type of all values of a type.
    pub(crate) fn values(
        &mut self,
        alloc: Global,
        values: Option<usize>,
        place: usize,
    ) -> Result<usize, AllocError>
        requires reader { IsReader self.old.reader }
        requires within { place < length (shapes self.old.reader) }
        ensures { IfOk result (Adds self.old self.new
            (values_at values (at (trees (shapes self.old.reader)) place))) }
    {
        match values {
            Some(data_type) => {
                let mut arguments = Vec::new(alloc);
                arguments.push(place)?;
                let head = TypeHead::Named(TypeName::Data(TypeId(data_type)));
                let made = self.reader.apply(head, arguments)?;
                Ok(made)
            }
            None => self.variable(0),
        }
    }
}
