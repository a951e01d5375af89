//! Values as lists of cells.
ghost use Rattle.std.specs.Prelude.{◌≡◌, ◌<◌, ◌^◌, ◌↔◌, ◌∷◌, IfOk, IsTrue, length};
ghost use Rattle.cu_calculus.specs.Below.{Below};
ghost use Rattle.cu_calculus.specs.Order.{value_order};
ghost use Rattle.cu_calculus.specs.Shape.{is_data, is_ground, is_total};
ghost use Rattle.cu_calculus.specs.Value as value;
ghost use Rattle.cu_calculus.specs.Value.{list_of, values_of};
ghost use Rattle.cu_values.specs.Approximation.{is_below};
ghost use Rattle.cu_values.specs.Cells.{read, spell, spell_all, IsOneSpelled};
ghost use Rattle.cu_values.specs.Parts.{arguments_of, head_of};
ghost use Rattle.cu_values.specs.Views.{viewed};

use crate::{Cell, ValueRef};
use cu_calculus::{ConId, Head, Lit};
use std::alloc::{AllocError, Global};
use std::cmp::Ordering;
use std::marker::Model;

/// A value, as the list of its cells: a head stands before its arguments.
/// Contracts see the value itself.
#[derive(Debug, Drop)]
pub struct Value {
    cells: Vec<Cell>,
}

impl Model for Value {
    ghost use Rattle.cu_calculus.specs.Value as value;

    ghost Value = { value.Value };

    ghost use Rattle.std.specs.Prelude.{◌≡◌};
    ghost use Rattle.cu_values.specs.Spelling.{value_code};

    ghost coded = { value_code };

    ghost use Rattle.cu_values.specs.Cells.{read, IsOneSpelled};

    ghost view = { λ v. read v.cells.items };

    ghost invariant = { λ v. IsOneSpelled v.cells.items };
}

impl Clone for Value {
    ghost is_clone = { λ v w. w ≡ v };

    fn clone(&self) -> Result<Value, AllocError> {
        let cells = Vec::from_slice(*self.cells.allocator(), self.cells())?;
        Ok(Value::spelled(cells))
    }
}

impl Value {
    /// The value of which nothing is known.
    pub fn bottom(alloc: Global) -> Result<Value, AllocError>
        ensures { IfOk result (λ v. v ≡ value.Bottom) }
    {
        let cells = vec![in alloc; Cell::Bottom]?;
        Ok(Value { cells })
    }

    /// An unbound variable.
    pub fn variable(alloc: Global, number: u32) -> Result<Value, AllocError>
        ensures { IfOk result (λ v. v ≡ value.Variable number) }
    {
        let cells = vec![in alloc; Cell::LVar(number)]?;
        Ok(Value { cells })
    }

    /// A literal.
    pub fn literal(alloc: Global, literal: Lit) -> Result<Value, AllocError>
        ensures { IfOk result (λ v. v ≡ value.Literal literal) }
    {
        let cells = vec![in alloc; Cell::Lit(literal)]?;
        Ok(Value { cells })
    }

    /// A constructor with arguments.
    pub fn constructed(
        alloc: Global,
        constructor: ConId,
        arguments: &[Value],
    ) -> Result<Value, AllocError>
        requires { length arguments.now < 2 ^ 32 }
        ensures { IfOk result (λ v. v ≡ value.Constructed constructor (values_of arguments.now)) }
    {
        let head = Cell::Con(constructor, arguments.len() as u32);
        let cells = applied(alloc, head, arguments)?;
        Ok(Value { cells })
    }

    /// A partial application with its arguments.
    pub fn partial(alloc: Global, head: Head, arguments: &[Value]) -> Result<Value, AllocError>
        requires { length arguments.now < 2 ^ 32 }
        ensures { IfOk result (λ v. v ≡ value.Partial head (values_of arguments.now)) }
    {
        let head = Cell::Part(head, arguments.len() as u32);
        let cells = applied(alloc, head, arguments)?;
        Ok(Value { cells })
    }

    /// The value that cells spell.
    pub fn spelled(cells: Vec<Cell>) -> Value
        requires { IsOneSpelled cells.items }
        ensures read { result ≡ read cells.items }
        ensures cells { spell result ≡ cells.items }
    {
        Value { cells }
    }

    /// The cells, from left to right.
    pub fn cells(&self) -> &[Cell]
        ensures { result.now ≡ spell self.now }
    {
        self.cells.as_slice()
    }

    /// The value where it stands, to be read.
    pub fn view(&self) -> ValueRef<'_>
        ensures { viewed result ≡ self.now }
    {
        ValueRef::spelled(self.cells())
    }

    /// The first cell of the value: its head, with the number of its arguments.
    pub fn head(&self) -> Cell
        ensures { result ≡ head_of self.now }
    {
        self.view().head()
    }

    /// Copies of the arguments of a constructor or a partial application, from
    /// left to right; other values have none. [`Value::view`] reads them where
    /// they stand. The one error is an allocation failure.
    pub fn arguments(&self) -> Result<Vec<Value>, AllocError>
        ensures { IfOk result (λ vs. vs.items ≡ list_of (arguments_of self.now)) }
    {
        let alloc = *self.cells.allocator();
        let mut arguments = Vec::new(alloc);
        let mut left = self.view().arguments();
        while let Some((argument, others)) = left.split_first() {
            arguments.push(argument.copied(alloc)?)?;
            left = others;
        }
        Ok(arguments)
    }

    /// Whether the value is total: Bottom stands nowhere in it.
    pub fn is_total(&self) -> bool
        ensures { result ≡ is_total self.now }
    {
        self.view().is_total()
    }

    /// Whether the value has no partial application in it.
    pub fn is_data(&self) -> bool
        ensures { result ≡ is_data self.now }
    {
        self.view().is_data()
    }

    /// Whether the value is ground data: built of constructors and literals
    /// alone.
    pub fn is_ground_data(&self) -> bool
        ensures { result ≡ is_ground self.now }
    {
        self.view().is_ground_data()
    }

    /// Whether this value approximates another: it says less, and nothing
    /// different.
    pub fn leq(&self, other: &Value) -> bool
        ensures relation { IsTrue result ↔ Below self.now other.now }
        ensures test { result ≡ is_below self.now other.now }
    {
        self.view().leq(other.view())
    }

    /// The order of values: Bottom, variables, partial applications, integers,
    /// characters, constructors; then the arguments from the left.
    pub fn cmp(&self, other: &Value) -> Ordering
        ensures { result ≡ value_order self.now other.now }
    {
        self.view().cmp(other.view())
    }
}

/// The cells of an application.
fn applied(alloc: Global, head: Cell, arguments: &[Value]) -> Result<Vec<Cell>, AllocError>
    ensures { IfOk result (λ cells. cells.items ≡ head ∷ spell_all (values_of arguments.now)) }
{
    let mut cells = vec![in alloc; head]?;
    for argument in arguments {
        cells.extend_from_slice(argument.cells())?;
    }
    Ok(cells)
}
