//! The shapes of values: what the values around a value must know of it to
//! display it.
ghost use Rattle.std.specs.Prelude.{◌≡◌, ◌≤◌, OnOk, length};
ghost use Rattle.cu_calculus.specs.Value as value;
ghost use Rattle.cu_calculus.specs.Value.{Values};
ghost use Rattle.cu_values.specs.Cells.{arity_of, first, prefix, put, IsSpelled};
ghost use Rattle.cu_values.specs.Inside.Shapes.{list_shape, other_shape, shape_of, shapes_at, stacked};
ghost use Rattle.cu_values.specs.Inside.LabelsOf.{labels_meaning};

use crate::Cell;
use crate::labels::ProgramNames;
use cu_kernel::{ConId, Lit};
use std::alloc::AllocError;

/// The shape of a value: how it is written, as far as the values around it must
/// know.
#[derive(Clone, Copy)]
pub(crate) enum Shape {
    /// A character literal.
    Character,
    /// A variable.
    Variable,
    /// The empty list.
    Empty,
    /// A list of characters, at least one.
    Text,
    /// Any other list that has an end.
    List,
    /// A list that ends in a variable.
    Open,
    /// A negative integer or an application with arguments.
    Compound,
    /// Any other value.
    Simple,
}

/// The shape of a `:` with parts of these shapes; `other` where it is no list.
fn list_shape(element: Shape, rest: Shape, other: Shape) -> Shape
    ensures { result ≡ list_shape element rest other }
{
    match (element, rest) {
        (Shape::Character, Shape::Empty | Shape::Text) => Shape::Text,
        (_, Shape::Empty | Shape::Text | Shape::List) => Shape::List,
        (_, Shape::Variable | Shape::Open) => Shape::Open,
        _ => other,
    }
}

impl Shape {
    ghost use Rattle.std.specs.Prelude.{◌≡◌};
    ghost use Rattle.cu_values.specs.Inside.Shapes.{is_enclosed};

    /// Whether a value of this shape stands in parentheses as an argument.
    pub(crate) fn takes_parentheses(self) -> bool
        ensures { result ≡ is_enclosed self }
    {
        matches!(self, Shape::Open | Shape::Compound)
    }
}

/// The shape of a constructor with arguments that is no list.
fn other_shape(names: &ProgramNames, constructor: ConId) -> Shape
    ensures { result ≡ other_shape (labels_meaning names.now) constructor }
{
    if names.is_tuple(constructor) {
        Shape::Simple
    } else {
        Shape::Compound
    }
}

/// The shape of a constructor with arguments. The arguments' shapes are the
/// last ones of the stack, the first argument's last.
fn constructed_shape(names: &ProgramNames, constructor: ConId, arity: u32, after: &[Shape]) -> Shape
    requires { arity ≤ length after.now }
    ensures { (vs : Values) → after.now ≡ stacked (labels_meaning names.now) vs
        → result ≡ shape_of (labels_meaning names.now)
        (value.Constructed constructor (prefix arity vs)) }
{
    if arity == 0 {
        return if constructor == names.nil() {
            Shape::Empty
        } else {
            Shape::Simple
        };
    }
    let other = other_shape(names, constructor);
    if arity == 2 && constructor == names.cons() {
        let nearest = after.len() - 1;
        list_shape(after[nearest], after[nearest - 1], other)
    } else {
        other
    }
}

/// The shape of the value with a head. The shapes of the values after the head
/// are a stack, with that of the next value last.
fn shape_of(names: &ProgramNames, cell: Cell, after: &[Shape]) -> Shape
    requires { arity_of cell ≤ length after.now }
    ensures { (vs : Values) → after.now ≡ stacked (labels_meaning names.now) vs
        → result ≡ shape_of (labels_meaning names.now) (first (put cell vs)) }
{
    match cell {
        Cell::Bottom => Shape::Simple,
        Cell::LVar(_) => Shape::Variable,
        Cell::Lit(Lit::Int(n)) => {
            if n < 0 {
                Shape::Compound
            } else {
                Shape::Simple
            }
        }
        Cell::Lit(Lit::Char(_)) => Shape::Character,
        Cell::Con(constructor, arity) => constructed_shape(names, constructor, arity, after),
        Cell::Part(_, _) => Shape::Simple,
    }
}

/// Finds for each cell the shape of the value that begins there. The shapes of
/// the values that are met are kept on a stack, `after`.
pub(crate) fn find_shapes(
    names: &ProgramNames,
    cells: &[Cell],
    shapes: &mut Vec<Shape>,
    after: &mut Vec<Shape>,
) -> Result<(), AllocError>
    requires { IsSpelled cells.now }
    ensures { OnOk result (shapes.new.items ≡ shapes_at (labels_meaning names.now) cells.now) }
{
    shapes.clear();
    after.clear();
    let mut at = cells.len();
    while at > 0 {
        at -= 1;
        let shape = shape_of(names, cells[at], after.as_slice());
        let others = after.len() - cells[at].arity() as usize;
        after.truncate(others);
        after.push(shape)?;
        shapes.push(shape)?;
    }
    shapes.reverse();
    Ok(())
}
