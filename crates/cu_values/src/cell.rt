//! The cells that values are made of.
ghost use Rattle.std.specs.Prelude.{◌≡◌};
ghost use Rattle.cu_calculus.specs.Order.{head_order, literal_order};
ghost use Rattle.cu_values.specs.Inside.HeadsOrder.{cell_order, kind_of_cell};

use cu_calculus::{ConId, Head, Lit};
use std::cmp::Ordering;

/// A cell of a value: a head, with the number of its arguments.
#[derive(Clone, Copy, Debug, PartialEq, Eq)]
pub enum Cell {
    /// The value of which nothing is known.
    Bottom,
    /// An unbound variable, by its number.
    LVar(u32),
    /// A literal.
    Lit(Lit),
    /// A constructor, and how many arguments follow.
    Con(ConId, u32),
    /// A partial application: its head, and how many arguments follow.
    Part(Head, u32),
}

impl Cell {
    ghost use Rattle.std.specs.Prelude.{◌≡◌};
    ghost use Rattle.cu_values.specs.Inside.CellKinds.{is_data_cell, is_ground_cell, is_known_cell};
    ghost use Rattle.cu_values.specs.Cells.{arity_of};

    /// How many arguments follow the cell.
    pub fn arity(self) -> u32
        ensures { result ≡ arity_of self }
    {
        match self {
            Cell::Bottom | Cell::LVar(_) | Cell::Lit(_) => 0,
            Cell::Con(_, arity) => arity,
            Cell::Part(_, arity) => arity,
        }
    }

    /// Whether the cell isn't Bottom.
    pub(crate) fn is_known(self) -> bool
        ensures { result ≡ is_known_cell self }
    {
        !matches!(self, Cell::Bottom)
    }

    /// Whether the cell begins no partial application.
    pub(crate) fn is_data(self) -> bool
        ensures { result ≡ is_data_cell self }
    {
        !matches!(self, Cell::Part(_, _))
    }

    /// Whether the cell is a literal or a constructor.
    pub(crate) fn is_ground(self) -> bool
        ensures { result ≡ is_ground_cell self }
    {
        matches!(self, Cell::Lit(_) | Cell::Con(_, _))
    }
}

/// The order of two cells, whatever the numbers of arguments.
pub(crate) fn compare(left: Cell, right: Cell) -> Ordering
    ensures { result ≡ cell_order left right }
{
    match (left, right) {
        (Cell::LVar(x), Cell::LVar(y)) => x.cmp(&y),
        (Cell::Part(head, _), Cell::Part(other, _)) => compare_heads(head, other),
        (Cell::Lit(literal), Cell::Lit(other)) => compare_literals(literal, other),
        (Cell::Con(constructor, _), Cell::Con(other, _)) => constructor.0.cmp(&other.0),
        _ => kind(left).cmp(&kind(right)),
    }
}

/// The number of a cell's kind in the order of values.
fn kind(cell: Cell) -> u32
    ensures { result ≡ kind_of_cell cell }
{
    match cell {
        Cell::Bottom => 0,
        Cell::LVar(_) => 1,
        Cell::Part(_, _) => 2,
        Cell::Lit(_) => 3,
        Cell::Con(_, _) => 4,
    }
}

fn compare_heads(left: Head, right: Head) -> Ordering
    ensures { result ≡ head_order left right }
{
    match (left, right) {
        (Head::Fun(f), Head::Fun(g)) => f.0.cmp(&g.0),
        (Head::Fun(_), _) => Ordering::Less,
        (Head::Con(_), Head::Fun(_)) => Ordering::Greater,
        (Head::Con(c), Head::Con(d)) => c.0.cmp(&d.0),
        (Head::Con(_), Head::Set(_)) => Ordering::Less,
        (Head::Set(f), Head::Set(g)) => f.0.cmp(&g.0),
        (Head::Set(_), _) => Ordering::Greater,
    }
}

fn compare_literals(left: Lit, right: Lit) -> Ordering
    ensures { result ≡ literal_order left right }
{
    match (left, right) {
        (Lit::Int(m), Lit::Int(n)) => m.cmp(&n),
        (Lit::Int(_), Lit::Char(_)) => Ordering::Less,
        (Lit::Char(_), Lit::Int(_)) => Ordering::Greater,
        (Lit::Char(c), Lit::Char(d)) => c.cmp(&d),
    }
}
