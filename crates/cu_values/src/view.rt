//! Reading values where they stand.
ghost use Rattle.std.specs.Prelude.{◌≡◌, ◌↔◌, ◌<◌, ◌≤◌, IfOk, IsTrue, drop, length, option_map, take};
ghost use Rattle.cu_calculus.specs.Below.{Below};
ghost use Rattle.cu_calculus.specs.Order.{value_order};
ghost use Rattle.cu_calculus.specs.Shape.{is_data, is_ground, is_total};
ghost use Rattle.cu_calculus.specs.Value.{count as number_of};
ghost use Rattle.cu_values.specs.Approximation.{is_below};
ghost use Rattle.cu_values.specs.Cells.{suffix, first, read, read_all, spell, spell_all, IsOneSpelled, IsSpelled};
ghost use Rattle.cu_values.specs.Parts.{arguments_of, head_of, split};
ghost use Rattle.cu_values.specs.Views.{all_viewed, both_viewed, viewed};

use crate::Value;
use crate::cell::{Cell, compare};
use crate::views::{ValueRef, ValuesRef};
use crate::walk::{Pairs, end_of};
use std::alloc::{AllocError, Global};
use std::cmp::Ordering;

impl<'a> ValueRef<'a> {
    /// The value that cells spell.
    pub fn spelled(cells: &'a [Cell]) -> ValueRef<'a>
        requires { IsOneSpelled cells.now }
        ensures read { viewed result ≡ read cells.now }
        ensures cells { spell (viewed result) ≡ cells.now }
    {
        ValueRef { cells }
    }

    /// The cells, from left to right.
    pub fn cells(self) -> &'a [Cell]
        ensures { result.now ≡ spell (viewed self.entry) }
    {
        self.cells
    }

    /// A copy of the value. The one error is an allocation failure.
    pub fn copied(self, alloc: Global) -> Result<Value, AllocError>
        ensures { IfOk result (λ v. v ≡ viewed self.entry) }
    {
        let cells = Vec::from_slice(alloc, self.cells())?;
        Ok(Value::spelled(cells))
    }

    /// The first cell of the value: its head, with the number of its arguments.
    pub fn head(self) -> Cell
        ensures { result ≡ head_of (viewed self.entry) }
    {
        self.cells()[0]
    }

    /// The arguments of a constructor or a partial application; other values
    /// have none.
    pub fn arguments(self) -> ValuesRef<'a>
        ensures { all_viewed result ≡ arguments_of (viewed self.entry) }
    {
        let cells = self.cells();
        ValuesRef {
            cells: &cells[1..],
            count: cells[0].arity() as usize,
        }
    }

    /// Whether the value is total: Bottom stands nowhere in it.
    pub fn is_total(self) -> bool
        ensures { result ≡ is_total (viewed self.entry) }
    {
        self.cells().iter().all(|cell| cell.is_known())
    }

    /// Whether the value has no partial application in it.
    pub fn is_data(self) -> bool
        ensures { result ≡ is_data (viewed self.entry) }
    {
        self.cells().iter().all(|cell| cell.is_data())
    }

    /// Whether the value is ground data: built of constructors and literals
    /// alone.
    pub fn is_ground_data(self) -> bool
        ensures { result ≡ is_ground (viewed self.entry) }
    {
        self.cells().iter().all(|cell| cell.is_ground())
    }

    /// Whether this value approximates another: it says less, and nothing
    /// different.
    pub fn leq(self, other: ValueRef<'_>) -> bool
        ensures relation { IsTrue result ↔ Below (viewed self.entry) (viewed other.entry) }
        ensures test { result ≡ is_below (viewed self.entry) (viewed other.entry) }
    {
        let cells = self.cells();
        let others = other.cells();
        let mut at = 0;
        for cell in cells {
            if *cell == Cell::Bottom {
                at = end_of(others, at);
                continue;
            }
            if others[at] != *cell {
                return false;
            }
            at += 1;
        }
        true
    }

    /// The order of values: Bottom, variables, partial applications, integers,
    /// characters, constructors; then the arguments from the left.
    pub fn cmp(self, other: ValueRef<'_>) -> Ordering
        ensures { result ≡ value_order (viewed self.entry) (viewed other.entry) }
    {
        let cells = self.cells();
        let others = other.cells();
        let mut pairs = Pairs::one();
        let mut i = 0;
        while pairs.left > 0 {
            let order = compare(cells[i], others[i]);
            if order != Ordering::Equal {
                return order;
            }
            pairs = pairs.after(cells[i].arity(), others[i].arity());
            i += 1;
        }
        pairs.last
    }
}

/// The index of the cell after the first of so many values. Finding that of a
/// last one needs no walk.
fn end_of_first(cells: &[Cell], count: usize) -> usize
    requires spelled { IsSpelled cells.now }
    requires counted { count ≡ number_of (read_all cells.now) }
    requires some { 0 < count }
    ensures within { result ≤ length cells.now }
    ensures first { take result cells.now ≡ spell (first (read_all cells.now)) }
    ensures others { drop result cells.now ≡ spell_all (suffix 1 (read_all cells.now)) }
{
    if count == 1 {
        return cells.len();
    }
    end_of(cells, 0)
}

impl<'a> ValuesRef<'a> {
    /// How many values these are.
    pub fn len(self) -> usize
        ensures { result ≡ number_of (all_viewed self.entry) }
    {
        self.count
    }

    /// The first value and those after it, where there is one. Takes no time
    /// for the last value; else in proportion to the first one's cells.
    pub fn split_first(self) -> Option<(ValueRef<'a>, ValuesRef<'a>)>
        ensures { option_map both_viewed result ≡ split (all_viewed self.entry) }
    {
        if self.count == 0 {
            return None;
        }
        let end = end_of_first(self.cells, self.count);
        let first = ValueRef {
            cells: &self.cells[..end],
        };
        let others = ValuesRef {
            cells: &self.cells[end..],
            count: self.count - 1,
        };
        Some((first, others))
    }
}
