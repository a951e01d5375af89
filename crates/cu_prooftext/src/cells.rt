//! Values in a text.
ghost use Rattle.std.specs.Prelude.{◌≡◌, ◌+◌, ◌^◌, ◌<◌, ◌≤◌, ◌∷◌, []};
ghost use Rattle.cu_prooftext.specs.Inside.Loops.{with_front};
ghost use Rattle.cu_values.specs.Cells.{arity_of};
ghost use Rattle.cu_prooftext.specs.Inside.Gives.{Gives};
ghost use Rattle.cu_prooftext.specs.Inside.Reading.{cell_at, cells_at, constructor_cell_at, needed_after, next_cell, partial_cell_at, small_count, value_at};

use crate::fault::Fault;
use crate::heads::{character_at, head_at, integer_at};
use crate::numbers::{Read, after_word, index_at, small_at};
use cu_kernel::ConId;
use cu_values::{Cell, Value};
use std::alloc::Global;

/// How many arguments of a value follow.
fn count_at(bytes: &[u8]) -> Read<'_, u32>
    ensures { Gives (λ x. (x.0, x.1.now)) result (small_count bytes.now) }
{
    let digits = after_word(bytes, b"/")?;
    small_at(digits)
}

/// A constructor and how many arguments it has, after its mark.
fn constructor_at(bytes: &[u8]) -> Read<'_, Cell>
    ensures { Gives (λ x. (x.0, x.1.now)) result (constructor_cell_at bytes.now) }
{
    let (constructor, rest) = index_at(bytes)?;
    let (count, rest) = count_at(rest)?;
    Ok((Cell::Con(ConId(constructor), count), rest))
}

/// A partial application and how many arguments it has, after its mark.
fn partial_at(bytes: &[u8]) -> Read<'_, Cell>
    ensures { Gives (λ x. (x.0, x.1.now)) result (partial_cell_at bytes.now) }
{
    let (head, rest) = head_at(bytes)?;
    let (count, rest) = count_at(rest)?;
    Ok((Cell::Part(head, count), rest))
}

/// A cell of a value.
fn cell_at(bytes: &[u8]) -> Read<'_, Cell>
    ensures { Gives (λ x. (x.0, x.1.now)) result (cell_at bytes.now) }
{
    match bytes {
        [b'_', rest @ ..] => Ok((Cell::Bottom, rest)),
        [b'v', after @ ..] => {
            let (variable, rest) = small_at(after)?;
            Ok((Cell::LVar(variable), rest))
        }
        [b'i', after @ ..] => {
            let (literal, rest) = integer_at(after)?;
            Ok((Cell::Lit(literal), rest))
        }
        [b'h', after @ ..] => {
            let (literal, rest) = character_at(after)?;
            Ok((Cell::Lit(literal), rest))
        }
        [b'k', after @ ..] => constructor_at(after),
        [b'p', after @ ..] => partial_at(after),
        _ => Err(Fault::Left(bytes.len())),
    }
}

/// A cell of a value after a space.
fn next_cell_at(bytes: &[u8]) -> Read<'_, Cell>
    ensures { Gives (λ x. (x.0, x.1.now)) result (next_cell 0 bytes.now) }
{
    let rest = after_word(bytes, b" ")?;
    cell_at(rest)
}

/// How many cells of values are needed after a cell, of so many before it.
fn needed_after(needed: u128, cell: Cell) -> u128
    requires some { 0 < needed }
    requires small { needed ≤ 2 ^ 126 }
    ensures exact { result ≡ needed_after needed cell }
    ensures bound { result < needed + 2 ^ 32 }
{
    (needed - 1) + cell.arity() as u128
}

/// The cells of a value, the first of which is read already.
fn cells_from(alloc: Global, first: Cell, bytes: &[u8]) -> Read<'_, Vec<Cell>>
    ensures { Gives (λ x. (x.0.items, x.1.now)) result
        (with_front (first ∷ []) (cells_at (arity_of first) bytes.now)) }
{
    let mut cells = Vec::new(alloc);
    cells.push(first)?;
    let mut needed = first.arity() as u128;
    let mut rest = bytes;
    while needed > 0 {
        let (cell, after) = next_cell_at(rest)?;
        cells.push(cell)?;
        needed = needed_after(needed, cell);
        rest = after;
    }
    Ok((cells, rest))
}

/// A value.
pub(crate) fn value_at(alloc: Global, bytes: &[u8]) -> Read<'_, Value>
    ensures { Gives (λ x. (x.0, x.1.now)) result (value_at bytes.now) }
{
    let (first, rest) = cell_at(bytes)?;
    let (cells, rest) = cells_from(alloc, first, rest)?;
    Ok((Value::spelled(cells), rest))
}
