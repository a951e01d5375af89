//! Which rows a row reaches.
ghost use Rattle.std.specs.Prelude.{◌≡◌, ◌<◌, true, All, Some, length, slice_get, IfOk, OnOk};
ghost use Rattle.cu_peg.specs.declared.row.Row.{Row};
ghost use Rattle.cu_peg.specs.Inside.Closure.{marked};
ghost use Rattle.cu_peg.specs.Inside.Reached.{IsReached, Spreads};
ghost use Rattle.cu_peg.specs.WellFormed.{named, IsClosed};

use crate::closure::is_marked;
use crate::row::Row;
use std::alloc::{AllocError, Global};

/// Which rows a row reaches: itself, and those that a row names that it
/// reaches.
pub fn reached_rows(alloc: Global, rows: &[Row], start: usize) -> Result<Vec<bool>, AllocError>
    requires closed { IsClosed rows.now }
    requires start { start < length rows.now }
    ensures { IfOk result (λ marks. IsReached rows.now start marks.items) }
{
    let mut marks = vec![in alloc; false; rows.len()]?;
    let mut pending = Vec::new(alloc);
    reach(start, &mut marks, &mut pending)?;
    while let Some(row) = pending.pop() {
        reach_row(rows, row, &mut marks, &mut pending)?;
    }
    Ok(marks)
}

/// Marks the rows that the row of a number names.
fn reach_row(
    rows: &[Row],
    row: usize,
    marks: &mut Vec<bool>,
    pending: &mut Vec<usize>,
) -> Result<(), AllocError>
    requires row { row < length rows.now }
    requires named { (e : Row) → slice_get rows.now row ≡ Some e
        → All (λ p. p < length marks.old.items) (named e) }
    ensures spreads { OnOk result
        (Spreads marks.old.items pending.old.items marks.new.items pending.new.items) }
    ensures reached { (e : Row) → slice_get rows.now row ≡ Some e
        → OnOk result (All (λ p. marked marks.new.items p ≡ true) (named e)) }
{
    reach_named(&rows[row], marks, pending)
}

/// Marks the rows that a row names.
fn reach_named(row: &Row, marks: &mut Vec<bool>, pending: &mut Vec<usize>) -> Result<(), AllocError>
    requires { All (λ p. p < length marks.old.items) (named row.now) }
    ensures spreads { OnOk result
        (Spreads marks.old.items pending.old.items marks.new.items pending.new.items) }
    ensures reached { OnOk result (All (λ p. marked marks.new.items p ≡ true) (named row.now)) }
{
    match row {
        Row::Token(_) => Ok(()),
        Row::Sequence(parts) => reach_all(parts.as_slice(), marks, pending),
        Row::Choice(parts) => reach_all(parts.as_slice(), marks, pending),
        Row::Optional(part) => reach_all([*part].as_slice(), marks, pending),
        Row::Many(part) => reach_all([*part].as_slice(), marks, pending),
        Row::AtLeastOne(part) => reach_all([*part].as_slice(), marks, pending),
        Row::SeparatedBy(part, separator) => {
            reach_all([*part, *separator].as_slice(), marks, pending)
        }
        Row::Ahead(part) => reach_all([*part].as_slice(), marks, pending),
        Row::NotAhead(part) => reach_all([*part].as_slice(), marks, pending),
    }
}

fn reach_all(
    parts: &[u32],
    marks: &mut Vec<bool>,
    pending: &mut Vec<usize>,
) -> Result<(), AllocError>
    requires { All (λ p. p < length marks.old.items) parts.now }
    ensures spreads { OnOk result
        (Spreads marks.old.items pending.old.items marks.new.items pending.new.items) }
    ensures reached { OnOk result (All (λ p. marked marks.new.items p ≡ true) parts.now) }
{
    for part in parts {
        reach(*part as usize, marks, pending)?;
    }
    Ok(())
}

/// Marks a row. One that wasn't marked goes on the list of rows whose parts are
/// still to be marked.
fn reach(row: usize, marks: &mut Vec<bool>, pending: &mut Vec<usize>) -> Result<(), AllocError>
    requires { row < length marks.old.items }
    ensures spreads { OnOk result
        (Spreads marks.old.items pending.old.items marks.new.items pending.new.items) }
    ensures reached { OnOk result (marked marks.new.items row ≡ true) }
{
    if is_marked(marks.as_slice(), row) {
        return Ok(());
    }
    pending.push(row)?;
    marks[row] = true;
    Ok(())
}
