//! Which rows match without taking a token, and which rows a row calls before
//! it has taken one.
ghost use Rattle.std.specs.Prelude.{◌≡◌, map, IfOk, length, MatchOption, IsTrue, ◌↔◌, ◌<◌, ℕ, List, Bool};
ghost use Rattle.cu_peg.specs.declared.row.Row.{Row};
ghost use Rattle.cu_peg.specs.Inside.CallTables.{callees, called, calls_by, nullable_by, repeats, TellsNullable};
ghost use Rattle.cu_peg.specs.Order.{IsOrder};
ghost use Rattle.cu_peg.specs.WellFormed.{IsClosed, IsEndless, IsFirstEndless, IsLeftRecursive, IsWellFormed};

use crate::closure::{Condition, Quantifier, is_marked, saturate};
use crate::{Row, RowNumbers};
use std::alloc::{AllocError, Global};

/// Whether each row can match without taking a token.
pub fn nullable_rows(alloc: Global, rows: &[Row]) -> Result<Vec<bool>, AllocError>
    ensures { IfOk result (λ marks. TellsNullable rows.now marks.items) }
{
    let mut conditions = Vec::new(alloc);
    for row in rows {
        conditions.push(nullable_condition(alloc, row)?)?;
    }
    let none = vec![in alloc; false; rows.len()]?;
    let closure = saturate(alloc, conditions.as_slice(), none)?;
    Ok(closure.marks)
}

/// When a row can match without taking a token.
fn nullable_condition(alloc: Global, row: &Row) -> Result<Condition, AllocError>
    ensures { IfOk result (λ condition. condition ≡ nullable_by row.now) }
{
    match row {
        Row::Token(_) => Condition::new(alloc, Quantifier::Any, [].as_slice()),
        Row::Sequence(parts) => Condition::new(alloc, Quantifier::All, parts.as_slice()),
        Row::Choice(parts) => Condition::new(alloc, Quantifier::Any, parts.as_slice()),
        Row::AtLeastOne(part) => Condition::new(alloc, Quantifier::All, [*part].as_slice()),
        Row::SeparatedBy(part, _) => Condition::new(alloc, Quantifier::All, [*part].as_slice()),
        Row::Optional(_) | Row::Many(_) | Row::Ahead(_) | Row::NotAhead(_) => {
            Condition::new(alloc, Quantifier::All, [].as_slice())
        }
    }
}

/// For each row the condition on those that it calls before it has taken a
/// token.
fn call_conditions(
    alloc: Global,
    rows: &[Row],
    nullable: &[bool],
    quantifier: Quantifier,
) -> Result<Vec<Condition>, AllocError>
    ensures { IfOk result (λ conditions. conditions.items
        ≡ map (calls_by quantifier nullable.now) rows.now) }
{
    let mut conditions = Vec::new(alloc);
    for row in rows {
        let numbers = callees(alloc, row, nullable)?;
        conditions.push(Condition {
            quantifier,
            numbers,
        })?;
    }
    Ok(conditions)
}

/// The rows that a row calls before it has taken a token.
fn callees(alloc: Global, row: &Row, nullable: &[bool]) -> Result<RowNumbers, AllocError>
    ensures { IfOk result (λ parts. parts ≡ callees nullable.now row.now) }
{
    let parts = match row {
        Row::Token(_) => Vec::new(alloc),
        Row::Sequence(parts) => called(alloc, parts.as_slice(), nullable)?,
        Row::Choice(parts) => Vec::from_slice(alloc, parts.as_slice())?,
        Row::SeparatedBy(part, separator) => {
            called(alloc, [*part, *separator].as_slice(), nullable)?
        }
        Row::Optional(part) => vec![in alloc; *part]?,
        Row::Many(part) => vec![in alloc; *part]?,
        Row::AtLeastOne(part) => vec![in alloc; *part]?,
        Row::Ahead(part) => vec![in alloc; *part]?,
        Row::NotAhead(part) => vec![in alloc; *part]?,
    };
    Ok(RowNumbers::new(parts))
}

/// The parts of a sequence up to the first that takes a token.
fn called(alloc: Global, parts: &[u32], nullable: &[bool]) -> Result<Vec<u32>, AllocError>
    ensures { IfOk result (λ found. found.items ≡ called nullable.now parts.now) }
{
    let mut prefix = Vec::new(alloc);
    for part in parts {
        prefix.push(*part)?;
        if !is_marked(nullable, *part as usize) {
            return Ok(prefix);
        }
    }
    Ok(prefix)
}

/// The first row that may match without end, if there is one.
pub fn first_endless_row(
    alloc: Global,
    rows: &[Row],
    nullable: &[bool],
) -> Result<Option<usize>, AllocError>
    requires { TellsNullable rows.now nullable.now }
    ensures { IfOk result (λ found. MatchOption found (IsWellFormed rows.now)
        (IsFirstEndless rows.now)) }
{
    let calls = call_conditions(alloc, rows, nullable, Quantifier::Any)?;
    for number in 0..rows.len() {
        if is_endless(alloc, rows, nullable, calls.as_slice(), number)? {
            return Ok(Some(number));
        }
    }
    Ok(None)
}

/// Whether a row may match without end.
fn is_endless(
    alloc: Global,
    rows: &[Row],
    nullable: &[bool],
    calls: &[Condition],
    number: usize,
) -> Result<bool, AllocError>
    requires nullable { TellsNullable rows.now nullable.now }
    requires calls { calls.now ≡ map (calls_by Quantifier.Any nullable.now) rows.now }
    requires number { number < length rows.now }
    ensures { IfOk result (λ found. IsTrue found ↔ IsEndless rows.now number) }
{
    if repeats_nullable(&rows[number], nullable) {
        return Ok(true);
    }
    calls_itself(alloc, calls, number)
}

/// Whether a row repeats a part that can match without taking a token.
fn repeats_nullable(row: &Row, nullable: &[bool]) -> bool
    ensures { result ≡ repeats nullable.now row.now }
{
    match row {
        Row::Many(part) => is_marked(nullable, *part as usize),
        Row::AtLeastOne(part) => is_marked(nullable, *part as usize),
        Row::SeparatedBy(part, separator) => {
            is_marked(nullable, *part as usize) && is_marked(nullable, *separator as usize)
        }
        _ => false,
    }
}

/// Whether a row calls itself, over others or not, by conditions on the rows
/// that each row calls.
fn calls_itself(alloc: Global, calls: &[Condition], number: usize) -> Result<bool, AllocError>
    requires { number < length calls.now }
    ensures { (rows : List Row) (nullable : List Bool) → TellsNullable rows nullable
        → calls.now ≡ map (calls_by Quantifier.Any nullable) rows
        → IfOk result (λ found. IsTrue found ↔ IsLeftRecursive rows number) }
{
    let mut itself = vec![in alloc; false; calls.len()]?;
    itself[number] = true;
    let closure = saturate(alloc, calls, itself)?;
    Ok(calls[number].holds(closure.marks.as_slice()))
}

/// All rows, each after those that it calls before it takes a token.
pub fn call_order(alloc: Global, rows: &[Row], nullable: &[bool]) -> Result<Vec<usize>, AllocError>
    requires nullable { TellsNullable rows.now nullable.now }
    requires closed { IsClosed rows.now }
    requires well_formed { IsWellFormed rows.now }
    ensures { IfOk result (λ order. IsOrder rows.now order.items) }
{
    let calls = call_conditions(alloc, rows, nullable, Quantifier::All)?;
    let none = vec![in alloc; false; rows.len()]?;
    let closure = saturate(alloc, calls.as_slice(), none)?;
    Ok(closure.order)
}
