//! What is written of values.
ghost use Rattle.std.specs.Prelude.{◌≡◌, ◌++◌, OnOk};
ghost use Rattle.std.specs.List.{flat_map};
ghost use Rattle.cu_calculus.specs.Value.{list_of, values_of};
ghost use Rattle.cu_prooftext.specs.Inside.Cells.{cell_after, cell_text, cells_text};
ghost use Rattle.cu_prooftext.specs.Text.{further_text, list_text, value_text};

use crate::parts::{write_count, write_head, write_literal, write_number};
use cu_values::{Cell, Value};
use std::alloc::AllocError;

/// Writes a cell of a value.
fn write_cell(out: &mut Vec<u8>, cell: Cell) -> Result<(), AllocError>
    ensures { OnOk result (out.new.items ≡ out.old.items ++ cell_text cell) }
{
    match cell {
        Cell::Bottom => out.extend_from_slice(b"_"),
        Cell::LVar(variable) => {
            out.extend_from_slice(b"v")?;
            write_number(out, variable as usize)
        }
        Cell::Lit(literal) => write_literal(out, literal),
        Cell::Con(constructor, count) => {
            out.extend_from_slice(b"k")?;
            write_number(out, constructor.0)?;
            write_count(out, count as usize)
        }
        Cell::Part(head, count) => {
            out.extend_from_slice(b"p")?;
            write_head(out, head)?;
            write_count(out, count as usize)
        }
    }
}

/// Writes cells, each after a space.
fn write_cells_after(out: &mut Vec<u8>, cells: &[Cell]) -> Result<(), AllocError>
    ensures { OnOk result (out.new.items ≡ out.old.items ++ flat_map cell_after cells.now) }
{
    for cell in cells {
        out.extend_from_slice(b" ")?;
        write_cell(out, *cell)?;
    }
    Ok(())
}

/// Writes cells, separated by spaces.
fn write_cells(out: &mut Vec<u8>, cells: &[Cell]) -> Result<(), AllocError>
    ensures { OnOk result (out.new.items ≡ out.old.items ++ cells_text cells.now) }
{
    match cells {
        [] => Ok(()),
        [first, parts @ ..] => {
            write_cell(out, *first)?;
            write_cells_after(out, parts)
        }
    }
}

/// Writes a value.
#[tactic(auto, using(crate::proofs::CellTexts::cells_of_value))]
pub(crate) fn write_value(out: &mut Vec<u8>, value: &Value) -> Result<(), AllocError>
    ensures { OnOk result (out.new.items ≡ out.old.items ++ value_text value.now) }
{
    write_cells(out, value.cells())
}

/// Writes values, each after a comma.
fn write_further_values(out: &mut Vec<u8>, values: &[Value]) -> Result<(), AllocError>
    ensures { OnOk result (out.new.items
        ≡ out.old.items ++ flat_map (further_text value_text) values.now) }
{
    for value in values {
        out.extend_from_slice(b",")?;
        write_value(out, value)?;
    }
    Ok(())
}

/// Writes a list of values.
pub(crate) fn write_values(out: &mut Vec<u8>, values: &[Value]) -> Result<(), AllocError>
    ensures { OnOk result (out.new.items ≡ out.old.items ++ list_text value_text values.now) }
{
    match values {
        [] => out.extend_from_slice(b"-"),
        [first, further @ ..] => {
            write_value(out, first)?;
            write_further_values(out, further)
        }
    }
}

/// Writes the arguments of a claim.
pub(crate) fn write_arguments(out: &mut Vec<u8>, arguments: &[Value]) -> Result<(), AllocError>
    ensures { OnOk result (out.new.items
        ≡ out.old.items ++ list_text value_text (list_of (values_of arguments.now))) }
{
    write_values(out, arguments)
}
