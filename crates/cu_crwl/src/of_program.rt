//! Values, terms and claims of a program.
ghost use Rattle.std.specs.Prelude.{◌≡◌, ◌&&◌, IfOk};
ghost use Rattle.std.specs.List.{list_all};
ghost use Rattle.cu_calculus.specs.Proof.{are_rising, is_claim_of, is_statement_of};
ghost use Rattle.cu_crwl.specs.Meaning.{claim_of, statement_of};
ghost use Rattle.cu_calculus.specs.Literal.{is_literal};
ghost use Rattle.cu_calculus.specs.Shape.{is_of};
ghost use Rattle.cu_kernel.specs.Heads.{heads_program};
ghost use Rattle.cu_crwl.specs.Inside.CellsOf.{cell_is_of};

use crate::apply::function;
use crate::{Claim, Statement};
use cu_kernel::{Head, Heads, Int, Lit};
use cu_values::{Cell, Value};
use std::alloc::AllocError;

/// Whether a value is one of the program.
pub(crate) fn is_of(heads: &Heads, value: &Value) -> bool
    ensures { result ≡ is_of (heads_program heads.now) value.now }
{
    cells_are_of(heads, value.cells())
}

/// Whether cells are those of values of the program.
fn cells_are_of(heads: &Heads, cells: &[Cell]) -> bool
    ensures { result ≡ list_all (cell_is_of (heads_program heads.now)) cells.now }
{
    for cell in cells {
        if !cell_is_of(heads, *cell) {
            return false;
        }
    }
    true
}

/// Whether all values are the program's.
fn all_of(heads: &Heads, values: &[Value]) -> bool
    ensures { result ≡ list_all (is_of (heads_program heads.now)) values.now }
{
    for value in values {
        if !is_of(heads, value) {
            return false;
        }
    }
    true
}

/// Whether the values of bindings are the program's.
fn bindings_are_of(heads: &Heads, bindings: &[(u32, Value)]) -> bool
    ensures { result ≡ list_all (λ b. is_of (heads_program heads.now) b.1) bindings.now }
{
    for binding in bindings {
        if !is_of(heads, &binding.1) {
            return false;
        }
    }
    true
}

/// Whether bindings stand in rising order of their variables.
fn rise(bindings: &[(u32, Value)]) -> bool
    ensures { result ≡ are_rising bindings.now }
{
    for i in 1..bindings.len() {
        if bindings[i - 1].0 >= bindings[i].0 {
            return false;
        }
    }
    true
}

/// Whether a claim is one of the program.
pub(crate) fn claim_is_of(heads: &Heads, claim: &Claim) -> bool
    ensures { result ≡ is_claim_of (heads_program heads.now) (claim_of claim.now) }
{
    match function(heads, claim.function) {
        Some(_) => values_are_of(heads, claim),
        None => false,
    }
}

/// Whether the values of a claim are the program's.
fn values_are_of(heads: &Heads, claim: &Claim) -> bool
    ensures { result ≡ (list_all (is_of (heads_program heads.now)) claim.now.arguments.items
        && list_all (is_of (heads_program heads.now)) claim.now.values.items) }
{
    all_of(heads, &claim.arguments) && all_of(heads, &claim.values)
}

/// Whether a statement is one of the program.
pub(crate) fn statement_is_of(heads: &Heads, statement: &Statement) -> Result<bool, AllocError>
    ensures { IfOk result (λ yes. yes ≡ is_statement_of (heads_program heads.now)
        (statement_of statement.now)) }
{
    if !rise(&statement.env) {
        return Ok(false);
    }
    if !bindings_are_of(heads, &statement.env) {
        return Ok(false);
    }
    if !heads.fits(&statement.term)? {
        return Ok(false);
    }
    Ok(is_of(heads, &statement.value))
}

/// Whether a cell of a value is one of the program.
fn cell_is_of(heads: &Heads, cell: Cell) -> bool
    ensures { result ≡ cell_is_of (heads_program heads.now) cell }
{
    match cell {
        Cell::Bottom => true,
        Cell::LVar(_) => true,
        Cell::Lit(literal) => literal_is_of(literal),
        Cell::Con(constructor, count) => heads.takes(Head::Con(constructor), count as usize),
        Cell::Part(head, count) => { heads.allows(head) && heads.takes_more(head, count as usize) }
    }
}

/// Whether a literal is one of the language, which its type makes sure of.
fn literal_is_of(literal: Lit) -> bool
    ensures { result ≡ is_literal literal }
{
    match literal {
        Lit::Int(number) => Int::MIN <= number && number <= Int::MAX,
        Lit::Char(character) => {
            let code = u32::from(character);
            code < 0xD800 || (code >= 0xE000 && code < 0x110000)
        }
    }
}
