//! Strings in a display.
ghost use Rattle.std.specs.Prelude.{◌≡◌, ◌<◌, ◌≤◌, ◌&&◌, [], ◌∷◌, ◌++◌, if◌then◌else◌, true, IfOk, OnOk, codes, drop, length};
ghost use Rattle.std.specs.String.{string_bytes};
ghost use Rattle.cu_values.specs.Cells.{suffix, first, read_all, IsSpelled};
ghost use Rattle.cu_values.specs.Display.{characters, is_digit, string_text};
ghost use Rattle.cu_values.specs.Inside.Tasks.{are_characters, character_of};

use crate::Cell;
use crate::literals::{is_numeric, push_escaped};
use cu_kernel::Lit;
use std::alloc::AllocError;

/// The character of a cell; where it has none, the character 0.
fn character(cell: Cell) -> char
    ensures { result ≡ character_of cell }
{
    match cell {
        Cell::Lit(Lit::Char(c)) => c,
        _ => '\0',
    }
}

/// Writes `\&` where a digit follows a character that is escaped by its number.
fn push_parting(text: &mut String, after_number: bool, c: char) -> Result<(), AllocError>
    ensures { OnOk result (string_bytes text.new
        ≡ string_bytes text.old ++ (if after_number && is_digit c then 92 ∷ codes "&" else [])) }
{
    if !after_number || !c.is_ascii_digit() {
        return Ok(());
    }
    text.push_str("\\&")
}

/// Writes the characters of a list of characters, and answers the index of the
/// cell after the list.
pub(crate) fn push_string(
    text: &mut String,
    cells: &[Cell],
    start: usize,
) -> Result<usize, AllocError>
    requires spelled { IsSpelled (drop start cells.now) }
    requires within { start < length cells.now }
    requires characters { are_characters (first (read_all (drop start cells.now))) ≡ true }
    ensures text { IfOk result (λ _. string_bytes text.new
        ≡ string_bytes text.old ++ string_text
        (characters (first (read_all (drop start cells.now))))) }
    ensures after { IfOk result (λ next. start < next) }
    ensures within { IfOk result (λ next. next ≤ length cells.now) }
    ensures spelled { IfOk result (λ next. IsSpelled (drop next cells.now)) }
    ensures others { IfOk result (λ next. read_all (drop next cells.now)
        ≡ suffix 1 (read_all (drop start cells.now))) }
{
    let mut at = start;
    let mut after_number = false;
    while cells[at].arity() > 0 {
        let c = character(cells[at + 1]);
        push_parting(text, after_number, c)?;
        push_escaped(text, '"', c)?;
        after_number = is_numeric(c);
        at += 2;
    }
    Ok(at + 1)
}
