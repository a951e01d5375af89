//! The ends of rows.
ghost use Rattle.std.specs.Prelude.{◌≡◌, ◌≤◌, ◌-◌, ◌+◌, ℕ, List, length, map, OnOk, Some};
ghost use Rattle.std.specs.Option.{option_and_then};
ghost use Rattle.cu_lex.specs.Reading.{lexeme_of};
ghost use Rattle.cu_peg.specs.Inside.Ends.{alone, choice_end, end_at, IsRight, joined, row_end, sequence_end, with_nodes};
ghost use Rattle.cu_peg.specs.Inside.Closure.{marked};
ghost use Rattle.cu_peg.specs.Order.{IsGrammar};
ghost use Rattle.cu_peg.specs.Inside.Reached.{kept, kept_row};
ghost use Rattle.cu_peg.specs.Result.{has_at};

use crate::closure::is_marked;
use crate::row::Row;
use crate::table::{End, Table};
use cu_lex::Token;
use std::alloc::{AllocError, Global};

/// A place of a text: the last `left` of its tokens stand after it.
#[derive(Clone, Copy)]
pub struct TextPlace<'t> {
    pub tokens: &'t [Token],
    pub left: usize,
}

/// The rows of a grammar, of which some are marked. Each other row matches
/// nothing.
#[derive(Clone, Copy)]
pub struct MarkedRows<'r> {
    pub rows: &'r [Row],
    pub marks: &'r [bool],
}

/// The end of a row at a place. The table has the ends of the rows that it calls
/// there, and all ends where fewer tokens are left.
pub fn row_end(row: &Row, number: usize, table: &Table, place: TextPlace<'_>) -> Option<End>
    requires { place.left ≤ length place.tokens.now }
    ensures { (names : List (List ℕ)) → result
        ≡ row_end (λ c. has_at (map (lexeme_of names) place.entry.tokens.now) c
        (length place.entry.tokens.now - place.entry.left))
        (end_at table.now.columns) row.now number place.entry.left }
{
    let tokens = place.tokens;
    let left = place.left;
    match row {
        Row::Token(class) => {
            if left > 0 && class.has(&tokens[tokens.len() - left]) {
                return Some(alone(left - 1));
            }
            None
        }
        Row::Sequence(parts) => sequence_end(parts.as_slice(), table, left),
        Row::Choice(parts) => choice_end(parts.as_slice(), table, left),
        Row::Optional(part) => match table.end(*part as usize, left) {
            Some(end) => Some(with_nodes(1, end)),
            None => Some(alone(left)),
        },
        Row::Many(part) => match table.end(*part as usize, left) {
            Some(end) => Some(with_nodes(end.nodes, table.end(number, end.left)?)),
            None => Some(alone(left)),
        },
        Row::AtLeastOne(part) => {
            let end = table.end(*part as usize, left)?;
            Some(joined(end, table.end(number, end.left)))
        }
        Row::SeparatedBy(part, separator) => {
            let end = table.end(*part as usize, left)?;
            Some(joined(end, after(*separator, number, table, end.left)))
        }
        Row::Ahead(part) => match table.end(*part as usize, left) {
            Some(_) => Some(alone(left)),
            None => None,
        },
        Row::NotAhead(part) => match table.end(*part as usize, left) {
            Some(_) => None,
            None => Some(alone(left)),
        },
    }
}

/// The end of a tree of one node.
fn alone(left: usize) -> End
    ensures { result ≡ alone left }
{
    End { left, nodes: 1 }
}

/// An end with more nodes.
fn with_nodes(nodes: usize, end: End) -> End
    ensures { result ≡ with_nodes nodes end }
{
    End {
        left: end.left,
        nodes: nodes.saturating_add(end.nodes),
    }
}

/// The end of a part and of the parts after it, if there are any, as one tree.
fn joined(end: End, others: Option<End>) -> End
    ensures { result ≡ joined end others }
{
    match others {
        Some(others) => with_nodes(end.nodes, others),
        None => with_nodes(1, end),
    }
}

/// The end of a row that follows a separator.
fn after(separator: u32, number: usize, table: &Table, left: usize) -> Option<End>
    ensures { result ≡ option_and_then (λ between. end_at table.now.columns number between.left)
        (end_at table.now.columns separator left) }
{
    let between = table.end(separator as usize, left)?;
    table.end(number, between.left)
}

/// The end of a sequence's parts, matched one after another.
fn sequence_end(parts: &[u32], table: &Table, left: usize) -> Option<End>
    ensures { result ≡ sequence_end (end_at table.now.columns) parts.now (alone left) }
{
    let mut end = alone(left);
    for part in parts {
        let next = table.end(*part as usize, end.left)?;
        end = with_nodes(end.nodes, next);
    }
    Some(end)
}

/// The end of the first part that matches.
fn choice_end(parts: &[u32], table: &Table, left: usize) -> Option<End>
    ensures { result ≡ choice_end (end_at table.now.columns) parts.now left }
{
    for part in parts {
        if let Some(end) = table.end(*part as usize, left) {
            return Some(with_nodes(1, end));
        }
    }
    None
}

/// The end of a row at a place, and none where the row isn't among those that
/// are asked for.
fn kept_end(
    row: &Row,
    number: usize,
    marks: &[bool],
    table: &Table,
    place: TextPlace<'_>,
) -> Option<End>
    requires { place.left ≤ length place.tokens.now }
    ensures { (names : List (List ℕ)) → result
        ≡ row_end (λ c. has_at (map (lexeme_of names) place.entry.tokens.now) c
        (length place.entry.tokens.now - place.entry.left)) (end_at table.now.columns)
        (kept_row (marked marks.now number) row.now) number place.entry.left }
{
    if !is_marked(marks, number) {
        return None;
    }
    row_end(row, number, table, place)
}

/// Adds the ends of the rows that are marked where one token more is left.
pub fn add_place(
    alloc: Global,
    grammar: MarkedRows<'_>,
    order: &[usize],
    tokens: &[Token],
    table: &mut Table,
) -> Result<(), AllocError>
    requires rows { IsGrammar grammar.rows.now order.now }
    requires wide { table.old.width ≡ length grammar.rows.now }
    requires place { length table.old.columns ≤ length tokens.now }
    requires right { (names : List (List ℕ))
        → IsRight (kept grammar.marks.now grammar.rows.now)
        (has_at (map (lexeme_of names) tokens.now)) (length tokens.now) table.old.columns }
    ensures wide { OnOk result (table.new.width ≡ length grammar.entry.rows.now) }
    ensures long { OnOk result (length table.new.columns ≡ length table.old.columns + 1) }
    ensures right { (names : List (List ℕ))
        → OnOk result (IsRight (kept grammar.entry.marks.now grammar.entry.rows.now)
        (has_at (map (lexeme_of names) tokens.now)) (length tokens.now) table.new.columns) }
{
    let rows = grammar.rows;
    let marks = grammar.marks;
    let left = table.len();
    table.add_column(alloc)?;
    for row in order {
        let place = TextPlace { tokens, left };
        let end = kept_end(&rows[*row], *row, marks, table, place);
        table.set(*row, end);
    }
    Ok(())
}
