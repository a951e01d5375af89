//! Trees read off the table of ends.
ghost use Rattle.std.specs.Prelude.{◌≡◌, ◌<◌, ◌≤◌, ◌+◌, ◌-◌, ◌^◌, ◌++◌, ◌∷◌, [], ℕ, List, if◌then◌else◌, is_some, IfOk, length, map, None, OnOk, Some, slice_get};
ghost use Rattle.std.specs.Option.{option_to_list};
ghost use Rattle.cu_lex.specs.Reading.{lexeme_of};
ghost use Rattle.cu_peg.specs.declared.row.Row.{Row};
ghost use Rattle.cu_peg.specs.Inside.Cursors.{cursor, first_alternative, first_parts, form_of, next_part, next_parts, node_of, part_at};
ghost use Rattle.cu_peg.specs.Inside.Ends.{end_at, last};
ghost use Rattle.cu_peg.specs.Matches.{HasTree};
ghost use Rattle.cu_peg.specs.Parse.{ParseTree, spelled};
ghost use Rattle.cu_peg.specs.Inside.Reached.{IsTableOf};
ghost use Rattle.cu_peg.specs.Result.{has_at};

use crate::node::{Form, Node};
use crate::row::Row;
use crate::table::{End, Table};
use cu_lex::Token;
use std::alloc::{AllocError, Global};

/// The parts of a row that are still to be read: all from one on, of which
/// there is one at least.
#[derive(Clone, Copy, Debug)]
pub struct Cursor {
    /// The number of the row.
    pub row: usize,
    /// The number of the next part, or of the alternative.
    pub part: usize,
    /// How many tokens are left where that part begins.
    pub left: usize,
}

/// The number of the first alternative that matches.
fn first_alternative(parts: &[u32], table: &Table, left: usize) -> Option<usize>
    ensures { result ≡ first_alternative (end_at table.now.columns) parts.now left }
{
    for (number, part) in parts.iter().enumerate() {
        if table.end(*part as usize, left).is_some() {
            return Some(number);
        }
    }
    None
}

/// The parts of a row where some tokens are left, if it has any.
fn first_parts(row: &Row, number: usize, table: &Table, left: usize) -> Option<Cursor>
    ensures { result ≡ first_parts (end_at table.now.columns) row.now number left }
{
    let first = Cursor {
        row: number,
        part: 0,
        left,
    };
    let has_parts = match row {
        Row::Token(_) => false,
        Row::Sequence(parts) => !parts.as_slice().is_empty(),
        Row::Choice(parts) => {
            let part = first_alternative(parts.as_slice(), table, left)?;
            return Some(Cursor {
                row: number,
                part,
                left,
            });
        }
        Row::Optional(part) => table.end(*part as usize, left).is_some(),
        Row::Many(part) => table.end(*part as usize, left).is_some(),
        Row::AtLeastOne(_) => true,
        Row::SeparatedBy(_, _) => true,
        Row::Ahead(_) => false,
        Row::NotAhead(_) => false,
    };
    if has_parts { Some(first) } else { None }
}

/// The row of a part.
fn part_at(row: &Row, part: usize) -> Option<usize>
    ensures { result ≡ part_at row.now part }
{
    match row {
        Row::Sequence(parts) => number_at(parts.as_slice(), part),
        Row::Choice(parts) => number_at(parts.as_slice(), part),
        Row::Optional(part) => Some(*part as usize),
        Row::Many(part) => Some(*part as usize),
        Row::AtLeastOne(part) => Some(*part as usize),
        Row::SeparatedBy(part, _) => Some(*part as usize),
        _ => None,
    }
}

fn number_at(parts: &[u32], part: usize) -> Option<usize>
    ensures { result ≡ slice_get parts.now part }
{
    let number = parts.get(part)?;
    Some(*number as usize)
}

/// The parts that follow the first of some parts, which leaves some tokens, if
/// there are any.
fn next_parts(row: &Row, parts: Cursor, table: &Table, left: usize) -> Option<Cursor>
    ensures { result ≡ next_parts (end_at table.now.columns) row.now parts left }
{
    match row {
        Row::Sequence(numbers) => {
            let count = numbers.as_slice().len();
            if parts.part < count && parts.part + 1 < count {
                return Some(Cursor {
                    row: parts.row,
                    part: parts.part + 1,
                    left,
                });
            }
            None
        }
        Row::Many(part) => again(parts.row, *part, table, left),
        Row::AtLeastOne(part) => again(parts.row, *part, table, left),
        Row::SeparatedBy(part, separator) => {
            let after = table.end(*separator as usize, left)?;
            again(parts.row, *part, table, after.left)
        }
        _ => None,
    }
}

/// The parts that a row has again, where its part matches.
fn again(row: usize, part: u32, table: &Table, left: usize) -> Option<Cursor>
    ensures { result ≡ (if is_some (end_at table.now.columns part left)
        then Some (cursor row 0 left) else None) }
{
    if table.end(part as usize, left).is_some() {
        return Some(Cursor { row, part: 0, left });
    }
    None
}

/// What the node of a row is, where some of the tokens are left.
fn form_of(row: &Row, table: &Table, tokens: usize, left: usize) -> Form
    requires { left ≤ tokens }
    ensures { result ≡ form_of (end_at table.now.columns) row.now tokens left }
{
    match row {
        Row::Token(_) => Form::Leaf(tokens - left),
        Row::Choice(parts) => {
            Form::Chosen(first_alternative(parts.as_slice(), table, left).unwrap_or(0))
        }
        _ => Form::Parts,
    }
}

/// Puts parts on top of others, if there are any.
fn push_parts(pending: &mut Vec<Cursor>, parts: Option<Cursor>) -> Result<(), AllocError>
    ensures { OnOk result (pending.new.items ≡ pending.old.items ++ option_to_list parts) }
{
    if let Some(parts) = parts {
        pending.push(parts)?;
    }
    Ok(())
}

/// The row of the first of some parts, and the parts after it, if there are
/// any.
fn next_part(rows: &[Row], table: &Table, parts: Cursor) -> Option<(usize, Option<Cursor>)>
    ensures { (e : Row) → slice_get rows.now parts.row ≡ Some e
        → result ≡ next_part (end_at table.now.columns) e parts }
{
    let row = rows.get(parts.row)?;
    let part = part_at(row, parts.part)?;
    let end = table.end(part, parts.left)?;
    Some((part, next_parts(row, parts, table, end.left)))
}

/// A table of ends that is filled, with the rows and the tokens that it tells
/// of.
#[derive(Clone, Copy)]
pub struct FilledTable<'a> {
    pub rows: &'a [Row],
    pub table: &'a Table,
    pub tokens: &'a [Token],
}

impl FilledTable<'_> {
    /// Adds the node of a row where some of the tokens are left, and puts its
    /// parts on top.
    fn visit(
        self,
        nodes: &mut Vec<Node>,
        pending: &mut Vec<Cursor>,
        number: usize,
        left: usize,
    ) -> Result<(), AllocError>
        requires row { number < length self.rows.now }
        requires left { left ≤ length self.tokens.now }
        ensures nodes { (e : Row) → slice_get self.entry.rows.now number ≡ Some e
            → OnOk result (nodes.new.items ≡ nodes.old.items
            ++ node_of (end_at self.entry.table.now.columns) e number
            (length self.entry.tokens.now) left ∷ []) }
        ensures parts { (e : Row) → slice_get self.entry.rows.now number ≡ Some e
            → OnOk result (pending.new.items
            ≡ pending.old.items ++ option_to_list
            (first_parts (end_at self.entry.table.now.columns) e number left)) }
    {
        let row = &self.rows[number];
        let form = form_of(row, self.table, self.tokens.len(), left);
        let size = match self.table.end(number, left) {
            Some(end) => end.nodes,
            None => 0,
        };
        nodes.push(Node { form, size })?;
        push_parts(pending, first_parts(row, number, self.table, left))
    }

    /// The nodes of the tree of a row that matches all tokens.
    pub fn read(self, alloc: Global, start: usize, end: End) -> Result<Vec<Node>, AllocError>
        requires right { IsTableOf self.rows.now start self.tokens.now self.table.now.columns }
        requires long { length self.table.now.columns ≡ length self.tokens.now + 1 }
        requires start { start < length self.rows.now }
        requires end { end_at self.table.now.columns start (length self.tokens.now) ≡ Some end }
        requires all { end.left ≡ 0 }
        requires few { end.nodes < 2 ^ 64 - 1 }
        ensures { (names : List (List ℕ)) (tree : ParseTree ℕ)
            → HasTree self.entry.rows.now (has_at (map (lexeme_of names) self.entry.tokens.now))
            start (last (length self.entry.tokens.now) (length self.entry.tokens.now)) tree
            → IfOk result (λ nodes. nodes.items ≡ spelled tree) }
    {
        let mut nodes = Vec::new(alloc);
        let mut pending = Vec::new(alloc);
        self.visit(&mut nodes, &mut pending, start, self.tokens.len())?;
        while let Some(parts) = pending.pop() {
            let Some(found) = next_part(self.rows, self.table, parts) else {
                unreachable!()
            };
            let (part, next) = found;
            push_parts(&mut pending, next)?;
            self.visit(&mut nodes, &mut pending, part, parts.left)?;
        }
        Ok(nodes)
    }
}
