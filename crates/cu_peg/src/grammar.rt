//! Grammars.
ghost use Rattle.std.specs.Prelude.{◌≡◌, ◌+◌, ℕ, IfErr, IfOk, List, OnOk, length, map, nat_lt};
ghost use Rattle.std.specs.List.{list_all};
ghost use Rattle.cu_lex.specs.Reading.{lexeme_of};
ghost use Rattle.cu_peg.specs.Inside.Ends.{IsRight};
ghost use Rattle.cu_peg.specs.Inside.Reached.{kept};
ghost use Rattle.cu_peg.specs.Result.{has_at};
ghost use Rattle.cu_peg.specs.WellFormed.{IsClosed, IsWellFormed, is_closed, named};
ghost use Rattle.cu_peg.specs.declared.grammar.BadGrammar.TheVariants.{NoMemory};
ghost use Rattle.cu_peg.specs.Answer.{TellsEndless};

use crate::Row;
use crate::calls::{call_order, first_endless_row, nullable_rows};
use crate::closure::is_marked;
use crate::ends::{MarkedRows, add_place};
use crate::table::Table;
use cu_lex::Token;
use std::alloc::{AllocError, Global};
use std::marker::Model;
use thiserror::Error;

/// Why rows are no grammar.
#[derive(Clone, Copy, Debug, PartialEq, Eq, Error)]
pub enum BadGrammar {
    /// The number, from 0, of the first row that may call itself without
    /// taking a token, or that repeats a part that may match without taking
    /// one. The table alone decides, and looking ahead counts as taking
    /// nothing.
    #[error("row {0} may match without end")]
    Row(usize),
    #[error("out of memory")]
    NoMemory,
}

impl From<AllocError> for BadGrammar {
    ghost from_gives = { λ _ bad. bad ≡ NoMemory };

    fn from(_error: AllocError) -> BadGrammar {
        BadGrammar::NoMemory
    }
}

/// A grammar: rows that each match or fail on every text. Contracts see the
/// list of its rows.
#[derive(Debug, Drop)]
pub struct Grammar {
    rows: Vec<Row>,
    /// All rows, each after those that it calls before it takes a token.
    order: Vec<usize>,
}

impl Model for Grammar {
    ghost use Rattle.std.specs.Prelude.{List};
    ghost use Rattle.cu_peg.specs.declared.row.Row.{Row};

    ghost Value = { List Row };

    ghost view = { λ g. g.rows.items };

    ghost use Rattle.cu_peg.specs.Order.{IsGrammar};

    ghost invariant = { λ g. IsGrammar g.rows.items g.order.items };
}

impl Grammar {
    /// The grammar of these rows, which are named by their numbers from 0.
    /// Each number that a row names is a row's.
    ///
    /// # Errors
    ///
    /// `Row` where a row may match without end, and `NoMemory`.
    pub fn new(alloc: Global, rows: Vec<Row>) -> Result<Grammar, BadGrammar>
        requires { IsClosed rows.items }
        ensures rows { IfOk result (λ grammar. grammar ≡ rows.items) }
        ensures well_formed { OnOk result (IsWellFormed rows.items) }
        ensures endless { IfErr result (TellsEndless rows.items) }
    {
        let table = rows.as_slice();
        let marks = nullable_rows(alloc, table)?;
        let nullable = marks.as_slice();
        if let Some(row) = first_endless_row(alloc, table, nullable)? {
            return Err(BadGrammar::Row(row));
        }
        let order = call_order(alloc, table, nullable)?;
        Ok(Grammar { rows, order })
    }

    /// The rows, by their numbers.
    pub fn rows(&self) -> &[Row]
        ensures rows { result.now ≡ self.now }
        ensures closed { IsClosed self.now }
        ensures well_formed { IsWellFormed self.now }
    {
        self.rows.as_slice()
    }

    /// The ends of the rows that are marked at all places of a list of tokens.
    pub(crate) fn ends(
        &self,
        alloc: Global,
        marks: &[bool],
        tokens: &[Token],
    ) -> Result<Table, AllocError>
        ensures long { IfOk result (λ table. length table.columns ≡ length tokens.now + 1) }
        ensures right { (names : List (List ℕ))
            → IfOk result (λ table. IsRight (kept marks.now self.now)
            (has_at (map (lexeme_of names) tokens.now)) (length tokens.now) table.columns) }
    {
        let rows = self.rows.as_slice();
        let order = self.order.as_slice();
        let certain = certain_rows(alloc, rows, marks)?;
        let mut table = Table::new(alloc, certain);
        'places: while table.len() <= tokens.len() {
            add_place(alloc, MarkedRows { rows, marks }, order, tokens, &mut table)?;
        }
        Ok(table)
    }
}

/// Which of the marked rows match everywhere, taking nothing where their parts
/// don't match.
fn certain_rows(alloc: Global, rows: &[Row], marks: &[bool]) -> Result<Vec<bool>, AllocError>
    ensures { IfOk result (λ certain. length certain.items ≡ length rows.now) }
{
    let mut certain = Vec::new(alloc);
    for (number, row) in rows.iter().enumerate() {
        let never_fails = matches!(row, Row::Optional(_) | Row::Many(_));
        certain.push(never_fails && is_marked(marks, number))?;
    }
    Ok(certain)
}

/// Whether each number that a row names is a row's.
pub fn is_closed(rows: &[Row]) -> bool
    ensures { result ≡ is_closed rows.now }
{
    for row in rows {
        if !names_below(row, rows.len()) {
            return false;
        }
    }
    true
}

/// Whether a row names only numbers below a count.
fn names_below(row: &Row, count: usize) -> bool
    ensures { result ≡ list_all (λ p. nat_lt p count) (named row.now) }
{
    match row {
        Row::Token(_) => true,
        Row::Sequence(parts) => all_below(parts.as_slice(), count),
        Row::Choice(parts) => all_below(parts.as_slice(), count),
        Row::SeparatedBy(part, separator) => {
            (*part as usize) < count && (*separator as usize) < count
        }
        Row::Optional(part) => (*part as usize) < count,
        Row::Many(part) => (*part as usize) < count,
        Row::AtLeastOne(part) => (*part as usize) < count,
        Row::Ahead(part) => (*part as usize) < count,
        Row::NotAhead(part) => (*part as usize) < count,
    }
}

fn all_below(numbers: &[u32], count: usize) -> bool
    ensures { result ≡ list_all (λ p. nat_lt p count) numbers.now }
{
    numbers.iter().all(|n| (*n as usize) < count)
}
