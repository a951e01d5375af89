//! Rows of a grammar.
ghost use Rattle.std.specs.Prelude.{◌≡◌};

use crate::Class;
use std::marker::Model;

/// The numbers of rows, in order. Contracts see the list.
#[derive(Debug, Drop)]
pub struct RowNumbers {
    rows: Vec<u32>,
}

impl Model for RowNumbers {
    ghost use Rattle.std.specs.Prelude.{List, ℕ};

    ghost Value = { List ℕ };

    ghost view = { λ parts. parts.rows.items };
}

impl RowNumbers {
    /// The rows of these numbers.
    pub fn new(rows: Vec<u32>) -> RowNumbers
        ensures { result ≡ rows.items }
    {
        RowNumbers { rows }
    }

    /// The numbers in order.
    pub fn as_slice(&self) -> &[u32]
        ensures { result.now ≡ self.now }
    {
        self.rows.as_slice()
    }
}

/// A row of a grammar: a parsing expression over the numbers of rows.
#[derive(Debug, Drop)]
pub enum Row {
    /// Matches one token of the class.
    Token(Class),
    /// Matches the parts one after another.
    Sequence(RowNumbers),
    /// Matches as the first alternative that matches does, whatever follows it.
    Choice(RowNumbers),
    /// Matches the part, or nothing where the part doesn't match.
    Optional(u32),
    /// Matches the part as often as it matches, maybe never.
    Many(u32),
    /// Matches the part as often as it matches, which is once at least.
    AtLeastOne(u32),
    /// Matches a part, and then the separator and the part again as often as
    /// both match. A separator with no part after it is left.
    SeparatedBy(u32, u32),
    /// Takes nothing, and matches where the part matches.
    Ahead(u32),
    /// Takes nothing, and matches where the part doesn't match.
    NotAhead(u32),
}
