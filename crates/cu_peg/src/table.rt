//! The table of ends: where each row matches at each place of a text.
ghost use Rattle.std.specs.Prelude.{◌≡◌, ◌<◌, ◌+◌, ◌++◌, ◌∷◌, [], ℕ, length, None, IfSome, OnOk, replicate, slice_index_or, slice_set};
ghost use Rattle.std.specs.Option.{option_map};
ghost use Rattle.cu_peg.specs.Inside.Ends.{end_at};
ghost use Rattle.cu_peg.specs.Inside.Places.{columns, Rising};

use crate::places::{Entry, end_in, entries_at, keep};
use std::alloc::{AllocError, Global};
use std::marker::Model;

/// Where a row matches.
#[derive(Clone, Copy, Debug)]
pub struct End {
    /// How many tokens are left where the row's match ends.
    pub left: usize,
    /// How many nodes the row's tree has. The largest number stands for that
    /// many or more.
    pub nodes: usize,
}

/// The ends of all rows at one place. Contracts see the list.
#[derive(Debug, Drop)]
pub struct Column {
    ends: Vec<Option<End>>,
}

impl Model for Column {
    ghost use Rattle.std.specs.Prelude.{List, Option};
    ghost use Rattle.cu_peg.specs.declared.table.End.{End};

    ghost Value = { List (Option End) };

    ghost view = { λ column. column.ends.items };
}

impl Column {
    ghost use Rattle.std.specs.Prelude.{slice_index_or};

    fn end(&self, row: usize) -> Option<End>
        ensures { result ≡ slice_index_or self.now row None }
    {
        let end = self.ends.get(row)?;
        *end
    }
}

/// The ends of all rows, by how many tokens are left: first where none is.
/// Contracts see a list of lists, and how many rows each place has.
#[derive(Debug, Drop)]
pub struct Table {
    /// The rows that take nothing where nothing is kept of them; the others
    /// don't match there.
    certain: Vec<bool>,
    /// What is kept of the places that are finished.
    entries: Vec<Entry>,
    /// Where the entries of each finished place begin.
    begins: Vec<usize>,
    /// The place that is being filled.
    filled: Option<Column>,
}

impl Model for Table {
    ghost use Rattle.std.specs.Prelude.{◌++◌, length};
    ghost use Rattle.std.specs.Option.{option_to_list};
    ghost use Rattle.cu_peg.specs.Inside.Places.{columns, IsTable, TableView};

    ghost Value = { TableView };

    ghost view = { λ t. record {
      width = length t.certain.items;
      columns = columns t.certain.items t.entries.items t.begins.items 0 ++ option_to_list t.filled;
    } };

    ghost invariant = { λ t. IsTable t.certain.items t.entries.items t.begins.items t.filled };
}

impl Table {
    /// A table of no place. Of rows that are `certain` no end is kept where
    /// they match and take nothing.
    pub fn new(alloc: Global, certain: Vec<bool>) -> Self
        ensures { result ≡ record { width = length certain.items; columns = [] } }
    {
        Table {
            certain,
            entries: Vec::new(alloc),
            begins: Vec::new(alloc),
            filled: None,
        }
    }

    /// How many places the table has.
    pub fn len(&self) -> usize
        ensures { result ≡ length self.now.columns }
    {
        match &self.filled {
            Some(_) => self.begins.len() + 1,
            None => self.begins.len(),
        }
    }

    /// Adds a place where no row matches.
    pub fn add_column(&mut self, alloc: Global) -> Result<(), AllocError>
        ensures { OnOk result (self.new
            ≡ record self.old {
              columns = self.old.columns ++ replicate self.old.width None
                  ∷ [];
            }) }
    {
        if let Some(column) = &self.filled {
            finish(
                &mut self.entries,
                &mut self.begins,
                self.certain.as_slice(),
                column,
            )?;
        }
        let ends = vec![in alloc; None; self.certain.len()]?;
        self.filled = Some(Column { ends });
        Ok(())
    }

    /// The end of a row where some tokens are left, if it matches there.
    pub fn end(&self, row: usize, left: usize) -> Option<End>
        ensures { result ≡ end_at self.now.columns row left }
    {
        if left < self.begins.len() {
            if row >= self.certain.len() {
                return None;
            }
            let entries = entries_at(self.entries.as_slice(), self.begins.as_slice(), left);
            return end_in(entries, self.certain.as_slice(), row, left);
        }
        if left > self.begins.len() {
            return None;
        }
        match &self.filled {
            Some(column) => column.end(row),
            None => None,
        }
    }

    /// Sets the end of a row at the last place.
    pub fn set(&mut self, row: usize, end: Option<End>)
        requires { row < self.old.width }
        ensures { (left : ℕ) → length self.old.columns ≡ left + 1
            → self.new
            ≡ record self.old {
              columns = slice_set self.old.columns left
                  (slice_set (slice_index_or self.old.columns left []) row end);
            } }
    {
        set_in(&mut self.filled, row, end);
    }
}

/// Sets the end of a row at a place.
fn set_in(filled: &mut Option<Column>, row: usize, end: Option<End>)
    requires { IfSome filled.old (λ column. row < length column) }
    ensures { filled.new ≡ option_map (λ column. slice_set column row end) filled.old }
{
    if let Some(column) = filled {
        column.ends[row] = end;
    }
}

/// Keeps what is to be kept of a place that is filled.
fn finish(
    entries: &mut Vec<Entry>,
    begins: &mut Vec<usize>,
    certain: &[bool],
    column: &Column,
) -> Result<(), AllocError>
    requires rising { Rising begins.old.items (length entries.old.items) }
    requires wide { length column.now ≡ length certain.now }
    ensures rising { Rising begins.new.items (length entries.new.items) }
    ensures columns { OnOk result (columns certain.now entries.new.items begins.new.items 0
        ≡ columns certain.now entries.old.items begins.old.items 0 ++ column.now ∷ []) }
{
    let begin = entries.len();
    keep(entries, certain, column.ends.as_slice(), begins.len())?;
    begins.push(begin)?;
    Ok(())
}
