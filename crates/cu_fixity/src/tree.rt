//! Trees over pieces.
ghost use Rattle.std.specs.Prelude.{◌≡◌};
ghost use Rattle.cu_fixity.specs.Spelling.{read, spelled};

use std::marker::Model;

/// A node of a tree, by the number of its piece, from 0.
#[derive(Clone, Copy, Debug, PartialEq, Eq)]
pub enum Cell {
    Operand(usize),
    /// A minus. Its operand follows.
    Minus(usize),
    /// An operator. Its left operand follows, and then its right one.
    Operator(usize),
}

impl Cell {
    ghost use Rattle.std.specs.Prelude.{◌≡◌};
    ghost use Rattle.cu_fixity.specs.Ranges.{number};

    /// The number of the cell's piece.
    pub fn number(self) -> usize
        ensures { result ≡ number self }
    {
        match self {
            Cell::Operand(n) => n,
            Cell::Minus(n) => n,
            Cell::Operator(n) => n,
        }
    }
}

/// How an expression is grouped. Contracts see a tree over the numbers of its
/// pieces.
#[derive(Debug, Drop)]
pub struct Tree {
    cells: Vec<Cell>,
}

impl Model for Tree {
    ghost use Rattle.std.specs.Prelude.{◌≡◌, ℕ};
    ghost use Rattle.cu_fixity.specs.Grouping as grouping;

    ghost Value = { grouping.Tree ℕ ℕ };

    ghost use Rattle.cu_fixity.specs.Spelling.{tree_code};

    ghost coded = { tree_code };

    ghost use Rattle.cu_fixity.specs.Spelling.{read, spelled};

    ghost view = { λ tree. read tree.cells.items };

    ghost invariant = { λ tree. spelled (read tree.cells.items) ≡ tree.cells.items };
}

impl Tree {
    /// The tree that these cells spell.
    pub(crate) fn new(cells: Vec<Cell>) -> Tree
        requires { spelled (read cells.items) ≡ cells.items }
        ensures { result ≡ read cells.items }
    {
        Tree { cells }
    }

    /// The cells in prefix order.
    pub fn cells(&self) -> &[Cell]
        ensures { result.now ≡ spelled self.now }
    {
        self.cells.as_slice()
    }
}
