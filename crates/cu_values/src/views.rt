//! Values that are read where they stand.
ghost use Rattle.std.specs.Prelude.{◌≡◌};
ghost use Rattle.cu_calculus.specs.Value.{count as number_of};
ghost use Rattle.cu_values.specs.Cells.{read, read_all, spell, spell_all};

use crate::Cell;

/// A value in a list of cells, or a part of a value, read where it stands.
#[derive(Clone, Copy, Debug)]
pub struct ValueRef<'a> {
    pub(crate) cells: &'a [Cell],
    ghost spelled: { spell (read cells.now) ≡ cells.now },
}

/// Values that stand one after another, as the arguments of a constructor.
#[derive(Clone, Copy, Debug)]
pub struct ValuesRef<'a> {
    pub(crate) cells: &'a [Cell],
    pub(crate) count: usize,
    ghost spelled: { spell_all (read_all cells.now) ≡ cells.now },
    ghost counted: { count ≡ number_of (read_all cells.now) },
}
