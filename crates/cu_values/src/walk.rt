//! Walks over the cells of values.
ghost use Rattle.std.specs.Prelude.{◌≡◌, ◌<◌, ◌≤◌, drop, length};
ghost use Rattle.cu_values.specs.Cells.{suffix, read_all, IsSpelled};

use crate::Cell;
use std::cmp::Ordering;

/// The index of the cell after the value whose first cell has the index
/// `start`.
pub(crate) fn end_of(cells: &[Cell], start: usize) -> usize
    requires spelled { IsSpelled (drop start cells.now) }
    requires within { start < length cells.now }
    ensures after { start < result }
    ensures within { result ≤ length cells.now }
    ensures spelled { IsSpelled (drop result cells.now) }
    ensures others { read_all (drop result cells.now) ≡ suffix 1 (read_all (drop start cells.now)) }
{
    let mut pending = 1;
    let mut i = start;
    while pending > 0 {
        pending = pending - 1 + cells[i].arity() as usize;
        i += 1;
    }
    i
}

/// What is left to compare of two values: pairs, from left to right.
#[derive(Clone, Copy)]
pub(crate) struct Pairs {
    /// How many pairs of values are still to be compared.
    pub left: usize,
    /// The order where the values of all these pairs are alike.
    pub last: Ordering,
}

impl Pairs {
    ghost use Rattle.std.specs.Prelude.{◌≡◌, ◌≢◌, ◌+◌, ◌<◌, ◌^◌, min};
    ghost use Rattle.std.specs.declared.cmp.Ordering.TheVariants.{Equal};
    ghost use Rattle.std.specs.Ordering.{nat_cmp};

    /// A single pair.
    pub(crate) fn one() -> Pairs
        ensures left { result.left ≡ 1 }
        ensures last { result.last ≡ Equal }
    {
        Pairs {
            left: 1,
            last: Ordering::Equal,
        }
    }

    /// The pairs that are left after two heads that are alike, with these
    /// numbers of arguments. Where the numbers differ, the arguments that both
    /// have decide, and then the numbers; nothing after the arguments counts.
    pub(crate) fn after(self, mine: u32, others: u32) -> Pairs
        requires some { 0 < self.left }
        requires fits { self.left + mine < 2 ^ 64 }
        ensures same { mine ≡ others → (result.left + 1 ≡ self.left + mine)
            × (result.last ≡ self.last) }
        ensures differ { mine ≢ others → (result.left ≡ min mine others)
            × (result.last ≡ nat_cmp mine others) }
    {
        if mine == others {
            Pairs {
                left: self.left - 1 + mine as usize,
                last: self.last,
            }
        } else {
            Pairs {
                left: mine.min(others) as usize,
                last: mine.cmp(&others),
            }
        }
    }
}
