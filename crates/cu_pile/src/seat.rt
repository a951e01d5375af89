//! Seats at a round's table, and the rule of the table.
use atomic_table::{Join, Play, Split, TableRule};
use std::collections::LinkedList;
use std::snapshot::Snapshot;

/// The view of a seat: what it knows. It exists in proofs alone; no value of it
/// is made.
pub struct SeatView<I> {
    /// The items of the round.
    pub items: LinkedList<I>,
    /// The numbers that the seat drew, in the order of the draws.
    pub drawn: LinkedList<u64>,
    /// How many workers the seat stands for.
    pub workers: u32,
    /// Whether the seat was joined to another one.
    pub spent: bool,
}

/// What a table is told when it is made: its items, and how many workers
/// there are.
#[derive(Drop)]
pub struct Start<I> {
    pub items: Snapshot<Vec<I>>,
    pub workers: u32,
}

/// The rule of a round's table. Word 0 is the claim word, and each item has
/// the slot of its number.
pub struct ClaimRule;

impl<I> TableRule<Option<I>, SeatView<I>, Start<I>> for ClaimRule {
    ghost use Rattle.std.specs.Prelude.{[]};
    ghost use Rattle.cu_pile.specs.Seats.{seated};
    ghost use Rattle.cu_pile.specs.Drawn.{IsClaimed};

    ghost holds = { λ start state. IsClaimed start.items.value.items start.workers state };

    ghost first = { λ start. seated start.items.value.items [] start.workers };
}

/// A seat at a round's table.
pub type Seat<I> = atomic_table::Seat<Option<I>, SeatView<I>>;

/// The step in which a worker draws a number.
pub(crate) struct Draw;

impl<I> Play<Option<I>, SeatView<I>> for Draw {
    ghost use Rattle.cu_pile.specs.Inside.Steps.{Draws};

    ghost then = { Draws };
}

/// The step in which the workers of a seat are divided between two seats.
pub(crate) struct Halves;

impl<I> Split<SeatView<I>> for Halves {
    ghost use Rattle.std.specs.Prelude.{◌-◌, ◌/◌, []};
    ghost use Rattle.cu_pile.specs.Seats.{seated};

    ghost left = { λ v. seated v.items [] (v.workers - v.workers / 2) };

    ghost right = { λ v. seated v.items [] (v.workers / 2) };
}

/// The step in which the numbers of two seats are joined, one list after the
/// other.
pub(crate) struct Both;

impl<I> Join<SeatView<I>> for Both {
    ghost use Rattle.std.specs.Prelude.{◌+◌, ◌++◌};
    ghost use Rattle.cu_pile.specs.Seats.{seated, spent_seat};

    ghost both = { λ v w. seated v.items (v.drawn ++ w.drawn) (v.workers + w.workers) };

    ghost spent = { spent_seat };
}
