//! The items of a round, each of which one worker draws.
ghost use Rattle.std.specs.Prelude.{◌≡◌, ◌≤◌, ◌<◌, ◌+◌, ◌-◌, ◌/◌, ◌++◌, ℕ, IfOk, Some, length, map};
ghost use Rattle.std.specs.Slots.{IsFull};
ghost use Rattle.cu_pile.specs.Seats.{IsFresh, items_of, times, view_of};
ghost use Rattle.cu_pile.specs.Inside.Steps.{IsDone};

use crate::seat::{Both, ClaimRule, Halves, Seat, SeatView, Start};
use atomic_table::{Closed, Table};
use std::alloc::{AllocError, Global};
use std::snapshot::Snapshot;

/// The items of a round at a table, each in the slot of its number.
#[derive(Drop)]
pub struct Claims<I: Drop> {
    pub(crate) table: Table<Option<I>, SeatView<I>, Start<I>, ClaimRule, Global>,
    count: u64,
    ghost one_word: { table.shared.table_id.words ≡ 1 },
    ghost slot_each: { table.shared.table_id.slots ≡ length table.shared.key.items.value.items },
    ghost counted: { count ≡ length table.shared.key.items.value.items },
    ghost few_items: { length table.shared.key.items.value.items ≤ 1048576 },
    ghost few_workers: { table.shared.key.workers ≤ 64 },
}

impl<I: Drop> Claims<I> {
    /// A table of these items, and the first seat, which stands for all
    /// workers.
    pub fn open(
        alloc: Global,
        items: Vec<I>,
        workers: u32,
    ) -> Result<(Claims<I>, Seat<I>), AllocError>
        requires items { length items.items ≤ 1048576 }
        requires workers { (1 ≤ workers) × (workers ≤ 64) }
        ensures items { IfOk result (λ r. items_of r.0.table.shared.key ≡ items.items) }
        ensures workers { IfOk result (λ r. r.0.table.shared.key.workers ≡ workers) }
        ensures table { IfOk result (λ r. r.1.table_id ≡ r.0.table.shared.table_id) }
        ensures seat { IfOk result (λ r. IsFresh items.items r.1.me) }
        ensures all { IfOk result (λ r. (view_of r.1).workers ≡ workers) }
    {
        let count = items.len() as u64;
        let start = Start {
            items: Snapshot::of(&items),
            workers,
        };
        let slots = filled(alloc, items)?;
        let Ok((table, seat)) = Table::new(alloc, &[0], slots, &start) else {
            return Err(AllocError);
        };
        Ok((Claims { table, count }, seat))
    }

    /// How many items the round has.
    pub fn count(&self) -> u64
        ensures { result ≡ length (items_of self.now.table.shared.key) }
    {
        self.count
    }

    /// Divides the workers of a seat: half of them get a seat of their own.
    pub(crate) fn split(&self, seat: &mut Seat<I>) -> Seat<I>
        requires table { seat.old.table_id ≡ self.now.table.shared.table_id }
        requires fresh { IsFresh (items_of self.now.table.shared.key) seat.old.me }
        requires workers { 2 ≤ (view_of seat.old).workers }
        ensures tables { (seat.new.table_id ≡ seat.old.table_id)
            × (result.table_id ≡ seat.old.table_id) }
        ensures fresh { IsFresh (items_of self.now.table.shared.key) seat.new.me
            × IsFresh (items_of self.now.table.shared.key) result.me }
        ensures kept { (view_of seat.new).workers
            ≡ (view_of seat.old).workers - (view_of seat.old).workers / 2 }
        ensures given { (view_of result).workers ≡ (view_of seat.old).workers / 2 }
    {
        self.table.shared.split_seat::<Halves>(seat)
    }

    /// Joins another seat to this one, which then has the numbers of both.
    pub(crate) fn join(&self, seat: &mut Seat<I>, other: Seat<I>)
        requires tables { (seat.old.table_id ≡ self.now.table.shared.table_id)
            × (other.table_id ≡ self.now.table.shared.table_id) }
        requires one { IsDone (items_of self.now.table.shared.key) seat.old.me }
        requires other { IsDone (items_of self.now.table.shared.key) other.me }
        ensures table { seat.new.table_id ≡ seat.old.table_id }
        ensures done { IsDone (items_of self.now.table.shared.key) seat.new.me }
        ensures drawn { (view_of seat.new).drawn
            ≡ (view_of seat.old).drawn ++ (view_of other).drawn }
        ensures workers { (view_of seat.new).workers
            ≡ (view_of seat.old).workers + (view_of other).workers }
    {
        self.table.shared.join_seat::<Both>(seat, other);
    }

    /// Ends the round. The one seat that is left drew each item's number once.
    pub(crate) fn close(self, seat: Seat<I>)
        requires table { seat.table_id ≡ self.table.shared.table_id }
        requires done { IsDone (items_of self.table.shared.key) seat.me }
        requires workers { (view_of seat).workers ≡ self.table.shared.key.workers }
        ensures { (n : ℕ) → n < length (items_of self.table.shared.key)
            → times n (view_of seat).drawn ≡ 1 }
    {
        let Claims { table, .. } = self;
        drop_slots(table.close_with(seat));
    }
}

/// Drops what is left in the slots of a closed table.
fn drop_slots<I: Drop>(mut closed: Closed<Option<I>, Global>)
    requires { IsFull closed.slots }
{
    let mut slot = 0;
    while slot < closed.slot_count() {
        drop(closed.take(slot));
        slot += 1;
    }
    closed.free();
}

/// The items, each in a slot of its own.
fn filled<I: Drop>(alloc: Global, items: Vec<I>) -> Result<Vec<Option<I>>, AllocError>
    ensures { IfOk result (λ slots. slots.items ≡ map (λ item. Some item) items.items) }
{
    items.into_iter().map(|item| Some(item)).collect(alloc)
}
