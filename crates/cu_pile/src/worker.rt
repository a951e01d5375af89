//! One worker of a round.
ghost use Rattle.std.specs.Prelude.{◌≡◌, ◌<◌, ℕ, List, [], ◌∷◌, ◌++◌, All, IfOk, length, map, Some, false, slice_get};
ghost use Rattle.cu_pile.specs.Seats.{EndsWith, IsFresh, items_of, number_past, view_of};
ghost use Rattle.cu_pile.specs.Outcomes.{IsOutcome, RunsOut, numbers_below};
ghost use Rattle.cu_pile.specs.Inside.Steps.{AreOutcomes, HoldsLast, slot_of, with_number};

use crate::claims::Claims;
use crate::gate::Gate;
use crate::job::Job;
use crate::seat::{Draw, Seat};
use std::alloc::{AllocError, Global};

/// A worker: it owns one seat at the table of a round.
#[derive(Drop)]
pub struct Worker<'t, J: Job> {
    claims: &'t Claims<J::In>,
    seat: Seat<J::In>,
    ghost at_table: { seat.table_id ≡ claims.now.table.shared.table_id },
    ghost knows: { seat.me.0.items ≡ items_of claims.now.table.shared.key },
    ghost unspent: { seat.me.0.spent ≡ false },
    ghost holds: { HoldsLast (length seat.me.0.items) seat.me.0.drawn seat.me.1 },
}

impl<'t, J: Job> Worker<'t, J> {
    /// The worker that owns a seat which drew nothing yet.
    pub fn new(claims: &'t Claims<J::In>, seat: Seat<J::In>) -> Worker<'t, J>
        requires table { seat.table_id ≡ claims.now.table.shared.table_id }
        requires fresh { IsFresh (items_of claims.now.table.shared.key) seat.me }
        ensures { result.seat ≡ seat }
    {
        Worker { claims, seat }
    }

    /// The worker's seat.
    pub fn into_seat(self) -> Seat<J::In>
        ensures { result ≡ self.entry.seat }
    {
        let Worker { seat, .. } = self;
        seat
    }

    /// How many items the round has.
    fn count(&self) -> u64
        ensures { result ≡ length self.now.seat.me.0.items }
    {
        self.claims.count()
    }

    /// Draws the next number.
    fn draw(&mut self) -> u64
        requires { number_past (length self.old.seat.me.0.items) self.old.seat.me.0.drawn ≡ 0 }
        ensures table { self.new.seat.table_id ≡ self.old.seat.table_id }
        ensures drawn { self.new.seat.me.0 ≡ with_number self.old.seat.me.0 result }
        ensures slot { self.new.seat.me.1
            ≡ slot_of result (slice_get self.old.seat.me.0.items result) }
        ensures later { (n : ℕ) → EndsWith self.old.seat.me.0.drawn n → n < result }
    {
        self.claims
            .table
            .shared
            .fetch_add::<Draw>(&mut self.seat, 0, 1)
    }

    /// Takes the item of the number that was drawn last out of its slot.
    fn take(&mut self, number: u64) -> J::In
        requires item { number < length self.old.seat.me.0.items }
        requires slot { self.old.seat.me.1
            ≡ slot_of number (slice_get self.old.seat.me.0.items number) }
        ensures table { self.new.seat.table_id ≡ self.old.seat.table_id }
        ensures view { self.new.seat.me.0 ≡ self.old.seat.me.0 }
        ensures item { slice_get self.old.seat.me.0.items number ≡ Some result }
    {
        let shared = &self.claims.table.shared;
        let slot = shared.exchange(&mut self.seat, number as usize, None);
        slot.unwrap()
    }
}

/// Draws numbers until one is past the items, tells the gate of each number
/// before, and runs the job on its item. It answers the outcomes beside their
/// numbers, in the order drawn. Once memory ran out, it drops what it draws.
pub fn work<J: Job, G: Gate>(
    alloc: Global,
    worker: &mut Worker<J>,
    gate: &G,
    job: &J,
) -> Result<Vec<(u64, J::Out)>, AllocError>
    requires drawn { (view_of worker.old.seat).drawn ≡ [] }
    requires accepted { All (J.accepts job.now) (view_of worker.old.seat).items }
    ensures table { worker.new.seat.table_id ≡ worker.old.seat.table_id }
    ensures kept { view_of worker.new.seat
        ≡ record (view_of worker.old.seat) { drawn = (view_of worker.new.seat).drawn } }
    ensures slots { worker.new.seat.me.1 ≡ [] }
    ensures drawn { RunsOut (length (view_of worker.old.seat).items)
        (view_of worker.new.seat).drawn }
    ensures order { IfOk result (λ pairs. map (λ pair. pair.0) pairs.items
        ≡ numbers_below (length (view_of worker.old.seat).items)
        (view_of worker.new.seat).drawn) }
    ensures outcomes { IfOk result (λ pairs.
        All (IsOutcome (J.promises job.now) (view_of worker.old.seat).items) pairs.items) }
    ensures told { All (G.told gate.now) (numbers_below (length (view_of worker.old.seat).items)
        (view_of worker.new.seat).drawn) }
{
    let mut outcomes = Ok(Vec::new(alloc));
    let mut number = worker.draw();
    while number < worker.count() {
        gate.enter(number as u32);
        let item = worker.take(number);
        outcomes = with_outcome(outcomes, number, job, item);
        number = worker.draw();
    }
    outcomes
}

/// The outcomes with that of one item more. Once memory ran out, the item is
/// dropped.
fn with_outcome<J: Job>(
    outcomes: Result<Vec<(u64, J::Out)>, AllocError>,
    number: u64,
    job: &J,
    item: J::In,
) -> Result<Vec<(u64, J::Out)>, AllocError>
    requires { J.accepts job.now item }
    ensures { (items : List J.In) (numbers : List ℕ) → slice_get items number ≡ Some item
        → AreOutcomes (J.promises job.now) items numbers outcomes
        → AreOutcomes (J.promises job.now) items (numbers ++ number ∷ []) result }
{
    let mut outcomes = outcomes?;
    let outcome = job.run(item)?;
    outcomes.push((number, outcome))?;
    Ok(outcomes)
}
