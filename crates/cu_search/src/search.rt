//! The search for a goal's values.
ghost use Rattle.std.specs.Prelude.{◌≡◌, ◌+◌, ◌<◌, ◌≤◌, ◌^◌, true, Some, IfErr, IfNone, IfOk, IsTrue, OnErr, OnOk, length};
ghost use Rattle.cu_calculus.specs.Code.{body_of, function_arity, is_rule};
ghost use Rattle.cu_search.specs.Lines.{end_text, listing_bytes};
ghost use Rattle.cu_pile.specs.Outcomes.{EachBelow};
ghost use Rattle.cu_search.specs.Rounds.{IsWorkerCount, Leaves, Writes};
ghost use Rattle.cu_search.specs.Standing.{IsGoing, end_after, left_of, opened, widest};
ghost use Rattle.cu_search.specs.Stands.{notation_of, standing_of};
ghost use Rattle.cu_search.specs.Written.{Adds, AddsPrefix, HasCause};

use crate::fault::SearchFault;
use crate::level::{Steps, next_level, step_level};
use crate::lines::end_line;
use crate::outcomes::{Turn, list_outcomes};
use crate::pace::Pace;
use crate::page::Page;
use crate::tally::Tally;
use crate::wording::Wording;
use cu_flat::FlatProgram;
use cu_graph::Store;
use cu_io::Sink;
use cu_kernel::{Goal, Program};
use cu_machine::{End, SearchLimits, Stop};
use cu_names::Names;
use cu_pile::Gate;
use cu_step::{Branch, start};
use std::alloc::{AllocError, Global};
use std::mem;
use std::thread::Threads;

/// What a round came to.
#[derive(Clone, Copy, Debug, PartialEq, Eq)]
pub enum Round {
    /// The search goes on with the next round.
    Going,
    /// The listing ended, in this way.
    Ended(End),
}

/// The search for a goal's values, between two rounds.
#[derive(Drop)]
pub struct Search<'p, S: Store> {
    pub(crate) alloc: Global,
    pub(crate) program: &'p FlatProgram,
    pub(crate) wording: Wording<'p>,
    pub(crate) limits: SearchLimits,
    pub(crate) round: u64,
    pub(crate) tally: Tally,
    pub(crate) level: Vec<Branch<S>>,
    pub(crate) page: Page,
    pub(crate) ended: bool,
}

impl<'p, S: Store> Search<'p, S> {
    /// The search for the values of a goal, before its first round, with room
    /// for lines of 4,096 bytes. The kernel program and the table of names
    /// are there for the display of values alone.
    pub fn open(
        alloc: Global,
        program: &'p FlatProgram,
        kernel: &'p Program,
        names: &'p Names,
        goal: &'p Goal,
        limits: SearchLimits,
    ) -> Result<Search<'p, S>, AllocError>
        requires rule { IsTrue (is_rule (body_of program.now goal.now.function)) }
        requires parameters { function_arity program.now goal.now.function
            ≡ Some (length goal.now.names.items) }
        requires width { limits.step.width ≤ widest }
        ensures standing { IfOk result (λ search. standing_of S.content search
            ≡ opened program.entry.now
            (notation_of (record { kernel = kernel.entry; names = names.entry; goal = goal.entry }))
            limits goal.entry.now.function) }
        ensures going { IfOk result (λ search. IsGoing (standing_of S.content search)) }
    {
        let mut level = Vec::new(alloc);
        level.push(start(alloc, program, goal.function)?)?;
        Ok(Search {
            alloc,
            program,
            wording: Wording {
                kernel,
                names,
                goal,
            },
            limits,
            round: 0,
            tally: Tally::new(),
            level,
            page: Page::with_room(alloc)?,
            ended: false,
        })
    }

    /// Whether the listing ended or the search broke off.
    pub fn ended(&self) -> bool
        ensures { result ≡ (standing_of S.content self.now).ended }
    {
        self.ended
    }
}

impl<'p, S: Store + Send + Sync> Search<'p, S> {
    /// Runs the next round: takes all branches of the level on, and writes a
    /// line for each answer and each branch that waits, and the last line where
    /// the listing ends with it. Where there are two branches or more, workers
    /// draw them side by side, no more workers than branches, and the gate is
    /// told the number of each in the level.
    pub fn round<R: Threads + Sync, G: Gate + Sync, K: Sink>(
        &mut self,
        rt: &R,
        workers: u32,
        gate: &G,
        sink: &mut K,
    ) -> Result<Round, SearchFault>
        requires going { IsGoing (standing_of S.content self.old) }
        requires workers { (1 ≤ workers) × (workers ≤ 64) }
        ensures standing { Leaves result (standing_of S.content self.old)
            (standing_of S.content self.new) }
        ensures written { Writes result (standing_of S.content self.old) (K.written sink.old)
            (K.written sink.new) }
        ensures cause { HasCause result (K.fault_count sink.old) (K.fault_count sink.new) }
        ensures told { 2 ≤ length (standing_of S.content self.old).level → IfOk result
            (λ _. EachBelow (length (standing_of S.content self.old).level) (G.told gate.now)) }
    {
        self.ended = true;
        let level = mem::replace(&mut self.level, Vec::new(self.alloc));
        let steps = Steps {
            alloc: self.alloc,
            program: self.program,
            limits: self.limits,
        };
        let outcomes = step_level(rt, workers, gate, &steps, level)?;
        let turn = Turn {
            round: self.round,
            limit: self.limits.answers,
            wording: self.wording,
        };
        let listed = list_outcomes(
            &turn,
            outcomes.as_slice(),
            &mut self.tally,
            &mut self.page,
            sink,
        )?;
        self.level = next_level(self.alloc, outcomes)?;
        let next = ending(
            &self.limits,
            self.round,
            self.tally.waits(),
            self.level.len() as u64,
        );
        if let Some(end) = listed.or(next) {
            write_end(&mut self.page, end, sink)?;
            return Ok(Round::Ended(end));
        }
        self.round += 1;
        self.ended = false;
        Ok(Round::Going)
    }

    /// Runs the rounds that are left, and answers how the listing ends. Where
    /// no number of workers is named, a round has up to four of them, as its
    /// work is worth it.
    pub fn list<R: Threads + Sync, G: Gate + Sync, K: Sink>(
        &mut self,
        rt: &R,
        workers: Option<u32>,
        gate: &G,
        sink: &mut K,
    ) -> Result<End, SearchFault>
        requires going { IsGoing (standing_of S.content self.old) }
        requires workers { IsWorkerCount workers }
        ensures end { IfOk result (λ end. end ≡ (left_of (standing_of S.content self.old)).end) }
        ensures whole { OnOk result (Adds (K.written sink.old) (K.written sink.new)
            (listing_bytes (standing_of S.content self.old).notation
            (left_of (standing_of S.content self.old)))) }
        ensures prefix { OnErr result (AddsPrefix (K.written sink.old) (K.written sink.new)
            (listing_bytes (standing_of S.content self.old).notation
            (left_of (standing_of S.content self.old)))) }
        ensures cause { HasCause result (K.fault_count sink.old) (K.fault_count sink.new) }
        ensures ended { (standing_of S.content self.new).ended ≡ true }
    {
        let mut pace = Pace::new(self.limits.stride);
        loop {
            let count = pace.workers(workers, self.level.len());
            if let Round::Ended(end) = self.round(rt, count, gate, sink)? {
                return Ok(end);
            }
            pace.note(self.level.as_slice());
        }
    }
}

/// How the listing ends after the lines of a round, if it does, where so many
/// branches wait and so many follow.
pub(crate) fn ending(limits: &SearchLimits, round: u64, waits: u64, count: u64) -> Option<End>
    requires { round ≤ limits.now.rounds }
    ensures next { IfNone result (round + 1 < 2 ^ 64) }
    ensures end { result ≡ end_after limits.now round waits count }
{
    if count == 0 {
        Some(End::NoMore(waits))
    } else if round == limits.rounds {
        Some(End::Rounds(round, count))
    } else if count > u64::from(limits.step.width) {
        Some(End::Stopped(Stop::TooWide(count), round + 1))
    } else {
        None
    }
}

/// Writes the last line of a listing with this end.
fn write_end<K: Sink>(page: &mut Page, end: End, sink: &mut K) -> Result<(), SearchFault>
    ensures whole { OnOk result (Adds (K.written sink.old) (K.written sink.new) (end_text end)) }
    ensures prefix { OnErr result
        (AddsPrefix (K.written sink.old) (K.written sink.new) (end_text end)) }
    ensures cause { HasCause result (K.fault_count sink.old) (K.fault_count sink.new) }
{
    end_line(page, end)?;
    page.write(sink)
}

/// Writes a listing that has no other line than the last one, with this end.
pub fn write_last_line<K: Sink>(alloc: Global, end: End, sink: &mut K) -> Result<(), SearchFault>
    ensures whole { OnOk result (Adds (K.written sink.old) (K.written sink.new) (end_text end)) }
    ensures prefix { OnErr result
        (AddsPrefix (K.written sink.old) (K.written sink.new) (end_text end)) }
    ensures cause { HasCause result (K.fault_count sink.old) (K.fault_count sink.new) }
{
    let mut page = Page::with_room(alloc)?;
    write_end(&mut page, end, sink)
}
