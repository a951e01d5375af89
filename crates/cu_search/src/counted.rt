//! Searches whose lines are counted, and not written.
ghost use Rattle.std.specs.Prelude.{◌≡◌, ◌≤◌, true, IfOk, OnOk};
ghost use Rattle.cu_search.specs.Rounds.{IsWorkerCount, Leaves};
ghost use Rattle.cu_search.specs.Standing.{IsGoing, left_of, round_at};
ghost use Rattle.cu_search.specs.Stands.{standing_of};
ghost use Rattle.cu_search.specs.Totals.{and_lines, totals_of};

use crate::counting::count_outcomes;
use crate::level::{Steps, next_level, step_level};
use crate::outcomes::Turn;
use crate::pace::Pace;
use crate::search::{Round, Search, ending};
use crate::totals::Totals;
use cu_graph::Store;
use cu_machine::End;
use cu_pile::Gate;
use std::alloc::AllocError;
use std::mem;
use std::thread::Threads;

impl<'p, S: Store + Send + Sync> Search<'p, S> {
    /// Runs the rounds that are left and writes nothing, and answers how the
    /// listing ends and what its lines come to. It has as many workers as
    /// `list` would.
    pub fn tally<R: Threads + Sync, G: Gate + Sync>(
        &mut self,
        rt: &R,
        workers: Option<u32>,
        gate: &G,
    ) -> Result<(End, Totals), AllocError>
        requires going { IsGoing (standing_of S.content self.old) }
        requires workers { IsWorkerCount workers }
        ensures end { IfOk result (λ found. found.0
            ≡ (left_of (standing_of S.content self.old)).end) }
        ensures totals { IfOk result (λ found. found.1
            ≡ totals_of (left_of (standing_of S.content self.old))) }
        ensures ended { (standing_of S.content self.new).ended ≡ true }
    {
        let mut totals = Totals::new();
        let mut pace = Pace::new(self.limits.stride);
        loop {
            let count = pace.workers(workers, self.level.len());
            if let Round::Ended(end) = self.count_round(rt, count, gate, &mut totals)? {
                return Ok((end, totals));
            }
            pace.note(self.level.as_slice());
        }
    }

    /// Runs the next round as `round` does, and counts its lines in place of
    /// writing them.
    fn count_round<R: Threads + Sync, G: Gate + Sync>(
        &mut self,
        rt: &R,
        workers: u32,
        gate: &G,
        totals: &mut Totals,
    ) -> Result<Round, AllocError>
        requires going { IsGoing (standing_of S.content self.old) }
        requires workers { (1 ≤ workers) × (workers ≤ 64) }
        ensures standing { Leaves result (standing_of S.content self.old)
            (standing_of S.content self.new) }
        ensures totals { OnOk result (totals.new
            ≡ and_lines totals.old (round_at (standing_of S.content self.old)).lines) }
    {
        self.ended = true;
        let level = mem::replace(&mut self.level, Vec::new(self.alloc));
        let steps = Steps {
            alloc: self.alloc,
            program: self.program,
            limits: self.limits,
        };
        let outcomes = step_level(rt, workers, gate, &steps, level)?;
        let turn = Turn {
            round: self.round,
            limit: self.limits.answers,
            wording: self.wording,
        };
        let listed = count_outcomes(&turn, outcomes.as_slice(), &mut self.tally, totals)?;
        self.level = next_level(self.alloc, outcomes)?;
        let next = ending(
            &self.limits,
            self.round,
            self.tally.waits(),
            self.level.len() as u64,
        );
        if let Some(end) = listed.or(next) {
            return Ok(Round::Ended(end));
        }
        self.round += 1;
        self.ended = false;
        Ok(Round::Going)
    }
}
