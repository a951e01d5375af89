//! The next lines of a listing.
ghost use Rattle.cu_search.specs.NextLines.{ListsNext};
ghost use Rattle.cu_search.specs.Rounds.{IsWorkerCount};
ghost use Rattle.cu_search.specs.Standing.{IsGoing};
ghost use Rattle.cu_search.specs.Stands.{standing_of};
ghost use Rattle.cu_search.specs.Written.{HasCause};

use crate::fault::SearchFault;
use crate::pace::Pace;
use crate::search::{Round, Search};
use cu_graph::Store;
use cu_io::Sink;
use cu_pile::Gate;
use std::thread::Threads;

impl<'p, S: Store + Send + Sync> Search<'p, S> {
    /// Runs the next rounds, up to and with the first that has a line or ends
    /// the listing, and answers what that one came to. A round has as many
    /// workers as `list` would give it.
    pub fn next_lines<R: Threads + Sync, G: Gate + Sync, K: Sink>(
        &mut self,
        rt: &R,
        workers: Option<u32>,
        gate: &G,
        sink: &mut K,
    ) -> Result<Round, SearchFault>
        requires going { IsGoing (standing_of S.content self.old) }
        requires workers { IsWorkerCount workers }
        ensures next { ListsNext result (standing_of S.content self.old)
            (standing_of S.content self.new) (K.written sink.old) (K.written sink.new) }
        ensures cause { HasCause result (K.fault_count sink.old) (K.fault_count sink.new) }
    {
        let mut pace = Pace::new(self.limits.stride);
        loop {
            let count = pace.workers(workers, self.level.len());
            let listed = self.tally.lines();
            if let Round::Ended(end) = self.round(rt, count, gate, sink)? {
                return Ok(Round::Ended(end));
            }
            if self.tally.lines() != listed {
                return Ok(Round::Going);
            }
            pace.note(self.level.as_slice());
        }
    }
}
