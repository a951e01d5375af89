//! Searches that are kept while what they borrow is not.
ghost use Rattle.std.specs.Prelude.{◌≡◌};
ghost use Rattle.cu_search.specs.Paused.{standing_of_paused};
ghost use Rattle.cu_search.specs.Stands.{notation_of, standing_of};

use crate::page::Page;
use crate::search::Search;
use crate::tally::Tally;
use crate::wording::Wording;
use cu_flat::FlatProgram;
use cu_graph::Store;
use cu_kernel::{Goal, Program};
use cu_machine::SearchLimits;
use cu_names::Names;
use cu_step::Branch;
use std::alloc::Global;

/// A search between two rounds, without the program, the table of names and
/// the goal that it borrows.
#[derive(Drop)]
pub struct Paused<S: Store> {
    alloc: Global,
    limits: SearchLimits,
    round: u64,
    tally: Tally,
    level: Vec<Branch<S>>,
    page: Page,
    ended: bool,
}

impl<'p, S: Store> Search<'p, S> {
    /// Keeps the search without what it borrows. It takes no memory.
    pub fn pause(self) -> Paused<S>
        ensures { standing_of_paused S.content self.entry.program.now
            (notation_of self.entry.wording) result ≡ standing_of S.content self.entry }
    {
        Paused {
            alloc: self.alloc,
            limits: self.limits,
            round: self.round,
            tally: self.tally,
            level: self.level,
            page: self.page,
            ended: self.ended,
        }
    }

    /// Goes on with a paused search, over the program, the table of names and
    /// the goal that it was opened with. The table may have more names by now.
    /// It takes no memory.
    pub fn resume(
        program: &'p FlatProgram,
        kernel: &'p Program,
        names: &'p Names,
        goal: &'p Goal,
        paused: Paused<S>,
    ) -> Search<'p, S>
        ensures { standing_of S.content result
            ≡ standing_of_paused S.content program.entry.now
            (notation_of (record { kernel = kernel.entry; names = names.entry; goal = goal.entry }))
            paused }
    {
        Search {
            alloc: paused.alloc,
            program,
            wording: Wording {
                kernel,
                names,
                goal,
            },
            limits: paused.limits,
            round: paused.round,
            tally: paused.tally,
            level: paused.level,
            page: paused.page,
            ended: paused.ended,
        }
    }
}
