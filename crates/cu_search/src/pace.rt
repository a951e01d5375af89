//! How many workers a round has.
ghost use Rattle.std.specs.Prelude.{◌≤◌};
ghost use Rattle.cu_search.specs.Rounds.{IsWorkerCount};

use cu_graph::Store;
use cu_step::Branch;

/// How many workers a round of much work has, where no number is named.
const WORKERS: u32 = 4;

/// From so many steps on, a round is worth the threads that it starts.
const MUCH_WORK: u64 = 2_000;

/// What the rounds so far tell of the work of the next one.
#[derive(Clone, Copy)]
pub(crate) struct Pace {
    /// How many steps a round takes a branch on at most.
    stride: u64,
    /// How many nodes a graph of the level had when it was last looked at, on
    /// the average.
    size: u64,
    /// How many steps each branch is thought to take in the next round.
    steps: u64,
}

impl Pace {
    /// Before the first round.
    pub(crate) fn new(stride: u64) -> Pace {
        Pace {
            stride,
            size: 0,
            steps: 1,
        }
    }

    /// How many workers a round of so many branches has: as many as are named,
    /// or else one, and several where there is much work.
    pub(crate) fn workers(&self, named: Option<u32>, branches: usize) -> u32
        requires { IsWorkerCount named }
        ensures { (1 ≤ result) × (result ≤ 64) }
    {
        match named {
            Some(count) => count,
            None if self.is_much_work(branches) => WORKERS,
            None => 1,
        }
    }

    /// Whether so many branches are thought to take many steps in the next
    /// round.
    fn is_much_work(&self, branches: usize) -> bool {
        self.steps.saturating_mul(branches as u64) >= MUCH_WORK
    }

    /// Takes note of a round, after which this level follows. A step of a
    /// branch adds about a node to its graph, so that the growth of graphs
    /// tells how many steps the branches took. With a stride of one step there
    /// is nothing to find out.
    pub(crate) fn note<S: Store>(&mut self, level: &[Branch<S>]) {
        if self.stride == 1 || level.len() as u64 >= MUCH_WORK {
            return;
        }
        let size = mean_size(level);
        let growth = size.saturating_sub(self.size);
        self.steps = growth.min(self.stride).max(1);
        self.size = size;
    }
}

/// How many nodes the graphs of these branches have, on the average.
fn mean_size<S: Store>(level: &[Branch<S>]) -> u64 {
    let mut nodes = 0u64;
    for branch in level {
        nodes = nodes.saturating_add(u64::from(branch.store().len()));
    }
    nodes / (level.len() as u64).max(1)
}
