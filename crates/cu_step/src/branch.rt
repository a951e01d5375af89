//! Branches of the search, and the inner searches that run in them.
ghost use Rattle.std.specs.Prelude.{◌≡◌, IsTrue, map};
ghost use Rattle.cu_machine.specs.Graph.{Graph};
ghost use Rattle.cu_machine.specs.State as state;
ghost use Rattle.cu_machine.specs.State.{Idle, graph_of, states_of};
ghost use Rattle.cu_step.specs.Outcome.{is_running, running_state, state_of};

use crate::focus::Focus;
use cu_graph::Store;
use cu_values::Value;

/// A branch of the search: a graph with the node whose value is sought and the
/// walk that is kept, the nodes of the goal's variables, and a search for all
/// values of a function that may run in it.
pub type Branch<S> = BranchOver<Focus<S>>;

/// A branch by what it keeps of its graph.
#[derive(Drop)]
#[cycle(branches)]
pub struct BranchOver<F> {
    pub(crate) focus: F,
    pub(crate) goals: Vec<u32>,
    pub(crate) search: Search<F>,
}

/// A search for all values of a function, which runs inside a branch.
#[derive(Drop)]
#[cycle(branches)]
pub(crate) enum Search<F> {
    /// No search runs in the branch.
    Idle,
    /// A search runs in the branch.
    Running {
        /// The node that calls the set function.
        call: u32,
        /// The values that were found so far, in the order in which they were.
        found: Vec<Value>,
        /// The level that is next, from left to right.
        level: Vec<BranchOver<F>>,
    },
}

/// A branch in which a search runs, taken apart. No walk is kept.
#[derive(Drop)]
pub struct Running<S: Store> {
    /// The graph of the branch.
    pub store: S,
    /// The node whose value is sought.
    pub root: u32,
    /// The nodes of the goal's variables.
    pub goals: Vec<u32>,
    /// The node that calls the set function.
    pub call: u32,
    /// The values that were found so far, in the order in which they were.
    pub found: Vec<Value>,
    /// The level of the search that is next, from left to right.
    pub level: Vec<Branch<S>>,
}

impl<S: Store> BranchOver<Focus<S>> {
    /// The graph of the branch.
    pub fn store(&self) -> &S
        ensures { S.content result.now ≡ graph_of (state_of S.content self.now) }
    {
        &self.focus.store
    }

    /// Whether a search runs in the branch.
    pub fn is_running(&self) -> bool
        ensures { result ≡ is_running (state_of S.content self.now) }
    {
        match &self.search {
            Search::Idle => false,
            Search::Running { .. } => true,
        }
    }

    /// The parts of a branch in which a search runs.
    pub fn opened(self) -> Running<S>
        requires { IsTrue (is_running (state_of S.content self)) }
        ensures { running_state S.content result ≡ state_of S.content self }
    {
        let BranchOver {
            focus,
            goals,
            search,
        } = self;
        let Focus {
            store,
            root,
            walk: _,
        } = focus;
        match search {
            Search::Idle => unreachable!(),
            Search::Running { call, found, level } => Running {
                store,
                root,
                goals,
                call,
                found,
                level,
            },
        }
    }
}

impl<S: Store> Running<S> {
    /// The branch in which the search goes on.
    pub fn going_on(self) -> Branch<S>
        ensures { state_of S.content result ≡ running_state S.content self }
    {
        BranchOver {
            focus: Focus::new(self.store, self.root),
            goals: self.goals,
            search: Search::Running {
                call: self.call,
                found: self.found,
                level: self.level,
            },
        }
    }

    /// The branch in which the search is over.
    pub fn ended(self) -> Branch<S>
        ensures { state_of S.content result
            ≡ state.Branch (S.content self.store) self.root self.goals.items Idle }
    {
        BranchOver {
            focus: Focus::new(self.store, self.root),
            goals: self.goals,
            search: Search::Idle,
        }
    }
}
