//! What is sought in a graph.
ghost use Rattle.std.specs.Prelude.{◌≡◌, ℕ, IfOk};
ghost use Rattle.cu_machine.specs.Graph.{Graph};
ghost use Rattle.cu_machine.specs.State as state;
ghost use Rattle.cu_machine.specs.State.{Idle};
ghost use Rattle.cu_step.specs.Inside.Kept.{MayGoOn};
ghost use Rattle.cu_step.specs.Outcome.{state_of};

use crate::branch::{Branch, BranchOver, Search};
use crate::focus::Focus;
use crate::need::KeptWalk;
use cu_graph::Store;
use std::alloc::{AllocError, Global};

/// What a branch seeks in its graph: the value of a node and those of the
/// goal's variables, with the walk that is kept on the way there.
#[derive(Drop)]
pub(crate) struct Aim {
    pub(crate) root: u32,
    pub(crate) goals: Vec<u32>,
    pub(crate) walk: Option<KeptWalk>,
}

impl Aim {
    /// The branch in which this is sought in a graph.
    pub(crate) fn in_graph<S: Store>(self, store: S) -> Branch<S>
        requires { MayGoOn (S.content store) self.root self.walk }
        ensures { state_of S.content result
            ≡ state.Branch (S.content store) self.root self.goals.items Idle }
    {
        BranchOver {
            focus: Focus {
                store,
                root: self.root,
                walk: self.walk,
            },
            goals: self.goals,
            search: Search::Idle,
        }
    }

    /// The same, for another graph.
    pub(crate) fn copied(&self, alloc: Global) -> Result<Aim, AllocError>
        ensures root { IfOk result (λ copy. copy.root ≡ self.now.root) }
        ensures goals { IfOk result (λ copy. copy.goals.items ≡ self.now.goals.items) }
        ensures walk { IfOk result (λ copy. (graph : Graph) → MayGoOn graph self.now.root self.now.walk
            → MayGoOn graph copy.root copy.walk) }
    {
        let walk = match &self.walk {
            Some(walk) => Some(walk.copied(alloc)?),
            None => None,
        };
        Ok(Aim {
            root: self.root,
            goals: Vec::from_slice(alloc, self.goals.as_slice())?,
            walk,
        })
    }
}
