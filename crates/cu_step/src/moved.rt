//! What becomes of a graph where one of its nodes is rewritten.
ghost use Rattle.std.specs.Prelude.{◌≡◌, ◌<◌, IfOk, length};
ghost use Rattle.cu_machine.specs.Graph.{alone};
ghost use Rattle.cu_machine.specs.Rewrite.{failing_step, replacement_step, stuck_step, truth_step};
ghost use Rattle.cu_step.specs.Inside.Moved.{move_of};

use crate::redex::Redex;
use cu_flat::{Int, Prim, Special};
use cu_graph::{Kind, Store};
use std::alloc::AllocError;

/// What becomes of a graph in a step of one of its nodes.
#[derive(Drop)]
pub(crate) enum Moved<S> {
    /// This graph alone follows.
    Alone(S),
    /// These graphs follow, from left to right.
    Become(Vec<S>),
    /// An operation on these integers has a result that is no `Int`.
    Overflow(Prim, Int, Int),
}

impl<S: Store> Redex<S> {
    /// The step that puts a node without arguments in the place of the redex.
    pub(crate) fn replacement_step(self, kind: Kind) -> Result<Moved<S>, AllocError>
        requires { self.id < length (S.content self.store) }
        ensures { IfOk result (λ moved. move_of S.content moved
            ≡ replacement_step (S.content self.store) self.id (alone kind)) }
    {
        let Redex { mut store, id, .. } = self;
        store.put(id, kind, &[])?;
        Ok(Moved::Alone(store))
    }

    /// The step in which the redex fails.
    pub(crate) fn failing_step(self) -> Result<Moved<S>, AllocError>
        requires { self.id < length (S.content self.store) }
        ensures { IfOk result (λ moved. move_of S.content moved
            ≡ failing_step (S.content self.store) self.id) }
    {
        self.replacement_step(Kind::Fail)
    }

    /// The step in which the redex becomes stuck.
    pub(crate) fn stuck_step(self) -> Result<Moved<S>, AllocError>
        requires { self.id < length (S.content self.store) }
        ensures { IfOk result (λ moved. move_of S.content moved
            ≡ stuck_step (S.content self.store) self.id) }
    {
        self.replacement_step(Kind::Stuck)
    }

    /// The step in which the redex becomes True or False.
    pub(crate) fn truth_step(self, special: &Special, answer: bool) -> Result<Moved<S>, AllocError>
        requires { self.id < length (S.content self.store) }
        ensures { IfOk result (λ moved. move_of S.content moved
            ≡ truth_step special.now (S.content self.store) self.id answer) }
    {
        let truth = if answer {
            special.truth
        } else {
            special.falsity
        };
        self.replacement_step(Kind::Cons(truth))
    }
}
