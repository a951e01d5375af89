//! Calls and choices.
ghost use Rattle.std.specs.Prelude.{◌≡◌, ◌<◌, IfOk, IsTrue, length};
ghost use Rattle.cu_calculus.specs.Code.{body_of};
ghost use Rattle.cu_calculus.specs.WellFormed.{is_well_formed};
ghost use Rattle.cu_machine.specs.Graph.{node_at};
ghost use Rattle.cu_machine.specs.Rewrite.{call_step, choice_step};
ghost use Rattle.cu_step.specs.Inside.Moved.{move_of};

use crate::build::Workspace;
use crate::moved::Moved;
use crate::node;
use crate::redex::Redex;
use cu_flat::{FlatBody, FlatProgram, FunId};
use cu_graph::{Kind, Store};
use std::alloc::AllocError;

/// Two graphs with the same nodes.
fn fork_in_two<S: Store>(store: S) -> Result<(S, S), AllocError>
    ensures { IfOk result (λ stores. (S.content stores.0 ≡ S.content store)
        × (S.content stores.1 ≡ S.content store)) }
{
    let mut stores = store.fork(2)?;
    let second = stores.pop().unwrap();
    let first = stores.pop().unwrap();
    Ok((first, second))
}

impl<S: Store> Redex<S> {
    /// The step of a call, which becomes its function's right side, where the
    /// parameters stand for the arguments.
    pub(crate) fn call_step(
        self,
        program: &FlatProgram,
        workspace: &mut Workspace,
        f: FunId,
    ) -> Result<Moved<S>, AllocError>
        requires code { IsTrue (is_well_formed program.now) }
        requires id { self.id < length (S.content self.store) }
        ensures { IfOk result (λ moved. move_of S.content moved
            ≡ call_step program.now (S.content self.store) self.id
            (node_at (S.content self.store) self.id).args (body_of program.now f)) }
    {
        match program.body(f) {
            Some(FlatBody::Rule(params, body)) => {
                workspace.begin_scope(params.as_slice(), self.store.node(self.id).args)?;
                self.building_step(program, workspace, *body)
            }
            Some(FlatBody::External(_)) => self.stuck_step(),
            None => self.stuck_step(),
        }
    }

    /// The step of a choice, which becomes its left argument, and its right
    /// one.
    pub(crate) fn choice_step(self) -> Result<Moved<S>, AllocError>
        requires { self.id < length (S.content self.store) }
        ensures { IfOk result (λ moved. move_of S.content moved
            ≡ choice_step (S.content self.store) self.id
            (node_at (S.content self.store) self.id).args) }
    {
        let args = node::args(self.alloc, &self.store, self.id)?;
        let [left, right] = args.as_slice() else {
            return self.stuck_step();
        };
        let Redex { alloc, store, id } = self;
        let (mut first, mut second) = fork_in_two(store)?;
        first.put(id, Kind::Ind, &[*left])?;
        second.put(id, Kind::Ind, &[*right])?;
        let mut stores = Vec::with_capacity(alloc, 2)?;
        stores.push(first)?;
        stores.push(second)?;
        Ok(Moved::Become(stores))
    }
}
