//! Applications.
ghost use Rattle.std.specs.Prelude.{◌≡◌, ◌<◌, [], ◌∷◌, ◌++◌, IfOk, length};
ghost use Rattle.cu_calculus.specs.Code.{arity_of};
ghost use Rattle.cu_machine.specs.declared.Kind.TheVariants as kind;
ghost use Rattle.cu_machine.specs.Graph.{node_at};
ghost use Rattle.cu_machine.specs.Rewrite.{extended, replacement_step, rewrite_step};
ghost use Rattle.cu_step.specs.Inside.Moved.{move_of};

use crate::moved::Moved;
use crate::operand::{self, Operand};
use crate::redex::Redex;
use crate::{build, node};
use cu_flat::{FlatProgram, Head};
use cu_graph::{Kind, Store};
use std::alloc::AllocError;

impl<S: Store> Redex<S> {
    /// The step to a head over more arguments: a partial application still, or
    /// a whole call.
    fn extended(
        self,
        program: &FlatProgram,
        head: Head,
        args: &[u32],
    ) -> Result<Moved<S>, AllocError>
        requires { self.id < length (S.content self.store) }
        ensures { IfOk result (λ moved. move_of S.content moved
            ≡ replacement_step (S.content self.store) self.id
            (extended program.now head args.now (arity_of program.now head))) }
    {
        let Some(arity) = program.arity_if_known(head) else {
            return self.stuck_step();
        };
        let Redex { mut store, id, .. } = self;
        if args.len() < arity as usize {
            store.put(id, Kind::Part(head), args)?;
        } else {
            store.put(id, build::kind_of_whole(program, head), args)?;
        }
        Ok(Moved::Alone(store))
    }

    /// The step of an application. A partial application takes one argument
    /// more; nothing else can be applied.
    pub(crate) fn application_step(self, program: &FlatProgram) -> Result<Moved<S>, AllocError>
        requires { self.id < length (S.content self.store) }
        ensures { IfOk result (λ moved. move_of S.content moved
            ≡ rewrite_step program.now (S.content self.store) self.id kind.Apply
            (node_at (S.content self.store) self.id).args) }
    {
        let args = node::args(self.alloc, &self.store, self.id)?;
        let [function, argument] = args.as_slice() else {
            return self.stuck_step();
        };
        let Operand { id: _, kind, args } = operand::at(self.alloc, &self.store, *function)?;
        let Kind::Part(head) = kind else {
            return self.failing_step();
        };
        let mut longer = args;
        longer.push(*argument)?;
        self.extended(program, head, longer.as_slice())
    }
}
