//! The rows of the step table.
ghost use Rattle.std.specs.Prelude.{◌≡◌, ◌<◌, IfOk, IsTrue, length, not};
ghost use Rattle.cu_calculus.specs.declared.builtin.Primitive.TheVariants as prim;
ghost use Rattle.cu_calculus.specs.WellFormed.{is_well_formed};
ghost use Rattle.cu_machine.specs.Graph.{node_at};
ghost use Rattle.cu_machine.specs.Rewrite.{move, operation_step, rewrite_step};
ghost use Rattle.cu_machine.specs.Validity.{ArgumentsThere, IsAcyclic, is_set_call};
ghost use Rattle.cu_step.specs.Inside.Moved.{move_of};

use crate::build::Workspace;
use crate::moved::Moved;
use crate::redex::Redex;
use crate::{head, node, operand};
use cu_flat::{FlatProgram, Prim, Special};
use cu_graph::{Kind, Store};
use std::alloc::AllocError;

impl<S: Store> Redex<S> {
    /// The step of `==` on its arguments.
    fn equal_step(self, special: &Special, args: &[u32]) -> Result<Moved<S>, AllocError>
        requires { self.id < length (S.content self.store) }
        ensures { IfOk result (λ moved. move_of S.content moved
            ≡ operation_step special.now (S.content self.store) self.id prim.Equal args.now) }
    {
        let [a, b] = args else {
            return self.stuck_step();
        };
        let left = operand::at(self.alloc, &self.store, *a)?;
        let right = operand::at(self.alloc, &self.store, *b)?;
        self.comparison_step(special, &left, &right)
    }

    /// The step of `=:=` on its arguments.
    #[tactic(auto, using(crate::proofs::Operands::operands))]
    fn unify_step(self, special: &Special, args: &[u32]) -> Result<Moved<S>, AllocError>
        requires id { self.id < length (S.content self.store) }
        requires arguments { ArgumentsThere (S.content self.store) }
        requires acyclic { IsAcyclic (S.content self.store) }
        ensures { IfOk result (λ moved. move_of S.content moved
            ≡ operation_step special.now (S.content self.store) self.id prim.Unify args.now) }
    {
        let [a, b] = args else {
            return self.stuck_step();
        };
        let left = operand::at(self.alloc, &self.store, *a)?;
        let right = operand::at(self.alloc, &self.store, *b)?;
        self.unification_step(special, &left, &right)
    }

    /// The step of `&` on its arguments.
    fn and_step(self, special: &Special, args: &[u32]) -> Result<Moved<S>, AllocError>
        requires { self.id < length (S.content self.store) }
        ensures { IfOk result (λ moved. move_of S.content moved
            ≡ operation_step special.now (S.content self.store) self.id prim.And args.now) }
    {
        let [a, b] = args else {
            return self.stuck_step();
        };
        let left = node::kind_at(&self.store, head::find(&self.store, *a));
        let right = node::kind_at(&self.store, head::find(&self.store, *b));
        self.conjunction_step(special, left, right)
    }

    /// The step of a built-in operation on its arguments.
    #[tactic(auto, using(crate::proofs::Operands::operands))]
    fn operation_step(self, special: &Special, operation: Prim) -> Result<Moved<S>, AllocError>
        requires id { self.id < length (S.content self.store) }
        requires arguments { ArgumentsThere (S.content self.store) }
        requires acyclic { IsAcyclic (S.content self.store) }
        ensures { IfOk result (λ moved. move_of S.content moved
            ≡ operation_step special.now (S.content self.store) self.id operation
            (node_at (S.content self.store) self.id).args) }
    {
        let args = node::args(self.alloc, &self.store, self.id)?;
        match operation {
            Prim::Equal => self.equal_step(special, args.as_slice()),
            Prim::Unify => self.unify_step(special, args.as_slice()),
            Prim::And => self.and_step(special, args.as_slice()),
            _ => self.literal_step(special, operation, args.as_slice()),
        }
    }

    /// What becomes of the graph where the redex is rewritten. The call of a
    /// set function is rewritten elsewhere, by `begin` of `set_call`.
    pub(crate) fn rewrite_step(
        self,
        program: &FlatProgram,
        workspace: &mut Workspace,
    ) -> Result<Moved<S>, AllocError>
        requires code { IsTrue (is_well_formed program.now) }
        requires id { self.id < length (S.content self.store) }
        requires call { IsTrue (not (is_set_call (node_at (S.content self.store) self.id).kind)) }
        requires arguments { ArgumentsThere (S.content self.store) }
        requires acyclic { IsAcyclic (S.content self.store) }
        ensures { IfOk result (λ moved. move_of S.content moved
            ≡ move program.now (S.content self.store) self.id) }
    {
        match self.store.kind(self.id) {
            Kind::Call(f) => self.call_step(program, workspace, f),
            Kind::Or => self.choice_step(),
            Kind::Case(mode, e) => self.case_step(program, workspace, mode, e),
            Kind::Apply => self.application_step(program),
            Kind::Prim(operation) => self.operation_step(program.special(), operation),
            Kind::SetCall(_) => unreachable!(),
            _ => self.stuck_step(),
        }
    }
}
