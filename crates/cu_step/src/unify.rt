//! Equations.
ghost use Rattle.std.specs.Prelude.{◌≡◌, ◌<◌, IfOk, length, true};
ghost use Rattle.cu_machine.specs.declared.Kind.TheVariants as kind;
ghost use Rattle.cu_machine.specs.Rewrite.{binding_step, decomposition_step, imitation_step, unification_step};
ghost use Rattle.cu_machine.specs.Validity.{ArgumentsThere, IsAcyclic, are_places};
ghost use Rattle.std.specs.Prelude.{zip};
ghost use Rattle.cu_step.specs.Inside.Moved.{move_of};

use crate::case::is_same_literal;
use crate::moved::Moved;
use crate::occurs::Sought;
use crate::operand::Operand;
use crate::redex::Redex;
use crate::{free, occurs, pairs};
use cu_flat::{ConId, Prim, Special};
use cu_graph::{Kind, Store};
use std::alloc::AllocError;

impl<S: Store> Redex<S> {
    /// The step of `=:=` on two like constructors: equations of their arguments
    /// in pairs.
    fn decomposition_step(
        self,
        special: &Special,
        left: &[u32],
        right: &[u32],
    ) -> Result<Moved<S>, AllocError>
        requires { self.id < length (S.content self.store) }
        ensures { IfOk result (λ moved. move_of S.content moved
            ≡ decomposition_step special.now (S.content self.store) self.id
            (zip left.now right.now)) }
    {
        let pairs = pairs::paired(self.alloc, left, right)?;
        let each = Kind::Prim(Prim::Unify);
        let joint = Kind::Prim(Prim::And);
        self.pairwise_step(special, each, joint, pairs.as_slice())
    }

    /// The step in which a free variable becomes an Ind of a node, and the
    /// equation holds.
    fn binding_step(
        mut self,
        special: &Special,
        variable: u32,
        other: u32,
    ) -> Result<Moved<S>, AllocError>
        requires id { self.id < length (S.content self.store) }
        requires variable { variable < length (S.content self.store) }
        ensures { IfOk result (λ moved. move_of S.content moved
            ≡ binding_step special.now (S.content self.store) self.id variable other) }
    {
        self.store.put(variable, Kind::Ind, &[other])?;
        self.truth_step(special, true)
    }

    /// The step of an equation of a free variable with a constructor over
    /// arguments.
    #[tactic(auto, using(crate::proofs::Imitations::imitations))]
    fn imitation_step(
        mut self,
        special: &Special,
        variable: u32,
        c: ConId,
        other: &Operand,
    ) -> Result<Moved<S>, AllocError>
        requires id { self.id < length (S.content self.store) }
        requires variable { variable < length (S.content self.store) }
        requires args { are_places (length (S.content self.store)) other.now.args.items ≡ true }
        requires arguments { ArgumentsThere (S.content self.store) }
        requires acyclic { IsAcyclic (S.content self.store) }
        ensures { IfOk result (λ moved. move_of S.content moved
            ≡ imitation_step special.now (S.content self.store) self.id variable other.now.id c
            other.now.args.items) }
    {
        let args = other.args.as_slice();
        if args.is_empty() {
            return self.binding_step(special, variable, other.id);
        }
        if occurs::are_reached(self.alloc, &self.store, Sought::Variable(variable), args)? {
            return self.failing_step();
        }
        let fresh = free::to_constructor(self.alloc, &mut self.store, variable, c, args.len())?;
        self.decomposition_step(special, fresh.as_slice(), args)
    }

    /// The step of `=:=`, by the heads of its sides. A partial application
    /// equals nothing.
    pub(crate) fn unification_step(
        self,
        special: &Special,
        left: &Operand,
        right: &Operand,
    ) -> Result<Moved<S>, AllocError>
        requires id { self.id < length (S.content self.store) }
        requires left { left.now.kind ≡ kind.Free → left.now.id < length (S.content self.store) }
        requires right { right.now.kind ≡ kind.Free
            → right.now.id < length (S.content self.store) }
        requires left_args { are_places (length (S.content self.store)) left.now.args.items
            ≡ true }
        requires right_args { are_places (length (S.content self.store)) right.now.args.items
            ≡ true }
        requires arguments { ArgumentsThere (S.content self.store) }
        requires acyclic { IsAcyclic (S.content self.store) }
        ensures { IfOk result (λ moved. move_of S.content moved
            ≡ unification_step special.now (S.content self.store) self.id
            left.now.id left.now.kind left.now.args.items right.now.id right.now.kind
            right.now.args.items) }
    {
        match left.kind {
            Kind::Free => match right.kind {
                Kind::Free => {
                    if left.id == right.id {
                        return self.truth_step(special, true);
                    }
                    self.binding_step(special, left.id, right.id)
                }
                Kind::Lit(_) => self.binding_step(special, left.id, right.id),
                Kind::Cons(d) => self.imitation_step(special, left.id, d, right),
                _ => self.failing_step(),
            },
            Kind::Lit(l) => match right.kind {
                Kind::Free => self.binding_step(special, right.id, left.id),
                Kind::Lit(m) => {
                    if !is_same_literal(l, m) {
                        return self.failing_step();
                    }
                    self.truth_step(special, true)
                }
                _ => self.failing_step(),
            },
            Kind::Cons(c) => match right.kind {
                Kind::Free => self.imitation_step(special, right.id, c, left),
                Kind::Cons(d) => {
                    if c != d {
                        return self.failing_step();
                    }
                    let (us, vs) = (left.args.as_slice(), right.args.as_slice());
                    self.decomposition_step(special, us, vs)
                }
                _ => self.failing_step(),
            },
            _ => self.failing_step(),
        }
    }
}
