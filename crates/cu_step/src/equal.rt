//! Equality and conjunction.
ghost use Rattle.std.specs.Prelude.{◌≡◌, ◌<◌, IfOk, length};
ghost use Rattle.cu_machine.specs.Rewrite.{comparison_step, conjunction_step, is_true};
ghost use Rattle.cu_step.specs.Inside.Moved.{move_of};

use crate::case::is_same_literal;
use crate::moved::Moved;
use crate::operand::Operand;
use crate::pairs;
use crate::redex::Redex;
use cu_flat::{Prim, Special};
use cu_graph::{Kind, Store};
use std::alloc::AllocError;

/// Whether a head is True.
fn is_true(special: &Special, kind: Kind) -> bool
    ensures { result ≡ is_true special.now kind }
{
    match kind {
        Kind::Cons(c) => c == special.truth,
        _ => false,
    }
}

impl<S: Store> Redex<S> {
    /// The step of `==`, by the heads of its sides. On a partial application it
    /// fails.
    pub(crate) fn comparison_step(
        self,
        special: &Special,
        left: &Operand,
        right: &Operand,
    ) -> Result<Moved<S>, AllocError>
        requires { self.id < length (S.content self.store) }
        ensures { IfOk result (λ moved. move_of S.content moved
            ≡ comparison_step special.now (S.content self.store) self.id
            left.now.kind left.now.args.items right.now.kind right.now.args.items) }
    {
        match left.kind {
            Kind::Cons(c) => match right.kind {
                Kind::Cons(d) => {
                    if c != d {
                        return self.truth_step(special, false);
                    }
                    let pairs = pairs::paired(
                        self.alloc,
                        left.args.as_slice(),
                        right.args.as_slice(),
                    )?;
                    let each = Kind::Prim(Prim::Equal);
                    let joint = Kind::Call(special.both);
                    self.pairwise_step(special, each, joint, pairs.as_slice())
                }
                Kind::Lit(_) => self.truth_step(special, false),
                _ => self.failing_step(),
            },
            Kind::Lit(l) => match right.kind {
                Kind::Cons(_) => self.truth_step(special, false),
                Kind::Lit(m) => self.truth_step(special, is_same_literal(l, m)),
                _ => self.failing_step(),
            },
            _ => self.failing_step(),
        }
    }

    /// The step of `&`, by the heads of its sides.
    pub(crate) fn conjunction_step(
        self,
        special: &Special,
        left: Kind,
        right: Kind,
    ) -> Result<Moved<S>, AllocError>
        requires { self.id < length (S.content self.store) }
        ensures { IfOk result (λ moved. move_of S.content moved
            ≡ conjunction_step special.now (S.content self.store) self.id left right) }
    {
        if is_true(special, left) && is_true(special, right) {
            self.truth_step(special, true)
        } else {
            self.failing_step()
        }
    }
}
