//! Numbers and characters.
ghost use Rattle.std.specs.Prelude.{◌≡◌, ◌<◌, IfOk, length, map};
ghost use Rattle.cu_machine.specs.Graph.{head_at};
ghost use Rattle.cu_machine.specs.Rewrite.{arithmetic_step, literal_step};
ghost use Rattle.cu_step.specs.Inside.Moved.{move_of};
ghost use Rattle.cu_step.specs.Inside.Numbers.{character_in, character_of, integer_in, on_character, on_integer, on_integers, on_one, result_step};

use crate::moved::Moved;
use crate::operand;
use crate::redex::Redex;
use cu_flat::{Int, Lit, Prim, Special};
use cu_graph::{Kind, Store};
use cu_int::{floor_quotient, floor_rest};
use std::alloc::AllocError;

/// The character of a number, where there is one.
fn character_of(n: Int) -> Option<char>
    ensures { result ≡ character_of n }
{
    let code = u32::try_from(n).ok()?;
    char::from_u32(code)
}

/// The integer that a head is.
fn integer_in(kind: Kind) -> Option<Int>
    ensures { result ≡ integer_in kind }
{
    match kind {
        Kind::Lit(Lit::Int(n)) => Some(n),
        Kind::Lit(Lit::Char(_)) => None,
        _ => None,
    }
}

/// The character that a head is.
fn character_in(kind: Kind) -> Option<char>
    ensures { result ≡ character_in kind }
{
    match kind {
        Kind::Lit(Lit::Char(c)) => Some(c),
        Kind::Lit(Lit::Int(_)) => None,
        _ => None,
    }
}

impl<S: Store> Redex<S> {
    /// The step to the integer that an operation computed from two, or the
    /// overflow.
    fn result_step(
        self,
        operation: Prim,
        m: Int,
        n: Int,
        result_or_none: Option<Int>,
    ) -> Result<Moved<S>, AllocError>
        requires { self.id < length (S.content self.store) }
        ensures { IfOk result (λ moved. move_of S.content moved
            ≡ result_step (S.content self.store) self.id operation m n result_or_none) }
    {
        match result_or_none {
            Some(number) => self.replacement_step(Kind::Lit(Lit::Int(number))),
            None => Ok(Moved::Overflow(operation, m, n)),
        }
    }

    /// The step of an operation on two integers.
    fn arithmetic_step(
        self,
        special: &Special,
        operation: Prim,
        m: Int,
        n: Int,
    ) -> Result<Moved<S>, AllocError>
        requires { self.id < length (S.content self.store) }
        ensures { IfOk result (λ moved. move_of S.content moved
            ≡ arithmetic_step special.now (S.content self.store) self.id operation m n) }
    {
        match operation {
            Prim::Add => self.result_step(operation, m, n, m.checked_add(n)),
            Prim::Sub => self.result_step(operation, m, n, m.checked_sub(n)),
            Prim::Mul => self.result_step(operation, m, n, m.checked_mul(n)),
            Prim::Div => {
                if n == 0 {
                    return self.failing_step();
                }
                self.result_step(operation, m, n, floor_quotient(m, n))
            }
            Prim::Mod => {
                if n == 0 {
                    return self.failing_step();
                }
                self.result_step(operation, m, n, Some(floor_rest(m, n)))
            }
            Prim::Less => self.truth_step(special, m < n),
            Prim::AtMost => self.truth_step(special, m <= n),
            Prim::Greater => self.truth_step(special, m > n),
            Prim::AtLeast => self.truth_step(special, m >= n),
            _ => self.failing_step(),
        }
    }

    /// The step from a character to its number, or the failure where there is
    /// none.
    fn on_character(self, character: Option<char>) -> Result<Moved<S>, AllocError>
        requires { self.id < length (S.content self.store) }
        ensures { IfOk result (λ moved. move_of S.content moved
            ≡ on_character (S.content self.store) self.id character) }
    {
        match character {
            Some(c) => {
                let number = Int::from(u32::from(c));
                self.replacement_step(Kind::Lit(Lit::Int(number)))
            }
            None => self.failing_step(),
        }
    }

    /// The step from a number to its character, or the failure where there is
    /// none.
    fn on_integer(self, number: Option<Int>) -> Result<Moved<S>, AllocError>
        requires { self.id < length (S.content self.store) }
        ensures { IfOk result (λ moved. move_of S.content moved
            ≡ on_integer (S.content self.store) self.id number) }
    {
        let Some(n) = number else {
            return self.failing_step();
        };
        match character_of(n) {
            Some(c) => self.replacement_step(Kind::Lit(Lit::Char(c))),
            None => self.failing_step(),
        }
    }

    /// The step of an operation on one operand, by its head.
    fn on_one(self, operation: Prim, kind: Kind) -> Result<Moved<S>, AllocError>
        requires { self.id < length (S.content self.store) }
        ensures { IfOk result (λ moved. move_of S.content moved
            ≡ on_one (S.content self.store) self.id operation kind) }
    {
        match operation {
            Prim::Ord => self.on_character(character_in(kind)),
            Prim::Chr => self.on_integer(integer_in(kind)),
            _ => self.failing_step(),
        }
    }

    /// The step of an operation on two operands, by their heads.
    fn on_two(
        self,
        special: &Special,
        operation: Prim,
        left: Kind,
        right: Kind,
    ) -> Result<Moved<S>, AllocError>
        requires { self.id < length (S.content self.store) }
        ensures { IfOk result (λ moved. move_of S.content moved
            ≡ on_integers special.now (S.content self.store) self.id operation (integer_in left)
            (integer_in right)) }
    {
        let Some(m) = integer_in(left) else {
            return self.failing_step();
        };
        let Some(n) = integer_in(right) else {
            return self.failing_step();
        };
        self.arithmetic_step(special, operation, m, n)
    }

    /// The step of an operation on numbers or characters. On anything else it
    /// fails.
    pub(crate) fn literal_step(
        self,
        special: &Special,
        operation: Prim,
        args: &[u32],
    ) -> Result<Moved<S>, AllocError>
        requires { self.id < length (S.content self.store) }
        ensures { IfOk result (λ moved. move_of S.content moved
            ≡ literal_step special.now (S.content self.store) self.id operation
            (map (λ arg. (head_at (S.content self.store) arg).kind) args.now)) }
    {
        let kinds = operand::kinds(self.alloc, &self.store, args)?;
        match kinds.as_slice() {
            [kind] => self.on_one(operation, *kind),
            [left, right] => self.on_two(special, operation, *left, *right),
            _ => self.failing_step(),
        }
    }
}
