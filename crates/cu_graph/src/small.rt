//! Kinds of nodes in eight bytes.
ghost use Rattle.std.specs.Prelude.{◌≡◌, List, false, IfOk, IfSome, IsNone};
ghost use Rattle.cu_machine.specs.declared.Kind.{Kind};
ghost use Rattle.cu_graph.specs.Small.{IsInTable, kind_of};
ghost use Rattle.cu_graph.specs.Inside.Packing.{KeepsKinds, StandsFor, is_short, is_short_integer, is_small};

use cu_calculus::{ConId, FunId, Head, Int, Lit, Mode, Prim};
use cu_machine::Kind;
use std::alloc::AllocError;

/// What a node is, in eight bytes: a kind whose number 32 bits hold, or the
/// place of a kind in a table beside it.
#[derive(Clone, Copy)]
pub(crate) enum SmallKind {
    /// A constructor with all its arguments.
    Cons(u32),
    /// An integer.
    Int(i32),
    /// A character.
    Char(char),
    /// A function with fewer arguments than it takes.
    PartFun(u32),
    /// A constructor with fewer arguments than it takes.
    PartCon(u32),
    /// A set function with fewer arguments than it takes.
    PartSet(u32),
    /// A free variable.
    Free,
    /// A call of a function that has rules.
    Call(u32),
    /// A built-in operation.
    Prim(Prim),
    /// An application.
    Apply,
    /// A case distinction that waits for a free variable.
    Rigid(u32),
    /// A case distinction that binds a free variable.
    Flex(u32),
    /// A choice.
    Or,
    /// Another name of a node.
    Ind,
    /// A call of a set function.
    SetCall(u32),
    /// A node that has no value.
    Fail,
    /// A node that can't go on.
    Stuck,
    /// Any other kind, by its index in the table.
    Wide(u32),
}

/// A number in 32 bits, if they hold it.
fn number(id: usize) -> Option<u32>
    ensures same { IfSome result (λ number. number ≡ id) }
    ensures wide { IsNone result → is_short id ≡ false }
{
    if id <= u32::MAX as usize {
        Some(id as u32)
    } else {
        None
    }
}

/// An integer in 32 bits with a sign, if they hold it.
fn integer(value: Int) -> Option<i32>
    ensures same { IfSome result (λ integer. integer ≡ value) }
    ensures wide { IsNone result → is_short_integer value ≡ false }
{
    if Int::from(i32::MIN) <= value && value <= Int::from(i32::MAX) {
        Some(value as i32)
    } else {
        None
    }
}

impl SmallKind {
    /// The small kind that stands for a kind whatever the table is, if its
    /// number fits.
    fn of(kind: Kind) -> Option<SmallKind>
        ensures small { IfSome result (λ small. (table : List Kind) → StandsFor table small kind) }
        ensures wide { IsNone result → is_small kind ≡ false }
    {
        Some(match kind {
            Kind::Cons(ConId(id)) => SmallKind::Cons(number(id)?),
            Kind::Lit(Lit::Int(value)) => SmallKind::Int(integer(value)?),
            Kind::Lit(Lit::Char(value)) => SmallKind::Char(value),
            Kind::Part(Head::Fun(FunId(id))) => SmallKind::PartFun(number(id)?),
            Kind::Part(Head::Con(ConId(id))) => SmallKind::PartCon(number(id)?),
            Kind::Part(Head::Set(FunId(id))) => SmallKind::PartSet(number(id)?),
            Kind::Free => SmallKind::Free,
            Kind::Call(FunId(id)) => SmallKind::Call(number(id)?),
            Kind::Prim(operation) => SmallKind::Prim(operation),
            Kind::Apply => SmallKind::Apply,
            Kind::Case(Mode::Rigid, id) => SmallKind::Rigid(number(id)?),
            Kind::Case(Mode::Flex, id) => SmallKind::Flex(number(id)?),
            Kind::Or => SmallKind::Or,
            Kind::Ind => SmallKind::Ind,
            Kind::SetCall(FunId(id)) => SmallKind::SetCall(number(id)?),
            Kind::Fail => SmallKind::Fail,
            Kind::Stuck => SmallKind::Stuck,
        })
    }

    /// A kind in eight bytes. If its number doesn't fit, it goes into the
    /// table. An `Err` changes nothing.
    pub(crate) fn pack(table: &mut Vec<Kind>, kind: Kind) -> Result<SmallKind, AllocError>
        ensures stands { IfOk result (λ small. StandsFor table.new.items small kind) }
        ensures kept { KeepsKinds table.old.items table.new.items }
    {
        if let Some(small) = SmallKind::of(kind) {
            return Ok(small);
        }
        let index = table.len();
        if index > u32::MAX as usize {
            return Err(AllocError);
        }
        table.push(kind)?;
        Ok(SmallKind::Wide(index as u32))
    }

    /// The kind that this one stands for, over its table.
    #[inline(always)]
    pub(crate) fn kind(self, table: &[Kind]) -> Kind
        requires { IsInTable table.now self }
        ensures { result ≡ kind_of table.now self }
    {
        match self {
            SmallKind::Cons(id) => Kind::Cons(ConId(id as usize)),
            SmallKind::Int(value) => Kind::Lit(Lit::Int(Int::from(value))),
            SmallKind::Char(value) => Kind::Lit(Lit::Char(value)),
            SmallKind::PartFun(id) => Kind::Part(Head::Fun(FunId(id as usize))),
            SmallKind::PartCon(id) => Kind::Part(Head::Con(ConId(id as usize))),
            SmallKind::PartSet(id) => Kind::Part(Head::Set(FunId(id as usize))),
            SmallKind::Free => Kind::Free,
            SmallKind::Call(id) => Kind::Call(FunId(id as usize)),
            SmallKind::Prim(operation) => Kind::Prim(operation),
            SmallKind::Apply => Kind::Apply,
            SmallKind::Rigid(id) => Kind::Case(Mode::Rigid, id as usize),
            SmallKind::Flex(id) => Kind::Case(Mode::Flex, id as usize),
            SmallKind::Or => Kind::Or,
            SmallKind::Ind => Kind::Ind,
            SmallKind::SetCall(id) => Kind::SetCall(FunId(id as usize)),
            SmallKind::Fail => Kind::Fail,
            SmallKind::Stuck => Kind::Stuck,
            SmallKind::Wide(index) => table[index as usize],
        }
    }
}
