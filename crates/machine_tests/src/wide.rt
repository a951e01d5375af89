//! Numbers that 32 bits don't hold, beside others.
use crate::listed::Pair;
use cu_calculus::{ConId, FunId, Head, Lit, Mode, Prim};
use cu_frozen::FrozenStore;
use cu_graph::{Kind, PlainStore, Store};
use std::alloc::{AllocError, Global};
use std::test::Fail;

/// The kinds that have this number, whatever it is a number of.
fn numbered(id: usize) -> [Kind; 8] {
    [
        Kind::Cons(ConId(id)),
        Kind::Part(Head::Fun(FunId(id))),
        Kind::Part(Head::Con(ConId(id))),
        Kind::Part(Head::Set(FunId(id))),
        Kind::Call(FunId(id)),
        Kind::Case(Mode::Rigid, id),
        Kind::Case(Mode::Flex, id),
        Kind::SetCall(FunId(id)),
    ]
}

/// Kinds of every sort, with numbers at the ends of what 32 bits hold.
fn kinds(alloc: Global) -> Result<Vec<Kind>, AllocError> {
    let mut kinds = Vec::from_slice(
        alloc,
        &[
            Kind::Lit(Lit::Char('\0')),
            Kind::Lit(Lit::Char('\u{10FFFF}')),
            Kind::Free,
            Kind::Prim(Prim::Add),
            Kind::Prim(Prim::Failed),
            Kind::Apply,
            Kind::Or,
            Kind::Ind,
            Kind::Fail,
            Kind::Stuck,
        ],
    )?;
    for id in [0, 4_294_967_295, 4_294_967_296, usize::MAX] {
        kinds.extend_from_slice(&numbered(id))?;
    }
    for value in [0, 2_147_483_647, -2_147_483_648] {
        kinds.push(Kind::Lit(Lit::Int(value)))?;
    }
    for value in [2_147_483_648, -2_147_483_649, i128::MAX, i128::MIN] {
        kinds.push(Kind::Lit(Lit::Int(value)))?;
    }
    Ok(kinds)
}

/// Puts these kinds in the places of the first nodes.
fn put_all<S: Store>(
    pair: &mut Pair<S>,
    alloc: Global,
    kinds: &[Kind],
    args: &[u32],
) -> Result<(), AllocError> {
    let mut place = 0u32;
    for kind in kinds {
        pair.put(alloc, place, *kind, args)?;
        place = place.saturating_add(1);
    }
    Ok(())
}

/// Whether a store has the nodes that it is to have each time after all kinds
/// were put one place further, with up to three arguments.
fn puts_agree<S: Store>(alloc: Global) -> Result<bool, AllocError> {
    let mut kinds = kinds(alloc)?;
    let mut pair = Pair::<S>::empty(alloc)?;
    for kind in kinds.as_slice() {
        pair.push(alloc, *kind, &[1, 2, 3])?;
    }
    for round in 0..kinds.len() {
        kinds.as_mut_slice().rotate_left(1);
        put_all(&mut pair, alloc, kinds.as_slice(), &[4, 5, 6][..round % 4])?;
        if !pair.agrees() {
            return Ok(false);
        }
    }
    Ok(true)
}

#[test]
fn wide_kinds_agree_with_lists(rt: HostRuntime) -> Result<(), Fail> {
    assert!(rt; puts_agree::<PlainStore>(rt.alloc())?);
    assert!(rt; puts_agree::<FrozenStore>(rt.alloc())?);
    Ok(())
}
