//! Forks of every store.
ghost use Rattle.std.specs.Prelude.{◌<◌};

use crate::listed::Pair;
use cu_calculus::Lit;
use cu_frozen::FrozenStore;
use cu_graph::{Kind, PlainStore, Store};
use std::alloc::{AllocError, Global};
use std::test::Fail;

/// The number that the only node of a store is, which threads may share.
fn number<S: Store + Sync>(store: &S) -> Option<i128> {
    if store.len() != 1 {
        return None;
    }
    match store.kind(0) {
        Kind::Lit(Lit::Int(number)) => Some(number),
        _ => None,
    }
}

/// The numbers of the first fork's forks and of the second fork, after the
/// first fork was changed.
fn numbers<S: Store + Sync>(alloc: Global) -> Result<Vec<Option<i128>>, AllocError> {
    let mut store = S::empty(alloc)?;
    store.push(Kind::Lit(Lit::Int(1)), &[])?;
    let mut found = Vec::new(alloc);
    let mut stores = store.fork(2)?;
    let second = stores.pop();
    if let Some(mut first) = stores.pop() {
        if first.len() == 1 {
            first.put(0, Kind::Lit(Lit::Int(2)), &[])?;
        }
        for fork in first.fork(2)? {
            found.push(number(&fork))?;
        }
    }
    if let Some(second) = second {
        found.push(number(&second))?;
    }
    Ok(found)
}

#[test]
fn forks_are_apart(rt: HostRuntime) -> Result<(), Fail> {
    let expected = [Some(2), Some(2), Some(1)];
    assert!(rt; numbers::<PlainStore>(rt.alloc())?.as_slice() == expected.as_slice());
    assert!(rt; numbers::<FrozenStore>(rt.alloc())?.as_slice() == expected.as_slice());
    Ok(())
}

/// A chain of forks with some writes after each, of which the other side is kept
/// every so many times and dropped otherwise; whether all that are there in the
/// end have the nodes that they are to have.
fn chain_agrees<S: Store>(alloc: Global, forks: u32, every: u32) -> Result<bool, AllocError>
    requires { 0 < every }
{
    let mut kept = Vec::new(alloc);
    let mut last = Pair::<S>::empty(alloc)?;
    for depth in 0..forks {
        last.push(alloc, Kind::Ind, &[depth])?;
        last.push(alloc, Kind::Or, &[depth, depth])?;
        last.put(alloc, depth, Kind::Lit(Lit::Int(i128::from(depth))), &[])?;
        last.put(alloc, depth / 3, Kind::Ind, &[depth])?;
        let mut pairs = last.fork(alloc, 2)?;
        match (pairs.pop(), pairs.pop()) {
            (Some(one), Some(other)) => {
                if depth % every == 0 {
                    kept.push(one)?;
                }
                last = other;
            }
            _ => return Ok(false),
        }
    }
    Ok(last.agrees() && kept.iter().all(|pair| pair.agrees()))
}

/// Chains that are longer than a store has segments, of which all are shared,
/// some, or none but at the first fork.
#[test]
fn chains_agree_with_lists(rt: HostRuntime) -> Result<(), Fail> {
    for every in [1, 4, 30, 100] {
        assert!(rt; chain_agrees::<PlainStore>(rt.alloc(), 100, every)?);
        assert!(rt; chain_agrees::<FrozenStore>(rt.alloc(), 100, every)?);
    }
    Ok(())
}

/// A tree of forks in two, level by level, over a chain of which one side was
/// dropped each time; whether all its leaves have the nodes that they are to
/// have.
fn tree_agrees<S: Store>(alloc: Global, chain: u32, levels: u32) -> Result<bool, AllocError> {
    let mut level = Vec::new(alloc);
    level.push(Pair::<S>::empty(alloc)?)?;
    for depth in 0..chain.saturating_add(levels) {
        let mut next = Vec::new(alloc);
        for mut pair in level {
            pair.push(alloc, Kind::Ind, &[depth])?;
            pair.put(alloc, depth / 2, Kind::Or, &[depth, depth])?;
            for fork in pair.fork(alloc, 2)? {
                next.push(fork)?;
            }
        }
        if depth < chain {
            next.truncate(1);
        }
        level = next;
    }
    Ok(level.iter().all(|pair| pair.agrees()))
}

#[test]
fn trees_agree_with_lists(rt: HostRuntime) -> Result<(), Fail> {
    for (chain, levels) in [(0, 7), (60, 5), (23, 6)] {
        assert!(rt; tree_agrees::<PlainStore>(rt.alloc(), chain, levels)?);
        assert!(rt; tree_agrees::<FrozenStore>(rt.alloc(), chain, levels)?);
    }
    Ok(())
}
