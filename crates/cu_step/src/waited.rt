//! The names of variables that a branch waits for.
ghost use Rattle.std.specs.Prelude.{◌≡◌, ◌+◌, IfOk, map, nat_eq};
ghost use Rattle.std.specs.List.{position};
ghost use Rattle.cu_machine.specs.Graph.{head_of};
ghost use Rattle.cu_machine.specs.Next.{named};

use crate::head;
use cu_graph::Store;
use cu_machine::Waited;
use std::alloc::{AllocError, Global};

/// The names of free variables: the number of the first goal variable that
/// stands for each, and numbers from 1 for those without one.
pub(crate) fn names<S: Store>(
    alloc: Global,
    store: &S,
    goals: &[u32],
    ids: &[u32],
) -> Result<Vec<Waited>, AllocError>
    ensures { IfOk result (λ names. names.items ≡ named (S.content store.now) goals.now 1 ids.now) }
{
    let heads = heads(alloc, store, goals)?;
    let mut names = Vec::with_capacity(alloc, ids.len())?;
    let mut next = 1;
    for id in ids {
        if let Some(goal) = goal_for(heads.as_slice(), *id)? {
            names.push(Waited::Named(goal))?;
            continue;
        }
        names.push(Waited::Other(next))?;
        next = following(next)?;
    }
    Ok(names)
}

/// The indices of the heads of nodes.
fn heads<S: Store>(alloc: Global, store: &S, ids: &[u32]) -> Result<Vec<u32>, AllocError>
    ensures { IfOk result (λ heads. heads.items ≡ map (head_of (S.content store.now)) ids.now) }
{
    let mut heads = Vec::with_capacity(alloc, ids.len())?;
    for id in ids {
        heads.push(head::find(store, *id))?;
    }
    Ok(heads)
}

/// The number of the first goal variable whose head is the node with this
/// index.
fn goal_for(heads: &[u32], id: u32) -> Result<Option<u32>, AllocError>
    ensures { IfOk result (λ goal. goal ≡ position (λ head. nat_eq head id) heads.now) }
{
    match place_in(heads, id) {
        Some(place) => Ok(Some(to_u32(place)?)),
        None => Ok(None),
    }
}

/// The first position of a number in a list.
fn place_in(ids: &[u32], id: u32) -> Option<usize>
    ensures { result ≡ position (λ other. nat_eq other id) ids.now }
{
    ids.iter().position(|other| *other == id)
}

/// The number as one of 32 bits. Where it is larger, memory has run out.
pub(crate) fn to_u32(n: usize) -> Result<u32, AllocError>
    ensures { IfOk result (λ number. number ≡ n) }
{
    match u32::try_from(n) {
        Ok(number) => Ok(number),
        Err(_) => Err(AllocError),
    }
}

/// The next number. Where there is none, memory has run out.
pub(crate) fn following(n: u32) -> Result<u32, AllocError>
    ensures { IfOk result (λ next. next ≡ n + 1) }
{
    match n.checked_add(1) {
        Some(next) => Ok(next),
        None => Err(AllocError),
    }
}
