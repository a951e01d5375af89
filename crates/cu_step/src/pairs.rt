//! Comparisons and equations of arguments in pairs.
ghost use Rattle.std.specs.Prelude.{◌≡◌, ◌<◌, ◌≤◌, ◌-◌, ◌++◌, IfOk, OnOk, length, zip};
ghost use Rattle.cu_machine.specs.Build.{place_of, pushed};
ghost use Rattle.cu_machine.specs.Rewrite.{joined_from_right, pair_nodes, pairwise_step};
ghost use Rattle.cu_step.specs.Inside.Moved.{move_of};
ghost use Rattle.cu_step.specs.Inside.Pairs.{over_pairs};

use crate::moved::Moved;
use crate::node;
use crate::redex::Redex;
use cu_flat::Special;
use cu_graph::{Kind, Store};
use std::alloc::{AllocError, Global};

/// The pairs of what stands at the same places in two lists.
pub(crate) fn paired(
    alloc: Global,
    left: &[u32],
    right: &[u32],
) -> Result<Vec<(u32, u32)>, AllocError>
    ensures { IfOk result (λ pairs. pairs.items ≡ zip left.now right.now) }
{
    left.iter()
        .copied()
        .zip(right.iter().copied())
        .collect(alloc)
}

/// Pushes a node over each pair, from the left.
fn push_each<S: Store>(store: &mut S, each: Kind, pairs: &[(u32, u32)]) -> Result<(), AllocError>
    ensures { OnOk result (S.content store.new ≡ S.content store.old ++ pair_nodes each pairs.now) }
{
    for (a, b) in pairs {
        let _ = node::push(store, each, &[*a, *b])?;
    }
    Ok(())
}

/// Joins the nodes from one index to another from the right, and answers the
/// index of the outermost one.
fn join<S: Store>(store: &mut S, joint: Kind, first: u32, last: u32) -> Result<u32, AllocError>
    requires { first ≤ last }
    ensures content { OnOk result (S.content store.new ≡ S.content store.old
        ++ pushed (joined_from_right joint (length (S.content store.old)) first (last - first))) }
    ensures place { IfOk result (λ place. place ≡ place_of (length (S.content store.old))
        (joined_from_right joint (length (S.content store.old)) first (last - first))) }
{
    let mut left = last;
    let mut place = last;
    while first < left {
        left -= 1;
        place = node::push(store, joint, &[left, place])?;
    }
    Ok(place)
}

/// Pushes nodes over several pairs from the left, and writes in the place of
/// another node the node that joins them from the right.
fn write_several<S: Store>(
    store: &mut S,
    id: u32,
    each: Kind,
    joint: Kind,
    pairs: &[(u32, u32)],
) -> Result<(), AllocError>
    requires id { id < length (S.content store.old) }
    requires pairs { 1 < length pairs.now }
    ensures { OnOk result (S.content store.new
        ≡ over_pairs each joint (S.content store.old) id pairs.now) }
{
    let first = store.len();
    push_each(store, each, pairs)?;
    let last = store.len() - 1;
    let others = join(store, joint, first + 1, last)?;
    store.put(id, joint, &[first, others])
}

/// Writes in the place of a node one over a single pair, or the node that joins
/// those over more pairs.
fn write<S: Store>(
    store: &mut S,
    id: u32,
    each: Kind,
    joint: Kind,
    pairs: &[(u32, u32)],
) -> Result<(), AllocError>
    requires id { id < length (S.content store.old) }
    requires pairs { 0 < length pairs.now }
    ensures { OnOk result (S.content store.new
        ≡ over_pairs each joint (S.content store.old) id pairs.now) }
{
    if pairs.len() == 1 {
        let (a, b) = pairs[0];
        return store.put(id, each, &[a, b]);
    }
    write_several(store, id, each, joint, pairs)
}

impl<S: Store> Redex<S> {
    /// The step in which the redex becomes a node over pairs of arguments, or
    /// True where there are none.
    pub(crate) fn pairwise_step(
        self,
        special: &Special,
        each: Kind,
        joint: Kind,
        pairs: &[(u32, u32)],
    ) -> Result<Moved<S>, AllocError>
        requires { self.id < length (S.content self.store) }
        ensures { IfOk result (λ moved. move_of S.content moved
            ≡ pairwise_step special.now each joint (S.content self.store) self.id pairs.now) }
    {
        if pairs.is_empty() {
            return self.truth_step(special, true);
        }
        let Redex { mut store, id, .. } = self;
        write(&mut store, id, each, joint, pairs)?;
        Ok(Moved::Alone(store))
    }
}
