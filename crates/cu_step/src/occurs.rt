//! What is reached from nodes by Ind and constructors alone: a free variable,
//! or a partial application.
ghost use Rattle.std.specs.Prelude.{◌≡◌, ◌<◌, IfOk, OnOk, false, length, replicate, slice_set, true};
ghost use Rattle.cu_machine.specs.Graph.{head_of, node_at};
ghost use Rattle.cu_machine.specs.Validity.{ArgumentsThere, IsAcyclic, are_places};
ghost use Rattle.cu_step.specs.Inside.Occurring.{Looks, are_reached, is_sought, leads_on, left_after, marks_after, seen_at};

use crate::{head, node, pending};
use cu_graph::{Kind, Store};
use std::alloc::{AllocError, Global};

/// What a search through values seeks.
#[derive(Clone, Copy)]
pub(crate) enum Sought {
    /// The free variable with this index.
    Variable(u32),
    /// Any partial application.
    Part,
}

/// What is left of a search through values.
#[derive(Drop)]
struct Search {
    /// The nodes that are to be looked at, as a stack: the last one is on top.
    pending: Vec<u32>,
    /// Which heads were looked at. The list is empty as long as no marks are
    /// kept.
    seen: Vec<bool>,
}

/// Whether what is sought is reached from one of these nodes. Marks are kept from when a node must
/// have been met twice. From then on the arguments of each node are looked at once.
pub(crate) fn are_reached<S: Store>(
    alloc: Global,
    store: &S,
    sought: Sought,
    ids: &[u32],
) -> Result<bool, AllocError>
    requires ids { are_places (length (S.content store.now)) ids.now ≡ true }
    requires arguments { ArgumentsThere (S.content store.now) }
    requires acyclic { IsAcyclic (S.content store.now) }
    ensures { IfOk result (λ yes. yes ≡ are_reached (S.content store.now) sought ids.now) }
{
    let mut search = Search {
        pending: Vec::from_slice(alloc, ids)?,
        seen: Vec::new(alloc),
    };
    'unmarked: for _ in 0..store.len() {
        let Some(id) = search.pending.pop() else {
            return Ok(false);
        };
        let found = search.look(store, sought, id)?;
        if found {
            return Ok(true);
        }
    }
    search.keep_marks(store.len())?;
    search.finish(store, sought)
}

impl Search {
    /// Keeps marks of so many nodes, of which none was seen yet.
    fn keep_marks(&mut self, count: u32) -> Result<(), AllocError>
        ensures seen { OnOk result (self.new.seen.items ≡ replicate count false) }
        ensures pending { self.new.pending.items ≡ self.old.pending.items }
    {
        self.seen.clear();
        self.seen.resize(count as usize, false)?;
        Ok(())
    }

    /// Whether the head of a node is what is sought. If not, its arguments are
    /// to be looked at.
    fn look<S: Store>(&mut self, store: &S, sought: Sought, id: u32) -> Result<bool, AllocError>
        requires id { id < length (S.content store.now) }
        requires arguments { ArgumentsThere (S.content store.now) }
        requires acyclic { IsAcyclic (S.content store.now) }
        ensures found { IfOk result (λ found. found
            ≡ is_sought sought (head_of (S.content store.now) id)
            (node_at (S.content store.now) (head_of (S.content store.now) id)).kind) }
        ensures seen { IfOk result (λ found. found ≡ false → self.new.seen.items
            ≡ marks_after self.old.seen.items (head_of (S.content store.now) id)
            (node_at (S.content store.now) (head_of (S.content store.now) id)).kind) }
        ensures pending { IfOk result (λ found. found ≡ false → self.new.pending.items
            ≡ left_after self.old.seen.items self.old.pending.items
            (head_of (S.content store.now) id)
            (node_at (S.content store.now) (head_of (S.content store.now) id))) }
    {
        let head = head::find(store, id);
        if is_sought(store, head, sought) {
            return Ok(true);
        }
        if leads_on(store, head, self.seen.as_slice()) {
            mark(&mut self.seen, head);
            pending::push_args(&mut self.pending, store, head)?;
        }
        Ok(false)
    }

    /// Looks on until what is sought is found or nothing is left.
    fn finish<S: Store>(mut self, store: &S, sought: Sought) -> Result<bool, AllocError>
        requires arguments { ArgumentsThere (S.content store.now) }
        requires acyclic { IsAcyclic (S.content store.now) }
        requires looks { Looks (S.content store.now) sought self.pending.items self.seen.items
            self.pending.items }
        requires marked { length self.seen.items ≡ length (S.content store.now) }
        ensures { IfOk result (λ yes. yes
            ≡ are_reached (S.content store.now) sought self.pending.items) }
    {
        while let Some(id) = self.pending.pop() {
            let found = self.look(store, sought, id)?;
            if found {
                return Ok(true);
            }
        }
        Ok(false)
    }
}

/// Whether a head is what is sought.
fn is_sought<S: Store>(store: &S, id: u32, sought: Sought) -> bool
    ensures { result ≡ is_sought sought id (node_at (S.content store.now) id).kind }
{
    match sought {
        Sought::Variable(variable) => match node::kind_at(store, id) {
            Kind::Free => variable == id,
            _ => false,
        },
        Sought::Part => match node::kind_at(store, id) {
            Kind::Part(_) => true,
            _ => false,
        },
    }
}

/// Whether the arguments of a head are to be looked at.
fn leads_on<S: Store>(store: &S, id: u32, seen: &[bool]) -> bool
    ensures { result ≡ leads_on (node_at (S.content store.now) id).kind (seen_at seen.now id) }
{
    match node::kind_at(store, id) {
        Kind::Cons(_) => !is_seen(seen, id),
        _ => false,
    }
}

/// Whether a head is marked.
fn is_seen(seen: &[bool], id: u32) -> bool
    ensures { result ≡ seen_at seen.now id }
{
    match seen.get(id as usize) {
        Some(is_seen) => *is_seen,
        None => false,
    }
}

/// Marks a head, if marks are kept.
fn mark(seen: &mut Vec<bool>, id: u32)
    ensures { seen.new.items ≡ slice_set seen.old.items id true }
{
    if (id as usize) < seen.len() {
        seen[id as usize] = true;
    }
}
