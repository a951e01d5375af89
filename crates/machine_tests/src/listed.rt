//! A store beside the list of nodes that it is to have.
ghost use Rattle.std.specs.Prelude.{◌<◌};

use cu_graph::{Kind, Store};
use std::alloc::{AllocError, Global};

/// A node of the list.
#[derive(Drop)]
struct Listed {
    kind: Kind,
    args: Vec<u32>,
}

/// A store, and the list of nodes that it is to have.
#[derive(Drop)]
pub(crate) struct Pair<S> {
    store: S,
    nodes: Vec<Listed>,
}

/// A copy of a list of nodes.
fn copied(alloc: Global, nodes: &[Listed]) -> Result<Vec<Listed>, AllocError> {
    let mut copies = Vec::new(alloc);
    for node in nodes {
        let args = Vec::from_slice(alloc, node.args.as_slice())?;
        copies.push(Listed {
            kind: node.kind,
            args,
        })?;
    }
    Ok(copies)
}

/// Whether a store has this node at this index.
fn shows<S: Store>(store: &S, id: u32, node: &Listed) -> bool {
    if id >= store.len() || store.kind(id) != node.kind {
        return false;
    }
    let shown = store.node(id);
    if shown.kind != node.kind || shown.args != node.args.as_slice() {
        return false;
    }
    let arity = store.arity(id);
    if arity as usize != node.args.len() {
        return false;
    }
    for i in 0..arity {
        if store.arg(id, i) != node.args[i as usize] {
            return false;
        }
    }
    true
}

impl<S: Store> Pair<S> {
    pub(crate) fn empty(alloc: Global) -> Result<Pair<S>, AllocError> {
        Ok(Pair {
            store: S::empty(alloc)?,
            nodes: Vec::new(alloc),
        })
    }

    /// Adds a node, as long as there are few.
    pub(crate) fn push(
        &mut self,
        alloc: Global,
        kind: Kind,
        args: &[u32],
    ) -> Result<(), AllocError> {
        if self.store.len() < 100_000 {
            self.store.push(kind, args)?;
            let args = Vec::from_slice(alloc, args)?;
            self.nodes.push(Listed { kind, args })?;
        }
        Ok(())
    }

    /// Puts a node in the place of another, if there is one.
    pub(crate) fn put(
        &mut self,
        alloc: Global,
        id: u32,
        kind: Kind,
        args: &[u32],
    ) -> Result<(), AllocError> {
        if id < self.store.len() {
            self.store.put(id, kind, args)?;
        }
        if (id as usize) < self.nodes.len() {
            let args = Vec::from_slice(alloc, args)?;
            self.nodes[id as usize] = Listed { kind, args };
        }
        Ok(())
    }

    /// Forks of the store, each with the same list.
    pub(crate) fn fork(self, alloc: Global, count: u32) -> Result<Vec<Pair<S>>, AllocError>
        requires { 0 < count }
    {
        let nodes = self.nodes;
        let mut pairs = Vec::new(alloc);
        for store in self.store.fork(count)? {
            let nodes = copied(alloc, nodes.as_slice())?;
            pairs.push(Pair { store, nodes })?;
        }
        Ok(pairs)
    }

    /// Whether the store has the nodes of the list.
    pub(crate) fn agrees(&self) -> bool {
        let count = self.store.len();
        if count as usize != self.nodes.len() {
            return false;
        }
        for id in 0..count {
            if !shows(&self.store, id, &self.nodes[id as usize]) {
                return false;
            }
        }
        true
    }
}
