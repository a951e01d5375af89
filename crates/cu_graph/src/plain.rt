//! A graph that is copied whole where it is forked.
ghost use Rattle.std.specs.Prelude.{◌≡◌, IfOk};

use crate::node_ref::NodeRef;
use crate::node_vec::NodeVec;
use crate::store::Store;
use cu_machine::Kind;
use std::alloc::{AllocError, Global};
use std::marker::Model;

/// A graph in flat arrays of its own. A fork copies them.
#[derive(Drop)]
pub struct PlainStore {
    alloc: Global,
    nodes: NodeVec,
}

impl Model for PlainStore {
    ghost use Rattle.std.specs.Prelude.{List, ◌<◌, ◌^◌, length};
    ghost use Rattle.cu_machine.specs.Graph.{Node};

    ghost Value = { List Node };

    ghost view = { λ s. s.nodes };

    ghost invariant = { λ s. length s.nodes < 2 ^ 32 };
}

impl PlainStore {
    fn copied(&self) -> Result<PlainStore, AllocError>
        ensures { IfOk result (λ store. store ≡ self.now) }
    {
        let nodes = self.nodes.copied()?;
        Ok(PlainStore {
            alloc: self.alloc,
            nodes,
        })
    }
}

impl Store for PlainStore {
    ghost content = { λ s. s };

    fn empty(alloc: Global) -> Result<PlainStore, AllocError> {
        Ok(PlainStore {
            alloc,
            nodes: NodeVec::new(alloc),
        })
    }

    fn len(&self) -> u32 {
        self.nodes.len() as u32
    }

    fn node(&self, id: u32) -> NodeRef<'_> {
        self.nodes.node(id as usize)
    }

    fn kind(&self, id: u32) -> Kind {
        self.node(id).kind
    }

    fn arity(&self, id: u32) -> u32 {
        self.node(id).args.len() as u32
    }

    fn arg(&self, id: u32, i: u32) -> u32 {
        self.node(id).args[i as usize]
    }

    fn push(&mut self, kind: Kind, args: &[u32]) -> Result<u32, AllocError> {
        let id = self.nodes.len() as u32;
        self.nodes.push(kind, args)?;
        Ok(id)
    }

    fn put(&mut self, id: u32, kind: Kind, args: &[u32]) -> Result<(), AllocError> {
        self.nodes.put(id as usize, kind, args)
    }

    fn fork(self, count: u32) -> Result<Vec<PlainStore>, AllocError> {
        let mut stores = Vec::with_capacity(self.alloc, count as usize)?;
        for _ in 0..count - 1 {
            stores.push(self.copied()?)?;
        }
        stores.push(self)?;
        Ok(stores)
    }
}
