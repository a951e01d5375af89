//! A graph whose forks share the nodes that there were before the fork.
ghost use Rattle.std.specs.Prelude.{◌≡◌, ◌<◌, [], IfOk, length};
ghost use Rattle.std.specs.Arc.{arc_value};
ghost use Rattle.cu_frozen.specs.Layers.{Shows, laid};

use crate::frozen::Frozen;
use crate::segment::{Segment, Spot};
use cu_graph::{Kind, NodeRef, Store};
use std::alloc::{AllocError, Global};
use std::marker::Model;
use std::sync::Arc;

/// A graph of frozen segments, which forks share, and a segment of its own. All
/// of it stands behind one pointer, so that a store is moved by one word.
#[derive(Drop)]
pub struct FrozenStore {
    segments: Box<Segments>,
}

/// The segments of a graph: those that are frozen, which its forks have as one
/// list, and the one on top of them, which is written.
#[derive(Drop)]
struct Segments {
    alloc: Global,
    frozen: Arc<Frozen>,
    top: Segment,
}

impl Model for FrozenStore {
    ghost use Rattle.std.specs.Prelude.{◌≡◌, [], length};
    ghost use Rattle.std.specs.Arc.{arc_value};
    ghost use Rattle.cu_machine.specs.Graph.{Graph};
    ghost use Rattle.cu_frozen.specs.Layers.{laid, over};

    ghost Value = { Graph };

    ghost view = { λ s. over s.segments.value.top
        (laid [] (arc_value s.segments.value.frozen)) };

    ghost invariant = { λ s. length (laid [] (arc_value s.segments.value.frozen))
        ≡ s.segments.value.top.base };
}

/// The frozen segments of an `Arc`. Where it has other owners they keep them,
/// and each segment gets an owner more.
fn unshared(alloc: Global, shared: Arc<Frozen>) -> Result<Frozen, AllocError>
    ensures { IfOk result (λ frozen. frozen ≡ arc_value shared) }
{
    match Arc::try_unwrap(shared) {
        Ok(frozen) => Ok(frozen),
        Err(shared) => shared.shared(alloc),
    }
}

impl FrozenStore {
    /// A graph of frozen segments that have so many nodes.
    fn over(alloc: Global, frozen: Arc<Frozen>, count: u32) -> Result<FrozenStore, AllocError>
        requires { length (laid [] (arc_value frozen)) ≡ count }
        ensures { IfOk result (λ store. store ≡ laid [] (arc_value frozen)) }
    {
        let top = Segment::new(alloc, count);
        let segments = Segments { alloc, frozen, top };
        Ok(FrozenStore {
            segments: Box::new(alloc, segments)?,
        })
    }

    /// Where the node with this number stands.
    #[inline(always)]
    fn spot(&self, id: u32) -> Spot<'_>
        requires { id < length self.now }
        ensures { Shows result.nodes.now result.place self.now id }
    {
        match self.segments.top.spot(id) {
            Some(spot) => spot,
            None => self.segments.frozen.spot(id),
        }
    }

    /// The nodes of the graph, as frozen segments.
    fn freeze(self) -> Result<Frozen, AllocError>
        ensures { IfOk result (λ frozen. laid [] frozen ≡ self) }
    {
        let Segments { alloc, frozen, top } = Box::into_inner(self.segments);
        unshared(alloc, frozen)?.with(alloc, top)
    }
}

impl Store for FrozenStore {
    ghost content = { λ s. s };

    fn empty(alloc: Global) -> Result<FrozenStore, AllocError> {
        let frozen = Arc::new(alloc, Frozen::new(alloc))?;
        FrozenStore::over(alloc, frozen, 0)
    }

    fn len(&self) -> u32 {
        self.segments.top.len()
    }

    fn node(&self, id: u32) -> NodeRef<'_> {
        let spot = self.spot(id);
        spot.nodes.node(spot.place)
    }

    fn kind(&self, id: u32) -> Kind {
        self.node(id).kind
    }

    fn arity(&self, id: u32) -> u32 {
        self.node(id).args.len() as u32
    }

    fn arg(&self, id: u32, i: u32) -> u32 {
        self.node(id).args[i as usize]
    }

    fn push(&mut self, kind: Kind, args: &[u32]) -> Result<u32, AllocError> {
        let id = self.segments.top.len();
        self.segments.top.push(kind, args)?;
        Ok(id)
    }

    fn put(&mut self, id: u32, kind: Kind, args: &[u32]) -> Result<(), AllocError> {
        self.segments.top.put(id, kind, args)
    }

    fn fork(self, count: u32) -> Result<Vec<FrozenStore>, AllocError> {
        let alloc = self.segments.alloc;
        let nodes = self.segments.top.len();
        let mut stores = Vec::with_capacity(alloc, count as usize)?;
        if count == 1 {
            stores.push(self)?;
            return Ok(stores);
        }
        let frozen = self.freeze()?;
        let shared = Arc::new(alloc, frozen)?;
        for _ in 0..count - 1 {
            let other = Arc::try_clone(&shared)?;
            stores.push(FrozenStore::over(alloc, other, nodes)?)?;
        }
        stores.push(FrozenStore::over(alloc, shared, nodes)?)?;
        Ok(stores)
    }
}
