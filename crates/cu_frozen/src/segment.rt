//! Segments: what was written over a graph.
ghost use Rattle.std.specs.Prelude.{◌≡◌, ◌<◌, ◌+◌, ◌-◌, ◌^◌, [], ◌∷◌, ◌++◌, IfOk, IfSome, IsNone, OnErr, OnOk, false, length, nat_eq};
ghost use Rattle.std.specs.List.{list_any};
ghost use Rattle.cu_machine.specs.Graph.{put};
ghost use Rattle.cu_frozen.specs.Layers.{Amends, Holds, Leaves, layer_of, over, written};

use crate::marks::Marks;
use cu_graph::{Kind, NodeVec};
use indexmap::IndexSet;
use std::alloc::{AllocError, Global};
use std::marker::Model;

/// Where a node stands: a list of nodes and an index in it.
#[derive(Clone, Copy)]
pub(crate) struct Spot<'a> {
    pub(crate) nodes: &'a NodeVec,
    pub(crate) place: usize,
}

/// A segment: what was written over a graph, as an overlay of nodes that were
/// changed, and the nodes after those of the graph.
#[derive(Drop)]
pub(crate) struct Segment {
    alloc: Global,
    /// How many nodes the graph below has.
    base: u32,
    /// The indices of the nodes that were changed, and the nodes that stand
    /// there now.
    changed: IndexSet<u32>,
    changes: NodeVec,
    /// Marks of the changed indices, which tell of most others that they
    /// weren't changed.
    marks: Marks,
    /// The nodes after those of the graph below.
    added: NodeVec,
}

impl Model for Segment {
    ghost use Rattle.cu_frozen.specs.Layers.{Layer, layer_of};
    ghost use Rattle.cu_frozen.specs.Inside.Marked.{IsMarked};

    ghost Value = { Layer };

    ghost view = { λ s. layer_of s.base s.changed.keys s.changes s.added };

    ghost invariant = { λ s. IsMarked s.marks
        (layer_of s.base s.changed.keys s.changes s.added) };
}

impl Segment {
    /// The segment in which nothing is written, over a graph of so many nodes.
    /// It takes no memory.
    pub(crate) fn new(alloc: Global, base: u32) -> Segment
        ensures { result ≡ layer_of base [] [] [] }
    {
        Segment {
            alloc,
            base,
            changed: IndexSet::new(alloc),
            changes: NodeVec::new(alloc),
            marks: Marks::none(),
            added: NodeVec::new(alloc),
        }
    }

    /// How many nodes the graph has after what was written.
    pub(crate) fn len(&self) -> u32
        ensures { result ≡ self.now.base + length self.now.added }
    {
        self.base + self.added.len() as u32
    }

    /// How many nodes were written in the segment.
    pub(crate) fn size(&self) -> usize
        ensures { result ≡ length self.now.changed + length self.now.added }
    {
        self.changed.len() + self.added.len()
    }

    /// Where the node with this number stands, if it was written in this
    /// segment.
    #[inline(always)]
    pub(crate) fn spot(&self, id: u32) -> Option<Spot<'_>>
        requires { id < self.now.base + length self.now.added }
        ensures here { IfSome result (λ spot. Holds self.now id spot.nodes.now spot.place) }
        ensures below { IsNone result → id < self.now.base }
        ensures elsewhere { IsNone result → Leaves self.now id }
    {
        if id >= self.base {
            let place = (id - self.base) as usize;
            return Some(Spot {
                nodes: &self.added,
                place,
            });
        }
        if !self.marks.may_have(id) {
            return None;
        }
        let place = self.changed.get_index_of(&id)?;
        Some(Spot {
            nodes: &self.changes,
            place,
        })
    }

    /// Adds a node. An `Err` changes nothing.
    pub(crate) fn push(&mut self, kind: Kind, args: &[u32]) -> Result<(), AllocError>
        requires { self.old.base + length self.old.added < 2 ^ 32 - 1 }
        ensures ok { OnOk result (Amends self.old self.new
            (λ graph. graph ++ record { kind = kind; args = args.now } ∷ [])) }
        ensures added { OnOk result (length self.new.added ≡ length self.old.added + 1) }
        ensures err { OnErr result (self.new ≡ self.old) }
    {
        self.added.push(kind, args)
    }

    /// Puts another node in the place of one. An `Err` changes nothing.
    pub(crate) fn put(&mut self, id: u32, kind: Kind, args: &[u32]) -> Result<(), AllocError>
        requires { id < self.old.base + length self.old.added }
        ensures ok { OnOk result (Amends self.old self.new
            (λ graph. put graph id (record { kind = kind; args = args.now }))) }
        ensures added { OnOk result (length self.new.added ≡ length self.old.added) }
        ensures err { OnErr result (self.new ≡ self.old) }
    {
        if id >= self.base {
            return self.added.put((id - self.base) as usize, kind, args);
        }
        match self.changed.get_index_of(&id) {
            Some(place) => self.changes.put(place, kind, args),
            None => self.change(id, kind, args),
        }
    }

    /// Changes a node of the graph below for the first time. An `Err` changes
    /// nothing.
    fn change(&mut self, id: u32, kind: Kind, args: &[u32]) -> Result<(), AllocError>
        requires below { id < self.old.base }
        requires fresh { list_any (nat_eq id) self.old.changed ≡ false }
        ensures base { self.new.base ≡ self.old.base }
        ensures added { self.new.added ≡ self.old.added }
        ensures changed { OnOk result (self.new.changed ≡ self.old.changed ++ id ∷ []) }
        ensures changes { OnOk result (self.new.changes
            ≡ self.old.changes ++ record { kind = kind; args = args.now } ∷ []) }
        ensures paired { length self.old.changed ≡ length self.old.changes }
        ensures err { OnErr result (self.new ≡ self.old) }
    {
        self.changed.reserve(1)?;
        self.changes.push(kind, args)?;
        self.changed.insert(id)?;
        self.marks = self.marks.with(id);
        Ok(())
    }

    /// Writes what another segment has, which was written over this one.
    pub(crate) fn follow(&mut self, next: &Segment) -> Result<(), AllocError>
        requires { next.now.base ≡ self.old.base + length self.old.added }
        ensures { OnOk result (Amends self.old self.new (over next.now)) }
    {
        self.follow_changes(next)?;
        self.follow_added(next)
    }

    /// Writes the nodes that another segment changes.
    fn follow_changes(&mut self, next: &Segment) -> Result<(), AllocError>
        requires { next.now.base ≡ self.old.base + length self.old.added }
        ensures ok { OnOk result (Amends self.old self.new
            (λ graph. written graph next.now.changed next.now.changes)) }
        ensures added { OnOk result (length self.new.added ≡ length self.old.added) }
    {
        let mut left = next.changed.len();
        while left > 0 {
            left -= 1;
            let id = next.changed[left];
            let node = next.changes.node(left);
            self.put(id, node.kind, node.args)?;
        }
        Ok(())
    }

    /// Writes the nodes that another segment adds.
    fn follow_added(&mut self, next: &Segment) -> Result<(), AllocError>
        requires { next.now.base ≡ self.old.base + length self.old.added }
        ensures { OnOk result (Amends self.old self.new (λ graph. graph ++ next.now.added)) }
    {
        for place in 0..next.added.len() {
            let node = next.added.node(place);
            self.push(node.kind, node.args)?;
        }
        Ok(())
    }

    /// A segment of its own that changes a graph as this one does.
    pub(crate) fn copied(&self) -> Result<Segment, AllocError>
        ensures { IfOk result (λ copy. Amends self.now copy (λ graph. graph)) }
    {
        let mut copy = Segment::new(self.alloc, self.base);
        copy.follow(self)?;
        Ok(copy)
    }
}
