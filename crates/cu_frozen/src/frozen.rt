//! Frozen segments of a graph, which its forks share.
ghost use Rattle.std.specs.Prelude.{◌≡◌, ◌<◌, ◌≤◌, [], IfOk, IfSome, IsNone, OnOk, length, false};
ghost use Rattle.std.specs.Arc.{arc_value};
ghost use Rattle.cu_frozen.specs.Layers.{Amends, Shows, laid, over};

use crate::segment::{Segment, Spot};
use std::alloc::{AllocError, Global};
use std::marker::Model;
use std::sync::Arc;

/// How many segments there are at most.
const MOST_SEGMENTS: usize = 24;

/// Segments that never change, each written over those before it. There are at
/// most 24, so a node is looked for in as many at most.
#[derive(Drop)]
pub(crate) struct Frozen {
    segments: Vec<Arc<Segment>>,
}

impl Model for Frozen {
    ghost use Rattle.std.specs.Prelude.{List, map};
    ghost use Rattle.std.specs.Arc.{arc_value};
    ghost use Rattle.cu_frozen.specs.Layers.{AreFrozen, Layer};

    ghost Value = { List Layer };

    ghost view = { λ f. map arc_value f.segments.items };

    ghost invariant = { λ f. AreFrozen (map arc_value f.segments.items) };
}

/// The segment of an `Arc`, or a copy where it has other owners.
fn owned(shared: Arc<Segment>) -> Result<Segment, AllocError>
    ensures { IfOk result (λ segment. Amends (arc_value shared) segment (λ graph. graph)) }
{
    match Arc::try_unwrap(shared) {
        Ok(segment) => Ok(segment),
        Err(shared) => shared.copied(),
    }
}

impl Frozen {
    /// The graph without segments.
    pub(crate) fn new(alloc: Global) -> Frozen
        ensures { result ≡ [] }
    {
        Frozen {
            segments: Vec::new(alloc),
        }
    }

    /// Where the node with this number stands.
    #[inline(always)]
    pub(crate) fn spot(&self, id: u32) -> Spot<'_>
        requires { id < length (laid [] self.now) }
        ensures { Shows result.nodes.now result.place (laid [] self.now) id }
    {
        let mut left = self.segments.len();
        while left > 0 {
            left -= 1;
            let segment: &Segment = &self.segments[left];
            if let Some(spot) = segment.spot(id) {
                return spot;
            }
        }
        unreachable!()
    }

    /// The segments, shared with another owner, and room for one more.
    pub(crate) fn shared(&self, alloc: Global) -> Result<Frozen, AllocError>
        ensures { IfOk result (λ other. other ≡ self.now) }
    {
        let mut segments = Vec::with_capacity(alloc, self.segments.len().saturating_add(1))?;
        for segment in &self.segments {
            segments.push(Arc::try_clone(segment)?)?;
        }
        Ok(Frozen { segments })
    }

    /// These segments and a new one, with which small ones at the end are
    /// joined. Segments that other graphs have too are left as they are, unless
    /// there are as many segments as there may be.
    pub(crate) fn with(self, alloc: Global, newest: Segment) -> Result<Frozen, AllocError>
        requires { length (laid [] self) ≡ newest.base }
        ensures graph { IfOk result (λ frozen. laid [] frozen ≡ over newest (laid [] self)) }
        ensures few { IfOk result (λ frozen. length frozen ≤ 24) }
    {
        let mut frozen = self;
        let joins_shared = frozen.is_full();
        let mut joined = newest;
        while let Some(last) = frozen.pop_small(joined.size(), joins_shared) {
            let mut segment = owned(last)?;
            segment.follow(&joined)?;
            joined = segment;
        }
        frozen.push(alloc, joined)?;
        Ok(frozen)
    }

    /// Whether there are as many segments as there may be.
    fn is_full(&self) -> bool
        ensures { result ≡ false → length self.now < 24 }
    {
        self.segments.len() >= MOST_SEGMENTS
    }

    /// Takes the last segment if there are as many as there may be, or if it is
    /// small.
    fn pop_small(&mut self, size: usize, joins_shared: bool) -> Option<Arc<Segment>>
        ensures graph { IfSome result (λ last. laid [] self.old
            ≡ over (arc_value last) (laid [] self.new)) }
        ensures fits { IfSome result (λ last. length (laid [] self.new)
            ≡ (arc_value last).base) }
        ensures fewer { IfSome result (λ _. length self.new < length self.old) }
        ensures none { IsNone result → self.new ≡ self.old }
        ensures room { IsNone result → length self.new < 24 }
    {
        if !self.is_full() && !self.ends_small(size, joins_shared) {
            return None;
        }
        self.segments.pop()
    }

    /// Whether the last segment has less than twice this size, and has no other
    /// owner or may have others.
    fn ends_small(&self, size: usize, joins_shared: bool) -> bool {
        match self.segments.last() {
            Some(last) => {
                last.size() / 2 < size && (joins_shared || Arc::strong_count(last) == 1)
            }
            None => false,
        }
    }

    /// Adds a segment, unless nothing was written in it.
    fn push(&mut self, alloc: Global, segment: Segment) -> Result<(), AllocError>
        requires fits { length (laid [] self.old) ≡ segment.base }
        requires room { length self.old < 24 }
        ensures { OnOk result (laid [] self.new ≡ over segment (laid [] self.old)) }
    {
        if segment.size() > 0 {
            self.segments.push(Arc::new(alloc, segment)?)?;
        }
        Ok(())
    }
}
