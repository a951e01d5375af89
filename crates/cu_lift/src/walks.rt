//! Walks along mentions.
ghost use Rattle.std.specs.Prelude.{◌≡◌, ◌+◌, ◌<◌, ◌≤◌, ℕ, Some, IfOk, IfSome, IfNone, OnOk, length, slice_get};
ghost use Rattle.cu_cycles.specs.Graph.{Edge, Graph, IsWhole, Reach, rows_in};
ghost use Rattle.cu_lift.specs.Inside.Trail.{Begins, Grows, IsDone, IsTrail, Meeting, Steps};

use cu_kernel::FunId;
use std::alloc::{AllocError, Global};

/// A function that was found from another one.
#[derive(Clone, Copy)]
struct Found {
    /// The function.
    function: usize,
    /// The place of the one that mentions it.
    from: usize,
}

/// A search for the functions that one reaches, breadth first.
#[derive(Drop)]
struct Spread {
    found: Vec<Found>,
    met: Vec<bool>,
}

/// The functions that one mentions.
pub(crate) fn targets_of(graph: &[Vec<usize>], function: usize) -> &[usize]
    requires { function < length graph.now }
    ensures { slice_get (rows_in graph.now) function ≡ Some result.now }
{
    graph[function].as_slice()
}

impl Spread {
    /// The search that has found its start alone.
    fn new(alloc: Global, start: usize, count: usize) -> Result<Spread, AllocError>
        requires { start < count }
        ensures { IfOk result (λ spread. Begins start count spread) }
    {
        let mut met = vec![in alloc; false; count]?;
        met[start] = true;
        let mut found = Vec::new(alloc);
        found.push(Found {
            function: start,
            from: 0,
        })?;
        Ok(Spread { found, met })
    }

    /// Marks a function as met and adds it to those found, unless it was met before.
    /// The one at the place `from` mentions it.
    fn meet(&mut self, target: usize, from: usize) -> Result<(), AllocError>
        requires { target < length self.old.met.items }
        ensures { OnOk result (Meeting self.old self.new target from) }
    {
        if !self.met[target] {
            self.met[target] = true;
            self.found.push(Found {
                function: target,
                from,
            })?;
        }
        Ok(())
    }

    /// Marks all functions as met that the one at a place mentions.
    fn widen(&mut self, graph: &[Vec<usize>], from: usize) -> Result<(), AllocError>
        requires whole { IsWhole (rows_in graph.now) }
        requires trail { IsTrail (rows_in graph.now) self.old }
        requires within { from < length self.old.found.items }
        ensures trail { OnOk result (IsTrail (rows_in graph.now) self.new) }
        ensures grows { OnOk result (Grows self.old self.new) }
        ensures done { OnOk result (IsDone (rows_in graph.now) self.new from) }
    {
        let function = self.found[from].function;
        let row = targets_of(graph, function);
        for target in row {
            self.meet(*target, from)?;
        }
        Ok(())
    }

    /// Finds all that the functions found mention.
    fn run(&mut self, graph: &[Vec<usize>]) -> Result<(), AllocError>
        requires whole { IsWhole (rows_in graph.now) }
        requires trail { IsTrail (rows_in graph.now) self.old }
        ensures trail { OnOk result (IsTrail (rows_in graph.now) self.new) }
        ensures grows { OnOk result (Grows self.old self.new) }
        ensures done { OnOk result ((i : ℕ) → i < length self.new.found.items
            → IsDone (rows_in graph.now) self.new i) }
    {
        let mut next = 0;
        while next < self.found.len() {
            self.widen(graph, next)?;
            next += 1;
        }
        Ok(())
    }

    /// The place of a function among those found.
    fn place_of(&self, function: usize) -> Option<usize>
        ensures some { IfSome result (λ i. (f : Found) × (slice_get self.now.found.items i ≡ Some f)
            × (f.function ≡ function)) }
        ensures none { IfNone result ((i : ℕ) (f : Found)
            → slice_get self.now.found.items i ≡ Some f → f.function ≡ function → ⊥) }
    {
        for (i, found) in self.found.iter().enumerate() {
            if found.function == function {
                return Some(i);
            }
        }
        None
    }

    /// The walk from the start to the function at a place.
    fn trace(&self, alloc: Global, place: usize) -> Result<Vec<FunId>, AllocError>
        requires within { place < length self.now.found.items }
        requires falls { (i : ℕ) (f : Found) → slice_get self.now.found.items i ≡ Some f → 0 < i
            → f.from < i }
        ensures { IfOk result (λ walk. (g : Graph) (first last : Found) → IsTrail g self.now
            → slice_get self.now.found.items 0 ≡ Some first
            → slice_get self.now.found.items place ≡ Some last
            → Steps g first.function walk.items last.function) }
    {
        let mut walk = Vec::new(alloc);
        let mut at = place;
        while at != 0 {
            at = self.found[at].from;
            walk.push(FunId(self.found[at].function))?;
        }
        walk.reverse();
        Ok(walk)
    }
}

/// A walk along mentions, one of the shortest: the functions that it leaves,
/// in order.
pub(crate) fn walk(
    alloc: Global,
    graph: &[Vec<usize>],
    start: usize,
    end: usize,
) -> Result<Vec<FunId>, AllocError>
    requires whole { IsWhole (rows_in graph.now) }
    requires within { start < length graph.now }
    requires reached { Reach (rows_in graph.now) start end }
    ensures { IfOk result (λ walk. Steps (rows_in graph.now) start walk.items end) }
{
    let mut spread = Spread::new(alloc, start, graph.len())?;
    spread.run(graph)?;
    match spread.place_of(end) {
        Some(place) => spread.trace(alloc, place),
        None => unreachable!(),
    }
}
