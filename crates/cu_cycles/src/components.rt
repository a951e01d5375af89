//! The strongly connected components of a graph.
ghost use Rattle.std.specs.Prelude.{◌≡◌, ◌↔◌, ◌+◌, ◌-◌, ◌^◌, ◌<◌, ◌≤◌, ◌++◌, ℕ, [], Some, IfOk, OnOk, IfSome, IfNone, IsTrue, IsFalse, length, map, take, slice_get};
ghost use Rattle.cu_cycles.specs.Components.{AreRanks};
ghost use Rattle.cu_cycles.specs.Graph.{Graph, IsWhole, rows_in};
ghost use Rattle.cu_cycles.specs.Inside.Search.{AreShut, IsGood, IsLast, IsStart, MayEnter, MayForget, MayJoin, Meets, OnlyParts, Rests, number_of, work};

use std::alloc::{AllocError, Global};

/// Where the search has put a node.
#[derive(Clone, Copy)]
enum Place {
    /// The node wasn't visited yet.
    New,
    /// The node is on the stack of open nodes, at this place.
    Open(usize),
    /// The node is in the component with this number.
    Closed(usize),
}

/// A part of the stack of open nodes: those from a place on, up to the
/// next part. They reach each other. Where their edges lead is pending from a
/// place on, up to the next part's.
#[derive(Clone, Copy)]
struct Part {
    start: usize,
    pending: usize,
}

/// A search along a path of parts, each of which leads to the next one
/// (Gabow, "Path-based depth-first search for strong and biconnected
/// components", 2000).
#[derive(Drop)]
struct Search {
    places: Vec<Place>,
    path: Vec<usize>,
    pending: Vec<usize>,
    parts: Vec<Part>,
    closed: usize,
}

impl Search {
    /// Opens a node: a part of its own, with all to which it leads pending.
    fn enter(&mut self, graph: &[Vec<usize>], node: usize) -> Result<(), AllocError>
        requires { MayEnter (rows_in graph.now) self.old node }
        ensures good { OnOk result (IsGood (rows_in graph.now) self.new) }
        ensures falls { OnOk result (work (rows_in graph.now) self.new + 1
            ≡ work (rows_in graph.now) self.old) }
        ensures meets { OnOk result (Meets self.old self.new) }
        ensures met { OnOk result (slice_get self.new.places.items node ≡ Some Place.New → ⊥) }
    {
        self.parts.push(Part {
            start: self.path.len(),
            pending: self.pending.len(),
        })?;
        self.places[node] = Place::Open(self.path.len());
        self.path.push(node)?;
        self.pending.extend_from_slice(&graph[node])?;
        Ok(())
    }

    /// Whether the last part begins after a place of the path.
    fn begins_after(&self, at: usize) -> bool
        ensures after { IsTrue result → (p : Part) × IsLast self.now.parts.items p
            × (at < p.start) }
        ensures before { IsFalse result → (p : Part) → IsLast self.now.parts.items p
            → p.start ≤ at }
    {
        match self.parts.last() {
            Some(part) => at < part.start,
            None => false,
        }
    }

    /// Makes one part of the last ones, down to that of a place on the path.
    fn join(&mut self, at: usize)
        ensures joined { (g : Graph) → MayJoin g self.old at → MayJoin g self.new at }
        ensures only { OnlyParts self.old self.new }
        ensures before { (p : Part) → IsLast self.new.parts.items p → p.start ≤ at }
    {
        while self.begins_after(at) {
            self.parts.pop();
        }
    }

    /// Closes the nodes of the path from a place on.
    fn close_from(&mut self, start: usize)
        requires start { start ≤ length self.old.path.items }
        requires open_at { (s v : ℕ) → slice_get self.old.path.items s ≡ Some v
            → slice_get self.old.places.items v ≡ Some (Place.Open s) }
        requires at_open { (v s : ℕ) → slice_get self.old.places.items v ≡ Some (Place.Open s)
            → slice_get self.old.path.items s ≡ Some v }
        ensures places { AreShut start self.old.closed self.old.places.items self.new.places.items }
        ensures sized { length self.new.places.items ≡ length self.old.places.items }
        ensures path { self.new.path.items ≡ take start self.old.path.items }
        ensures pending { self.new.pending.items ≡ self.old.pending.items }
        ensures parts { self.new.parts.items ≡ self.old.parts.items }
        ensures closed { self.new.closed ≡ self.old.closed }
    {
        while start < self.path.len() {
            if let Some(node) = self.path.pop() {
                self.places[node] = Place::Closed(self.closed);
            }
        }
    }

    /// Closes the last part: it is a component.
    fn close(&mut self, part: Part)
        requires last { IsLast self.old.parts.items part }
        requires start { part.start ≤ length self.old.path.items }
        requires room { self.old.closed + 1 < 2 ^ 64 }
        requires open_at { (s v : ℕ) → slice_get self.old.path.items s ≡ Some v
            → slice_get self.old.places.items v ≡ Some (Place.Open s) }
        requires at_open { (v s : ℕ) → slice_get self.old.places.items v ≡ Some (Place.Open s)
            → slice_get self.old.path.items s ≡ Some v }
        ensures good { (g : Graph) → IsGood g self.old
            → length self.old.pending.items ≤ part.pending → IsGood g self.new }
        ensures falls { (g : Graph) → work g self.new + 1 ≡ work g self.old }
        ensures meets { Meets self.old self.new }
    {
        self.parts.pop();
        self.close_from(part.start);
        self.closed += 1;
    }

    /// The last of what is pending from a place on.
    fn pending_from(&self, start: usize) -> Option<usize>
        ensures some { IfSome result (λ target. (start < length self.now.pending.items)
            × IsLast self.now.pending.items target) }
        ensures none { IfNone result (length self.now.pending.items ≤ start) }
    {
        if start < self.pending.len() {
            self.pending.last().copied()
        } else {
            None
        }
    }

    /// Forgets what is pending last, which was followed.
    fn follow(&mut self)
        ensures good { (g : Graph) → MayForget g self.old → IsGood g self.new }
        ensures falls { (g : Graph) → MayForget g self.old → work g self.new + 1 ≡ work g self.old }
        ensures meets { Meets self.old self.new }
    {
        self.pending.pop();
    }

    /// Follows an edge of the last part, or closes the part.
    fn advance(&mut self, graph: &[Vec<usize>], part: Part) -> Result<(), AllocError>
        requires whole { IsWhole (rows_in graph.now) }
        requires good { IsGood (rows_in graph.now) self.old }
        requires last { IsLast self.old.parts.items part }
        ensures good { OnOk result (IsGood (rows_in graph.now) self.new) }
        ensures falls { OnOk result (work (rows_in graph.now) self.new
            < work (rows_in graph.now) self.old) }
        ensures meets { OnOk result (Meets self.old self.new) }
    {
        let Some(target) = self.pending_from(part.pending) else {
            self.close(part);
            return Ok(());
        };
        match self.places[target] {
            Place::New => self.enter(graph, target),
            Place::Open(at) => {
                self.join(at);
                self.follow();
                Ok(())
            }
            Place::Closed(_) => {
                self.follow();
                Ok(())
            }
        }
    }

    /// A search that has visited no node.
    fn new(alloc: Global, count: usize) -> Result<Search, AllocError>
        ensures { IfOk result (λ search. IsStart count search) }
    {
        Ok(Search {
            places: vec![in alloc; Place::New; count]?,
            path: Vec::new(alloc),
            pending: Vec::new(alloc),
            parts: Vec::new(alloc),
            closed: 0,
        })
    }

    /// Takes steps until no part is left.
    fn run(&mut self, graph: &[Vec<usize>]) -> Result<(), AllocError>
        requires whole { IsWhole (rows_in graph.now) }
        requires good { IsGood (rows_in graph.now) self.old }
        ensures rests { OnOk result (Rests (rows_in graph.now) self.new) }
        ensures meets { OnOk result (Meets self.old self.new) }
    {
        while let Some(part) = self.parts.last().copied() {
            self.advance(graph, part)?;
        }
        Ok(())
    }

    /// Whether a node wasn't visited yet.
    fn is_new(&self, node: usize) -> bool
        requires { node < length self.now.places.items }
        ensures { IsTrue result ↔ slice_get self.now.places.items node ≡ Some Place.New }
    {
        match self.places[node] {
            Place::New => true,
            Place::Open(_) => false,
            Place::Closed(_) => false,
        }
    }

    /// Closes a node, and all that it reaches.
    fn visit(&mut self, graph: &[Vec<usize>], node: usize) -> Result<(), AllocError>
        requires whole { IsWhole (rows_in graph.now) }
        requires rests { Rests (rows_in graph.now) self.old }
        requires within { node < length graph.now }
        ensures rests { OnOk result (Rests (rows_in graph.now) self.new) }
        ensures meets { OnOk result (Meets self.old self.new) }
        ensures met { OnOk result (slice_get self.new.places.items node ≡ Some Place.New → ⊥) }
    {
        if self.is_new(node) {
            self.enter(graph, node)?;
            self.run(graph)?;
        }
        Ok(())
    }
}

/// The strongly connected components of a graph, by number: no edge goes to a
/// greater number.
#[derive(Drop)]
pub struct Components {
    /// The number of each node's component.
    pub ranks: Vec<usize>,
    /// How many components there are.
    pub count: usize,
}

/// The number of a closed node's component, and 0 for others.
fn number(place: Place) -> usize
    ensures { result ≡ number_of place }
{
    match place {
        Place::New => 0,
        Place::Open(_) => 0,
        Place::Closed(number) => number,
    }
}

/// The numbers of these nodes' components.
fn numbers(alloc: Global, places: &[Place]) -> Result<Vec<usize>, AllocError>
    ensures { IfOk result (λ found. found.items ≡ map number_of places.now) }
{
    let mut found = Vec::new(alloc);
    for place in places {
        found.push(number(*place))?;
    }
    Ok(found)
}

/// The strongly connected components of a graph, in time about proportional to
/// its size.
///
/// # Errors
///
/// Out of memory.
pub fn find_components(alloc: Global, graph: &[Vec<usize>]) -> Result<Components, AllocError>
    requires { IsWhole (rows_in graph.now) }
    ensures { IfOk result (λ found. AreRanks (rows_in graph.now) found.ranks.items found.count) }
{
    let mut search = Search::new(alloc, graph.len())?;
    for node in 0..graph.len() {
        search.visit(graph, node)?;
    }
    let ranks = numbers(alloc, search.places.as_slice())?;
    Ok(Components {
        ranks,
        count: search.closed,
    })
}
