//! Values as nodes of a graph, cell by cell.
ghost use Rattle.std.specs.Prelude.{◌≡◌, ◌++◌, ◌∷◌, IfOk, OnOk, length};
ghost use Rattle.cu_machine.specs.Build.{place_of, pushed};
ghost use Rattle.cu_machine.specs.Spell.{push_value};
ghost use Rattle.cu_step.specs.Inside.Pushing.{closed, fed, given, kind_of_cell, work_of};

use crate::node;
use cu_graph::{Kind, Store};
use cu_values::{Cell, Value};
use std::alloc::{AllocError, Global};

/// A node whose arguments are being pushed.
#[derive(Clone, Copy)]
struct Unfinished {
    kind: Kind,
    /// How many arguments the node has.
    count: u32,
    /// How many of the node's arguments aren't there yet.
    missing: u32,
}

/// The state of a pushing: values of which some nodes are pushed.
#[derive(Drop)]
struct Pushing {
    /// The indices of nodes that are arguments of nodes to come.
    ids: Vec<u32>,
    /// The nodes to come. Each is an argument of the one before it.
    unfinished: Vec<Unfinished>,
}

/// Adds the nodes of a value, without sharing, and answers the index of its
/// outermost one. A variable and Bottom become stuck nodes.
pub fn push_value<S: Store>(alloc: Global, store: &mut S, value: &Value) -> Result<u32, AllocError>
    ensures place { IfOk result (λ id. id
        ≡ place_of (length (S.content store.old))
        (push_value (length (S.content store.old)) value.now)) }
    ensures content { OnOk result (S.content store.new
        ≡ S.content store.old ++ pushed (push_value (length (S.content store.old)) value.now)) }
{
    let mut work = Pushing {
        ids: Vec::new(alloc),
        unfinished: Vec::new(alloc),
    };
    for cell in value.cells() {
        work.take(store, *cell)?;
    }
    match work.ids.pop() {
        Some(id) => Ok(id),
        None => unreachable!(),
    }
}

/// The kind of a cell's node.
fn kind_of(cell: Cell) -> Kind
    ensures { result ≡ kind_of_cell cell }
{
    match cell {
        Cell::Bottom => Kind::Stuck,
        Cell::LVar(_) => Kind::Stuck,
        Cell::Lit(literal) => Kind::Lit(literal),
        Cell::Con(c, _) => Kind::Cons(c),
        Cell::Part(head, _) => Kind::Part(head),
    }
}

impl Pushing {
    /// Takes a cell: pushes a node without arguments, and leaves one with
    /// arguments open.
    fn take<S: Store>(&mut self, store: &mut S, cell: Cell) -> Result<(), AllocError>
        ensures { OnOk result (work_of (S.content store.new) self.new
            ≡ fed (work_of (S.content store.old) self.old) cell) }
    {
        let kind = kind_of(cell);
        let count = cell.arity();
        if count == 0 {
            let id = node::push(store, kind, &[])?;
            return self.give(store, id);
        }
        self.unfinished.push(Unfinished {
            kind,
            count,
            missing: count,
        })?;
        Ok(())
    }

    /// Notes that a node is there, which may be the last argument of nodes to
    /// come.
    fn give<S: Store>(&mut self, store: &mut S, id: u32) -> Result<(), AllocError>
        ensures { OnOk result (work_of (S.content store.new) self.new
            ≡ given (work_of (S.content store.old) self.old) id) }
    {
        let mut id = id;
        while let Some(outer) = self.unfinished.pop() {
            self.ids.push(id)?;
            if outer.missing > 1 {
                let missing = outer.missing - 1;
                self.unfinished.push(Unfinished { missing, ..outer })?;
                return Ok(());
            }
            id = self.close(store, outer)?;
        }
        self.ids.push(id)?;
        Ok(())
    }

    /// Pushes a node whose arguments are the last ones.
    fn close<S: Store>(&mut self, store: &mut S, outer: Unfinished) -> Result<u32, AllocError>
        ensures place { IfOk result (λ id. id ≡ length (S.content store.old)) }
        ensures graph { OnOk result (S.content store.new
            ≡ (closed (S.content store.old) self.old.ids.items outer).graph) }
        ensures ids { OnOk result (self.new.ids.items
            ≡ (closed (S.content store.old) self.old.ids.items outer).ids) }
        ensures unfinished { self.new.unfinished.items ≡ self.old.unfinished.items }
    {
        let first = self.ids.len().saturating_sub(outer.count as usize);
        let id = node::push(store, outer.kind, &self.ids[first..])?;
        self.ids.truncate(first);
        Ok(id)
    }
}
