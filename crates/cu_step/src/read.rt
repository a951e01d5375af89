//! Reading the values of a graph.
ghost use Rattle.std.specs.Prelude.{◌≡◌, ◌+◌, ◌<◌, ◌++◌, IfOk, IfSome, None, OnOk, Some, if◌then◌else◌, length, nat_lt, option_map, reverse, true};
ghost use Rattle.cu_machine.specs.Graph.{node_at};
ghost use Rattle.cu_machine.specs.Next.{read, spelled_all};
ghost use Rattle.cu_machine.specs.Places.{joined};
ghost use Rattle.cu_machine.specs.Spell.{cells, cells_of_all, ordinal, renumbered, spelled, variables_in};
ghost use Rattle.cu_machine.specs.Validity.{ArgumentsThere, IsAcyclic, are_places};
ghost use Rattle.cu_step.specs.Outcome.{reading_of};
ghost use Rattle.cu_step.specs.Inside.Reading.{cell_at, parts_at, with_head};

use crate::numbering::Numbering;
use crate::{head, node, pending};
use cu_graph::{Kind, Store};
use cu_values::{Cell, Value};
use std::alloc::{AllocError, Global};

/// What is read off a branch whose value is there. Unbound variables are
/// numbered from 1, in the order in which they are met in the bindings and
/// then in the value.
#[derive(Drop)]
pub struct Reading {
    /// What the goal variables stand for, in their order.
    pub bindings: Vec<Value>,
    /// The value of the goal.
    pub value: Value,
}

/// The state of a reading.
#[derive(Drop)]
struct Reader {
    /// The variables that were met so far.
    numbering: Numbering,
    /// How many cells may still follow.
    room: u32,
}

/// The values of the goal variables and of the root, unless they have more
/// cells together than the limit.
pub(crate) fn read<S: Store>(
    alloc: Global,
    store: &S,
    root: u32,
    goals: &[u32],
    limit: u32,
) -> Result<Option<Reading>, AllocError>
    requires root { root < length (S.content store.now) }
    requires goals { are_places (length (S.content store.now)) goals.now ≡ true }
    requires arguments { ArgumentsThere (S.content store.now) }
    requires acyclic { IsAcyclic (S.content store.now) }
    ensures { IfOk result (λ reading. option_map reading_of reading
        ≡ (if nat_lt limit (cells_of_all (spelled_all (S.content store.now) root goals.now))
        then None
        else Some (read (S.content store.now) root goals.now))) }
{
    let mut reader = Reader {
        numbering: Numbering::new(alloc),
        room: limit,
    };
    let mut bindings = Vec::with_capacity(alloc, goals.len())?;
    for goal in goals {
        let Some(binding) = reader.value(alloc, store, *goal)? else {
            return Ok(None);
        };
        bindings.push(binding)?;
    }
    let Some(value) = reader.value(alloc, store, root)? else {
        return Ok(None);
    };
    Ok(Some(Reading { bindings, value }))
}

impl Reader {
    /// The value of a node, unless it has more cells than there is room for.
    fn value<S: Store>(
        &mut self,
        alloc: Global,
        store: &S,
        id: u32,
    ) -> Result<Option<Value>, AllocError>
        requires id { id < length (S.content store.now) }
        requires arguments { ArgumentsThere (S.content store.now) }
        requires acyclic { IsAcyclic (S.content store.now) }
        ensures value { IfOk result (λ value. value
            ≡ (if nat_lt self.old.room (cells (spelled (S.content store.now) id)) then None
            else Some (renumbered (ordinal self.new.numbering.variables.keys)
            (spelled (S.content store.now) id)))) }
        ensures met { IfOk result (λ value. IfSome value (λ _.
            self.new.numbering.variables.keys
            ≡ joined self.old.numbering.variables.keys
            (variables_in (spelled (S.content store.now) id)))) }
        ensures room { IfOk result (λ value. IfSome value (λ _.
            self.new.room + cells (spelled (S.content store.now) id) ≡ self.old.room)) }
    {
        let mut cells = Vec::new(alloc);
        let mut pending = vec![in alloc; id]?;
        while let Some(id) = pending.pop() {
            if self.room as usize <= pending.len() {
                return Ok(None);
            }
            self.room -= 1;
            let head = head::find(store, id);
            cells.push(cell_at(store, head, &mut self.numbering)?)?;
            push_parts(&mut pending, store, head)?;
        }
        Ok(Some(Value::spelled(cells)))
    }
}

/// The first cell of the value of a head.
fn cell_at<S: Store>(store: &S, id: u32, numbering: &mut Numbering) -> Result<Cell, AllocError>
    requires id { id < length (S.content store.now) }
    ensures cell { IfOk result (λ cell. cell ≡ cell_at numbering.new.variables.keys id
        (node_at (S.content store.now) id).kind (length (node_at (S.content store.now) id).args)) }
    ensures met { OnOk result (numbering.new.variables.keys
        ≡ with_head numbering.old.variables.keys id (node_at (S.content store.now) id).kind) }
{
    let node = store.node(id);
    match node.kind {
        Kind::Cons(c) => Ok(Cell::Con(c, node.args.len() as u32)),
        Kind::Part(h) => Ok(Cell::Part(h, node.args.len() as u32)),
        Kind::Lit(l) => Ok(Cell::Lit(l)),
        Kind::Free => Ok(Cell::LVar(numbering.number(id)?)),
        _ => Ok(Cell::Bottom),
    }
}

/// Adds the nodes whose cells follow that of a head.
fn push_parts<S: Store>(pending: &mut Vec<u32>, store: &S, id: u32) -> Result<(), AllocError>
    requires { id < length (S.content store.now) }
    ensures { OnOk result (pending.new.items ≡ pending.old.items
        ++ reverse (parts_at (node_at (S.content store.now) id).kind
        (node_at (S.content store.now) id).args)) }
{
    let node = store.node(id);
    match node.kind {
        Kind::Cons(_) | Kind::Part(_) => pending::push_all(pending, node.args),
        _ => Ok(()),
    }
}
