//! The heads of an operation's arguments.
ghost use Rattle.std.specs.Prelude.{◌≡◌, ◌<◌, IfOk, length, map};
ghost use Rattle.cu_machine.specs.declared.Kind.TheVariants as kind;
ghost use Rattle.cu_machine.specs.Graph.{head_at, head_of};

use crate::{head, node};
use cu_graph::{Kind, Store};
use std::alloc::{AllocError, Global};

/// The head of an argument.
#[derive(Drop)]
pub(crate) struct Operand {
    /// The index of the head.
    pub id: u32,
    /// The kind of the head.
    pub kind: Kind,
    /// The indices of the head's arguments.
    pub args: Vec<u32>,
}

/// The head of the node with this index.
pub(crate) fn at<S: Store>(alloc: Global, store: &S, id: u32) -> Result<Operand, AllocError>
    ensures id { IfOk result (λ operand. operand.id ≡ head_of (S.content store.now) id) }
    ensures kind { IfOk result (λ operand. operand.kind ≡ (head_at (S.content store.now) id).kind) }
    ensures args { IfOk result (λ operand. operand.args.items
        ≡ (head_at (S.content store.now) id).args) }
    ensures free { IfOk result (λ operand. operand.kind ≡ kind.Free
        → operand.id < length (S.content store.now)) }
{
    let id = head::find(store, id);
    let node = node::at(store, id);
    let args = Vec::from_slice(alloc, node.args)?;
    Ok(Operand {
        id,
        kind: node.kind,
        args,
    })
}

/// The kinds of the heads of arguments.
pub(crate) fn kinds<S: Store>(
    alloc: Global,
    store: &S,
    ids: &[u32],
) -> Result<Vec<Kind>, AllocError>
    ensures { IfOk result (λ kinds. kinds.items
        ≡ map (λ id. (head_at (S.content store.now) id).kind) ids.now) }
{
    let mut kinds = Vec::with_capacity(alloc, ids.len())?;
    for id in ids {
        kinds.push(node::kind_at(store, head::find(store, *id)))?;
    }
    Ok(kinds)
}
