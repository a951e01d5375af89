//! Reading and adding nodes of a graph.
ghost use Rattle.std.specs.Prelude.{◌≡◌, ◌<◌, [], ◌∷◌, ◌++◌, IfOk, OnOk, length};
ghost use Rattle.cu_machine.specs.Graph.{node_at};

use cu_graph::{Kind, NodeRef, Store};
use std::alloc::{AllocError, Global};

/// A node, or a stuck node without arguments where there is none.
pub(crate) fn at<S: Store>(store: &S, id: u32) -> NodeRef<'_>
    ensures kind { result.kind ≡ (node_at (S.content store.now) id).kind }
    ensures args { result.args.now ≡ (node_at (S.content store.now) id).args }
{
    if id < store.len() {
        store.node(id)
    } else {
        NodeRef {
            kind: Kind::Stuck,
            args: &[],
        }
    }
}

/// The kind of a node, or that of a stuck node where there is none.
pub(crate) fn kind_at<S: Store>(store: &S, id: u32) -> Kind
    ensures { result ≡ (node_at (S.content store.now) id).kind }
{
    at(store, id).kind
}

/// The arguments of a node.
pub(crate) fn args<S: Store>(alloc: Global, store: &S, id: u32) -> Result<Vec<u32>, AllocError>
    requires { id < length (S.content store.now) }
    ensures { IfOk result (λ args. args.items ≡ (node_at (S.content store.now) id).args) }
{
    Vec::from_slice(alloc, store.node(id).args)
}

/// Adds a node, and answers its index. In a full graph it is out of memory.
pub(crate) fn push<S: Store>(store: &mut S, kind: Kind, args: &[u32]) -> Result<u32, AllocError>
    ensures place { IfOk result (λ id. id ≡ length (S.content store.old)) }
    ensures content { OnOk result (S.content store.new
        ≡ S.content store.old ++ record { kind = kind; args = args.now } ∷ []) }
{
    if store.len() == u32::MAX {
        return Err(AllocError);
    }
    store.push(kind, args)
}
