//! The heads of nodes.
ghost use Rattle.std.specs.Prelude.{◌≡◌};
ghost use Rattle.cu_machine.specs.Graph.{head_at, head_of};
ghost use Rattle.cu_step.specs.Inside.Head.{target_of};

use crate::node;
use cu_graph::{Kind, NodeRef, Store};

/// The index of a node's head.
pub(crate) fn find<S: Store>(store: &S, id: u32) -> u32
    ensures { result ≡ head_of (S.content store.now) id }
{
    read(store, id).0
}

/// The index of a node's head, and the head. As many nodes are visited as there
/// are, which is enough wherever there is no cycle, and each is read once.
pub(crate) fn read<S: Store>(store: &S, id: u32) -> (u32, NodeRef<'_>)
    ensures id { result.0 ≡ head_of (S.content store.now) id }
    ensures kind { result.1.kind ≡ (head_at (S.content store.now) id).kind }
    ensures args { result.1.args.now ≡ (head_at (S.content store.now) id).args }
{
    let mut head = id;
    for _ in 0..store.len() {
        let node = node::at(store, head);
        match target(node.kind, node.args) {
            Some(target) => head = target,
            None => return (head, node),
        }
    }
    (head, node::at(store, head))
}

/// The index to which a node of this kind and with these arguments leads, where
/// it is an Ind.
fn target(kind: Kind, args: &[u32]) -> Option<u32>
    ensures { result ≡ target_of kind args.now }
{
    match kind {
        Kind::Ind => args.first().copied(),
        _ => None,
    }
}
