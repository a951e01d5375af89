//! Stacks of nodes that are still to be looked at.
ghost use Rattle.std.specs.Prelude.{◌≡◌, ◌<◌, ◌++◌, OnOk, length, reverse};
ghost use Rattle.cu_machine.specs.Graph.{node_at};

use cu_graph::Store;
use std::alloc::AllocError;

/// Pushes the arguments of a node, the first one on top.
pub(crate) fn push_args<S: Store>(
    pending: &mut Vec<u32>,
    store: &S,
    id: u32,
) -> Result<(), AllocError>
    requires { id < length (S.content store.now) }
    ensures { OnOk result (pending.new.items
        ≡ pending.old.items ++ reverse (node_at (S.content store.now) id).args) }
{
    push_all(pending, store.node(id).args)
}

/// Pushes arguments, the first one on top.
pub(crate) fn push_all(pending: &mut Vec<u32>, args: &[u32]) -> Result<(), AllocError>
    ensures { OnOk result (pending.new.items ≡ pending.old.items ++ reverse args.now) }
{
    let mut i = args.len();
    while i > 0 {
        i -= 1;
        pending.push(args[i])?;
    }
    Ok(())
}
