//! Where a branch stands: its graph, the node whose value is sought, and the
//! walk to the node that is needed.
ghost use Rattle.std.specs.Prelude.{◌≡◌};
ghost use Rattle.cu_step.specs.Inside.Kept.{MayGoOn};

use crate::need::KeptWalk;
use cu_graph::Store;

/// A graph, the node whose value is sought, and the walk that is kept from
/// there to the node that was needed last. Without one the next walk begins at
/// the node whose value is sought.
#[derive(Drop)]
pub struct Focus<S: Store> {
    pub(crate) store: S,
    pub(crate) root: u32,
    pub(crate) walk: Option<KeptWalk>,
    ghost kept: { ∥ MayGoOn (S.content store) root walk ∥₁ },
}

impl<S: Store> Focus<S> {
    /// The graph and the node whose value is sought, with no walk kept.
    pub(crate) fn new(store: S, root: u32) -> Focus<S>
        ensures store { S.content result.store ≡ S.content store }
        ensures root { result.root ≡ root }
    {
        Focus {
            store,
            root,
            walk: None,
        }
    }
}
