//! The node that a step rewrites.
use std::alloc::Global;

/// A redex: a node that is to be rewritten, in its graph.
#[derive(Drop)]
pub(crate) struct Redex<S> {
    pub(crate) alloc: Global,
    /// The graph.
    pub(crate) store: S,
    /// The index of the node that is to be rewritten.
    pub(crate) id: u32,
}
