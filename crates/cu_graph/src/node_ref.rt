//! Nodes as they are read.
use cu_machine::Kind;

/// A node of a graph: what it is, and the indices of its arguments.
#[derive(Clone, Copy)]
pub struct NodeRef<'a> {
    /// What the node is.
    pub kind: Kind,
    /// The indices of the nodes that are its arguments.
    pub args: &'a [u32],
}
