//! Graphs of nodes: what a branch of the search works on.
#![tactic(auto)]

mod node_ref;
mod node_vec;
mod plain;
mod small;
mod store;

pub use cu_machine::Kind;
pub use node_ref::NodeRef;
pub use node_vec::NodeVec;
pub use plain::PlainStore;
pub use store::Store;
