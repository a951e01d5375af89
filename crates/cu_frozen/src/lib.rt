//! Graphs whose forks share the nodes that there were before the fork.
#![tactic(auto)]

mod frozen;
mod marks;
mod segment;
mod store;

pub use store::FrozenStore;
