//! The strongly connected components of a graph, and which of its nodes lie on
//! cycles.
#![tactic(auto)]

mod components;
mod cycles;

pub use components::{Components, find_components};
pub use cycles::on_cycles;
