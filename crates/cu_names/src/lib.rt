//! Names as small numbers, and places in the texts of modules.
#![tactic(auto)]

mod names;
mod place;

pub use names::{NameId, Names};
pub use place::Place;
