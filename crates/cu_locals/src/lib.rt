//! The names that are declared inside a function: the variables of patterns,
//! and what blocks bring into scope.
#![tactic(auto)]

mod begun;
mod declared;
mod entries;

pub use begun::{Begun, begun_by, goes_on};
pub use declared::{pattern_places, pattern_variables, places, variables};
pub use entries::{block_entries, variable_entries};
