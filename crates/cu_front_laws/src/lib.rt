//! Laws of the front end: the programs of modules and goals in which it finds no
//! fault of names or types declare their types as inference asks; and a program
//! is refused in one way, or can be run in one. The crate computes nothing.
#![tactic(auto)]

mod refusals;
mod types;

pub use refusals::refusals_exclude;
pub use types::accepted_types_are_declared;
