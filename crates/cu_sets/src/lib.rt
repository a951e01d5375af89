//! Steps of a branch in every state, also where searches for all values of
//! functions run in it.
#![tactic(auto)]

mod ending;
mod found;
mod level;
mod runs;
mod searches;

pub use runs::run;
pub use searches::advance;
