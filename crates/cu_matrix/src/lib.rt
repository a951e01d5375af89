//! Clause matrices (Maranget, Compiling pattern matching to good decision
//! trees, 2008): what the patterns of their rows demand, and the patterns of a
//! specialized row.
#![tactic(auto)]

mod constructors;
mod demand;
mod patterns;

pub use constructors::of_one_type;
pub use demand::{Demand, demanded, leftmost};
pub use patterns::{opened_patterns, push_all};
