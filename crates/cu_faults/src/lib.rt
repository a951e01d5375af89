//! What is wrong with the functions of a module, and with goals: the first clash
//! of operators, and the first of the other faults.
#![tactic(auto)]

mod clashes;
mod first;
mod functions;
mod nodes;
mod operations;
mod patterns;
mod repeated;
mod rules;
mod uses;

pub use first::First;
pub use functions::{TextSites, first_clash, first_goal_fault, tell_function};
pub use nodes::tell_clashes;
