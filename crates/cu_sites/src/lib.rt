//! All that stands in the text of a top-level function or a goal, each with the
//! spot where it stands, and how the function's variables and local functions
//! are numbered and depend on one another.
#![tactic(auto)]

mod binders;
mod captures;
mod definitions;
mod dependencies;
mod grouping;
mod numbers;
mod readers;
mod relations;
mod rules;
mod sites;
mod spots;
mod uses;
mod walk;

pub use binders::local_functions;
pub use dependencies::Dependencies;
pub use grouping::groups;
pub use numbers::Numbers;
pub use rules::{Group, Rule};
pub use sites::{Node, ScopeEntry, Site, Sites, Spot};
