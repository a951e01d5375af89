//! Translation of source forms to terms before lifting.
#![tactic(auto)]

mod blocks;
mod calls;
mod entries;
mod expressions;
mod layers;
mod lists;
mod local_functions;
mod names;
mod operators;
mod pattern_forms;
mod pattern_parts;
mod scope;
mod term_parts;
mod tree_order;

pub use expressions::{right_side, term};
pub use local_functions::{
    Lambda, ListQualifier, generator_function, goal_rule, lambda_function, rule, selectors,
};
pub use names::{fixity_at, name_alone, referent};
pub use operators::tree_of;
pub use pattern_forms::{Binders, pattern, patterns};
pub use scope::Scope;
