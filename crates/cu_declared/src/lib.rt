//! The types that modules declare and use: whether each name of a type has as
//! many arguments as the type has parameters, and whether a synonym leads to
//! itself.
#![tactic(auto)]

mod arities;
mod calls;
mod expressions;
mod fault;
mod first_fault;
mod found;
mod items;
mod numbers;
mod synonyms;
mod types;

pub use calls::{declared_types, declared_types_goal};
pub use fault::{TypeArity, TypeNameFault};
