//! Programs before lifting: whether parts are right by themselves, and
//! whether the parts of a whole program fit together.
#![tactic(auto)]

mod binders;
mod capturing;
mod conjunction;
mod free_uses;
mod heads;
mod joined;
mod linear;
mod part;
mod program_heads;
mod scope;
mod scoped;
mod type_names;
mod type_variables;

pub use joined::is_joined;
pub use part::{checked, is_part};
