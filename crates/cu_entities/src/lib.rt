//! Entities of modules: each once, and tables of what names mean.
#![tactic(auto)]

mod entities;
mod entity_set;
mod name_table;

pub use entities::{Entity, Sort, Space};
pub use entity_set::EntitySet;
pub use name_table::{Key, Meant, NameTable};
