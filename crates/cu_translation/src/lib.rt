//! Translation of modules to programs whose local functions aren't lifted
//! yet: the definitions, in `specs/`, their laws, and the types that the
//! crates above share, which translate.
#![tactic(auto)]

mod fault;
mod laws;
mod local_names;
mod position;
mod referents;
mod surroundings;

pub use fault::{DesugarFault, Fault, Wrong};
pub use laws::{
    applications_are_translated, blocks_after_guards_are_translated, blocks_are_translated,
    captures_are_least, closed_forms_are_translated, definitions_are_ordered, faults_are_told,
    first_types_stand_first, functions_are_marked, functions_are_translated,
    grouped_trees_are_found, local_functions_are_numbered, modules_are_translated,
    new_functions_are_translated, parts_follow, scopes_are_translated, the_first_fault_is_told,
};
pub use local_names::{Binder, Entry, Local};
pub use position::Position;
pub use referents::{BuiltIn, Referent};
pub use surroundings::Surroundings;
