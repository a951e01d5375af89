//! Lambda lifting, which makes local functions functions of the program; and
//! what is known of a program's functions by what they mention: their
//! dependency groups and their set levels.
#![tactic(auto)]

mod captures;
mod components;
mod dependency_groups;
mod group_laws;
mod laws;
mod lifted_functions;
mod lifted_marks;
mod lifting;
mod local_order;
mod mentions;
mod placement;
mod placing;
mod renaming;
mod set_levels;
mod walks;

pub use captures::captured;
pub use dependency_groups::groups;
pub use group_laws::groups_are_unique;
pub use laws::{lifted_programs_are_unique, lifted_programs_are_valid};
pub use lifting::lift;
pub use set_levels::{LevelFault, levels};
