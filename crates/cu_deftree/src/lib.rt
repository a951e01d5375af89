//! Lowering: the flat program of a program, by definitional trees. The
//! definitions stand in `specs/`, with their laws.
#![tactic(auto)]

mod choices;
mod copies;
mod functions;
mod groups;
mod laws;
mod lowered_program;
mod names;
mod patterns;
mod rows;
mod tasks;
mod trees;

pub use functions::{LowerFault, has_operations};
pub use laws::{
    least_levels_stay_levels, lowered_programs_are_flat, lowered_programs_are_valid,
    lowering_is_a_function, lowering_is_complete, lowering_is_sound, lowering_keeps_meaning,
    programs_can_be_lowered,
};
pub use lowered_program::lower;
