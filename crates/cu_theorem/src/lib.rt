//! Laws of what runs list: the answers of a goal are its solutions by the rules
//! of the modules, and a listing that is exhausted misses no ground solution.
//! The crate computes nothing.
#![tactic(auto)]

mod levels;
mod listings;
mod truth;

pub use levels::least_levels_exist;
pub use listings::{answers_are_derived, exhausted_listings_cover_solutions, solutions_are_listed};
pub use truth::lowering_keeps_truth;
