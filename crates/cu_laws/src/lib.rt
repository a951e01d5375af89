//! Laws of the search: what a listing shows follows from the rules of the
//! program, and no step, level, search or listing loses a value, so that a
//! listing that is exhausted misses no ground solution. The crate has the
//! definitions that the laws need in `specs/`; it computes nothing.
#![tactic(auto)]

mod answers;
mod completeness;
mod covering;
mod finding;
mod soundness;
mod stepping;
mod traced;

pub use answers::{
    answers_follow, answers_follow_without_sets, graphs_stay_at_their_level, searches_stay_traced,
};
pub use completeness::{needed_nodes_have_values, rows_are_complete};
pub use covering::{answers_cover, derivations_begin};
pub use finding::{
    exhausted_listings_cover, found_lists_are_true, listed_answers_derive,
    true_claims_agree_with_searches,
};
pub use soundness::{
    deliveries_are_sound, derivations_depend_on_their_variables, readings_are_good, rows_are_sound,
    steps_are_sound, what_nodes_may_have_is_closed, written_expressions_are_worth_their_terms,
};
pub use stepping::{
    failures_have_no_values, levels_are_complete, listings_are_complete, searches_are_complete,
    steps_are_complete,
};
pub use traced::{
    answers_of_traced_states_follow, searches_are_sound, states_stay_traced, traced_steps_are_sound,
};
