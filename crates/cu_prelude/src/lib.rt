//! The texts of the built-in modules.
#![tactic(auto)]

mod built_in;
mod prelude;
mod set_functions;

pub use built_in::text;
pub use prelude::PRELUDE;
pub use set_functions::SET_FUNCTIONS;
