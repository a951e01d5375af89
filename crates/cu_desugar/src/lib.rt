//! Translation of modules and goals to programs whose local functions aren't
//! lifted yet.
#![tactic(auto)]

mod around;
mod faults;
mod functions;
mod goals;
mod local_functions;
mod modules;
mod outcomes;
mod parts;
mod signatures;
mod texts;

pub use cu_translation::DesugarFault;
pub use modules::Modules;
pub use parts::{desugar, desugar_goal};
