//! From the texts of modules and of a goal to the program that is run, or to the
//! refusal due: the walk over the modules, the meaning of names, the types that
//! modules declare, translation, lifting, set levels, types and definitional
//! trees, one after another.
#![tactic(auto)]

mod asked;
mod asking;
mod fault;
mod goal_text;
mod loaded;
mod modules_alone;
mod names_copy;
mod outcome;
mod programs;
mod refusal;
mod run;
mod runnable;
mod stages;
mod translated;

pub use asked::{Asked, AskedModule};
pub use asking::{AskFault, ask};
pub use fault::CompileFault;
pub use loaded::{Loaded, load};
pub use modules_alone::compile_module;
pub use names_copy::copy_names;
pub use refusal::Refusal;
pub use runnable::Compiled;
pub use stages::compile;
