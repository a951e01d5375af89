//! The command line of the system: it reads the words, compiles the modules and
//! the goal, and writes the goal's listing, a module's text as FlatCurry, whether a
//! proof proves an answer of a goal, what a trial's listing comes to, or the replies of a
//! session to the lines of the input.
#![tactic(auto)]

mod asking;
mod checking;
mod command;
mod compiling;
mod conversation;
mod depths;
mod fault;
mod pieces;
mod problem;
mod question;
mod questions;
mod reply;
mod run;
mod search;
mod session;
mod solving;
mod status;
mod totals;
mod trying;

pub use run::top;
pub use status::Status;
