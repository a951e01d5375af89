//! The text of FlatCurry (Hanus and others): a module of a flat program in the
//! notation that other Curry systems read.
#![tactic(auto)]

mod calls;
mod circles;
mod expressions;
mod fault;
mod inferred;
mod laws;
mod line;
mod lines;
mod module_text;
mod numbers;
mod page;
mod pieces;
mod printing;
mod task;
mod type_table;
mod type_task;
mod types;
mod wording;
mod writer;

pub use fault::PrintFault;
pub use laws::a_module_is_printed;
pub use printing::print;
