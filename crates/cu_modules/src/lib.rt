//! Modules: which of them a root reaches by its imports, and what names mean in
//! them.
#![tactic(auto)]

mod binding;
mod built_in;
mod checking;
mod export_faults;
mod exporting;
mod fault;
mod hiding;
mod import_faults;
mod importing;
mod imports;
mod interfaces;
mod listing;
mod lists;
mod module_scope;
mod modules;
mod ordering;
mod own;
mod reading;
mod scope_fault;
mod scoped;
mod scopes;
mod scoping;
mod telling;
mod visits;

pub use fault::OrderFault;
pub use imports::import_names;
pub use modules::Module;
pub use ordering::order;
pub use scope_fault::ScopeFault;
pub use scopes::Scopes;
pub use scoping::{scope, scope_goal};
