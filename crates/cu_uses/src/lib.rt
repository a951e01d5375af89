//! The names that the text of a module or a goal uses: the first fault among
//! them. A use of a name that means nothing or two things is a fault, and so are
//! a signature or a fixity of what isn't declared, and a second declaration.
#![tactic(auto)]

mod block;
mod expressions;
mod fault;
mod first_fault;
mod found;
mod item_uses;
mod lists;
mod names;
mod opening;
mod scope;
mod text_set;
mod top_level;
mod uses;

pub use fault::{Fault, Wrong};
pub use first_fault::FirstFault;
pub use text_set::TextSet;
pub use uses::{goal_faults, items_faults};
