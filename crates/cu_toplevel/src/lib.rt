//! Entities of all modules as numbers, what the names of top level refer to in a
//! module, and what programs have of a module beside the rules of its functions.
#![tactic(auto)]

mod built_in;
mod declarations;
mod entities;
mod external_types;
mod externals;
mod first_types;
mod fixities;
mod function_heads;
mod function_marks;
mod given;
mod goals;
mod imports;
mod listing;
mod module_types;
mod modules;
mod operators;
mod parts;
mod reading;
mod signature_table;
mod signatures;
mod special;
mod top_names;
mod tuples;
mod types;

pub use built_in::BuiltInType;
pub use entities::Entities;
pub use external_types::external_type;
pub use function_heads::{FunctionHead, heads};
pub use listing::Numbered;
pub use module_types::{synonyms_in, types_in};
pub use operators::fixity_declarations;
pub use parts::{goal_part, module_part};
pub use reading::Reading;
pub use signatures::signature_type;
pub use top_names::TopNames;
