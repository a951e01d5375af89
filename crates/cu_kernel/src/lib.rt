//! Kernel programs: what modules are translated to. A program has its types,
//! its functions with their rules, and what type inference and the printing of
//! FlatCurry need of them.
#![tactic(auto)]

mod constructors;
mod copies;
mod declarations;
mod declared;
mod first_types;
mod heads;
mod local;
mod local_program;
mod patterns;
mod program;
mod scope;
mod special;
mod term;
mod terms;
mod type_term;
mod valid;

pub use constructors::Placed;
pub use copies::{copy_declared, copy_mark, copy_pattern, copy_patterns, copy_type, copy_types};
pub use cu_calculus::{ConId, FunId, Head, Int, Lit, Mode, Prim, Special};
pub use declarations::{Constructor, DataType, Goal, Mark, ModuleInfo, Operator, Side, Synonym};
pub use first_types::has_first_types;
pub use heads::{Heads, Shape, shapes};
pub use local::{LocalBody, LocalFunction, LocalHead, LocalRule, LocalTerm, TopFunction};
pub use local_program::{Counts, LocalParts, LocalProgram};
pub use patterns::{push_all_variables, push_variables};
pub use program::{Program, ProgramParts};
pub use special::{
    different_variables, is_constant_head, is_constant_pattern, is_flex, pattern_variable,
    same_variable,
};
pub use term::{Body, Function, Pattern, Rule, Term};
pub use type_term::{Interface, SynonymId, TypeId, TypeName, TypeTerm};
pub use valid::external_arity;
