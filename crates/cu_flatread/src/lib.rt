//! Reading FlatCurry (Hanus and others): the module that a text stands for, or
//! the offset at which no text goes on.
#![tactic(auto)]

mod cells;
mod cursor;
mod declarations;
mod expressions;
mod fault;
mod functions;
mod laws;
mod mark;
mod numbers;
mod quoted;
mod reading;
mod stop;
mod trees;
mod type_declarations;
mod types;

pub use cells::{CombKind, ExpressionCell, FlatEntity, TypeCell};
pub use declarations::{
    FlatConstructor, FlatDeclaration, FlatFunction, FlatModule, FlatOperator, FlatRightSide,
    FlatRule,
};
pub use fault::BadFlat;
pub use laws::texts_are_of_one_module;
pub use reading::read;
pub use trees::{FlatExpression, FlatType, FlatTypes};
