//! Grouping: which operands operators take, by their fixities.
#![tactic(auto)]

mod fixities;
mod fixity;
mod grouping;
mod laws;
mod part;
mod piece;
mod resolving;
mod tree;

pub use cu_syntax::Side;
pub use fixities::{CONS, Fixities};
pub use fixity::Fixity;
pub use grouping::{UNDECLARED, group};
pub use laws::one_tree;
pub use part::Part;
pub use piece::Piece;
pub use resolving::{Expr, FixityClash, Pat, resolve, resolve_pattern};
pub use tree::{Cell, Tree};
