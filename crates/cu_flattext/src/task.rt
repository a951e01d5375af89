//! The tasks that are left while an expression is written.
use cu_flat::{ExprId, Pattern};

/// A part of the text of an expression that is still to be written. The number
/// beside an expression bounds how deep it nests.
#[derive(Clone, Copy)]
pub(crate) enum Task<'p> {
    /// The text of an expression.
    Expression(ExprId, usize),
    /// The texts of expressions, with commas between them.
    Expressions(&'p [ExprId], usize),
    /// The texts of expressions, each after a comma.
    Further(&'p [ExprId], usize),
    /// The texts of branches, with commas between them.
    Branches(&'p [(Pattern, ExprId)], usize),
    /// The texts of branches, each after a comma.
    FurtherBranches(&'p [(Pattern, ExprId)], usize),
    /// A text as it is.
    Text(&'static str),
    /// A variable has this number from here on.
    Number(u32, u64),
}
