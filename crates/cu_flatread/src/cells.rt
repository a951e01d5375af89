//! The cells of types and expressions.
use cu_calculus::{Lit, Mode};
use cu_names::NameId;

/// An entity: the name of the module that declares it, and its own name.
#[derive(Clone, Copy, PartialEq, Eq)]
pub struct FlatEntity {
    pub owner: NameId,
    pub name: NameId,
}

/// The kind of a Comb: a call, or a constructor, with all its arguments or with
/// so many missing.
#[derive(Clone, Copy, PartialEq, Eq)]
pub enum CombKind {
    FuncCall,
    ConsCall,
    FuncPartCall(u64),
    ConsPartCall(u64),
}

/// A cell of a type.
#[derive(Clone, Copy, PartialEq, Eq)]
pub enum TypeCell {
    /// A variable.
    Variable(u64),
    /// The type of the functions from the type after it to the one after that.
    Arrow,
    /// A data type or a synonym, whose arguments follow as a list.
    Named(FlatEntity),
    /// One more type of a list, and then the others.
    More,
    /// The end of a list.
    End,
}

/// A cell of an expression.
#[derive(Clone, Copy, PartialEq, Eq)]
pub enum ExpressionCell {
    /// A variable.
    Var(u64),
    /// A literal.
    Literal(Lit),
    /// A function or a constructor, whose arguments follow as a list.
    Comb(CombKind, FlatEntity),
    /// A variable that is bound to the expression after it in the one after
    /// that.
    Let(u64),
    /// A free variable in the expression after it.
    Free(u64),
    /// A choice between the two expressions after it.
    Or,
    /// A case distinction of the expression after it, with the branches that
    /// follow it as a list.
    Case(Mode),
    /// One more argument of a list, and then the others.
    More,
    /// The end of a list of arguments.
    End,
    /// One more branch of a list: a pattern, an expression, and then the
    /// others.
    Branch,
    /// The end of a list of branches.
    EndOfBranches,
    /// The pattern of a constructor, whose variables follow as a list.
    Pattern(FlatEntity),
    /// The pattern of a literal.
    LPattern(Lit),
    /// One more variable of a pattern, and then the others.
    Bound(u64),
    /// The end of a pattern's variables.
    EndOfVariables,
}
