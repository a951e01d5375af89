//! What stands in a text, and where.
use crate::rules::Group;
use cu_names::Place;
use cu_syntax::{Declaration, Expression, Name, Pattern, RightSide};
use cu_translation::{Entry, Position};

/// Where something stands in a text.
#[derive(Clone, Copy, Debug, PartialEq, Eq)]
pub struct Spot {
    /// The place of the first token of the innermost local function around, if
    /// there is one.
    pub function: Option<Position>,
    /// How many local functions are around.
    pub depth: usize,
    /// The number of the scope.
    pub scope: usize,
}

/// The first name of a scope, and the number of the scope around it. The scope
/// of the k-th entry, counted from 0, has the number k + 1; that of no name has
/// the number 0.
#[derive(Clone, Copy, Debug, PartialEq, Eq)]
pub struct ScopeEntry {
    pub entry: Entry,
    pub around: usize,
}

/// What stands at a spot.
#[derive(Drop)]
pub enum Site<'t> {
    /// A name that is used, on these arguments.
    Use(Name, Vec<Expression<'t>>),
    /// An expression with operators, which are names that are used.
    Operation(Expression<'t>),
    /// Patterns whose variables are declared together: those of a rule, an
    /// alternative, a lambda expression or a qualifier.
    Matched(Vec<Pattern<'t>>),
    /// The place of a lambda expression's first token, its parameters, and its
    /// body.
    Lambda(Place, Vec<Pattern<'t>>, Expression<'t>),
    /// The place of a qualifier's first token, its pattern, the comprehension,
    /// and how many qualifiers of the comprehension there are up to this one.
    Generated(Place, Pattern<'t>, Expression<'t>, usize),
    /// A local function, after the number of its block.
    Function(usize, Group<'t>),
    /// A local variable and what it is defined by.
    Defined(Name, RightSide<'t>),
    /// A pattern and what it is bound to.
    Bound(Pattern<'t>, RightSide<'t>),
    Free(Vec<Name>),
}

/// What stands in a text, and where.
#[derive(Drop)]
pub struct Node<'t> {
    pub spot: Spot,
    pub site: Site<'t>,
    /// How many of the nodes after a definition are those of its right side.
    pub extent: usize,
}

/// All that stands in the text of a function, in its order.
#[derive(Drop)]
pub struct Sites<'t> {
    pub(crate) nodes: Vec<Node<'t>>,
    pub(crate) entries: Vec<ScopeEntry>,
    pub(crate) blocks: Vec<Vec<Declaration<'t>>>,
}
