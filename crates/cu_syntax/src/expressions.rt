//! Expressions as they are written.
ghost use Rattle.std.specs.Prelude.{◌≡◌, true};
ghost use Rattle.cu_syntax.specs.Forms.{is_expression};

use crate::declarations::{Declaration, RightSide};
use crate::expression_forms::{inside, node};
use crate::patterns::Pattern;
use crate::subtree::Subtree;
use crate::{Literal, Name};
use cu_names::Place;
use std::alloc::{AllocError, Global};

/// An expression, as a view of its tree.
#[derive(Clone, Copy, Debug)]
pub struct Expression<'t> {
    pub(crate) tree: Subtree<'t>,
    ghost is_expression: { is_expression tree.symbol ≡ true },
}

/// What an expression is, with the expressions in it.
#[derive(Debug, Drop)]
pub enum ExpressionNode<'t> {
    Variable(Place, Name),
    Constructor(Place, Name),
    Literal(Place, Literal<'t>),
    /// A function on one argument or more.
    Application(Place, Expression<'t>, Vec<Expression<'t>>),
    Operators(Items<'t>),
    Lambda(Place, Vec<Pattern<'t>>, Expression<'t>),
    Let(Place, Vec<Declaration<'t>>, Expression<'t>),
    /// The condition, the expression for `True`, and the one for `False`.
    If(Place, Expression<'t>, Expression<'t>, Expression<'t>),
    Case(Place, CaseWord, Expression<'t>, Vec<Alternative<'t>>),
    /// The components of a tuple. Unit has none.
    Tuple(Place, Vec<Expression<'t>>),
    /// The constructor of tuples of so many components.
    TupleConstructor(Place, usize),
    LeftSection(Place, Expression<'t>, Name),
    RightSection(Place, Name, Expression<'t>),
    List(Place, Vec<Expression<'t>>),
    Enumeration(Place, Enumeration<'t>),
    Comprehension(Place, Expression<'t>, Vec<Qualifier<'t>>),
}

/// Expressions with operators between them, not grouped. There is a minus
/// before the first of them, or an operator.
#[derive(Debug, Drop)]
pub struct Items<'t> {
    pub place: Place,
    /// The place of a minus before the first operand.
    pub minus: Option<Place>,
    pub first: Expression<'t>,
    pub rest: Vec<OperatorItem<'t>>,
}

/// An operator, and the operand after it.
#[derive(Clone, Copy, Debug)]
pub struct OperatorItem<'t> {
    pub operator: Name,
    /// The place of a minus before the operand.
    pub minus: Option<Place>,
    pub operand: Expression<'t>,
}

/// Whether a case distinction waits for a variable, as `case`, or narrows it,
/// as `fcase`.
#[derive(Clone, Copy, Debug, PartialEq, Eq)]
pub enum CaseWord {
    Case,
    Fcase,
}

/// An alternative of a case distinction.
#[derive(Clone, Copy, Debug)]
pub struct Alternative<'t> {
    pub place: Place,
    pub pattern: Pattern<'t>,
    pub right: RightSide<'t>,
}

/// Numbers from the first, by the step to the second, if it is there, and up
/// to the last, if it is there.
#[derive(Clone, Copy, Debug)]
pub struct Enumeration<'t> {
    pub first: Expression<'t>,
    pub second: Option<Expression<'t>>,
    pub last: Option<Expression<'t>>,
}

/// A qualifier of a list comprehension.
#[derive(Debug, Drop)]
pub enum Qualifier<'t> {
    Generator(Place, Pattern<'t>, Expression<'t>),
    Declarations(Place, Vec<Declaration<'t>>),
    Condition(Place, Expression<'t>),
}

impl<'t> Expression<'t> {
    ghost use Rattle.std.specs.Prelude.{◌≡◌, ℕ, List, IfOk, true};
    ghost use Rattle.cu_lex.specs.Reading.{position_of};
    ghost use Rattle.cu_names.specs.declared.names.NameId.{NameId};
    ghost use Rattle.cu_syntax.specs.Formed.{ExpressionNodeIsFormed};
    ghost use Rattle.cu_syntax.specs.Forms.{is_expression};
    ghost use Rattle.cu_syntax.specs.ExpressionMeaning.{expression_meaning};
    ghost use Rattle.cu_syntax.specs.Owners.{ExpressionIsOf, ExpressionNodeIsOf, PlaceIsOf};
    ghost use Rattle.cu_syntax.specs.Smaller.{ExpressionNodeIsBelow, expression_size};
    ghost use Rattle.cu_syntax.specs.Syntax.{expression_position};
    ghost use Rattle.cu_syntax.specs.Expressions.{expression_node};

    /// The expression that a tree is.
    pub(crate) fn new(tree: Subtree<'t>) -> Expression<'t>
        requires { is_expression tree.symbol ≡ true }
        ensures { result.tree ≡ tree.entry }
    {
        Expression { tree }
    }

    /// The place of the expression's first token, inside the parentheses round
    /// it.
    pub fn place(self) -> Place
        ensures position { (names : List (List ℕ))
            → position_of result ≡ expression_position (expression_meaning names self.entry) }
        ensures owned { (owner : NameId) (names : List (List ℕ))
            → ExpressionIsOf owner names self.entry → PlaceIsOf owner result }
    {
        inside(self.tree).place()
    }

    /// What the expression is, with the expressions in it. Parentheses round
    /// one expression leave no node.
    ///
    /// # Errors
    ///
    /// An allocation failure.
    pub fn node(self, alloc: Global) -> Result<ExpressionNode<'t>, AllocError>
        ensures meaning { (names : List (List ℕ))
            → IfOk result (λ node. expression_node names node
            ≡ expression_meaning names self.entry) }
        ensures owned { (owner : NameId) (names : List (List ℕ))
            → ExpressionIsOf owner names self.entry → IfOk result (ExpressionNodeIsOf owner names) }
        ensures smaller { IfOk result (ExpressionNodeIsBelow (expression_size self.entry)) }
        ensures formed { IfOk result ExpressionNodeIsFormed }
    {
        node(alloc, inside(self.tree))
    }
}
