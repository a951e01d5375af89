//! Patterns as they are written.
ghost use Rattle.std.specs.Prelude.{◌≡◌, true};
ghost use Rattle.cu_syntax.specs.Forms.{is_pattern};

use crate::pattern_forms::{inside, node};
use crate::subtree::Subtree;
use crate::{Literal, Name};
use cu_int::Int;
use cu_names::Place;
use std::alloc::{AllocError, Global};

/// A pattern, as a view of its tree.
#[derive(Clone, Copy, Debug)]
pub struct Pattern<'t> {
    pub(crate) tree: Subtree<'t>,
    ghost is_pattern: { is_pattern tree.symbol ≡ true },
}

/// What a pattern is, with the patterns in it.
#[derive(Debug, Drop)]
pub enum PatternNode<'t> {
    Variable(Name),
    /// A variable, and the pattern that it stands for.
    Alias(Name, Pattern<'t>),
    Wildcard(Place),
    Literal(Place, Literal<'t>),
    /// A number after a minus.
    Negative(Place, Int),
    /// A constructor on its arguments, or alone.
    Constructed(Place, Name, Vec<Pattern<'t>>),
    /// The components of a tuple. Unit has none.
    Tuple(Place, Vec<Pattern<'t>>),
    List(Place, Vec<Pattern<'t>>),
    Operators(PatItems<'t>),
}

/// Patterns with constructor operators between them, not grouped. There is one
/// operator at least.
#[derive(Debug, Drop)]
pub struct PatItems<'t> {
    pub place: Place,
    pub first: Pattern<'t>,
    pub rest: Vec<ConstructorItem<'t>>,
}

/// A constructor operator, and the pattern after it.
#[derive(Clone, Copy, Debug)]
pub struct ConstructorItem<'t> {
    pub operator: Name,
    pub operand: Pattern<'t>,
}

impl<'t> Pattern<'t> {
    ghost use Rattle.std.specs.Prelude.{◌≡◌, ℕ, List, IfOk, true};
    ghost use Rattle.cu_lex.specs.Reading.{position_of};
    ghost use Rattle.cu_names.specs.declared.names.NameId.{NameId};
    ghost use Rattle.cu_syntax.specs.Formed.{PatternNodeIsFormed};
    ghost use Rattle.cu_syntax.specs.Forms.{is_pattern};
    ghost use Rattle.cu_syntax.specs.Owners.{PatternIsOf, PatternNodeIsOf, PlaceIsOf};
    ghost use Rattle.cu_syntax.specs.Patterns.{pattern_meaning, pattern_node};
    ghost use Rattle.cu_syntax.specs.Smaller.{PatternNodeIsBelow, pattern_size};
    ghost use Rattle.cu_syntax.specs.Syntax.{pattern_position};

    /// The pattern that a tree is.
    pub(crate) fn new(tree: Subtree<'t>) -> Pattern<'t>
        requires { is_pattern tree.symbol ≡ true }
        ensures { result.tree ≡ tree.entry }
    {
        Pattern { tree }
    }

    /// The place of the pattern's first token, inside the parentheses round it.
    pub fn place(self) -> Place
        ensures position { (names : List (List ℕ))
            → position_of result ≡ pattern_position (pattern_meaning names self.entry) }
        ensures owned { (owner : NameId) (names : List (List ℕ))
            → PatternIsOf owner names self.entry → PlaceIsOf owner result }
    {
        inside(self.tree).place()
    }

    /// What the pattern is, with the patterns in it. Parentheses round one
    /// pattern leave no node.
    ///
    /// # Errors
    ///
    /// An allocation failure.
    pub fn node(self, alloc: Global) -> Result<PatternNode<'t>, AllocError>
        ensures meaning { (names : List (List ℕ))
            → IfOk result (λ node. pattern_node names node ≡ pattern_meaning names self.entry) }
        ensures owned { (owner : NameId) (names : List (List ℕ))
            → PatternIsOf owner names self.entry → IfOk result (PatternNodeIsOf owner names) }
        ensures smaller { IfOk result (PatternNodeIsBelow (pattern_size self.entry)) }
        ensures formed { IfOk result PatternNodeIsFormed }
    {
        node(alloc, inside(self.tree))
    }
}
