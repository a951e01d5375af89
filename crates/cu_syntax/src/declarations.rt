//! Declarations as they are written.
ghost use Rattle.std.specs.Prelude.{◌≡◌, true};
ghost use Rattle.cu_syntax.specs.Forms.{is_body, is_declaration};
ghost use Rattle.cu_syntax.specs.declared.symbol.Symbol.TheVariants as symbol;

use crate::expressions::Expression;
use crate::patterns::Pattern;
use crate::subtree::Subtree;
use crate::symbol::Symbol;
use crate::types::TypeTerm;
use crate::{Name, declaration_forms as forms};
use cu_names::Place;
use std::alloc::{AllocError, Global};

/// A signature, a rule, or a local declaration.
#[derive(Clone, Copy, Debug)]
pub struct Declaration<'t> {
    pub(crate) tree: Subtree<'t>,
    ghost is_declaration: { is_declaration tree.symbol ≡ true },
}

/// What a declaration is, with what is in it.
#[derive(Debug, Drop)]
pub enum DeclarationNode<'t> {
    FreeVariables(Place, Vec<Name>),
    Signature(Place, Vec<Name>, TypeTerm<'t>),
    /// A rule of a function. One without parameters is that of a variable,
    /// where it is local.
    FunctionRule(Place, Name, Vec<Pattern<'t>>, RightSide<'t>),
    PatternBinding(Place, Pattern<'t>, RightSide<'t>),
}

/// The right-hand side of a rule or of an alternative, as a view.
#[derive(Clone, Copy, Debug)]
pub struct RightSide<'t> {
    pub(crate) body: Subtree<'t>,
    pub(crate) local: Subtree<'t>,
    ghost is_body: { is_body body.symbol ≡ true },
    ghost is_local: { local.symbol ≡ symbol.OptionalWhere },
}

/// What a right-hand side is, with what is in it.
#[derive(Debug, Drop)]
pub struct RightSideNode<'t> {
    /// The place of the equals sign, the arrow or the first guard.
    pub place: Place,
    pub body: Body<'t>,
    /// The local declarations.
    pub local: Vec<Declaration<'t>>,
}

#[derive(Debug, Drop)]
pub enum Body<'t> {
    Plain(Expression<'t>),
    Guarded(Vec<Guard<'t>>),
}

/// A condition, and the expression after it.
#[derive(Clone, Copy, Debug)]
pub struct Guard<'t> {
    pub place: Place,
    pub condition: Expression<'t>,
    pub expression: Expression<'t>,
}

impl<'t> Declaration<'t> {
    ghost use Rattle.std.specs.Prelude.{◌≡◌, ℕ, List, IfOk, true};
    ghost use Rattle.cu_lex.specs.Reading.{position_of};
    ghost use Rattle.cu_names.specs.declared.names.NameId.{NameId};
    ghost use Rattle.cu_syntax.specs.Forms.{is_declaration};
    ghost use Rattle.cu_syntax.specs.Declarations.{declaration_meaning, declaration_node};
    ghost use Rattle.cu_syntax.specs.Owners.{DeclarationIsOf, DeclarationNodeIsOf, PlaceIsOf};
    ghost use Rattle.cu_syntax.specs.Smaller.{DeclarationNodeIsBelow, declaration_size};
    ghost use Rattle.cu_syntax.specs.Syntax.{declaration_position};

    /// The declaration that a tree is.
    pub(crate) fn new(tree: Subtree<'t>) -> Declaration<'t>
        requires { is_declaration tree.symbol ≡ true }
        ensures { result.tree ≡ tree.entry }
    {
        Declaration { tree }
    }

    /// The place of the declaration's first token.
    pub fn place(self) -> Place
        ensures position { (names : List (List ℕ))
            → position_of result ≡ declaration_position (declaration_meaning names self.entry) }
        ensures owned { (owner : NameId) (names : List (List ℕ))
            → DeclarationIsOf owner names self.entry → PlaceIsOf owner result }
    {
        self.tree.place()
    }

    /// What the declaration is, with what is in it.
    ///
    /// # Errors
    ///
    /// An allocation failure.
    pub fn node(self, alloc: Global) -> Result<DeclarationNode<'t>, AllocError>
        ensures meaning { (names : List (List ℕ))
            → IfOk result (λ node. declaration_node names node
            ≡ declaration_meaning names self.entry) }
        ensures owned { (owner : NameId) (names : List (List ℕ))
            → DeclarationIsOf owner names self.entry
            → IfOk result (DeclarationNodeIsOf owner names) }
        ensures smaller { IfOk result (DeclarationNodeIsBelow (declaration_size self.entry)) }
    {
        let tree = self.tree;
        match tree.symbol {
            Symbol::FreeDecl => forms::free(alloc, tree),
            Symbol::Signature => forms::signature(alloc, tree),
            Symbol::Rule => forms::rule(alloc, tree, tree.part(0, Symbol::Lhs)),
            Symbol::TopRule => forms::rule(alloc, tree, tree.part(0, Symbol::FunctionLhs)),
            _ => unreachable!(),
        }
    }
}

impl<'t> RightSide<'t> {
    ghost use Rattle.std.specs.Prelude.{◌≡◌, ℕ, List, IfOk, true};
    ghost use Rattle.cu_names.specs.declared.names.NameId.{NameId};
    ghost use Rattle.cu_syntax.specs.Forms.{is_body};
    ghost use Rattle.cu_syntax.specs.Declarations.{right_meaning, right_node};
    ghost use Rattle.cu_syntax.specs.Owners.{RightSideIsOf, RightSideNodeIsOf};
    ghost use Rattle.cu_syntax.specs.Smaller.{RightNodeIsBelow, right_size};
    ghost use Rattle.cu_syntax.specs.declared.symbol.Symbol.TheVariants as symbol;

    pub(crate) fn new(body: Subtree<'t>, local: Subtree<'t>) -> RightSide<'t>
        requires body { is_body body.symbol ≡ true }
        requires local { local.symbol ≡ symbol.OptionalWhere }
        ensures body { result.body ≡ body.entry }
        ensures local { result.local ≡ local.entry }
    {
        RightSide { body, local }
    }

    /// What the right-hand side is, with what is in it.
    ///
    /// # Errors
    ///
    /// An allocation failure.
    pub fn node(self, alloc: Global) -> Result<RightSideNode<'t>, AllocError>
        ensures meaning { (names : List (List ℕ))
            → IfOk result (λ node. right_node names node ≡ right_meaning names self.entry) }
        ensures owned { (owner : NameId) (names : List (List ℕ))
            → RightSideIsOf owner names self.entry → IfOk result (RightSideNodeIsOf owner names) }
        ensures smaller { IfOk result (RightNodeIsBelow (right_size self.entry)) }
    {
        let body = self.body.chosen();
        Ok(RightSideNode {
            place: body.place(),
            body: forms::body(alloc, body)?,
            local: forms::local(alloc, self.local)?,
        })
    }
}
