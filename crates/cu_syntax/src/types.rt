//! Types as they are written.
ghost use Rattle.std.specs.Prelude.{◌≡◌, true};
ghost use Rattle.cu_syntax.specs.Forms.{is_type};

use crate::Name;
use crate::subtree::Subtree;
use crate::type_forms::{inside, node};
use cu_names::Place;
use std::alloc::{AllocError, Global};

/// A type, as a view of its tree.
#[derive(Clone, Copy, Debug)]
pub struct TypeTerm<'t> {
    pub(crate) tree: Subtree<'t>,
    ghost is_type: { is_type tree.symbol ≡ true },
}

/// What a type is, with the types in it.
#[derive(Debug, Drop)]
pub enum TypeNode<'t> {
    Variable(Name),
    /// A type constructor on its arguments, or alone.
    Named(Name, Vec<TypeTerm<'t>>),
    /// The type of the first parameter, those of further ones, and that of the
    /// result.
    Function(TypeTerm<'t>, Vec<TypeTerm<'t>>, TypeTerm<'t>),
    /// The components of a tuple. Unit has none.
    Tuple(Place, Vec<TypeTerm<'t>>),
    List(Place, TypeTerm<'t>),
}

impl<'t> TypeTerm<'t> {
    ghost use Rattle.std.specs.Prelude.{◌≡◌, ℕ, List, IfOk, true};
    ghost use Rattle.cu_lex.specs.Reading.{position_of};
    ghost use Rattle.cu_names.specs.declared.names.NameId.{NameId};
    ghost use Rattle.cu_syntax.specs.Formed.{TypeNodeIsFormed};
    ghost use Rattle.cu_syntax.specs.Forms.{is_type};
    ghost use Rattle.cu_syntax.specs.Owners.{PlaceIsOf, TypeIsOf, TypeNodeIsOf};
    ghost use Rattle.cu_syntax.specs.Smaller.{TypeNodeIsBelow, type_size};
    ghost use Rattle.cu_syntax.specs.Syntax.{type_position};
    ghost use Rattle.cu_syntax.specs.Types.{type_meaning, type_node};

    /// The type that a tree is.
    pub(crate) fn new(tree: Subtree<'t>) -> TypeTerm<'t>
        requires { is_type tree.symbol ≡ true }
        ensures { result.tree ≡ tree.entry }
    {
        TypeTerm { tree }
    }

    /// The place of the type's first token, inside the parentheses round it.
    pub fn place(self) -> Place
        ensures position { (names : List (List ℕ))
            → position_of result ≡ type_position (type_meaning names self.entry) }
        ensures owned { (owner : NameId) (names : List (List ℕ)) → TypeIsOf owner names self.entry
            → PlaceIsOf owner result }
    {
        inside(self.tree).place()
    }

    /// What the type is, with the types in it. Parentheses round one type leave
    /// no node.
    ///
    /// # Errors
    ///
    /// An allocation failure.
    pub fn node(self, alloc: Global) -> Result<TypeNode<'t>, AllocError>
        ensures meaning { (names : List (List ℕ))
            → IfOk result (λ node. type_node names node ≡ type_meaning names self.entry) }
        ensures owned { (owner : NameId) (names : List (List ℕ)) → TypeIsOf owner names self.entry
            → IfOk result (TypeNodeIsOf owner names) }
        ensures smaller { IfOk result (TypeNodeIsBelow (type_size self.entry)) }
        ensures formed { IfOk result TypeNodeIsFormed }
    {
        node(alloc, inside(self.tree))
    }
}
