//! The forms of types in trees of the grammar.
ghost use Rattle.std.specs.Prelude.{◌≡◌, ◌<◌, ℕ, List, IfNone, IfOk, IfSome, Some, length, map, true};
ghost use Rattle.std.specs.List.{All};
ghost use Rattle.cu_names.specs.declared.names.NameId.{NameId};
ghost use Rattle.cu_peg.specs.Parse.{Parts};
ghost use Rattle.cu_syntax.specs.Forms.{is_type, is_type_node};
ghost use Rattle.cu_syntax.specs.Owners.{IsOf, TypeIsOf, TypeNodeIsOf};
ghost use Rattle.cu_syntax.specs.Reading.{type_as, type_of};
ghost use Rattle.cu_syntax.specs.SubtreeMeaning.{tree_of};
ghost use Rattle.cu_syntax.specs.Subtrees.{repeated_part, trees_from};
ghost use Rattle.cu_syntax.specs.Table.{rule_of};
ghost use Rattle.cu_syntax.specs.Types.{is_bare_type, type_at, type_node, type_tree};
ghost use Rattle.cu_syntax.specs.declared.symbol.Symbol.TheVariants as symbol;

use crate::subtree::Subtree;
use crate::symbol::Symbol;
use crate::types::{TypeNode, TypeTerm};
use std::alloc::{AllocError, Global};

/// A type, without the parentheses and the choices of the grammar round it.
pub(crate) fn inside(tree: Subtree<'_>) -> Subtree<'_>
    requires { is_type tree.symbol ≡ true }
    ensures node { is_type_node result.symbol ≡ true }
    ensures same { (names : List (List ℕ)) → type_at result.symbol (tree_of names result)
        ≡ type_at tree.entry.symbol (tree_of names tree.entry) }
    ensures bare { (names : List (List ℕ)) → is_bare_type result.symbol (tree_of names result)
        ≡ true }
    ensures owned { (owner : NameId) (names : List (List ℕ)) → IsOf owner names tree.entry
        → IsOf owner names result }
{
    let mut inner = tree;
    while let Some(next) = wrapped(inner) {
        inner = next;
    }
    inner
}

/// The type that stands for this one, where the grammar or parentheses put
/// something round it.
pub(crate) fn wrapped(tree: Subtree<'_>) -> Option<Subtree<'_>>
    requires { is_type tree.symbol ≡ true }
    ensures symbol { IfSome result (λ inner. is_type inner.symbol ≡ true) }
    ensures same { (names : List (List ℕ))
        → IfSome result (λ inner. type_at inner.symbol (tree_of names inner)
        ≡ type_at tree.entry.symbol (tree_of names tree.entry)) }
    ensures smaller { IfSome result (λ inner. length inner.nodes.now
        < length tree.entry.nodes.now) }
    ensures node { IfNone result (is_type_node tree.entry.symbol ≡ true) }
    ensures bare { (names : List (List ℕ))
        → IfNone result (is_bare_type tree.entry.symbol (tree_of names tree.entry) ≡ true) }
    ensures owned { (owner : NameId) (names : List (List ℕ)) → IsOf owner names tree.entry
        → IfSome result (IsOf owner names) }
{
    match tree.symbol {
        Symbol::TypeExp => tree.single(Symbol::BType),
        Symbol::BType => Some(tree.chosen()),
        Symbol::AType => Some(tree.chosen()),
        Symbol::TupleType => tree.part(2, Symbol::TypeList).single(Symbol::TypeExp),
        _ => None,
    }
}

/// What a type inside its parentheses is.
pub(crate) fn node(alloc: Global, tree: Subtree<'_>) -> Result<TypeNode<'_>, AllocError>
    requires node { is_type_node tree.symbol ≡ true }
    requires bare { (names : List (List ℕ)) → is_bare_type tree.symbol (tree_of names tree) ≡ true }
    ensures meaning { (names : List (List ℕ))
        → IfOk result (λ node. type_node names node
        ≡ type_at tree.entry.symbol (tree_of names tree.entry)) }
    ensures owned { (owner : NameId) (names : List (List ℕ)) → IsOf owner names tree.entry
        → IfOk result (TypeNodeIsOf owner names) }
{
    match tree.symbol {
        Symbol::TypeExp => function(alloc, tree),
        Symbol::TypeApplication => application(alloc, tree),
        Symbol::QConId => Ok(TypeNode::Named(tree.name(), Vec::new(alloc))),
        Symbol::VarId => Ok(TypeNode::Variable(tree.name())),
        Symbol::Unit => Ok(TypeNode::Tuple(tree.place(), Vec::new(alloc))),
        Symbol::TupleType => tuple(alloc, tree),
        Symbol::ListType => Ok(list(tree)),
        _ => unreachable!(),
    }
}

/// A function type, of two types or more.
fn function(alloc: Global, tree: Subtree<'_>) -> Result<TypeNode<'_>, AllocError>
    requires symbol { tree.symbol ≡ symbol.TypeExp }
    requires more { (names : List (List ℕ)) → is_bare_type tree.symbol (tree_of names tree) ≡ true }
    ensures meaning { (names : List (List ℕ))
        → IfOk result (λ node. type_node names node ≡ type_of (tree_of names tree.entry)) }
    ensures owned { (owner : NameId) (names : List (List ℕ)) → IsOf owner names tree.entry
        → IfOk result (TypeNodeIsOf owner names) }
{
    let mut types = all(alloc, tree, Symbol::BType)?;
    match types.pop() {
        Some(result) if !types.is_empty() => {
            let first = types.remove(0);
            Ok(TypeNode::Function(first, types, result))
        }
        _ => unreachable!(),
    }
}

/// A type constructor on its arguments.
fn application(alloc: Global, tree: Subtree<'_>) -> Result<TypeNode<'_>, AllocError>
    requires { tree.symbol ≡ symbol.TypeApplication }
    ensures meaning { (names : List (List ℕ))
        → IfOk result (λ node. type_node names node
        ≡ type_as symbol.TypeApplication (tree_of names tree.entry)) }
    ensures owned { (owner : NameId) (names : List (List ℕ)) → IsOf owner names tree.entry
        → IfOk result (TypeNodeIsOf owner names) }
{
    let name = tree.part(0, Symbol::QConId).name();
    let arguments = all(alloc, tree.part(1, Symbol::TypeArguments), Symbol::AType)?;
    Ok(TypeNode::Named(name, arguments))
}

/// The components of a tuple, of which there are two or more.
fn tuple(alloc: Global, tree: Subtree<'_>) -> Result<TypeNode<'_>, AllocError>
    requires symbol { tree.symbol ≡ symbol.TupleType }
    requires more { (names : List (List ℕ)) → is_bare_type tree.symbol (tree_of names tree) ≡ true }
    ensures meaning { (names : List (List ℕ))
        → IfOk result (λ node. type_node names node
        ≡ type_as symbol.TupleType (tree_of names tree.entry)) }
    ensures owned { (owner : NameId) (names : List (List ℕ)) → IsOf owner names tree.entry
        → IfOk result (TypeNodeIsOf owner names) }
{
    let components = all(alloc, tree.part(2, Symbol::TypeList), Symbol::TypeExp)?;
    Ok(TypeNode::Tuple(tree.place(), components))
}

fn list(tree: Subtree<'_>) -> TypeNode<'_>
    requires { tree.symbol ≡ symbol.ListType }
    ensures meaning { (names : List (List ℕ)) → type_node names result
        ≡ type_as symbol.ListType (tree_of names tree.entry) }
    ensures owned { (owner : NameId) (names : List (List ℕ)) → IsOf owner names tree.entry
        → TypeNodeIsOf owner names result }
{
    let element = TypeTerm::new(tree.part(1, Symbol::TypeExp));
    TypeNode::List(tree.place(), element)
}

/// The types that a tree repeats.
pub(crate) fn all(
    alloc: Global,
    tree: Subtree<'_>,
    part: Symbol,
) -> Result<Vec<TypeTerm<'_>>, AllocError>
    requires repeated { repeated_part (rule_of tree.symbol) ≡ Some part }
    requires symbol { is_type part ≡ true }
    ensures symbols { IfOk result (λ types. All (λ t. t.tree.symbol ≡ part) types.items) }
    ensures trees { (names : List (List ℕ))
        → IfOk result (λ types. tree_of names tree.entry
        ≡ Parts (trees_from (map (type_tree names) types.items))) }
    ensures owned { (owner : NameId) (names : List (List ℕ)) → IsOf owner names tree.entry
        → IfOk result (λ found. All (TypeIsOf owner names) found.items) }
{
    let mut types = Vec::new(alloc);
    for part in tree.repeated(alloc, part)? {
        types.push(TypeTerm::new(part))?;
    }
    Ok(types)
}
