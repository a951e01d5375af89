//! The forms of patterns in trees of the grammar.
ghost use Rattle.std.specs.Prelude.{◌≡◌, ◌<◌, ℕ, List, IfNone, IfOk, IfSome, Some, length, map, true};
ghost use Rattle.std.specs.List.{All};
ghost use Rattle.cu_names.specs.declared.names.NameId.{NameId};
ghost use Rattle.cu_peg.specs.Parse.{MoreTrees, Parts};
ghost use Rattle.cu_syntax.specs.Forms.{is_pattern, is_pattern_node};
ghost use Rattle.cu_syntax.specs.Owners.{ConstructorItemIsOf, IsOf, PatternIsOf, PatternNodeIsOf};
ghost use Rattle.cu_syntax.specs.Patterns.{is_bare_pattern, pattern_at, pattern_node, pattern_tree, rest_meaning, rest_of, with_item};
ghost use Rattle.cu_syntax.specs.Reading.{Trees, pattern_as, pattern_of, pattern_rest};
ghost use Rattle.cu_syntax.specs.SubtreeMeaning.{tree_of};
ghost use Rattle.cu_syntax.specs.Subtrees.{repeated_part, trees_from};
ghost use Rattle.cu_syntax.specs.Table.{rule_of};
ghost use Rattle.cu_syntax.specs.declared.symbol.Symbol.TheVariants as symbol;

use crate::patterns::{ConstructorItem, PatItems, Pattern, PatternNode};
use crate::subtree::Subtree;
use crate::symbol::Symbol;
use std::alloc::{AllocError, Global};

/// A pattern, without the parentheses and the choices of the grammar round it.
pub(crate) fn inside(tree: Subtree<'_>) -> Subtree<'_>
    requires { is_pattern tree.symbol ≡ true }
    ensures node { is_pattern_node result.symbol ≡ true }
    ensures same { (names : List (List ℕ)) → pattern_at result.symbol (tree_of names result)
        ≡ pattern_at tree.entry.symbol (tree_of names tree.entry) }
    ensures bare { (names : List (List ℕ)) → is_bare_pattern result.symbol (tree_of names result)
        ≡ true }
    ensures owned { (owner : NameId) (names : List (List ℕ)) → IsOf owner names tree.entry
        → IsOf owner names result }
{
    let mut inner = tree;
    while let Some(next) = wrapped(inner) {
        inner = next;
    }
    inner
}

/// The pattern that stands for this one, where the grammar or parentheses put
/// something round it.
fn wrapped(tree: Subtree<'_>) -> Option<Subtree<'_>>
    requires { is_pattern tree.symbol ≡ true }
    ensures symbol { IfSome result (λ inner. is_pattern inner.symbol ≡ true) }
    ensures same { (names : List (List ℕ))
        → IfSome result (λ inner. pattern_at inner.symbol (tree_of names inner)
        ≡ pattern_at tree.entry.symbol (tree_of names tree.entry)) }
    ensures smaller { IfSome result (λ inner. length inner.nodes.now
        < length tree.entry.nodes.now) }
    ensures node { IfNone result (is_pattern_node tree.entry.symbol ≡ true) }
    ensures bare { (names : List (List ℕ))
        → IfNone result (is_bare_pattern tree.entry.symbol (tree_of names tree.entry) ≡ true) }
    ensures owned { (owner : NameId) (names : List (List ℕ)) → IsOf owner names tree.entry
        → IfSome result (IsOf owner names) }
{
    match tree.symbol {
        Symbol::Pat => {
            if tree.part(1, Symbol::FurtherConPats).is_empty() {
                Some(tree.part(0, Symbol::ConPat))
            } else {
                None
            }
        }
        Symbol::ConPat => Some(tree.chosen()),
        Symbol::APat => Some(tree.chosen()),
        Symbol::TuplePat => tree.part(2, Symbol::PatList).single(Symbol::Pat),
        _ => None,
    }
}

/// What a pattern inside its parentheses is.
pub(crate) fn node(alloc: Global, tree: Subtree<'_>) -> Result<PatternNode<'_>, AllocError>
    requires node { is_pattern_node tree.symbol ≡ true }
    requires bare { (names : List (List ℕ)) → is_bare_pattern tree.symbol (tree_of names tree)
        ≡ true }
    ensures meaning { (names : List (List ℕ))
        → IfOk result (λ node. pattern_node names node
        ≡ pattern_at tree.entry.symbol (tree_of names tree.entry)) }
    ensures owned { (owner : NameId) (names : List (List ℕ)) → IsOf owner names tree.entry
        → IfOk result (PatternNodeIsOf owner names) }
{
    match tree.symbol {
        Symbol::Pat => operators(alloc, tree),
        Symbol::NegativePat => Ok(negative(tree)),
        Symbol::ConApplication => application(alloc, tree),
        Symbol::AliasPat => Ok(alias(tree)),
        Symbol::VarId => Ok(PatternNode::Variable(tree.name())),
        Symbol::Underscore => Ok(PatternNode::Wildcard(tree.place())),
        Symbol::Literal => Ok(literal(tree)),
        Symbol::QCon => Ok(PatternNode::Constructed(tree.place(), tree.name(), Vec::new(alloc))),
        Symbol::Unit => Ok(PatternNode::Tuple(tree.place(), Vec::new(alloc))),
        Symbol::TuplePat => tuple(alloc, tree),
        Symbol::ListPat => list(alloc, tree),
        _ => unreachable!(),
    }
}

/// Patterns with constructor operators between them.
fn operators(alloc: Global, tree: Subtree<'_>) -> Result<PatternNode<'_>, AllocError>
    requires symbol { tree.symbol ≡ symbol.Pat }
    requires more { (names : List (List ℕ)) → is_bare_pattern tree.symbol (tree_of names tree)
        ≡ true }
    ensures meaning { (names : List (List ℕ))
        → IfOk result (λ node. pattern_node names node ≡ pattern_of (tree_of names tree.entry)) }
    ensures owned { (owner : NameId) (names : List (List ℕ)) → IsOf owner names tree.entry
        → IfOk result (PatternNodeIsOf owner names) }
{
    let first = tree.part(0, Symbol::ConPat);
    let rest = further(alloc, tree.part(1, Symbol::FurtherConPats))?;
    Ok(PatternNode::Operators(PatItems {
        place: first.place(),
        first: Pattern::new(first),
        rest,
    }))
}

/// The constructor operators after the first pattern, each with the pattern
/// after it.
fn further(alloc: Global, tree: Subtree<'_>) -> Result<Vec<ConstructorItem<'_>>, AllocError>
    requires { tree.symbol ≡ symbol.FurtherConPats }
    ensures meaning { (names : List (List ℕ))
        → IfOk result (λ items. rest_of (tree_of names tree.entry)
        ≡ rest_meaning names items.items) }
    ensures owned { (owner : NameId) (names : List (List ℕ)) → IsOf owner names tree.entry
        → IfOk result (λ found. All (ConstructorItemIsOf owner names) found.items) }
{
    let mut items = Vec::new(alloc);
    for item in tree.repeated(alloc, Symbol::FurtherConPat)? {
        items.push(constructor_item(item))?;
    }
    Ok(items)
}

fn constructor_item(tree: Subtree<'_>) -> ConstructorItem<'_>
    requires { tree.symbol ≡ symbol.FurtherConPat }
    ensures meaning { (names : List (List ℕ)) → (rest : Trees)
        → pattern_rest (MoreTrees (tree_of names tree.entry) rest)
        ≡ with_item names result (pattern_rest rest) }
    ensures owned { (owner : NameId) (names : List (List ℕ)) → IsOf owner names tree.entry
        → ConstructorItemIsOf owner names result }
{
    ConstructorItem {
        operator: tree.part(0, Symbol::ConOp).name(),
        operand: Pattern::new(tree.part(1, Symbol::ConPat)),
    }
}

/// The number after a minus, as a pattern.
fn negative(tree: Subtree<'_>) -> PatternNode<'_>
    requires { tree.symbol ≡ symbol.NegativePat }
    ensures meaning { (names : List (List ℕ)) → pattern_node names result
        ≡ pattern_as symbol.NegativePat (tree_of names tree.entry) }
    ensures owned { (owner : NameId) (names : List (List ℕ)) → IsOf owner names tree.entry
        → PatternNodeIsOf owner names result }
{
    PatternNode::Negative(tree.place(), tree.part(1, Symbol::Int).number())
}

/// A constructor on its arguments, as a pattern.
fn application(alloc: Global, tree: Subtree<'_>) -> Result<PatternNode<'_>, AllocError>
    requires { tree.symbol ≡ symbol.ConApplication }
    ensures meaning { (names : List (List ℕ))
        → IfOk result (λ node. pattern_node names node
        ≡ pattern_as symbol.ConApplication (tree_of names tree.entry)) }
    ensures owned { (owner : NameId) (names : List (List ℕ)) → IsOf owner names tree.entry
        → IfOk result (PatternNodeIsOf owner names) }
{
    let name = tree.part(0, Symbol::QCon).name();
    let arguments = all(alloc, tree.part(1, Symbol::PatArguments), Symbol::APat)?;
    Ok(PatternNode::Constructed(tree.place(), name, arguments))
}

/// A variable, and the pattern that it stands for, as a pattern.
fn alias(tree: Subtree<'_>) -> PatternNode<'_>
    requires { tree.symbol ≡ symbol.AliasPat }
    ensures meaning { (names : List (List ℕ)) → pattern_node names result
        ≡ pattern_as symbol.AliasPat (tree_of names tree.entry) }
    ensures owned { (owner : NameId) (names : List (List ℕ)) → IsOf owner names tree.entry
        → PatternNodeIsOf owner names result }
{
    let name = tree.part(0, Symbol::VarId).name();
    PatternNode::Alias(name, Pattern::new(tree.part(2, Symbol::APat)))
}

fn literal(tree: Subtree<'_>) -> PatternNode<'_>
    requires { tree.symbol ≡ symbol.Literal }
    ensures meaning { (names : List (List ℕ)) → pattern_node names result
        ≡ pattern_as symbol.Literal (tree_of names tree.entry) }
    ensures owned { (owner : NameId) (names : List (List ℕ)) → IsOf owner names tree.entry
        → PatternNodeIsOf owner names result }
{
    PatternNode::Literal(tree.place(), tree.literal())
}

/// The components of a tuple, of which there are two or more.
fn tuple(alloc: Global, tree: Subtree<'_>) -> Result<PatternNode<'_>, AllocError>
    requires symbol { tree.symbol ≡ symbol.TuplePat }
    requires more { (names : List (List ℕ)) → is_bare_pattern tree.symbol (tree_of names tree)
        ≡ true }
    ensures meaning { (names : List (List ℕ))
        → IfOk result (λ node. pattern_node names node
        ≡ pattern_as symbol.TuplePat (tree_of names tree.entry)) }
    ensures owned { (owner : NameId) (names : List (List ℕ)) → IsOf owner names tree.entry
        → IfOk result (PatternNodeIsOf owner names) }
{
    let components = all(alloc, tree.part(2, Symbol::PatList), Symbol::Pat)?;
    Ok(PatternNode::Tuple(tree.place(), components))
}

fn list(alloc: Global, tree: Subtree<'_>) -> Result<PatternNode<'_>, AllocError>
    requires { tree.symbol ≡ symbol.ListPat }
    ensures meaning { (names : List (List ℕ))
        → IfOk result (λ node. pattern_node names node
        ≡ pattern_as symbol.ListPat (tree_of names tree.entry)) }
    ensures owned { (owner : NameId) (names : List (List ℕ)) → IsOf owner names tree.entry
        → IfOk result (PatternNodeIsOf owner names) }
{
    let elements = match tree
        .part(1, Symbol::OptionalPatList)
        .optional(Symbol::PatList)
    {
        Some(elements) => all(alloc, elements, Symbol::Pat)?,
        None => Vec::new(alloc),
    };
    Ok(PatternNode::List(tree.place(), elements))
}

/// The patterns that a tree repeats.
pub(crate) fn all(
    alloc: Global,
    tree: Subtree<'_>,
    part: Symbol,
) -> Result<Vec<Pattern<'_>>, AllocError>
    requires repeated { repeated_part (rule_of tree.symbol) ≡ Some part }
    requires symbol { is_pattern part ≡ true }
    ensures symbols { IfOk result (λ patterns. All (λ p. p.tree.symbol ≡ part) patterns.items) }
    ensures trees { (names : List (List ℕ))
        → IfOk result (λ patterns. tree_of names tree.entry
        ≡ Parts (trees_from (map (pattern_tree names) patterns.items))) }
    ensures owned { (owner : NameId) (names : List (List ℕ)) → IsOf owner names tree.entry
        → IfOk result (λ found. All (PatternIsOf owner names) found.items) }
{
    let mut patterns = Vec::new(alloc);
    for tree in tree.repeated(alloc, part)? {
        patterns.push(Pattern::new(tree))?;
    }
    Ok(patterns)
}
