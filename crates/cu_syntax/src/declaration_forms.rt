//! The forms of declarations in trees of the grammar.
ghost use Rattle.std.specs.Prelude.{◌≡◌, ℕ, List, IfOk, Some, map, true};
ghost use Rattle.std.specs.List.{All};
ghost use Rattle.cu_names.specs.declared.names.NameId.{NameId};
ghost use Rattle.cu_peg.specs.Parse.{MoreTrees, Parts, only};
ghost use Rattle.cu_syntax.specs.Declarations.{Guards, body_meaning, declaration_node, declarations_meaning, guards_in, left_meaning, right_of, with_guard};
ghost use Rattle.cu_syntax.specs.Forms.{is_guard, is_left_node, is_left_side, is_name, is_right_node, is_rule, left_of};
ghost use Rattle.cu_syntax.specs.Names.{name_meaning};
ghost use Rattle.cu_syntax.specs.Owners.{BodyIsOf, DeclarationIsOf, DeclarationNodeIsOf, GuardIsOf, IsOf, LeftIsOf, NameIsOf, PatternIsOf, RightSideIsOf};
ghost use Rattle.cu_syntax.specs.Reading.{Trees, block_of, declaration_as, guards_of, left_as, left_choice, names_in, place, right_as, where_block, with_arguments};
ghost use Rattle.cu_syntax.specs.Patterns.{patterns_meaning};
ghost use Rattle.cu_syntax.specs.Syntax.{Declarations};
ghost use Rattle.cu_syntax.specs.SubtreeMeaning.{tree_of};
ghost use Rattle.cu_syntax.specs.Subtrees.{part_of, repeated_part};
ghost use Rattle.cu_syntax.specs.Table.{rule_of};
ghost use Rattle.cu_syntax.specs.declared.symbol.Symbol.TheVariants as symbol;

use crate::declarations::{Body, Declaration, DeclarationNode, Guard, RightSide};
use crate::expressions::Expression;
use crate::patterns::{Pattern, PatternNode};
use crate::subtree::Subtree;
use crate::symbol::Symbol;
use crate::types::TypeTerm;
use crate::{Name, pattern_forms};
use std::alloc::{AllocError, Global};

/// The left-hand side of a rule: a function on parameters, or a pattern.
#[derive(Drop)]
enum Left<'t> {
    Function(Name, Vec<Pattern<'t>>),
    Pattern(Pattern<'t>),
}

pub(crate) fn free(alloc: Global, tree: Subtree<'_>) -> Result<DeclarationNode<'_>, AllocError>
    requires { tree.symbol ≡ symbol.FreeDecl }
    ensures meaning { (names : List (List ℕ))
        → IfOk result (λ node. declaration_node names node
        ≡ declaration_as symbol.FreeDecl (tree_of names tree.entry)) }
    ensures owned { (owner : NameId) (names : List (List ℕ)) → IsOf owner names tree.entry
        → IfOk result (DeclarationNodeIsOf owner names) }
{
    let variables = names(alloc, tree.part(0, Symbol::VarIdList), Symbol::VarId)?;
    Ok(DeclarationNode::FreeVariables(tree.place(), variables))
}

pub(crate) fn signature(alloc: Global, tree: Subtree<'_>) -> Result<DeclarationNode<'_>, AllocError>
    requires { tree.symbol ≡ symbol.Signature }
    ensures meaning { (names : List (List ℕ))
        → IfOk result (λ node. declaration_node names node
        ≡ declaration_as symbol.Signature (tree_of names tree.entry)) }
    ensures owned { (owner : NameId) (names : List (List ℕ)) → IsOf owner names tree.entry
        → IfOk result (DeclarationNodeIsOf owner names) }
{
    let functions = names(alloc, tree.part(0, Symbol::VarList), Symbol::Var)?;
    let term = TypeTerm::new(tree.part(2, Symbol::TypeExp));
    Ok(DeclarationNode::Signature(tree.place(), functions, term))
}

/// A rule with its left-hand side.
pub(crate) fn rule<'t>(
    alloc: Global,
    tree: Subtree<'t>,
    left: Subtree<'t>,
) -> Result<DeclarationNode<'t>, AllocError>
    requires symbol { is_rule tree.symbol ≡ true }
    requires left { is_left_side left.symbol ≡ true }
    requires first { (names : List (List ℕ)) → tree_of names left ≡ part_of (tree_of names tree) 0 }
    requires same { left_of tree.symbol ≡ left.symbol }
    ensures meaning { (names : List (List ℕ))
        → IfOk result (λ node. declaration_node names node
        ≡ declaration_as tree.entry.symbol (tree_of names tree.entry)) }
    ensures owned { (owner : NameId) (names : List (List ℕ)) → IsOf owner names tree.entry
        → IsOf owner names left.entry → IfOk result (DeclarationNodeIsOf owner names) }
{
    let right = right(tree.part(1, Symbol::Rhs));
    match left_side(alloc, left)? {
        Left::Function(function, parameters) => Ok(DeclarationNode::FunctionRule(
            tree.place(),
            function,
            parameters,
            right,
        )),
        Left::Pattern(pattern) => match pattern.node(alloc)? {
            PatternNode::Variable(x) => Ok(DeclarationNode::FunctionRule(
                tree.place(),
                x,
                Vec::new(alloc),
                right,
            )),
            _ => Ok(DeclarationNode::PatternBinding(tree.place(), pattern, right)),
        },
    }
}

fn right(tree: Subtree<'_>) -> RightSide<'_>
    requires { tree.symbol ≡ symbol.Rhs }
    ensures body { result.body.symbol ≡ symbol.RhsBody }
    ensures tree { (names : List (List ℕ)) → tree_of names tree.entry
        ≡ Parts (MoreTrees (tree_of names result.body) (only (tree_of names result.local))) }
    ensures owned { (owner : NameId) (names : List (List ℕ)) → IsOf owner names tree.entry
        → RightSideIsOf owner names result }
{
    RightSide::new(
        tree.part(0, Symbol::RhsBody),
        tree.part(1, Symbol::OptionalWhere),
    )
}

/// The left-hand side of a rule, which may stand in parentheses, with further
/// parameters after them.
fn left_side(alloc: Global, tree: Subtree<'_>) -> Result<Left<'_>, AllocError>
    requires { is_left_side tree.symbol ≡ true }
    ensures meaning { (names : List (List ℕ))
        → IfOk result (λ left. left_meaning names left
        ≡ left_choice tree.entry.symbol (tree_of names tree.entry)) }
    ensures owned { (owner : NameId) (names : List (List ℕ)) → IsOf owner names tree.entry
        → IfOk result (LeftIsOf owner names) }
{
    let mut further = Vec::new(alloc);
    let mut inner = tree.chosen();
    while inner.symbol == Symbol::ParenthesizedLhs {
        further.push(inner.part(3, Symbol::PatArguments))?;
        inner = inner.part(1, Symbol::Lhs).chosen();
    }
    let mut left = bare_left_side(alloc, inner)?;
    while let Some(arguments) = further.pop() {
        left = with_arguments(left, pattern_forms::all(alloc, arguments, Symbol::APat)?)?;
    }
    Ok(left)
}

/// A left-hand side without parentheses round it.
fn bare_left_side(alloc: Global, tree: Subtree<'_>) -> Result<Left<'_>, AllocError>
    requires { is_left_node tree.symbol ≡ true }
    ensures meaning { (names : List (List ℕ))
        → IfOk result (λ left. left_meaning names left
        ≡ left_as tree.entry.symbol (tree_of names tree.entry)) }
    ensures owned { (owner : NameId) (names : List (List ℕ)) → IsOf owner names tree.entry
        → IfOk result (LeftIsOf owner names) }
{
    match tree.symbol {
        Symbol::InfixLhs => {
            let left = Pattern::new(tree.part(0, Symbol::Pat));
            let right = Pattern::new(tree.part(2, Symbol::Pat));
            let name = tree.part(1, Symbol::VarOp).name();
            Ok(Left::Function(name, vec![in alloc; left, right]?))
        }
        Symbol::PrefixLhs => {
            let name = tree.part(0, Symbol::Var).name();
            let parameters = pattern_forms::all(alloc, tree.part(1, Symbol::APats), Symbol::APat)?;
            Ok(Left::Function(name, parameters))
        }
        Symbol::PatternLhs => Ok(Left::Pattern(Pattern::new(tree.part(0, Symbol::Pat)))),
        _ => unreachable!(),
    }
}

/// A left-hand side with further parameters of its function.
fn with_arguments<'t>(left: Left<'t>, arguments: Vec<Pattern<'t>>) -> Result<Left<'t>, AllocError>
    ensures meaning { (names : List (List ℕ))
        → IfOk result (λ found. left_meaning names found
        ≡ with_arguments (left_meaning names left.entry)
        (patterns_meaning names arguments.entry.items)) }
    ensures owned { (owner : NameId) (names : List (List ℕ)) → LeftIsOf owner names left.entry
        → All (PatternIsOf owner names) arguments.entry.items → IfOk result (LeftIsOf owner names) }
{
    match left {
        Left::Function(name, mut parameters) => {
            parameters.extend_from_slice(arguments.as_slice())?;
            Ok(Left::Function(name, parameters))
        }
        Left::Pattern(pattern) => Ok(Left::Pattern(pattern)),
    }
}

/// What follows the equals sign or the arrow: an expression, or guards.
pub(crate) fn body(alloc: Global, tree: Subtree<'_>) -> Result<Body<'_>, AllocError>
    requires { is_right_node tree.symbol ≡ true }
    ensures meaning { (names : List (List ℕ)) (local : Declarations)
        → IfOk result (λ body. right_of (place (tree_of names tree.entry))
        (body_meaning names body) local
        ≡ right_as tree.entry.symbol (tree_of names tree.entry) local) }
    ensures owned { (owner : NameId) (names : List (List ℕ)) → IsOf owner names tree.entry
        → IfOk result (BodyIsOf owner names) }
{
    match tree.symbol {
        Symbol::PlainRhs => Ok(Body::Plain(Expression::new(tree.part(1, Symbol::Exp)))),
        Symbol::PlainAlt => Ok(Body::Plain(Expression::new(tree.part(1, Symbol::Exp)))),
        Symbol::GuardedRhs => guards(alloc, tree, Symbol::GuardedExp),
        Symbol::GuardedAlts => guards(alloc, tree, Symbol::GuardedAlt),
        _ => unreachable!(),
    }
}

fn guards(alloc: Global, tree: Subtree<'_>, part: Symbol) -> Result<Body<'_>, AllocError>
    requires repeated { repeated_part (rule_of tree.symbol) ≡ Some part }
    requires symbol { is_guard part ≡ true }
    ensures meaning { (names : List (List ℕ))
        → IfOk result (λ body. body_meaning names body
        ≡ Guards (guards_in (tree_of names tree.entry))) }
    ensures owned { (owner : NameId) (names : List (List ℕ)) → IsOf owner names tree.entry
        → IfOk result (BodyIsOf owner names) }
{
    let mut guards = Vec::new(alloc);
    for tree in tree.repeated(alloc, part)? {
        guards.push(guard(tree))?;
    }
    Ok(Body::Guarded(guards))
}

fn guard(tree: Subtree<'_>) -> Guard<'_>
    requires { is_guard tree.symbol ≡ true }
    ensures meaning { (names : List (List ℕ)) (rest : Trees)
        → guards_of (MoreTrees (tree_of names tree.entry) rest)
        ≡ with_guard names result (guards_of rest) }
    ensures owned { (owner : NameId) (names : List (List ℕ)) → IsOf owner names tree.entry
        → GuardIsOf owner names result }
{
    Guard {
        place: tree.place(),
        condition: Expression::new(tree.part(1, Symbol::Exp)),
        expression: Expression::new(tree.part(3, Symbol::Exp)),
    }
}

/// The declarations after `where`, if it is there.
pub(crate) fn local(alloc: Global, tree: Subtree<'_>) -> Result<Vec<Declaration<'_>>, AllocError>
    requires { tree.symbol ≡ symbol.OptionalWhere }
    ensures meaning { (names : List (List ℕ))
        → IfOk result (λ found. declarations_meaning names found.items
        ≡ where_block (tree_of names tree.entry)) }
    ensures owned { (owner : NameId) (names : List (List ℕ)) → IsOf owner names tree.entry
        → IfOk result (λ found. All (DeclarationIsOf owner names) found.items) }
{
    match tree.optional(Symbol::WhereBlock) {
        Some(local) => block(alloc, local.part(1, Symbol::Block)),
        None => Ok(Vec::new(alloc)),
    }
}

/// The declarations of a block that aren't empty.
pub(crate) fn block(alloc: Global, tree: Subtree<'_>) -> Result<Vec<Declaration<'_>>, AllocError>
    requires { tree.symbol ≡ symbol.Block }
    ensures meaning { (names : List (List ℕ))
        → IfOk result (λ found. declarations_meaning names found.items
        ≡ block_of (tree_of names tree.entry)) }
    ensures owned { (owner : NameId) (names : List (List ℕ)) → IsOf owner names tree.entry
        → IfOk result (λ found. All (DeclarationIsOf owner names) found.items) }
{
    let mut declarations = Vec::new(alloc);
    let list = tree.part(1, Symbol::DeclList);
    for place in list.repeated(alloc, Symbol::OptionalDecl)? {
        if let Some(declaration) = place.optional(Symbol::Decl) {
            declarations.push(Declaration::new(declaration.chosen()))?;
        }
    }
    Ok(declarations)
}

/// The names that a tree repeats.
pub(crate) fn names(alloc: Global, tree: Subtree<'_>, part: Symbol) -> Result<Vec<Name>, AllocError>
    requires repeated { repeated_part (rule_of tree.symbol) ≡ Some part }
    requires symbol { is_name part ≡ true }
    ensures meaning { (names : List (List ℕ))
        → IfOk result (λ found. map (name_meaning names) found.items
        ≡ names_in (tree_of names tree.entry)) }
    ensures owned { (owner : NameId) (names : List (List ℕ)) → IsOf owner names tree.entry
        → IfOk result (λ found. All (NameIsOf owner names) found.items) }
{
    let mut names = Vec::new(alloc);
    for name in tree.repeated(alloc, part)? {
        names.push(name.name())?;
    }
    Ok(names)
}
