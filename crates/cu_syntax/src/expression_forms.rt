//! The forms of expressions in trees of the grammar.
ghost use Rattle.std.specs.Prelude.{◌≡◌, ◌<◌, ℕ, List, IfNone, IfOk, IfSome, Some, length, map, true};
ghost use Rattle.std.specs.List.{All};
ghost use Rattle.cu_names.specs.declared.names.NameId.{NameId};
ghost use Rattle.cu_peg.specs.Parse.{MoreTrees, Parts, only};
ghost use Rattle.cu_syntax.specs.ExpressionMeaning.{expression_at, expression_tree};
ghost use Rattle.cu_syntax.specs.Expressions.{alternatives_in, alternatives_meaning, expression_node, is_bare_expression, maybe_meaning, maybe_position, qualifier_meaning, qualifiers_in, qualifiers_meaning, rest_meaning, rest_of, with_alternative, with_item};
ghost use Rattle.cu_syntax.specs.Forms.{is_expression, is_expression_node, is_qualifier};
ghost use Rattle.cu_syntax.specs.Owners.{AlternativeIsOf, ExpressionIsOf, ExpressionNodeIsOf, IsOf, OperatorItemIsOf, PlaceIsOf, QualifierIsOf};
ghost use Rattle.cu_syntax.specs.Reading.{Trees, alternatives_of, case_word, expression_as, expression_of, maybe_expression, minus_of, operator_rest, qualifier_as};
ghost use Rattle.cu_syntax.specs.SubtreeMeaning.{tree_of};
ghost use Rattle.cu_syntax.specs.Subtrees.{repeated_part, trees_from};
ghost use Rattle.cu_syntax.specs.Table.{rule_of};
ghost use Rattle.cu_syntax.specs.declared.symbol.Symbol.TheVariants as symbol;

use crate::declaration_forms::block;
use crate::declarations::RightSide;
use crate::expressions::{
    Alternative, CaseWord, Enumeration, Expression, ExpressionNode, Items, OperatorItem, Qualifier,
};
use crate::pattern_forms;
use crate::patterns::Pattern;
use crate::subtree::Subtree;
use crate::symbol::Symbol;
use cu_names::Place;
use std::alloc::{AllocError, Global};

/// An expression, without the parentheses and the choices of the grammar round
/// it.
pub(crate) fn inside(tree: Subtree<'_>) -> Subtree<'_>
    requires { is_expression tree.symbol ≡ true }
    ensures node { is_expression_node result.symbol ≡ true }
    ensures same { (names : List (List ℕ)) → expression_at result.symbol (tree_of names result)
        ≡ expression_at tree.entry.symbol (tree_of names tree.entry) }
    ensures bare { (names : List (List ℕ)) → is_bare_expression result.symbol (tree_of names result)
        ≡ true }
    ensures owned { (owner : NameId) (names : List (List ℕ)) → IsOf owner names tree.entry
        → IsOf owner names result }
{
    let mut inner = tree;
    while let Some(next) = wrapped(inner) {
        inner = next;
    }
    inner
}

/// What an expression inside its parentheses is.
pub(crate) fn node(alloc: Global, tree: Subtree<'_>) -> Result<ExpressionNode<'_>, AllocError>
    requires node { is_expression_node tree.symbol ≡ true }
    requires bare { (names : List (List ℕ)) → is_bare_expression tree.symbol (tree_of names tree)
        ≡ true }
    ensures meaning { (names : List (List ℕ))
        → IfOk result (λ node. expression_node names node
        ≡ expression_at tree.entry.symbol (tree_of names tree.entry)) }
    ensures owned { (owner : NameId) (names : List (List ℕ)) → IsOf owner names tree.entry
        → IfOk result (ExpressionNodeIsOf owner names) }
{
    match tree.symbol {
        Symbol::Exp => operators(alloc, tree),
        Symbol::Lambda => lambda(alloc, tree),
        Symbol::LetExp => let_in(alloc, tree),
        Symbol::IfExp => Ok(condition(tree)),
        Symbol::CaseExp => case(alloc, tree),
        Symbol::Application => application(alloc, tree),
        Symbol::Literal => Ok(ExpressionNode::Literal(tree.place(), tree.literal())),
        Symbol::QVar => Ok(ExpressionNode::Variable(tree.place(), tree.name())),
        Symbol::QCon => Ok(ExpressionNode::Constructor(tree.place(), tree.name())),
        Symbol::Unit => Ok(ExpressionNode::Tuple(tree.place(), Vec::new(alloc))),
        Symbol::TupleCon => Ok(tuple_constructor(tree)),
        Symbol::RightSection => Ok(right_section(tree)),
        Symbol::LeftSection => Ok(left_section(tree)),
        Symbol::Tuple => tuple(alloc, tree),
        Symbol::EmptyList => Ok(ExpressionNode::List(tree.place(), Vec::new(alloc))),
        Symbol::FromThen => Ok(from_then(tree)),
        Symbol::From => Ok(from(tree)),
        Symbol::Comprehension => comprehension(alloc, tree),
        Symbol::ListExp => list(alloc, tree),
        _ => unreachable!(),
    }
}

/// The expression that stands for this one, where the grammar or parentheses
/// put something round it.
fn wrapped(tree: Subtree<'_>) -> Option<Subtree<'_>>
    requires { is_expression tree.symbol ≡ true }
    ensures symbol { IfSome result (λ inner. is_expression inner.symbol ≡ true) }
    ensures same { (names : List (List ℕ))
        → IfSome result (λ inner. expression_at inner.symbol (tree_of names inner)
        ≡ expression_at tree.entry.symbol (tree_of names tree.entry)) }
    ensures smaller { IfSome result (λ inner. length inner.nodes.now
        < length tree.entry.nodes.now) }
    ensures node { IfNone result (is_expression_node tree.entry.symbol ≡ true) }
    ensures bare { (names : List (List ℕ))
        → IfNone result (is_bare_expression tree.entry.symbol (tree_of names tree.entry) ≡ true) }
    ensures owned { (owner : NameId) (names : List (List ℕ)) → IsOf owner names tree.entry
        → IfSome result (IsOf owner names) }
{
    match tree.symbol {
        Symbol::Exp => lone_operand(tree),
        Symbol::Operand => Some(tree.chosen()),
        Symbol::Application => tree.single(Symbol::Atom),
        Symbol::Atom => Some(tree.chosen()),
        Symbol::Tuple => tree.part(2, Symbol::ExpList).single(Symbol::Exp),
        _ => None,
    }
}

/// The operand that an expression is, where it has no minus and no operator.
fn lone_operand(tree: Subtree<'_>) -> Option<Subtree<'_>>
    requires { tree.symbol ≡ symbol.Exp }
    ensures symbol { IfSome result (λ inner. inner.symbol ≡ symbol.Operand) }
    ensures same { (names : List (List ℕ))
        → IfSome result (λ inner. expression_at symbol.Operand (tree_of names inner)
        ≡ expression_of (tree_of names tree.entry)) }
    ensures smaller { IfSome result (λ inner. length inner.nodes.now
        < length tree.entry.nodes.now) }
    ensures bare { (names : List (List ℕ))
        → IfNone result (is_bare_expression symbol.Exp (tree_of names tree.entry) ≡ true) }
    ensures owned { (owner : NameId) (names : List (List ℕ)) → IsOf owner names tree.entry
        → IfSome result (IsOf owner names) }
{
    let has_minus = tree
        .part(0, Symbol::OptionalMinus)
        .optional(Symbol::Minus)
        .is_some();
    if has_minus || !tree.part(2, Symbol::FurtherOperands).is_empty() {
        return None;
    }
    Some(tree.part(1, Symbol::Operand))
}

/// An expression with operators between operands, or a minus before the first.
fn operators(alloc: Global, tree: Subtree<'_>) -> Result<ExpressionNode<'_>, AllocError>
    requires symbol { tree.symbol ≡ symbol.Exp }
    requires more { (names : List (List ℕ)) → is_bare_expression tree.symbol (tree_of names tree)
        ≡ true }
    ensures meaning { (names : List (List ℕ))
        → IfOk result (λ node. expression_node names node
        ≡ expression_of (tree_of names tree.entry)) }
    ensures owned { (owner : NameId) (names : List (List ℕ)) → IsOf owner names tree.entry
        → IfOk result (ExpressionNodeIsOf owner names) }
{
    Ok(ExpressionNode::Operators(Items {
        place: tree.place(),
        minus: minus(tree.part(0, Symbol::OptionalMinus)),
        first: Expression::new(tree.part(1, Symbol::Operand)),
        rest: further(alloc, tree.part(2, Symbol::FurtherOperands))?,
    }))
}

/// The place of a minus, if it is there.
fn minus(tree: Subtree<'_>) -> Option<Place>
    requires { tree.symbol ≡ symbol.OptionalMinus }
    ensures position { (names : List (List ℕ)) → maybe_position result
        ≡ minus_of (tree_of names tree.entry) }
    ensures owned { (owner : NameId) (names : List (List ℕ)) → IsOf owner names tree.entry
        → IfSome result (PlaceIsOf owner) }
{
    let minus = tree.optional(Symbol::Minus)?;
    Some(minus.place())
}

/// The operators after the first operand, each with the operand after it.
fn further(alloc: Global, tree: Subtree<'_>) -> Result<Vec<OperatorItem<'_>>, AllocError>
    requires { tree.symbol ≡ symbol.FurtherOperands }
    ensures meaning { (names : List (List ℕ))
        → IfOk result (λ items. rest_of (tree_of names tree.entry)
        ≡ rest_meaning names items.items) }
    ensures owned { (owner : NameId) (names : List (List ℕ)) → IsOf owner names tree.entry
        → IfOk result (λ found. All (OperatorItemIsOf owner names) found.items) }
{
    let mut items = Vec::new(alloc);
    for item in tree.repeated(alloc, Symbol::FurtherOperand)? {
        items.push(operator_item(item))?;
    }
    Ok(items)
}

fn operator_item(tree: Subtree<'_>) -> OperatorItem<'_>
    requires { tree.symbol ≡ symbol.FurtherOperand }
    ensures meaning { (names : List (List ℕ)) (rest : Trees)
        → operator_rest (MoreTrees (tree_of names tree.entry) rest)
        ≡ with_item names result (operator_rest rest) }
    ensures owned { (owner : NameId) (names : List (List ℕ)) → IsOf owner names tree.entry
        → OperatorItemIsOf owner names result }
{
    OperatorItem {
        operator: tree.part(0, Symbol::QOp).name(),
        minus: minus(tree.part(1, Symbol::OptionalMinus)),
        operand: Expression::new(tree.part(2, Symbol::Operand)),
    }
}

fn lambda(alloc: Global, tree: Subtree<'_>) -> Result<ExpressionNode<'_>, AllocError>
    requires { tree.symbol ≡ symbol.Lambda }
    ensures meaning { (names : List (List ℕ))
        → IfOk result (λ node. expression_node names node
        ≡ expression_as symbol.Lambda (tree_of names tree.entry)) }
    ensures owned { (owner : NameId) (names : List (List ℕ)) → IsOf owner names tree.entry
        → IfOk result (ExpressionNodeIsOf owner names) }
{
    let parameters = pattern_forms::all(alloc, tree.part(1, Symbol::PatArguments), Symbol::APat)?;
    let body = Expression::new(tree.part(3, Symbol::Exp));
    Ok(ExpressionNode::Lambda(tree.place(), parameters, body))
}

fn let_in(alloc: Global, tree: Subtree<'_>) -> Result<ExpressionNode<'_>, AllocError>
    requires { tree.symbol ≡ symbol.LetExp }
    ensures meaning { (names : List (List ℕ))
        → IfOk result (λ node. expression_node names node
        ≡ expression_as symbol.LetExp (tree_of names tree.entry)) }
    ensures owned { (owner : NameId) (names : List (List ℕ)) → IsOf owner names tree.entry
        → IfOk result (ExpressionNodeIsOf owner names) }
{
    let declarations = block(alloc, tree.part(1, Symbol::Block))?;
    let body = Expression::new(tree.part(3, Symbol::Exp));
    Ok(ExpressionNode::Let(tree.place(), declarations, body))
}

fn condition(tree: Subtree<'_>) -> ExpressionNode<'_>
    requires { tree.symbol ≡ symbol.IfExp }
    ensures meaning { (names : List (List ℕ)) → expression_node names result
        ≡ expression_as symbol.IfExp (tree_of names tree.entry) }
    ensures owned { (owner : NameId) (names : List (List ℕ)) → IsOf owner names tree.entry
        → ExpressionNodeIsOf owner names result }
{
    let condition = Expression::new(tree.part(1, Symbol::Exp));
    let chosen = Expression::new(tree.part(3, Symbol::Exp));
    let other = Expression::new(tree.part(5, Symbol::Exp));
    ExpressionNode::If(tree.place(), condition, chosen, other)
}

fn case(alloc: Global, tree: Subtree<'_>) -> Result<ExpressionNode<'_>, AllocError>
    requires { tree.symbol ≡ symbol.CaseExp }
    ensures meaning { (names : List (List ℕ))
        → IfOk result (λ node. expression_node names node
        ≡ expression_as symbol.CaseExp (tree_of names tree.entry)) }
    ensures owned { (owner : NameId) (names : List (List ℕ)) → IsOf owner names tree.entry
        → IfOk result (ExpressionNodeIsOf owner names) }
{
    let word = word(tree.part(0, Symbol::CaseWord));
    let subject = Expression::new(tree.part(1, Symbol::Exp));
    let alternatives = alternatives(alloc, tree.part(4, Symbol::AltList))?;
    Ok(ExpressionNode::Case(tree.place(), word, subject, alternatives))
}

fn word(tree: Subtree<'_>) -> CaseWord
    requires { tree.symbol ≡ symbol.CaseWord }
    ensures { (names : List (List ℕ)) → result ≡ case_word (tree_of names tree.entry) }
{
    match tree.chosen().symbol {
        Symbol::Case => CaseWord::Case,
        _ => CaseWord::Fcase,
    }
}

/// The alternatives of a case distinction that aren't empty.
fn alternatives(alloc: Global, tree: Subtree<'_>) -> Result<Vec<Alternative<'_>>, AllocError>
    requires { tree.symbol ≡ symbol.AltList }
    ensures meaning { (names : List (List ℕ))
        → IfOk result (λ found. alternatives_in (tree_of names tree.entry)
        ≡ alternatives_meaning names found.items) }
    ensures owned { (owner : NameId) (names : List (List ℕ)) → IsOf owner names tree.entry
        → IfOk result (λ found. All (AlternativeIsOf owner names) found.items) }
{
    let mut alternatives = Vec::new(alloc);
    for place in tree.repeated(alloc, Symbol::OptionalAlt)? {
        let Some(alternative) = place.optional(Symbol::Alt) else {
            continue;
        };
        alternatives.push(alternative_of(alternative))?;
    }
    Ok(alternatives)
}

fn alternative_of(tree: Subtree<'_>) -> Alternative<'_>
    requires { tree.symbol ≡ symbol.Alt }
    ensures meaning { (names : List (List ℕ)) (rest : Trees)
        → alternatives_of (MoreTrees (Parts (only (tree_of names tree.entry))) rest)
        ≡ with_alternative names result (alternatives_of rest) }
    ensures owned { (owner : NameId) (names : List (List ℕ)) → IsOf owner names tree.entry
        → AlternativeIsOf owner names result }
{
    let pattern = Pattern::new(tree.part(0, Symbol::Pat));
    let right = RightSide::new(
        tree.part(1, Symbol::AltBody),
        tree.part(2, Symbol::OptionalWhere),
    );
    Alternative {
        place: tree.place(),
        pattern,
        right,
    }
}

/// A function on arguments.
fn application(alloc: Global, tree: Subtree<'_>) -> Result<ExpressionNode<'_>, AllocError>
    requires symbol { tree.symbol ≡ symbol.Application }
    requires more { (names : List (List ℕ)) → is_bare_expression tree.symbol (tree_of names tree)
        ≡ true }
    ensures meaning { (names : List (List ℕ))
        → IfOk result (λ node. expression_node names node
        ≡ expression_as symbol.Application (tree_of names tree.entry)) }
    ensures owned { (owner : NameId) (names : List (List ℕ)) → IsOf owner names tree.entry
        → IfOk result (ExpressionNodeIsOf owner names) }
{
    let mut arguments = all(alloc, tree, Symbol::Atom)?;
    let function = arguments.remove(0);
    Ok(ExpressionNode::Application(tree.place(), function, arguments))
}

fn tuple_constructor(tree: Subtree<'_>) -> ExpressionNode<'_>
    requires { tree.symbol ≡ symbol.TupleCon }
    ensures meaning { (names : List (List ℕ)) → expression_node names result
        ≡ expression_as symbol.TupleCon (tree_of names tree.entry) }
    ensures owned { (owner : NameId) (names : List (List ℕ)) → IsOf owner names tree.entry
        → ExpressionNodeIsOf owner names result }
{
    let commas = tree.part(2, Symbol::Commas).count();
    ExpressionNode::TupleConstructor(tree.place(), commas + 1)
}

fn right_section(tree: Subtree<'_>) -> ExpressionNode<'_>
    requires { tree.symbol ≡ symbol.RightSection }
    ensures meaning { (names : List (List ℕ)) → expression_node names result
        ≡ expression_as symbol.RightSection (tree_of names tree.entry) }
    ensures owned { (owner : NameId) (names : List (List ℕ)) → IsOf owner names tree.entry
        → ExpressionNodeIsOf owner names result }
{
    let operator = tree.part(2, Symbol::QOp).name();
    let operand = Expression::new(tree.part(3, Symbol::Exp));
    ExpressionNode::RightSection(tree.place(), operator, operand)
}

fn left_section(tree: Subtree<'_>) -> ExpressionNode<'_>
    requires { tree.symbol ≡ symbol.LeftSection }
    ensures meaning { (names : List (List ℕ)) → expression_node names result
        ≡ expression_as symbol.LeftSection (tree_of names tree.entry) }
    ensures owned { (owner : NameId) (names : List (List ℕ)) → IsOf owner names tree.entry
        → ExpressionNodeIsOf owner names result }
{
    let operand = Expression::new(tree.part(1, Symbol::Exp));
    let operator = tree.part(2, Symbol::QOp).name();
    ExpressionNode::LeftSection(tree.place(), operand, operator)
}

/// The components of a tuple, of which there are two or more.
fn tuple(alloc: Global, tree: Subtree<'_>) -> Result<ExpressionNode<'_>, AllocError>
    requires symbol { tree.symbol ≡ symbol.Tuple }
    requires more { (names : List (List ℕ)) → is_bare_expression tree.symbol (tree_of names tree)
        ≡ true }
    ensures meaning { (names : List (List ℕ))
        → IfOk result (λ node. expression_node names node
        ≡ expression_as symbol.Tuple (tree_of names tree.entry)) }
    ensures owned { (owner : NameId) (names : List (List ℕ)) → IsOf owner names tree.entry
        → IfOk result (ExpressionNodeIsOf owner names) }
{
    let components = all(alloc, tree.part(2, Symbol::ExpList), Symbol::Exp)?;
    Ok(ExpressionNode::Tuple(tree.place(), components))
}

fn from_then(tree: Subtree<'_>) -> ExpressionNode<'_>
    requires { tree.symbol ≡ symbol.FromThen }
    ensures meaning { (names : List (List ℕ)) → expression_node names result
        ≡ expression_as symbol.FromThen (tree_of names tree.entry) }
    ensures owned { (owner : NameId) (names : List (List ℕ)) → IsOf owner names tree.entry
        → ExpressionNodeIsOf owner names result }
{
    let first = Expression::new(tree.part(1, Symbol::Exp));
    let second = Some(Expression::new(tree.part(3, Symbol::Exp)));
    let last = maybe(tree.part(5, Symbol::OptionalExp));
    ExpressionNode::Enumeration(
        tree.place(),
        Enumeration {
            first,
            second,
            last,
        },
    )
}

fn from(tree: Subtree<'_>) -> ExpressionNode<'_>
    requires { tree.symbol ≡ symbol.From }
    ensures meaning { (names : List (List ℕ)) → expression_node names result
        ≡ expression_as symbol.From (tree_of names tree.entry) }
    ensures owned { (owner : NameId) (names : List (List ℕ)) → IsOf owner names tree.entry
        → ExpressionNodeIsOf owner names result }
{
    let first = Expression::new(tree.part(1, Symbol::Exp));
    let last = maybe(tree.part(3, Symbol::OptionalExp));
    ExpressionNode::Enumeration(
        tree.place(),
        Enumeration {
            first,
            second: None,
            last,
        },
    )
}

fn maybe(tree: Subtree<'_>) -> Option<Expression<'_>>
    requires { tree.symbol ≡ symbol.OptionalExp }
    ensures meaning { (names : List (List ℕ)) → maybe_meaning names result
        ≡ maybe_expression (tree_of names tree.entry) }
    ensures owned { (owner : NameId) (names : List (List ℕ)) → IsOf owner names tree.entry
        → IfSome result (ExpressionIsOf owner names) }
{
    let expression = tree.optional(Symbol::Exp)?;
    Some(Expression::new(expression))
}

fn comprehension(alloc: Global, tree: Subtree<'_>) -> Result<ExpressionNode<'_>, AllocError>
    requires { tree.symbol ≡ symbol.Comprehension }
    ensures meaning { (names : List (List ℕ))
        → IfOk result (λ node. expression_node names node
        ≡ expression_as symbol.Comprehension (tree_of names tree.entry)) }
    ensures owned { (owner : NameId) (names : List (List ℕ)) → IsOf owner names tree.entry
        → IfOk result (ExpressionNodeIsOf owner names) }
{
    let element = Expression::new(tree.part(1, Symbol::Exp));
    let qualifiers = qualifiers(alloc, tree.part(3, Symbol::QualList))?;
    Ok(ExpressionNode::Comprehension(tree.place(), element, qualifiers))
}

fn qualifiers(alloc: Global, tree: Subtree<'_>) -> Result<Vec<Qualifier<'_>>, AllocError>
    requires { tree.symbol ≡ symbol.QualList }
    ensures meaning { (names : List (List ℕ))
        → IfOk result (λ found. qualifiers_in (tree_of names tree.entry)
        ≡ qualifiers_meaning names found.items) }
    ensures owned { (owner : NameId) (names : List (List ℕ)) → IsOf owner names tree.entry
        → IfOk result (λ found. All (QualifierIsOf owner names) found.items) }
{
    let mut qualifiers = Vec::new(alloc);
    for qualifier in tree.repeated(alloc, Symbol::Qual)? {
        qualifiers.push(qualifier_of(alloc, qualifier.chosen())?)?;
    }
    Ok(qualifiers)
}

/// A qualifier of a list comprehension: a generator, declarations or a
/// condition.
fn qualifier_of(alloc: Global, tree: Subtree<'_>) -> Result<Qualifier<'_>, AllocError>
    requires { is_qualifier tree.symbol ≡ true }
    ensures meaning { (names : List (List ℕ))
        → IfOk result (λ found. qualifier_meaning names found
        ≡ qualifier_as tree.entry.symbol (tree_of names tree.entry)) }
    ensures owned { (owner : NameId) (names : List (List ℕ)) → IsOf owner names tree.entry
        → IfOk result (QualifierIsOf owner names) }
{
    match tree.symbol {
        Symbol::Generator => {
            let pattern = Pattern::new(tree.part(0, Symbol::Pat));
            let list = Expression::new(tree.part(2, Symbol::Exp));
            Ok(Qualifier::Generator(tree.place(), pattern, list))
        }
        Symbol::LetQual => {
            let declarations = block(alloc, tree.part(1, Symbol::Block))?;
            Ok(Qualifier::Declarations(tree.place(), declarations))
        }
        Symbol::Exp => Ok(Qualifier::Condition(tree.place(), Expression::new(tree))),
        _ => unreachable!(),
    }
}

fn list(alloc: Global, tree: Subtree<'_>) -> Result<ExpressionNode<'_>, AllocError>
    requires { tree.symbol ≡ symbol.ListExp }
    ensures meaning { (names : List (List ℕ))
        → IfOk result (λ node. expression_node names node
        ≡ expression_as symbol.ListExp (tree_of names tree.entry)) }
    ensures owned { (owner : NameId) (names : List (List ℕ)) → IsOf owner names tree.entry
        → IfOk result (ExpressionNodeIsOf owner names) }
{
    let elements = all(alloc, tree.part(1, Symbol::ExpList), Symbol::Exp)?;
    Ok(ExpressionNode::List(tree.place(), elements))
}

/// The expressions that a tree repeats.
fn all(alloc: Global, tree: Subtree<'_>, part: Symbol) -> Result<Vec<Expression<'_>>, AllocError>
    requires repeated { repeated_part (rule_of tree.symbol) ≡ Some part }
    requires symbol { is_expression part ≡ true }
    ensures symbols { IfOk result
        (λ expressions. All (λ e. e.tree.symbol ≡ part) expressions.items) }
    ensures trees { (names : List (List ℕ))
        → IfOk result (λ expressions. tree_of names tree.entry
        ≡ Parts (trees_from (map (expression_tree names) expressions.items))) }
    ensures owned { (owner : NameId) (names : List (List ℕ)) → IsOf owner names tree.entry
        → IfOk result (λ found. All (ExpressionIsOf owner names) found.items) }
{
    let mut expressions = Vec::new(alloc);
    for tree in tree.repeated(alloc, part)? {
        expressions.push(Expression::new(tree))?;
    }
    Ok(expressions)
}
