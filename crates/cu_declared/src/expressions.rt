//! Uses of the names of types in expressions and declarations: the signatures
//! in their blocks.
ghost use Rattle.std.specs.Prelude.{List, ℕ, IfSome, OnOk};
ghost use Rattle.std.specs.List.{All};
ghost use Rattle.cu_names.specs.declared.names.NameId.{NameId};
ghost use Rattle.cu_syntax.specs.Owners.{AlternativeIsOf, BodyIsOf, DeclarationIsOf, EnumerationIsOf};
ghost use Rattle.cu_syntax.specs.Owners.{ExpressionIsOf, GuardIsOf, OperatorItemIsOf, QualifierIsOf, RightSideIsOf};
ghost use Rattle.cu_declared.specs.Inside.Gathered.{Adds, in_alternatives, in_body, in_declaration};
ghost use Rattle.cu_declared.specs.Inside.Gathered.{in_declarations, in_enumeration, in_expression};
ghost use Rattle.cu_declared.specs.Inside.Gathered.{in_expressions, in_guards, in_maybe, in_operands};
ghost use Rattle.cu_declared.specs.Inside.Gathered.{in_qualifier, in_qualifiers, in_right};

use crate::found::TypeUse;
use crate::types::type_term;
use cu_syntax::{
    Alternative, Body, Declaration, DeclarationNode, Enumeration, Expression, ExpressionNode,
    Guard, OperatorItem, Qualifier, RightSide,
};
use std::alloc::{AllocError, Global};

/// Finds the names of types in an expression.
#[cycle(signatures)]
pub(crate) fn expression(
    alloc: Global,
    e: Expression<'_>,
    found: &mut Vec<TypeUse>,
) -> Result<(), AllocError>
    ensures { (owner : NameId) (names : List (List ℕ)) → ExpressionIsOf owner names e.entry
        → OnOk result (Adds owner names found.old.items
        (in_expression names e.entry) found.new.items) }
{
    let node = e.node(alloc)?;
    match node {
        ExpressionNode::Variable(_, _) => Ok(()),
        ExpressionNode::Constructor(_, _) => Ok(()),
        ExpressionNode::Literal(_, _) => Ok(()),
        ExpressionNode::TupleConstructor(_, _) => Ok(()),
        ExpressionNode::Application(_, function, arguments) => {
            expression(alloc, function, found)?;
            expressions(alloc, arguments.as_slice(), found)
        }
        ExpressionNode::Operators(items) => {
            expression(alloc, items.first, found)?;
            operands(alloc, items.rest.as_slice(), found)
        }
        ExpressionNode::Lambda(_, _parameters, body) => expression(alloc, body, found),
        ExpressionNode::Let(_, ds, body) => {
            declarations(alloc, ds.as_slice(), found)?;
            expression(alloc, body, found)
        }
        ExpressionNode::If(_, condition, chosen, other) => {
            expression(alloc, condition, found)?;
            expression(alloc, chosen, found)?;
            expression(alloc, other, found)
        }
        ExpressionNode::Case(_, _, subject, cases) => {
            expression(alloc, subject, found)?;
            alternatives(alloc, cases.as_slice(), found)
        }
        ExpressionNode::Tuple(_, components) => expressions(alloc, components.as_slice(), found),
        ExpressionNode::LeftSection(_, operand, _) => expression(alloc, operand, found),
        ExpressionNode::RightSection(_, _, operand) => expression(alloc, operand, found),
        ExpressionNode::List(_, elements) => expressions(alloc, elements.as_slice(), found),
        ExpressionNode::Enumeration(_, numbers) => enumeration(alloc, numbers, found),
        ExpressionNode::Comprehension(_, element, qs) => {
            expression(alloc, element, found)?;
            qualifiers(alloc, qs.as_slice(), found)
        }
    }
}

/// Finds the names of types in several expressions.
#[cycle(signatures)]
fn expressions(
    alloc: Global,
    es: &[Expression<'_>],
    found: &mut Vec<TypeUse>,
) -> Result<(), AllocError>
    ensures { (owner : NameId) (names : List (List ℕ)) → All (ExpressionIsOf owner names) es.now
        → OnOk result (Adds owner names found.old.items
        (in_expressions names es.now) found.new.items) }
{
    for e in es {
        expression(alloc, *e, found)?;
    }
    Ok(())
}

/// Finds the names of types in the operands after operators.
#[cycle(signatures)]
fn operands(
    alloc: Global,
    items: &[OperatorItem<'_>],
    found: &mut Vec<TypeUse>,
) -> Result<(), AllocError>
    ensures { (owner : NameId) (names : List (List ℕ))
        → All (OperatorItemIsOf owner names) items.now
        → OnOk result (Adds owner names found.old.items
        (in_operands names items.now) found.new.items) }
{
    for item in items {
        expression(alloc, item.operand, found)?;
    }
    Ok(())
}

/// Finds the names of types in the right-hand sides of alternatives.
#[cycle(signatures)]
fn alternatives(
    alloc: Global,
    cases: &[Alternative<'_>],
    found: &mut Vec<TypeUse>,
) -> Result<(), AllocError>
    ensures { (owner : NameId) (names : List (List ℕ)) → All (AlternativeIsOf owner names) cases.now
        → OnOk result (Adds owner names found.old.items
        (in_alternatives names cases.now) found.new.items) }
{
    for a in cases {
        right_side(alloc, a.right, found)?;
    }
    Ok(())
}

/// Finds the names of types in an enumeration: in the first number, the second
/// and the last.
#[cycle(signatures)]
fn enumeration(
    alloc: Global,
    numbers: Enumeration<'_>,
    found: &mut Vec<TypeUse>,
) -> Result<(), AllocError>
    ensures { (owner : NameId) (names : List (List ℕ)) → EnumerationIsOf owner names numbers.entry
        → OnOk result (Adds owner names found.old.items
        (in_enumeration names numbers.entry) found.new.items) }
{
    expression(alloc, numbers.first, found)?;
    maybe(alloc, numbers.second, found)?;
    maybe(alloc, numbers.last, found)
}

/// Finds the names of types in an expression, if it is there.
#[cycle(signatures)]
fn maybe(
    alloc: Global,
    e: Option<Expression<'_>>,
    found: &mut Vec<TypeUse>,
) -> Result<(), AllocError>
    ensures { (owner : NameId) (names : List (List ℕ)) → IfSome e.entry (ExpressionIsOf owner names)
        → OnOk result (Adds owner names found.old.items (in_maybe names e.entry) found.new.items) }
{
    match e {
        None => Ok(()),
        Some(e) => expression(alloc, e, found),
    }
}

/// Finds the names of types in several qualifiers.
#[cycle(signatures)]
fn qualifiers(
    alloc: Global,
    qs: &[Qualifier<'_>],
    found: &mut Vec<TypeUse>,
) -> Result<(), AllocError>
    ensures { (owner : NameId) (names : List (List ℕ)) → All (QualifierIsOf owner names) qs.now
        → OnOk result (Adds owner names found.old.items
        (in_qualifiers names qs.now) found.new.items) }
{
    for q in qs {
        qualifier(alloc, q, found)?;
    }
    Ok(())
}

/// Finds the names of types in a qualifier.
#[cycle(signatures)]
fn qualifier(alloc: Global, q: &Qualifier<'_>, found: &mut Vec<TypeUse>) -> Result<(), AllocError>
    ensures { (owner : NameId) (names : List (List ℕ)) → QualifierIsOf owner names q.now
        → OnOk result (Adds owner names found.old.items
        (in_qualifier names q.now) found.new.items) }
{
    match q {
        Qualifier::Generator(_, _, list) => expression(alloc, *list, found),
        Qualifier::Declarations(_, ds) => declarations(alloc, ds.as_slice(), found),
        Qualifier::Condition(_, condition) => expression(alloc, *condition, found),
    }
}

/// Finds the names of types in a right-hand side with its local declarations.
#[cycle(signatures)]
fn right_side(
    alloc: Global,
    right: RightSide<'_>,
    found: &mut Vec<TypeUse>,
) -> Result<(), AllocError>
    ensures { (owner : NameId) (names : List (List ℕ)) → RightSideIsOf owner names right.entry
        → OnOk result (Adds owner names found.old.items
        (in_right names right.entry) found.new.items) }
{
    let node = right.node(alloc)?;
    body(alloc, &node.body, found)?;
    declarations(alloc, node.local.as_slice(), found)
}

/// Finds the names of types in an expression, or in guards.
#[cycle(signatures)]
fn body(alloc: Global, b: &Body<'_>, found: &mut Vec<TypeUse>) -> Result<(), AllocError>
    ensures { (owner : NameId) (names : List (List ℕ)) → BodyIsOf owner names b.now
        → OnOk result (Adds owner names found.old.items (in_body names b.now) found.new.items) }
{
    match b {
        Body::Plain(e) => expression(alloc, *e, found),
        Body::Guarded(cases) => guards(alloc, cases.as_slice(), found),
    }
}

/// Finds the names of types in guards and in the expressions after them.
#[cycle(signatures)]
fn guards(alloc: Global, cases: &[Guard<'_>], found: &mut Vec<TypeUse>) -> Result<(), AllocError>
    ensures { (owner : NameId) (names : List (List ℕ)) → All (GuardIsOf owner names) cases.now
        → OnOk result (Adds owner names found.old.items
        (in_guards names cases.now) found.new.items) }
{
    for g in cases {
        expression(alloc, g.condition, found)?;
        expression(alloc, g.expression, found)?;
    }
    Ok(())
}

/// Finds the names of types in several declarations.
#[cycle(signatures)]
fn declarations(
    alloc: Global,
    ds: &[Declaration<'_>],
    found: &mut Vec<TypeUse>,
) -> Result<(), AllocError>
    ensures { (owner : NameId) (names : List (List ℕ)) → All (DeclarationIsOf owner names) ds.now
        → OnOk result (Adds owner names found.old.items
        (in_declarations names ds.now) found.new.items) }
{
    for d in ds {
        declaration(alloc, *d, found)?;
    }
    Ok(())
}

/// Finds the names of types in a declaration: in the type of a signature, or in
/// a right-hand side.
#[cycle(signatures)]
pub(crate) fn declaration(
    alloc: Global,
    d: Declaration<'_>,
    found: &mut Vec<TypeUse>,
) -> Result<(), AllocError>
    ensures { (owner : NameId) (names : List (List ℕ)) → DeclarationIsOf owner names d.entry
        → OnOk result (Adds owner names found.old.items
        (in_declaration names d.entry) found.new.items) }
{
    let node = d.node(alloc)?;
    match node {
        DeclarationNode::FreeVariables(_, _variables) => Ok(()),
        DeclarationNode::Signature(_, _functions, t) => type_term(alloc, t, found),
        DeclarationNode::FunctionRule(_, _, _parameters, right) => right_side(alloc, right, found),
        DeclarationNode::PatternBinding(_, _, right) => right_side(alloc, right, found),
    }
}
