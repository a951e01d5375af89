//! The names that expressions and declarations use.
ghost use Rattle.std.specs.Prelude.{◌++◌, List, ℕ, IfOk, OnOk};
ghost use Rattle.std.specs.List.{All};
ghost use Rattle.cu_syntax.specs.Owners.{AlternativeIsOf, BodyIsOf, DeclarationIsOf, EnumerationIsOf, ExpressionIsOf, GuardIsOf, OperatorItemIsOf, PatternIsOf, QualifierIsOf, RightSideIsOf};
ghost use Rattle.std.specs.Prelude.{IfSome};
ghost use Rattle.cu_uses.specs.Inside.Asked.{alternative_asks, alternatives_ask, binding_asks, body_asks, declaration_asks, declarations_ask, enumeration_asks, expression_asks, expressions_ask, guards_ask, lambda_asks, let_asks, maybe_asks, operands_ask, qualifier_asks, qualifier_binds, qualifiers_ask, right_asks, rule_asks};
ghost use Rattle.cu_uses.specs.Inside.Scopes.{Brings, Sees};
ghost use Rattle.cu_uses.specs.Inside.Worlds.{Told, World};

use crate::block::Block;
use crate::first_fault::FirstFault;
use crate::names::{use_entity, use_value};
use crate::opening::{open_pattern, open_patterns, use_type};
use crate::scope::Scope;
use cu_entities::Space;
use cu_syntax::{
    Alternative, Body, Declaration, DeclarationNode, Enumeration, Expression, ExpressionNode,
    Guard, Name, OperatorItem, Pattern, Qualifier, RightSide,
};
use std::alloc::{AllocError, Global};

/// Tells what is wrong with the names in an expression.
#[cycle(uses)]
pub(crate) fn expression(
    alloc: Global,
    scope: &Scope<'_>,
    e: Expression<'_>,
    first: &mut FirstFault,
) -> Result<(), AllocError>
    ensures { (w : World) (local : List (List ℕ)) → Sees w local scope.now
        → ExpressionIsOf w.owner w.names e.entry
        → OnOk result (Told w first.old (expression_asks w.names local e.entry) first.new) }
{
    match e.node(alloc)? {
        ExpressionNode::Variable(_, name) => {
            use_value(scope, name, first);
            Ok(())
        }
        ExpressionNode::Constructor(_, name) => {
            use_entity(scope, Space::Values, name, first);
            Ok(())
        }
        ExpressionNode::Literal(_, _) => Ok(()),
        ExpressionNode::TupleConstructor(_, _) => Ok(()),
        ExpressionNode::Application(_, function, arguments) => {
            expression(alloc, scope, function, first)?;
            expressions(alloc, scope, arguments.as_slice(), first)
        }
        ExpressionNode::Operators(items) => {
            expression(alloc, scope, items.first, first)?;
            operands(alloc, scope, items.rest.as_slice(), first)
        }
        ExpressionNode::Lambda(_, parameters, body) => {
            lambda(alloc, scope, parameters.as_slice(), body, first)
        }
        ExpressionNode::Let(_, ds, body) => let_in(alloc, scope, ds.as_slice(), body, first),
        ExpressionNode::If(_, condition, chosen, other) => {
            expression(alloc, scope, condition, first)?;
            expression(alloc, scope, chosen, first)?;
            expression(alloc, scope, other, first)
        }
        ExpressionNode::Case(_, _, subject, cases) => {
            expression(alloc, scope, subject, first)?;
            alternatives(alloc, scope, cases.as_slice(), first)
        }
        ExpressionNode::Tuple(_, components) => {
            expressions(alloc, scope, components.as_slice(), first)
        }
        ExpressionNode::LeftSection(_, operand, operator) => {
            expression(alloc, scope, operand, first)?;
            use_value(scope, operator, first);
            Ok(())
        }
        ExpressionNode::RightSection(_, operator, operand) => {
            use_value(scope, operator, first);
            expression(alloc, scope, operand, first)
        }
        ExpressionNode::List(_, elements) => expressions(alloc, scope, elements.as_slice(), first),
        ExpressionNode::Enumeration(_, numbers) => enumeration(alloc, scope, numbers, first),
        ExpressionNode::Comprehension(_, element, qualifiers) => {
            comprehension(alloc, scope, element, qualifiers.as_slice(), first)
        }
    }
}

/// Tells what is wrong with the names in several expressions.
#[cycle(uses)]
fn expressions(
    alloc: Global,
    scope: &Scope<'_>,
    es: &[Expression<'_>],
    first: &mut FirstFault,
) -> Result<(), AllocError>
    ensures { (w : World) (local : List (List ℕ)) → Sees w local scope.now
        → All (ExpressionIsOf w.owner w.names) es.now
        → OnOk result (Told w first.old (expressions_ask w.names local es.now) first.new) }
{
    for e in es {
        expression(alloc, scope, *e, first)?;
    }
    Ok(())
}

/// Tells what is wrong with the names of operators and in the operands after
/// them.
#[cycle(uses)]
fn operands(
    alloc: Global,
    scope: &Scope<'_>,
    items: &[OperatorItem<'_>],
    first: &mut FirstFault,
) -> Result<(), AllocError>
    ensures { (w : World) (local : List (List ℕ)) → Sees w local scope.now
        → All (OperatorItemIsOf w.owner w.names) items.now
        → OnOk result (Told w first.old (operands_ask w.names local items.now) first.new) }
{
    for item in items {
        use_value(scope, item.operator, first);
        expression(alloc, scope, item.operand, first)?;
    }
    Ok(())
}

/// Tells what is wrong with the names in parameters, and in the expression in
/// which they are in scope.
#[cycle(uses)]
fn lambda(
    alloc: Global,
    scope: &Scope<'_>,
    parameters: &[Pattern<'_>],
    body: Expression<'_>,
    first: &mut FirstFault,
) -> Result<(), AllocError>
    ensures { (w : World) (local : List (List ℕ)) → Sees w local scope.now
        → All (PatternIsOf w.owner w.names) parameters.now
        → ExpressionIsOf w.owner w.names body.entry
        → OnOk result
        (Told w first.old (lambda_asks w.names local parameters.now body.entry) first.new) }
{
    let variables = open_patterns(alloc, scope, parameters, first)?;
    let inner = Scope::inside(variables.as_slice(), &*scope);
    expression(alloc, &inner, body, first)
}

/// Tells what is wrong with the names in local declarations, and in the
/// expression in which they hold.
#[cycle(uses)]
fn let_in(
    alloc: Global,
    scope: &Scope<'_>,
    ds: &[Declaration<'_>],
    body: Expression<'_>,
    first: &mut FirstFault,
) -> Result<(), AllocError>
    ensures { (w : World) (local : List (List ℕ)) → Sees w local scope.now
        → All (DeclarationIsOf w.owner w.names) ds.now → ExpressionIsOf w.owner w.names body.entry
        → OnOk result (Told w first.old (let_asks w.names local ds.now body.entry) first.new) }
{
    let block = Block::of(alloc, ds)?;
    let inner = Scope::inside(block.names.as_slice(), &*scope);
    block.tell(alloc, first)?;
    declarations(alloc, &inner, ds, first)?;
    expression(alloc, &inner, body, first)
}

/// Tells what is wrong with the names in several alternatives.
#[cycle(uses)]
fn alternatives(
    alloc: Global,
    scope: &Scope<'_>,
    cases: &[Alternative<'_>],
    first: &mut FirstFault,
) -> Result<(), AllocError>
    ensures { (w : World) (local : List (List ℕ)) → Sees w local scope.now
        → All (AlternativeIsOf w.owner w.names) cases.now
        → OnOk result (Told w first.old (alternatives_ask w.names local cases.now) first.new) }
{
    for a in cases {
        alternative(alloc, scope, *a, first)?;
    }
    Ok(())
}

/// Tells what is wrong with the names in a pattern, and in the right-hand side
/// in which its variables are in scope.
#[cycle(uses)]
fn alternative(
    alloc: Global,
    scope: &Scope<'_>,
    a: Alternative<'_>,
    first: &mut FirstFault,
) -> Result<(), AllocError>
    ensures { (w : World) (local : List (List ℕ)) → Sees w local scope.now
        → AlternativeIsOf w.owner w.names a.entry
        → OnOk result (Told w first.old (alternative_asks w.names local a.entry) first.new) }
{
    let variables = open_pattern(alloc, scope, a.pattern, first)?;
    let inner = Scope::inside(variables.as_slice(), &*scope);
    right_side(alloc, &inner, a.right, first)
}

/// Tells what is wrong with the names in an enumeration: in the first number,
/// the second and the last.
#[cycle(uses)]
fn enumeration(
    alloc: Global,
    scope: &Scope<'_>,
    numbers: Enumeration<'_>,
    first: &mut FirstFault,
) -> Result<(), AllocError>
    ensures { (w : World) (local : List (List ℕ)) → Sees w local scope.now
        → EnumerationIsOf w.owner w.names numbers.entry
        → OnOk result (Told w first.old (enumeration_asks w.names local numbers.entry) first.new) }
{
    expression(alloc, scope, numbers.first, first)?;
    maybe(alloc, scope, numbers.second, first)?;
    maybe(alloc, scope, numbers.last, first)
}

/// Tells what is wrong with the names in an expression, if it is there.
#[cycle(uses)]
fn maybe(
    alloc: Global,
    scope: &Scope<'_>,
    e: Option<Expression<'_>>,
    first: &mut FirstFault,
) -> Result<(), AllocError>
    ensures { (w : World) (local : List (List ℕ)) → Sees w local scope.now
        → IfSome e.entry (ExpressionIsOf w.owner w.names)
        → OnOk result (Told w first.old (maybe_asks w.names local e.entry) first.new) }
{
    match e {
        None => Ok(()),
        Some(e) => expression(alloc, scope, e, first),
    }
}

/// Tells what is wrong with the names in a list comprehension: in qualifiers,
/// each in the scope of those before it, and in the element in that of all of
/// them.
#[cycle(uses)]
fn comprehension(
    alloc: Global,
    scope: &Scope<'_>,
    element: Expression<'_>,
    qualifiers: &[Qualifier<'_>],
    first: &mut FirstFault,
) -> Result<(), AllocError>
    ensures { (w : World) (local : List (List ℕ)) → Sees w local scope.now
        → ExpressionIsOf w.owner w.names element.entry
        → All (QualifierIsOf w.owner w.names) qualifiers.now
        → OnOk result
        (Told w first.old (qualifiers_ask w.names local element.entry qualifiers.now)
        first.new) }
{
    let mut names = Vec::new(alloc);
    for q in qualifiers {
        let inner = Scope::inside(names.as_slice(), &*scope);
        let more = qualifier(alloc, &inner, q, first)?;
        names.extend_from_slice(more.as_slice())?;
    }
    let inner = Scope::inside(names.as_slice(), &*scope);
    expression(alloc, &inner, element, first)
}

/// Tells what is wrong with the names in a qualifier. Gives the variables that
/// it brings into scope.
#[cycle(uses)]
fn qualifier(
    alloc: Global,
    scope: &Scope<'_>,
    q: &Qualifier<'_>,
    first: &mut FirstFault,
) -> Result<Vec<Name>, AllocError>
    ensures { (w : World) (local : List (List ℕ)) → Sees w local scope.now
        → QualifierIsOf w.owner w.names q.now
        → IfOk result (λ variables. Brings w first.old (qualifier_binds w.names q.now)
        (qualifier_asks w.names local q.now) variables.items first.new) }
{
    match q {
        Qualifier::Generator(_, p, list) => {
            expression(alloc, scope, *list, first)?;
            open_pattern(alloc, scope, *p, first)
        }
        Qualifier::Declarations(_, ds) => {
            let block = Block::of(alloc, ds.as_slice())?;
            let inner = Scope::inside(block.names.as_slice(), &*scope);
            block.tell(alloc, first)?;
            declarations(alloc, &inner, ds.as_slice(), first)?;
            Ok(block.names)
        }
        Qualifier::Condition(_, condition) => {
            expression(alloc, scope, *condition, first)?;
            Ok(Vec::new(alloc))
        }
    }
}

/// Tells what is wrong with the names in a right-hand side. The declarations
/// after `where` hold for the guards too.
#[cycle(uses)]
fn right_side(
    alloc: Global,
    scope: &Scope<'_>,
    right: RightSide<'_>,
    first: &mut FirstFault,
) -> Result<(), AllocError>
    ensures { (w : World) (local : List (List ℕ)) → Sees w local scope.now
        → RightSideIsOf w.owner w.names right.entry
        → OnOk result (Told w first.old (right_asks w.names local right.entry) first.new) }
{
    let node = right.node(alloc)?;
    let block = Block::of(alloc, node.local.as_slice())?;
    let inner = Scope::inside(block.names.as_slice(), &*scope);
    body(alloc, &inner, &node.body, first)?;
    block.tell(alloc, first)?;
    declarations(alloc, &inner, node.local.as_slice(), first)
}

/// Tells what is wrong with the names in what follows an equals sign or an
/// arrow: an expression, or guards.
#[cycle(uses)]
fn body(
    alloc: Global,
    scope: &Scope<'_>,
    b: &Body<'_>,
    first: &mut FirstFault,
) -> Result<(), AllocError>
    ensures { (w : World) (local : List (List ℕ)) → Sees w local scope.now
        → BodyIsOf w.owner w.names b.now
        → OnOk result (Told w first.old (body_asks w.names local b.now) first.new) }
{
    match b {
        Body::Plain(e) => expression(alloc, scope, *e, first),
        Body::Guarded(cases) => guards(alloc, scope, cases.as_slice(), first),
    }
}

/// Tells what is wrong with the names in guards and in the expressions after
/// them.
#[cycle(uses)]
fn guards(
    alloc: Global,
    scope: &Scope<'_>,
    cases: &[Guard<'_>],
    first: &mut FirstFault,
) -> Result<(), AllocError>
    ensures { (w : World) (local : List (List ℕ)) → Sees w local scope.now
        → All (GuardIsOf w.owner w.names) cases.now
        → OnOk result (Told w first.old (guards_ask w.names local cases.now) first.new) }
{
    for g in cases {
        expression(alloc, scope, g.condition, first)?;
        expression(alloc, scope, g.expression, first)?;
    }
    Ok(())
}

/// Tells what is wrong with the names in several declarations, each by itself.
#[cycle(uses)]
fn declarations(
    alloc: Global,
    scope: &Scope<'_>,
    ds: &[Declaration<'_>],
    first: &mut FirstFault,
) -> Result<(), AllocError>
    ensures { (w : World) (local : List (List ℕ)) → Sees w local scope.now
        → All (DeclarationIsOf w.owner w.names) ds.now
        → OnOk result (Told w first.old (declarations_ask w.names local ds.now) first.new) }
{
    for d in ds {
        declaration(alloc, scope, *d, first)?;
    }
    Ok(())
}

/// Tells what is wrong with the names in a declaration by itself.
#[cycle(uses)]
pub(crate) fn declaration(
    alloc: Global,
    scope: &Scope<'_>,
    d: Declaration<'_>,
    first: &mut FirstFault,
) -> Result<(), AllocError>
    ensures { (w : World) (local : List (List ℕ)) → Sees w local scope.now
        → DeclarationIsOf w.owner w.names d.entry
        → OnOk result (Told w first.old (declaration_asks w.names local d.entry) first.new) }
{
    match d.node(alloc)? {
        DeclarationNode::FreeVariables(_, _variables) => Ok(()),
        DeclarationNode::Signature(_, _functions, t) => use_type(alloc, scope, t, first),
        DeclarationNode::FunctionRule(_, _, parameters, right) => {
            function_rule(alloc, scope, parameters.as_slice(), right, first)
        }
        DeclarationNode::PatternBinding(_, p, right) => {
            pattern_binding(alloc, scope, p, right, first)
        }
    }
}

/// Tells what is wrong with the names in a function's rule: in its parameters,
/// and in the right-hand side in which they are in scope.
#[cycle(uses)]
fn function_rule(
    alloc: Global,
    scope: &Scope<'_>,
    parameters: &[Pattern<'_>],
    right: RightSide<'_>,
    first: &mut FirstFault,
) -> Result<(), AllocError>
    ensures { (w : World) (local : List (List ℕ)) → Sees w local scope.now
        → All (PatternIsOf w.owner w.names) parameters.now
        → RightSideIsOf w.owner w.names right.entry
        → OnOk result
        (Told w first.old (rule_asks w.names local parameters.now right.entry) first.new) }
{
    let variables = open_patterns(alloc, scope, parameters, first)?;
    let inner = Scope::inside(variables.as_slice(), &*scope);
    right_side(alloc, &inner, right, first)
}

/// Tells what is wrong with the names in a pattern binding: in its pattern, and
/// in its right-hand side.
#[cycle(uses)]
fn pattern_binding(
    alloc: Global,
    scope: &Scope<'_>,
    p: Pattern<'_>,
    right: RightSide<'_>,
    first: &mut FirstFault,
) -> Result<(), AllocError>
    ensures { (w : World) (local : List (List ℕ)) → Sees w local scope.now
        → PatternIsOf w.owner w.names p.entry → RightSideIsOf w.owner w.names right.entry
        → OnOk result
        (Told w first.old (binding_asks w.names local p.entry right.entry) first.new) }
{
    open_pattern(alloc, scope, p, first)?;
    right_side(alloc, scope, right, first)
}
