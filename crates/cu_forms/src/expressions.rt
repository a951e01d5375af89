//! Expressions as terms.
ghost use Rattle.std.specs.Prelude.{◌≡◌, IfOk, IfSome, map};
ghost use Rattle.std.specs.List.{All};
ghost use Rattle.std.specs.Option.{option_map};
ghost use Rattle.cu_fixity.specs.Owners.{PartIsOf};
ghost use Rattle.cu_kernel.specs.LocalTermsOf.{local_term_of};
ghost use Rattle.cu_lex.specs.Reading.{position_of};
ghost use Rattle.cu_syntax.specs.Owners.{AlternativeIsOf, BodyIsOf, DeclarationIsOf, EnumerationIsOf, ExpressionIsOf, GuardIsOf, ItemsAreOf, QualifierIsOf, RightSideIsOf};
ghost use Rattle.cu_translation.specs.LocalNames as definitions;
ghost use Rattle.cu_translation.specs.Meaning.{Setting, referent_meaning};
ghost use Rattle.cu_forms.specs.Scopes.{Sees};
ghost use Rattle.cu_forms.specs.Forms.{alternative_form, application_form, block_term, body_form, comprehension_form, enumeration_form, expression_form, free_form, guard_form, let_form, lets_form, operand_form, operators_term, right_form};
ghost use Rattle.cu_forms.specs.Inside.Blocks.{bounds_meaning, guard_meaning, row_meaning};
ghost use Rattle.cu_forms.specs.Operands.{item_meaning, operand_meaning, part_item};
ghost use Rattle.cu_forms.specs.Inside.Expressions.{BegunIsKnown, Defines, Opens, first_alone, generated_term, is_function_rule};

use crate::blocks::{Bound, add_selections, block};
use crate::calls::{applied, no_term, referred};
use crate::entries::{free_names, joined, pattern_entries};
use crate::layers::{Layer, around_rest};
use crate::lists::{guarded, if_then_else, list, literal, tuple};
use crate::names::{name_alone, referent};
use crate::operators::{Operand, OperandItem, grouped, number_alone, tree_of};
use crate::pattern_forms::{Binders, pattern};
use crate::scope::Scope;
use crate::term_parts::{
    alone, distinguished, left_section, local_function, mapped, numbered, right_section, single,
};
use cu_fixity::Part;
use cu_kernel::{LocalTerm, Pattern as KernelPattern};
use cu_locals::{Begun, begun_by, block_entries, goes_on};
use cu_names::Place;
use cu_syntax::{
    Alternative, Body, Declaration, DeclarationNode, Enumeration, Expression, ExpressionNode,
    Guard, Items, Name, Pattern, Qualifier, RightSide,
};
use cu_translation::{Binder, BuiltIn, Entry, Position, Referent, Surroundings};
use std::alloc::{AllocError, Global};

/// The term that an expression stands for. An expression whose operators have
/// no grouped tree is refused elsewhere.
///
/// # Errors
///
/// An allocation failure.
#[cycle(terms)]
pub fn term<A: Surroundings>(
    alloc: Global,
    around: &A,
    scope: &Scope<'_>,
    e: Expression<'_>,
) -> Result<LocalTerm, AllocError>
    ensures { (w : Setting) (local : definitions.Scope) → A.tells around.now w
        → Sees w local scope.now → ExpressionIsOf w.owner w.names e.entry
        → IfOk result (λ t. local_term_of t ≡ expression_form w local e.entry) }
{
    match e.node(alloc)? {
        ExpressionNode::Variable(_, name) => alone(alloc, referent(around, scope, name)),
        ExpressionNode::Constructor(_, name) => alone(alloc, around.value(name)),
        ExpressionNode::TupleConstructor(_, count) => {
            alone(alloc, around.prelude(BuiltIn::Tuple(count)))
        }
        ExpressionNode::Literal(_, found) => literal(alloc, around, found),
        ExpressionNode::Application(_, function, arguments) => {
            application(alloc, around, scope, function, arguments.as_slice())
        }
        ExpressionNode::Operators(items) => operators(alloc, around, scope, &items),
        ExpressionNode::Lambda(place, _parameters, _) => Ok(local_function(alloc, around, place)),
        ExpressionNode::Let(_, ds, body) => let_in(alloc, around, scope, ds.as_slice(), body),
        ExpressionNode::If(_, condition, chosen, other) => {
            let condition = term(alloc, around, scope, condition)?;
            let chosen = term(alloc, around, scope, chosen)?;
            let other = term(alloc, around, scope, other)?;
            if_then_else(alloc, around, condition, chosen, other)
        }
        ExpressionNode::Case(_, word, subject, cases) => {
            let subject = term(alloc, around, scope, subject)?;
            let rows = alternatives(alloc, around, scope, cases.as_slice())?;
            distinguished(alloc, word, subject, rows)
        }
        ExpressionNode::Tuple(_, components) => {
            let found = terms(alloc, around, scope, components.as_slice())?;
            tuple(alloc, around, found)
        }
        ExpressionNode::List(_, elements) => {
            let found = terms(alloc, around, scope, elements.as_slice())?;
            list(alloc, around, found)
        }
        ExpressionNode::LeftSection(_, operand, operator) => {
            let first = name_alone(alloc, around, scope, operand)?;
            let found = term(alloc, around, scope, operand)?;
            left_section(alloc, referent(around, scope, operator), first, found)
        }
        ExpressionNode::RightSection(_, operator, operand) => {
            let found = term(alloc, around, scope, operand)?;
            right_section(alloc, around, referent(around, scope, operator), found)
        }
        ExpressionNode::Enumeration(_, numbers) => enumeration(alloc, around, scope, numbers),
        ExpressionNode::Comprehension(_, element, qualifiers) => {
            comprehension(alloc, around, scope, element, qualifiers.as_slice())
        }
    }
}

/// The terms that several expressions stand for.
#[cycle(terms)]
fn terms<A: Surroundings>(
    alloc: Global,
    around: &A,
    scope: &Scope<'_>,
    es: &[Expression<'_>],
) -> Result<Vec<LocalTerm>, AllocError>
    ensures { (w : Setting) (local : definitions.Scope) → A.tells around.now w
        → Sees w local scope.now → All (ExpressionIsOf w.owner w.names) es.now
        → IfOk result (λ found. map local_term_of found.items
        ≡ map (expression_form w local) es.now) }
{
    let mut found = Vec::new(alloc);
    for e in es {
        found.push(term(alloc, around, scope, *e)?)?;
    }
    Ok(found)
}

/// The term of an expression on arguments: a call, where the expression is a
/// name and nothing else.
#[cycle(terms)]
fn application<A: Surroundings>(
    alloc: Global,
    around: &A,
    scope: &Scope<'_>,
    function: Expression<'_>,
    arguments: &[Expression<'_>],
) -> Result<LocalTerm, AllocError>
    ensures { (w : Setting) (local : definitions.Scope) → A.tells around.now w
        → Sees w local scope.now → ExpressionIsOf w.owner w.names function.entry
        → All (ExpressionIsOf w.owner w.names) arguments.now
        → IfOk result (λ t. local_term_of t
        ≡ application_form w local function.entry arguments.now) }
{
    let first = first_alone(alloc, around, scope, arguments)?;
    let found = terms(alloc, around, scope, arguments)?;
    match name_alone(alloc, around, scope, function)? {
        Some(means) => referred(alloc, means, first, found),
        None => {
            let function = term(alloc, around, scope, function)?;
            applied(alloc, function, found)
        }
    }
}

/// What the first of some expressions refers to, if it is a name and nothing
/// else.
fn first_alone<A: Surroundings>(
    alloc: Global,
    around: &A,
    scope: &Scope<'_>,
    es: &[Expression<'_>],
) -> Result<Option<Referent>, AllocError>
    ensures { (w : Setting) (local : definitions.Scope) → A.tells around.now w
        → Sees w local scope.now → All (ExpressionIsOf w.owner w.names) es.now
        → IfOk result (λ r. option_map referent_meaning r ≡ first_alone w local es.now) }
{
    match es.first() {
        Some(e) => name_alone(alloc, around, scope, *e),
        None => Ok(None),
    }
}

/// The term of an expression with operators, which are grouped.
#[cycle(terms)]
fn operators<A: Surroundings>(
    alloc: Global,
    around: &A,
    scope: &Scope<'_>,
    items: &Items<'_>,
) -> Result<LocalTerm, AllocError>
    ensures { (w : Setting) (local : definitions.Scope) → A.tells around.now w
        → Sees w local scope.now → ItemsAreOf w.owner w.names items.now
        → IfOk result (λ t. local_term_of t ≡ operators_term w local items.now) }
{
    match tree_of(alloc, around, scope, items)? {
        Some(ordered) => {
            let found = operands(alloc, around, scope, ordered.as_slice())?;
            grouped(alloc, around, found)
        }
        None => no_term(alloc),
    }
}

/// Operands and operators with what they stand for.
#[cycle(terms)]
fn operands<A: Surroundings>(
    alloc: Global,
    around: &A,
    scope: &Scope<'_>,
    ordered: &[Part<Expression<'_>>],
) -> Result<Vec<OperandItem>, AllocError>
    ensures { (w : Setting) (local : definitions.Scope) → A.tells around.now w
        → Sees w local scope.now → All (PartIsOf ExpressionIsOf w.owner w.names) ordered.now
        → IfOk result (λ found. map item_meaning found.items
        ≡ map (part_item w local) ordered.now) }
{
    let mut found = Vec::new(alloc);
    for one in ordered {
        found.push(part(alloc, around, scope, *one)?)?;
    }
    Ok(found)
}

/// An operand or an operator, with what it stands for.
#[cycle(terms)]
fn part<A: Surroundings>(
    alloc: Global,
    around: &A,
    scope: &Scope<'_>,
    one: Part<Expression<'_>>,
) -> Result<OperandItem, AllocError>
    ensures { (w : Setting) (local : definitions.Scope) → A.tells around.now w
        → Sees w local scope.now → PartIsOf ExpressionIsOf w.owner w.names one.entry
        → IfOk result (λ found. item_meaning found ≡ part_item w local one.entry) }
{
    match one {
        Part::Operand(e) => {
            let found = operand(alloc, around, scope, e)?;
            Ok(OperandItem::Operand(found))
        }
        Part::Minus(_) => Ok(OperandItem::Minus),
        Part::Operator(name) => Ok(OperandItem::Operator(referent(around, scope, name))),
    }
}

/// An operand with what it refers to, if it is a name and nothing else, and its
/// number, if it is written as one.
#[cycle(terms)]
fn operand<A: Surroundings>(
    alloc: Global,
    around: &A,
    scope: &Scope<'_>,
    e: Expression<'_>,
) -> Result<Operand, AllocError>
    ensures { (w : Setting) (local : definitions.Scope) → A.tells around.now w
        → Sees w local scope.now → ExpressionIsOf w.owner w.names e.entry
        → IfOk result (λ o. operand_meaning o ≡ operand_form w local e.entry) }
{
    let name = name_alone(alloc, around, scope, e)?;
    let number = number_alone(alloc, e)?;
    let term = term(alloc, around, scope, e)?;
    Ok(Operand { term, name, number })
}

/// The alternatives of a case distinction: patterns with terms.
#[cycle(terms)]
fn alternatives<A: Surroundings>(
    alloc: Global,
    around: &A,
    scope: &Scope<'_>,
    cases: &[Alternative<'_>],
) -> Result<Vec<(KernelPattern, LocalTerm)>, AllocError>
    ensures { (w : Setting) (local : definitions.Scope) → A.tells around.now w
        → Sees w local scope.now → All (AlternativeIsOf w.owner w.names) cases.now
        → IfOk result (λ rows. map row_meaning rows.items
        ≡ map (alternative_form w local) cases.now) }
{
    let mut rows = Vec::new(alloc);
    for case in cases {
        rows.push(alternative(alloc, around, scope, *case)?)?;
    }
    Ok(rows)
}

/// A pattern, and the term of the right-hand side in which its variables are in
/// scope.
#[cycle(terms)]
fn alternative<A: Surroundings>(
    alloc: Global,
    around: &A,
    scope: &Scope<'_>,
    case: Alternative<'_>,
) -> Result<(KernelPattern, LocalTerm), AllocError>
    ensures { (w : Setting) (local : definitions.Scope) → A.tells around.now w
        → Sees w local scope.now → AlternativeIsOf w.owner w.names case.entry
        → IfOk result (λ row. row_meaning row ≡ alternative_form w local case.entry) }
{
    let matched = pattern(alloc, around, Binders::Own, case.pattern)?;
    let entries = pattern_entries(alloc, case.pattern)?;
    let inner = Scope::inside(entries.as_slice(), &*scope);
    let right = right_side(alloc, around, &inner, case.right)?;
    Ok((matched, right))
}

/// The term of local declarations, and of the expression in which they hold.
#[cycle(terms)]
fn let_in<A: Surroundings>(
    alloc: Global,
    around: &A,
    scope: &Scope<'_>,
    ds: &[Declaration<'_>],
    body: Expression<'_>,
) -> Result<LocalTerm, AllocError>
    ensures { (w : Setting) (local : definitions.Scope) → A.tells around.now w
        → Sees w local scope.now → All (DeclarationIsOf w.owner w.names) ds.now
        → ExpressionIsOf w.owner w.names body.entry
        → IfOk result (λ t. local_term_of t ≡ let_form w local ds.now body.entry) }
{
    let entries = block_entries(alloc, ds)?;
    let inner = Scope::inside(entries.as_slice(), &*scope);
    let bounds = lets(alloc, around, &inner, ds)?;
    let found = term(alloc, around, &inner, body)?;
    in_block(alloc, around, ds, bounds, found)
}

/// A term inside a block of declarations, which define these variables.
fn in_block<A: Surroundings>(
    alloc: Global,
    around: &A,
    ds: &[Declaration<'_>],
    bounds: Vec<Bound>,
    inner: LocalTerm,
) -> Result<LocalTerm, AllocError>
    ensures { (w : Setting) → A.tells around.now w
        → IfOk result (λ t. local_term_of t ≡ block_term w (free_form w.names ds.now)
        (bounds_meaning bounds.items) (local_term_of inner)) }
{
    let free = free_names(alloc, ds)?;
    block(alloc, around, free.as_slice(), bounds, inner)
}

/// The term of an enumeration, by its first number, its second and its last.
#[cycle(terms)]
fn enumeration<A: Surroundings>(
    alloc: Global,
    around: &A,
    scope: &Scope<'_>,
    numbers: Enumeration<'_>,
) -> Result<LocalTerm, AllocError>
    ensures { (w : Setting) (local : definitions.Scope) → A.tells around.now w
        → Sees w local scope.now → EnumerationIsOf w.owner w.names numbers.entry
        → IfOk result (λ t. local_term_of t ≡ enumeration_form w local numbers.entry) }
{
    let first = term(alloc, around, scope, numbers.first)?;
    let second = maybe(alloc, around, scope, numbers.second)?;
    let last = maybe(alloc, around, scope, numbers.last)?;
    numbered(alloc, around, first, second, last)
}

/// The term that an expression stands for, if the expression is there.
#[cycle(terms)]
fn maybe<A: Surroundings>(
    alloc: Global,
    around: &A,
    scope: &Scope<'_>,
    e: Option<Expression<'_>>,
) -> Result<Option<LocalTerm>, AllocError>
    ensures { (w : Setting) (local : definitions.Scope) → A.tells around.now w
        → Sees w local scope.now → IfSome e.entry (ExpressionIsOf w.owner w.names)
        → IfOk result (λ t. option_map local_term_of t
        ≡ option_map (expression_form w local) e.entry) }
{
    match e {
        None => Ok(None),
        Some(e) => {
            let found = term(alloc, around, scope, e)?;
            Ok(Some(found))
        }
    }
}

/// The term of what follows `=` or `->`. The block after `where` is around the
/// guards.
///
/// # Errors
///
/// An allocation failure.
#[cycle(terms)]
pub fn right_side<A: Surroundings>(
    alloc: Global,
    around: &A,
    scope: &Scope<'_>,
    right: RightSide<'_>,
) -> Result<LocalTerm, AllocError>
    ensures { (w : Setting) (local : definitions.Scope) → A.tells around.now w
        → Sees w local scope.now → RightSideIsOf w.owner w.names right.entry
        → IfOk result (λ t. local_term_of t ≡ right_form w local right.entry) }
{
    let node = right.node(alloc)?;
    let ds = node.local.as_slice();
    let entries = block_entries(alloc, ds)?;
    let inner = Scope::inside(entries.as_slice(), &*scope);
    let bounds = lets(alloc, around, &inner, ds)?;
    let found = body(alloc, around, &inner, &node.body)?;
    in_block(alloc, around, ds, bounds, found)
}

/// The term of an expression, or of guards.
#[cycle(terms)]
fn body<A: Surroundings>(
    alloc: Global,
    around: &A,
    scope: &Scope<'_>,
    b: &Body<'_>,
) -> Result<LocalTerm, AllocError>
    ensures { (w : Setting) (local : definitions.Scope) → A.tells around.now w
        → Sees w local scope.now → BodyIsOf w.owner w.names b.now
        → IfOk result (λ t. local_term_of t ≡ body_form w local b.now) }
{
    match b {
        Body::Plain(e) => term(alloc, around, scope, *e),
        Body::Guarded(cases) => {
            let rows = guards(alloc, around, scope, cases.as_slice())?;
            guarded(alloc, around, rows)
        }
    }
}

/// The terms of conditions and of the expressions after them.
#[cycle(terms)]
fn guards<A: Surroundings>(
    alloc: Global,
    around: &A,
    scope: &Scope<'_>,
    cases: &[Guard<'_>],
) -> Result<Vec<(LocalTerm, LocalTerm)>, AllocError>
    ensures { (w : Setting) (local : definitions.Scope) → A.tells around.now w
        → Sees w local scope.now → All (GuardIsOf w.owner w.names) cases.now
        → IfOk result (λ rows. map guard_meaning rows.items ≡ map (guard_form w local) cases.now) }
{
    let mut rows = Vec::new(alloc);
    for case in cases {
        rows.push(guard(alloc, around, scope, *case)?)?;
    }
    Ok(rows)
}

/// The terms of a condition and of the expression after it.
#[cycle(terms)]
fn guard<A: Surroundings>(
    alloc: Global,
    around: &A,
    scope: &Scope<'_>,
    case: Guard<'_>,
) -> Result<(LocalTerm, LocalTerm), AllocError>
    ensures { (w : Setting) (local : definitions.Scope) → A.tells around.now w
        → Sees w local scope.now → GuardIsOf w.owner w.names case.entry
        → IfOk result (λ row. guard_meaning row ≡ guard_form w local case.entry) }
{
    let condition = term(alloc, around, scope, case.condition)?;
    let chosen = term(alloc, around, scope, case.expression)?;
    Ok((condition, chosen))
}

/// A declaration of a block, with the function whose rules it may go on.
#[derive(Clone, Copy)]
struct Following<'t> {
    begun: Option<Begun>,
    d: Declaration<'t>,
}

/// The local variables that declarations define, in the order of the text.
#[cycle(terms)]
fn lets<A: Surroundings>(
    alloc: Global,
    around: &A,
    scope: &Scope<'_>,
    ds: &[Declaration<'_>],
) -> Result<Vec<Bound>, AllocError>
    ensures { (w : Setting) (local : definitions.Scope) → A.tells around.now w
        → Sees w local scope.now → All (DeclarationIsOf w.owner w.names) ds.now
        → IfOk result (λ found. bounds_meaning found.items ≡ lets_form w local ds.now) }
{
    let mut found = Vec::new(alloc);
    let mut begun = None;
    for d in ds {
        let following = Following { begun, d: *d };
        begun = define(alloc, around, scope, following, &mut found)?;
    }
    Ok(found)
}

/// Adds the local variables that a declaration defines. Gives the function
/// whose rules may go on.
#[cycle(terms)]
fn define<A: Surroundings>(
    alloc: Global,
    around: &A,
    scope: &Scope<'_>,
    following: Following<'_>,
    found: &mut Vec<Bound>,
) -> Result<Option<Begun>, AllocError>
    ensures { (w : Setting) (local : definitions.Scope) → A.tells around.now w
        → Sees w local scope.now → BegunIsKnown w following.entry.begun
        → DeclarationIsOf w.owner w.names following.entry.d
        → IfOk result (Defines w local following.entry.begun following.entry.d
        found.old.items found.new.items) }
{
    let begun = following.begun;
    match following.d.node(alloc)? {
        DeclarationNode::FreeVariables(_, _names) => Ok(None),
        DeclarationNode::Signature(_, _names, _) => Ok(None),
        DeclarationNode::FunctionRule(place, name, parameters, right) => {
            let next = begun_by(begun, name, place);
            if is_of_function(begun, name, parameters.as_slice()) {
                return Ok(Some(next));
            }
            let definition = right_side(alloc, around, scope, right)?;
            let variable = Binder::At(Position::of(name.place));
            found.push(Bound {
                variable,
                definition,
            })?;
            Ok(Some(next))
        }
        DeclarationNode::PatternBinding(_, p, right) => {
            let definition = right_side(alloc, around, scope, right)?;
            let variable = Binder::Whole(Position::of(p.place()));
            found.push(Bound {
                variable,
                definition,
            })?;
            add_selections(alloc, around, p, found)?;
            Ok(None)
        }
    }
}

/// Whether a rule in a block is that of a function. One without parameters that
/// follows no rule of its name is that of a variable.
fn is_of_function(begun: Option<Begun>, name: Name, parameters: &[Pattern<'_>]) -> bool
    ensures { result ≡ is_function_rule begun name.text parameters.now }
{
    if parameters.is_empty() {
        return goes_on(begun, name);
    }
    true
}

/// The term of a comprehension: its qualifiers around its element. What follows
/// a qualifier with a list is in a local function.
#[cycle(terms)]
pub(crate) fn comprehension<A: Surroundings>(
    alloc: Global,
    around: &A,
    scope: &Scope<'_>,
    element: Expression<'_>,
    qualifiers: &[Qualifier<'_>],
) -> Result<LocalTerm, AllocError>
    ensures { (w : Setting) (local : definitions.Scope) → A.tells around.now w
        → Sees w local scope.now → ExpressionIsOf w.owner w.names element.entry
        → All (QualifierIsOf w.owner w.names) qualifiers.now
        → IfOk result (λ t. local_term_of t
        ≡ comprehension_form w local element.entry qualifiers.now) }
{
    let mut entries = Vec::new(alloc);
    let mut layers = Vec::new(alloc);
    for q in qualifiers {
        let inner = Scope::inside(entries.as_slice(), &*scope);
        match q {
            Qualifier::Generator(place, _, elements) => {
                let rest = generated(alloc, around, &inner, *place, *elements)?;
                return around_rest(alloc, around, layers, rest);
            }
            Qualifier::Condition(_, condition) => {
                let found = term(alloc, around, &inner, *condition)?;
                layers.push(Layer::Condition(found))?;
                continue;
            }
            Qualifier::Declarations(_, ds) => {
                let local = local_block(alloc, around, &inner, ds.as_slice())?;
                layers.push(Layer::Block(local.free, local.bounds))?;
                entries = joined(local.entries, entries.as_slice())?;
                continue;
            }
        }
    }
    let inner = Scope::inside(entries.as_slice(), &*scope);
    let found = term(alloc, around, &inner, element)?;
    let rest = single(alloc, around, found)?;
    around_rest(alloc, around, layers, rest)
}

/// What declarations of a block bring into scope, the variables that they leave
/// free, and those that they define.
#[derive(Drop)]
struct LocalBlock {
    entries: Vec<Entry>,
    free: Vec<Name>,
    bounds: Vec<Bound>,
}

/// A block of declarations among qualifiers.
#[cycle(terms)]
fn local_block<A: Surroundings>(
    alloc: Global,
    around: &A,
    scope: &Scope<'_>,
    ds: &[Declaration<'_>],
) -> Result<LocalBlock, AllocError>
    ensures { (w : Setting) (local : definitions.Scope) → A.tells around.now w
        → Sees w local scope.now → All (DeclarationIsOf w.owner w.names) ds.now
        → IfOk result (Opens w local ds.now) }
{
    let entries = block_entries(alloc, ds)?;
    let free = free_names(alloc, ds)?;
    let inner = Scope::inside(entries.as_slice(), &*scope);
    let bounds = lets(alloc, around, &inner, ds)?;
    Ok(LocalBlock {
        entries,
        free,
        bounds,
    })
}

/// The term of a qualifier with a list: the call that applies the qualifier's
/// local function to each element.
#[cycle(terms)]
fn generated<A: Surroundings>(
    alloc: Global,
    around: &A,
    scope: &Scope<'_>,
    place: Place,
    elements: Expression<'_>,
) -> Result<LocalTerm, AllocError>
    ensures { (w : Setting) (local : definitions.Scope) → A.tells around.now w
        → Sees w local scope.now → ExpressionIsOf w.owner w.names elements.entry
        → IfOk result (λ t. local_term_of t
        ≡ generated_term w.around (position_of place) (expression_form w local elements.entry)) }
{
    let found = term(alloc, around, scope, elements)?;
    mapped(alloc, around, place, found)
}
