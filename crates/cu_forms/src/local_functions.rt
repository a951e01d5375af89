//! Rules, and the local functions that forms of the source become.
ghost use Rattle.std.specs.Prelude.{◌≡◌, [], IfOk, List, ℕ, drop, map};
ghost use Rattle.std.specs.List.{All};
ghost use Rattle.cu_kernel.specs.LocalKernelOf.{local_function_meaning, local_rule_meaning};
ghost use Rattle.cu_kernel.specs.LocalTermsOf.{local_term_of};
ghost use Rattle.cu_kernel.specs.TermsOf.{pattern_of};
ghost use Rattle.cu_lex.specs.Reading.{position_of};
ghost use Rattle.cu_names.specs.Texts.{AllDiffer};
ghost use Rattle.cu_syntax.specs.Names.{name_meaning};
ghost use Rattle.cu_syntax.specs.Owners.{ExpressionIsOf, NameIsOf, PatternIsOf, RightSideIsOf};
ghost use Rattle.cu_syntax.specs.Patterns.{pattern_meaning};
ghost use Rattle.cu_translation.specs.Around.{place_at};
ghost use Rattle.cu_translation.specs.LocalFunctions as functions;
ghost use Rattle.cu_translation.specs.LocalNames as definitions;
ghost use Rattle.cu_translation.specs.Meaning.{Setting, position_meaning};
ghost use Rattle.cu_forms.specs.Scopes.{Sees};
ghost use Rattle.cu_forms.specs.Functions.{generator_form, goal_form, lambda_form, rule_form, selectors_of};
ghost use Rattle.cu_forms.specs.Inside.Functions.{generator_of, is_variable, matched_term, parameter_of, rest_form, selector_of};

use crate::entries::{parameter_entries, pattern_entries};
use crate::expressions::{comprehension, right_side, term};
use crate::lists::list;
use crate::pattern_forms::{Binders, pattern, patterns};
use crate::scope::Scope;
use cu_kernel::{LocalFunction, LocalRule, LocalTerm, Mode, Pattern as KernelPattern};
use cu_locals::{pattern_variables, variable_entries};
use cu_names::Place;
use cu_syntax::{Expression, ExpressionNode, Name, Pattern, PatternNode, Qualifier, RightSide};
use cu_translation::{Binder, Position, Surroundings};
use std::alloc::{AllocError, Global};

/// A lambda expression.
#[derive(Clone, Copy)]
pub struct Lambda<'p, 't> {
    /// The place of its first token.
    pub place: Place,
    pub parameters: &'p [Pattern<'t>],
    pub body: Expression<'t>,
}

/// A qualifier with a list, in a comprehension.
#[derive(Clone, Copy)]
pub struct ListQualifier<'t> {
    /// The place of its first token.
    pub place: Place,
    pub pattern: Pattern<'t>,
    /// The comprehension.
    pub whole: Expression<'t>,
    /// How many qualifiers of the comprehension there are up to this one.
    pub count: usize,
}

/// The rule of a function: its patterns, and the term of the right-hand side in
/// which their variables are in scope.
///
/// # Errors
///
/// An allocation failure.
pub fn rule<A: Surroundings>(
    alloc: Global,
    around: &A,
    scope: &Scope<'_>,
    parameters: &[Pattern<'_>],
    right: RightSide<'_>,
) -> Result<LocalRule, AllocError>
    ensures { (w : Setting) (local : definitions.Scope) → A.tells around.now w
        → Sees w local scope.now → All (PatternIsOf w.owner w.names) parameters.now
        → RightSideIsOf w.owner w.names right.entry
        → IfOk result (λ r. local_rule_meaning r ≡ rule_form w local parameters.now right.entry) }
{
    let params = patterns(alloc, around, Binders::Own, parameters)?;
    let entries = parameter_entries(alloc, parameters)?;
    let inner = Scope::inside(entries.as_slice(), &*scope);
    let body = right_side(alloc, around, &inner, right)?;
    Ok(LocalRule { params, body })
}

/// A local function without a declared type, of one rule.
fn new_function<A: Surroundings>(
    alloc: Global,
    around: &A,
    place: Place,
    params: Vec<KernelPattern>,
    body: LocalTerm,
) -> Result<LocalFunction, AllocError>
    ensures { (w : Setting) → A.tells around.now w
        → IfOk result (λ f. local_function_meaning f ≡ functions.new_function w.around
        (position_of place) (map pattern_of params.items) (local_term_of body)) }
{
    let arity = counted(params.len())?;
    let rules = vec![in alloc; LocalRule { params, body }]?;
    Ok(LocalFunction {
        place: in_module(around, place),
        declared: None,
        arity,
        rules,
    })
}

/// A place, in the module of the text.
fn in_module<A: Surroundings>(around: &A, place: Place) -> Place
    ensures { (w : Setting) → A.tells around.now w
        → result ≡ place_at w.around.names (position_of place) }
{
    Place {
        module: around.owner(),
        line: place.line,
        column: place.column,
    }
}

/// A number of parameters in 32 bits. A larger one counts as an allocation
/// failure.
fn counted(count: usize) -> Result<u32, AllocError>
    ensures { IfOk result (λ n. n ≡ count) }
{
    match u32::try_from(count) {
        Ok(count) => Ok(count),
        Err(_) => Err(AllocError),
    }
}

/// The function of a lambda expression, by the place of its first token.
///
/// # Errors
///
/// An allocation failure, also for more parameters than 32 bits count.
pub fn lambda_function<A: Surroundings>(
    alloc: Global,
    around: &A,
    scope: &Scope<'_>,
    lambda: Lambda<'_, '_>,
) -> Result<LocalFunction, AllocError>
    ensures { (w : Setting) (local : definitions.Scope) → A.tells around.now w
        → Sees w local scope.now → All (PatternIsOf w.owner w.names) lambda.entry.parameters.now
        → ExpressionIsOf w.owner w.names lambda.entry.body
        → IfOk result (λ f. local_function_meaning f ≡ lambda_form w local
        (position_of lambda.entry.place) lambda.entry.parameters.now lambda.entry.body) }
{
    let params = patterns(alloc, around, Binders::Own, lambda.parameters)?;
    let entries = parameter_entries(alloc, lambda.parameters)?;
    let inner = Scope::inside(entries.as_slice(), &*scope);
    let found = term(alloc, around, &inner, lambda.body)?;
    new_function(alloc, around, lambda.place, params, found)
}

/// The function of a qualifier with a list. Its result is the rest of the
/// comprehension after the qualifier.
///
/// # Errors
///
/// An allocation failure.
pub fn generator_function<A: Surroundings>(
    alloc: Global,
    around: &A,
    scope: &Scope<'_>,
    qualifier: ListQualifier<'_>,
) -> Result<LocalFunction, AllocError>
    ensures { (w : Setting) (local : definitions.Scope) → A.tells around.now w
        → Sees w local scope.now → PatternIsOf w.owner w.names qualifier.entry.pattern
        → ExpressionIsOf w.owner w.names qualifier.entry.whole
        → IfOk result (λ f. local_function_meaning f
        ≡ generator_form w local (position_of qualifier.entry.place) qualifier.entry.pattern
        qualifier.entry.whole qualifier.entry.count) }
{
    let entries = pattern_entries(alloc, qualifier.pattern)?;
    let inner = Scope::inside(entries.as_slice(), &*scope);
    let rest = rest_of(alloc, around, &inner, qualifier.whole, qualifier.count)?;
    generator(alloc, around, qualifier.place, qualifier.pattern, rest)
}

/// The term of the rest of a comprehension after so many of its qualifiers.
fn rest_of<A: Surroundings>(
    alloc: Global,
    around: &A,
    scope: &Scope<'_>,
    whole: Expression<'_>,
    count: usize,
) -> Result<LocalTerm, AllocError>
    ensures { (w : Setting) (local : definitions.Scope) → A.tells around.now w
        → Sees w local scope.now → ExpressionIsOf w.owner w.names whole.entry
        → IfOk result (λ t. local_term_of t ≡ rest_form w local whole.entry count) }
{
    if let ExpressionNode::Comprehension(_, element, qualifiers) = whole.node(alloc)? {
        let rest = after(qualifiers.as_slice(), count);
        return comprehension(alloc, around, scope, element, rest);
    }
    comprehension(alloc, around, scope, whole, &[])
}

/// The qualifiers after the first `count`.
fn after<'q, 't>(qualifiers: &'q [Qualifier<'t>], count: usize) -> &'q [Qualifier<'t>]
    ensures { result.now ≡ drop count qualifiers.now }
{
    if count >= qualifiers.len() {
        return &[];
    }
    &qualifiers[count..]
}

/// The function of a qualifier with a list, given the rest of the
/// comprehension. Its parameter is the pattern's variable, if the pattern is
/// one, and else the whole value that is matched with the pattern.
fn generator<A: Surroundings>(
    alloc: Global,
    around: &A,
    place: Place,
    p: Pattern<'_>,
    rest: LocalTerm,
) -> Result<LocalFunction, AllocError>
    ensures { (w : Setting) → A.tells around.now w → PatternIsOf w.owner w.names p.entry
        → IfOk result (λ f. local_function_meaning f
        ≡ generator_of w (position_of place) p.entry (local_term_of rest)) }
{
    let matched = pattern(alloc, around, Binders::Own, p)?;
    if is_variable(alloc, p)? {
        let params = vec![in alloc; matched]?;
        return new_function(alloc, around, place, params, rest);
    }
    let at = Position::of(p.place());
    let params = vec![in alloc; KernelPattern::Var(around.variable(Binder::Whole(at)))]?;
    let body = if_matched(alloc, around, at, matched, rest)?;
    new_function(alloc, around, place, params, body)
}

/// Whether a pattern is a variable.
fn is_variable(alloc: Global, p: Pattern<'_>) -> Result<bool, AllocError>
    ensures { (names : List (List ℕ))
        → IfOk result (λ b. b ≡ is_variable (pattern_meaning names p.entry)) }
{
    if let PatternNode::Variable(_) = p.node(alloc)? {
        return Ok(true);
    }
    Ok(false)
}

/// A term for where the whole value of the pattern at a place matches it, and
/// the empty list where it doesn't.
fn if_matched<A: Surroundings>(
    alloc: Global,
    around: &A,
    at: Position,
    matched: KernelPattern,
    rest: LocalTerm,
) -> Result<LocalTerm, AllocError>
    ensures { (w : Setting) → A.tells around.now w
        → IfOk result (λ t. local_term_of t ≡ matched_term w.around (position_meaning at)
        (pattern_of matched) (local_term_of rest)) }
{
    let whole = Box::new(alloc, LocalTerm::Var(around.variable(Binder::Whole(at))))?;
    let other = KernelPattern::Var(around.variable(Binder::Otherwise(at)));
    let none = list(alloc, around, Vec::new(alloc))?;
    let rows = vec![in alloc; (matched, rest), (other, none)]?;
    Ok(LocalTerm::Case(Mode::Rigid, whole, rows))
}

/// The functions that select the variables of a pattern.
///
/// # Errors
///
/// An allocation failure.
pub fn selectors<A: Surroundings>(
    alloc: Global,
    around: &A,
    p: Pattern<'_>,
) -> Result<Vec<LocalFunction>, AllocError>
    ensures { (w : Setting) → A.tells around.now w → AllDiffer w.names
        → PatternIsOf w.owner w.names p.entry
        → IfOk result (λ found. map local_function_meaning found.items
        ≡ selectors_of w p.entry) }
{
    let names = pattern_variables(alloc, p)?;
    let mut found = Vec::new(alloc);
    for name in &names {
        found.push(selector(alloc, around, p, *name)?)?;
    }
    Ok(found)
}

/// The function that selects a variable of a pattern.
fn selector<A: Surroundings>(
    alloc: Global,
    around: &A,
    p: Pattern<'_>,
    name: Name,
) -> Result<LocalFunction, AllocError>
    ensures { (w : Setting) → A.tells around.now w → PatternIsOf w.owner w.names p.entry
        → IfOk result (λ f. local_function_meaning f ≡ selector_of w p.entry name) }
{
    let at = Position::of(name.place);
    let matched = pattern(alloc, around, Binders::Selecting(at), p)?;
    let params = vec![in alloc; matched]?;
    let body = LocalTerm::Var(around.variable(Binder::Selected(at, at)));
    new_function(alloc, around, name.place, params, body)
}

/// The rule of a goal: its parameters are the goal's variables.
///
/// # Errors
///
/// An allocation failure.
pub fn goal_rule<A: Surroundings>(
    alloc: Global,
    around: &A,
    free: &[Name],
    goal: Expression<'_>,
) -> Result<LocalRule, AllocError>
    ensures { (w : Setting) → A.tells around.now w → AllDiffer w.names
        → All (NameIsOf w.owner w.names) free.now → ExpressionIsOf w.owner w.names goal.entry
        → IfOk result (λ r. local_rule_meaning r ≡ goal_form w free.now goal.entry) }
{
    let params = parameters(alloc, around, free)?;
    let entries = variable_entries(alloc, free)?;
    let scope = Scope::outermost(entries.as_slice());
    let body = term(alloc, around, &scope, goal)?;
    Ok(LocalRule { params, body })
}

/// The patterns of variables that are parameters.
fn parameters<A: Surroundings>(
    alloc: Global,
    around: &A,
    names: &[Name],
) -> Result<Vec<KernelPattern>, AllocError>
    ensures { (w : Setting) → A.tells around.now w
        → IfOk result (λ found. map pattern_of found.items ≡ map (parameter_of w) names.now) }
{
    let mut found = Vec::new(alloc);
    for name in names {
        found.push(parameter(around, *name))?;
    }
    Ok(found)
}

/// The pattern of a variable that is a parameter.
fn parameter<A: Surroundings>(around: &A, name: Name) -> KernelPattern
    ensures { (w : Setting) → A.tells around.now w → pattern_of result ≡ parameter_of w name }
{
    KernelPattern::Var(around.variable(Binder::At(Position::of(name.place))))
}
