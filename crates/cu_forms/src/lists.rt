//! Lists, tuples and literals, and distinctions by conditions.
ghost use Rattle.std.specs.Prelude.{◌≡◌, IfOk, map};
ghost use Rattle.cu_kernel.specs.LocalTermsOf.{local_term_of};
ghost use Rattle.cu_kernel.specs.TermsOf.{pattern_of};
ghost use Rattle.cu_syntax.specs.Names.{literal_meaning};
ghost use Rattle.cu_translation.specs.Meaning.{Setting, built_in_text, referent_meaning};
ghost use Rattle.cu_translation.specs.Terms as definitions;
ghost use Rattle.cu_forms.specs.Inside.Blocks.{guard_meaning, guards_term};
ghost use Rattle.cu_forms.specs.Inside.Lists.{cons_term, constant_of, distinction, list_term, literal_term, number_term, tuple_term};

use crate::calls::built_in;
use cu_kernel::{ConId, Head, Int, Lit, LocalHead, LocalTerm, Mode, Pattern};
use cu_syntax::Literal;
use cu_translation::{BuiltIn, Referent, Surroundings};
use std::alloc::{AllocError, Global};

/// The term of the list of these terms.
pub(crate) fn list<A: Surroundings>(
    alloc: Global,
    around: &A,
    terms: Vec<LocalTerm>,
) -> Result<LocalTerm, AllocError>
    ensures { (w : Setting) → A.tells around.now w
        → IfOk result (λ t. local_term_of t
        ≡ list_term w.around.names (map local_term_of terms.items)) }
{
    let mut elements = terms;
    let mut list = built_in(alloc, around, BuiltIn::Nil, Vec::new(alloc))?;
    while let Some(element) = elements.pop() {
        list = cons(alloc, around, element, list)?;
    }
    Ok(list)
}

/// The term of a list with this first element.
fn cons<A: Surroundings>(
    alloc: Global,
    around: &A,
    element: LocalTerm,
    list: LocalTerm,
) -> Result<LocalTerm, AllocError>
    ensures { (w : Setting) → A.tells around.now w
        → IfOk result (λ t. local_term_of t
        ≡ cons_term w.around.names (local_term_of element) (local_term_of list)) }
{
    built_in(alloc, around, BuiltIn::Cons, vec![in alloc; element, list]?)
}

/// The term of the tuple of these terms.
pub(crate) fn tuple<A: Surroundings>(
    alloc: Global,
    around: &A,
    terms: Vec<LocalTerm>,
) -> Result<LocalTerm, AllocError>
    ensures { (w : Setting) → A.tells around.now w
        → IfOk result (λ t. local_term_of t
        ≡ tuple_term w.around.names (map local_term_of terms.items)) }
{
    let what = BuiltIn::Tuple(terms.len());
    built_in(alloc, around, what, terms)
}

/// The term of a literal. A string is the list of its characters.
#[tactic(auto, using(cu_kernel::specs::LocalTermsOf::local_terms_of_variants))]
pub(crate) fn literal<A: Surroundings>(
    alloc: Global,
    around: &A,
    found: Literal<'_>,
) -> Result<LocalTerm, AllocError>
    ensures { (w : Setting) → A.tells around.now w
        → IfOk result (λ t. local_term_of t
        ≡ literal_term w.around.names (literal_meaning found.entry)) }
{
    match found {
        Literal::Int(value) => Ok(number(value)),
        Literal::Char(character) => Ok(LocalTerm::Lit(Lit::Char(character))),
        Literal::String(text) => list(alloc, around, characters(alloc, text.as_slice())?),
    }
}

/// A number as a term.
#[tactic(auto, using(cu_kernel::specs::LocalTermsOf::local_terms_of_variants))]
pub(crate) fn number(value: Int) -> LocalTerm
    ensures { local_term_of result ≡ number_term value }
{
    LocalTerm::Lit(Lit::Int(value))
}

/// The terms of characters.
#[tactic(auto, using(cu_kernel::specs::LocalTermsOf::local_terms_of_variants))]
fn characters(alloc: Global, text: &[char]) -> Result<Vec<LocalTerm>, AllocError>
    ensures { IfOk result (λ found. map local_term_of found.items
        ≡ map definitions.character text.now) }
{
    let mut terms = Vec::new(alloc);
    for character in text {
        terms.push(LocalTerm::Lit(Lit::Char(*character)))?;
    }
    Ok(terms)
}

/// The constructor that a name refers to, or the first constructor where it
/// refers to none.
pub(crate) fn constructor_of(referent: Referent) -> ConId
    ensures { result ≡ definitions.constructor_of (referent_meaning referent) }
{
    match referent {
        Referent::Callable(LocalHead::Global(Head::Con(constructor)), _) => constructor,
        _ => ConId(0),
    }
}

/// A constructor of the Prelude without arguments, as a pattern.
#[tactic(auto, using(cu_kernel::specs::TermsOf::patterns_of_variants))]
pub(crate) fn constant<A: Surroundings>(alloc: Global, around: &A, what: BuiltIn) -> Pattern
    ensures { (w : Setting) → A.tells around.now w
        → pattern_of result ≡ constant_of w.around.names (built_in_text what) }
{
    Pattern::Con(constructor_of(around.prelude(what)), Vec::new(alloc))
}

/// The term of a choice between two terms by a condition.
pub(crate) fn if_then_else<A: Surroundings>(
    alloc: Global,
    around: &A,
    condition: LocalTerm,
    chosen: LocalTerm,
    other: LocalTerm,
) -> Result<LocalTerm, AllocError>
    ensures { (w : Setting) → A.tells around.now w
        → IfOk result (λ t. local_term_of t ≡ distinction w.around.names
        (local_term_of condition) (local_term_of chosen) (local_term_of other)) }
{
    let holds = constant(alloc, around, BuiltIn::True);
    let fails = constant(alloc, around, BuiltIn::False);
    let rows = vec![in alloc; (holds, chosen), (fails, other)]?;
    let condition = Box::new(alloc, condition)?;
    Ok(LocalTerm::Case(Mode::Rigid, condition, rows))
}

/// The term of guards: the expression of the first condition that is True, and
/// `failed` where there is none.
pub(crate) fn guarded<A: Surroundings>(
    alloc: Global,
    around: &A,
    rows: Vec<(LocalTerm, LocalTerm)>,
) -> Result<LocalTerm, AllocError>
    ensures { (w : Setting) → A.tells around.now w
        → IfOk result (λ t. local_term_of t
        ≡ guards_term w.around.names (map guard_meaning rows.items)) }
{
    let mut left = rows;
    let mut other = built_in(alloc, around, BuiltIn::Failed, Vec::new(alloc))?;
    while let Some(row) = left.pop() {
        other = if_then_else(alloc, around, row.0, row.1, other)?;
    }
    Ok(other)
}
