//! Calls, and what they are made of.
ghost use Rattle.std.specs.Prelude.{◌≡◌, ◌∷◌, [], IfOk, drop, map, take};
ghost use Rattle.std.specs.Option.{option_map};
ghost use Rattle.cu_kernel.specs.LocalTermsOf.{local_term_of};
ghost use Rattle.cu_translation.specs.Meaning.{Setting, built_in_text, referent_meaning};
ghost use Rattle.cu_translation.specs.Terms as definitions;
ghost use Rattle.cu_forms.specs.Inside.Calls.{built_in_term, function_named, referred_on, set_call_on};

use cu_kernel::{FunId, Head, Lit, LocalHead, LocalTerm, Mode};
use cu_translation::{BuiltIn, Referent, Surroundings};
use std::alloc::{AllocError, Global};

/// The term for what is refused, which has no value.
#[tactic(auto, using(cu_kernel::specs::LocalTermsOf::local_terms_of_variants))]
pub(crate) fn no_term(alloc: Global) -> Result<LocalTerm, AllocError>
    ensures { IfOk result (λ t. local_term_of t ≡ definitions.no_term) }
{
    let subject = Box::new(alloc, LocalTerm::Lit(Lit::Int(0)))?;
    Ok(LocalTerm::Case(Mode::Rigid, subject, Vec::new(alloc)))
}

/// A term applied to arguments, from the left.
pub(crate) fn applied(
    alloc: Global,
    function: LocalTerm,
    arguments: Vec<LocalTerm>,
) -> Result<LocalTerm, AllocError>
    ensures { IfOk result (λ t. local_term_of t
        ≡ definitions.applied (local_term_of function) (map local_term_of arguments.items)) }
{
    let mut term = function;
    for argument in arguments {
        term = application(alloc, term, argument)?;
    }
    Ok(term)
}

/// A term applied to one argument.
#[tactic(auto, using(cu_kernel::specs::LocalTermsOf::local_terms_of_variants))]
fn application(
    alloc: Global,
    function: LocalTerm,
    argument: LocalTerm,
) -> Result<LocalTerm, AllocError>
    ensures { IfOk result (λ t. local_term_of t
        ≡ definitions.applied (local_term_of function) (map local_term_of (argument ∷ []))) }
{
    let function = Box::new(alloc, function)?;
    let argument = Box::new(alloc, argument)?;
    Ok(LocalTerm::Apply(function, argument))
}

/// A head that takes so many arguments, applied to some: a partial application
/// where there are fewer, and else a whole call, which is applied to those that
/// are left.
pub(crate) fn call(
    alloc: Global,
    head: LocalHead,
    count: usize,
    arguments: Vec<LocalTerm>,
) -> Result<LocalTerm, AllocError>
    ensures { IfOk result (λ t. local_term_of t
        ≡ definitions.call head count (map local_term_of arguments.items)) }
{
    if arguments.len() < count {
        return Ok(LocalTerm::Part(head, arguments));
    }
    let parts = split(alloc, arguments, count)?;
    applied(alloc, LocalTerm::Whole(head, parts.0), parts.1)
}

/// The first terms of a list, so many of them, and the other terms.
fn split(
    alloc: Global,
    terms: Vec<LocalTerm>,
    count: usize,
) -> Result<(Vec<LocalTerm>, Vec<LocalTerm>), AllocError>
    ensures first { IfOk result (λ parts. parts.0.items ≡ take count terms.items) }
    ensures others { IfOk result (λ parts. parts.1.items ≡ drop count terms.items) }
{
    let mut first = Vec::new(alloc);
    let mut others = Vec::new(alloc);
    for term in terms {
        if first.len() < count {
            first.push(term)?;
            continue;
        }
        others.push(term)?;
    }
    Ok((first, others))
}

/// The function of top level that a name refers to, if it is one.
fn function_named(referent: Option<Referent>) -> Option<FunId>
    ensures { result ≡ function_named (option_map referent_meaning referent) }
{
    match referent {
        Some(Referent::Callable(LocalHead::Global(Head::Fun(function)), _)) => Some(function),
        _ => None,
    }
}

/// The call of the set function of the function that the first argument names,
/// on the other arguments.
fn set_call(
    alloc: Global,
    count: usize,
    first: Option<Referent>,
    arguments: Vec<LocalTerm>,
) -> Result<LocalTerm, AllocError>
    ensures { IfOk result (λ t. local_term_of t
        ≡ set_call_on count (option_map referent_meaning first)
        (map local_term_of arguments.items)) }
{
    let mut arguments = arguments;
    if arguments.is_empty() {
        return no_term(alloc);
    }
    let Some(function) = function_named(first) else {
        return no_term(alloc);
    };
    let _name = arguments.remove(0);
    call(
        alloc,
        LocalHead::Global(Head::Set(function)),
        count,
        arguments,
    )
}

/// What a name refers to, applied to arguments, of which the first may be a
/// name and nothing else.
#[tactic(auto, using(cu_kernel::specs::LocalTermsOf::local_terms_of_variants))]
pub(crate) fn referred(
    alloc: Global,
    referent: Referent,
    first: Option<Referent>,
    arguments: Vec<LocalTerm>,
) -> Result<LocalTerm, AllocError>
    ensures { IfOk result (λ t. local_term_of t
        ≡ referred_on (referent_meaning referent) (option_map referent_meaning first)
        (map local_term_of arguments.items)) }
{
    match referent {
        Referent::Variable(variable) => applied(alloc, LocalTerm::Var(variable), arguments),
        Referent::Callable(head, count) => call(alloc, head, count, arguments),
        Referent::SetFunction(count) => set_call(alloc, count, first, arguments),
        Referent::Nothing => no_term(alloc),
    }
}

/// What the Prelude has under a name, applied to arguments.
pub(crate) fn built_in<A: Surroundings>(
    alloc: Global,
    around: &A,
    what: BuiltIn,
    arguments: Vec<LocalTerm>,
) -> Result<LocalTerm, AllocError>
    ensures { (w : Setting) → A.tells around.now w
        → IfOk result (λ t. local_term_of t
        ≡ built_in_term w.around.names (built_in_text what) (map local_term_of arguments.items)) }
{
    referred(alloc, around.prelude(what), None, arguments)
}
