//! Lifted terms.
ghost use Rattle.std.specs.Prelude.{◌≡◌, IfOk, map, slice_index_or};
ghost use Rattle.cu_kernel.specs.KernelOf.{rule_meaning};
ghost use Rattle.cu_kernel.specs.LocalKernelOf.{local_rule_meaning};
ghost use Rattle.cu_kernel.specs.LocalTermsOf.{local_alternatives_of, local_term_of, local_terms_of};
ghost use Rattle.cu_kernel.specs.TermsOf.{alternatives_of, patterns_of, term_of, terms_of};
ghost use Rattle.cu_lift.specs.Inside.LiftedPlaces.{captured_in, lifting_meaning};
ghost use Rattle.cu_lift.specs.Lifting.{after_parameters, after_variables, lifted_alternatives, lifted_head, lifted_rule, lifted_term, lifted_terms, moved, passed};

use crate::placement::Placement;
use cu_kernel::{
    FunId, Head, LocalHead, LocalRule, LocalTerm, Pattern, Rule, Term, copy_pattern, copy_patterns,
};
use std::alloc::{AllocError, Global};

/// What becomes of the functions that the rules of a top-level function and
/// its local functions use.
#[derive(Clone, Copy)]
pub(crate) struct Renaming<'a> {
    /// Where new terms are kept.
    pub alloc: Global,
    /// The new numbers of top-level functions.
    pub tops: &'a [usize],
    /// Where the local functions go.
    pub placement: &'a Placement,
}

/// What stands at a place of a list, or something else after its end.
pub(crate) fn number_at(numbers: &[usize], index: usize, past: usize) -> usize
    ensures { result ≡ slice_index_or numbers.now index past }
{
    match numbers.get(index) {
        Some(number) => *number,
        None => past,
    }
}

/// A head with new numbers of functions.
fn moved(tops: &[usize], head: Head) -> Head
    ensures { result ≡ moved (λ i. slice_index_or tops.now i 0) head }
{
    match head {
        Head::Fun(function) => Head::Fun(FunId(number_at(tops, function.0, 0))),
        Head::Con(constructor) => Head::Con(constructor),
        Head::Set(function) => Head::Set(FunId(number_at(tops, function.0, 0))),
    }
}

/// What becomes of a head.
fn lifted_head(renaming: &Renaming, head: LocalHead) -> Head
    ensures { result ≡ lifted_head (lifting_meaning renaming.now) head }
{
    match head {
        LocalHead::Global(head) => moved(renaming.tops, head),
        LocalHead::Local(number) => {
            let placement = renaming.placement;
            let lifted = number_at(&placement.numbers, number as usize, placement.end);
            Head::Fun(FunId(lifted))
        }
    }
}

/// The variables that a local function captures.
pub(crate) fn captured_by(placement: &Placement, number: usize) -> &[u32]
    ensures { result.now ≡ captured_in placement.now number }
{
    match placement.captured.get(number) {
        Some(variables) => variables,
        None => &[],
    }
}

/// The variables that a use of a head passes.
fn passed<'a>(renaming: &Renaming<'a>, head: LocalHead) -> &'a [u32]
    ensures { result.now ≡ passed (lifting_meaning renaming.now) head }
{
    match head {
        LocalHead::Global(_) => &[],
        LocalHead::Local(number) => captured_by(renaming.placement, number as usize),
    }
}

/// Patterns after variables.
fn after_parameters(
    alloc: Global,
    variables: &[u32],
    patterns: &[Pattern],
) -> Result<Vec<Pattern>, AllocError>
    ensures { IfOk result (λ all. patterns_of all.items
        ≡ after_parameters variables.now (patterns_of patterns.now)) }
{
    let mut all = Vec::new(alloc);
    for variable in variables {
        all.push(Pattern::Var(*variable))?;
    }
    let mut rest = copy_patterns(alloc, patterns)?;
    all.append(&mut rest)?;
    Ok(all)
}

/// Terms after variables.
fn after_variables(
    alloc: Global,
    variables: &[u32],
    terms: Vec<Term>,
) -> Result<Vec<Term>, AllocError>
    ensures { IfOk result (λ all. terms_of all.items
        ≡ after_variables variables.now (terms_of terms.items)) }
{
    let mut all = Vec::new(alloc);
    for variable in variables {
        all.push(Term::Var(*variable))?;
    }
    let mut rest = terms;
    all.append(&mut rest)?;
    Ok(all)
}

/// A lifted term.
#[cycle(terms)]
#[tactic(auto, using(cu_kernel::specs::TermsOf::terms_of_variants, cu_kernel::specs::LocalTermsOf::local_terms_of_variants))]
fn lift_term(renaming: &Renaming, term: &LocalTerm) -> Result<Term, AllocError>
    ensures { IfOk result (λ lifted. term_of lifted
        ≡ lifted_term (lifting_meaning renaming.now) (local_term_of term.now)) }
{
    match term {
        LocalTerm::Var(variable) => Ok(Term::Var(*variable)),
        LocalTerm::Lit(literal) => Ok(Term::Lit(*literal)),
        LocalTerm::Whole(head, terms) => {
            let arguments = lift_arguments(renaming, *head, terms)?;
            Ok(Term::Whole(lifted_head(renaming, *head), arguments))
        }
        LocalTerm::Part(head, terms) => {
            let arguments = lift_arguments(renaming, *head, terms)?;
            Ok(Term::Part(lifted_head(renaming, *head), arguments))
        }
        LocalTerm::Apply(function, argument) => {
            let first = lift_boxed(renaming, function)?;
            let second = lift_boxed(renaming, argument)?;
            Ok(Term::Apply(first, second))
        }
        LocalTerm::Let(variable, definition, body) => {
            let first = lift_boxed(renaming, definition)?;
            let second = lift_boxed(renaming, body)?;
            Ok(Term::Let(*variable, first, second))
        }
        LocalTerm::Free(variable, body) => {
            let lifted = lift_boxed(renaming, body)?;
            Ok(Term::Free(*variable, lifted))
        }
        LocalTerm::Or(left, right) => {
            let first = lift_boxed(renaming, left)?;
            let second = lift_boxed(renaming, right)?;
            Ok(Term::Or(first, second))
        }
        LocalTerm::Case(mode, scrutinee, alternatives) => {
            let lifted = lift_boxed(renaming, scrutinee)?;
            let rows = lift_alternatives(renaming, alternatives)?;
            Ok(Term::Case(*mode, lifted, rows))
        }
    }
}

/// A lifted term, in a box.
#[cycle(terms)]
fn lift_boxed(renaming: &Renaming, term: &LocalTerm) -> Result<Box<Term>, AllocError>
    ensures { IfOk result (λ lifted. term_of lifted.value
        ≡ lifted_term (lifting_meaning renaming.now) (local_term_of term.now)) }
{
    let lifted = lift_term(renaming, term)?;
    let boxed = Box::new(renaming.alloc, lifted)?;
    Ok(boxed)
}

/// The arguments of a head, after the variables that it is passed.
#[cycle(terms)]
fn lift_arguments(
    renaming: &Renaming,
    head: LocalHead,
    terms: &[LocalTerm],
) -> Result<Vec<Term>, AllocError>
    ensures { IfOk result (λ arguments. terms_of arguments.items
        ≡ after_variables (passed (lifting_meaning renaming.now) head)
        (lifted_terms (lifting_meaning renaming.now) (local_terms_of terms.now))) }
{
    let arguments = lift_terms(renaming, terms)?;
    after_variables(renaming.alloc, passed(renaming, head), arguments)
}

/// Lifted terms.
#[cycle(terms)]
fn lift_terms(renaming: &Renaming, terms: &[LocalTerm]) -> Result<Vec<Term>, AllocError>
    ensures { IfOk result (λ lifted. terms_of lifted.items
        ≡ lifted_terms (lifting_meaning renaming.now) (local_terms_of terms.now)) }
{
    let mut lifted = Vec::new(renaming.alloc);
    for term in terms {
        lifted.push(lift_term(renaming, term)?)?;
    }
    Ok(lifted)
}

/// Lifted alternatives.
#[cycle(terms)]
fn lift_alternatives(
    renaming: &Renaming,
    alternatives: &[(Pattern, LocalTerm)],
) -> Result<Vec<(Pattern, Term)>, AllocError>
    ensures { IfOk result (λ lifted. alternatives_of lifted.items
        ≡ lifted_alternatives (lifting_meaning renaming.now)
        (local_alternatives_of alternatives.now)) }
{
    let mut lifted = Vec::new(renaming.alloc);
    for alternative in alternatives {
        let pattern = copy_pattern(renaming.alloc, &alternative.0)?;
        let term = lift_term(renaming, &alternative.1)?;
        lifted.push((pattern, term))?;
    }
    Ok(lifted)
}

/// A rule of a function that takes these variables first.
fn lift_rule(renaming: &Renaming, variables: &[u32], rule: &LocalRule) -> Result<Rule, AllocError>
    ensures { IfOk result (λ lifted. rule_meaning lifted
        ≡ lifted_rule (lifting_meaning renaming.now) variables.now (local_rule_meaning rule.now)) }
{
    let params = after_parameters(renaming.alloc, variables, rule.params.as_slice())?;
    let body = lift_term(renaming, &rule.body)?;
    Ok(Rule { params, body })
}

/// The rules of a function that takes these variables first.
pub(crate) fn lift_rules(
    renaming: &Renaming,
    variables: &[u32],
    rules: &[LocalRule],
) -> Result<Vec<Rule>, AllocError>
    ensures { IfOk result (λ lifted. map rule_meaning lifted.items
        ≡ map (lifted_rule (lifting_meaning renaming.now) variables.now)
        (map local_rule_meaning rules.now)) }
{
    let mut lifted = Vec::new(renaming.alloc);
    for rule in rules {
        lifted.push(lift_rule(renaming, variables, rule)?)?;
    }
    Ok(lifted)
}
