//! Copies of terms and statements.
ghost use Rattle.std.specs.Prelude.{◌≡◌, IfOk};
ghost use Rattle.cu_kernel.specs.TermsOf.{alternatives_of, term_of, terms_of};
ghost use Rattle.cu_crwl.specs.Meaning.{statement_of};

use crate::Statement;
use cu_kernel::{Pattern, Term, copy_pattern};
use cu_values::Value;
use std::alloc::{AllocError, Global};

/// A copy of a term.
#[cycle(terms)]
#[tactic(auto, using(cu_kernel::specs::TermsOf::terms_of_variants))]
fn copy_term(alloc: Global, term: &Term) -> Result<Term, AllocError>
    ensures { IfOk result (λ copy. term_of copy ≡ term_of term.now) }
{
    match term {
        Term::Var(variable) => Ok(Term::Var(*variable)),
        Term::Lit(literal) => Ok(Term::Lit(*literal)),
        Term::Whole(head, terms) => {
            let copies = copy_terms(alloc, terms)?;
            Ok(Term::Whole(*head, copies))
        }
        Term::Part(head, terms) => {
            let copies = copy_terms(alloc, terms)?;
            Ok(Term::Part(*head, copies))
        }
        Term::Apply(function, argument) => {
            let first = boxed_copy(alloc, function)?;
            let second = boxed_copy(alloc, argument)?;
            Ok(Term::Apply(first, second))
        }
        Term::Let(variable, definition, body) => {
            let first = boxed_copy(alloc, definition)?;
            let second = boxed_copy(alloc, body)?;
            Ok(Term::Let(*variable, first, second))
        }
        Term::Free(variable, body) => {
            let copy = boxed_copy(alloc, body)?;
            Ok(Term::Free(*variable, copy))
        }
        Term::Or(left, right) => {
            let first = boxed_copy(alloc, left)?;
            let second = boxed_copy(alloc, right)?;
            Ok(Term::Or(first, second))
        }
        Term::Case(mode, scrutinee, alternatives) => {
            let copy = boxed_copy(alloc, scrutinee)?;
            let rows = copy_alternatives(alloc, alternatives)?;
            Ok(Term::Case(*mode, copy, rows))
        }
    }
}

/// A copy of a term, in a box.
#[cycle(terms)]
fn boxed_copy(alloc: Global, term: &Term) -> Result<Box<Term>, AllocError>
    ensures { IfOk result (λ copy. term_of copy.value ≡ term_of term.now) }
{
    let copy = copy_term(alloc, term)?;
    let boxed = Box::new(alloc, copy)?;
    Ok(boxed)
}

/// Copies of terms.
#[cycle(terms)]
fn copy_terms(alloc: Global, terms: &[Term]) -> Result<Vec<Term>, AllocError>
    ensures { IfOk result (λ copies. terms_of copies.items ≡ terms_of terms.now) }
{
    let mut copies = Vec::new(alloc);
    for term in terms {
        copies.push(copy_term(alloc, term)?)?;
    }
    Ok(copies)
}

/// Copies of alternatives.
#[cycle(terms)]
fn copy_alternatives(
    alloc: Global,
    alternatives: &[(Pattern, Term)],
) -> Result<Vec<(Pattern, Term)>, AllocError>
    ensures { IfOk result (λ copies. alternatives_of copies.items
        ≡ alternatives_of alternatives.now) }
{
    let mut copies = Vec::new(alloc);
    for alternative in alternatives {
        let pattern = copy_pattern(alloc, &alternative.0)?;
        let term = copy_term(alloc, &alternative.1)?;
        copies.push((pattern, term))?;
    }
    Ok(copies)
}

/// Copies of bindings.
fn copy_bindings(alloc: Global, bindings: &[(u32, Value)]) -> Result<Vec<(u32, Value)>, AllocError>
    ensures { IfOk result (λ copies. copies.items ≡ bindings.now) }
{
    let mut copies = Vec::new(alloc);
    for binding in bindings {
        let value = binding.1.clone()?;
        copies.push((binding.0, value))?;
    }
    Ok(copies)
}

/// A copy of a statement.
pub(crate) fn copy_statement(alloc: Global, statement: &Statement) -> Result<Statement, AllocError>
    ensures { IfOk result (λ copy. statement_of copy ≡ statement_of statement.now) }
{
    let env = copy_bindings(alloc, &statement.env)?;
    let term = copy_term(alloc, &statement.term)?;
    let value = statement.value.clone()?;
    Ok(Statement { env, term, value })
}
