//! Terms and patterns, if there was memory for them.

use cu_kernel::{Head, Mode, Pattern, Term};
use samples::{and, boxed, one, pair_of};
use std::alloc::{AllocError, Global};

pub(crate) fn pair(
    alloc: Global,
    first: Pattern,
    second: Pattern,
) -> Result<Vec<Pattern>, AllocError> {
    and(one(alloc, Ok(first)), Ok(second))
}

/// The cases of a term.
pub(crate) fn cases(
    alloc: Global,
    mode: Mode,
    term: Term,
    rows: Result<Vec<(Pattern, Term)>, AllocError>,
) -> Result<Term, AllocError> {
    let (term, rows) = pair_of(boxed(alloc, Ok(term)), rows)?;
    Ok(Term::Case(mode, term, rows))
}

fn pair_of_terms(alloc: Global, first: Term, second: Term) -> Result<Vec<Term>, AllocError> {
    and(one(alloc, Ok(first)), Ok(second))
}

pub(crate) fn whole_of_one(alloc: Global, head: Head, argument: Term) -> Result<Term, AllocError> {
    Ok(Term::Whole(head, one(alloc, Ok(argument))?))
}

pub(crate) fn whole_of_two(
    alloc: Global,
    head: Head,
    first: Term,
    second: Term,
) -> Result<Term, AllocError> {
    Ok(Term::Whole(head, pair_of_terms(alloc, first, second)?))
}

pub(crate) fn part_of_one(alloc: Global, head: Head, argument: Term) -> Result<Term, AllocError> {
    Ok(Term::Part(head, one(alloc, Ok(argument))?))
}

pub(crate) fn part_of_two(
    alloc: Global,
    head: Head,
    first: Term,
    second: Term,
) -> Result<Term, AllocError> {
    Ok(Term::Part(head, pair_of_terms(alloc, first, second)?))
}

pub(crate) fn let_term(
    alloc: Global,
    x: u32,
    value: Term,
    body: Result<Term, AllocError>,
) -> Result<Term, AllocError> {
    let (value, body) = pair_of(boxed(alloc, Ok(value)), boxed(alloc, body))?;
    Ok(Term::Let(x, value, body))
}

pub(crate) fn free_term(alloc: Global, x: u32, body: Term) -> Result<Term, AllocError> {
    Ok(Term::Free(x, boxed(alloc, Ok(body))?))
}

pub(crate) fn or_term(alloc: Global, left: Term, right: Term) -> Result<Term, AllocError> {
    let (left, right) = pair_of(boxed(alloc, Ok(left)), boxed(alloc, Ok(right)))?;
    Ok(Term::Or(left, right))
}

pub(crate) fn apply(alloc: Global, function: Term, argument: Term) -> Result<Term, AllocError> {
    let (function, argument) = pair_of(boxed(alloc, Ok(function)), boxed(alloc, Ok(argument)))?;
    Ok(Term::Apply(function, argument))
}
