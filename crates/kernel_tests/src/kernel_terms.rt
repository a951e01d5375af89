//! Terms, patterns and types.

use crate::kernel_build::{
    apply, cases, free_term, let_term, or_term, pair, part_of_one, part_of_two, whole_of_one,
    whole_of_two,
};
use crate::kernel_sample::{CONSTRUCTORS, LIFTED, TYPES, expect, expect_parts, plain};
use cu_kernel::{
    ConId, FunId, Head, Lit, Mode, Pattern, ProgramParts, Synonym, SynonymId, Term, TypeId,
    TypeName, TypeTerm,
};
use samples::{CONS, NAME, NIL, and, boxed, constant, number, one};
use std::alloc::{AllocError, Global};
use std::process::Abort;

#[test]
fn heads_have_their_arguments(rt: HostRuntime) {
    let alloc = rt.alloc();
    let head = Head::Fun(LIFTED);
    let part = part_of_one(alloc, head, Term::Var(0));
    expect(&rt, alloc, true, part);
    let all = part_of_two(alloc, head, Term::Var(0), number(1));
    expect(&rt, alloc, false, all);
    let whole = whole_of_two(alloc, head, Term::Var(0), number(1));
    expect(&rt, alloc, true, whole);
    let short = whole_of_one(alloc, head, Term::Var(0));
    expect(&rt, alloc, false, short);
    expect(&rt, alloc, true, Ok(constant(alloc, NIL)));
    expect(&rt, alloc, false, Ok(constant(alloc, CONS)));
}

#[test]
fn heads_are_the_programs(rt: HostRuntime) {
    let alloc = rt.alloc();
    expect(&rt, alloc, false, Ok(constant(alloc, ConId(CONSTRUCTORS))));
    let unknown = whole_of_one(alloc, Head::Fun(FunId(4)), number(1));
    expect(&rt, alloc, false, unknown);
    let search = whole_of_two(alloc, Head::Set(LIFTED), Term::Var(0), number(1));
    expect(&rt, alloc, false, search);
}

#[test]
fn variables_are_bound(rt: HostRuntime) {
    let alloc = rt.alloc();
    expect(&rt, alloc, true, Ok(Term::Var(0)));
    expect(&rt, alloc, false, Ok(Term::Var(1)));
    expect(&rt, alloc, true, free_term(alloc, 1, Term::Var(1)));
    expect(&rt, alloc, false, free_term(alloc, 1, Term::Var(2)));
    let right = or_term(alloc, Term::Var(0), number(2));
    expect(&rt, alloc, true, right);
    let wrong = or_term(alloc, Term::Var(0), Term::Var(1));
    expect(&rt, alloc, false, wrong);
    let wrong = apply(alloc, Term::Var(1), Term::Var(0));
    expect(&rt, alloc, false, wrong);
    let right = apply(alloc, Term::Var(0), Term::Var(0));
    expect(&rt, alloc, true, right);
}

/// let 1 = 1 in let 2 = the variable 1 in the variable 2
fn nested_let(alloc: Global) -> Result<Term, AllocError> {
    let inner = let_term(alloc, 2, Term::Var(1), Ok(Term::Var(2)));
    let_term(alloc, 1, number(1), inner)
}

/// let x = the variable y in x
fn let_of(alloc: Global, x: u32, y: u32) -> Result<Term, AllocError> {
    let_term(alloc, x, Term::Var(y), Ok(Term::Var(x)))
}

#[test]
fn no_let_is_recursive(rt: HostRuntime) {
    let alloc = rt.alloc();
    expect(&rt, alloc, true, let_of(alloc, 1, 0));
    expect(&rt, alloc, false, let_of(alloc, 1, 1));
    expect(&rt, alloc, false, let_of(alloc, 0, 0));
    expect(&rt, alloc, true, nested_let(alloc));
}

/// The row of a pattern whose right side is a variable.
fn row(pattern: Result<Pattern, AllocError>, x: u32) -> Result<(Pattern, Term), AllocError> {
    Ok((pattern?, Term::Var(x)))
}

/// case x of { the pattern -> the variable; y -> y }
fn case_term(
    alloc: Global,
    pattern: Result<Pattern, AllocError>,
    x: u32,
) -> Result<Term, AllocError> {
    let first = one(alloc, row(pattern, x));
    let rows = and(first, row(Ok(Pattern::Var(9)), 9));
    cases(alloc, Mode::Rigid, Term::Var(0), rows)
}

/// case x of { y -> y; z -> y }
fn second_unbound(alloc: Global) -> Result<Term, AllocError> {
    let first = one(alloc, row(Ok(Pattern::Var(1)), 1));
    let rows = and(first, row(Ok(Pattern::Var(2)), 1));
    cases(alloc, Mode::Rigid, Term::Var(0), rows)
}

fn cons_pattern(alloc: Global, head: u32, tail: u32) -> Result<Pattern, AllocError> {
    let parts = pair(alloc, Pattern::Var(head), Pattern::Var(tail))?;
    Ok(Pattern::Con(CONS, parts))
}

fn short_pattern(alloc: Global) -> Result<Pattern, AllocError> {
    Ok(Pattern::Con(CONS, one(alloc, Ok(Pattern::Var(1)))?))
}

fn alias(alloc: Global, x: u32, y: u32) -> Result<Pattern, AllocError> {
    Ok(Pattern::Alias(x, boxed(alloc, Ok(Pattern::Var(y)))?))
}

/// Whether a case may have this pattern, with the variable on its right side.
fn expect_pattern<R: Abort>(
    rt: &R,
    alloc: Global,
    right: bool,
    pattern: Result<Pattern, AllocError>,
    x: u32,
) {
    expect(rt, alloc, right, case_term(alloc, pattern, x));
}

#[test]
fn patterns_are_linear(rt: HostRuntime) {
    let alloc = rt.alloc();
    expect_pattern(&rt, alloc, true, cons_pattern(alloc, 1, 2), 2);
    expect_pattern(&rt, alloc, false, cons_pattern(alloc, 1, 1), 1);
    expect_pattern(&rt, alloc, false, short_pattern(alloc), 1);
    expect_pattern(&rt, alloc, true, alias(alloc, 1, 2), 2);
    expect_pattern(&rt, alloc, false, alias(alloc, 1, 1), 1);
    let letter = Ok(Pattern::Lit(Lit::Char('a')));
    expect_pattern(&rt, alloc, true, letter, 0);
    expect(&rt, alloc, false, second_unbound(alloc));
}

fn synonym(body: TypeTerm) -> Synonym {
    Synonym {
        name: NAME,
        module: 0,
        public: true,
        arity: 2,
        body,
    }
}

/// The sample with a synonym of two variables.
fn with_synonym(alloc: Global, body: TypeTerm) -> Result<ProgramParts, AllocError> {
    let synonyms = one(alloc, Ok(synonym(body)))?;
    let mut parts = plain(alloc)?;
    parts.synonyms = synonyms;
    Ok(parts)
}

fn named(alloc: Global, name: TypeName) -> TypeTerm {
    TypeTerm::Named(name, Vec::new(alloc))
}

fn expect_synonym<R: Abort>(rt: &R, alloc: Global, right: bool, body: TypeTerm) {
    expect_parts(rt, right, with_synonym(alloc, body));
}

fn data(alloc: Global, number: usize) -> TypeTerm {
    named(alloc, TypeName::Data(TypeId(number)))
}

fn other(alloc: Global, number: usize) -> TypeTerm {
    named(alloc, TypeName::Synonym(SynonymId(number)))
}

#[test]
fn types_name_types(rt: HostRuntime) {
    let alloc = rt.alloc();
    expect_synonym(&rt, alloc, true, TypeTerm::Var(1));
    expect_synonym(&rt, alloc, false, TypeTerm::Var(2));
    expect_synonym(&rt, alloc, true, data(alloc, TYPES - 1));
    expect_synonym(&rt, alloc, false, data(alloc, TYPES));
    expect_synonym(&rt, alloc, true, other(alloc, 0));
    expect_synonym(&rt, alloc, false, other(alloc, 1));
}
