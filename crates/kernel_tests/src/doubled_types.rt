//! Types that double with each function or synonym: as trees they have more
//! than 2^40 parts, and their tables are as small as their number of
//! different parts.

use crate::sample_types::BEFORE;
use crate::written_programs::{mark, parts};
use cu_kernel::{
    ConId, FunId, Function, Head, Pattern, Program, ProgramParts, Synonym, SynonymId, Term, TypeId,
    TypeName, TypeTerm,
};
use cu_types::infer;
use samples::{NAME, and, of_rules, one, program_of, rule};
use std::alloc::{AllocError, Global};

/// How often the types double.
const COUNT: usize = 40;

/// `e x`, of the function `e` with this number.
fn call(alloc: Global, place: usize) -> Result<Term, AllocError> {
    let arguments = one(alloc, Ok(Term::Var(0)))?;
    Ok(Term::Whole(Head::Fun(FunId(place)), arguments))
}

/// `d x = (e x, e x)`, of the function `e` with this number.
fn doubled(alloc: Global, place: usize) -> Result<Function, AllocError> {
    let calls = and(one(alloc, call(alloc, place)), call(alloc, place))?;
    let body = Ok(Term::Whole(Head::Con(ConId(3)), calls));
    of_rules(1, one(alloc, rule(one(alloc, Ok(Pattern::Var(0))), body)))
}

/// Adds `d x = (e x, e x)`, of the function `e` that was added last.
fn add_function(alloc: Global, parts: &mut ProgramParts) -> Option<()> {
    let last = parts.functions.len().checked_sub(1)?;
    let function = doubled(alloc, last).ok()?;
    parts.functions.push(function).ok()?;
    parts.marks.push(mark(None, 0)).ok()
}

/// `f x = (x, x)`, and so many functions that double its type.
fn doubling_functions(alloc: Global) -> Option<Program> {
    let mut parts = parts(alloc, "fun/1 rule/1 .x0 Pair/2 x0 x0")?;
    for _ in 0..COUNT {
        add_function(alloc, &mut parts)?;
    }
    program_of(parts).ok()?
}

/// The synonym that was added last.
fn last_synonym(alloc: Global, parts: &ProgramParts) -> Option<TypeTerm> {
    let last = SynonymId(parts.synonyms.len().checked_sub(1)?);
    Some(TypeTerm::Named(TypeName::Synonym(last), Vec::new(alloc)))
}

/// Adds a synonym of this type.
fn add_synonym(parts: &mut ProgramParts, body: TypeTerm) -> Option<()> {
    let synonym = Synonym {
        name: NAME,
        module: 0,
        public: true,
        arity: 0,
        body,
    };
    parts.synonyms.push(synonym).ok()
}

/// Adds `type D = (E, E)`, of the synonym `E` that was added last.
fn add_double(alloc: Global, parts: &mut ProgramParts) -> Option<()> {
    let first = last_synonym(alloc, parts)?;
    let second = last_synonym(alloc, parts)?;
    let arguments = and(one(alloc, Ok(first)), Ok(second)).ok()?;
    add_synonym(parts, TypeTerm::Named(TypeName::Data(TypeId(2)), arguments))
}

/// `f :: D; f = failed`, of the last of so many synonyms that double `Int`.
fn doubling_synonyms(alloc: Global) -> Option<Program> {
    let mut parts = parts(alloc, "fun/0 rule/0 failed")?;
    add_synonym(
        &mut parts,
        TypeTerm::Named(TypeName::Data(TypeId(16)), Vec::new(alloc)),
    )?;
    for _ in 0..COUNT {
        add_double(alloc, &mut parts)?;
    }
    let declared = last_synonym(alloc, &parts)?;
    parts.marks.pop()?;
    parts.marks.push(mark(Some(declared), 0)).ok()?;
    program_of(parts).ok()?
}

/// How many types the table of a function's type has, and how many type
/// variables an instance of it takes.
fn measured(alloc: Global, program: Option<Program>, place: usize) -> Option<(usize, usize)> {
    let interface = infer(alloc, &program?).ok()?;
    let shared = interface.types().get(place)?;
    Some((shared.open().types.len(), shared.breadth(alloc).ok()?))
}

/// The variable, `f`'s pair and those that double it, and the function.
#[test]
fn types_that_double_with_each_function(rt: HostRuntime) {
    let alloc = rt.alloc();
    let last = BEFORE.saturating_add(COUNT);
    let found = measured(alloc, doubling_functions(alloc), last);
    assert_eq!(rt; found, Some((43, 1)));
}

/// `Int`, and the pairs that double it.
#[test]
fn types_that_double_with_each_synonym(rt: HostRuntime) {
    let alloc = rt.alloc();
    let found = measured(alloc, doubling_synonyms(alloc), BEFORE);
    assert_eq!(rt; found, Some((41, 0)));
}
