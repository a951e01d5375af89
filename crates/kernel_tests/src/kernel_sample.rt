//! The sample program: its types, `&&`, `+`, and what lifting makes of
//! `f x = g 1 where g y = x + y`.

use crate::kernel_build::{cases, pair, whole_of_two};
use crate::kernel_types::types;
use cu_kernel::{
    FunId, Function, Head, Mark, Mode, ModuleInfo, Operator, Pattern, Prim, ProgramParts, Rule,
    Side, Term,
};
use cu_names::Names;
use samples::{
    ENTITIES, FALSE, NAME, TRUE, and, both, constant, constant_pattern, external, mark, number,
    of_rules, one, pair_of, rule,
};
use std::alloc::{AllocError, Global};
use std::process::Abort;

/// The number of constructors.
pub(crate) const CONSTRUCTORS: usize = 24;

/// The number of types.
pub(crate) const TYPES: usize = 24;

pub(crate) const PLUS: FunId = FunId(1);

pub(crate) const LIFTED: FunId = FunId(3);

/// x && y = fcase x of { False -> False; True -> y }
pub(crate) fn case_rule(alloc: Global, mode: Mode) -> Result<Rule, AllocError> {
    let no = (constant_pattern(alloc, FALSE), constant(alloc, FALSE));
    let yes = (constant_pattern(alloc, TRUE), Term::Var(1));
    let body = cases(alloc, mode, Term::Var(0), and(one(alloc, Ok(no)), Ok(yes)));
    rule(pair(alloc, Pattern::Var(0), Pattern::Var(1)), body)
}

/// f x = the body
fn caller(alloc: Global, body: Result<Term, AllocError>) -> Result<Function, AllocError> {
    let params = one(alloc, Ok(Pattern::Var(0)));
    of_rules(1, one(alloc, rule(params, body)))
}

/// f#1 x y = x + y
pub(crate) fn lifted(alloc: Global, arity: u32) -> Result<Function, AllocError> {
    let body = whole_of_two(alloc, Head::Fun(PLUS), Term::Var(0), Term::Var(1));
    let params = pair(alloc, Pattern::Var(0), Pattern::Var(1));
    of_rules(arity, one(alloc, rule(params, body)))
}

/// The first three functions, of which the last has this right side.
pub(crate) fn top_functions(
    alloc: Global,
    body: Result<Term, AllocError>,
) -> Result<Vec<Function>, AllocError> {
    let built_in = and(one(alloc, both(alloc)), Ok(external(2, Prim::Add)));
    and(built_in, caller(alloc, body))
}

pub(crate) fn functions(
    alloc: Global,
    body: Result<Term, AllocError>,
) -> Result<Vec<Function>, AllocError> {
    and(top_functions(alloc, body), lifted(alloc, 2))
}

fn operator() -> Operator {
    Operator {
        name: NAME,
        side: Side::Right,
        level: 3,
    }
}

fn module_of(alloc: Global) -> Result<ModuleInfo, AllocError> {
    Ok(ModuleInfo {
        name: NAME,
        imports: Vec::new(alloc),
        operators: one(alloc, Ok(operator()))?,
    })
}

/// The marks of the first three functions.
pub(crate) fn top_marks(alloc: Global) -> Result<Vec<Mark>, AllocError> {
    samples::marks(alloc, 3)
}

pub(crate) fn marks(alloc: Global) -> Result<Vec<Mark>, AllocError> {
    and(top_marks(alloc), Ok(mark(0, 1)))
}

/// A program of these functions and marks, whose types have their names in
/// the table.
pub(crate) fn parts_by(
    alloc: Global,
    names: &mut Names,
    functions: Result<Vec<Function>, AllocError>,
    marks: Result<Vec<Mark>, AllocError>,
) -> Result<ProgramParts, AllocError> {
    let modules = one(alloc, module_of(alloc));
    let declared = pair_of(types(alloc, names), modules);
    let ((types, modules), (functions, marks)) = pair_of(declared, pair_of(functions, marks))?;
    Ok(ProgramParts {
        types,
        functions,
        synonyms: Vec::new(alloc),
        modules,
        marks,
        goal: None,
        special: ENTITIES,
    })
}

/// A program of these functions and marks.
pub(crate) fn parts_of(
    alloc: Global,
    functions: Result<Vec<Function>, AllocError>,
    marks: Result<Vec<Mark>, AllocError>,
) -> Result<ProgramParts, AllocError> {
    let mut names = Names::new(alloc);
    parts_by(alloc, &mut names, functions, marks)
}

/// The sample with this right side of `f x`.
fn sample(alloc: Global, body: Result<Term, AllocError>) -> Result<ProgramParts, AllocError> {
    parts_of(alloc, functions(alloc, body), marks(alloc))
}

/// The sample as lifting makes it.
pub(crate) fn plain(alloc: Global) -> Result<ProgramParts, AllocError> {
    sample(alloc, call(alloc))
}

/// f#1 x 1
pub(crate) fn call(alloc: Global) -> Result<Term, AllocError> {
    whole_of_two(alloc, Head::Fun(LIFTED), Term::Var(0), number(1))
}

fn validity(parts: Result<ProgramParts, AllocError>) -> Result<bool, AllocError> {
    parts?.valid()
}

/// The parts are valid, or aren't, as they should be.
pub(crate) fn expect_parts<R: Abort>(rt: &R, right: bool, parts: Result<ProgramParts, AllocError>) {
    assert_eq!(rt; validity(parts).ok(), Some(right));
}

/// `f x` may have this right side, or may not, as it should be.
pub(crate) fn expect<R: Abort>(rt: &R, alloc: Global, right: bool, body: Result<Term, AllocError>) {
    expect_parts(rt, right, sample(alloc, body));
}

pub(crate) fn expect_length<R: Abort>(rt: &R, found: usize, length: usize) {
    assert_eq!(rt; found, length);
}
