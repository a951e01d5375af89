//! Programs of functions without parameters that mention one another.

use cu_kernel::{ConId, DataType, FunId, Function, Head, Program, ProgramParts, Special, Term};
use cu_names::Names;
use samples::{
    TRUE, and, both, constant, marks, modules, of_rules, one, plain_types, rule, values_type,
};
use std::alloc::{AllocError, Global};

/// The built-in entities, with the constructor of the values of set functions.
pub(crate) const ENTITIES: Special = Special {
    values: Some(ConId(19)),
    ..samples::ENTITIES
};

pub(crate) fn plain(function: usize) -> Head {
    Head::Fun(FunId(function))
}

pub(crate) fn set(function: usize) -> Head {
    Head::Set(FunId(function))
}

/// The types that every program begins with, `Bool`, and that of the values of
/// set functions.
pub(crate) fn types(alloc: Global) -> Result<Vec<DataType>, AllocError> {
    let mut names = Names::new(alloc);
    let plain = plain_types(alloc, &mut names);
    and(plain, values_type(alloc, &mut names))
}

/// True, or a call of one of these.
fn choice(alloc: Global, heads: &[Head]) -> Result<Term, AllocError> {
    let mut body = constant(alloc, TRUE);
    for head in heads {
        let call = Term::Whole(*head, Vec::new(alloc));
        body = Term::Or(Box::new(alloc, call)?, Box::new(alloc, body)?);
    }
    Ok(body)
}

/// A function without parameters that mentions these.
fn chooser(alloc: Global, heads: &[Head]) -> Result<Function, AllocError> {
    let body = choice(alloc, heads);
    of_rules(0, one(alloc, rule(Ok(Vec::new(alloc)), body)))
}

/// `&&`, and after it functions that mention these heads.
fn functions(alloc: Global, rows: &[&[Head]]) -> Result<Vec<Function>, AllocError> {
    let mut functions = one(alloc, both(alloc))?;
    for heads in rows {
        functions.push(chooser(alloc, heads)?)?;
    }
    Ok(functions)
}

fn parts(alloc: Global, functions: Vec<Function>) -> Result<ProgramParts, AllocError> {
    let marks = marks(alloc, functions.len())?;
    Ok(ProgramParts {
        types: types(alloc)?,
        functions,
        synonyms: Vec::new(alloc),
        modules: modules(alloc)?,
        marks,
        goal: None,
        special: ENTITIES,
    })
}

/// A program of these functions, of which the first is `&&`, if it is valid.
pub(crate) fn program_of(
    alloc: Global,
    functions: Vec<Function>,
) -> Result<Option<Program>, AllocError> {
    samples::program_of(parts(alloc, functions)?)
}

/// A program of `&&` and of functions that mention these.
pub(crate) fn program(alloc: Global, rows: &[&[Head]]) -> Result<Option<Program>, AllocError> {
    let functions = functions(alloc, rows)?;
    program_of(alloc, functions)
}
