//! Programs and what stands in them beside terms: the conjunction, the
//! built-in constructors, marks and goals.

use crate::kernel_sample::{
    CONSTRUCTORS, LIFTED, PLUS, TYPES, call, case_rule, expect_length, expect_parts, functions,
    lifted, marks, parts_of, plain, top_functions, top_marks,
};
use cu_kernel::{ConId, FunId, Goal, Mark, Mode, Program, ProgramParts, Rule, Special};
use cu_names::NameId;
use samples::{
    CONS, ENTITIES, FALSE, TRUE, and, false_rule, mark, of_rules, one, program_of, true_rule,
};
use std::alloc::{AllocError, Global};
use std::process::Abort;

/// The sample, with one parameter more than the rule of its last function has.
fn with_larger_arity(alloc: Global) -> Result<ProgramParts, AllocError> {
    let top = top_functions(alloc, call(alloc));
    parts_of(alloc, and(top, lifted(alloc, 3)), marks(alloc))
}

#[test]
fn the_sample_is_valid(rt: HostRuntime) {
    let alloc = rt.alloc();
    expect_parts(&rt, true, plain(alloc));
    expect_parts(&rt, false, with_larger_arity(alloc));
}

/// The sample as a program, if it is valid.
fn program(alloc: Global) -> Result<Option<Program>, AllocError> {
    program_of(plain(alloc)?)
}

fn type_of(program: &Program, number: usize) -> Option<usize> {
    match program.constructor(ConId(number)) {
        Some(placed) => Some(placed.of_type.0),
        None => None,
    }
}

fn read<R: Abort>(rt: &R, program: &Program) {
    assert_eq!(rt; type_of(program, 1), Some(0));
    assert_eq!(rt; type_of(program, 2), Some(1));
    assert_eq!(rt; type_of(program, 16), Some(15));
    assert_eq!(rt; type_of(program, 17), Some(18));
    assert_eq!(rt; type_of(program, CONSTRUCTORS), None);
    expect_length(rt, program.types().len(), TYPES);
    expect_length(rt, program.functions().len(), 4);
    expect_length(rt, program.synonyms().len(), 0);
    expect_length(rt, program.modules().len(), 1);
    expect_length(rt, program.marks().len(), 4);
    assert!(rt; program.goal().is_none());
    assert!(rt; program.special().cons == CONS);
}

#[test]
fn a_program_is_read(rt: HostRuntime) {
    match program(rt.alloc()) {
        Ok(Some(program)) => read(&rt, &program),
        _ => panic!(rt; "no program"),
    }
}

/// The sample with another operation as its conjunction.
fn with_both(
    alloc: Global,
    rules: Result<Vec<Rule>, AllocError>,
) -> Result<ProgramParts, AllocError> {
    let functions = functions(alloc, call(alloc));
    let functions = and(functions, of_rules(2, rules));
    let mut parts = parts_of(alloc, functions, and(marks(alloc), Ok(mark(0, 0))))?;
    parts.special = Special {
        both: FunId(4),
        ..ENTITIES
    };
    Ok(parts)
}

#[test]
fn conjunction_has_its_rules(rt: HostRuntime) {
    let alloc = rt.alloc();
    let right = and(one(alloc, true_rule(alloc)), false_rule(alloc));
    expect_parts(&rt, true, with_both(alloc, right));
    let swapped = and(one(alloc, false_rule(alloc)), true_rule(alloc));
    expect_parts(&rt, false, with_both(alloc, swapped));
    let short = one(alloc, true_rule(alloc));
    expect_parts(&rt, false, with_both(alloc, short));
    let flexible = one(alloc, case_rule(alloc, Mode::Flex));
    expect_parts(&rt, true, with_both(alloc, flexible));
    let rigid = one(alloc, case_rule(alloc, Mode::Rigid));
    expect_parts(&rt, false, with_both(alloc, rigid));
}

fn with_special(alloc: Global, special: Special) -> Result<ProgramParts, AllocError> {
    let mut parts = plain(alloc)?;
    parts.special = special;
    Ok(parts)
}

const SWAPPED: Special = Special {
    falsity: TRUE,
    truth: FALSE,
    ..ENTITIES
};

const TWO_CONS: Special = Special {
    nil: CONS,
    ..ENTITIES
};

const CONS_OF_VALUES: Special = Special {
    values: Some(CONS),
    ..ENTITIES
};

#[test]
fn special_entities_are_there(rt: HostRuntime) {
    let alloc = rt.alloc();
    expect_parts(&rt, false, with_special(alloc, SWAPPED));
    expect_parts(&rt, false, with_special(alloc, TWO_CONS));
    expect_parts(&rt, false, with_special(alloc, CONS_OF_VALUES));
    expect_parts(&rt, true, with_special(alloc, ENTITIES));
}

/// The sample with two of its first types exchanged.
fn with_swapped(alloc: Global, first: usize, second: usize) -> Result<ProgramParts, AllocError> {
    let mut parts = plain(alloc)?;
    if first < parts.types.len() && second < parts.types.len() {
        parts.types.swap(first, second);
    }
    Ok(parts)
}

/// The sample with a type in another module.
fn with_module(alloc: Global, place: usize) -> Result<ProgramParts, AllocError> {
    let mut parts = plain(alloc)?;
    if let Some(data_type) = parts.types.get_mut(place) {
        data_type.module = 1;
    }
    Ok(parts)
}

#[test]
fn the_first_types_are_built_in(rt: HostRuntime) {
    let alloc = rt.alloc();
    expect_parts(&rt, false, with_swapped(alloc, 2, 3));
    expect_parts(&rt, false, with_swapped(alloc, 1, 16));
    expect_parts(&rt, false, with_swapped(alloc, 17, 18));
    expect_parts(&rt, true, with_swapped(alloc, 16, 17));
    expect_parts(&rt, false, with_module(alloc, 5));
}

/// The sample with these marks.
fn with_marks(
    alloc: Global,
    marks: Result<Vec<Mark>, AllocError>,
) -> Result<ProgramParts, AllocError> {
    parts_of(alloc, functions(alloc, call(alloc)), marks)
}

/// The sample with another mark of its last function.
fn with_mark(alloc: Global, mark: Mark) -> Result<ProgramParts, AllocError> {
    with_marks(alloc, and(top_marks(alloc), Ok(mark)))
}

#[test]
fn marks_match_the_functions(rt: HostRuntime) {
    let alloc = rt.alloc();
    expect_parts(&rt, false, with_marks(alloc, top_marks(alloc)));
    expect_parts(&rt, true, with_mark(alloc, mark(0, 2)));
    expect_parts(&rt, false, with_mark(alloc, mark(0, 3)));
    expect_parts(&rt, false, with_mark(alloc, mark(1, 0)));
}

/// A goal with so many names.
fn goal(alloc: Global, function: FunId, count: usize) -> Result<Goal, AllocError> {
    let mut names = Vec::new(alloc);
    for place in 0..count {
        names.push(NameId(place))?;
    }
    Ok(Goal { function, names })
}

fn with_goal(alloc: Global, goal: Result<Goal, AllocError>) -> Result<ProgramParts, AllocError> {
    let goal = goal?;
    let mut parts = plain(alloc)?;
    parts.goal = Some(goal);
    Ok(parts)
}

fn expect_goal<R: Abort>(rt: &R, alloc: Global, right: bool, goal: Result<Goal, AllocError>) {
    expect_parts(rt, right, with_goal(alloc, goal));
}

#[test]
fn a_goal_names_its_parameters(rt: HostRuntime) {
    let alloc = rt.alloc();
    expect_goal(&rt, alloc, true, goal(alloc, LIFTED, 2));
    expect_goal(&rt, alloc, false, goal(alloc, LIFTED, 1));
    expect_goal(&rt, alloc, false, goal(alloc, PLUS, 2));
    expect_goal(&rt, alloc, false, goal(alloc, FunId(4), 0));
}
