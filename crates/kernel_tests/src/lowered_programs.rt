//! Flat programs, worked out by hand from the rules of definitional trees.

use crate::chooser_programs::program_of;
use crate::kernel_functions::{functions, with_large, without_equal};
use cu_deftree::LowerFault;
use cu_flat::{Expr, ExprId, FlatProgram, Pattern};
use cu_kernel::{ConId, FunId, Function, Head, Int, Lit, Mode, Program};
use samples::{CONS, FALSE, NIL, TRUE};
use std::alloc::{AllocError, Global};
use std::process::Abort;

const FAILED: Head = Head::Fun(FunId(1));

const EQUAL: Head = Head::Fun(FunId(2));

/// An expression that is wanted. Its parts are named by how far they stand
/// after the first expression of their function.
#[derive(Clone, Copy)]
enum Expected<'a> {
    Variable(u32),
    Number(Int),
    Call(Head, &'a [usize]),
    Either(usize, usize),
    Bound(u32, usize, usize),
    Cases(Mode, usize, &'a [Branch<'a>]),
}

/// A branch that is wanted.
#[derive(Clone, Copy)]
enum Branch<'a> {
    Number(Int, usize),
    Constructor(ConId, &'a [u32], usize),
}

/// Whether an index is this far after that of a function's first expression.
fn is_at(first: usize, found: ExprId, expected: usize) -> bool {
    found.0 == first.saturating_add(expected)
}

fn are_at(first: usize, found: &[ExprId], expected: &[usize]) -> bool {
    found.len() == expected.len()
        && found
            .iter()
            .zip(expected)
            .all(|(one, place)| is_at(first, *one, *place))
}

fn is_branch(first: usize, found: &(Pattern, ExprId), expected: Branch) -> bool {
    match (&found.0, expected) {
        (Pattern::Lit(literal), Branch::Number(n, body)) => {
            *literal == Lit::Int(n) && is_at(first, found.1, body)
        }
        (Pattern::Con(constructor, variables), Branch::Constructor(expected, names, body)) => {
            *constructor == expected && variables.as_slice() == names && is_at(first, found.1, body)
        }
        _ => false,
    }
}

fn are_branches(first: usize, found: &[(Pattern, ExprId)], expected: &[Branch]) -> bool {
    found.len() == expected.len()
        && found
            .iter()
            .zip(expected)
            .all(|(one, branch)| is_branch(first, one, *branch))
}

fn is_like(first: usize, found: &Expr, expected: Expected) -> bool {
    match (found, expected) {
        (Expr::Var(x), Expected::Variable(y)) => *x == y,
        (Expr::Lit(literal), Expected::Number(n)) => *literal == Lit::Int(n),
        (Expr::Whole(head, parts), Expected::Call(expected, places)) => {
            *head == expected && are_at(first, parts.as_slice(), places)
        }
        (Expr::Or(left, right), Expected::Either(one, other)) => {
            is_at(first, *left, one) && is_at(first, *right, other)
        }
        (Expr::Let(x, value, body), Expected::Bound(y, one, other)) => {
            *x == y && is_at(first, *value, one) && is_at(first, *body, other)
        }
        (Expr::Case(mode, scrutinee, branches), Expected::Cases(expected, one, rows)) => {
            *mode == expected
                && is_at(first, *scrutinee, one)
                && are_branches(first, branches.as_slice(), rows)
        }
        _ => false,
    }
}

/// The flat program of these functions, or why there is none; None where they
/// make no program, or one without `failed` or `==`.
fn lowered(
    alloc: Global,
    functions: Result<Vec<Function>, AllocError>,
) -> Option<Result<FlatProgram, LowerFault>> {
    match program_with(alloc, functions) {
        Ok(Some(program)) => samples::lowered(alloc, &program),
        _ => None,
    }
}

fn program_with(
    alloc: Global,
    functions: Result<Vec<Function>, AllocError>,
) -> Result<Option<Program>, AllocError> {
    program_of(alloc, functions?)
}

/// The expressions of a function, which begin at this index.
fn expect<R: Abort>(rt: &R, flat: &FlatProgram, first: usize, expected: &[Expected]) {
    for (index, one) in expected.iter().enumerate() {
        match flat.find(ExprId(first.saturating_add(index))) {
            Some(found) => assert!(rt; is_like(first, found, *one)),
            None => panic!(rt; "no such expression"),
        }
    }
}

/// Rules that overlap, and rules over lists.
fn expect_lists<R: Abort>(rt: &R, flat: &FlatProgram) {
    let both: &[Expected] = &[
        Expected::Variable(1),
        Expected::Call(Head::Con(FALSE), &[]),
        Expected::Variable(2),
        Expected::Cases(
            Mode::Flex,
            0,
            &[
                Branch::Constructor(FALSE, &[], 1),
                Branch::Constructor(TRUE, &[], 2),
            ],
        ),
    ];
    expect(rt, flat, 0, both);
    let zero_or_any: &[Expected] = &[
        Expected::Variable(1),
        Expected::Number(1),
        Expected::Cases(Mode::Flex, 0, &[Branch::Number(0, 1)]),
        Expected::Number(2),
        Expected::Either(2, 3),
    ];
    expect(rt, flat, 4, zero_or_any);
    let first_of_list: &[Expected] = &[
        Expected::Variable(1),
        Expected::Number(0),
        Expected::Variable(2),
        Expected::Cases(
            Mode::Flex,
            0,
            &[
                Branch::Constructor(NIL, &[], 1),
                Branch::Constructor(CONS, &[2, 3], 2),
            ],
        ),
    ];
    expect(rt, flat, 9, first_of_list);
    let second_of_list: &[Expected] = &[
        Expected::Variable(1),
        Expected::Variable(3),
        Expected::Variable(4),
        Expected::Cases(Mode::Flex, 1, &[Branch::Constructor(CONS, &[4, 5], 2)]),
        Expected::Cases(Mode::Flex, 0, &[Branch::Constructor(CONS, &[2, 3], 3)]),
    ];
    expect(rt, flat, 13, second_of_list);
}

/// Literals, and positions that not all rules demand.
fn expect_positions<R: Abort>(rt: &R, flat: &FlatProgram) {
    let by_literals: &[Expected] = &[
        Expected::Variable(1),
        Expected::Number(0),
        Expected::Number(2),
        Expected::Either(1, 2),
        Expected::Number(1),
        Expected::Cases(Mode::Flex, 0, &[Branch::Number(5, 3), Branch::Number(3, 4)]),
    ];
    expect(rt, flat, 18, by_literals);
    let by_either: &[Expected] = &[
        Expected::Variable(1),
        Expected::Number(1),
        Expected::Cases(Mode::Flex, 0, &[Branch::Constructor(TRUE, &[], 1)]),
        Expected::Variable(2),
        Expected::Number(2),
        Expected::Cases(Mode::Flex, 3, &[Branch::Constructor(TRUE, &[], 4)]),
        Expected::Either(2, 5),
    ];
    expect(rt, flat, 24, by_either);
    let by_second: &[Expected] = &[
        Expected::Variable(2),
        Expected::Number(1),
        Expected::Variable(1),
        Expected::Number(2),
        Expected::Cases(Mode::Flex, 2, &[Branch::Constructor(TRUE, &[], 3)]),
        Expected::Cases(
            Mode::Flex,
            0,
            &[
                Branch::Constructor(FALSE, &[], 1),
                Branch::Constructor(TRUE, &[], 4),
            ],
        ),
    ];
    expect(rt, flat, 31, by_second);
}

/// Case distinctions in right sides, and a function without rules.
fn expect_cases<R: Abort>(rt: &R, flat: &FlatProgram) {
    let true_or_variable: &[Expected] = &[
        Expected::Variable(1),
        Expected::Variable(1),
        Expected::Number(1),
        Expected::Cases(
            Mode::Rigid,
            0,
            &[
                Branch::Constructor(FALSE, &[], 1),
                Branch::Constructor(TRUE, &[], 2),
            ],
        ),
    ];
    expect(rt, flat, 37, true_or_variable);
    let three_or_variable: &[Expected] = &[
        Expected::Variable(1),
        Expected::Number(3),
        Expected::Call(EQUAL, &[0, 1]),
        Expected::Number(1),
        Expected::Variable(1),
        Expected::Cases(
            Mode::Rigid,
            2,
            &[
                Branch::Constructor(TRUE, &[], 3),
                Branch::Constructor(FALSE, &[], 4),
            ],
        ),
    ];
    expect(rt, flat, 41, three_or_variable);
    let case_on_number: &[Expected] = &[
        Expected::Number(7),
        Expected::Variable(1),
        Expected::Number(1),
        Expected::Cases(Mode::Rigid, 1, &[Branch::Number(7, 2)]),
        Expected::Bound(1, 0, 3),
    ];
    expect(rt, flat, 47, case_on_number);
    expect(rt, flat, 52, &[Expected::Call(FAILED, &[])]);
}

#[test]
fn functions_become_trees(rt: HostRuntime) {
    let Some(Ok(flat)) = lowered(rt.alloc(), functions(rt.alloc())) else {
        panic!(rt; "no flat program");
    };
    assert_eq!(rt; flat.expr_count(), 53);
    expect_lists(&rt, &flat);
    expect_positions(&rt, &flat);
    expect_cases(&rt, &flat);
}

/// How many expressions the flat program has whose last function has 65,535
/// and one for each of so many free variables, or which function is too big.
fn size_with(alloc: Global, free: u32) -> Option<Result<usize, FunId>> {
    match lowered(alloc, with_large(alloc, free)) {
        Some(Ok(flat)) => Some(Ok(flat.expr_count())),
        Some(Err(LowerFault::TreeTooBig(f))) => Some(Err(f)),
        _ => None,
    }
}

#[test]
fn a_function_has_so_many_expressions_at_most(rt: HostRuntime) {
    assert!(rt; size_with(rt.alloc(), 1) == Some(Ok(65_540)));
    assert!(rt; size_with(rt.alloc(), 2) == Some(Err(FunId(3))));
}

#[test]
fn lowering_asks_for_its_operations(rt: HostRuntime) {
    assert!(rt; lowered(rt.alloc(), without_equal(rt.alloc())).is_none());
}
