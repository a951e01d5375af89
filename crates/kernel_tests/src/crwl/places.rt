//! Indices of steps, what a proof may speak of, and its conclusion.

use super::draft::{
    Bindings, Draft, Made, Worth, constant, expect, int, number, on_one, on_two, one_binding,
    one_value, pair, pair_of, partial_on_one, partial_on_two, two_bindings, unknown, variable,
};
use super::sample::{LOOP, PAIR, PLUS};
use cu_crwl::{Statement, conclusion};
use cu_kernel::{Head, Int, Lit, Term};
use cu_values::Cell;
use std::alloc::{AllocError, Global};
use std::process::Abort;

/// `loop` has a value, by a step that cites itself.
fn from_itself(alloc: Global, value: Worth) -> Draft {
    let mut draft = Draft::new(alloc);
    draft.step(&[0], constant(alloc, Head::Fun(LOOP)), value);
    draft
}

/// `loop` is 0, since a later step says so.
fn from_later(alloc: Global) -> Draft {
    let looping = Head::Fun(LOOP);
    let mut draft = Draft::new(alloc);
    draft.step(&[1], constant(alloc, looping), number(alloc, 0));
    draft.step(&[0], constant(alloc, looping), number(alloc, 0));
    draft
}

/// `loop` isn't known by its rule, since it isn't known by the row for Bottom.
fn from_unknown(alloc: Global) -> Draft {
    let looping = Head::Fun(LOOP);
    let mut draft = Draft::new(alloc);
    let by_bottom = draft.step(&[], constant(alloc, looping), unknown(alloc));
    draft.step(&[by_bottom], constant(alloc, looping), unknown(alloc));
    draft
}

/// `(1, 2)` is worth itself, by the steps with these indices.
fn from_places(alloc: Global, cites: &[usize]) -> Draft {
    let mut draft = Draft::new(alloc);
    draft.int(1);
    draft.int(2);
    draft.pair(cites, (1, 2));
    draft
}

/// 0 is worth itself, beside a step of which it makes no use.
fn beside_step(alloc: Global, value: Int) -> Draft {
    let mut draft = Draft::new(alloc);
    draft.step(&[], int(5), number(alloc, value));
    draft.int(0);
    draft
}

#[test]
fn steps_cite_earlier_ones_in_order(rt: HostRuntime) {
    let alloc = rt.alloc();
    expect(&rt, true, from_unknown(alloc));
    expect(&rt, false, from_itself(alloc, number(alloc, 0)));
    expect(&rt, false, from_itself(alloc, unknown(alloc)));
    expect(&rt, false, from_later(alloc));
    expect(&rt, true, from_places(alloc, &[0, 1]));
    expect(&rt, false, from_places(alloc, &[1, 0]));
    expect(&rt, false, from_places(alloc, &[0]));
    expect(&rt, false, from_places(alloc, &[0, 7]));
    expect(&rt, true, beside_step(alloc, 5));
    expect(&rt, false, beside_step(alloc, 6));
}

/// A term isn't known where variables stand for these.
fn of_unknown(alloc: Global, env: Bindings, term: Made) -> Draft {
    let mut draft = Draft::new(alloc);
    draft.step_with(env, &[], term, unknown(alloc));
    draft
}

#[test]
fn statements_are_the_programs(rt: HostRuntime) {
    let alloc = rt.alloc();
    let whole = on_two(alloc, Head::Fun(PLUS), int(1), int(2));
    expect(&rt, true, of_unknown(alloc, Ok(Vec::new(alloc)), whole));
    let short = on_one(alloc, Head::Fun(PLUS), int(1));
    expect(&rt, false, of_unknown(alloc, Ok(Vec::new(alloc)), short));
    let open = Ok(Term::Var(7));
    expect(&rt, true, of_unknown(alloc, Ok(Vec::new(alloc)), open));
    let plus = Head::Fun(PLUS);
    let right = one_binding(alloc, 0, partial_on_one(alloc, plus, number(alloc, 1)));
    expect(&rt, true, of_unknown(alloc, right, variable(0)));
    let full = partial_on_two(alloc, plus, number(alloc, 1), number(alloc, 2));
    let full = one_binding(alloc, 0, full);
    expect(&rt, false, of_unknown(alloc, full, variable(0)));
    let short = one_binding(alloc, 0, one_value(alloc, PAIR, number(alloc, 1)));
    expect(&rt, false, of_unknown(alloc, short, variable(0)));
    let rising = two_bindings(alloc, 0, number(alloc, 1), 1, number(alloc, 1));
    expect(&rt, true, of_unknown(alloc, rising, variable(0)));
    let falling = two_bindings(alloc, 1, number(alloc, 1), 0, number(alloc, 1));
    expect(&rt, false, of_unknown(alloc, falling, variable(0)));
    let repeated = two_bindings(alloc, 0, number(alloc, 1), 0, number(alloc, 1));
    expect(&rt, false, of_unknown(alloc, repeated, variable(0)));
}

/// Whether a statement says that the variable 0 is 2, and binds no other
/// variable.
fn is_use_of_two(statement: &Statement) -> bool {
    let is_variable = match statement.term {
        Term::Var(x) => x == 0,
        _ => false,
    };
    is_variable && statement.env.len() == 1 && statement.value.head() == Cell::Lit(Lit::Int(2))
}

/// Whether a proof whose last step says that the variable 0 is 2 proves that.
fn concludes_use_of_two<R: Abort>(rt: &R, alloc: Global) -> Result<bool, AllocError> {
    let mut draft = Draft::new(alloc);
    draft.int(1);
    draft.use_of_zero(2);
    let (_, proof) = draft.finish(rt)?;
    let statement = conclusion(alloc, &proof)?;
    Ok(is_use_of_two(&statement))
}

#[test]
fn the_last_statement_is_the_conclusion(rt: HostRuntime) {
    assert_eq!(rt; concludes_use_of_two(&rt, rt.alloc()).ok(), Some(true));
}
