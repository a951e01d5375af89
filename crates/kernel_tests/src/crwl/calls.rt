//! Literals, and calls of functions with rules.

use super::draft::{
    Draft, constant, expect, int, number, on_one, on_two, one_binding, truth, two_bindings,
    unknown, variable,
};
use super::sample::{BOTH, COIN, DOUBLE, KEEP, PLUS};
use cu_kernel::{ConId, Head, Int};
use samples::{FALSE, TRUE};
use std::alloc::Global;

/// `0` has a value.
fn zero(alloc: Global, value: Int) -> Draft {
    let mut draft = Draft::new(alloc);
    draft.step(&[], int(0), number(alloc, value));
    draft
}

/// `double coin` has a value, where `coin` gives a number, and the uses of
/// the variable give two.
fn doubled(alloc: Global, given: Int, uses: (Int, Int), value: Int) -> Draft {
    let coin = Head::Fun(COIN);
    let mut draft = Draft::new(alloc);
    let number_given = draft.int(given);
    let coin_given = draft.step(&[number_given], constant(alloc, coin), number(alloc, given));
    let first_use = draft.use_of_zero(uses.0);
    let second_use = draft.use_of_zero(uses.1);
    let body = draft.step_with(
        one_binding(alloc, 0, number(alloc, given)),
        &[first_use, second_use],
        on_two(alloc, Head::Fun(PLUS), variable(0), variable(0)),
        number(alloc, value),
    );
    draft.step(
        &[coin_given, body],
        on_one(alloc, Head::Fun(DOUBLE), constant(alloc, coin)),
        number(alloc, value),
    );
    draft
}

/// `coin + coin` has a value, where the two calls give 0 and 1.
fn added(alloc: Global, value: Int) -> Draft {
    let coin = Head::Fun(COIN);
    let mut draft = Draft::new(alloc);
    let zero = draft.int(0);
    let one = draft.int(1);
    let coin_zero = draft.step(&[zero], constant(alloc, coin), number(alloc, 0));
    let coin_one = draft.step(&[one], constant(alloc, coin), number(alloc, 1));
    draft.step(
        &[coin_zero, coin_one],
        on_two(
            alloc,
            Head::Fun(PLUS),
            constant(alloc, coin),
            constant(alloc, coin),
        ),
        number(alloc, value),
    );
    draft
}

#[test]
fn an_argument_is_chosen_once(rt: HostRuntime) {
    let alloc = rt.alloc();
    expect(&rt, true, zero(alloc, 0));
    expect(&rt, false, zero(alloc, 1));
    expect(&rt, true, doubled(alloc, 0, (0, 0), 0));
    expect(&rt, true, doubled(alloc, 1, (1, 1), 2));
    expect(&rt, false, doubled(alloc, 0, (0, 1), 1));
    expect(&rt, false, doubled(alloc, 1, (0, 1), 1));
    expect(&rt, true, added(alloc, 1));
    expect(&rt, false, added(alloc, 2));
}

fn truth_constructor(holds: bool) -> ConId {
    if holds { TRUE } else { FALSE }
}

/// `a && b` has a value: the second argument's, by the first rule, or False,
/// by the second.
fn joined(alloc: Global, left: bool, right: bool, by_first: bool, value: bool) -> Draft {
    let first = Head::Con(truth_constructor(left));
    let second = Head::Con(truth_constructor(right));
    let body = if by_first {
        variable(0)
    } else {
        constant(alloc, Head::Con(FALSE))
    };
    let mut draft = Draft::new(alloc);
    let left_side = draft.step(&[], constant(alloc, first), truth(alloc, left));
    let right_side = draft.step(&[], constant(alloc, second), truth(alloc, right));
    let right_side_of_rule = draft.step_with(
        one_binding(alloc, 0, truth(alloc, right)),
        &[],
        body,
        truth(alloc, value),
    );
    draft.step(
        &[left_side, right_side, right_side_of_rule],
        on_two(
            alloc,
            Head::Fun(BOTH),
            constant(alloc, first),
            constant(alloc, second),
        ),
        truth(alloc, value),
    );
    draft
}

/// `coin && True` is False by the second rule, where `coin` isn't known.
fn joined_with_unknown(alloc: Global) -> Draft {
    let coin = Head::Fun(COIN);
    let yes = Head::Con(TRUE);
    let no = Head::Con(FALSE);
    let mut draft = Draft::new(alloc);
    let left_side = draft.step(&[], constant(alloc, coin), unknown(alloc));
    let right_side = draft.step(&[], constant(alloc, yes), truth(alloc, true));
    let right_side_of_rule = draft.step_with(
        one_binding(alloc, 0, truth(alloc, true)),
        &[],
        constant(alloc, no),
        truth(alloc, false),
    );
    draft.step(
        &[left_side, right_side, right_side_of_rule],
        on_two(
            alloc,
            Head::Fun(BOTH),
            constant(alloc, coin),
            constant(alloc, yes),
        ),
        truth(alloc, false),
    );
    draft
}

/// `keep 1 coin` is 1, where `coin` gives something, and the second variable
/// stands for something.
fn kept(alloc: Global, coin_is_known: bool, bound_to: Option<Int>) -> Draft {
    let coin = Head::Fun(COIN);
    let mut draft = Draft::new(alloc);
    let one = draft.int(1);
    let coin_given = if coin_is_known {
        draft.step(&[one], constant(alloc, coin), number(alloc, 1))
    } else {
        draft.step(&[], constant(alloc, coin), unknown(alloc))
    };
    let second = match bound_to {
        Some(n) => number(alloc, n),
        None => unknown(alloc),
    };
    let body = draft.step_with(
        two_bindings(alloc, 0, number(alloc, 1), 1, second),
        &[],
        variable(0),
        number(alloc, 1),
    );
    draft.step(
        &[one, coin_given, body],
        on_two(alloc, Head::Fun(KEEP), int(1), constant(alloc, coin)),
        number(alloc, 1),
    );
    draft
}

#[test]
fn a_rule_is_for_what_its_patterns_match(rt: HostRuntime) {
    let alloc = rt.alloc();
    expect(&rt, true, joined(alloc, true, true, true, true));
    expect(&rt, true, joined(alloc, true, false, true, false));
    expect(&rt, true, joined(alloc, false, true, false, false));
    expect(&rt, false, joined(alloc, false, true, true, true));
    expect(&rt, false, joined(alloc, true, true, false, false));
    expect(&rt, false, joined_with_unknown(alloc));
    expect(&rt, true, kept(alloc, false, None));
    expect(&rt, true, kept(alloc, true, Some(1)));
    expect(&rt, false, kept(alloc, false, Some(1)));
    expect(&rt, false, kept(alloc, true, None));
}
