//! `==`, `=:=` and `&`.

use super::draft::{
    Bindings, Draft, Made, Worth, character, constant, constructed, expect, int, letter, list,
    number, on_two, one_binding, pair, pair_of, part_on_one, partial_on_one, truth, unknown,
    variable,
};
use super::sample::{AND, COIN, EQUAL, PAIR, PLUS, UNIFY};
use cu_kernel::{FunId, Head, Int};
use cu_values::Value;
use samples::{CONS, FALSE, NIL, TRUE};
use std::alloc::Global;

/// An operation on two pairs of numbers has a value.
fn of_pairs(
    alloc: Global,
    operation: FunId,
    left: (Int, Int),
    right: (Int, Int),
    verdict: bool,
) -> Draft {
    let mut draft = Draft::new(alloc);
    let left_first = draft.int(left.0);
    let left_second = draft.int(left.1);
    let right_first = draft.int(right.0);
    let right_second = draft.int(right.1);
    let left_pair = draft.pair(&[left_first, left_second], left);
    let right_pair = draft.pair(&[right_first, right_second], right);
    draft.step(
        &[left_pair, right_pair],
        on_two(
            alloc,
            Head::Fun(operation),
            pair(alloc, left.0, left.1),
            pair(alloc, right.0, right.1),
        ),
        truth(alloc, verdict),
    );
    draft
}

#[test]
fn pairs_that_are_the_same(rt: HostRuntime) {
    let alloc = rt.alloc();
    expect(&rt, true, of_pairs(alloc, EQUAL, (1, 2), (1, 2), true));
    expect(&rt, false, of_pairs(alloc, EQUAL, (1, 2), (1, 2), false));
    expect(&rt, true, of_pairs(alloc, UNIFY, (1, 2), (1, 2), true));
    expect(&rt, false, of_pairs(alloc, UNIFY, (1, 2), (1, 2), false));
}

#[test]
fn pairs_that_differ(rt: HostRuntime) {
    let alloc = rt.alloc();
    expect(&rt, true, of_pairs(alloc, EQUAL, (1, 2), (1, 3), false));
    expect(&rt, false, of_pairs(alloc, EQUAL, (1, 2), (1, 3), true));
    expect(&rt, false, of_pairs(alloc, UNIFY, (1, 2), (1, 3), true));
    expect(&rt, false, of_pairs(alloc, UNIFY, (1, 2), (1, 3), false));
    expect(&rt, true, of_pairs(alloc, EQUAL, (1, 2), (3, 2), false));
    expect(&rt, false, of_pairs(alloc, EQUAL, (1, 2), (3, 2), true));
    expect(&rt, false, of_pairs(alloc, UNIFY, (1, 2), (3, 2), true));
}

/// An operation on two lists of one number each has a value.
fn of_lists(alloc: Global, operation: FunId, left: Int, right: Int, verdict: bool) -> Draft {
    let mut draft = Draft::new(alloc);
    let left_number = draft.int(left);
    let right_number = draft.int(right);
    let nil = draft.step(
        &[],
        constant(alloc, Head::Con(NIL)),
        constructed(alloc, NIL),
    );
    let left_list = draft.short_list(&[left_number, nil], left);
    let right_list = draft.short_list(&[right_number, nil], right);
    draft.step(
        &[left_list, right_list],
        on_two(
            alloc,
            Head::Fun(operation),
            on_two(
                alloc,
                Head::Con(CONS),
                int(left),
                constant(alloc, Head::Con(NIL)),
            ),
            on_two(
                alloc,
                Head::Con(CONS),
                int(right),
                constant(alloc, Head::Con(NIL)),
            ),
        ),
        truth(alloc, verdict),
    );
    draft
}

/// `[] == [0]` has a value.
fn of_lengths(alloc: Global, verdict: bool) -> Draft {
    let nil = Head::Con(NIL);
    let mut draft = Draft::new(alloc);
    let zero = draft.int(0);
    let empty = draft.step(&[], constant(alloc, nil), constructed(alloc, NIL));
    let longer = draft.short_list(&[zero, empty], 0);
    draft.step(
        &[empty, longer],
        on_two(
            alloc,
            Head::Fun(EQUAL),
            constant(alloc, nil),
            on_two(alloc, Head::Con(CONS), int(0), constant(alloc, nil)),
        ),
        truth(alloc, verdict),
    );
    draft
}

#[test]
fn lists_of_few_numbers(rt: HostRuntime) {
    let alloc = rt.alloc();
    expect(&rt, true, of_lists(alloc, EQUAL, 0, 1, false));
    expect(&rt, false, of_lists(alloc, EQUAL, 0, 1, true));
    expect(&rt, true, of_lists(alloc, UNIFY, 3, 3, true));
    expect(&rt, false, of_lists(alloc, UNIFY, 3, 4, true));
    expect(&rt, true, of_lengths(alloc, false));
    expect(&rt, false, of_lengths(alloc, true));
}

/// `(coin, 1) == (coin, 2)` is False, where `coin` isn't known.
fn unknown_first(alloc: Global) -> Draft {
    let coin = Head::Fun(COIN);
    let mut draft = Draft::new(alloc);
    let unknown_coin = draft.step(&[], constant(alloc, coin), unknown(alloc));
    let one = draft.int(1);
    let two = draft.int(2);
    let left_pair = draft.step(
        &[unknown_coin, one],
        on_two(alloc, Head::Con(PAIR), constant(alloc, coin), int(1)),
        pair_of(alloc, unknown(alloc), number(alloc, 1)),
    );
    let right_pair = draft.step(
        &[unknown_coin, two],
        on_two(alloc, Head::Con(PAIR), constant(alloc, coin), int(2)),
        pair_of(alloc, unknown(alloc), number(alloc, 2)),
    );
    draft.step(
        &[left_pair, right_pair],
        on_two(
            alloc,
            Head::Fun(EQUAL),
            on_two(alloc, Head::Con(PAIR), constant(alloc, coin), int(1)),
            on_two(alloc, Head::Con(PAIR), constant(alloc, coin), int(2)),
        ),
        truth(alloc, false),
    );
    draft
}

/// `(m, coin) == (n, coin)` has a value, where `coin` isn't known.
fn unknown_second(alloc: Global, left: Int, right: Int, verdict: bool) -> Draft {
    let coin = Head::Fun(COIN);
    let mut draft = Draft::new(alloc);
    let unknown_coin = draft.step(&[], constant(alloc, coin), unknown(alloc));
    let left_number = draft.int(left);
    let right_number = draft.int(right);
    let left_pair = draft.step(
        &[left_number, unknown_coin],
        on_two(alloc, Head::Con(PAIR), int(left), constant(alloc, coin)),
        pair_of(alloc, number(alloc, left), unknown(alloc)),
    );
    let right_pair = draft.step(
        &[right_number, unknown_coin],
        on_two(alloc, Head::Con(PAIR), int(right), constant(alloc, coin)),
        pair_of(alloc, number(alloc, right), unknown(alloc)),
    );
    draft.step(
        &[left_pair, right_pair],
        on_two(
            alloc,
            Head::Fun(EQUAL),
            on_two(alloc, Head::Con(PAIR), int(left), constant(alloc, coin)),
            on_two(alloc, Head::Con(PAIR), int(right), constant(alloc, coin)),
        ),
        truth(alloc, verdict),
    );
    draft
}

#[test]
fn the_first_difference_from_the_left_decides(rt: HostRuntime) {
    let alloc = rt.alloc();
    expect(&rt, true, unknown_second(alloc, 1, 2, false));
    expect(&rt, false, unknown_second(alloc, 1, 1, true));
    expect(&rt, false, unknown_second(alloc, 1, 1, false));
    expect(&rt, false, unknown_first(alloc));
}

/// An operation on a variable and itself is True, where it stands for
/// something.
fn with_itself(
    alloc: Global,
    operation: FunId,
    first: Bindings,
    second: Bindings,
    value: Worth,
) -> Draft {
    let mut draft = Draft::new(alloc);
    let looked_up = draft.step_with(first, &[], variable(0), value);
    draft.step_with(
        second,
        &[looked_up, looked_up],
        on_two(alloc, Head::Fun(operation), variable(0), variable(0)),
        truth(alloc, true),
    );
    draft
}

/// An operation on an unbound variable and itself is True.
fn unbound(alloc: Global, operation: FunId) -> Draft {
    with_itself(
        alloc,
        operation,
        one_binding(alloc, 0, Value::variable(alloc, 1)),
        one_binding(alloc, 0, Value::variable(alloc, 1)),
        Value::variable(alloc, 1),
    )
}

/// An operation on a variable and itself is True, where it stands for a pair of
/// which the second part isn't known.
fn half_known(alloc: Global, operation: FunId) -> Draft {
    with_itself(
        alloc,
        operation,
        one_binding(alloc, 0, pair_of(alloc, number(alloc, 1), unknown(alloc))),
        one_binding(alloc, 0, pair_of(alloc, number(alloc, 1), unknown(alloc))),
        pair_of(alloc, number(alloc, 1), unknown(alloc)),
    )
}

/// `(1 +) =:= (1 +)` is True, or `==` is.
fn of_functions(alloc: Global, operation: FunId) -> Draft {
    let plus = Head::Fun(PLUS);
    let mut draft = Draft::new(alloc);
    let one = draft.int(1);
    let function = draft.step(
        &[one],
        part_on_one(alloc, plus, int(1)),
        partial_on_one(alloc, plus, number(alloc, 1)),
    );
    draft.step(
        &[function, function],
        on_two(
            alloc,
            Head::Fun(operation),
            part_on_one(alloc, plus, int(1)),
            part_on_one(alloc, plus, int(1)),
        ),
        truth(alloc, true),
    );
    draft
}

#[test]
fn what_is_no_total_data(rt: HostRuntime) {
    let alloc = rt.alloc();
    expect(&rt, true, unbound(alloc, UNIFY));
    expect(&rt, false, unbound(alloc, EQUAL));
    expect(&rt, false, half_known(alloc, UNIFY));
    expect(&rt, false, half_known(alloc, EQUAL));
    expect(&rt, false, of_functions(alloc, UNIFY));
    expect(&rt, false, of_functions(alloc, EQUAL));
}

/// `a & b` has a value, where a and b are True or False.
fn conjoined(alloc: Global, left: bool, right: bool, value: bool) -> Draft {
    let first = Head::Con(if left { TRUE } else { FALSE });
    let second = Head::Con(if right { TRUE } else { FALSE });
    let mut draft = Draft::new(alloc);
    let left_side = draft.step(&[], constant(alloc, first), truth(alloc, left));
    let right_side = draft.step(&[], constant(alloc, second), truth(alloc, right));
    draft.step(
        &[left_side, right_side],
        on_two(
            alloc,
            Head::Fun(AND),
            constant(alloc, first),
            constant(alloc, second),
        ),
        truth(alloc, value),
    );
    draft
}

#[test]
fn a_conjunction_is_true_or_nothing(rt: HostRuntime) {
    let alloc = rt.alloc();
    expect(&rt, true, conjoined(alloc, true, true, true));
    expect(&rt, false, conjoined(alloc, true, true, false));
    expect(&rt, false, conjoined(alloc, true, false, true));
    expect(&rt, false, conjoined(alloc, true, false, false));
    expect(&rt, false, conjoined(alloc, false, true, true));
}

/// A literal or the empty list, as a side of `==`.
#[derive(Clone, Copy)]
enum Simple {
    Number(Int),
    Letter(char),
    Empty,
}

impl Simple {
    fn term(self, alloc: Global) -> Made {
        match self {
            Simple::Number(n) => int(n),
            Simple::Letter(c) => letter(c),
            Simple::Empty => constant(alloc, Head::Con(NIL)),
        }
    }

    fn value(self, alloc: Global) -> Worth {
        match self {
            Simple::Number(n) => number(alloc, n),
            Simple::Letter(c) => character(alloc, c),
            Simple::Empty => constructed(alloc, NIL),
        }
    }
}

/// `==` on two literals or empty lists has a value.
fn of_simple(alloc: Global, left: Simple, right: Simple, verdict: bool) -> Draft {
    let mut draft = Draft::new(alloc);
    let left_side = draft.step(&[], left.term(alloc), left.value(alloc));
    let right_side = draft.step(&[], right.term(alloc), right.value(alloc));
    let both = on_two(alloc, Head::Fun(EQUAL), left.term(alloc), right.term(alloc));
    draft.step(&[left_side, right_side], both, truth(alloc, verdict));
    draft
}

#[test]
fn literals_and_constructors_differ(rt: HostRuntime) {
    let alloc = rt.alloc();
    for (left, right, verdict) in [
        (Simple::Letter('a'), Simple::Letter('a'), true),
        (Simple::Letter('a'), Simple::Letter('b'), false),
        (Simple::Letter('a'), Simple::Number(97), false),
        (Simple::Number(1), Simple::Empty, false),
        (Simple::Empty, Simple::Letter('a'), false),
    ] {
        expect(&rt, true, of_simple(alloc, left, right, verdict));
        expect(&rt, false, of_simple(alloc, left, right, !verdict));
    }
}
