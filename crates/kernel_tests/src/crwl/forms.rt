//! Variables, local definitions, free variables and partial applications.

use super::draft::{
    Bindings, Draft, Worth, apply, constant, expect, free_in, int, let_in, number, on_two,
    one_binding, pair, pair_of, part, part_on_one, partial, partial_on_one, unknown, variable,
};
use super::sample::{COIN, DOUBLE, FAILED, PAIR, PLUS};
use cu_kernel::{Head, Int};
use cu_values::Value;
use std::alloc::Global;

/// A variable is worth something where variables stand for these.
fn looked_up(alloc: Global, env: Bindings, x: u32, value: Worth) -> Draft {
    let mut draft = Draft::new(alloc);
    draft.step_with(env, &[], variable(x), value);
    draft
}

/// A binding of the variable 0 to `(1, 2)`.
fn bound_pair(alloc: Global) -> Bindings {
    one_binding(alloc, 0, pair_of(alloc, number(alloc, 1), number(alloc, 2)))
}

#[test]
fn a_variable_is_worth_what_it_stands_for_or_less(rt: HostRuntime) {
    let alloc = rt.alloc();
    let whole = pair_of(alloc, number(alloc, 1), number(alloc, 2));
    let less = pair_of(alloc, unknown(alloc), number(alloc, 2));
    let other = pair_of(alloc, number(alloc, 2), number(alloc, 2));
    expect(&rt, true, looked_up(alloc, bound_pair(alloc), 0, whole));
    expect(&rt, true, looked_up(alloc, bound_pair(alloc), 0, less));
    expect(&rt, false, looked_up(alloc, bound_pair(alloc), 0, other));
    let nothing = unknown(alloc);
    let something = number(alloc, 1);
    expect(&rt, true, looked_up(alloc, bound_pair(alloc), 1, nothing));
    expect(
        &rt,
        false,
        looked_up(alloc, bound_pair(alloc), 1, something),
    );
}

/// `failed` is worth something.
fn failing(alloc: Global, value: Worth) -> Draft {
    let mut draft = Draft::new(alloc);
    draft.step(&[], constant(alloc, Head::Fun(FAILED)), value);
    draft
}

/// `(1, 2)` is worth `(unknown, 2)`, where 1 is worth something.
fn half_known(alloc: Global, first: Worth) -> Draft {
    let mut draft = Draft::new(alloc);
    let one = draft.step(&[], int(1), first);
    let two = draft.int(2);
    draft.step(
        &[one, two],
        pair(alloc, 1, 2),
        pair_of(alloc, unknown(alloc), number(alloc, 2)),
    );
    draft
}

#[test]
fn all_terms_are_worth_what_is_unknown(rt: HostRuntime) {
    let alloc = rt.alloc();
    expect(&rt, true, failing(alloc, unknown(alloc)));
    expect(&rt, false, failing(alloc, number(alloc, 0)));
    expect(&rt, true, half_known(alloc, unknown(alloc)));
    expect(&rt, false, half_known(alloc, number(alloc, 1)));
}

/// `let x = coin in x + x` has a value, where `coin` gives a number, and the
/// variable stands for one.
fn locally(alloc: Global, given: Int, bound_to: Int, value: Int) -> Draft {
    let coin = Head::Fun(COIN);
    let plus = Head::Fun(PLUS);
    let mut draft = Draft::new(alloc);
    let number_given = draft.int(given);
    let coin_given = draft.step(&[number_given], constant(alloc, coin), number(alloc, given));
    let use_of_x = draft.use_of_zero(bound_to);
    let body = draft.step_with(
        one_binding(alloc, 0, number(alloc, bound_to)),
        &[use_of_x, use_of_x],
        on_two(alloc, plus, variable(0), variable(0)),
        number(alloc, value),
    );
    draft.step(
        &[coin_given, body],
        let_in(
            alloc,
            0,
            constant(alloc, coin),
            on_two(alloc, plus, variable(0), variable(0)),
        ),
        number(alloc, value),
    );
    draft
}

#[test]
fn a_local_definition_is_chosen_once(rt: HostRuntime) {
    let alloc = rt.alloc();
    expect(&rt, true, locally(alloc, 0, 0, 0));
    expect(&rt, true, locally(alloc, 1, 1, 2));
    expect(&rt, false, locally(alloc, 1, 1, 1));
    expect(&rt, false, locally(alloc, 0, 1, 2));
}

/// `let x free in 7` is 7, where the variable stands for something.
fn freely(alloc: Global, env: Bindings) -> Draft {
    let mut draft = Draft::new(alloc);
    let body = draft.step_with(env, &[], int(7), number(alloc, 7));
    draft.step(&[body], free_in(alloc, 0, int(7)), number(alloc, 7));
    draft
}

/// `let x free in x` has a value, where x stands for 3.
fn free_three(alloc: Global, value: Int) -> Draft {
    let mut draft = Draft::new(alloc);
    let body = draft.use_of_zero(3);
    draft.step(
        &[body],
        free_in(alloc, 0, variable(0)),
        number(alloc, value),
    );
    draft
}

#[test]
fn a_free_variable_stands_for_total_data(rt: HostRuntime) {
    let alloc = rt.alloc();
    let known = one_binding(alloc, 0, number(alloc, 3));
    expect(&rt, true, freely(alloc, known));
    let open = one_binding(alloc, 0, Value::variable(alloc, 1));
    expect(&rt, true, freely(alloc, open));
    let unbound = Ok(Vec::new(alloc));
    expect(&rt, false, freely(alloc, unbound));
    let bottom = one_binding(alloc, 0, unknown(alloc));
    expect(&rt, false, freely(alloc, bottom));
    let half = one_binding(alloc, 0, pair_of(alloc, number(alloc, 1), unknown(alloc)));
    expect(&rt, false, freely(alloc, half));
    let function = one_binding(alloc, 0, partial(alloc, Head::Fun(PLUS)));
    expect(&rt, false, freely(alloc, function));
    expect(&rt, true, free_three(alloc, 3));
    expect(&rt, false, free_three(alloc, 4));
}

/// A head on 1, applied to 2, has a value.
fn completed(alloc: Global, head: Head, value: Worth) -> Draft {
    let mut draft = Draft::new(alloc);
    let one = draft.int(1);
    let function = draft.step(
        &[one],
        part_on_one(alloc, head, int(1)),
        partial_on_one(alloc, head, number(alloc, 1)),
    );
    let two = draft.int(2);
    draft.step(
        &[function, two],
        apply(alloc, part_on_one(alloc, head, int(1)), int(2)),
        value,
    );
    draft
}

/// `(+)` applied to 1 is the partial application of it to a number.
fn extended(alloc: Global, argument: Int) -> Draft {
    let plus = Head::Fun(PLUS);
    let mut draft = Draft::new(alloc);
    let function = draft.step(&[], part(alloc, plus), partial(alloc, plus));
    let one = draft.int(1);
    draft.step(
        &[function, one],
        apply(alloc, part(alloc, plus), int(1)),
        partial_on_one(alloc, plus, number(alloc, argument)),
    );
    draft
}

/// The function `double`, applied to 1, has a value, where the variable of
/// its rule stands for a number.
fn doubled(alloc: Global, bound_to: Int, value: Int) -> Draft {
    let double = Head::Fun(DOUBLE);
    let mut draft = Draft::new(alloc);
    let function = draft.step(&[], part(alloc, double), partial(alloc, double));
    let one = draft.int(1);
    let use_of_zero = draft.use_of_zero(bound_to);
    let body = draft.step_with(
        one_binding(alloc, 0, number(alloc, bound_to)),
        &[use_of_zero, use_of_zero],
        on_two(alloc, Head::Fun(PLUS), variable(0), variable(0)),
        number(alloc, value),
    );
    draft.step(
        &[function, one, body],
        apply(alloc, part(alloc, double), int(1)),
        number(alloc, value),
    );
    draft
}

#[test]
fn a_partial_application_takes_one_argument_more(rt: HostRuntime) {
    let alloc = rt.alloc();
    let plus = Head::Fun(PLUS);
    expect(&rt, true, completed(alloc, plus, number(alloc, 3)));
    expect(&rt, false, completed(alloc, plus, number(alloc, 4)));
    let pair = Head::Con(PAIR);
    let right = pair_of(alloc, number(alloc, 1), number(alloc, 2));
    expect(&rt, true, completed(alloc, pair, right));
    let swapped = pair_of(alloc, number(alloc, 2), number(alloc, 1));
    expect(&rt, false, completed(alloc, pair, swapped));
    expect(&rt, true, extended(alloc, 1));
    expect(&rt, false, extended(alloc, 2));
    expect(&rt, true, doubled(alloc, 1, 2));
    expect(&rt, false, doubled(alloc, 0, 0));
}
