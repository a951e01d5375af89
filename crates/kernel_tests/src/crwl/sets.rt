//! Set functions and claims.

use super::draft::{
    Draft, Worth, apply, constant, constructed, expect, expect_without_sets, int, list,
    list_before, number, on_one, one_binding, one_value, part, partial, two_values, unknown,
    variable,
};
use super::sample::{COIN, DOUBLE, PAIR, VALUES};
use cu_kernel::{FunId, Head, Int};
use cu_values::Value;
use samples::{CONS, NIL};
use std::alloc::{AllocError, Global};

fn one(alloc: Global, value: Worth) -> Result<Vec<Value>, AllocError> {
    Ok(vec![in alloc; value?]?)
}

fn all_numbers(alloc: Global, numbers: &[Int]) -> Result<Vec<Value>, AllocError> {
    let mut values = Vec::new(alloc);
    for n in numbers {
        values.push(number(alloc, *n)?)?;
    }
    Ok(values)
}

/// The set call of `coin` is worth the values of a list.
fn coins(draft: &mut Draft, alloc: Global, listed: Worth) {
    draft.step(
        &[],
        constant(alloc, Head::Set(COIN)),
        one_value(alloc, VALUES, listed),
    );
}

/// The set call of `coin` is worth the values of a list, where the claims say
/// that `coin` has these values.
fn claimed_coins(alloc: Global, numbers: &[Int], listed: Worth) -> Draft {
    let mut draft = Draft::new(alloc);
    draft.claim(COIN, Ok(Vec::new(alloc)), all_numbers(alloc, numbers));
    coins(&mut draft, alloc, listed);
    draft
}

/// The set call of `coin` is worth the values of a list, without a claim.
fn unclaimed_coins(alloc: Global) -> Draft {
    let mut draft = Draft::new(alloc);
    coins(&mut draft, alloc, list(alloc, &[0, 1]));
    draft
}

/// The set call of `coin` is worth the list of a value, where the claims say
/// that `coin` has another one.
fn claimed_coin(alloc: Global, claimed: Worth, value: Worth) -> Draft {
    let mut draft = Draft::new(alloc);
    draft.claim(COIN, Ok(Vec::new(alloc)), one(alloc, claimed));
    let listed = two_values(alloc, CONS, value, constructed(alloc, NIL));
    coins(&mut draft, alloc, listed);
    draft
}

#[test]
fn a_set_call_is_worth_the_claimed_list_or_less(rt: HostRuntime) {
    let alloc = rt.alloc();
    let both = list(alloc, &[0, 1]);
    expect(&rt, true, claimed_coins(alloc, &[0, 1], both));
    let fewer = list(alloc, &[0]);
    expect(&rt, false, claimed_coins(alloc, &[0, 1], fewer));
    let swapped = list(alloc, &[1, 0]);
    expect(&rt, false, claimed_coins(alloc, &[0, 1], swapped));
    expect(&rt, false, unclaimed_coins(alloc));
    let begun = list_before(alloc, &[0], unknown(alloc));
    expect(&rt, true, claimed_coins(alloc, &[0, 1], begun));
    let longer = list(alloc, &[0, 1, 2]);
    expect(&rt, false, claimed_coins(alloc, &[0, 1], longer));
    let known = claimed_coin(alloc, number(alloc, 0), unknown(alloc));
    expect(&rt, true, known);
    let above = claimed_coin(alloc, unknown(alloc), number(alloc, 0));
    expect(&rt, false, above);
}

/// The set call of `double` on a number is worth the list of 2, where the
/// claims say that `double` has the value 2 on 1.
fn doubles(alloc: Global, n: Int) -> Draft {
    let mut draft = Draft::new(alloc);
    draft.claim(DOUBLE, all_numbers(alloc, &[1]), all_numbers(alloc, &[2]));
    let argument = draft.int(n);
    draft.step(
        &[argument],
        on_one(alloc, Head::Set(DOUBLE), int(n)),
        one_value(alloc, VALUES, list(alloc, &[2])),
    );
    draft
}

/// The set call of `double` on a variable is worth the list of 2, where the
/// variable stands for something of which the claims say so.
fn doubles_of(alloc: Global, claimed: Worth, bound_to: Worth, given: Worth, again: Worth) -> Draft {
    let mut draft = Draft::new(alloc);
    draft.claim(DOUBLE, one(alloc, claimed), all_numbers(alloc, &[2]));
    let argument = draft.step_with(one_binding(alloc, 0, bound_to), &[], variable(0), given);
    draft.step_with(
        one_binding(alloc, 0, again),
        &[argument],
        on_one(alloc, Head::Set(DOUBLE), variable(0)),
        one_value(alloc, VALUES, list(alloc, &[2])),
    );
    draft
}

#[test]
fn arguments_of_a_set_call_are_ground(rt: HostRuntime) {
    let alloc = rt.alloc();
    let ground = doubles_of(
        alloc,
        number(alloc, 1),
        number(alloc, 1),
        number(alloc, 1),
        number(alloc, 1),
    );
    expect(&rt, true, ground);
    let nothing = doubles_of(
        alloc,
        unknown(alloc),
        unknown(alloc),
        unknown(alloc),
        unknown(alloc),
    );
    expect(&rt, false, nothing);
    let open = doubles_of(
        alloc,
        Value::variable(alloc, 1),
        Value::variable(alloc, 1),
        Value::variable(alloc, 1),
        Value::variable(alloc, 1),
    );
    expect(&rt, false, open);
}

/// The set function of `double` in part, applied to 1, is worth the list of a
/// number, where the claims say that `double` has the value 2 on 1.
fn applied(alloc: Global, value: Int) -> Draft {
    let doubles = Head::Set(DOUBLE);
    let mut draft = Draft::new(alloc);
    draft.claim(DOUBLE, all_numbers(alloc, &[1]), all_numbers(alloc, &[2]));
    let function = draft.step(&[], part(alloc, doubles), partial(alloc, doubles));
    let one = draft.int(1);
    draft.step(
        &[function, one],
        apply(alloc, part(alloc, doubles), int(1)),
        one_value(alloc, VALUES, list(alloc, &[value])),
    );
    draft
}

#[test]
fn a_claim_is_for_its_arguments(rt: HostRuntime) {
    let alloc = rt.alloc();
    expect(&rt, true, doubles(alloc, 1));
    expect(&rt, false, doubles(alloc, 2));
    expect(&rt, true, applied(alloc, 2));
    expect(&rt, false, applied(alloc, 3));
}

/// A proof that uses no claim, with one that says that a function without
/// arguments has a value.
fn beside_claim(alloc: Global, function: FunId, value: Worth) -> Draft {
    let mut draft = Draft::new(alloc);
    draft.claim(function, Ok(Vec::new(alloc)), one(alloc, value));
    draft.int(0);
    draft
}

#[test]
fn claims_speak_of_the_program(rt: HostRuntime) {
    let alloc = rt.alloc();
    let right = beside_claim(alloc, COIN, number(alloc, 0));
    expect(&rt, true, right);
    let no_function = beside_claim(alloc, FunId(99), number(alloc, 0));
    expect(&rt, false, no_function);
    let no_value = beside_claim(alloc, COIN, constructed(alloc, PAIR));
    expect(&rt, false, no_value);
}

/// A variable that stands for a head without arguments has a value of which
/// nothing is known.
fn standing_for(alloc: Global, head: Head) -> Draft {
    let mut draft = Draft::new(alloc);
    let env = one_binding(alloc, 0, partial(alloc, head));
    draft.step_with(env, &[], variable(0), unknown(alloc));
    draft
}

#[test]
fn set_functions_are_values_where_the_program_has_sets(rt: HostRuntime) {
    let alloc = rt.alloc();
    let function = Head::Fun(DOUBLE);
    let set_function = Head::Set(DOUBLE);
    expect(&rt, true, standing_for(alloc, set_function));
    expect_without_sets(&rt, false, standing_for(alloc, set_function));
    expect_without_sets(&rt, true, standing_for(alloc, function));
}
