//! The operations on literals.

use super::draft::{
    Draft, Worth, character, constant, expect, int, letter, number, on_one, on_two, truth, unknown,
};
use super::sample::{
    AT_LEAST, AT_MOST, CHR, COIN, DIV, GREATER, LESS, MINUS, MOD, ORD, PLUS, TIMES,
};
use cu_kernel::{FunId, Head, Int};
use std::alloc::Global;

/// An operation on two numbers has a value.
fn on_numbers(alloc: Global, operation: FunId, left: Int, right: Int, value: Worth) -> Draft {
    let mut draft = Draft::new(alloc);
    let first = draft.int(left);
    let second = draft.int(right);
    draft.step(
        &[first, second],
        on_two(alloc, Head::Fun(operation), int(left), int(right)),
        value,
    );
    draft
}

#[test]
fn arithmetic_stays_among_the_integers(rt: HostRuntime) {
    let alloc = rt.alloc();
    for (operation, left, right, value, accepted) in [
        (PLUS, 1, 2, 3, true),
        (PLUS, 1, 2, 4, false),
        (PLUS, Int::MAX, 0, Int::MAX, true),
        (PLUS, Int::MAX, 1, Int::MIN, false),
        (PLUS, Int::MAX, 1, Int::MAX, false),
        (DIV, -7, 2, -4, true),
        (DIV, -7, 2, -3, false),
        (MOD, -7, 2, 1, true),
        (MOD, -7, 2, -1, false),
        (DIV, 7, -2, -4, true),
        (MOD, 7, -2, -1, true),
        (DIV, 1, 0, 0, false),
        (MOD, 1, 0, 1, false),
        (DIV, Int::MIN, -1, Int::MIN, false),
        (MOD, Int::MIN, -1, 0, true),
        (MINUS, 1, 3, -2, true),
        (MINUS, 1, 3, 2, false),
        (TIMES, -3, 4, -12, true),
        (TIMES, Int::MIN, -1, Int::MIN, false),
    ] {
        let worth = number(alloc, value);
        let draft = on_numbers(alloc, operation, left, right, worth);
        expect(&rt, accepted, draft);
    }
}

#[test]
fn numbers_are_ordered(rt: HostRuntime) {
    let alloc = rt.alloc();
    for (operation, left, right, verdict, accepted) in [
        (LESS, 1, 2, true, true),
        (LESS, 1, 2, false, false),
        (LESS, 2, 2, false, true),
        (AT_MOST, 2, 2, true, true),
        (AT_MOST, 3, 2, true, false),
        (GREATER, 2, 1, true, true),
        (GREATER, 2, 2, false, true),
        (AT_LEAST, 2, 2, true, true),
        (AT_LEAST, 1, 2, true, false),
    ] {
        let worth = truth(alloc, verdict);
        let draft = on_numbers(alloc, operation, left, right, worth);
        expect(&rt, accepted, draft);
    }
}

/// `chr n` is a character.
fn of_number(alloc: Global, n: Int, c: char) -> Draft {
    let mut draft = Draft::new(alloc);
    let argument = draft.int(n);
    draft.step(
        &[argument],
        on_one(alloc, Head::Fun(CHR), int(n)),
        character(alloc, c),
    );
    draft
}

/// `ord c` is a number.
fn of_character(alloc: Global, c: char, n: Int) -> Draft {
    let mut draft = Draft::new(alloc);
    let argument = draft.step(&[], letter(c), character(alloc, c));
    draft.step(
        &[argument],
        on_one(alloc, Head::Fun(ORD), letter(c)),
        number(alloc, n),
    );
    draft
}

/// `coin + 1` is 1, where `coin` isn't known.
fn on_unknown(alloc: Global) -> Draft {
    let coin = Head::Fun(COIN);
    let mut draft = Draft::new(alloc);
    let unknown_coin = draft.step(&[], constant(alloc, coin), unknown(alloc));
    let one = draft.int(1);
    draft.step(
        &[unknown_coin, one],
        on_two(alloc, Head::Fun(PLUS), constant(alloc, coin), int(1)),
        number(alloc, 1),
    );
    draft
}

#[test]
fn characters_have_numbers(rt: HostRuntime) {
    let alloc = rt.alloc();
    expect(&rt, true, of_number(alloc, 97, 'a'));
    expect(&rt, false, of_number(alloc, 97, 'b'));
    expect(&rt, false, of_number(alloc, -1, 'a'));
    expect(&rt, true, of_character(alloc, 'a', 97));
    expect(&rt, false, of_character(alloc, 'b', 97));
    expect(&rt, false, on_unknown(alloc));
}
