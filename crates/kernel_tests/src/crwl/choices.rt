//! Choices and case distinctions.

use super::draft::{
    Bindings, Draft, Made, Rows, Worth, case, constant, constructed, expect, int, number, on_two,
    one_binding, or, pair, pair_of, partial, two_bindings, unknown, variable,
};
use super::sample::{COIN, DOUBLE, PAIR};
use cu_kernel::{ConId, Head, Int, Lit, Pattern, Term};
use cu_values::Value;
use samples::{FALSE, NIL, TRUE};
use std::alloc::{AllocError, Global};

/// `1 ? 2` has a value, since a number has its own.
fn either(alloc: Global, cited: Int, value: Int) -> Draft {
    let mut draft = Draft::new(alloc);
    let side = draft.int(cited);
    draft.step(&[side], or(alloc, int(1), int(2)), number(alloc, value));
    draft
}

#[test]
fn a_choice_has_the_values_of_both_sides(rt: HostRuntime) {
    let alloc = rt.alloc();
    expect(&rt, true, either(alloc, 1, 1));
    expect(&rt, true, either(alloc, 2, 2));
    expect(&rt, false, either(alloc, 3, 3));
    expect(&rt, false, either(alloc, 1, 2));
    expect(&rt, false, either(alloc, 2, 1));
}

/// `0 -> 1`
fn zero_row() -> (Pattern, Term) {
    (Pattern::Lit(Lit::Int(0)), Term::Lit(Lit::Int(1)))
}

/// `0 -> 1`, `x -> 2`
fn number_rows(alloc: Global) -> Rows {
    let other = (Pattern::Var(0), Term::Lit(Lit::Int(2)));
    Ok(vec![in alloc; zero_row(), other]?)
}

/// `0 -> 1`, `y@x -> y`
fn alias_rows(alloc: Global) -> Rows {
    let pattern = Box::new(alloc, Pattern::Var(0))?;
    let other = (Pattern::Alias(1, pattern), Term::Var(1));
    Ok(vec![in alloc; zero_row(), other]?)
}

/// `case n of { 0 -> 1; x -> 2 }` is 1 by the first alternative, or 2 by the
/// second.
fn of_number(alloc: Global, n: Int, by_first: bool) -> Draft {
    let value = if by_first { 1 } else { 2 };
    let mut draft = Draft::new(alloc);
    let scrutinee = draft.int(n);
    let body = if by_first {
        draft.int(value)
    } else {
        draft.step_with(
            one_binding(alloc, 0, number(alloc, n)),
            &[],
            int(value),
            number(alloc, value),
        )
    };
    draft.step(
        &[scrutinee, body],
        case(alloc, int(n), number_rows(alloc)),
        number(alloc, value),
    );
    draft
}

/// `case 5 of { 0 -> 1; y@x -> y }` is 5 where the variables stand for these.
fn by_alias(alloc: Global, env: Bindings) -> Draft {
    let mut draft = Draft::new(alloc);
    let scrutinee = draft.int(5);
    let body = draft.step_with(env, &[], variable(1), number(alloc, 5));
    draft.step(
        &[scrutinee, body],
        case(alloc, int(5), alias_rows(alloc)),
        number(alloc, 5),
    );
    draft
}

#[test]
fn the_first_of_overlapping_alternatives_is_taken(rt: HostRuntime) {
    let alloc = rt.alloc();
    expect(&rt, true, of_number(alloc, 0, true));
    expect(&rt, false, of_number(alloc, 0, false));
    expect(&rt, false, of_number(alloc, 5, true));
    expect(&rt, true, of_number(alloc, 5, false));
    let both = two_bindings(alloc, 0, number(alloc, 5), 1, number(alloc, 5));
    expect(&rt, true, by_alias(alloc, both));
    let one = one_binding(alloc, 1, number(alloc, 5));
    expect(&rt, false, by_alias(alloc, one));
}

fn pair_pattern(alloc: Global, first: Pattern, second: Pattern) -> Result<Pattern, AllocError> {
    Ok(Pattern::Con(PAIR, vec![in alloc; first, second]?))
}

/// `(1, x) -> x`, `(y, 2) -> 7`
fn pair_rows(alloc: Global) -> Rows {
    let first = pair_pattern(alloc, Pattern::Lit(Lit::Int(1)), Pattern::Var(0))?;
    let second = pair_pattern(alloc, Pattern::Var(1), Pattern::Lit(Lit::Int(2)))?;
    let seven = Term::Lit(Lit::Int(7));
    Ok(vec![in alloc; (first, Term::Var(0)), (second, seven)]?)
}

/// `case a of { (1, x) -> x; (y, 2) -> 7 }`
fn case_of(alloc: Global, scrutinee: Made) -> Made {
    case(alloc, scrutinee, pair_rows(alloc))
}

/// `case (m, n) of { (1, x) -> x; (y, 2) -> 7 }` over a pair of numbers has the
/// second number as its value by the first alternative, or 7 by the second.
fn of_pair(alloc: Global, first: Int, second: Int, by_first: bool) -> Draft {
    let mut draft = Draft::new(alloc);
    let one = draft.int(first);
    let other = draft.int(second);
    let scrutinee = draft.step(
        &[one, other],
        pair(alloc, first, second),
        pair_of(alloc, number(alloc, first), number(alloc, second)),
    );
    let body = if by_first {
        draft.use_of_zero(second)
    } else {
        draft.step_with(
            one_binding(alloc, 1, number(alloc, first)),
            &[],
            int(7),
            number(alloc, 7),
        )
    };
    draft.step(
        &[scrutinee, body],
        case_of(alloc, pair(alloc, first, second)),
        number(alloc, if by_first { second } else { 7 }),
    );
    draft
}

/// `case (coin, 2) of { (1, x) -> x; (y, 2) -> 7 }`, where `coin` isn't known,
/// is 7 by the second alternative.
fn of_unknown(alloc: Global) -> Draft {
    let coin = Head::Fun(COIN);
    let mut draft = Draft::new(alloc);
    let unknown_coin = draft.step(&[], constant(alloc, coin), unknown(alloc));
    let two = draft.int(2);
    let scrutinee = draft.step(
        &[unknown_coin, two],
        on_two(alloc, Head::Con(PAIR), constant(alloc, coin), int(2)),
        pair_of(alloc, unknown(alloc), number(alloc, 2)),
    );
    let body = draft.int(7);
    draft.step(
        &[scrutinee, body],
        case_of(
            alloc,
            on_two(alloc, Head::Con(PAIR), constant(alloc, coin), int(2)),
        ),
        number(alloc, 7),
    );
    draft
}

#[test]
fn patterns_are_looked_at_from_the_left(rt: HostRuntime) {
    let alloc = rt.alloc();
    expect(&rt, true, of_pair(alloc, 1, 2, true));
    expect(&rt, false, of_pair(alloc, 1, 2, false));
    expect(&rt, false, of_pair(alloc, 3, 2, true));
    expect(&rt, true, of_pair(alloc, 3, 2, false));
    expect(&rt, false, of_pair(alloc, 3, 4, false));
    expect(&rt, false, of_unknown(alloc));
}

/// What no pattern but a variable fits.
#[derive(Clone, Copy)]
enum Undecided {
    Variable,
    Function,
}

impl Undecided {
    fn value(self, alloc: Global) -> Worth {
        match self {
            Undecided::Variable => Value::variable(alloc, 7),
            Undecided::Function => partial(alloc, Head::Fun(DOUBLE)),
        }
    }
}

/// `x -> 2`
fn only_row(alloc: Global) -> Rows {
    let row = (Pattern::Var(0), Term::Lit(Lit::Int(2)));
    Ok(vec![in alloc; row]?)
}

/// A case distinction over the variable 1 is 2 by an alternative of the
/// variable 0, where the variable 1 stands for something undecided.
fn of_undecided(alloc: Global, given: Undecided, rows: Rows) -> Draft {
    let mut draft = Draft::new(alloc);
    let scrutinee = draft.step_with(
        one_binding(alloc, 1, given.value(alloc)),
        &[],
        variable(1),
        given.value(alloc),
    );
    let body = draft.step_with(
        two_bindings(alloc, 0, given.value(alloc), 1, given.value(alloc)),
        &[],
        int(2),
        number(alloc, 2),
    );
    draft.step_with(
        one_binding(alloc, 1, given.value(alloc)),
        &[scrutinee, body],
        case(alloc, variable(1), rows),
        number(alloc, 2),
    );
    draft
}

#[test]
fn what_is_undecided_stops_the_choice(rt: HostRuntime) {
    let alloc = rt.alloc();
    for given in [Undecided::Variable, Undecided::Function] {
        expect(&rt, true, of_undecided(alloc, given, only_row(alloc)));
        expect(&rt, false, of_undecided(alloc, given, number_rows(alloc)));
    }
}

/// `True -> 1`, `x -> 2`
fn truth_rows(alloc: Global) -> Rows {
    let first = (Pattern::Con(TRUE, Vec::new(alloc)), Term::Lit(Lit::Int(1)));
    let other = (Pattern::Var(0), Term::Lit(Lit::Int(2)));
    Ok(vec![in alloc; first, other]?)
}

/// `case c of { True -> 1; x -> 2 }` is 2 by the second alternative.
fn of_constant(alloc: Global, constructor: ConId) -> Draft {
    let mut draft = Draft::new(alloc);
    let term = constant(alloc, Head::Con(constructor));
    let scrutinee = draft.step(&[], term, constructed(alloc, constructor));
    let body = draft.step_with(
        one_binding(alloc, 0, constructed(alloc, constructor)),
        &[],
        int(2),
        number(alloc, 2),
    );
    let again = constant(alloc, Head::Con(constructor));
    draft.step(
        &[scrutinee, body],
        case(alloc, again, truth_rows(alloc)),
        number(alloc, 2),
    );
    draft
}

#[test]
fn a_constructor_of_another_type_takes_nothing(rt: HostRuntime) {
    let alloc = rt.alloc();
    expect(&rt, true, of_constant(alloc, FALSE));
    expect(&rt, false, of_constant(alloc, TRUE));
    expect(&rt, false, of_constant(alloc, NIL));
}
