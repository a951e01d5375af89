//! Functions of kernel programs, written rule by rule.

use cu_kernel::{Function, Int, Lit, Mode, Pattern, Prim, Rule, Term};
use samples::{
    CONS, FALSE, NIL, TRUE, and, both, constant_pattern, external, number, of_rules, one, rule,
};
use std::alloc::{AllocError, Global};

fn literal(n: Int) -> Pattern {
    Pattern::Lit(Lit::Int(n))
}

/// The pattern `first : rest`.
fn cons(
    alloc: Global,
    first: Pattern,
    rest: Result<Pattern, AllocError>,
) -> Result<Pattern, AllocError> {
    Ok(Pattern::Con(CONS, and(one(alloc, Ok(first)), rest)?))
}

/// A rule of a function of one parameter.
fn rule_of_one(
    alloc: Global,
    param: Result<Pattern, AllocError>,
    body: Term,
) -> Result<Rule, AllocError> {
    rule(one(alloc, param), Ok(body))
}

/// A rule of a function of two parameters.
fn rule_of_two(
    alloc: Global,
    first: Pattern,
    second: Pattern,
    body: Term,
) -> Result<Rule, AllocError> {
    rule(and(one(alloc, Ok(first)), Ok(second)), Ok(body))
}

/// f 0 = 1, and f x = 2
fn zero_or_any(alloc: Global) -> Result<Function, AllocError> {
    let zero = rule_of_one(alloc, Ok(literal(0)), number(1));
    let any = rule_of_one(alloc, Ok(Pattern::Var(0)), number(2));
    of_rules(1, and(one(alloc, zero), any))
}

/// f (x : xs) = x, and f [] = 0
fn first_of_list(alloc: Global) -> Result<Function, AllocError> {
    let whole = cons(alloc, Pattern::Var(0), Ok(Pattern::Var(1)));
    let more = rule_of_one(alloc, whole, Term::Var(0));
    let none = rule_of_one(alloc, Ok(constant_pattern(alloc, NIL)), number(0));
    of_rules(1, and(one(alloc, more), none))
}

/// f (x : (y : ys)) = y
fn second_of_list(alloc: Global) -> Result<Function, AllocError> {
    let rest = cons(alloc, Pattern::Var(1), Ok(Pattern::Var(2)));
    let whole = cons(alloc, Pattern::Var(0), rest);
    of_rules(1, one(alloc, rule_of_one(alloc, whole, Term::Var(1))))
}

/// f 5 = 0, f 3 = 1, and f 5 = 2
fn by_literals(alloc: Global) -> Result<Function, AllocError> {
    let five = rule_of_one(alloc, Ok(literal(5)), number(0));
    let three = rule_of_one(alloc, Ok(literal(3)), number(1));
    let again = rule_of_one(alloc, Ok(literal(5)), number(2));
    of_rules(1, and(and(one(alloc, five), three), again))
}

/// f True x = 1, and f x True = 2
fn by_either(alloc: Global) -> Result<Function, AllocError> {
    let left = rule_of_two(
        alloc,
        constant_pattern(alloc, TRUE),
        Pattern::Var(0),
        number(1),
    );
    let right = rule_of_two(
        alloc,
        Pattern::Var(0),
        constant_pattern(alloc, TRUE),
        number(2),
    );
    of_rules(2, and(one(alloc, left), right))
}

/// f x False = 1, and f True True = 2
fn by_second(alloc: Global) -> Result<Function, AllocError> {
    let no = rule_of_two(
        alloc,
        Pattern::Var(0),
        constant_pattern(alloc, FALSE),
        number(1),
    );
    let yes = rule_of_two(
        alloc,
        constant_pattern(alloc, TRUE),
        constant_pattern(alloc, TRUE),
        number(2),
    );
    of_rules(2, and(one(alloc, no), yes))
}

/// The case distinction on a term by one pattern, and by a variable after it.
fn pattern_or_variable(
    alloc: Global,
    mode: Mode,
    scrutinee: Term,
    pattern: Pattern,
    body: Term,
) -> Result<Term, AllocError> {
    let alternatives = and(
        one(alloc, Ok((pattern, body))),
        Ok((Pattern::Var(5), Term::Var(5))),
    );
    Ok(Term::Case(mode, Box::new(alloc, scrutinee)?, alternatives?))
}

fn of_parameter(alloc: Global, body: Result<Term, AllocError>) -> Result<Function, AllocError> {
    of_rules(
        1,
        one(alloc, rule_of_one(alloc, Ok(Pattern::Var(0)), body?)),
    )
}

/// f x = case x of { True -> 1; y -> y }
fn true_or_variable(alloc: Global) -> Result<Function, AllocError> {
    let truth = constant_pattern(alloc, TRUE);
    let body = pattern_or_variable(alloc, Mode::Rigid, Term::Var(0), truth, number(1));
    of_parameter(alloc, body)
}

/// f x = fcase x of { 3 -> 1; y -> y }
fn three_or_variable(alloc: Global) -> Result<Function, AllocError> {
    let body = pattern_or_variable(alloc, Mode::Flex, Term::Var(0), literal(3), number(1));
    of_parameter(alloc, body)
}

/// f = case 7 of { 7 -> 1 }
fn case_on_number(alloc: Global) -> Result<Function, AllocError> {
    let alternatives = one(alloc, Ok((literal(7), number(1))));
    let scrutinee = Box::new(alloc, number(7))?;
    let body = Term::Case(Mode::Rigid, scrutinee, alternatives?);
    of_rules(0, one(alloc, rule(Ok(Vec::new(alloc)), Ok(body))))
}

/// `&&`, `failed` and `==`.
fn operations(alloc: Global) -> Result<Vec<Function>, AllocError> {
    let failed = Ok(external(0, Prim::Failed));
    let equal = Ok(external(2, Prim::Equal));
    and(and(one(alloc, both(alloc)), failed), equal)
}

/// `&&`, `failed` and `==`, and functions of one kind of rules each, of which
/// the last has none.
pub(crate) fn functions(alloc: Global) -> Result<Vec<Function>, AllocError> {
    let lists = and(
        and(operations(alloc), zero_or_any(alloc)),
        first_of_list(alloc),
    );
    let literals = and(and(lists, second_of_list(alloc)), by_literals(alloc));
    let positions = and(and(literals, by_either(alloc)), by_second(alloc));
    let cases = and(
        and(positions, true_or_variable(alloc)),
        three_or_variable(alloc),
    );
    and(
        and(cases, case_on_number(alloc)),
        of_rules(0, Ok(Vec::new(alloc))),
    )
}

/// `&&` and `failed`, without `==`.
pub(crate) fn without_equal(alloc: Global) -> Result<Vec<Function>, AllocError> {
    and(one(alloc, both(alloc)), Ok(external(0, Prim::Failed)))
}

/// A choice of 2^depth ones.
fn choice(alloc: Global, depth: u32) -> Result<Term, AllocError> {
    if depth == 0 {
        return Ok(number(1));
    }
    let left = Box::new(alloc, choice(alloc, depth - 1)?)?;
    let right = Box::new(alloc, choice(alloc, depth - 1)?)?;
    Ok(Term::Or(left, right))
}

/// A choice of 2^depth ones after so many free variables.
fn free_choice(alloc: Global, free: u32, depth: u32) -> Result<Term, AllocError> {
    let mut term = choice(alloc, depth)?;
    for _ in 0..free {
        term = Term::Free(0, Box::new(alloc, term)?);
    }
    Ok(term)
}

/// `&&`, `failed` and `==`, and a function of 65,535 expressions and one for
/// each of so many free variables.
pub(crate) fn with_large(alloc: Global, free: u32) -> Result<Vec<Function>, AllocError> {
    let body = free_choice(alloc, free, 15)?;
    let large = rule(Ok(Vec::new(alloc)), Ok(body));
    and(operations(alloc), of_rules(0, one(alloc, large)))
}
