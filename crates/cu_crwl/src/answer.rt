//! What the built-in operations answer.
ghost use Rattle.std.specs.Prelude.{◌≡◌, ◌≢◌, ◌∷◌, [], IfOk, None, Option, Some, if◌then◌else◌, option_map, pos, true};
ghost use Rattle.std.specs.Option.{option_and_then};
ghost use Rattle.cu_calculus.specs.Answered.{answered, conjoined, literals_in, unified};
ghost use Rattle.cu_calculus.specs.Builtin.{character, integer, on_integers, on_literals, truth_of};
ghost use Rattle.cu_calculus.specs.Compared.{compared};
ghost use Rattle.cu_calculus.specs.Shape.{is_total_data};
ghost use Rattle.cu_calculus.specs.Value as value;
ghost use Rattle.cu_calculus.specs.Value.{values_of};
ghost use Rattle.cu_kernel.specs.Heads.{heads_program};
ghost use Rattle.cu_crwl.specs.Inside.Numbers.{on_one, on_two, two_values};
ghost use Rattle.cu_crwl.specs.Table.{is_answer};

use crate::compare::compare;
use crate::environment::value_is;
use cu_int::{floor_quotient, floor_rest};
use cu_kernel::{Heads, Int, Lit, Prim};
use cu_values::{Cell, Value};
use std::alloc::{AllocError, Global};

/// Whether an operation on values answers a value.
pub(crate) fn is_answer(
    alloc: Global,
    heads: &Heads,
    operation: Prim,
    values: &[Value],
    value: &Value,
) -> Result<bool, AllocError>
    ensures { IfOk result (λ yes. yes ≡ is_answer
        (answered (heads_program heads.now) operation (values_of values.now)) value.now) }
{
    match answer(alloc, heads, operation, values)? {
        Some(found) => Ok(value_is(&found, value)),
        None => Ok(false),
    }
}

/// What an operation on values answers, where it answers.
fn answer(
    alloc: Global,
    heads: &Heads,
    operation: Prim,
    values: &[Value],
) -> Result<Option<Value>, AllocError>
    ensures { IfOk result (λ found. found ≡ answered (heads_program heads.now) operation
        (values_of values.now)) }
{
    match operation {
        Prim::Equal => match pair(values) {
            Some(both) => equal(alloc, heads, both.0, both.1),
            None => Ok(None),
        },
        Prim::Unify => match pair(values) {
            Some(both) => unify(alloc, heads, both.0, both.1),
            None => Ok(None),
        },
        Prim::And => match pair(values) {
            Some(both) => conjoin(alloc, heads, both.0, both.1),
            None => Ok(None),
        },
        _ => on_values(alloc, heads, operation, values),
    }
}

/// The two values, where there are two.
fn pair(values: &[Value]) -> Option<(&Value, &Value)>
    ensures { option_map (λ both. (both.0.now, both.1.now)) result ≡ two_values values.now }
{
    if values.len() == 2 {
        Some((&values[0], &values[1]))
    } else {
        None
    }
}

/// The value True or False.
#[tactic(auto, unfolding(cu_kernel::specs::Heads::heads_program))]
fn truth(alloc: Global, heads: &Heads, holds: bool) -> Result<Value, AllocError>
    ensures { IfOk result (λ v. v ≡ truth_of (heads_program heads.now) holds) }
{
    if holds {
        Value::constructed(alloc, heads.special.truth, &[])
    } else {
        Value::constructed(alloc, heads.special.falsity, &[])
    }
}

/// True, where something holds.
fn true_where(alloc: Global, heads: &Heads, holds: bool) -> Result<Option<Value>, AllocError>
    ensures { IfOk result (λ found. found ≡
        (if holds then Some (truth_of (heads_program heads.now) true) else None)) }
{
    if holds {
        let yes = truth(alloc, heads, true)?;
        Ok(Some(yes))
    } else {
        Ok(None)
    }
}

/// What `==` answers on two values.
fn equal(
    alloc: Global,
    heads: &Heads,
    left: &Value,
    right: &Value,
) -> Result<Option<Value>, AllocError>
    ensures { IfOk result (λ found. found ≡ option_map (truth_of (heads_program heads.now))
        (compared left.now right.now)) }
{
    match compare(left, right) {
        Some(same) => {
            let answer = truth(alloc, heads, same)?;
            Ok(Some(answer))
        }
        None => Ok(None),
    }
}

/// What `=:=` answers on two values.
fn unify(
    alloc: Global,
    heads: &Heads,
    left: &Value,
    right: &Value,
) -> Result<Option<Value>, AllocError>
    ensures { IfOk result (λ found. found ≡ unified (heads_program heads.now) left.now right.now) }
{
    true_where(alloc, heads, value_is(left, right) && total_data(left))
}

/// What `&` answers on two values.
fn conjoin(
    alloc: Global,
    heads: &Heads,
    left: &Value,
    right: &Value,
) -> Result<Option<Value>, AllocError>
    ensures { IfOk result (λ found. found
        ≡ conjoined (heads_program heads.now) left.now right.now) }
{
    let yes = truth(alloc, heads, true)?;
    true_where(alloc, heads, value_is(left, &yes) && value_is(right, &yes))
}

/// Whether a value is total data: Bottom and partial applications stand nowhere
/// in it.
pub(crate) fn total_data(value: &Value) -> bool
    ensures { result ≡ is_total_data value.now }
{
    value.is_total() && value.is_data()
}

/// What an operation answers on values that are literals.
fn on_values(
    alloc: Global,
    heads: &Heads,
    operation: Prim,
    values: &[Value],
) -> Result<Option<Value>, AllocError>
    ensures { IfOk result (λ found. found ≡ option_and_then
        (on_literals (heads_program heads.now) operation) (literals_in (values_of values.now))) }
{
    match literals(alloc, values)? {
        Some(found) => on_literals(alloc, heads, operation, &found),
        None => Ok(None),
    }
}

/// The literals that values are, where all of them are literals.
fn literals(alloc: Global, values: &[Value]) -> Result<Option<Vec<Lit>>, AllocError>
    ensures { IfOk result (λ found. option_map (λ ls. ls.items) found ≡ literals_in
        (values_of values.now)) }
{
    let mut found = Vec::new(alloc);
    for value in values {
        match value.head() {
            Cell::Lit(literal) => found.push(literal)?,
            _ => return Ok(None),
        }
    }
    Ok(Some(found))
}

/// What an operation answers on literals.
fn on_literals(
    alloc: Global,
    heads: &Heads,
    operation: Prim,
    literals: &[Lit],
) -> Result<Option<Value>, AllocError>
    ensures { IfOk result (λ found. found ≡ on_literals
        (heads_program heads.now) operation literals.now) }
{
    if literals.len() == 1 {
        return on_one(alloc, operation, literals[0]);
    }
    if literals.len() == 2 {
        return on_two(alloc, heads, operation, literals[0], literals[1]);
    }
    Ok(None)
}

/// What an operation answers on one literal.
fn on_one(alloc: Global, operation: Prim, literal: Lit) -> Result<Option<Value>, AllocError>
    ensures { IfOk result (λ found. found ≡ on_one operation literal) }
{
    match (operation, literal) {
        (Prim::Ord, Lit::Char(c)) => some_integer(alloc, Some(Int::from(u32::from(c)))),
        (Prim::Chr, Lit::Int(n)) => some_character(alloc, character_of(n)),
        _ => Ok(None),
    }
}

/// What an operation answers on two literals.
fn on_two(
    alloc: Global,
    heads: &Heads,
    operation: Prim,
    left: Lit,
    right: Lit,
) -> Result<Option<Value>, AllocError>
    ensures { IfOk result (λ found. found ≡ on_two (heads_program heads.now) operation left right) }
{
    match (left, right) {
        (Lit::Int(m), Lit::Int(n)) => on_integers(alloc, heads, operation, m, n),
        (Lit::Int(_), Lit::Char(_)) => Ok(None),
        (Lit::Char(_), _) => Ok(None),
    }
}

/// What an operation answers on two integers.
fn on_integers(
    alloc: Global,
    heads: &Heads,
    operation: Prim,
    m: Int,
    n: Int,
) -> Result<Option<Value>, AllocError>
    ensures { IfOk result (λ found. found ≡ on_integers (heads_program heads.now) operation m n) }
{
    match operation {
        Prim::Add => some_integer(alloc, m.checked_add(n)),
        Prim::Sub => some_integer(alloc, m.checked_sub(n)),
        Prim::Mul => some_integer(alloc, m.checked_mul(n)),
        Prim::Div => {
            if n == 0 {
                return Ok(None);
            }
            some_integer(alloc, floor_quotient(m, n))
        }
        Prim::Mod => {
            if n == 0 {
                return Ok(None);
            }
            some_integer(alloc, Some(floor_rest(m, n)))
        }
        Prim::Less => some_truth(alloc, heads, m < n),
        Prim::AtMost => some_truth(alloc, heads, m <= n),
        Prim::Greater => some_truth(alloc, heads, m > n),
        Prim::AtLeast => some_truth(alloc, heads, m >= n),
        _ => Ok(None),
    }
}

/// True or False, as an answer.
fn some_truth(alloc: Global, heads: &Heads, holds: bool) -> Result<Option<Value>, AllocError>
    ensures { IfOk result (λ found. found ≡ Some (truth_of (heads_program heads.now) holds)) }
{
    let answer = truth(alloc, heads, holds)?;
    Ok(Some(answer))
}

/// The literal of a number, where there is one.
fn some_integer(alloc: Global, number: Option<Int>) -> Result<Option<Value>, AllocError>
    ensures { IfOk result (λ found. found ≡ option_map (λ n. value.Literal (Lit.Int n)) number) }
{
    match number {
        Some(n) => {
            let answer = Value::literal(alloc, Lit::Int(n))?;
            Ok(Some(answer))
        }
        None => Ok(None),
    }
}

/// The literal of a character, where there is one.
fn some_character(alloc: Global, character: Option<char>) -> Result<Option<Value>, AllocError>
    ensures { IfOk result (λ found. found
        ≡ option_map (λ c. value.Literal (Lit.Char c)) character) }
{
    match character {
        Some(c) => {
            let answer = Value::literal(alloc, Lit::Char(c))?;
            Ok(Some(answer))
        }
        None => Ok(None),
    }
}

/// The character of a number, where there is one.
fn character_of(n: Int) -> Option<char>
    ensures { option_map (λ c. value.Literal (Lit.Char c)) result ≡ character n }
{
    match u32::try_from(n) {
        Ok(code) => char::from_u32(code),
        Err(_) => None,
    }
}
