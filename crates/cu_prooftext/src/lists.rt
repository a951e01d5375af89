//! Lists in a text: values, steps that are cited, and environments.
ghost use Rattle.std.specs.Prelude.{◌≡◌, ◌<◌, ◌∷◌, [], None, Some, false, suc};
ghost use Rattle.cu_prooftext.specs.Inside.Gives.{Gives};
ghost use Rattle.cu_prooftext.specs.Inside.Lines.{binding_at, cites_at, environment_at, further_bindings, further_cites, further_values, may_rise, some_bindings, some_cites, some_values, values_at};
ghost use Rattle.cu_prooftext.specs.Inside.Loops.{with_front};
ghost use Rattle.cu_prooftext.specs.Inside.Ranges.{above, leads_above};
ghost use Rattle.cu_prooftext.specs.Inside.Readers.{after, digits_at, made};
ghost use Rattle.cu_prooftext.specs.Inside.Reading.{comma_first, dash_first, more_follow, up_to, value_at};
ghost use Rattle.std.specs.Option.{IfNone, IfSome};

use crate::cells::value_at;
use crate::numbers::{Read, after_word, number_at, small_at};
use crate::ranges::Range;
use cu_values::Value;
use std::alloc::Global;

/// The bytes after a comma that they begin with.
fn after_comma(bytes: &[u8]) -> Option<&[u8]>
    ensures some { IfSome result (λ x. bytes.now ≡ 44 ∷ x.now) }
    ensures none { IfNone result (comma_first bytes.now ≡ false) }
{
    match bytes {
        [b',', after @ ..] => Some(after),
        _ => None,
    }
}

/// The bytes after a dash that they begin with.
fn after_dash(bytes: &[u8]) -> Option<&[u8]>
    ensures some { IfSome result (λ x. bytes.now ≡ 45 ∷ x.now) }
    ensures none { IfNone result (dash_first bytes.now ≡ false) }
{
    match bytes {
        [b'-', after @ ..] => Some(after),
        _ => None,
    }
}

/// The values of a list, some of which are read already.
fn further_values(alloc: Global, front: Vec<Value>, bytes: &[u8]) -> Read<'_, Vec<Value>>
    ensures { Gives (λ x. (x.0.items, x.1.now)) result
        (with_front front.items (further_values bytes.now)) }
{
    let mut values = front;
    let mut rest = bytes;
    while let Some(after) = after_comma(rest) {
        let (value, more) = value_at(alloc, after)?;
        values.push(value)?;
        rest = more;
    }
    Ok((values, rest))
}

/// The values of a list that has some.
fn some_values_at(alloc: Global, bytes: &[u8]) -> Read<'_, Vec<Value>>
    ensures { Gives (λ x. (x.0.items, x.1.now)) result (some_values bytes.now) }
{
    let (first, rest) = value_at(alloc, bytes)?;
    let values = vec![in alloc; first]?;
    further_values(alloc, values, rest)
}

/// A list of values.
pub(crate) fn values_at(alloc: Global, bytes: &[u8]) -> Read<'_, Vec<Value>>
    ensures { Gives (λ x. (x.0.items, x.1.now)) result (values_at bytes.now) }
{
    match after_dash(bytes) {
        Some(rest) => Ok((Vec::new(alloc), rest)),
        None => some_values_at(alloc, bytes),
    }
}

/// The number of a step up to the last one that may be cited.
#[tactic(auto, using(crate::proofs::NumberSteps::at_most_is))]
fn cited_at(bytes: &[u8], last: usize) -> Read<'_, usize>
    ensures { Gives (λ x. (x.0, x.1.now)) result (up_to last bytes.now) }
{
    let (number, rest) = number_at(bytes, Range::UpTo(last as u128))?;
    Ok((number as usize, rest))
}

/// The numbers of the steps that a step cites, some of which are read already,
/// up to the last one that may be cited.
fn further_cites(front: Vec<usize>, bytes: &[u8], last: usize) -> Read<'_, Vec<usize>>
    ensures { Gives (λ x. (x.0.items, x.1.now)) result
        (with_front front.items (further_cites last bytes.now)) }
{
    let mut cites = front;
    let mut rest = bytes;
    while let Some(after) = after_comma(rest) {
        let (cited, more) = cited_at(after, last)?;
        cites.push(cited)?;
        rest = more;
    }
    Ok((cites, rest))
}

/// The numbers of the steps that a step cites, at least one, up to the last
/// one that may be cited.
fn some_cites_at(alloc: Global, bytes: &[u8], last: usize) -> Read<'_, Vec<usize>>
    ensures { Gives (λ x. (x.0.items, x.1.now)) result (some_cites last bytes.now) }
{
    let (first, rest) = cited_at(bytes, last)?;
    let cites = vec![in alloc; first]?;
    further_cites(cites, rest, last)
}

/// The numbers of the steps that a step cites, up to the last one that may be
/// cited.
fn cites_up_to(alloc: Global, bytes: &[u8], last: usize) -> Read<'_, Vec<usize>>
    ensures { Gives (λ x. (x.0.items, x.1.now)) result (cites_at (suc last) bytes.now) }
{
    match after_dash(bytes) {
        Some(rest) => Ok((Vec::new(alloc), rest)),
        None => some_cites_at(alloc, bytes, last),
    }
}

/// The numbers of the steps that the step of a number cites, all below it.
pub(crate) fn cites_at(alloc: Global, bytes: &[u8], number: usize) -> Read<'_, Vec<usize>>
    ensures { Gives (λ x. (x.0.items, x.1.now)) result (cites_at number bytes.now) }
{
    if number > 0 {
        return cites_up_to(alloc, bytes, number - 1);
    }
    let rest = after_word(bytes, b"-")?;
    Ok((Vec::new(alloc), rest))
}

/// A variable with its value, after its number.
fn bound_at(alloc: Global, variable: u32, bytes: &[u8]) -> Read<'_, (u32, Value)>
    ensures { Gives (λ x. (x.0, x.1.now)) result
        (made (λ v. (variable, v)) (after (61 ∷ []) value_at) bytes.now) }
{
    let rest = after_word(bytes, b"=")?;
    let (value, rest) = value_at(alloc, rest)?;
    Ok(((variable, value), rest))
}

/// The first binding of an environment.
fn first_binding_at(alloc: Global, bytes: &[u8]) -> Read<'_, (u32, Value)>
    ensures { Gives (λ x. (x.0, x.1.now)) result (binding_at None bytes.now) }
{
    let (variable, rest) = small_at(bytes)?;
    bound_at(alloc, variable, rest)
}

/// The number of a variable above the last one.
fn variable_above(bytes: &[u8], last: u32) -> Read<'_, u32>
    ensures { Gives (λ x. (x.0, x.1.now)) result
        (digits_at (leads_above last) (above last) None bytes.now) }
{
    let (number, rest) = number_at(bytes, Range::Above(last))?;
    Ok((number as u32, rest))
}

/// A binding of a variable above the last one.
fn binding_above(alloc: Global, bytes: &[u8], last: u32) -> Read<'_, (u32, Value)>
    ensures { Gives (λ x. (x.0, x.1.now)) result (binding_at (Some last) bytes.now) }
{
    let (variable, rest) = variable_above(bytes, last)?;
    bound_at(alloc, variable, rest)
}

/// The bytes after a comma that they begin with, where a variable above the
/// last one may follow.
fn after_last(bytes: &[u8], last: u32) -> Option<&[u8]>
    ensures some { IfSome result (λ x. (last < 4294967295) × (bytes.now ≡ 44 ∷ x.now)) }
    ensures none { IfNone result (more_follow may_rise (Some last) bytes.now ≡ false) }
{
    if last == u32::MAX {
        return None;
    }
    after_comma(bytes)
}

/// The bindings of an environment, some of which are read already, up to one
/// of the last variable. None follows the last number.
fn further_bindings(
    alloc: Global,
    front: Vec<(u32, Value)>,
    bytes: &[u8],
    found: u32,
) -> Read<'_, Vec<(u32, Value)>>
    ensures { Gives (λ x. (x.0.items, x.1.now)) result
        (with_front front.items (further_bindings found bytes.now)) }
{
    let mut env = front;
    let mut rest = bytes;
    let mut last = found;
    while let Some(after) = after_last(rest, last) {
        let (binding, more) = binding_above(alloc, after, last)?;
        last = binding.0;
        env.push(binding)?;
        rest = more;
    }
    Ok((env, rest))
}

/// An environment that binds variables.
fn some_bindings_at(alloc: Global, bytes: &[u8]) -> Read<'_, Vec<(u32, Value)>>
    ensures { Gives (λ x. (x.0.items, x.1.now)) result (some_bindings bytes.now) }
{
    let (first, rest) = first_binding_at(alloc, bytes)?;
    let variable = first.0;
    let env = vec![in alloc; first]?;
    further_bindings(alloc, env, rest, variable)
}

/// An environment, whose variables rise.
pub(crate) fn environment_at(alloc: Global, bytes: &[u8]) -> Read<'_, Vec<(u32, Value)>>
    ensures { Gives (λ x. (x.0.items, x.1.now)) result (environment_at bytes.now) }
{
    match after_dash(bytes) {
        Some(rest) => Ok((Vec::new(alloc), rest)),
        None => some_bindings_at(alloc, bytes),
    }
}
