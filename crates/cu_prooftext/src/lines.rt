//! The lines of steps and claims in a text.
ghost use Rattle.std.specs.Prelude.{◌≡◌, ◌<◌, ◌^◌, ℕ, None, map, true};
ghost use Rattle.cu_crwl.specs.Meaning.{claim_of, statement_of, step_of};
ghost use Rattle.cu_prooftext.specs.Inside.Gives.{Gives};
ghost use Rattle.cu_prooftext.specs.Inside.Lines.{all_steps_at, claim_at, claims_at, heading_at, statement_at, step_at, steps_at};
ghost use Rattle.cu_prooftext.specs.Inside.RangeOf.{IsBounded, fits_in, leads_in};
ghost use Rattle.cu_prooftext.specs.Inside.Readers.{digits_at, many};

use crate::cells::value_at;
use crate::lists::{cites_at, environment_at, values_at};
use crate::numbers::{Read, after_word, index_at, number_at};
use crate::ranges::{INDICES, Range};
use crate::reading_terms::term_at;
use cu_crwl::{Claim, Statement, Step};
use cu_kernel::FunId;
use std::alloc::Global;

/// How deep the terms of a text may be nested.
const MAX_NESTING: usize = 16_384;

/// A statement.
fn statement_at(alloc: Global, bytes: &[u8]) -> Read<'_, Statement>
    ensures { Gives (λ x. (statement_of x.0, x.1.now)) result (statement_at bytes.now) }
{
    let (env, rest) = environment_at(alloc, bytes)?;
    let rest = after_word(rest, b" : ")?;
    let (term, rest) = term_at(alloc, rest, MAX_NESTING)?;
    let rest = after_word(rest, b" => ")?;
    let (value, rest) = value_at(alloc, rest)?;
    Ok((Statement { env, term, value }, rest))
}

/// The line of the step of a number.
fn step_at(alloc: Global, bytes: &[u8], number: usize) -> Read<'_, Step>
    ensures { Gives (λ x. (step_of x.0, x.1.now)) result (step_at number bytes.now) }
{
    let (cites, rest) = cites_at(alloc, bytes, number)?;
    let rest = after_word(rest, b" : ")?;
    let (statement, rest) = statement_at(alloc, rest)?;
    let rest = after_word(rest, b"\n")?;
    Ok((Step { cites, statement }, rest))
}

/// The line of a claim.
fn claim_at(alloc: Global, bytes: &[u8]) -> Read<'_, Claim>
    ensures { Gives (λ x. (claim_of x.0, x.1.now)) result (claim_at bytes.now) }
{
    let rest = after_word(bytes, b"f")?;
    let (number, rest) = index_at(rest)?;
    let rest = after_word(rest, b" : ")?;
    let (arguments, rest) = values_at(alloc, rest)?;
    let rest = after_word(rest, b" : ")?;
    let (values, rest) = values_at(alloc, rest)?;
    let rest = after_word(rest, b"\n")?;
    let claim = Claim {
        function: FunId(number),
        arguments,
        values,
    };
    Ok((claim, rest))
}

/// A line that says how many lines of a kind follow, a number in a range.
fn heading_at<'a>(bytes: &'a [u8], title: &[u8], range: Range) -> Read<'a, usize>
    requires bounded { IsBounded range }
    requires small { (n : ℕ) → fits_in range n ≡ true → n < 2 ^ 64 }
    ensures { Gives (λ x. (x.0, x.1.now)) result
        (heading_at title.now (digits_at (leads_in range) (fits_in range) None) bytes.now) }
{
    let rest = after_word(bytes, title)?;
    let (count, rest) = number_at(rest, range)?;
    let rest = after_word(rest, b"\n")?;
    Ok((count as usize, rest))
}

/// The lines of so many claims.
fn claim_lines(alloc: Global, bytes: &[u8], count: usize) -> Read<'_, Vec<Claim>>
    ensures { Gives (λ x. (map claim_of x.0.items, x.1.now)) result
        (many claim_at count bytes.now) }
{
    let mut claims = Vec::new(alloc);
    let mut rest = bytes;
    let mut left = count;
    while left > 0 {
        let (claim, more) = claim_at(alloc, rest)?;
        claims.push(claim)?;
        rest = more;
        left -= 1;
    }
    Ok((claims, rest))
}

/// The lines of so many steps, numbered from 0.
fn step_lines(alloc: Global, bytes: &[u8], count: usize) -> Read<'_, Vec<Step>>
    ensures { Gives (λ x. (map step_of x.0.items, x.1.now)) result
        (steps_at 0 count bytes.now) }
{
    let mut steps = Vec::new(alloc);
    let mut rest = bytes;
    let mut number = 0;
    while number < count {
        let (step, more) = step_at(alloc, rest, number)?;
        steps.push(step)?;
        rest = more;
        number += 1;
    }
    Ok((steps, rest))
}

/// How many claims there are, and their lines.
pub(crate) fn claims_at(alloc: Global, bytes: &[u8]) -> Read<'_, (usize, Vec<Claim>)>
    ensures { Gives (λ x. ((x.0.0, map claim_of x.0.1.items), x.1.now)) result
        (claims_at bytes.now) }
{
    let (count, rest) = heading_at(bytes, b"claims ", INDICES)?;
    let (claims, rest) = claim_lines(alloc, rest, count)?;
    Ok(((count, claims), rest))
}

/// How many steps there are, and their lines.
pub(crate) fn all_steps_at(alloc: Global, bytes: &[u8]) -> Read<'_, (usize, Vec<Step>)>
    ensures { Gives (λ x. ((x.0.0, map step_of x.0.1.items), x.1.now)) result
        (all_steps_at bytes.now) }
{
    let range = Range::FromOne(18_446_744_073_709_551_615);
    let (count, rest) = heading_at(bytes, b"steps ", range)?;
    let (steps, rest) = step_lines(alloc, rest, count)?;
    Ok(((count, steps), rest))
}
