//! Numbers in a text, and the words between them.
ghost use Rattle.std.specs.Prelude.{◌≡◌, ◌∷◌, ◌<◌, [], IfOk, None, true};
ghost use Rattle.cu_prooftext.specs.Inside.Gives.{Gives};
ghost use Rattle.cu_prooftext.specs.Inside.RangeOf.{fits_in, leads_in, IsBounded};
ghost use Rattle.cu_prooftext.specs.Inside.Readers.{digits_at, next_number, number_end, word_at};
ghost use Rattle.cu_prooftext.specs.Inside.Reading.{index_at, small_at};

use crate::fault::Fault;
use crate::ranges::{INDICES, Range, SMALL};

/// What is read first, and the bytes after it.
pub(crate) type Read<'a, X> = Result<(X, &'a [u8]), Fault>;

/// The most that may stand before one more digit of 128 bits.
const MOST: u128 = 17_014_118_346_046_923_173_168_730_371_588_410_573;

/// The number after one more digit, where it leads to a number in a range.
/// There is none after a zero.
#[tactic(auto, using(crate::proofs::NumberSteps::none_leads))]
fn next(number: Option<u128>, digit: u128, range: Range) -> Option<u128>
    requires range { IsBounded range }
    requires digit { digit < 10 }
    ensures { result ≡ next_number (leads_in range) number digit }
{
    let longer = match number {
        None => digit,
        Some(0) => return None,
        Some(n) => {
            if n > MOST {
                return None;
            }
            n * 10 + digit
        }
    };
    if range.leads(longer) {
        Some(longer)
    } else {
        None
    }
}

/// The number in a range that the bytes begin with, all its digits.
pub(crate) fn number_at(bytes: &[u8], range: Range) -> Read<'_, u128>
    requires { IsBounded range }
    ensures gives { Gives (λ x. (x.0, x.1.now)) result
        (digits_at (leads_in range) (fits_in range) None bytes.now) }
    ensures fits { IfOk result (λ x. fits_in range x.0 ≡ true) }
{
    let mut number = None;
    let mut rest = bytes;
    while let [byte, after @ ..] = rest {
        if *byte < 48 || *byte > 57 {
            break;
        }
        let Some(longer) = next(number, (*byte - 48) as u128, range) else {
            return Err(Fault::Left(rest.len()));
        };
        number = Some(longer);
        rest = after;
    }
    end_of_number(number, rest, range)
}

/// The number that ends before these bytes.
fn end_of_number(number: Option<u128>, rest: &[u8], range: Range) -> Read<'_, u128>
    ensures gives { Gives (λ x. (x.0, x.1.now)) result
        (number_end (fits_in range) number rest.now) }
    ensures fits { IfOk result (λ x. fits_in range x.0 ≡ true) }
{
    let Some(n) = number else {
        return Err(Fault::Left(rest.len()));
    };
    if range.fits(n) {
        Ok((n, rest))
    } else {
        Err(Fault::Left(rest.len()))
    }
}

/// A number of 64 bits.
#[tactic(auto, using(crate::proofs::NumberSteps::at_most_is))]
pub(crate) fn index_at(bytes: &[u8]) -> Read<'_, usize>
    ensures { Gives (λ x. (x.0, x.1.now)) result (index_at bytes.now) }
{
    let (number, rest) = number_at(bytes, INDICES)?;
    Ok((number as usize, rest))
}

/// A number of 32 bits.
#[tactic(auto, using(crate::proofs::NumberSteps::at_most_is))]
pub(crate) fn small_at(bytes: &[u8]) -> Read<'_, u32>
    ensures { Gives (λ x. (x.0, x.1.now)) result (small_at bytes.now) }
{
    let (number, rest) = number_at(bytes, SMALL)?;
    Ok((number as u32, rest))
}

/// The bytes after one that they begin with.
fn after_byte(bytes: &[u8], wanted: u8) -> Result<&[u8], Fault>
    ensures { Gives (λ x. x.now) result (word_at (wanted ∷ []) bytes.now) }
{
    let [byte, after @ ..] = bytes else {
        return Err(Fault::Left(0));
    };
    if *byte == wanted {
        Ok(after)
    } else {
        Err(Fault::Left(bytes.len()))
    }
}

/// The bytes after a word that they begin with.
pub(crate) fn after_word<'a>(bytes: &'a [u8], word: &[u8]) -> Result<&'a [u8], Fault>
    ensures { Gives (λ x. x.now) result (word_at word.now bytes.now) }
{
    let mut rest = bytes;
    for wanted in word {
        rest = after_byte(rest, *wanted)?;
    }
    Ok(rest)
}
