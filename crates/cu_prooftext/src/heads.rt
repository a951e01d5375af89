//! Literals and heads in a text.
ghost use Rattle.std.specs.Prelude.{◌≡◌, ◌-◌, ◌≤◌, ◌^◌, negsuc};
ghost use Rattle.cu_prooftext.specs.Inside.Gives.{Gives};
ghost use Rattle.cu_prooftext.specs.Inside.Reading.{character_at, head_at, integer_at};

use crate::fault::Fault;
use crate::numbers::{Read, index_at, number_at};
use crate::ranges::Range;
use cu_kernel::{ConId, FunId, Head, Lit};

/// The negative number of an amount.
fn negated(amount: u128) -> i128
    requires positive { 1 ≤ amount }
    requires small { amount ≤ 2 ^ 127 }
    ensures { result ≡ negsuc (amount - 1) }
{
    -((amount - 1) as i128) - 1
}

/// An integer, after its mark.
#[tactic(auto, using(crate::proofs::NumberSteps::at_most_is, crate::proofs::NumberSteps::between_is))]
pub(crate) fn integer_at(bytes: &[u8]) -> Read<'_, Lit>
    ensures { Gives (λ x. (x.0, x.1.now)) result (integer_at bytes.now) }
{
    match bytes {
        [b'-', digits @ ..] => {
            let range = Range::FromOne(170_141_183_460_469_231_731_687_303_715_884_105_728);
            let (amount, rest) = number_at(digits, range)?;
            Ok((Lit::Int(negated(amount)), rest))
        }
        _ => {
            let range = Range::UpTo(170_141_183_460_469_231_731_687_303_715_884_105_727);
            let (number, rest) = number_at(bytes, range)?;
            Ok((Lit::Int(number as i128), rest))
        }
    }
}

/// A character by its number, after its mark.
#[tactic(auto, using(crate::proofs::NumberSteps::scalar_is))]
pub(crate) fn character_at(bytes: &[u8]) -> Read<'_, Lit>
    ensures { Gives (λ x. (x.0, x.1.now)) result (character_at bytes.now) }
{
    let (number, rest) = number_at(bytes, Range::Scalars)?;
    match char::from_u32(number as u32) {
        Some(character) => Ok((Lit::Char(character), rest)),
        None => Err(Fault::Left(rest.len())),
    }
}

/// A head.
pub(crate) fn head_at(bytes: &[u8]) -> Read<'_, Head>
    ensures { Gives (λ x. (x.0, x.1.now)) result (head_at bytes.now) }
{
    match bytes {
        [b'f', after @ ..] => {
            let (number, rest) = index_at(after)?;
            Ok((Head::Fun(FunId(number)), rest))
        }
        [b'c', after @ ..] => {
            let (number, rest) = index_at(after)?;
            Ok((Head::Con(ConId(number)), rest))
        }
        [b's', after @ ..] => {
            let (number, rest) = index_at(after)?;
            Ok((Head::Set(FunId(number)), rest))
        }
        _ => Err(Fault::Left(bytes.len())),
    }
}
