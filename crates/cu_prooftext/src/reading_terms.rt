//! Terms in a text, read without recursion: terms of which some parts are
//! read wait in a vector, the outermost first.
ghost use Rattle.std.specs.Prelude.{◌-◌, Ok, length, map, suc};
ghost use Rattle.cu_kernel.specs.TermsOf.{term_of};
ghost use Rattle.cu_prooftext.specs.Inside.Frames.{resume, term_after};
ghost use Rattle.cu_prooftext.specs.Inside.FramesOf.{GoesOn, part_of, term_frame};
ghost use Rattle.cu_prooftext.specs.Inside.Gives.{Gives};
ghost use Rattle.cu_prooftext.specs.Inside.Reading.{term_at};

use crate::numbers::Read;
use crate::progress::Progress;
use crate::term_parts::{OpenTerm, begin_term, take_term};
use cu_kernel::Term;
use std::alloc::Global;

/// What comes of the terms around one that is read: the outermost of them, or
/// none, where another one in them is to be read. They are nested at most so
/// deep.
fn close_terms<'a>(
    alloc: Global,
    outer: &mut Vec<OpenTerm>,
    read: Term,
    bytes: &'a [u8],
    levels: usize,
) -> Read<'a, Option<Term>>
    ensures { GoesOn term_at term_after levels
        (resume term_after (levels - 1) (map term_frame outer.old.items)
        (Ok (term_of read, bytes.now)))
        (map term_frame outer.new.items) (suc (length bytes.now))
        (λ x. (part_of term_of x.0, x.1.now)) result }
{
    let mut term = read;
    let mut rest = bytes;
    while let Some(around) = outer.pop() {
        let within = levels.saturating_sub(outer.len() + 1);
        let (progress, after) = take_term(alloc, around, term, rest, within)?;
        match progress {
            Progress::Done(whole) => {
                term = whole;
                rest = after;
            }
            Progress::Open(inner) => {
                outer.push(inner)?;
                return Ok((None, after));
            }
        }
    }
    Ok((Some(term), rest))
}

/// What comes of terms once the next part in them is read, as of
/// [`close_terms`].
fn read_term_on<'a>(
    alloc: Global,
    outer: &mut Vec<OpenTerm>,
    bytes: &'a [u8],
    levels: usize,
) -> Read<'a, Option<Term>>
    ensures { GoesOn term_at term_after levels
        (resume term_after (levels - 1) (map term_frame outer.old.items)
        (term_at (levels - length outer.old.items) bytes.now))
        (map term_frame outer.new.items) (length bytes.now)
        (λ x. (part_of term_of x.0, x.1.now)) result }
{
    let left = levels.saturating_sub(outer.len());
    let (progress, rest) = begin_term(alloc, bytes, left)?;
    match progress {
        Progress::Done(term) => close_terms(alloc, outer, term, rest, levels),
        Progress::Open(inner) => {
            outer.push(inner)?;
            Ok((None, rest))
        }
    }
}

/// A term that is nested at most so deep.
pub(crate) fn term_at(alloc: Global, bytes: &[u8], levels: usize) -> Read<'_, Term>
    ensures { Gives (λ x. (term_of x.0, x.1.now)) result (term_at levels bytes.now) }
{
    let mut outer = Vec::new(alloc);
    let mut rest = bytes;
    loop {
        let (read, after) = read_term_on(alloc, &mut outer, rest, levels)?;
        match read {
            Some(term) => return Ok((term, after)),
            None => rest = after,
        }
    }
}
