//! Patterns in a text, read without recursion: patterns of which some parts
//! are read wait in a vector, the outermost first.
ghost use Rattle.std.specs.Prelude.{◌≡◌, ◌-◌, Ok, length, map, suc, ℕ};
ghost use Rattle.std.proofs.Common.{inl};
ghost use Rattle.cu_calculus.specs.Term.{Any, Exactly};
ghost use Rattle.cu_kernel.specs.TermsOf.{pattern_of};
ghost use Rattle.cu_prooftext.specs.Inside.Frames.{begin_built, begin_named, begin_pattern, begin_within, next_built, pattern_after, plain_begin, resume, take_pattern};
ghost use Rattle.cu_prooftext.specs.Inside.FramesOf.{GoesOn, part_of, pattern_frame, progress_of};
ghost use Rattle.cu_prooftext.specs.Inside.Gives.{Gives};
ghost use Rattle.cu_prooftext.specs.Inside.Readers.{made};
ghost use Rattle.cu_prooftext.specs.Inside.Reading.{character_at, count_at, integer_at, most_parts, pattern_at, small_at};

use crate::fault::Fault;
use crate::heads::{character_at, integer_at};
use crate::numbers::{Read, after_word, index_at, number_at, small_at};
use crate::progress::Progress;
use crate::ranges::Range;
use cu_kernel::{ConId, Pattern};
use std::alloc::Global;

/// A pattern of which some parts are read, around the next one.
#[derive(Drop)]
pub(crate) enum OpenPattern {
    /// A constructor, its patterns so far, and how many come after the next.
    Constructor(ConId, Vec<Pattern>, usize),
    /// A pattern with a name.
    Alias(u32),
}

/// A pattern, or the beginning of one.
type PatternRead = Progress<Pattern, OpenPattern>;

/// How many parts may follow, where so many levels may stand in a term or
/// pattern.
fn most_parts(within: usize) -> u64
    ensures { result ≡ most_parts within }
{
    if within == 0 { 0 } else { u64::MAX }
}

/// How many parts follow, where so many levels may stand in a term or pattern.
#[tactic(auto, using(crate::proofs::NumberSteps::at_most_is))]
pub(crate) fn count_at(bytes: &[u8], within: usize) -> Read<'_, usize>
    ensures { Gives (λ x. (x.0, x.1.now)) result (count_at within bytes.now) }
{
    let digits = after_word(bytes, b"/")?;
    let most = most_parts(within);
    let (count, rest) = number_at(digits, Range::UpTo(most as u128))?;
    Ok((count as usize, rest))
}

/// A constructor with its patterns so far, of which so many are left.
#[tactic(auto, using(cu_kernel::specs::TermsOf::patterns_of_variants, crate::proofs::PatternFrames::patterns_are))]
fn next_pattern(
    constructor: ConId,
    patterns: Vec<Pattern>,
    left: usize,
    bytes: &[u8],
) -> Read<'_, PatternRead>
    ensures { Gives (λ x. (progress_of pattern_of pattern_frame x.0, x.1.now)) result
        (next_built constructor (map pattern_of patterns.items) left bytes.now) }
{
    if left == 0 {
        return Ok((Progress::Done(Pattern::Con(constructor, patterns)), bytes));
    }
    let rest = after_word(bytes, b" ")?;
    let around = OpenPattern::Constructor(constructor, patterns, left - 1);
    Ok((Progress::Open(around), rest))
}

/// The beginning of a constructor with patterns, after its mark.
fn begin_built(alloc: Global, bytes: &[u8], within: usize) -> Read<'_, PatternRead>
    ensures { Gives (λ x. (progress_of pattern_of pattern_frame x.0, x.1.now)) result
        (begin_built within bytes.now) }
{
    let (constructor, rest) = index_at(bytes)?;
    let (count, rest) = count_at(rest, within)?;
    next_pattern(ConId(constructor), Vec::new(alloc), count, rest)
}

/// The beginning of a pattern with a name, after its mark.
fn begin_named(bytes: &[u8]) -> Read<'_, PatternRead>
    ensures { Gives (λ x. (progress_of pattern_of pattern_frame x.0, x.1.now)) result
        (begin_named bytes.now) }
{
    let (variable, rest) = small_at(bytes)?;
    let rest = after_word(rest, b" ")?;
    Ok((Progress::Open(OpenPattern::Alias(variable)), rest))
}

/// A variable, after its mark.
#[tactic(auto, using(cu_kernel::specs::TermsOf::patterns_of_variants))]
fn read_variable(bytes: &[u8]) -> Read<'_, PatternRead>
    ensures { Gives (λ x. (progress_of pattern_of pattern_frame x.0, x.1.now)) result
        (made (λ x. inl (Any x)) small_at bytes.now) }
{
    let (variable, rest) = small_at(bytes)?;
    Ok((Progress::Done(Pattern::Var(variable)), rest))
}

/// An integer, after its mark.
#[tactic(auto, using(cu_kernel::specs::TermsOf::patterns_of_variants))]
fn read_integer(bytes: &[u8]) -> Read<'_, PatternRead>
    ensures { Gives (λ x. (progress_of pattern_of pattern_frame x.0, x.1.now)) result
        (made (λ l. inl (Exactly l)) integer_at bytes.now) }
{
    let (literal, rest) = integer_at(bytes)?;
    Ok((Progress::Done(Pattern::Lit(literal)), rest))
}

/// A character, after its mark.
#[tactic(auto, using(cu_kernel::specs::TermsOf::patterns_of_variants))]
fn read_character(bytes: &[u8]) -> Read<'_, PatternRead>
    ensures { Gives (λ x. (progress_of pattern_of pattern_frame x.0, x.1.now)) result
        (made (λ l. inl (Exactly l)) character_at bytes.now) }
{
    let (literal, rest) = character_at(bytes)?;
    Ok((Progress::Done(Pattern::Lit(literal)), rest))
}

/// The first part of a pattern that has no name, in which so many levels may
/// stand.
fn begin_plain(alloc: Global, bytes: &[u8], within: usize) -> Read<'_, PatternRead>
    ensures { Gives (λ x. (progress_of pattern_of pattern_frame x.0, x.1.now)) result
        (plain_begin within bytes.now) }
{
    match bytes {
        [b'x', after @ ..] => read_variable(after),
        [b'i', after @ ..] => read_integer(after),
        [b'h', after @ ..] => read_character(after),
        [b'k', after @ ..] => begin_built(alloc, after, within),
        _ => Err(Fault::Left(bytes.len())),
    }
}

/// The first part of a pattern, in which so many levels may stand.
fn begin_within(alloc: Global, bytes: &[u8], within: usize) -> Read<'_, PatternRead>
    ensures { Gives (λ x. (progress_of pattern_of pattern_frame x.0, x.1.now)) result
        (begin_within within bytes.now) }
{
    if within == 0 {
        return begin_plain(alloc, bytes, within);
    }
    match bytes {
        [b'a', after @ ..] => begin_named(after),
        _ => begin_plain(alloc, bytes, within),
    }
}

/// The first part of a pattern that is nested at most so deep.
fn begin_pattern(alloc: Global, bytes: &[u8], levels: usize) -> Read<'_, PatternRead>
    ensures { Gives (λ x. (progress_of pattern_of pattern_frame x.0, x.1.now)) result
        (begin_pattern levels bytes.now) }
{
    if levels == 0 {
        return Err(Fault::Left(bytes.len()));
    }
    begin_within(alloc, bytes, levels - 1)
}

/// The pattern around one that is read, with it.
#[tactic(auto, using(cu_kernel::specs::TermsOf::patterns_of_variants))]
fn take_pattern(
    alloc: Global,
    around: OpenPattern,
    pattern: Pattern,
    bytes: &[u8],
) -> Read<'_, PatternRead>
    ensures { Gives (λ x. (progress_of pattern_of pattern_frame x.0, x.1.now)) result
        (take_pattern (pattern_frame around) (pattern_of pattern) bytes.now) }
{
    match around {
        OpenPattern::Constructor(constructor, mut patterns, left) => {
            patterns.push(pattern)?;
            next_pattern(constructor, patterns, left, bytes)
        }
        OpenPattern::Alias(variable) => {
            let boxed = Box::new(alloc, pattern)?;
            Ok((Progress::Done(Pattern::Alias(variable, boxed)), bytes))
        }
    }
}

/// What comes of the patterns around one that is read: the outermost of them,
/// or none, where another one in them is to be read.
fn close_patterns<'a>(
    alloc: Global,
    outer: &mut Vec<OpenPattern>,
    read: Pattern,
    bytes: &'a [u8],
) -> Read<'a, Option<Pattern>>
    ensures { (levels : ℕ) → GoesOn pattern_at pattern_after levels
        (resume pattern_after (levels - 1) (map pattern_frame outer.old.items)
        (Ok (pattern_of read, bytes.now)))
        (map pattern_frame outer.new.items) (suc (length bytes.now))
        (λ x. (part_of pattern_of x.0, x.1.now)) result }
{
    let mut pattern = read;
    let mut rest = bytes;
    while let Some(around) = outer.pop() {
        let (progress, after) = take_pattern(alloc, around, pattern, rest)?;
        match progress {
            Progress::Done(whole) => {
                pattern = whole;
                rest = after;
            }
            Progress::Open(inner) => {
                outer.push(inner)?;
                return Ok((None, after));
            }
        }
    }
    Ok((Some(pattern), rest))
}

/// What comes of patterns once the next part in them is read, as of
/// [`close_patterns`]. They are nested at most so deep.
fn read_pattern_on<'a>(
    alloc: Global,
    outer: &mut Vec<OpenPattern>,
    bytes: &'a [u8],
    levels: usize,
) -> Read<'a, Option<Pattern>>
    ensures { GoesOn pattern_at pattern_after levels
        (resume pattern_after (levels - 1) (map pattern_frame outer.old.items)
        (pattern_at (levels - length outer.old.items) bytes.now))
        (map pattern_frame outer.new.items) (length bytes.now)
        (λ x. (part_of pattern_of x.0, x.1.now)) result }
{
    let left = levels.saturating_sub(outer.len());
    let (progress, rest) = begin_pattern(alloc, bytes, left)?;
    match progress {
        Progress::Done(pattern) => close_patterns(alloc, outer, pattern, rest),
        Progress::Open(inner) => {
            outer.push(inner)?;
            Ok((None, rest))
        }
    }
}

/// A pattern that is nested at most so deep.
pub(crate) fn pattern_at(alloc: Global, bytes: &[u8], levels: usize) -> Read<'_, Pattern>
    ensures { Gives (λ x. (pattern_of x.0, x.1.now)) result (pattern_at levels bytes.now) }
{
    let mut outer = Vec::new(alloc);
    let mut rest = bytes;
    loop {
        let (read, after) = read_pattern_on(alloc, &mut outer, rest, levels)?;
        match read {
            Some(pattern) => return Ok((pattern, after)),
            None => rest = after,
        }
    }
}
