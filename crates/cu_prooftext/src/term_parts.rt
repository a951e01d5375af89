//! The first part of a term in a text, and what comes of a term once one in
//! it is read.
ghost use Rattle.std.specs.Prelude.{map};
ghost use Rattle.std.proofs.Common.{inl};
ghost use Rattle.cu_calculus.specs.Term.{Literal, Variable};
ghost use Rattle.cu_kernel.specs.TermsOf.{term_of};
ghost use Rattle.cu_prooftext.specs.Inside.Frames.{awaiting, begin_case, begin_free, begin_inside, begin_let, begin_part, begin_term, begin_whole, deep_term, next_alternative, next_part, next_whole, plain_term, take_term};
ghost use Rattle.cu_prooftext.specs.Inside.FramesOf.{progress_of, row_of, term_frame};
ghost use Rattle.cu_prooftext.specs.Inside.Gives.{Gives};
ghost use Rattle.cu_prooftext.specs.Inside.Readers.{made};
ghost use Rattle.cu_prooftext.specs.Inside.Reading.{character_at, integer_at, small_at};

use crate::fault::Fault;
use crate::heads::{character_at, head_at, integer_at};
use crate::numbers::{Read, after_word, small_at};
use crate::progress::Progress;
use crate::reading_patterns::{count_at, pattern_at};
use cu_kernel::{Head, Mode, Pattern, Term};
use std::alloc::Global;

/// A case distinction, with the alternatives that are read so far.
#[derive(Drop)]
pub(crate) struct OpenCase {
    pub(crate) mode: Mode,
    pub(crate) scrutinee: Box<Term>,
    pub(crate) alternatives: Vec<(Pattern, Term)>,
}

/// A term of which some parts are read, around the next one.
#[derive(Drop)]
pub(crate) enum OpenTerm {
    /// A head with all its terms: those so far, and how many come after the
    /// next.
    Whole(Head, Vec<Term>, usize),
    /// A head with fewer terms than it takes, in the same way.
    Part(Head, Vec<Term>, usize),
    /// An application, around the function.
    Function,
    /// An application of this function, around the argument.
    Argument(Box<Term>),
    /// A Let, around what its variable stands for.
    Definition(u32),
    /// A Let with its definition, around its body.
    LetBody(u32, Box<Term>),
    /// A free variable, around what it is free in.
    FreeBody(u32),
    /// A choice, around its left side.
    Left,
    /// A choice with its left side, around the right one.
    Right(Box<Term>),
    /// A case distinction with so many alternatives, around the scrutinee.
    Scrutinee(Mode, usize),
    /// An alternative with its pattern, around its term, and how many
    /// alternatives come after it.
    Alternative(OpenCase, Pattern, usize),
}

/// A term, or the beginning of one.
pub(crate) type TermRead = Progress<Term, OpenTerm>;

/// The term around one that is to be read, before the space in front of it.
fn await_term(around: OpenTerm, bytes: &[u8]) -> Read<'_, TermRead>
    ensures { Gives (λ x. (progress_of term_of term_frame x.0, x.1.now)) result
        (awaiting (term_frame around) bytes.now) }
{
    let rest = after_word(bytes, b" ")?;
    Ok((Progress::Open(around), rest))
}

/// A head with all its terms, those so far, of which so many are left.
#[tactic(auto, using(cu_kernel::specs::TermsOf::terms_of_variants, crate::proofs::TermFrames::terms_are))]
fn next_whole(head: Head, terms: Vec<Term>, left: usize, bytes: &[u8]) -> Read<'_, TermRead>
    ensures { Gives (λ x. (progress_of term_of term_frame x.0, x.1.now)) result
        (next_whole head (map term_of terms.items) left bytes.now) }
{
    if left == 0 {
        return Ok((Progress::Done(Term::Whole(head, terms)), bytes));
    }
    await_term(OpenTerm::Whole(head, terms, left - 1), bytes)
}

/// A head with some terms, those so far, of which so many are left.
#[tactic(auto, using(cu_kernel::specs::TermsOf::terms_of_variants, crate::proofs::TermFrames::terms_are))]
fn next_part(head: Head, terms: Vec<Term>, left: usize, bytes: &[u8]) -> Read<'_, TermRead>
    ensures { Gives (λ x. (progress_of term_of term_frame x.0, x.1.now)) result
        (next_part head (map term_of terms.items) left bytes.now) }
{
    if left == 0 {
        return Ok((Progress::Done(Term::Part(head, terms)), bytes));
    }
    await_term(OpenTerm::Part(head, terms, left - 1), bytes)
}

/// A case distinction with its alternatives so far, of which so many are left.
/// So many levels may stand in it.
#[tactic(auto, using(cu_kernel::specs::TermsOf::terms_of_variants, crate::proofs::TermFrames::rows_are))]
fn next_alternative(
    alloc: Global,
    distinction: OpenCase,
    left: usize,
    bytes: &[u8],
    within: usize,
) -> Read<'_, TermRead>
    ensures { Gives (λ x. (progress_of term_of term_frame x.0, x.1.now)) result
        (next_alternative within distinction.mode (term_of distinction.scrutinee.value)
        (map row_of distinction.alternatives.items) left bytes.now) }
{
    if left == 0 {
        let OpenCase {
            mode,
            scrutinee,
            alternatives,
        } = distinction;
        return Ok((
            Progress::Done(Term::Case(mode, scrutinee, alternatives)),
            bytes,
        ));
    }
    let rest = after_word(bytes, b" ")?;
    let (pattern, rest) = pattern_at(alloc, rest, within)?;
    await_term(OpenTerm::Alternative(distinction, pattern, left - 1), rest)
}

/// The beginning of a head with all its terms, after its mark.
fn begin_whole(alloc: Global, bytes: &[u8], within: usize) -> Read<'_, TermRead>
    ensures { Gives (λ x. (progress_of term_of term_frame x.0, x.1.now)) result
        (begin_whole within bytes.now) }
{
    let (head, rest) = head_at(bytes)?;
    let (count, rest) = count_at(rest, within)?;
    next_whole(head, Vec::new(alloc), count, rest)
}

/// The beginning of a head with some terms, after its mark.
fn begin_part(alloc: Global, bytes: &[u8], within: usize) -> Read<'_, TermRead>
    ensures { Gives (λ x. (progress_of term_of term_frame x.0, x.1.now)) result
        (begin_part within bytes.now) }
{
    let (head, rest) = head_at(bytes)?;
    let (count, rest) = count_at(rest, within)?;
    next_part(head, Vec::new(alloc), count, rest)
}

/// A variable, after its mark.
#[tactic(auto, using(cu_kernel::specs::TermsOf::terms_of_variants))]
fn read_variable(bytes: &[u8]) -> Read<'_, TermRead>
    ensures { Gives (λ x. (progress_of term_of term_frame x.0, x.1.now)) result
        (made (λ x. inl (Variable x)) small_at bytes.now) }
{
    let (variable, rest) = small_at(bytes)?;
    Ok((Progress::Done(Term::Var(variable)), rest))
}

/// An integer, after its mark.
#[tactic(auto, using(cu_kernel::specs::TermsOf::terms_of_variants))]
fn read_integer(bytes: &[u8]) -> Read<'_, TermRead>
    ensures { Gives (λ x. (progress_of term_of term_frame x.0, x.1.now)) result
        (made (λ l. inl (Literal l)) integer_at bytes.now) }
{
    let (literal, rest) = integer_at(bytes)?;
    Ok((Progress::Done(Term::Lit(literal)), rest))
}

/// A character, after its mark.
#[tactic(auto, using(cu_kernel::specs::TermsOf::terms_of_variants))]
fn read_character(bytes: &[u8]) -> Read<'_, TermRead>
    ensures { Gives (λ x. (progress_of term_of term_frame x.0, x.1.now)) result
        (made (λ l. inl (Literal l)) character_at bytes.now) }
{
    let (literal, rest) = character_at(bytes)?;
    Ok((Progress::Done(Term::Lit(literal)), rest))
}

/// The first part of a term that may have no terms in it, in which so many
/// levels may stand.
fn begin_plain(alloc: Global, bytes: &[u8], within: usize) -> Read<'_, TermRead>
    ensures { Gives (λ x. (progress_of term_of term_frame x.0, x.1.now)) result
        (plain_term within bytes.now) }
{
    match bytes {
        [b'x', after @ ..] => read_variable(after),
        [b'i', after @ ..] => read_integer(after),
        [b'h', after @ ..] => read_character(after),
        [b'w', after @ ..] => begin_whole(alloc, after, within),
        [b'q', after @ ..] => begin_part(alloc, after, within),
        _ => Err(Fault::Left(bytes.len())),
    }
}

/// The beginning of a Let, after its mark.
fn begin_let(bytes: &[u8]) -> Read<'_, TermRead>
    ensures { Gives (λ x. (progress_of term_of term_frame x.0, x.1.now)) result
        (begin_let bytes.now) }
{
    let (variable, rest) = small_at(bytes)?;
    await_term(OpenTerm::Definition(variable), rest)
}

/// The beginning of a free variable, after its mark.
fn begin_free(bytes: &[u8]) -> Read<'_, TermRead>
    ensures { Gives (λ x. (progress_of term_of term_frame x.0, x.1.now)) result
        (begin_free bytes.now) }
{
    let (variable, rest) = small_at(bytes)?;
    await_term(OpenTerm::FreeBody(variable), rest)
}

/// The beginning of a case distinction, after the mark of its mode.
fn begin_case(bytes: &[u8], mode: Mode, within: usize) -> Read<'_, TermRead>
    ensures { Gives (λ x. (progress_of term_of term_frame x.0, x.1.now)) result
        (begin_case within mode bytes.now) }
{
    let (count, rest) = count_at(bytes, within)?;
    await_term(OpenTerm::Scrutinee(mode, count), rest)
}

/// The first part of a term that has terms in it, or of any other.
fn begin_deep(alloc: Global, bytes: &[u8], within: usize) -> Read<'_, TermRead>
    ensures { Gives (λ x. (progress_of term_of term_frame x.0, x.1.now)) result
        (deep_term within bytes.now) }
{
    match bytes {
        [b'@', after @ ..] => await_term(OpenTerm::Function, after),
        [b'l', after @ ..] => begin_let(after),
        [b'n', after @ ..] => begin_free(after),
        [b'o', after @ ..] => await_term(OpenTerm::Left, after),
        [b'r', after @ ..] => begin_case(after, Mode::Rigid, within),
        [b'f', after @ ..] => begin_case(after, Mode::Flex, within),
        _ => begin_plain(alloc, bytes, within),
    }
}

/// The first part of a term, in which so many levels may stand.
fn begin_inside(alloc: Global, bytes: &[u8], within: usize) -> Read<'_, TermRead>
    ensures { Gives (λ x. (progress_of term_of term_frame x.0, x.1.now)) result
        (begin_inside within bytes.now) }
{
    if within == 0 {
        return begin_plain(alloc, bytes, within);
    }
    begin_deep(alloc, bytes, within)
}

/// The first part of a term that is nested at most so deep.
pub(crate) fn begin_term(alloc: Global, bytes: &[u8], levels: usize) -> Read<'_, TermRead>
    ensures { Gives (λ x. (progress_of term_of term_frame x.0, x.1.now)) result
        (begin_term levels bytes.now) }
{
    if levels == 0 {
        return Err(Fault::Left(bytes.len()));
    }
    begin_inside(alloc, bytes, levels - 1)
}

/// The term around one that is read, with it. So many levels may stand in the
/// outer one.
#[tactic(auto, using(cu_kernel::specs::TermsOf::terms_of_variants))]
pub(crate) fn take_term(
    alloc: Global,
    around: OpenTerm,
    term: Term,
    bytes: &[u8],
    within: usize,
) -> Read<'_, TermRead>
    ensures { Gives (λ x. (progress_of term_of term_frame x.0, x.1.now)) result
        (take_term within (term_frame around) (term_of term) bytes.now) }
{
    match around {
        OpenTerm::Whole(head, mut terms, left) => {
            terms.push(term)?;
            next_whole(head, terms, left, bytes)
        }
        OpenTerm::Part(head, mut terms, left) => {
            terms.push(term)?;
            next_part(head, terms, left, bytes)
        }
        OpenTerm::Scrutinee(mode, count) => {
            let distinction = OpenCase {
                mode,
                scrutinee: Box::new(alloc, term)?,
                alternatives: Vec::new(alloc),
            };
            next_alternative(alloc, distinction, count, bytes, within)
        }
        OpenTerm::Alternative(mut distinction, pattern, left) => {
            distinction.alternatives.push((pattern, term))?;
            next_alternative(alloc, distinction, left, bytes, within)
        }
        OpenTerm::Function => await_term(OpenTerm::Argument(Box::new(alloc, term)?), bytes),
        OpenTerm::Definition(variable) => {
            await_term(OpenTerm::LetBody(variable, Box::new(alloc, term)?), bytes)
        }
        OpenTerm::Left => await_term(OpenTerm::Right(Box::new(alloc, term)?), bytes),
        OpenTerm::Argument(function) => {
            let boxed = Box::new(alloc, term)?;
            Ok((Progress::Done(Term::Apply(function, boxed)), bytes))
        }
        OpenTerm::LetBody(variable, definition) => {
            let boxed = Box::new(alloc, term)?;
            Ok((
                Progress::Done(Term::Let(variable, definition, boxed)),
                bytes,
            ))
        }
        OpenTerm::FreeBody(variable) => {
            let boxed = Box::new(alloc, term)?;
            Ok((Progress::Done(Term::Free(variable, boxed)), bytes))
        }
        OpenTerm::Right(left) => {
            let boxed = Box::new(alloc, term)?;
            Ok((Progress::Done(Term::Or(left, boxed)), bytes))
        }
    }
}
