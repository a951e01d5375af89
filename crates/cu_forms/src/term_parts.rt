//! What terms are made of, given what their parts stand for.
ghost use Rattle.std.specs.Prelude.{◌≡◌, ◌∷◌, [], IfOk, codes, map};
ghost use Rattle.std.specs.Option.{option_map};
ghost use Rattle.cu_kernel.specs.LocalTerm as kernel;
ghost use Rattle.cu_kernel.specs.LocalTermsOf.{local_term_of};
ghost use Rattle.cu_lex.specs.Reading.{position_of};
ghost use Rattle.cu_translation.specs.Meaning.{Setting, referent_meaning};
ghost use Rattle.cu_translation.specs.Table as table;
ghost use Rattle.cu_translation.specs.Terms as terms;
ghost use Rattle.cu_forms.specs.Inside.Blocks.{row_meaning};
ghost use Rattle.cu_forms.specs.Inside.Calls.{built_in_term, referred_on};
ghost use Rattle.cu_forms.specs.Inside.Expressions.{alternatives_term, generated_term};
ghost use Rattle.cu_forms.specs.Inside.Lists.{list_term};

use crate::calls::{built_in, referred};
use crate::lists::list;
use cu_kernel::{LocalHead, LocalTerm, Mode, Pattern as KernelPattern};
use cu_names::Place;
use cu_syntax::CaseWord;
use cu_translation::{BuiltIn, Position, Referent, Surroundings};
use std::alloc::{AllocError, Global};

/// The term of what a name refers to, without arguments.
pub(crate) fn alone(alloc: Global, means: Referent) -> Result<LocalTerm, AllocError>
    ensures { IfOk result (λ t. local_term_of t ≡ terms.referred (referent_meaning means) []) }
{
    referred(alloc, means, None, Vec::new(alloc))
}

/// The term of an operator on its first operand, which may be a name and
/// nothing else.
pub(crate) fn left_section(
    alloc: Global,
    means: Referent,
    name: Option<Referent>,
    operand: LocalTerm,
) -> Result<LocalTerm, AllocError>
    ensures { IfOk result (λ t. local_term_of t
        ≡ referred_on (referent_meaning means) (option_map referent_meaning name)
        (local_term_of operand ∷ [])) }
{
    let arguments = vec![in alloc; operand]?;
    referred(alloc, means, name, arguments)
}

/// The term of an operator on its second operand.
pub(crate) fn right_section<A: Surroundings>(
    alloc: Global,
    around: &A,
    means: Referent,
    operand: LocalTerm,
) -> Result<LocalTerm, AllocError>
    ensures { (w : Setting) → A.tells around.now w
        → IfOk result (λ t. local_term_of t ≡ built_in_term w.around.names (codes "flip")
        (terms.referred (referent_meaning means) [] ∷ local_term_of operand ∷ [])) }
{
    let function = alone(alloc, means)?;
    let arguments = vec![in alloc; function, operand]?;
    built_in(alloc, around, BuiltIn::Flip, arguments)
}

/// Whether a case distinction waits for a variable (`case`), or binds it
/// (`fcase`).
fn mode(word: CaseWord) -> Mode
    ensures { result ≡ table.mode word }
{
    match word {
        CaseWord::Case => Mode::Rigid,
        CaseWord::Fcase => Mode::Flex,
    }
}

/// The term of a case distinction.
pub(crate) fn distinguished(
    alloc: Global,
    word: CaseWord,
    subject: LocalTerm,
    rows: Vec<(KernelPattern, LocalTerm)>,
) -> Result<LocalTerm, AllocError>
    ensures { IfOk result (λ t. local_term_of t
        ≡ kernel.Case (table.mode word) (local_term_of subject)
        (alternatives_term (map row_meaning rows.items))) }
{
    let subject = Box::new(alloc, subject)?;
    Ok(LocalTerm::Case(mode(word), subject, rows))
}

/// The term of the local function whose first token stands at a place, without
/// arguments.
#[tactic(auto, using(cu_kernel::specs::LocalTermsOf::local_terms_of_variants))]
pub(crate) fn local_function<A: Surroundings>(alloc: Global, around: &A, place: Place) -> LocalTerm
    ensures { (w : Setting) → A.tells around.now w
        → local_term_of result ≡ table.local_function w.around (position_of place) }
{
    let function = around.function(Position::of(place));
    LocalTerm::Part(LocalHead::Local(function), Vec::new(alloc))
}

/// The term that applies the local function whose first token stands at a place
/// to each element of a list, and joins the results.
pub(crate) fn mapped<A: Surroundings>(
    alloc: Global,
    around: &A,
    place: Place,
    elements: LocalTerm,
) -> Result<LocalTerm, AllocError>
    ensures { (w : Setting) → A.tells around.now w
        → IfOk result (λ t. local_term_of t
        ≡ generated_term w.around (position_of place) (local_term_of elements)) }
{
    let function = local_function(alloc, around, place);
    let arguments = vec![in alloc; function, elements]?;
    built_in(alloc, around, BuiltIn::ConcatMap, arguments)
}

/// The term of the list of one term.
pub(crate) fn single<A: Surroundings>(
    alloc: Global,
    around: &A,
    element: LocalTerm,
) -> Result<LocalTerm, AllocError>
    ensures { (w : Setting) → A.tells around.now w
        → IfOk result (λ t. local_term_of t
        ≡ list_term w.around.names (local_term_of element ∷ [])) }
{
    let elements = vec![in alloc; element]?;
    list(alloc, around, elements)
}

/// The term of the numbers from the first, by the step to the second, if it is
/// there, and up to the last, if it is there.
pub(crate) fn numbered<A: Surroundings>(
    alloc: Global,
    around: &A,
    first: LocalTerm,
    second: Option<LocalTerm>,
    last: Option<LocalTerm>,
) -> Result<LocalTerm, AllocError>
    ensures { (w : Setting) → A.tells around.now w
        → IfOk result (λ t. local_term_of t ≡ table.enumeration w.around.names
        (local_term_of first) (option_map local_term_of second) (option_map local_term_of last)) }
{
    match second {
        None => match last {
            None => built_in(alloc, around, BuiltIn::EnumFrom, vec![in alloc; first]?),
            Some(last) => {
                built_in(
                    alloc,
                    around,
                    BuiltIn::EnumFromTo,
                    vec![in alloc; first, last]?,
                )
            }
        },
        Some(second) => match last {
            None => built_in(
                alloc,
                around,
                BuiltIn::EnumFromThen,
                vec![in alloc; first, second]?,
            ),
            Some(last) => {
                let numbers = vec![in alloc; first, second, last]?;
                built_in(alloc, around, BuiltIn::EnumFromThenTo, numbers)
            }
        },
    }
}
