//! Patterns of the source as patterns of programs.
ghost use Rattle.std.specs.Prelude.{◌≡◌, IfOk, map};
ghost use Rattle.std.specs.List.{All};
ghost use Rattle.cu_fixity.specs.Owners.{PartIsOf};
ghost use Rattle.cu_kernel.specs.TermsOf.{pattern_of};
ghost use Rattle.cu_lex.specs.Reading.{position_of};
ghost use Rattle.cu_syntax.specs.Owners.{PatItemsAreOf, PatternIsOf};
ghost use Rattle.cu_translation.specs.Meaning.{Setting, binder_meaning};
ghost use Rattle.cu_forms.specs.Forms.{binders_meaning, pattern_form};
ghost use Rattle.cu_forms.specs.Inside.PatternParts.{item_meaning, operators_form, part_item};

use crate::lists::constructor_of;
use crate::pattern_parts::{
    PatternItem, grouped_pattern, list_pattern, literal_pattern, negative, no_pattern,
    ordered_parts,
};
use cu_fixity::Part;
use cu_kernel::Pattern as KernelPattern;
use cu_names::Place;
use cu_syntax::{PatItems, Pattern, PatternNode};
use cu_translation::{Binder, BuiltIn, Position, Surroundings};
use std::alloc::{AllocError, Global};

/// Which variables the variables of a pattern become.
#[derive(Clone, Copy, Debug, PartialEq, Eq)]
pub enum Binders {
    /// The variables at their own places.
    Own,
    /// The variables of the function that selects the variable at this place.
    Selecting(Position),
}

impl Binders {
    /// The variable of the name or wildcard that stands at a place.
    fn at(self, place: Place) -> Binder
        ensures { binder_meaning result ≡ binders_meaning self (position_of place) }
    {
        let at = Position::of(place);
        match self {
            Binders::Own => Binder::At(at),
            Binders::Selecting(selected) => Binder::Selected(selected, at),
        }
    }
}

/// The number of the variable of the name or wildcard that stands at a place.
fn variable<A: Surroundings>(around: &A, binders: Binders, place: Place) -> u32
    ensures { (w : Setting) → A.tells around.now w
        → result ≡ w.around.numbers.variable (binders_meaning binders (position_of place)) }
{
    around.variable(binders.at(place))
}

/// The pattern of programs that a pattern stands for. A pattern whose operators
/// have no grouped tree is refused elsewhere.
///
/// # Errors
///
/// An allocation failure.
#[cycle(patterns)]
pub fn pattern<A: Surroundings>(
    alloc: Global,
    around: &A,
    binders: Binders,
    p: Pattern<'_>,
) -> Result<KernelPattern, AllocError>
    ensures { (w : Setting) → A.tells around.now w → PatternIsOf w.owner w.names p.entry
        → IfOk result (λ q. pattern_of q ≡ pattern_form w (binders_meaning binders) p.entry) }
{
    match p.node(alloc)? {
        PatternNode::Variable(name) => {
            Ok(KernelPattern::Var(variable(around, binders, name.place)))
        }
        PatternNode::Alias(name, inner) => {
            let whole = pattern(alloc, around, binders, inner)?;
            let boxed = Box::new(alloc, whole)?;
            Ok(KernelPattern::Alias(variable(around, binders, name.place), boxed))
        }
        PatternNode::Wildcard(place) => Ok(KernelPattern::Var(variable(around, binders, place))),
        PatternNode::Literal(_, found) => literal_pattern(alloc, around, found),
        PatternNode::Negative(_, value) => negative(value),
        PatternNode::Constructed(_, name, arguments) => {
            let inner = patterns(alloc, around, binders, arguments.as_slice())?;
            Ok(KernelPattern::Con(constructor_of(around.value(name)), inner))
        }
        PatternNode::Tuple(_, components) => {
            let inner = patterns(alloc, around, binders, components.as_slice())?;
            let what = BuiltIn::Tuple(inner.len());
            Ok(KernelPattern::Con(constructor_of(around.prelude(what)), inner))
        }
        PatternNode::List(_, elements) => {
            let inner = patterns(alloc, around, binders, elements.as_slice())?;
            list_pattern(alloc, around, inner)
        }
        PatternNode::Operators(items) => operators(alloc, around, binders, &items),
    }
}

/// The patterns of programs that several patterns stand for.
///
/// # Errors
///
/// An allocation failure.
#[cycle(patterns)]
pub fn patterns<A: Surroundings>(
    alloc: Global,
    around: &A,
    binders: Binders,
    ps: &[Pattern<'_>],
) -> Result<Vec<KernelPattern>, AllocError>
    ensures { (w : Setting) → A.tells around.now w → All (PatternIsOf w.owner w.names) ps.now
        → IfOk result (λ found. map pattern_of found.items
        ≡ map (pattern_form w (binders_meaning binders)) ps.now) }
{
    let mut found = Vec::new(alloc);
    for p in ps {
        found.push(pattern(alloc, around, binders, *p)?)?;
    }
    Ok(found)
}

/// The pattern of patterns with constructor operators between them, which are
/// grouped.
#[cycle(patterns)]
fn operators<A: Surroundings>(
    alloc: Global,
    around: &A,
    binders: Binders,
    items: &PatItems<'_>,
) -> Result<KernelPattern, AllocError>
    ensures { (w : Setting) → A.tells around.now w → PatItemsAreOf w.owner w.names items.now
        → IfOk result (λ q. pattern_of q ≡ operators_form w (binders_meaning binders) items.now) }
{
    match ordered_parts(alloc, around, items)? {
        Some(ordered) => {
            let found = parts(alloc, around, binders, ordered.as_slice())?;
            grouped_pattern(alloc, found)
        }
        None => Ok(no_pattern()),
    }
}

/// Operands and operators with what they stand for.
#[cycle(patterns)]
fn parts<A: Surroundings>(
    alloc: Global,
    around: &A,
    binders: Binders,
    ordered: &[Part<Pattern<'_>>],
) -> Result<Vec<PatternItem>, AllocError>
    ensures { (w : Setting) → A.tells around.now w
        → All (PartIsOf PatternIsOf w.owner w.names) ordered.now
        → IfOk result (λ found. map item_meaning found.items
        ≡ map (part_item w (binders_meaning binders)) ordered.now) }
{
    let mut found = Vec::new(alloc);
    for one in ordered {
        found.push(part(alloc, around, binders, *one)?)?;
    }
    Ok(found)
}

/// An operand or an operator, with what it stands for.
#[cycle(patterns)]
fn part<A: Surroundings>(
    alloc: Global,
    around: &A,
    binders: Binders,
    one: Part<Pattern<'_>>,
) -> Result<PatternItem, AllocError>
    ensures { (w : Setting) → A.tells around.now w
        → PartIsOf PatternIsOf w.owner w.names one.entry
        → IfOk result (λ found. item_meaning found
        ≡ part_item w (binders_meaning binders) one.entry) }
{
    match one {
        Part::Operand(p) => {
            let operand = pattern(alloc, around, binders, p)?;
            Ok(PatternItem::Operand(operand))
        }
        Part::Minus(_) => Ok(PatternItem::Minus),
        Part::Operator(name) => Ok(PatternItem::Operator(around.value(name))),
    }
}
