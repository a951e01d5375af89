//! What patterns are made of: literals, lists, and operands in the order of
//! their tree.

ghost use Rattle.std.specs.Prelude.{◌≡◌, ◌<◌, IfNone, IfOk, IfSome, List, OnOk, ℕ, length, map, neg_ℤ, reverse};
ghost use Rattle.std.specs.List.{All};
ghost use denote.Param.Weighed.{most};
ghost use Rattle.cu_fixity.specs.Grouping.{Infix};
ghost use Rattle.cu_fixity.specs.Owners.{PartIsOf, part_size};
ghost use Rattle.cu_fixity.specs.Parts.{written_pattern};
ghost use Rattle.cu_kernel.specs.TermsOf.{pattern_of};
ghost use Rattle.cu_lex.specs.Located.{Position};
ghost use Rattle.cu_names.specs.declared.names.NameId.{NameId};
ghost use Rattle.cu_syntax.specs.Names.{literal_meaning};
ghost use Rattle.cu_syntax.specs.Owners.{PatItemsAreOf, PatternIsOf};
ghost use Rattle.cu_syntax.specs.Smaller.{pat_items_size, pattern_size};
ghost use Rattle.cu_translation.specs.LocalNames.{Binder};
ghost use Rattle.cu_translation.specs.Meaning.{Setting, referent_meaning};
ghost use Rattle.cu_translation.specs.PatternTable as definitions;
ghost use Rattle.cu_forms.specs.Inside.PatternParts.{cons_form, first_pattern, item_meaning, list_form, literal_form, number_form, operators_form, part_item, piece_in, placed, placed_pattern};

use crate::lists::{constant, constructor_of};
use crate::tree_order::in_tree_order;
use cu_fixity::{Part, Piece};
use cu_kernel::{Int, Lit, Pattern as KernelPattern};
use cu_syntax::{Literal, PatItems, Pattern};
use cu_translation::{BuiltIn, Referent, Surroundings};
use std::alloc::{AllocError, Global};

/// A part of a pattern with operators, with what it stands for.
#[derive(Drop)]
pub(crate) enum PatternItem {
    Operand(KernelPattern),
    Minus,
    /// What the operator refers to.
    Operator(Referent),
}

/// The pattern for what is refused.
#[tactic(auto, using(cu_kernel::specs::TermsOf::patterns_of_variants))]
pub(crate) fn no_pattern() -> KernelPattern
    ensures { pattern_of result ≡ definitions.no_pattern }
{
    KernelPattern::Lit(Lit::Int(0))
}

/// The pattern of a number.
#[tactic(auto, using(cu_kernel::specs::TermsOf::patterns_of_variants))]
fn number_pattern(value: Int) -> KernelPattern
    ensures { pattern_of result ≡ number_form value }
{
    KernelPattern::Lit(Lit::Int(value))
}

/// The pattern of the negative of a number. A number that is no integer of the
/// language counts as an allocation failure: no literal has it.
pub(crate) fn negative(value: Int) -> Result<KernelPattern, AllocError>
    ensures { IfOk result (λ p. pattern_of p ≡ number_form (neg_ℤ value)) }
{
    match value.checked_neg() {
        Some(negated) => Ok(number_pattern(negated)),
        None => Err(AllocError),
    }
}

/// The pattern of a literal. A string is the list of its characters.
#[tactic(auto, using(cu_kernel::specs::TermsOf::patterns_of_variants))]
pub(crate) fn literal_pattern<A: Surroundings>(
    alloc: Global,
    around: &A,
    found: Literal<'_>,
) -> Result<KernelPattern, AllocError>
    ensures { (w : Setting) → A.tells around.now w
        → IfOk result (λ p. pattern_of p
        ≡ literal_form w.around.names (literal_meaning found.entry)) }
{
    match found {
        Literal::Int(value) => Ok(number_pattern(value)),
        Literal::Char(character) => Ok(KernelPattern::Lit(Lit::Char(character))),
        Literal::String(text) => {
            list_pattern(alloc, around, character_patterns(alloc, text.as_slice())?)
        }
    }
}

/// The patterns of characters.
fn character_patterns(alloc: Global, text: &[char]) -> Result<Vec<KernelPattern>, AllocError>
    ensures { IfOk result (λ found. map pattern_of found.items
        ≡ map definitions.character_pattern text.now) }
{
    let mut patterns = Vec::new(alloc);
    for character in text {
        patterns.push(KernelPattern::Lit(Lit::Char(*character)))?;
    }
    Ok(patterns)
}

/// The pattern of the list of these patterns.
pub(crate) fn list_pattern<A: Surroundings>(
    alloc: Global,
    around: &A,
    patterns: Vec<KernelPattern>,
) -> Result<KernelPattern, AllocError>
    ensures { (w : Setting) → A.tells around.now w
        → IfOk result (λ p. pattern_of p
        ≡ list_form w.around.names (map pattern_of patterns.items)) }
{
    let mut elements = patterns;
    let mut list = constant(alloc, around, BuiltIn::Nil);
    while let Some(element) = elements.pop() {
        list = cons(alloc, around, element, list)?;
    }
    Ok(list)
}

/// The pattern of a list with this first element.
fn cons<A: Surroundings>(
    alloc: Global,
    around: &A,
    element: KernelPattern,
    list: KernelPattern,
) -> Result<KernelPattern, AllocError>
    ensures { (w : Setting) → A.tells around.now w
        → IfOk result (λ p. pattern_of p
        ≡ cons_form w.around.names (pattern_of element) (pattern_of list)) }
{
    let parts = vec![in alloc; element, list]?;
    Ok(KernelPattern::Con(constructor_of(around.prelude(BuiltIn::Cons)), parts))
}

/// The operands and the operators of a pattern in the order of their tree, if
/// they have one.
pub(crate) fn ordered_parts<'t, A: Surroundings>(
    alloc: Global,
    around: &A,
    items: &PatItems<'t>,
) -> Result<Option<Vec<Part<Pattern<'t>>>>, AllocError>
    ensures smaller { IfOk result (λ found. IfSome found
        (λ parts. most (part_size pattern_size) parts.items < pat_items_size items.now)) }
    ensures owned { (owner : NameId) (names : List (List ℕ)) → PatItemsAreOf owner names items.now
        → IfOk result (λ found. IfSome found
        (λ parts. All (PartIsOf PatternIsOf owner names) parts.items)) }
    ensures some { (w : Setting) (binder : Position → Binder) → A.tells around.now w
        → PatItemsAreOf w.owner w.names items.now
        → IfOk result (λ found. IfSome found (λ parts. placed_pattern
        (map (part_item w binder) parts.items) ≡ operators_form w binder items.now)) }
    ensures none { (w : Setting) (binder : Position → Binder) → A.tells around.now w
        → PatItemsAreOf w.owner w.names items.now
        → IfOk result (λ found. IfNone found
        (definitions.no_pattern ≡ operators_form w binder items.now)) }
{
    let written = written_parts(alloc, items)?;
    let pieces = pieces(alloc, around, written.as_slice())?;
    in_tree_order(alloc, written.as_slice(), pieces.as_slice())
}

/// The operands and the operators of a pattern, as they are written.
fn written_parts<'t>(
    alloc: Global,
    items: &PatItems<'t>,
) -> Result<Vec<Part<Pattern<'t>>>, AllocError>
    ensures { IfOk result (λ parts. parts.items ≡ written_pattern items.now) }
{
    let mut parts = vec![in alloc; Part::Operand(items.first)]?;
    for item in &items.rest {
        parts.push(Part::Operator(item.operator))?;
        parts.push(Part::Operand(item.operand))?;
    }
    Ok(parts)
}

/// What grouping sees of parts of a pattern.
fn pieces<A: Surroundings>(
    alloc: Global,
    around: &A,
    parts: &[Part<Pattern<'_>>],
) -> Result<Vec<Piece>, AllocError>
    ensures count { IfOk result (λ found. length found.items ≡ length parts.now) }
    ensures meaning { (w : Setting) → A.tells around.now w
        → All (PartIsOf PatternIsOf w.owner w.names) parts.now
        → IfOk result (λ found. found.items ≡ map (piece_in w) parts.now) }
{
    let mut found = Vec::new(alloc);
    for part in parts {
        found.push(piece(around, *part))?;
    }
    Ok(found)
}

fn piece<A: Surroundings>(around: &A, part: Part<Pattern<'_>>) -> Piece
    ensures { (w : Setting) → A.tells around.now w
        → PartIsOf PatternIsOf w.owner w.names part.entry → result ≡ piece_in w part.entry }
{
    match part {
        Part::Operand(_) => Piece::Operand,
        Part::Minus(_) => Piece::Minus,
        Part::Operator(name) => Piece::Operator(around.fixity(name)),
    }
}

/// The pattern that parts make which stand in the order of their tree.
pub(crate) fn grouped_pattern(
    alloc: Global,
    items: Vec<PatternItem>,
) -> Result<KernelPattern, AllocError>
    ensures { IfOk result (λ p. pattern_of p ≡ placed_pattern (map item_meaning items.items)) }
{
    let mut left = items;
    let mut stack = Vec::new(alloc);
    while let Some(item) = left.pop() {
        place(alloc, item, &mut stack)?;
    }
    Ok(top(stack))
}

/// The pattern on top of a stack.
fn top(stack: Vec<KernelPattern>) -> KernelPattern
    ensures { pattern_of result ≡ first_pattern (map pattern_of (reverse stack.items)) }
{
    let mut stack = stack;
    match stack.pop() {
        Some(whole) => whole,
        None => no_pattern(),
    }
}

/// Takes the operands of a part off the stack, and puts on it what they make
/// together.
fn place(alloc: Global, item: PatternItem, stack: &mut Vec<KernelPattern>) -> Result<(), AllocError>
    ensures { OnOk result (map pattern_of (reverse stack.new.items)
        ≡ placed (item_meaning item) (map pattern_of (reverse stack.old.items))) }
{
    match item {
        PatternItem::Operand(operand) => {
            stack.push(operand)?;
            Ok(())
        }
        PatternItem::Minus => {
            if let Some(_operand) = stack.pop() {
                stack.push(no_pattern())?;
            }
            Ok(())
        }
        PatternItem::Operator(referent) => operate(alloc, referent, stack),
    }
}

/// Takes two patterns off the stack, and puts on it the constructor applied to
/// them.
fn operate(
    alloc: Global,
    referent: Referent,
    stack: &mut Vec<KernelPattern>,
) -> Result<(), AllocError>
    ensures { OnOk result (map pattern_of (reverse stack.new.items)
        ≡ placed (Infix (referent_meaning referent)) (map pattern_of (reverse stack.old.items))) }
{
    let Some(first) = stack.pop() else {
        return Ok(());
    };
    let Some(second) = stack.pop() else {
        stack.push(first)?;
        return Ok(());
    };
    let parts = vec![in alloc; first, second]?;
    stack.push(KernelPattern::Con(constructor_of(referent), parts))?;
    Ok(())
}
