//! Expressions with operators: operands and operators in the order of their
//! tree.
ghost use Rattle.std.specs.Prelude.{◌≡◌, ◌++◌, ◌<◌, IfNone, IfOk, IfSome, List, OnOk, ℕ, length, map, neg_ℤ, reverse};
ghost use Rattle.std.specs.List.{All};
ghost use denote.Param.Weighed.{most};
ghost use Rattle.cu_fixity.specs.Grouping.{HasNoTree, Infix, Prefix};
ghost use Rattle.cu_fixity.specs.Operators.{IsGrouped, expression_items, fixity_with};
ghost use Rattle.cu_fixity.specs.Owners.{PartIsOf, part_size};
ghost use Rattle.cu_fixity.specs.Parts as parts;
ghost use Rattle.cu_fixity.specs.Resolving.{expression_parts};
ghost use Rattle.cu_kernel.specs.LocalTermsOf.{local_term_of};
ghost use Rattle.cu_names.specs.declared.names.NameId.{NameId};
ghost use Rattle.cu_syntax.specs.Expressions.{items_meaning};
ghost use Rattle.cu_syntax.specs.Names.{literal_meaning};
ghost use Rattle.cu_syntax.specs.Owners.{ExpressionIsOf, ItemsAreOf};
ghost use Rattle.cu_syntax.specs.Smaller.{expression_size, items_size};
ghost use Rattle.cu_translation.specs.Around.{Names, Nothing, fixity_at};
ghost use Rattle.cu_translation.specs.LocalNames as definitions;
ghost use Rattle.cu_translation.specs.Meaning.{Setting, referent_meaning};
ghost use Rattle.cu_translation.specs.Terms as terms;
ghost use Rattle.cu_forms.specs.Forms.{number_alone_form, operators_term};
ghost use Rattle.cu_forms.specs.Scopes.{Sees};
ghost use Rattle.cu_forms.specs.Inside.Lists.{number_term};
ghost use Rattle.cu_forms.specs.Operands.{first_term, item_meaning, number_of, operand_meaning, operated, operated_term, operator_piece, part_item};

use crate::calls::{built_in, no_term, referred};
use crate::lists::number;
use crate::names::fixity_at;
use crate::scope::Scope;
use crate::tree_order::in_tree_order;
use cu_fixity::{Part, Piece};
use cu_kernel::{Int, LocalTerm};
use cu_names::Place;
use cu_syntax::{Expression, ExpressionNode, Items, Literal};
use cu_translation::{BuiltIn, Referent, Surroundings};
use std::alloc::{AllocError, Global};

/// The term of an operand, with what it refers to, if it is a name and nothing
/// else, and its number, if it is written as one.
#[derive(Drop)]
pub(crate) struct Operand {
    pub(crate) term: LocalTerm,
    pub(crate) name: Option<Referent>,
    pub(crate) number: Option<Int>,
}

/// A part of an expression with operators, with what it stands for.
#[derive(Drop)]
pub(crate) enum OperandItem {
    Operand(Operand),
    Minus,
    /// What the operator refers to.
    Operator(Referent),
}

/// The number that an expression is, if it is written as one.
pub(crate) fn number_alone(alloc: Global, e: Expression<'_>) -> Result<Option<Int>, AllocError>
    ensures { (names : List (List ℕ)) → IfOk result (λ n. n ≡ number_alone_form names e.entry) }
{
    match e.node(alloc)? {
        ExpressionNode::Literal(_, found) => Ok(number_in(found)),
        _ => Ok(None),
    }
}

/// The number that a literal is, if it is one.
fn number_in(found: Literal<'_>) -> Option<Int>
    ensures { result ≡ number_of (literal_meaning found.entry) }
{
    match found {
        Literal::Int(value) => Some(value),
        Literal::Char(_) | Literal::String(_) => None,
    }
}

/// The operands and the operators of an expression in the order of their tree,
/// each operator before its operands, if they have one.
///
/// # Errors
///
/// An allocation failure.
pub fn tree_of<'t, A: Surroundings>(
    alloc: Global,
    around: &A,
    scope: &Scope<'_>,
    items: &Items<'t>,
) -> Result<Option<Vec<Part<Expression<'t>>>>, AllocError>
    ensures smaller { IfOk result (λ found. IfSome found
        (λ parts. most (part_size expression_size) parts.items < items_size items.now)) }
    ensures owned { (owner : NameId) (names : List (List ℕ)) → ItemsAreOf owner names items.now
        → IfOk result (λ found. IfSome found
        (λ parts. All (PartIsOf ExpressionIsOf owner names) parts.items)) }
    ensures some { (w : Setting) (local : definitions.Scope) → A.tells around.now w
        → Sees w local scope.now → ItemsAreOf w.owner w.names items.now
        → IfOk result (λ found. IfSome found
        (λ parts. IsGrouped (fixity_with (fixity_at w.around.names local))
        (expression_items (items_meaning w.names items.now))
        (expression_parts w.names parts.items))) }
    ensures none { (w : Setting) (local : definitions.Scope) → A.tells around.now w
        → Sees w local scope.now → ItemsAreOf w.owner w.names items.now
        → IfOk result (λ found. IfNone found
        (HasNoTree (fixity_with (fixity_at w.around.names local))
        (expression_items (items_meaning w.names items.now)))) }
    ensures term { (w : Setting) (local : definitions.Scope) → A.tells around.now w
        → Sees w local scope.now → ItemsAreOf w.owner w.names items.now
        → IfOk result (λ found. IfSome found
        (λ parts. operated_term w.around.names (map (part_item w local) parts.items)
        ≡ operators_term w local items.now)) }
    ensures refused { (w : Setting) (local : definitions.Scope) → A.tells around.now w
        → Sees w local scope.now → ItemsAreOf w.owner w.names items.now
        → IfOk result (λ found. IfNone found
        (terms.no_term ≡ operators_term w local items.now)) }
{
    let written = written_parts(alloc, items)?;
    let pieces = pieces(alloc, around, scope, written.as_slice())?;
    in_tree_order(alloc, written.as_slice(), pieces.as_slice())
}

/// The operands and the operators of an expression, as they are written.
fn written_parts<'t>(
    alloc: Global,
    items: &Items<'t>,
) -> Result<Vec<Part<Expression<'t>>>, AllocError>
    ensures { IfOk result (λ found. found.items ≡ parts.written_parts items.now) }
{
    let mut parts = Vec::new(alloc);
    push_operand(&mut parts, items.minus, items.first)?;
    for item in &items.rest {
        parts.push(Part::Operator(item.operator))?;
        push_operand(&mut parts, item.minus, item.operand)?;
    }
    Ok(parts)
}

/// Adds an operand, with a minus before it or without.
fn push_operand<'t>(
    found: &mut Vec<Part<Expression<'t>>>,
    minus: Option<Place>,
    operand: Expression<'t>,
) -> Result<(), AllocError>
    ensures { OnOk result (found.new.items
        ≡ found.old.items ++ parts.operand_parts minus operand.entry) }
{
    if let Some(place) = minus {
        found.push(Part::Minus(place))?;
    }
    found.push(Part::Operand(operand))?;
    Ok(())
}

/// What grouping sees of parts of an expression.
fn pieces<A: Surroundings>(
    alloc: Global,
    around: &A,
    scope: &Scope<'_>,
    written: &[Part<Expression<'_>>],
) -> Result<Vec<Piece>, AllocError>
    ensures count { IfOk result (λ found. length found.items ≡ length written.now) }
    ensures meaning { (w : Setting) (local : definitions.Scope) → A.tells around.now w
        → Sees w local scope.now → All (PartIsOf ExpressionIsOf w.owner w.names) written.now
        → IfOk result (λ found. found.items ≡ map (operator_piece w local) written.now) }
{
    let mut found = Vec::new(alloc);
    for part in written {
        found.push(piece(around, scope, *part))?;
    }
    Ok(found)
}

/// What grouping sees of a part of an expression.
fn piece<A: Surroundings>(around: &A, scope: &Scope<'_>, part: Part<Expression<'_>>) -> Piece
    ensures { (w : Setting) (local : definitions.Scope) → A.tells around.now w
        → Sees w local scope.now → PartIsOf ExpressionIsOf w.owner w.names part.entry
        → result ≡ operator_piece w local part.entry }
{
    match part {
        Part::Operand(_) => Piece::Operand,
        Part::Minus(_) => Piece::Minus,
        Part::Operator(name) => Piece::Operator(fixity_at(around, scope, name)),
    }
}

/// The term that parts make which stand in the order of their tree.
pub(crate) fn grouped<A: Surroundings>(
    alloc: Global,
    around: &A,
    items: Vec<OperandItem>,
) -> Result<LocalTerm, AllocError>
    ensures { (w : Setting) → A.tells around.now w
        → IfOk result (λ t. local_term_of t
        ≡ operated_term w.around.names (map item_meaning items.items)) }
{
    let mut left = items;
    let mut stack = Vec::new(alloc);
    while let Some(item) = left.pop() {
        place(alloc, around, item, &mut stack)?;
    }
    top(alloc, stack)
}

/// The term of the operand on top of a stack.
fn top(alloc: Global, stack: Vec<Operand>) -> Result<LocalTerm, AllocError>
    ensures { IfOk result (λ t. local_term_of t
        ≡ first_term (map operand_meaning (reverse stack.items))) }
{
    let mut stack = stack;
    match stack.pop() {
        Some(whole) => Ok(whole.term),
        None => no_term(alloc),
    }
}

/// Takes the operands of a part off the stack, and puts on it what they make
/// together.
fn place<A: Surroundings>(
    alloc: Global,
    around: &A,
    item: OperandItem,
    stack: &mut Vec<Operand>,
) -> Result<(), AllocError>
    ensures { (w : Setting) → A.tells around.now w
        → OnOk result (map operand_meaning (reverse stack.new.items)
        ≡ operated w.around.names (item_meaning item)
        (map operand_meaning (reverse stack.old.items))) }
{
    match item {
        OperandItem::Operand(operand) => {
            stack.push(operand)?;
            Ok(())
        }
        OperandItem::Minus => negate(alloc, around, stack),
        OperandItem::Operator(referent) => operate(alloc, referent, stack),
    }
}

/// The operand of a term that is neither a name alone nor a number.
fn plain(term: LocalTerm) -> Operand
    ensures { operand_meaning result ≡ terms.plain (local_term_of term) }
{
    Operand {
        term,
        name: None,
        number: None,
    }
}

/// Negates the operand on top of the stack.
fn negate<A: Surroundings>(
    alloc: Global,
    around: &A,
    stack: &mut Vec<Operand>,
) -> Result<(), AllocError>
    ensures { (w : Setting) → A.tells around.now w
        → OnOk result (map operand_meaning (reverse stack.new.items)
        ≡ operated w.around.names (Prefix Nothing)
        (map operand_meaning (reverse stack.old.items))) }
{
    if let Some(operand) = stack.pop() {
        let term = negated(alloc, around, operand)?;
        stack.push(plain(term))?;
    }
    Ok(())
}

/// The negation of an operand: the negative of a number that is written as one,
/// and else a call of `negate`. A negative number that is no integer of the
/// language counts as an allocation failure: no literal has it.
fn negated<A: Surroundings>(
    alloc: Global,
    around: &A,
    operand: Operand,
) -> Result<LocalTerm, AllocError>
    ensures { (w : Setting) → A.tells around.now w
        → IfOk result (λ t. local_term_of t
        ≡ terms.negated w.around.names (operand_meaning operand)) }
{
    match operand.number {
        Some(value) => negative(value),
        None => {
            let arguments = vec![in alloc; operand.term]?;
            built_in(alloc, around, BuiltIn::Negate, arguments)
        }
    }
}

/// The negative of a number, as a term.
fn negative(value: Int) -> Result<LocalTerm, AllocError>
    ensures { IfOk result (λ t. local_term_of t ≡ number_term (neg_ℤ value)) }
{
    match value.checked_neg() {
        Some(negated) => Ok(number(negated)),
        None => Err(AllocError),
    }
}

/// Takes two operands off the stack, and puts on it the operator applied to
/// them.
fn operate(alloc: Global, referent: Referent, stack: &mut Vec<Operand>) -> Result<(), AllocError>
    ensures { (names : Names) → OnOk result (map operand_meaning (reverse stack.new.items)
        ≡ operated names (Infix (referent_meaning referent))
        (map operand_meaning (reverse stack.old.items))) }
{
    let Some(first) = stack.pop() else {
        return Ok(());
    };
    let Some(second) = stack.pop() else {
        stack.push(first)?;
        return Ok(());
    };
    let arguments = vec![in alloc; first.term, second.term]?;
    let term = referred(alloc, referent, first.name, arguments)?;
    stack.push(plain(term))?;
    Ok(())
}
