//! Expressions with operators.
ghost use Rattle.std.specs.Prelude.{◌≡◌, IfSome, None, OnOk};
ghost use Rattle.std.specs.List.{All};
ghost use Rattle.cu_fixity.specs.Owners.{PartIsOf};
ghost use Rattle.cu_syntax.specs.Owners.{ExpressionIsOf, NameIsOf};
ghost use Rattle.cu_translation.specs.LocalNames as local_names;
ghost use Rattle.cu_translation.specs.Meaning.{Setting};
ghost use Rattle.cu_forms.specs.Scopes.{Sees};
ghost use Rattle.cu_faults.specs.Inside.Uses.{operand_in, operation_clash, operation_told, operator_in, part_faults, parts_faults};
ghost use Rattle.cu_faults.specs.Telling.{Told};

use crate::first::First;
use crate::uses::{NameUse, tell_use};
use cu_fixity::Part;
use cu_forms::{Scope, tree_of};
use cu_syntax::{Expression, ExpressionNode, Name};
use cu_translation::{Fault, Surroundings, Wrong};
use std::alloc::{AllocError, Global};

/// A part of an expression in the order of its tree, after the operator that
/// stands before it, if one does.
#[derive(Clone, Copy)]
struct PartAfter<'t> {
    before: Option<Name>,
    part: Part<Expression<'t>>,
}

/// Tells the place of an expression with operators, unless these have a grouped
/// tree.
pub(crate) fn clash<A: Surroundings>(
    alloc: Global,
    around: &A,
    scope: &Scope<'_>,
    e: Expression<'_>,
    first: &mut First,
) -> Result<(), AllocError>
    ensures { (w : Setting) (local : local_names.Scope) → A.tells around.now w
        → Sees w local scope.now → ExpressionIsOf w.owner w.names e.entry
        → OnOk result (Told w.owner first.old (operation_clash w local e.entry) first.new) }
{
    let ExpressionNode::Operators(items) = e.node(alloc)? else {
        return Ok(());
    };
    if tree_of(alloc, around, scope, &items)?.is_none() {
        first.tell(Fault {
            wrong: Wrong::FixityClash,
            place: items.place,
        });
    }
    Ok(())
}

/// Tells the names of set functions that stand between operands, unless they
/// may stand there.
pub(crate) fn set_names<A: Surroundings>(
    alloc: Global,
    around: &A,
    scope: &Scope<'_>,
    e: Expression<'_>,
    first: &mut First,
) -> Result<(), AllocError>
    ensures { (w : Setting) (local : local_names.Scope) → A.tells around.now w
        → Sees w local scope.now → ExpressionIsOf w.owner w.names e.entry
        → OnOk result (Told w.owner first.old (operation_told w local e.entry) first.new) }
{
    let ExpressionNode::Operators(items) = e.node(alloc)? else {
        return Ok(());
    };
    let Some(parts) = tree_of(alloc, around, scope, &items)? else {
        return Ok(());
    };
    operators(alloc, around, scope, parts.as_slice(), first)
}

/// Tells the names of set functions among operators that may not stand there.
/// Operands and operators stand in the order of their tree, each operator
/// before its operands.
fn operators<A: Surroundings>(
    alloc: Global,
    around: &A,
    scope: &Scope<'_>,
    parts: &[Part<Expression<'_>>],
    first: &mut First,
) -> Result<(), AllocError>
    ensures { (w : Setting) (local : local_names.Scope) → A.tells around.now w
        → Sees w local scope.now → All (PartIsOf ExpressionIsOf w.owner w.names) parts.now
        → OnOk result (Told w.owner first.old (parts_faults w local None parts.now) first.new) }
{
    let mut before = None;
    for part in parts {
        let placed = PartAfter {
            before,
            part: *part,
        };
        operator(alloc, around, scope, placed, first)?;
        before = operator_in(*part);
    }
    Ok(())
}

/// Tells the operator that stands before a part, if there is one, and may not
/// stand there.
fn operator<A: Surroundings>(
    alloc: Global,
    around: &A,
    scope: &Scope<'_>,
    placed: PartAfter<'_>,
    first: &mut First,
) -> Result<(), AllocError>
    ensures { (w : Setting) (local : local_names.Scope) → A.tells around.now w
        → Sees w local scope.now → IfSome placed.entry.before (NameIsOf w.owner w.names)
        → PartIsOf ExpressionIsOf w.owner w.names placed.entry.part
        → OnOk result (Told w.owner first.old
        (part_faults w local placed.entry.before placed.entry.part) first.new) }
{
    match placed.before {
        Some(name) => tell_use(
            alloc,
            around,
            scope,
            NameUse {
                name,
                argument: operand_in(placed.part),
                others: 1,
            },
            first,
        ),
        None => Ok(()),
    }
}

/// The operand that a part is, if it is an operand.
fn operand_in(part: Part<Expression<'_>>) -> Option<Expression<'_>>
    ensures { result ≡ operand_in part.entry }
{
    match part {
        Part::Operand(e) => Some(e),
        Part::Minus(_) => None,
        Part::Operator(_) => None,
    }
}

/// The operator that a part is, if it is an operator with a name.
fn operator_in(part: Part<Expression<'_>>) -> Option<Name>
    ensures { result ≡ operator_in part.entry }
{
    match part {
        Part::Operator(name) => Some(name),
        Part::Operand(_) => None,
        Part::Minus(_) => None,
    }
}
