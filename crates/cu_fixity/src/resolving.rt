//! Grouping of expressions and patterns as they are written.
ghost use Rattle.std.specs.Prelude.{◌≡◌, ◌<◌, ◌++◌, ℕ, IfErr, IfOk, List, OnOk, Some, length, map};
ghost use Rattle.std.specs.List.{All};
ghost use denote.Param.Weighed.{most};
ghost use Rattle.cu_names.specs.declared.names.NameId.{NameId};
ghost use Rattle.cu_syntax.specs.Expressions.{items_meaning};
ghost use Rattle.cu_syntax.specs.Owners.{ExpressionIsOf, ItemsAreOf, PatItemsAreOf, PatternIsOf};
ghost use Rattle.cu_syntax.specs.Patterns.{pat_items_meaning};
ghost use Rattle.cu_syntax.specs.Smaller.{expression_size, items_size, pat_items_size, pattern_size};
ghost use Rattle.cu_syntax.specs.Syntax.{Name};
ghost use Rattle.cu_fixity.specs.Grouping.{HasNoTree};
ghost use Rattle.cu_fixity.specs.Operators.{IsGrouped, expression_items, fixity_with, pattern_items};
ghost use Rattle.cu_fixity.specs.Owners.{PartIsOf, part_size};
ghost use Rattle.cu_fixity.specs.Parts.{HasNone, IsOrder, operand_parts, piece_of, taken, written_parts, written_pattern};
ghost use Rattle.cu_fixity.specs.Ranges.{number};
ghost use Rattle.cu_fixity.specs.Resolving.{Clashes, HaveFixities, constructors_of, expression_parts, operators_of, pattern_parts};
ghost use Rattle.cu_fixity.specs.declared.fixity.Fixity.{Fixity};
ghost use Rattle.cu_fixity.specs.declared.resolving.FixityClash.TheVariants.{NoMemory};

use crate::part::Part;
use crate::{Cell, Fixities, Piece, group};
use cu_names::Place;
use cu_syntax::{Expression, Items, PatItems, Pattern};
use std::alloc::{AllocError, Global};
use thiserror::Error;

/// Why operators aren't grouped.
#[derive(Clone, Copy, Debug, PartialEq, Eq, Error)]
pub enum FixityClash {
    /// The fixities leave no way to group the items that begin here.
    #[error("operators cannot be grouped at {}:{}", .0.line, .0.column)]
    At(Place),
    #[error("out of memory")]
    NoMemory,
}

impl From<AllocError> for FixityClash {
    ghost from_gives = { λ _ clash. clash ≡ NoMemory };

    fn from(_error: AllocError) -> FixityClash {
        FixityClash::NoMemory
    }
}

/// An expression with its operators grouped: its parts in Polish notation, each
/// operator before its operands.
#[derive(Debug, Drop)]
pub struct Expr<'t> {
    pub parts: Vec<Part<Expression<'t>>>,
}

/// A pattern with its operators grouped: its parts in Polish notation, each
/// operator before its operands.
#[derive(Debug, Drop)]
pub struct Pat<'t> {
    pub parts: Vec<Part<Pattern<'t>>>,
}

/// Groups the operators of an expression.
///
/// # Errors
///
/// `At`, with the place of the first token of the items, exactly where they
/// have no tree in which all operands fit, and `NoMemory`.
pub fn resolve<'t>(
    alloc: Global,
    items: &Items<'t>,
    table: &Fixities,
) -> Result<Expr<'t>, FixityClash>
    ensures tree { (names : List (List ℕ)) (fixity : Name → Fixity)
        → HaveFixities names fixity table.now (operators_of items.now)
        → IfOk result (λ found. IsGrouped (fixity_with fixity)
        (expression_items (items_meaning names items.now))
        (expression_parts names found.parts.items)) }
    ensures clash { (names : List (List ℕ)) (fixity : Name → Fixity)
        → HaveFixities names fixity table.now (operators_of items.now)
        → IfErr result (Clashes items.now.place
        (HasNoTree (fixity_with fixity) (expression_items (items_meaning names items.now)))) }
    ensures owned { (owner : NameId) (names : List (List ℕ)) → ItemsAreOf owner names items.now
        → IfOk result (λ found. All (PartIsOf ExpressionIsOf owner names) found.parts.items) }
    ensures smaller { IfOk result (λ found. most (part_size expression_size) found.parts.items
        < items_size items.now) }
{
    let written = expression_parts(alloc, items)?;
    let parts = grouped(alloc, written.as_slice(), table, items.place)?;
    Ok(Expr { parts })
}

/// Groups the constructor operators of a pattern.
///
/// # Errors
///
/// `At`, with the place of the first token of the items, exactly where they
/// have no tree in which all operands fit, and `NoMemory`.
pub fn resolve_pattern<'t>(
    alloc: Global,
    items: &PatItems<'t>,
    table: &Fixities,
) -> Result<Pat<'t>, FixityClash>
    ensures tree { (names : List (List ℕ)) (fixity : Name → Fixity)
        → HaveFixities names fixity table.now (constructors_of items.now)
        → IfOk result (λ found. IsGrouped (fixity_with fixity)
        (pattern_items (pat_items_meaning names items.now))
        (pattern_parts names found.parts.items)) }
    ensures clash { (names : List (List ℕ)) (fixity : Name → Fixity)
        → HaveFixities names fixity table.now (constructors_of items.now)
        → IfErr result (Clashes items.now.place
        (HasNoTree (fixity_with fixity) (pattern_items (pat_items_meaning names items.now)))) }
    ensures owned { (owner : NameId) (names : List (List ℕ)) → PatItemsAreOf owner names items.now
        → IfOk result (λ found. All (PartIsOf PatternIsOf owner names) found.parts.items) }
    ensures smaller { IfOk result (λ found. most (part_size pattern_size) found.parts.items
        < pat_items_size items.now) }
{
    let written = pattern_parts(alloc, items)?;
    let parts = grouped(alloc, written.as_slice(), table, items.place)?;
    Ok(Pat { parts })
}

/// The parts of an expression as they are written.
fn expression_parts<'t>(
    alloc: Global,
    items: &Items<'t>,
) -> Result<Vec<Part<Expression<'t>>>, AllocError>
    ensures { IfOk result (λ parts. parts.items ≡ written_parts items.now) }
{
    let mut parts = Vec::new(alloc);
    push_operand(&mut parts, items.minus, items.first)?;
    for item in &items.rest {
        parts.push(Part::Operator(item.operator))?;
        push_operand(&mut parts, item.minus, item.operand)?;
    }
    Ok(parts)
}

/// Adds an operand, with a minus before it or without.
fn push_operand<'t>(
    parts: &mut Vec<Part<Expression<'t>>>,
    minus: Option<Place>,
    operand: Expression<'t>,
) -> Result<(), AllocError>
    ensures { OnOk result (parts.new.items ≡ parts.old.items ++ operand_parts minus operand.entry) }
{
    if let Some(place) = minus {
        parts.push(Part::Minus(place))?;
    }
    parts.push(Part::Operand(operand))?;
    Ok(())
}

/// The parts of a pattern as they are written.
fn pattern_parts<'t>(
    alloc: Global,
    items: &PatItems<'t>,
) -> Result<Vec<Part<Pattern<'t>>>, AllocError>
    ensures { IfOk result (λ parts. parts.items ≡ written_pattern items.now) }
{
    let mut parts = vec![in alloc; Part::Operand(items.first)]?;
    for item in &items.rest {
        parts.push(Part::Operator(item.operator))?;
        parts.push(Part::Operand(item.operand))?;
    }
    Ok(parts)
}

/// Parts in Polish notation, or a clash at this place.
fn grouped<T: Copy>(
    alloc: Global,
    written: &[Part<T>],
    table: &Fixities,
    place: Place,
) -> Result<Vec<Part<T>>, FixityClash>
    ensures order { IfOk result
        (λ parts. IsOrder (map (piece_of table.now) written.now) written.now parts.items) }
    ensures clash { IfErr result (Clashes place (HasNone (map (piece_of table.now) written.now))) }
{
    let pieces = pieces(alloc, written, table)?;
    match group(alloc, pieces.as_slice())? {
        Some(tree) => Ok(in_order(alloc, tree.cells(), written)?),
        None => Err(FixityClash::At(place)),
    }
}

/// What grouping sees of parts.
fn pieces<T>(alloc: Global, parts: &[Part<T>], table: &Fixities) -> Result<Vec<Piece>, AllocError>
    ensures { IfOk result (λ pieces. pieces.items ≡ map (piece_of table.now) parts.now) }
{
    let mut pieces = Vec::new(alloc);
    for part in parts {
        pieces.push(piece(part, table))?;
    }
    Ok(pieces)
}

fn piece<T>(part: &Part<T>, table: &Fixities) -> Piece
    ensures { result ≡ piece_of table.now part.now }
{
    match part {
        Part::Operand(_) => Piece::Operand,
        Part::Minus(_) => Piece::Minus,
        Part::Operator(name) => Piece::Operator(table.of(name.text)),
    }
}

/// The parts in the order of a tree's cells.
fn in_order<T: Copy>(
    alloc: Global,
    cells: &[Cell],
    parts: &[Part<T>],
) -> Result<Vec<Part<T>>, AllocError>
    requires { All (λ cell. number cell < length parts.now) cells.now }
    ensures { IfOk result (λ ordered. map Some ordered.items ≡ map (taken parts.now) cells.now) }
{
    let mut ordered = Vec::new(alloc);
    for cell in cells {
        ordered.push(parts[cell.number()])?;
    }
    Ok(ordered)
}
