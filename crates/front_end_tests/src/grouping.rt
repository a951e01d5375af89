//! Expressions, grouped by hand.
use crate::goals::goal_of;
use cu_fixity::{
    Cell, Fixities, Fixity, FixityClash, Part, Piece, Side, UNDECLARED, group, one_tree, resolve,
    resolve_pattern,
};
use cu_names::Names;
use cu_syntax::{Expression, ExpressionNode, Items, PatItems, Pattern, PatternNode};
use std::alloc::{AllocError, Global};

const LEFT_6: Piece = Piece::Operator(Fixity {
    side: Side::Left,
    level: 6,
});

/// Pieces that have no tree.
const CLASHES: [&[Piece]; 5] = [
    &[],
    &[Piece::Operand, Piece::Operand],
    &[Piece::Operand, LEFT_6],
    &[LEFT_6, Piece::Operand],
    &[Piece::Minus, Piece::Minus, Piece::Operand],
];

/// Whether pieces have the tree of these cells.
fn groups_as(alloc: Global, pieces: &[Piece], expected: &[Cell]) -> bool {
    match group(alloc, pieces) {
        Ok(Some(tree)) => tree.cells() == expected,
        _ => false,
    }
}

fn clashes(alloc: Global, pieces: &[Piece]) -> bool {
    matches!(group(alloc, pieces), Ok(None))
}

#[test]
fn pieces(rt: HostRuntime) {
    let alloc = rt.alloc();
    one_tree::<u32, u32>();
    // - a ! b
    let pieces = [
        Piece::Minus,
        Piece::Operand,
        Piece::Operator(UNDECLARED),
        Piece::Operand,
    ];
    let cells = [
        Cell::Minus(0),
        Cell::Operator(2),
        Cell::Operand(1),
        Cell::Operand(3),
    ];
    assert!(rt; groups_as(alloc, &pieces, &cells));
    for pieces in &CLASHES {
        assert!(rt; clashes(alloc, pieces));
    }
}

/// What a goal's text is grouped to: the columns of its parts in Polish
/// notation, or the clash.
type Outcome = Result<Vec<u32>, FixityClash>;

/// The fixities of `+`, `-`, `*` and `==`, and of a `-` of another module,
/// which is grouped to the right.
const FIXITIES: [(&str, Side, u32); 6] = [
    ("+", Side::Left, 6),
    ("-", Side::Left, 6),
    ("*", Side::Left, 7),
    ("==", Side::Neither, 4),
    ("A.-", Side::Right, 6),
    (":", Side::Left, 3),
];

/// The table of these fixities.
fn declared(alloc: Global, names: &mut Names) -> Option<Fixities> {
    names.intern(":").ok()?;
    let mut table = Fixities::new(alloc, names);
    for (operator, side, level) in &FIXITIES {
        let operator = names.intern(operator).ok()?;
        let fixity = Fixity {
            side: *side,
            level: *level,
        };
        table.declare(operator, fixity).ok()?;
    }
    Some(table)
}

/// The outcome of a text, if it is a goal of operators, or of a function whose
/// first parameter has operators.
fn outcome(alloc: Global, text: &str) -> Option<Outcome> {
    let mut names = Names::new(alloc);
    let goal = goal_of(alloc, &mut names, text)?;
    let table = declared(alloc, &mut names)?;
    expression_outcome(alloc, goal.expression(), &table)
}

fn expression_outcome(
    alloc: Global,
    expression: Expression<'_>,
    table: &Fixities,
) -> Option<Outcome> {
    match expression.node(alloc) {
        Ok(ExpressionNode::Operators(items)) => Some(of_expression(alloc, &items, table)),
        Ok(ExpressionNode::Lambda(_, parameters, _)) => {
            parameter_outcome(alloc, parameters.as_slice(), table)
        }
        _ => None,
    }
}

/// The outcome of the first of these patterns, if it has operators.
fn parameter_outcome(
    alloc: Global,
    parameters: &[Pattern<'_>],
    table: &Fixities,
) -> Option<Outcome> {
    let parameter = parameters.first()?;
    match parameter.node(alloc) {
        Ok(PatternNode::Operators(items)) => Some(of_pattern(alloc, &items, table)),
        _ => None,
    }
}

fn of_expression(alloc: Global, items: &Items<'_>, table: &Fixities) -> Outcome {
    let found = resolve(alloc, items, table)?;
    Ok(expression_columns(alloc, &found.parts)?)
}

fn expression_columns(
    alloc: Global,
    parts: &[Part<Expression<'_>>],
) -> Result<Vec<u32>, AllocError> {
    let mut columns = Vec::new(alloc);
    for part in parts {
        columns.push(match part {
            Part::Operand(expression) => expression.place().column,
            Part::Minus(place) => place.column,
            Part::Operator(name) => name.place.column,
        })?;
    }
    Ok(columns)
}

fn of_pattern(alloc: Global, items: &PatItems<'_>, table: &Fixities) -> Outcome {
    let found = resolve_pattern(alloc, items, table)?;
    Ok(pattern_columns(alloc, &found.parts)?)
}

fn pattern_columns(alloc: Global, parts: &[Part<Pattern<'_>>]) -> Result<Vec<u32>, AllocError> {
    let mut columns = Vec::new(alloc);
    for part in parts {
        columns.push(match part {
            Part::Operand(pattern) => pattern.place().column,
            Part::Minus(place) => place.column,
            Part::Operator(name) => name.place.column,
        })?;
    }
    Ok(columns)
}

/// Whether a text is grouped to parts of these columns.
fn is_grouped(alloc: Global, text: &str, columns: &[u32]) -> bool {
    match outcome(alloc, text) {
        Some(Ok(found)) => found.as_slice() == columns,
        _ => false,
    }
}

/// The column of the clash of a text, if it has one.
fn clash_column(alloc: Global, text: &str) -> Option<u32> {
    match outcome(alloc, text) {
        Some(Err(FixityClash::At(place))) => Some(place.column),
        _ => None,
    }
}

/// Goals, and the columns of their parts in Polish notation.
const TREES: [(&str, &[u32]); 9] = [
    ("1 - 2 - 3", &[7, 3, 1, 5, 9]),
    ("1 A.- 2 A.- 3", &[3, 1, 9, 7, 13]),
    ("a + b ! c", &[3, 1, 7, 5, 9]),
    ("a * b + c", &[7, 3, 1, 5, 9]),
    ("a + (b - c)", &[3, 1, 6]),
    ("\\(x : y : zs) -> x", &[5, 3, 9, 7, 11]),
    // a prefix minus
    ("- 1 + 2", &[5, 1, 3, 7]),
    ("- 1 * 2", &[1, 5, 3, 7]),
    ("a == - b", &[3, 1, 6, 8]),
];

/// Goals that have no tree, and the columns of their clashes.
const GOALS_THAT_CLASH: [(&str, u32); 5] = [
    ("1 == 2 == 3", 1),
    ("  a + - b", 3),
    ("a * - b", 1),
    (" - 1 - - 2", 2),
    ("1 - 2 A.- 3", 1),
];

#[test]
fn goals(rt: HostRuntime) {
    let alloc = rt.alloc();
    for (text, columns) in &TREES {
        assert!(rt; is_grouped(alloc, text, columns), "{text}");
    }
    for (text, column) in &GOALS_THAT_CLASH {
        assert_eq!(rt; clash_column(alloc, text), Some(*column), "{text}");
    }
}
