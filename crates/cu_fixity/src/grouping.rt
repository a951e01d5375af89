//! Grouping of pieces, from the top of the tree down.
ghost use Rattle.std.specs.Prelude.{◌≡◌, ◌+◌, ◌-◌, ◌^◌, ◌<◌, ◌≤◌, ◌++◌, ◌||◌, IfNone, IfOk, IfSome, None, OnOk, Some, if◌then◌else◌, length, nat_eq, nat_lt, reverse};
ghost use Rattle.cu_fixity.specs.declared.grouping.Under.TheVariants.{LeftOf, Nothing};
ghost use Rattle.cu_fixity.specs.declared.tree.Cell.TheVariants.{Minus, Operand};
ghost use Rattle.cu_fixity.specs.Grouping.{Grouped, HasNoTree, both};
ghost use Rattle.cu_fixity.specs.Pieces.{fixity_at, items_of};
ghost use Rattle.cu_fixity.specs.Ranges.{HasNoHead, IsHead, IsWithin, between, candidate, fits, is_above, number, parts, raised, root};

use crate::{Cell, Fixity, Piece, Side, Tree};
use std::alloc::{AllocError, Global};

/// Where a tree is to stand, which decides which operators may be at its top.
#[derive(Clone, Copy)]
enum Under {
    /// Below no operator: the tree is the whole.
    Nothing,
    /// The tree is the operand of the minus of this number.
    Minus(usize),
    /// The tree is the left operand of the operator of this number.
    LeftOf(usize),
    /// The tree is the right operand of the operator of this number.
    RightOf(usize),
}

/// A range of pieces whose tree is still to be built.
#[derive(Clone, Copy)]
struct Task {
    from: usize,
    to: usize,
    under: Under,
}

/// The tree of all pieces whose operands fit their operators, if they have one.
/// No pieces have two. The time is at most proportional to the square of the
/// number of pieces.
///
/// # Errors
///
/// An allocation failure.
pub fn group(alloc: Global, pieces: &[Piece]) -> Result<Option<Tree>, AllocError>
    ensures tree { IfOk result
        (λ found. IfSome found (Grouped (fixity_at pieces.now) (items_of pieces.now))) }
    ensures none { IfOk result
        (λ found. IfNone found (HasNoTree (fixity_at pieces.now) (items_of pieces.now))) }
{
    let mut cells = Vec::new(alloc);
    let mut tasks = vec![in alloc; whole(pieces)]?;
    while let Some(task) = tasks.pop() {
        let Some(cell) = head(pieces, task) else {
            return Ok(None);
        };
        cells.push(cell)?;
        add_parts(&mut tasks, task, cell)?;
    }
    Ok(Some(Tree::new(cells)))
}

/// The range of all pieces.
fn whole(pieces: &[Piece]) -> Task
    ensures { result ≡ record { from = 0; to = length pieces.now; under = Nothing } }
{
    Task {
        from: 0,
        to: pieces.len(),
        under: Under::Nothing,
    }
}

/// The first cell of a tree of a range, if there may be one.
fn head(pieces: &[Piece], task: Task) -> Option<Cell>
    requires { IsWithin (length pieces.now) task }
    ensures some { IfSome result (IsHead pieces.now task) }
    ensures none { IfNone result (HasNoHead pieces.now task) }
{
    let Some(n) = root(pieces, task.from, task.to) else {
        return operand(task);
    };
    if !fits(pieces, task.under, n) {
        return None;
    }
    match pieces[n] {
        Piece::Operator(_) => Some(Cell::Operator(n)),
        Piece::Minus => minus(task, n),
        Piece::Operand => None,
    }
}

/// The cell of a minus at the top of a range, where it stands before all
/// others.
fn minus(task: Task, n: usize) -> Option<Cell>
    ensures { result ≡ (if nat_eq n task.from then Some (Minus n) else None) }
{
    if n == task.from {
        Some(Cell::Minus(n))
    } else {
        None
    }
}

/// The cell of a range without operators, which has a tree where it is one
/// operand.
fn operand(task: Task) -> Option<Cell>
    requires { task.from ≤ task.to }
    ensures { result ≡ (if nat_eq (task.to - task.from) 1 then Some (Operand task.from) else None) }
{
    if task.to - task.from == 1 {
        Some(Cell::Operand(task.from))
    } else {
        None
    }
}

/// The number of the operator that stands at the top of a tree of a range, if
/// the range has operators.
fn root(pieces: &[Piece], from: usize, to: usize) -> Option<usize>
    requires rises { from ≤ to }
    requires ends { to ≤ length pieces.now }
    ensures root { candidate result
        ≡ root (fixity_at pieces.now) from None (between from to (items_of pieces.now)) }
    ensures within { IfSome result (λ n. (from ≤ n) × (n < to)) }
{
    let mut best = None;
    let mut n = from;
    while n < to {
        best = better(pieces, best, n);
        n += 1;
    }
    best
}

/// The number of an earlier operator, if there is one, or of a piece after it:
/// the one that stands above the other.
fn better(pieces: &[Piece], earlier: Option<usize>, n: usize) -> Option<usize>
    requires { n < length pieces.now }
    ensures { result ≡ raised pieces.now earlier n }
{
    if pieces[n] == Piece::Operand {
        return earlier;
    }
    match earlier {
        Some(earlier) if !is_above(fixity(pieces, n), fixity(pieces, earlier)) => Some(earlier),
        _ => Some(n),
    }
}

/// Whether a later operator stands above an earlier one.
fn is_above(later: Fixity, earlier: Fixity) -> bool
    ensures { result ≡ is_above later earlier }
{
    later.level < earlier.level || (later.level == earlier.level && later.side == Side::Left)
}

/// The fixity of the piece of a number. A minus has that of the minus between
/// two operands.
fn fixity(pieces: &[Piece], n: usize) -> Fixity
    ensures { result ≡ fixity_at pieces.now n }
{
    match pieces.get(n) {
        Some(Piece::Operator(fixity)) => *fixity,
        Some(Piece::Minus) => MINUS,
        _ => UNDECLARED,
    }
}

const MINUS: Fixity = Fixity {
    side: Side::Left,
    level: 6,
};

/// The fixity of an operator without a declaration.
pub const UNDECLARED: Fixity = Fixity {
    side: Side::Left,
    level: 9,
};

/// Whether a tree with an operator at its top fits where it is to stand.
fn fits(pieces: &[Piece], under: Under, n: usize) -> bool
    ensures { result ≡ fits (fixity_at pieces.now) under (Some n) }
{
    let child = fixity(pieces, n);
    match under {
        Under::Nothing => true,
        Under::Minus(parent) => fixity(pieces, parent).level < child.level,
        Under::LeftOf(parent) => fits_beside(fixity(pieces, parent), child, Side::Left),
        Under::RightOf(parent) => fits_beside(fixity(pieces, parent), child, Side::Right),
    }
}

/// Whether an operator fits below another, on this side of it.
fn fits_beside(parent: Fixity, child: Fixity, side: Side) -> bool
    ensures { result ≡ nat_lt parent.level child.level || both side parent child }
{
    parent.level < child.level
        || (parent.level == child.level && parent.side == side && child.side == side)
}

/// Adds what is left of a task below the top of its tree, the first of it last.
fn add_parts(tasks: &mut Vec<Task>, task: Task, cell: Cell) -> Result<(), AllocError>
    requires { number cell < task.to }
    ensures { OnOk result (reverse tasks.new.items ≡ parts task cell ++ reverse tasks.old.items) }
{
    match cell {
        Cell::Operand(_) => {}
        Cell::Minus(n) => tasks.push(after(task, n, Under::Minus(n)))?,
        Cell::Operator(n) => {
            tasks.push(after(task, n, Under::RightOf(n)))?;
            tasks.push(before(task, n))?;
        }
    }
    Ok(())
}

/// What stands before an operator in a range.
fn before(task: Task, n: usize) -> Task
    ensures { result ≡ record { from = task.from; to = n; under = LeftOf n } }
{
    Task {
        from: task.from,
        to: n,
        under: Under::LeftOf(n),
    }
}

/// What follows a piece in a range.
fn after(task: Task, n: usize, under: Under) -> Task
    requires { n < 2 ^ 64 - 1 }
    ensures { result ≡ record { from = n + 1; to = task.to; under = under } }
{
    Task {
        from: n + 1,
        to: task.to,
        under,
    }
}
