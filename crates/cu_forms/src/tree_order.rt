//! Operands and operators in the order of their tree.
ghost use Rattle.std.specs.Prelude.{◌≡◌, ◌<◌, IfNone, IfOk, IfSome, Some, length, map};
ghost use Rattle.std.specs.List.{All};
ghost use Rattle.cu_fixity.specs.Parts.{HasNone, IsOrder, taken};
ghost use Rattle.cu_fixity.specs.Ranges.{number};

use cu_fixity::{Cell, Part, Piece, group};
use std::alloc::{AllocError, Global};

/// Parts in the order of the tree of their pieces, each operator before its
/// operands, if there is a tree.
pub(crate) fn in_tree_order<T: Copy>(
    alloc: Global,
    written: &[Part<T>],
    pieces: &[Piece],
) -> Result<Option<Vec<Part<T>>>, AllocError>
    requires { length pieces.now ≡ length written.now }
    ensures some { IfOk result (λ found. IfSome found
        (λ parts. IsOrder pieces.now written.now parts.items)) }
    ensures none { IfOk result (λ found. IfNone found (HasNone pieces.now)) }
{
    match group(alloc, pieces)? {
        Some(tree) => {
            let ordered = in_order(alloc, tree.cells(), written)?;
            Ok(Some(ordered))
        }
        None => Ok(None),
    }
}

/// The parts in the order of a tree's cells.
fn in_order<T: Copy>(
    alloc: Global,
    cells: &[Cell],
    parts: &[Part<T>],
) -> Result<Vec<Part<T>>, AllocError>
    requires { All (λ cell. number cell < length parts.now) cells.now }
    ensures { IfOk result (λ ordered. map Some ordered.items ≡ map (taken parts.now) cells.now) }
{
    let mut ordered = Vec::new(alloc);
    for cell in cells {
        ordered.push(parts[cell.number()])?;
    }
    Ok(ordered)
}
