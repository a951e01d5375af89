//! Constructor operators between patterns that have no grouped tree.
ghost use Rattle.std.specs.Prelude.{◌≡◌, IfOk, OnOk};
ghost use Rattle.cu_syntax.specs.Owners.{PatItemsAreOf};
ghost use Rattle.cu_translation.specs.Meaning.{Setting};
ghost use Rattle.cu_faults.specs.Inside.Patterns.{operators_clash, pieces_of};
ghost use Rattle.cu_faults.specs.Telling.{Told};

use crate::first::First;
use cu_fixity::{Piece, group};
use cu_syntax::PatItems;
use cu_translation::{Fault, Surroundings, Wrong};
use std::alloc::{AllocError, Global};

/// Tells the place of patterns with constructor operators between them, unless
/// they have a grouped tree.
pub(crate) fn tell_clash<A: Surroundings>(
    alloc: Global,
    around: &A,
    items: &PatItems<'_>,
    first: &mut First,
) -> Result<(), AllocError>
    ensures { (w : Setting) → A.tells around.now w → PatItemsAreOf w.owner w.names items.now
        → OnOk result (Told w.owner first.old (operators_clash w items.now) first.new) }
{
    let pieces = pieces(alloc, around, items)?;
    if group(alloc, pieces.as_slice())?.is_none() {
        first.tell(Fault {
            wrong: Wrong::FixityClash,
            place: items.place,
        });
    }
    Ok(())
}

/// What grouping sees of patterns with constructors between them.
fn pieces<A: Surroundings>(
    alloc: Global,
    around: &A,
    items: &PatItems<'_>,
) -> Result<Vec<Piece>, AllocError>
    ensures { (w : Setting) → A.tells around.now w → PatItemsAreOf w.owner w.names items.now
        → IfOk result (λ found. found.items ≡ pieces_of w items.now) }
{
    let mut found = vec![in alloc; Piece::Operand]?;
    for item in &items.rest {
        found.push(Piece::Operator(around.fixity(item.operator)))?;
        found.push(Piece::Operand)?;
    }
    Ok(found)
}
