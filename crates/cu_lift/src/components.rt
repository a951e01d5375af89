//! The functions of each strongly connected component of a graph.
ghost use Rattle.std.specs.Prelude.{◌≡◌, ◌<◌, ℕ, [], Some, IfOk, length, slice_get};
ghost use Rattle.std.specs.declared.alloc.Global.{Global};
ghost use Rattle.std.specs.declared.vec.Vec.{Vec};
ghost use Rattle.cu_lift.specs.Inside.Levelling.{AreMembers};

use cu_cycles::Components;
use cu_kernel::FunId;
use std::alloc::{AllocError, Global};

/// As many empty rows as there are components.
pub(crate) fn empty_rows<T: Drop>(alloc: Global, count: usize) -> Result<Vec<Vec<T>>, AllocError>
    ensures sized { IfOk result (λ rows. length rows.items ≡ count) }
    ensures empty { IfOk result (λ rows. (r : ℕ) (row : Vec T Global)
        → slice_get rows.items r ≡ Some row → row.items ≡ []) }
{
    let mut rows = Vec::new(alloc);
    let mut number = 0;
    while number < count {
        let row = Vec::new(alloc);
        rows.push(row)?;
        number += 1;
    }
    Ok(rows)
}

/// The functions of each component, in program order.
pub(crate) fn members(alloc: Global, found: &Components) -> Result<Vec<Vec<FunId>>, AllocError>
    requires { (u r : ℕ) → slice_get found.now.ranks.items u ≡ Some r → r < found.now.count }
    ensures { IfOk result
        (λ members. AreMembers found.now.ranks.items found.now.count members.items) }
{
    let mut members = empty_rows(alloc, found.count)?;
    for (function, rank) in found.ranks.iter().enumerate() {
        members[*rank].push(FunId(function))?;
    }
    Ok(members)
}
