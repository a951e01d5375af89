//! Copies of tables of names.
ghost use Rattle.std.specs.Prelude.{◌≡◌, IfOk};

use cu_names::{NameId, Names};
use std::alloc::{AllocError, Global};

/// A table with the same names under the same numbers.
///
/// # Errors
///
/// An allocation failure.
pub fn copy_names(alloc: Global, names: &Names) -> Result<Names, AllocError>
    ensures { IfOk result (λ copy. copy ≡ names.now) }
{
    let count = names.count();
    let mut copy = Names::new(alloc);
    for number in 0..count {
        copy.intern(names.text(NameId(number)))?;
    }
    Ok(copy)
}
