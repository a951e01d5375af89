//! Which variables stand in a list, and whether none stands twice.
ghost use Rattle.std.specs.Prelude.{◌≡◌, IfOk};
ghost use Rattle.cu_calculus.specs.Valid.{holds, is_linear};

use std::alloc::{AllocError, Global};
use std::collections::BTreeSet;

/// Whether no variable stands twice. Takes time in proportion to their number,
/// up to a logarithm.
pub(crate) fn is_linear(alloc: Global, variables: &[u32]) -> Result<bool, AllocError>
    ensures { IfOk result (λ linear. linear ≡ is_linear variables.now) }
{
    let mut seen = BTreeSet::new(alloc);
    for x in variables {
        if !seen.insert(*x)? {
            return Ok(false);
        }
    }
    Ok(true)
}

/// Whether a variable is among these.
pub(crate) fn holds(variables: &[u32], x: u32) -> bool
    ensures { result ≡ holds x variables.now }
{
    variables.contains(&x)
}
