//! Parts of programs before lifting: whether they are right by themselves.
ghost use Rattle.std.specs.Prelude.{◌≡◌, ◌↔◌, IfOk, IsTrue, MatchOption, map};
ghost use Rattle.std.specs.List.{list_all};
ghost use Rattle.cu_kernel.specs.KernelOf.{mark_meaning};
ghost use Rattle.cu_kernel.specs.LocalKernelOf.{local_kernel_of};
ghost use Rattle.cu_kernel.specs.LocalValid.{IsPart, captures_nothing};

use crate::scoped::are_scoped;
use crate::type_variables::{are_data_types, are_synonyms};
use cu_kernel::{LocalParts, LocalProgram, Mark};
use std::alloc::{AllocError, Global};

/// Whether no mark counts captured variables.
fn capture_nothing(marks: &[Mark]) -> bool
    ensures { result ≡ list_all captures_nothing (map mark_meaning marks.now) }
{
    for mark in marks {
        if mark.captured != 0 {
            return false;
        }
    }
    true
}

/// Whether all is right that can be told of these parts alone, as
/// [`LocalProgram`] lists it.
///
/// Takes time in proportion to the size of the rules, up to a logarithm of the
/// number of a function's variables, and to the size of a function's rules for
/// each variable that one of its rules uses and doesn't bind. Takes memory for
/// the variables of one function at a time. Terms are walked by recursion. The
/// one error is an allocation failure.
pub fn is_part(alloc: Global, parts: &LocalParts) -> Result<bool, AllocError>
    ensures decides { IfOk result (λ right. IsTrue right ↔ IsPart (local_kernel_of parts.now)) }
{
    if !are_data_types(parts.types.as_slice()) || !are_synonyms(parts.synonyms.as_slice()) {
        return Ok(false);
    }
    if parts.marks.len() != parts.functions.len() || !capture_nothing(parts.marks.as_slice()) {
        return Ok(false);
    }
    are_scoped(alloc, parts.functions.as_slice())
}

/// The program of these parts, where all is right that can be told of them
/// alone, and nothing otherwise. Takes the time and memory that [`is_part`]
/// takes.
pub fn checked(alloc: Global, parts: LocalParts) -> Result<Option<LocalProgram>, AllocError>
    ensures checked { IfOk result (λ checked. MatchOption checked (IsPart (local_kernel_of parts)
        → ⊥)
        (λ program. (program ≡ local_kernel_of parts) × IsPart (local_kernel_of parts))) }
{
    if !is_part(alloc, &parts)? {
        return Ok(None);
    }
    Ok(Some(LocalProgram::new(parts)))
}
