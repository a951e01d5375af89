//! What programs have of modules beside their entities.
ghost use Rattle.std.specs.Prelude.{◌≡◌, List, ℕ, IfOk};
ghost use Rattle.cu_kernel.specs.KernelOf.{module_meaning};
ghost use Rattle.cu_toplevel.specs.Readings.{IsReading};
ghost use Rattle.cu_translation.specs.ModuleTypes as meant;
ghost use Rattle.cu_translation.specs.Parts.{module_info};

use crate::Reading;
use crate::imports::imports_in;
use crate::operators::fixity_declarations;
use cu_kernel::ModuleInfo;
use std::alloc::{AllocError, Global};

/// The name of a module, the modules that it imports, each once, and its fixity
/// declarations, in the order of the text.
///
/// # Errors
///
/// An allocation failure.
pub(crate) fn module_info(alloc: Global, reading: &Reading<'_>) -> Result<ModuleInfo, AllocError>
    ensures { (names : List (List ℕ)) (r : meant.Reading) → IsReading names r reading.now
        → IfOk result (λ found. module_meaning found ≡ module_info r) }
{
    let module = reading.module;
    let imports = imports_in(alloc, module, reading.top.entities.prelude)?;
    let operators = fixity_declarations(alloc, module)?;
    Ok(ModuleInfo {
        name: module.name(),
        imports,
        operators,
    })
}
