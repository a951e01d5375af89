//! The modules that a module imports.
ghost use Rattle.std.specs.Prelude.{◌≡◌, [], List, ℕ, IfOk, map};
ghost use Rattle.std.specs.List.{All};
ghost use Rattle.cu_modules.specs.Ordering.{module_of, texts_of};
ghost use Rattle.cu_modules.specs.Reading.{HasModule, HasPrelude};
ghost use Rattle.cu_names.specs.Texts.{AllDiffer, IsKnown};
ghost use Rattle.cu_translation.specs.ModuleNames.{id_of};
ghost use Rattle.cu_translation.specs.Parts.{each_once, imports_in};

use cu_modules::{Module, import_names};
use cu_names::NameId;
use indexmap::IndexSet;
use std::alloc::{AllocError, Global};

/// The names of a list, each once and where it stands first.
fn each_once(alloc: Global, names: &[NameId]) -> Result<Vec<NameId>, AllocError>
    ensures { (table : List (List ℕ)) → AllDiffer table → All (IsKnown table) names.now
        → IfOk result (λ found. found.items
        ≡ map (id_of table) (each_once [] (texts_of table names.now))) }
{
    let mut once = IndexSet::new(alloc);
    'names: for name in names {
        once.insert(*name)?;
    }
    Vec::from_slice(alloc, once.as_slice())
}

/// The modules that a module imports, each once, in the order of the text.
///
/// # Errors
///
/// An allocation failure.
pub(crate) fn imports_in(
    alloc: Global,
    module: &Module,
    prelude: NameId,
) -> Result<Vec<NameId>, AllocError>
    ensures { (names : List (List ℕ))
        → AllDiffer names → HasModule names «module».now → HasPrelude names prelude
        → IfOk result (λ found. found.items
        ≡ map (id_of names) (imports_in (module_of names «module».now))) }
{
    let names = import_names(alloc, module, prelude)?;
    each_once(alloc, names.as_slice())
}
