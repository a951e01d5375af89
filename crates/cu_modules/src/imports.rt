//! What modules import.
ghost use Rattle.std.specs.Prelude.{◌≡◌, ◌||◌, ℕ, List, IfOk, nat_eq};
ghost use Rattle.std.specs.List.{list_any};
ghost use Rattle.cu_modules.specs.Imports.{import_texts, option_names, written_in, AreImports};
ghost use Rattle.cu_modules.specs.Ordering.{module_of};
ghost use Rattle.cu_modules.specs.Reading.{HasModule, HasPrelude};
ghost use Rattle.cu_modules.specs.Scopes.{imports_by};
ghost use Rattle.cu_modules.specs.Walk.{import_names};
ghost use Rattle.cu_names.specs.Texts.{AllDiffer};
ghost use Rattle.cu_names.specs.declared.names.NameId.{NameId};
ghost use Rattle.cu_syntax.specs.Answer.{item_meaning};
ghost use Rattle.cu_syntax.specs.Owners.{ItemIsOf};

use crate::Module;
use cu_names::NameId;
use cu_syntax::{Item, ItemNode};
use std::alloc::{AllocError, Global};

/// The names of the modules that a module imports, in the order of the text. It
/// imports the Prelude first of all, unless it is the Prelude or says so
/// itself.
///
/// # Errors
///
/// An allocation failure.
pub fn import_names(
    alloc: Global,
    module: &Module,
    prelude: NameId,
) -> Result<Vec<NameId>, AllocError>
    ensures { (names : List (List ℕ)) → AllDiffer names → HasModule names «module».now
        → HasPrelude names prelude
        → IfOk result (λ found. AreImports names
        (import_names (module_of names «module».now)) found.items) }
{
    let written = written(alloc, module)?;
    if says_so(module, prelude, written.as_slice()) {
        return Ok(written);
    }
    let mut names = vec![in alloc; prelude]?;
    names.extend_from_slice(written.as_slice())?;
    Ok(names)
}

/// Whether a module is the Prelude or writes that it imports it.
pub(crate) fn says_so(module: &Module, prelude: NameId, written: &[NameId]) -> bool
    ensures { result ≡ (nat_eq «module».now.name.0 prelude.0
        || list_any (λ (id : NameId). nat_eq id.0 prelude.0) written.now) }
{
    module.name == prelude || written.contains(&prelude)
}

/// The names in a module's import declarations.
pub(crate) fn written(alloc: Global, module: &Module) -> Result<Vec<NameId>, AllocError>
    ensures { (names : List (List ℕ)) → HasModule names «module».now
        → IfOk result (λ found. AreImports names
        (written_in (module_of names «module».now)) found.items) }
{
    let mut names = Vec::new(alloc);
    'items: for item in module.syntax.items() {
        let Some(name) = imported(alloc, item)? else {
            continue;
        };
        names.push(name)?;
    }
    Ok(names)
}

/// The name of the module that an item imports, if it is an import.
fn imported(alloc: Global, item: &Item) -> Result<Option<NameId>, AllocError>
    ensures { (owner : NameId) (names : List (List ℕ)) → ItemIsOf owner names item.now
        → IfOk result (λ found. AreImports names
        (import_texts (imports_by (item_meaning names item.now))) (option_names found)) }
{
    match item.node(alloc)? {
        ItemNode::Import(import) => Ok(Some(import.name.text)),
        _ => Ok(None),
    }
}
