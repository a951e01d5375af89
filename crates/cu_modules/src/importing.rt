//! The imports of modules, and what they bring into scope.
ghost use Rattle.std.specs.Prelude.{◌≡◌, ◌++◌, ◌∷◌, [], List, None, ℕ, IfOk, OnOk, map};
ghost use Rattle.std.specs.List.{flat_map};
ghost use Rattle.cu_entities.specs.Bindings.{Binding};
ghost use Rattle.cu_entities.specs.Entities as meant;
ghost use Rattle.cu_modules.specs.BuiltInEntities.{HasBuiltIn, prelude_name};
ghost use Rattle.cu_modules.specs.Inside.Binding.{IsScope};
ghost use Rattle.cu_modules.specs.Exports.{AreInterfaces};
ghost use Rattle.cu_modules.specs.Inside.Imported.{AreImportsOf, option_imports};
ghost use Rattle.cu_modules.specs.Ordering.{module_of};
ghost use Rattle.cu_modules.specs.Reading.{HasModule};
ghost use Rattle.cu_modules.specs.Scopes.{Interface, binding, import_bindings, imports_by};
ghost use Rattle.cu_modules.specs.Scopes.{imports_of, prelude_import, qualifier_of};
ghost use Rattle.cu_names.specs.Texts.{AllDiffer, IsKnown, text_of};
ghost use Rattle.cu_names.specs.declared.names.NameId.{NameId};
ghost use Rattle.cu_syntax.specs.Answer.{item_meaning, items_meaning, module_meaning};
ghost use Rattle.cu_syntax.specs.Items.{import_meaning};
ghost use Rattle.cu_syntax.specs.Owners.{ImportIsOf, ItemIsOf};
ghost use Rattle.cu_syntax.specs.Syntax as syntax;

use crate::Module;
use crate::built_in::found;
use crate::hiding::unhidden;
use crate::imports::{says_so, written};
use crate::interfaces::Interfaces;
use crate::lists::taken;
use crate::module_scope::ModuleScope;
use cu_names::{NameId, Names, Place};
use cu_syntax::{Import, Item, ItemNode, ModuleName};
use std::alloc::{AllocError, Global};

/// The imports of a module, in the order of the text. That of the whole Prelude
/// is the first, unless the module is the Prelude or says so itself.
pub(crate) fn imports(
    alloc: Global,
    names: &Names,
    module: &Module,
) -> Result<Vec<Import>, AllocError>
    requires built_in { HasBuiltIn names.now }
    requires has { HasModule names.now «module».now }
    ensures { AllDiffer names.now
        → IfOk result (λ found. AreImportsOf «module».now.name names.now
        (imports_of (module_of names.now «module».now)) found.items) }
{
    let prelude = found(names, "Prelude");
    let written = written(alloc, module)?;
    let mut imports = Vec::new(alloc);
    if says_so(module, prelude, written.as_slice()) {
        add_imports(alloc, module, &mut imports)?;
        return Ok(imports);
    }
    imports.push(prelude_import(module.name, prelude))?;
    add_imports(alloc, module, &mut imports)?;
    Ok(imports)
}

/// The import of the whole Prelude, at the start of a text.
fn prelude_import(owner: NameId, prelude: NameId) -> Import
    ensures { (names : List (List ℕ)) → IsKnown names prelude → text_of names prelude ≡ prelude_name
        → AreImportsOf owner names (prelude_import ∷ []) (result ∷ []) }
{
    let place = Place {
        module: owner,
        line: 1,
        column: 1,
    };
    let text = prelude;
    Import {
        place,
        qualified: false,
        name: ModuleName { text, place },
        alias: None,
        list: None,
    }
}

/// Adds the imports that a module writes.
fn add_imports(alloc: Global, module: &Module, imports: &mut Vec<Import>) -> Result<(), AllocError>
    ensures { (names : List (List ℕ)) (before : List syntax.Import) → HasModule names «module».now
        → AreImportsOf «module».now.name names before imports.old.items
        → OnOk result (AreImportsOf «module».now.name names
        (before ++ flat_map imports_by (module_of names «module».now).syntax.items)
        imports.new.items) }
{
    'items: for item in module.syntax.items() {
        let Some(import) = import_of(alloc, item)? else {
            continue;
        };
        imports.push(import)?;
    }
    Ok(())
}

/// The import that an item is, if it is one.
fn import_of(alloc: Global, item: &Item) -> Result<Option<Import>, AllocError>
    ensures { (owner : NameId) (names : List (List ℕ)) → ItemIsOf owner names item.now
        → IfOk result (λ found. AreImportsOf owner names (imports_by (item_meaning names item.now))
        (option_imports found)) }
{
    match item.node(alloc)? {
        ItemNode::Import(import) => Ok(Some(import)),
        _ => Ok(None),
    }
}

/// Binds what an import brings: what it takes of its module, with its
/// qualifier, and without one what the module's own entities don't hide of
/// that.
///
/// # Errors
///
/// An allocation failure. The scope is of no use then.
pub(crate) fn bind_import(
    alloc: Global,
    import: &Import,
    own: &ModuleScope,
    interfaces: &Interfaces,
    scope: &mut ModuleScope,
) -> Result<(), AllocError>
    ensures { (owner : NameId) (names : List (List ℕ)) (mine : List meant.Entity)
        (before : List Interface) (bindings : List Binding)
        → AllDiffer names → ImportIsOf owner names import.now
        → IsScope names (map (binding None) mine) own.now
        → AreInterfaces names before interfaces.now → IsScope names bindings scope.old
        → OnOk result
        (IsScope names (bindings ++ import_bindings mine before
        (import_meaning names import.now)) scope.new) }
{
    let exports = interfaces.of(import.name.text);
    let taken = taken(alloc, &import.list, exports)?;
    scope.bind_all(Some(qualifier_of(import)), taken.as_slice())?;
    if import.qualified {
        return Ok(());
    }
    let visible = unhidden(alloc, own, taken.as_slice())?;
    scope.bind_all(None, visible.as_slice())
}

/// The qualifier that an import gives.
fn qualifier_of(import: &Import) -> NameId
    ensures text { (names : List (List ℕ)) → text_of names result
        ≡ qualifier_of (import_meaning names import.now).alias
        (import_meaning names import.now).name }
    ensures known { (owner : NameId) (names : List (List ℕ)) → ImportIsOf owner names import.now
        → IsKnown names result }
{
    match import.alias {
        Some(alias) => alias.text,
        None => import.name.text,
    }
}

/// Binds what imports bring, one after another.
///
/// # Errors
///
/// An allocation failure. The scope is of no use then.
pub(crate) fn bind_imports(
    alloc: Global,
    imports: &[Import],
    own: &ModuleScope,
    interfaces: &Interfaces,
    scope: &mut ModuleScope,
) -> Result<(), AllocError>
    ensures { (owner : NameId) (names : List (List ℕ)) (mine : List meant.Entity)
        (before : List Interface) (bindings : List Binding) (imported : List syntax.Import)
        → AllDiffer names → AreImportsOf owner names imported imports.now
        → IsScope names (map (binding None) mine) own.now
        → AreInterfaces names before interfaces.now → IsScope names bindings scope.old
        → OnOk result
        (IsScope names (bindings ++ flat_map (import_bindings mine before) imported)
        scope.new) }
{
    'imports: for import in imports {
        bind_import(alloc, import, own, interfaces, scope)?;
    }
    Ok(())
}
