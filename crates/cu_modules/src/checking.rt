//! Modules one by one: their scopes, their faults and their exports.
ghost use Rattle.std.specs.Prelude.{◌≡◌, ◌∷◌, [], List, ℕ, IfOk, IfSome, OnOk, map, if◌then◌else◌};
ghost use Rattle.std.specs.List.{All, flat_map};
ghost use Rattle.std.specs.Option.{option_map};
ghost use Rattle.cu_entities.specs.Entities as meant;
ghost use Rattle.cu_entities.specs.Entities.{Values, same_space, space_of};
ghost use Rattle.cu_modules.specs.BuiltInEntities.{HasBuiltIn};
ghost use Rattle.cu_modules.specs.Faults.{export_list_faults, faults};
ghost use Rattle.cu_modules.specs.Exports.{AreInterfaces};
ghost use Rattle.cu_modules.specs.Inside.Scoped.{IsScoped};
ghost use Rattle.cu_modules.specs.Inside.Telling.{Told};
ghost use Rattle.cu_modules.specs.Known.{AreEntities};
ghost use Rattle.cu_modules.specs.Ordering.{module_of};
ghost use Rattle.cu_modules.specs.Reading.{HasModule};
ghost use Rattle.cu_modules.specs.Scopes.{Interface, export_list, exported};
ghost use Rattle.cu_names.specs.Texts.{AllDiffer};
ghost use Rattle.cu_syntax.specs.Items.{export_meaning};
ghost use Rattle.cu_syntax.specs.Owners.{ExportIsOf};
ghost use Rattle.cu_uses.specs.Telling.{HasTexts, IsFirstIf};

use crate::Module;
use crate::binding::{own_scope, unqualified};
use crate::export_faults::tell_exports;
use crate::import_faults::tell_imports;
use crate::importing::{bind_imports, imports};
use crate::interfaces::Interfaces;
use crate::listing::{each_once, listed};
use crate::own::own_entities;
use crate::scoped::Scoped;
use cu_entities::Entity;
use cu_names::Names;
use cu_syntax::Export;
use cu_uses::{Fault, FirstFault, TextSet, items_faults};
use std::alloc::{AllocError, Global};

/// What is in scope in a module, given the interfaces of the modules that it
/// imports.
pub(crate) fn scoped(
    alloc: Global,
    names: &Names,
    module: &Module,
    interfaces: &Interfaces,
) -> Result<Scoped, AllocError>
    requires built_in { HasBuiltIn names.now }
    requires has { HasModule names.now «module».now }
    ensures { (before : List Interface) → AllDiffer names.now
        → AreInterfaces names.now before interfaces.now
        → IfOk result (IsScoped names.now before «module».now) }
{
    let own = own_entities(alloc, names, module)?;
    let imports = imports(alloc, names, module)?;
    let visible = unqualified(alloc, own.as_slice())?;
    let mut scope = own_scope(alloc, names, module.name, own.as_slice())?;
    bind_imports(alloc, imports.as_slice(), &visible, interfaces, &mut scope)?;
    Ok(Scoped {
        own,
        imports,
        scope,
    })
}

/// The first fault among a module's names, if there is one.
pub(crate) fn first_fault(
    alloc: Global,
    module: &Module,
    interfaces: &Interfaces,
    scoped: &Scoped,
) -> Result<Option<Fault>, AllocError>
    ensures { (names : List (List ℕ)) (before : List Interface)
        → AllDiffer names → HasModule names «module».now
        → AreInterfaces names before interfaces.now
        → IsScoped names before «module».now scoped.now
        → IfOk result (IsFirstIf «module».now.name names
        (faults before (module_of names «module».now))) }
{
    let mut first = FirstFault::new();
    tell_export_list(alloc, module, scoped, &mut first)?;
    tell_imports(alloc, scoped.imports.as_slice(), interfaces, &mut first)?;
    let known = own_values(alloc, scoped.own.as_slice())?;
    items_faults(
        alloc,
        &scoped.scope.table,
        &known,
        module.syntax.items(),
        &mut first,
    )?;
    Ok(first.fault())
}

/// Tells what is wrong with a module's export list, if it has one.
fn tell_export_list(
    alloc: Global,
    module: &Module,
    scoped: &Scoped,
    first: &mut FirstFault,
) -> Result<(), AllocError>
    ensures { (names : List (List ℕ)) (before : List Interface)
        → AllDiffer names → HasModule names «module».now
        → IsScoped names before «module».now scoped.now
        → OnOk result (Told «module».now.name names first.old
        (export_list_faults before (module_of names «module».now)
        (export_list (module_of names «module».now).syntax.header)) first.new) }
{
    match export_list(alloc, module)? {
        Some(exports) => tell_exports(alloc, exports.as_slice(), module, scoped, first),
        None => Ok(()),
    }
}

/// The texts of the functions and constructors among a module's own entities.
fn own_values(alloc: Global, own: &[Entity]) -> Result<TextSet, AllocError>
    ensures { (names : List (List ℕ)) (mine : List meant.Entity)
        → AllDiffer names → AreEntities names mine own.now
        → IfOk result (HasTexts names
        (flat_map (λ (e : meant.Entity). if same_space Values (space_of e.sort) then e.name ∷ []
        else [])
        mine)) }
{
    let mut values = TextSet::new(alloc);
    'own: for entity in own {
        if entity.sort.is_type() {
            continue;
        }
        values.add(entity.name)?;
    }
    Ok(values)
}

/// What a module without faults exports.
pub(crate) fn exports(
    alloc: Global,
    module: &Module,
    interfaces: &Interfaces,
    scoped: &Scoped,
) -> Result<Vec<Entity>, AllocError>
    ensures { (names : List (List ℕ)) (before : List Interface)
        → AllDiffer names → HasModule names «module».now
        → AreInterfaces names before interfaces.now
        → IsScoped names before «module».now scoped.now
        → faults before (module_of names «module».now) ≡ []
        → IfOk result (λ found. AreEntities names
        (exported before (module_of names «module».now)) found.items) }
{
    let Some(list) = export_list(alloc, module)? else {
        return each_once(alloc, scoped.own.as_slice());
    };
    let all = listed(alloc, list.as_slice(), module, interfaces, scoped)?;
    each_once(alloc, all.as_slice())
}

/// The export list of a module, if it has one.
fn export_list(alloc: Global, module: &Module) -> Result<Option<Vec<Export>>, AllocError>
    ensures meaning { (names : List (List ℕ)) → IfOk result (λ found.
        option_map (λ exports. map (export_meaning names) exports.items) found
        ≡ export_list (module_of names «module».now).syntax.header) }
    ensures owned { (names : List (List ℕ)) → HasModule names «module».now
        → IfOk result (λ found. IfSome found (λ exports.
        All (ExportIsOf «module».now.name names) exports.items)) }
{
    match module.syntax.header() {
        Some(header) => header.exports(alloc),
        None => Ok(None),
    }
}
