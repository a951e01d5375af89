//! What is wrong with export lists.
ghost use Rattle.std.specs.Prelude.{◌≡◌, ◌||◌, ◌++◌, List, ℕ, OnOk, map, nat_eq};
ghost use Rattle.std.specs.List.{All, flat_map, list_any};
ghost use Rattle.cu_entities.specs.Bindings.{Binding};
ghost use Rattle.cu_entities.specs.Entities.{Types, Values};
ghost use Rattle.cu_lex.specs.Located.{Position};
ghost use Rattle.cu_modules.specs.Faults.{constructor_faults, constructors_of, export_faults};
ghost use Rattle.cu_modules.specs.Inside.Binding.{IsScope};
ghost use Rattle.cu_modules.specs.Inside.Scoped.{IsScoped};
ghost use Rattle.cu_modules.specs.Inside.Telling.{Told};
ghost use Rattle.cu_modules.specs.Ordering.{module_of};
ghost use Rattle.cu_modules.specs.Reading.{HasModule};
ghost use Rattle.cu_modules.specs.Scopes.{Interface, Named, meant, scope};
ghost use Rattle.cu_names.specs.Texts.{AllDiffer};
ghost use Rattle.cu_names.specs.declared.names.NameId.{NameId};
ghost use Rattle.cu_syntax.specs.Items as items;
ghost use Rattle.cu_syntax.specs.Items.{constructors_meaning, export_meaning};
ghost use Rattle.cu_syntax.specs.Names.{module_name_meaning, name_meaning};
ghost use Rattle.cu_syntax.specs.Owners.{ConstructorsAreOf, EntityIsOf, ExportIsOf, ModuleNameIsOf, NameIsOf};
ghost use Rattle.cu_syntax.specs.Syntax as parsed;
ghost use Rattle.cu_syntax.specs.declared.items.Import.{Import};
ghost use Rattle.cu_uses.specs.Faults.{unless_one};
ghost use Rattle.cu_uses.specs.declared.fault.Wrong.TheVariants.{NotExported};

use crate::Module;
use crate::listing::{constructors_of, is_of, meant};
use crate::module_scope::ModuleScope;
use crate::scoped::Scoped;
use crate::telling::{tell_constructors, tell_unless_one};
use cu_entities::Space;
use cu_names::NameId;
use cu_syntax as syntax;
use cu_syntax::{Constructors, Export, Import, ModuleName, Name};
use cu_uses::{Fault, FirstFault, Wrong};
use std::alloc::{AllocError, Global};

/// Whether a name is that of a module that is imported.
fn is_imported(name: NameId, imports: &[Import]) -> bool
    ensures { result ≡ list_any (λ (i : Import). nat_eq i.name.text.0 name.0) imports.now }
{
    imports.iter().any(|import| is_of(import, name))
}

/// Whether a name is that of a module or of one of its imports.
fn is_open(name: NameId, module: &Module, imports: &[Import]) -> bool
    ensures { result ≡ (nat_eq name.0 «module».now.name.0
        || list_any (λ (i : Import). nat_eq i.name.text.0 name.0) imports.now) }
{
    name == module.name || is_imported(name, imports)
}

/// Tells what is wrong with a module in a module's export list.
fn tell_module(name: &ModuleName, module: &Module, scoped: &Scoped, first: &mut FirstFault)
    ensures { (names : List (List ℕ)) (before : List Interface) (at : Position)
        → AllDiffer names → HasModule names «module».now
        → IsScoped names before «module».now scoped.now
        → ModuleNameIsOf «module».now.name names name.now
        → Told «module».now.name names first.old
        (export_faults before (module_of names «module».now)
        (parsed.ModuleExport at (module_name_meaning names name.now))) first.new }
{
    if is_open(name.text, module, scoped.imports.as_slice()) {
        return;
    }
    first.tell(Fault {
        wrong: Wrong::NotExported,
        place: name.place,
        name: name.text,
    });
}

/// Tells what is wrong with a function in an export list.
fn tell_value(
    alloc: Global,
    name: &Name,
    scope: &ModuleScope,
    first: &mut FirstFault,
) -> Result<(), AllocError>
    ensures { (owner : NameId) (names : List (List ℕ)) (bindings : List Binding)
        → AllDiffer names → NameIsOf owner names name.now → IsScope names bindings scope.now
        → OnOk result (Told owner names first.old
        (unless_one NotExported (name_meaning names name.now)
        (meant bindings Values (name_meaning names name.now))) first.new) }
{
    let found = meant(alloc, scope, Space::Values, name)?;
    tell_unless_one(found.as_slice(), name, first);
    Ok(())
}

/// Tells what is wrong with a type, and with the constructors beside it, in an
/// export list.
fn tell_type(
    alloc: Global,
    name: &Name,
    constructors: &Constructors,
    scope: &ModuleScope,
    first: &mut FirstFault,
) -> Result<(), AllocError>
    ensures { (owner : NameId) (names : List (List ℕ)) (bindings : List Binding)
        → AllDiffer names → NameIsOf owner names name.now
        → ConstructorsAreOf owner names constructors.now → IsScope names bindings scope.now
        → OnOk result (Told owner names first.old
        (unless_one NotExported (name_meaning names name.now)
        (meant bindings Types (name_meaning names name.now))
        ++ constructor_faults
        (constructors_of bindings (meant bindings Types (name_meaning names name.now)))
        (constructors_meaning names constructors.now)) first.new) }
{
    let types = meant(alloc, scope, Space::Types, name)?;
    tell_unless_one(types.as_slice(), name, first);
    let all = constructors_of(alloc, scope, &Constructors::All, types.as_slice())?;
    tell_constructors(all.as_slice(), constructors, first);
    Ok(())
}

/// Tells what is wrong with an entity in an export list.
fn tell_entity(
    alloc: Global,
    entity: &syntax::Entity,
    scoped: &Scoped,
    first: &mut FirstFault,
) -> Result<(), AllocError>
    ensures { (owner : NameId) (names : List (List ℕ)) (before : List Interface) (m : Named)
        → AllDiffer names → EntityIsOf owner names entity.now
        → IsScope names (scope before m) scoped.now.scope
        → OnOk result (Told owner names first.old
        (export_faults before m (parsed.EntityExport (items.entity_meaning names entity.now)))
        first.new) }
{
    match entity {
        syntax::Entity::Variable(_, name) => tell_value(alloc, name, &scoped.scope, first),
        syntax::Entity::Type(_, name, constructors) => {
            tell_type(alloc, name, constructors, &scoped.scope, first)
        }
    }
}

/// Tells what is wrong with an entry of a module's export list.
fn tell_export(
    alloc: Global,
    export: &Export,
    module: &Module,
    scoped: &Scoped,
    first: &mut FirstFault,
) -> Result<(), AllocError>
    ensures { (names : List (List ℕ)) (before : List Interface)
        → AllDiffer names → HasModule names «module».now
        → IsScoped names before «module».now scoped.now
        → ExportIsOf «module».now.name names export.now
        → OnOk result (Told «module».now.name names first.old
        (export_faults before (module_of names «module».now) (export_meaning names export.now))
        first.new) }
{
    match export {
        Export::Module(_, name) => {
            tell_module(name, module, scoped, first);
            Ok(())
        }
        Export::Entity(entity) => tell_entity(alloc, entity, scoped, first),
    }
}

/// Tells what is wrong with the entries of a module's export list.
pub(crate) fn tell_exports(
    alloc: Global,
    exports: &[Export],
    module: &Module,
    scoped: &Scoped,
    first: &mut FirstFault,
) -> Result<(), AllocError>
    ensures { (names : List (List ℕ)) (before : List Interface)
        → AllDiffer names → HasModule names «module».now
        → IsScoped names before «module».now scoped.now
        → All (ExportIsOf «module».now.name names) exports.now
        → OnOk result (Told «module».now.name names first.old
        (flat_map (export_faults before (module_of names «module».now))
        (map (export_meaning names) exports.now)) first.new) }
{
    'exports: for export in exports {
        tell_export(alloc, export, module, scoped, first)?;
    }
    Ok(())
}
