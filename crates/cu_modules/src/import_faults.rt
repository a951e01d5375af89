//! What is wrong with import lists.
ghost use Rattle.std.specs.Prelude.{◌≡◌, ◌&&◌, ◌++◌, List, ℕ, IfOk, OnOk, map};
ghost use Rattle.std.specs.List.{All, filter, flat_map, list_any};
ghost use Rattle.cu_entities.specs.Entities as meant;
ghost use Rattle.cu_entities.specs.EntityMeaning.{is_type_sort};
ghost use Rattle.cu_entities.specs.declared.entities.Entity.{Entity};
ghost use Rattle.cu_modules.specs.Faults.{constructor_faults, import_entity_faults, import_faults, unless};
ghost use Rattle.cu_modules.specs.Exports.{AreInterfaces};
ghost use Rattle.cu_modules.specs.Inside.Imported.{AreImportsOf};
ghost use Rattle.cu_modules.specs.Inside.Lists.{called, lists_entity};
ghost use Rattle.cu_modules.specs.Inside.Telling.{Told};
ghost use Rattle.cu_modules.specs.Known.{AreEntities};
ghost use Rattle.cu_modules.specs.Scopes.{Interface, is_type_of, types_called};
ghost use Rattle.cu_names.specs.Texts.{AllDiffer};
ghost use Rattle.cu_names.specs.declared.names.NameId.{NameId};
ghost use Rattle.cu_syntax.specs.Items as items;
ghost use Rattle.cu_syntax.specs.Items.{constructors_meaning, import_meaning};
ghost use Rattle.cu_syntax.specs.Names.{name_meaning};
ghost use Rattle.cu_syntax.specs.Owners.{ConstructorsAreOf, EntityIsOf, ImportIsOf, NameIsOf};
ghost use Rattle.cu_syntax.specs.Syntax as parsed;

use crate::interfaces::Interfaces;
use crate::lists::{is_beside, is_called, names_entity};
use crate::telling::{tell_constructors, tell_unless};
use cu_entities::Entity;
use cu_syntax as syntax;
use cu_syntax::{Constructors, Import, Name};
use cu_uses::FirstFault;
use std::alloc::{AllocError, Global};

/// Whether an entry of an import list names one of these exports.
fn is_exported(entry: &syntax::Entity, exports: &[Entity]) -> bool
    ensures { result ≡ list_any (λ (e : Entity). lists_entity exports.now e entry.now) exports.now }
{
    exports.iter().any(|e| names_entity(entry, exports, *e))
}

/// Whether a type of a name is among these exports.
fn is_type_exported(name: &Name, exports: &[Entity]) -> bool
    ensures { result
        ≡ list_any (λ (t : Entity). is_type_sort t.sort && called name.now t) exports.now }
{
    exports
        .iter()
        .any(|t| t.sort.is_type() && is_called(name, *t))
}

/// The exported constructors of the exported types of a name.
fn constructors_beside(
    alloc: Global,
    name: &Name,
    exports: &[Entity],
) -> Result<Vec<Entity>, AllocError>
    ensures { (owner : NameId) (names : List (List ℕ)) (es : List meant.Entity)
        → AllDiffer names → NameIsOf owner names name.now → AreEntities names es exports.now
        → IfOk result (λ found. AreEntities names
        (filter (λ e. list_any (is_type_of e) (types_called (name_meaning names name.now) es)) es)
        found.items) }
{
    let mut found = Vec::new(alloc);
    'exports: for entity in exports {
        if !is_beside(name, exports, *entity) {
            continue;
        }
        found.push(*entity)?;
    }
    Ok(found)
}

/// Tells what is wrong with a type, and with the constructors beside it, in an
/// import list.
fn tell_type(
    alloc: Global,
    name: &Name,
    constructors: &Constructors,
    exports: &[Entity],
    first: &mut FirstFault,
) -> Result<(), AllocError>
    ensures { (owner : NameId) (names : List (List ℕ)) (es : List meant.Entity)
        → AllDiffer names → NameIsOf owner names name.now
        → ConstructorsAreOf owner names constructors.now → AreEntities names es exports.now
        → OnOk result (Told owner names first.old
        (unless (list_any (λ (t : Entity). is_type_sort t.sort && called name.now t) exports.now)
        (name_meaning names name.now)
        ++ constructor_faults
        (filter (λ e. list_any (is_type_of e) (types_called (name_meaning names name.now) es)) es)
        (constructors_meaning names constructors.now)) first.new) }
{
    tell_unless(is_type_exported(name, exports), name, first);
    let beside = constructors_beside(alloc, name, exports)?;
    tell_constructors(beside.as_slice(), constructors, first);
    Ok(())
}

/// Tells what is wrong with an entry of an import list.
fn tell_entry(
    alloc: Global,
    entry: &syntax::Entity,
    exports: &[Entity],
    first: &mut FirstFault,
) -> Result<(), AllocError>
    ensures { (owner : NameId) (names : List (List ℕ)) (es : List meant.Entity)
        → AllDiffer names → EntityIsOf owner names entry.now → AreEntities names es exports.now
        → OnOk result (Told owner names first.old
        (import_entity_faults es (items.entity_meaning names entry.now)) first.new) }
{
    match entry {
        syntax::Entity::Variable(_, name) => {
            tell_unless(is_exported(entry, exports), name, first);
            Ok(())
        }
        syntax::Entity::Type(_, name, constructors) => {
            tell_type(alloc, name, constructors, exports, first)
        }
    }
}

/// Tells what is wrong with the entries of an import list.
fn tell_entries(
    alloc: Global,
    entries: &[syntax::Entity],
    exports: &[Entity],
    first: &mut FirstFault,
) -> Result<(), AllocError>
    ensures { (owner : NameId) (names : List (List ℕ)) (es : List meant.Entity)
        → AllDiffer names → All (EntityIsOf owner names) entries.now
        → AreEntities names es exports.now
        → OnOk result (Told owner names first.old
        (flat_map (import_entity_faults es) (map (items.entity_meaning names) entries.now))
        first.new) }
{
    'entries: for entry in entries {
        tell_entry(alloc, entry, exports, first)?;
    }
    Ok(())
}

/// Tells what is wrong with an import's list.
fn tell_import(
    alloc: Global,
    import: &Import,
    interfaces: &Interfaces,
    first: &mut FirstFault,
) -> Result<(), AllocError>
    ensures { (owner : NameId) (names : List (List ℕ)) (before : List Interface)
        → AllDiffer names → ImportIsOf owner names import.now
        → AreInterfaces names before interfaces.now
        → OnOk result (Told owner names first.old
        (import_faults before (import_meaning names import.now)) first.new) }
{
    let exports = interfaces.of(import.name.text);
    match &import.list {
        Some(list) => tell_entries(alloc, list.entities.as_slice(), exports, first),
        None => Ok(()),
    }
}

/// Tells what is wrong with the lists of imports.
pub(crate) fn tell_imports(
    alloc: Global,
    imports: &[Import],
    interfaces: &Interfaces,
    first: &mut FirstFault,
) -> Result<(), AllocError>
    ensures { (owner : NameId) (names : List (List ℕ)) (before : List Interface)
        (imported : List parsed.Import)
        → AllDiffer names → AreImportsOf owner names imported imports.now
        → AreInterfaces names before interfaces.now
        → OnOk result (Told owner names first.old
        (flat_map (import_faults before) imported) first.new) }
{
    'imports: for import in imports {
        tell_import(alloc, import, interfaces, first)?;
    }
    Ok(())
}
