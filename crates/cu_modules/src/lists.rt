//! Entities that import lists name.
ghost use Rattle.std.specs.Prelude.{◌≡◌, List, ℕ, IfOk, IfSome, Some};
ghost use Rattle.std.specs.List.{list_any};
ghost use Rattle.std.specs.Option.{option_map};
ghost use Rattle.cu_entities.specs.Entities as meant;
ghost use Rattle.cu_modules.specs.Inside.Lists.{called, comes, is_beside, is_left, lists_entity};
ghost use Rattle.cu_modules.specs.Known.{AreEntities};
ghost use Rattle.cu_modules.specs.Scopes.{taken};
ghost use Rattle.cu_names.specs.Texts.{AllDiffer};
ghost use Rattle.cu_names.specs.declared.names.NameId.{NameId};
ghost use Rattle.cu_syntax.specs.declared.name.Name.{Name};
ghost use Rattle.cu_syntax.specs.Items.{import_list_meaning};
ghost use Rattle.cu_syntax.specs.Owners.{ImportListIsOf};

use cu_entities::Entity;
use cu_syntax as syntax;
use cu_syntax::{Constructors, ImportList, Name};
use std::alloc::{AllocError, Global};

/// Whether an unqualified name is that of an entity.
pub(crate) fn is_called(name: &Name, entity: Entity) -> bool
    ensures { result ≡ called name.now entity }
{
    name.qualifier.is_none() && name.base == entity.name
}

/// Whether a constructor comes with its type.
pub(crate) fn comes_with(constructors: &Constructors, entity: Entity) -> bool
    ensures { result ≡ comes constructors.now entity }
{
    match constructors {
        Constructors::None => false,
        Constructors::All => true,
        Constructors::Only(names) => is_any(names.as_slice(), entity),
    }
}

/// Whether one of several names is that of an entity.
fn is_any(names: &[Name], entity: Entity) -> bool
    ensures { result ≡ list_any (λ (name : Name). called name entity) names.now }
{
    names.iter().any(|name| is_called(name, entity))
}

/// Whether an entity is a constructor of one of the types that have this name
/// among others.
pub(crate) fn is_beside(name: &Name, entities: &[Entity], entity: Entity) -> bool
    ensures { result ≡ is_beside name.now entities.now entity }
{
    entities.iter().any(|t| t.sort.is_type() && is_called(name, *t) && entity.is_constructor_of(*t))
}

/// Whether an entry names an entity among these exports.
pub(crate) fn names_entity(entry: &syntax::Entity, exports: &[Entity], entity: Entity) -> bool
    ensures { result ≡ lists_entity exports.now entity entry.now }
{
    match entry {
        syntax::Entity::Variable(_, name) => entity.sort.is_function() && is_called(name, entity),
        syntax::Entity::Type(_, name, constructors) => {
            entity.sort.is_type() && is_called(name, entity)
                || comes_with(constructors, entity) && is_beside(name, exports, entity)
        }
    }
}

/// Whether an import list names an entity among these exports.
fn is_listed(list: &ImportList, exports: &[Entity], entity: Entity) -> bool
    ensures { result ≡ list_any (lists_entity exports.now entity) list.now.entities.items }
{
    list.entities
        .iter()
        .any(|entry| names_entity(entry, exports, entity))
}

/// Whether an import with this list leaves out an export of its module.
fn leaves(list: &ImportList, exports: &[Entity], entity: Entity) -> bool
    ensures { result ≡ is_left list.now exports.now entity }
{
    let listed = is_listed(list, exports, entity);
    if list.hides { listed } else { !listed }
}

/// What an import takes of the exports of its module.
pub(crate) fn taken(
    alloc: Global,
    list: &Option<ImportList>,
    exports: &[Entity],
) -> Result<Vec<Entity>, AllocError>
    ensures { (owner : NameId) (names : List (List ℕ)) (exported : List meant.Entity)
        → AllDiffer names → IfSome list.now (ImportListIsOf owner names)
        → AreEntities names exported exports.now
        → IfOk result (λ found. AreEntities names
        (taken (option_map (import_list_meaning names) list.now) exported) found.items) }
{
    match list {
        Some(list) => chosen(alloc, list, exports),
        None => Vec::from_slice(alloc, exports),
    }
}

/// The exports that an import list names, or those that it doesn't hide.
fn chosen(alloc: Global, list: &ImportList, exports: &[Entity]) -> Result<Vec<Entity>, AllocError>
    ensures { (owner : NameId) (names : List (List ℕ)) (exported : List meant.Entity)
        → AllDiffer names → ImportListIsOf owner names list.now
        → AreEntities names exported exports.now
        → IfOk result (λ found. AreEntities names
        (taken (Some (import_list_meaning names list.now)) exported) found.items) }
{
    let mut kept = Vec::new(alloc);
    'exports: for entity in exports {
        if leaves(list, exports, *entity) {
            continue;
        }
        kept.push(*entity)?;
    }
    Ok(kept)
}
