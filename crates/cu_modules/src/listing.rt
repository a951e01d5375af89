//! What the entries of export lists name.
ghost use Rattle.std.specs.Prelude.{◌≡◌, List, None, ℕ, IfOk, map, nat_eq};
ghost use Rattle.std.specs.List.{All, filter, flat_map};
ghost use Rattle.cu_entities.specs.Bindings.{Binding, entities_of};
ghost use Rattle.cu_entities.specs.Entities as meant;
ghost use Rattle.cu_entities.specs.Entities.{distinct};
ghost use Rattle.cu_entities.specs.EntityMeaning.{EntityIsKnown, entity_meaning, space_meaning};
ghost use Rattle.cu_entities.specs.NameTables.{KeyIsKnown};
ghost use Rattle.cu_modules.specs.Inside.Binding.{BoundIsKnown, IsScope, bound_meaning};
ghost use Rattle.cu_modules.specs.Inside.Exporting.{brings, is_key};
ghost use Rattle.cu_modules.specs.Exports.{AreInterfaces};
ghost use Rattle.cu_modules.specs.Inside.Imported.{AreImportsOf};
ghost use Rattle.cu_modules.specs.Inside.Scoped.{IsScoped};
ghost use Rattle.cu_modules.specs.Known.{AreEntities};
ghost use Rattle.cu_modules.specs.Ordering.{module_of};
ghost use Rattle.cu_modules.specs.Reading.{HasModule};
ghost use Rattle.cu_modules.specs.Scopes.{Interface, Named, binding, constructors_in, exports_by, meant};
ghost use Rattle.cu_modules.specs.Scopes.{names_module, scope, type_exports, unqualified};
ghost use Rattle.cu_lex.specs.Located.{Position};
ghost use Rattle.cu_names.specs.Texts.{AllDiffer, IsKnown, text_of};
ghost use Rattle.cu_names.specs.declared.names.NameId.{NameId};
ghost use Rattle.cu_syntax.specs.Items as items;
ghost use Rattle.cu_syntax.specs.Items.{constructors_meaning, export_meaning, import_meaning};
ghost use Rattle.cu_syntax.specs.Names.{module_name_meaning, name_meaning};
ghost use Rattle.cu_syntax.specs.Owners.{ConstructorsAreOf, EntityIsOf, ExportIsOf, ImportIsOf, ModuleNameIsOf, NameIsOf};
ghost use Rattle.cu_syntax.specs.Syntax as syntax;

use crate::Module;
use crate::binding::unqualified;
use crate::hiding::unhidden;
use crate::interfaces::Interfaces;
use crate::lists::{comes_with, taken};
use crate::module_scope::{Bound, ModuleScope};
use crate::scoped::Scoped;
use cu_entities::{Entity, EntitySet, Key, Space};
use cu_names::NameId;
use cu_syntax as syntax;
use cu_syntax::{Constructors, Export, Import, ModuleName, Name};
use std::alloc::{AllocError, Global};

/// Whether a key is that of what is bound.
fn is_key(bound: &Bound, key: Key) -> bool
    ensures { (names : List (List ℕ)) → AllDiffer names → BoundIsKnown names bound.now
        → KeyIsKnown names key
        → result ≡ is_key names key (bound_meaning names bound.now) }
{
    Key::of(bound.qualifier, bound.entity) == key
}

/// The bound entities that a key finds, in order.
fn matching(alloc: Global, bound: &[Bound], key: Key) -> Result<Vec<Entity>, AllocError>
    ensures { (names : List (List ℕ)) → AllDiffer names → All (BoundIsKnown names) bound.now
        → KeyIsKnown names key
        → IfOk result (λ found. AreEntities names
        (entities_of (filter (is_key names key) (map (bound_meaning names) bound.now)))
        found.items) }
{
    let mut found = Vec::new(alloc);
    'bound: for one in bound {
        if !is_key(one, key) {
            continue;
        }
        found.push(one.entity)?;
    }
    Ok(found)
}

/// The entities of a list, each once.
pub(crate) fn each_once(alloc: Global, entities: &[Entity]) -> Result<Vec<Entity>, AllocError>
    ensures { (names : List (List ℕ)) (meant : List meant.Entity) → AllDiffer names
        → AreEntities names meant entities.now
        → IfOk result (λ found. AreEntities names (distinct meant) found.items) }
{
    let mut set = EntitySet::new(alloc);
    'each: for entity in entities {
        set.add(*entity)?;
    }
    Vec::from_slice(alloc, set.entities())
}

/// The entities that a name means in a scope, each once.
pub(crate) fn meant(
    alloc: Global,
    scope: &ModuleScope,
    space: Space,
    name: &Name,
) -> Result<Vec<Entity>, AllocError>
    ensures { (owner : NameId) (names : List (List ℕ)) (bindings : List Binding)
        → AllDiffer names → NameIsOf owner names name.now → IsScope names bindings scope.now
        → IfOk result (λ found. AreEntities names
        (meant bindings (space_meaning space) (name_meaning names name.now)) found.items) }
{
    let key = Key {
        qualifier: name.qualifier,
        base: name.base,
        space,
    };
    let found = matching(alloc, scope.bound.as_slice(), key)?;
    each_once(alloc, found.as_slice())
}

/// Whether an entity is a constructor of a type and comes with it.
fn is_brought(entity: Entity, constructors: &Constructors, of: Entity) -> bool
    ensures { result ≡ brings constructors.now of entity }
{
    entity.is_constructor_of(of) && comes_with(constructors, entity)
}

/// The bound constructors of a type that come with it.
fn constructors_in(
    alloc: Global,
    bound: &[Bound],
    constructors: &Constructors,
    of: Entity,
) -> Result<Vec<Entity>, AllocError>
    ensures { (owner : NameId) (names : List (List ℕ))
        → AllDiffer names → All (BoundIsKnown names) bound.now → EntityIsKnown names of
        → ConstructorsAreOf owner names constructors.now
        → IfOk result (λ found. AreEntities names
        (constructors_in (map (bound_meaning names) bound.now)
        (constructors_meaning names constructors.now) (entity_meaning names of))
        found.items) }
{
    let mut found = Vec::new(alloc);
    'bound: for one in bound {
        if !is_brought(one.entity, constructors, of) {
            continue;
        }
        found.push(one.entity)?;
    }
    Ok(found)
}

/// The constructors of types that come with them.
pub(crate) fn constructors_of(
    alloc: Global,
    scope: &ModuleScope,
    constructors: &Constructors,
    types: &[Entity],
) -> Result<Vec<Entity>, AllocError>
    ensures { (owner : NameId) (names : List (List ℕ)) (bindings : List Binding)
        (ts : List meant.Entity)
        → AllDiffer names → IsScope names bindings scope.now → AreEntities names ts types.now
        → ConstructorsAreOf owner names constructors.now
        → IfOk result (λ found. AreEntities names
        (flat_map (constructors_in bindings (constructors_meaning names constructors.now)) ts)
        found.items) }
{
    let mut all = Vec::new(alloc);
    'types: for t in types {
        let more = constructors_in(alloc, scope.bound.as_slice(), constructors, *t)?;
        all.extend_from_slice(more.as_slice())?;
    }
    Ok(all)
}

/// Types, each with the constructors after it that come with it.
fn type_exports(
    alloc: Global,
    scope: &ModuleScope,
    constructors: &Constructors,
    types: Vec<Entity>,
) -> Result<Vec<Entity>, AllocError>
    ensures { (owner : NameId) (names : List (List ℕ)) (bindings : List Binding)
        (ts : List meant.Entity)
        → AllDiffer names → IsScope names bindings scope.now → AreEntities names ts types.items
        → ConstructorsAreOf owner names constructors.now
        → IfOk result (λ found. AreEntities names
        (type_exports bindings (constructors_meaning names constructors.now) ts) found.items) }
{
    let more = constructors_of(alloc, scope, constructors, types.as_slice())?;
    let mut all = types;
    all.extend_from_slice(more.as_slice())?;
    Ok(all)
}

/// The entities that an import brings without a qualifier.
fn unqualified_by(
    alloc: Global,
    import: &Import,
    own: &ModuleScope,
    interfaces: &Interfaces,
) -> Result<Vec<Entity>, AllocError>
    ensures { (owner : NameId) (names : List (List ℕ)) (mine : List meant.Entity)
        (before : List Interface)
        → AllDiffer names → ImportIsOf owner names import.now
        → IsScope names (map (binding None) mine) own.now
        → AreInterfaces names before interfaces.now
        → IfOk result (λ found. AreEntities names
        (unqualified mine before (import_meaning names import.now)) found.items) }
{
    if import.qualified {
        return Ok(Vec::new(alloc));
    }
    let exports = interfaces.of(import.name.text);
    let taken = taken(alloc, &import.list, exports)?;
    unhidden(alloc, own, taken.as_slice())
}

/// Whether an import is of the module of a name.
pub(crate) fn is_of(import: &Import, name: NameId) -> bool
    ensures { result ≡ nat_eq import.now.name.text.0 name.0 }
{
    import.name.text == name
}

/// The entities that the imports of a module bring without a qualifier.
fn module_exports(
    alloc: Global,
    name: NameId,
    imports: &[Import],
    own: &ModuleScope,
    interfaces: &Interfaces,
) -> Result<Vec<Entity>, AllocError>
    ensures { (owner : NameId) (names : List (List ℕ)) (mine : List meant.Entity)
        (before : List Interface) (imported : List syntax.Import)
        → AllDiffer names → IsKnown names name → AreImportsOf owner names imported imports.now
        → IsScope names (map (binding None) mine) own.now
        → AreInterfaces names before interfaces.now
        → IfOk result (λ found. AreEntities names
        (flat_map (unqualified mine before)
        (filter (names_module (text_of names name)) imported)) found.items) }
{
    let mut all = Vec::new(alloc);
    'imports: for import in imports {
        if !is_of(import, name) {
            continue;
        }
        let more = unqualified_by(alloc, import, own, interfaces)?;
        all.extend_from_slice(more.as_slice())?;
    }
    Ok(all)
}

/// What the name of a module in an export list exports.
fn module_export(
    alloc: Global,
    name: &ModuleName,
    module: &Module,
    interfaces: &Interfaces,
    scoped: &Scoped,
) -> Result<Vec<Entity>, AllocError>
    ensures { (names : List (List ℕ)) (before : List Interface) (at : Position)
        → AllDiffer names → HasModule names «module».now
        → AreInterfaces names before interfaces.now
        → IsScoped names before «module».now scoped.now
        → ModuleNameIsOf «module».now.name names name.now
        → IfOk result (λ found. AreEntities names
        (exports_by before (module_of names «module».now)
        (syntax.ModuleExport at (module_name_meaning names name.now))) found.items) }
{
    let own = scoped.own.as_slice();
    if name.text == module.name {
        return Vec::from_slice(alloc, own);
    }
    let visible = unqualified(alloc, own)?;
    module_exports(
        alloc,
        name.text,
        scoped.imports.as_slice(),
        &visible,
        interfaces,
    )
}

/// What an entity in an export list exports.
fn entity_export(
    alloc: Global,
    entity: &syntax::Entity,
    scoped: &Scoped,
) -> Result<Vec<Entity>, AllocError>
    ensures { (owner : NameId) (names : List (List ℕ)) (before : List Interface) (m : Named)
        → AllDiffer names → IsScope names (scope before m) scoped.now.scope
        → EntityIsOf owner names entity.now
        → IfOk result (λ found. AreEntities names
        (exports_by before m (syntax.EntityExport (items.entity_meaning names entity.now)))
        found.items) }
{
    match entity {
        syntax::Entity::Variable(_, name) => meant(alloc, &scoped.scope, Space::Values, name),
        syntax::Entity::Type(_, name, constructors) => {
            let types = meant(alloc, &scoped.scope, Space::Types, name)?;
            type_exports(alloc, &scoped.scope, constructors, types)
        }
    }
}

/// What an entry of a module's export list exports.
fn exported_by(
    alloc: Global,
    export: &Export,
    module: &Module,
    interfaces: &Interfaces,
    scoped: &Scoped,
) -> Result<Vec<Entity>, AllocError>
    ensures { (names : List (List ℕ)) (before : List Interface)
        → AllDiffer names → HasModule names «module».now
        → AreInterfaces names before interfaces.now
        → IsScoped names before «module».now scoped.now
        → ExportIsOf «module».now.name names export.now
        → IfOk result (λ found. AreEntities names
        (exports_by before (module_of names «module».now) (export_meaning names export.now))
        found.items) }
{
    match export {
        Export::Module(_, name) => module_export(alloc, name, module, interfaces, scoped),
        Export::Entity(entity) => entity_export(alloc, entity, scoped),
    }
}

/// What a module's export list exports, one entry after another.
pub(crate) fn listed(
    alloc: Global,
    exports: &[Export],
    module: &Module,
    interfaces: &Interfaces,
    scoped: &Scoped,
) -> Result<Vec<Entity>, AllocError>
    ensures { (names : List (List ℕ)) (before : List Interface)
        → AllDiffer names → HasModule names «module».now
        → AreInterfaces names before interfaces.now
        → IsScoped names before «module».now scoped.now
        → All (ExportIsOf «module».now.name names) exports.now
        → IfOk result (λ found. AreEntities names
        (flat_map (exports_by before (module_of names «module».now))
        (map (export_meaning names) exports.now)) found.items) }
{
    let mut all = Vec::new(alloc);
    'exports: for export in exports {
        let more = exported_by(alloc, export, module, interfaces, scoped)?;
        all.extend_from_slice(more.as_slice())?;
    }
    Ok(all)
}
