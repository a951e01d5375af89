//! Modules as they are translated.
ghost use Rattle.std.specs.Prelude.{◌≡◌, ◌<◌, List, ℕ, length, map};
ghost use Rattle.std.specs.List.{All, list_any};
ghost use Rattle.std.specs.Str.{bytes_eq};
ghost use Rattle.cu_entities.specs.EntityMeaning.{space_meaning};
ghost use Rattle.cu_kernel.specs.KernelOf.{constructor_meaning, type_meaning};
ghost use Rattle.cu_kernel.specs.TypesOf.{type_of};
ghost use Rattle.cu_modules.specs.BuiltInEntities.{prelude_name};
ghost use Rattle.cu_modules.specs.Ordering.{modules_of};
ghost use Rattle.cu_modules.specs.Reading.{HasModule};
ghost use Rattle.cu_modules.specs.ScopeAnswers.{AreScopes};
ghost use Rattle.cu_toplevel.specs.EntityTables.{AreEntities};
ghost use Rattle.cu_toplevel.specs.Inside.Exports.{is_own};
ghost use Rattle.cu_toplevel.specs.Readings.{IsReading};
ghost use Rattle.cu_toplevel.specs.Surrounding.{TellsNames};
ghost use Rattle.cu_translation.specs.ModuleNames.{id_of};
ghost use Rattle.cu_translation.specs.ModuleTypes as meant;
ghost use Rattle.cu_translation.specs.ModuleTypes.{constructor, data_type, is_public};
ghost use Rattle.cu_translation.specs.Parts.{reading};

use crate::{Entities, TopNames};
use cu_entities::{Entity, Space};
use cu_kernel::{Constructor, DataType, TypeTerm};
use cu_modules::{Module, Scopes};
use cu_names::{NameId, Names};

/// A module among others: what its names refer to, and what it exports.
#[derive(Clone, Copy)]
pub struct Reading<'a> {
    pub(crate) top: TopNames<'a>,
    /// The module's place among the modules.
    pub(crate) number: u32,
    pub(crate) module: &'a Module,
    pub(crate) exports: &'a [Entity],
}

/// Whether an entity is the one that the module `owner` declares under a name.
fn is_own(entity: Entity, owner: NameId, space: Space, name: NameId) -> bool
    ensures { result ≡ is_own owner space name entity }
{
    entity.owner == owner && entity.name == name && space == entity.sort.space()
}

/// Whether one of these entities is the one that the module `owner` declares
/// under a name.
fn has_own(entities: &[Entity], owner: NameId, space: Space, name: NameId) -> bool
    ensures { result ≡ list_any (is_own owner space name) entities.now }
{
    entities
        .iter()
        .any(|entity| is_own(*entity, owner, space, name))
}

impl<'a> Reading<'a> {
    /// The module of a number.
    pub fn of(
        entities: &'a Entities,
        scopes: &'a Scopes,
        names: &'a Names,
        modules: &'a [Module],
        number: u32,
    ) -> Reading<'a>
        requires entities { AreEntities names.now (modules_of names.now modules.now) entities.now }
        requires scopes { AreScopes names.now (modules_of names.now modules.now) scopes.now }
        requires has { All (HasModule names.now) modules.now }
        requires number { number < length modules.now }
        ensures reads { IsReading names.now
            (reading names.now (modules_of names.now modules.now) number) result }
        ensures entities { result.top.entities.now ≡ entities.now }
    {
        let module = &modules[number as usize];
        Reading {
            top: TopNames::of(entities, scopes, names, modules, number),
            number,
            module,
            exports: scopes.exports(module.name()),
        }
    }

    /// What names refer to in the module.
    pub fn names(&self) -> TopNames<'a>
        ensures { (names : List (List ℕ)) (r : meant.Reading) → IsReading names r self.now
            → TellsNames names r.names result }
    {
        self.top
    }

    /// Whether the module exports what it declares under the name of this
    /// number.
    pub(crate) fn is_public(&self, space: Space, name: NameId) -> bool
        ensures { (names : List (List ℕ)) (r : meant.Reading) (text : List ℕ)
            → IsReading names r self.now → name ≡ id_of names text
            → result ≡ is_public r (space_meaning space) text }
    {
        has_own(self.exports, self.module.name(), space, name)
    }

    /// Whether the module is the Prelude.
    pub(crate) fn is_prelude(&self) -> bool
        ensures { (names : List (List ℕ)) (r : meant.Reading) → IsReading names r self.now
            → result ≡ bytes_eq r.m.name prelude_name }
    {
        self.module.name() == self.top.entities.prelude
    }

    /// A constructor of the module, by the number of its name.
    pub(crate) fn constructor(&self, name: NameId, fields: Vec<TypeTerm>) -> Constructor
        ensures { (names : List (List ℕ)) (r : meant.Reading) (text : List ℕ)
            → IsReading names r self.now → name ≡ id_of names text
            → constructor_meaning result ≡ constructor r text (map type_of fields.items) }
    {
        Constructor {
            name,
            public: self.is_public(Space::Values, name),
            fields,
        }
    }

    /// A data type of the module, by the number of its name.
    pub(crate) fn data_type(
        &self,
        name: NameId,
        arity: u32,
        constructors: Vec<Constructor>,
    ) -> DataType
        ensures { (names : List (List ℕ)) (r : meant.Reading) (text : List ℕ)
            → IsReading names r self.now → name ≡ id_of names text
            → type_meaning result
            ≡ data_type r text arity (map constructor_meaning constructors.items) }
    {
        DataType {
            name,
            module: self.number,
            arity,
            public: self.is_public(Space::Types, name),
            constructors,
        }
    }
}
